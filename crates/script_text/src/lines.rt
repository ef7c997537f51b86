//! The lines of a script.
ghost use Rattle.script_text.specs.Lines.{line_text, lines_of};
ghost use Rattle.std.specs.Prelude.{[], ◌+◌, ◌<◌, ◌==◌, ◌≡◌, ◌∷◌, ◌↔◌, IfSome, IsNone, length, position};

/// Takes the first line off a script: the line without its end, and what follows that end.
///
/// The end is a line feed, or a carriage return and a line feed; the last line may lack it. Answers `None` where the
/// script is empty.
pub fn next_line(text: &[u8]) -> Option<(&[u8], &[u8])>
    ensures none { IsNone result ↔ (text.now ≡ []) }
    ensures first { IfSome result (λ r. lines_of text.now ≡ r.0.now ∷ lines_of r.1.now) }
    ensures shorter { IfSome result (λ r. length r.1.now < length text.now) }
{
    if text.is_empty() {
        return None;
    }
    match line_feed(text) {
        Some(end) => Some((without_return(&text[..end]), &text[end + 1..])),
        None => Some((without_return(text), &text[text.len()..])),
    }
}

/// How many lines a script has.
pub fn count_lines(text: &[u8]) -> usize
    ensures { result ≡ length (lines_of text.now) }
{
    let mut count = 0;
    let mut rest = text;
    while let Some((_, after)) = next_line(rest) {
        rest = after;
        count += 1;
    }
    count
}

// Where the first line feed is.
fn line_feed(text: &[u8]) -> Option<usize>
    ensures { result ≡ position (λ b. b == 10) text.now }
{
    text.iter().position(|b| *b == b'\n')
}

// A line without the carriage return that may end it.
fn without_return(line: &[u8]) -> &[u8]
    ensures { result.now ≡ line_text line.now }
{
    let Some(last) = line.last() else {
        return line;
    };
    if *last == b'\r' {
        &line[..line.len() - 1]
    } else {
        line
    }
}
