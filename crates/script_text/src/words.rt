//! The words of a line, each with its place.
ghost use Rattle.script_text.specs.Words.{is_blank};
ghost use Rattle.std.specs.Prelude.{◌≡◌, not, position};

use std::marker::Model;

/// A word of a line.
#[derive(Clone, Copy, Debug, Drop)]
pub struct Word<'a> {
    /// Where it begins in the line, counted in bytes from 0.
    pub place: usize,
    /// Its bytes, at least one.
    pub bytes: &'a [u8],
}

/// The words of a line that are still to come. It takes no memory.
#[derive(Debug, Drop)]
pub struct Words<'a> {
    rest: &'a [u8],
    place: usize,
}

impl<'a> Model for Words<'a> {
    ghost use Rattle.std.specs.Prelude.{◌+◌, ◌<◌, ◌^◌, length};
    ghost use Rattle.script_text.specs.Words.{Rest, words_from};

    ghost Value = { Rest };

    ghost view = { λ w. record { words = words_from w.place w.rest.now; end = w.place + length w.rest.now } };

    ghost invariant = { λ w. w.place + length w.rest.now < 2 ^ 64 };
}

impl<'a> Words<'a> {
    ghost use Rattle.std.specs.Prelude.{◌≡◌, ◌∷◌, [], IfNone, IfSome};
    ghost use Rattle.script_text.specs.Words.{rest_of};

    /// All words of a line.
    pub fn of(line: &'a [u8]) -> Words<'a>
        ensures { result ≡ rest_of line.now }
    {
        Words {
            rest: line,
            place: 0,
        }
    }

    /// The line's length.
    pub fn end(&self) -> usize
        ensures { result ≡ self.now.end }
    {
        self.place + self.rest.len()
    }

    /// The next word, taken from those still to come, or `None` where none is left.
    pub fn next_word(&mut self) -> Option<Word<'a>>
        ensures some { IfSome result (λ word. self.old ≡ record { words = record { place = word.place; bytes = word.bytes.now } ∷ self.new.words; end = self.new.end }) }
        ensures none { IfNone result (self.old.words ≡ []) }
        ensures end { self.new.end ≡ self.old.end }
    {
        let begin = word_begin(self.rest)?;
        let (_, from_word) = self.rest.split_at(begin);
        let (bytes, rest) = from_word.split_at(blank(from_word).unwrap_or(from_word.len()));
        let place = self.place + begin;
        self.rest = rest;
        self.place = place + bytes.len();
        Some(Word { place, bytes })
    }
}

// Where the first word begins.
fn word_begin(text: &[u8]) -> Option<usize>
    ensures { result ≡ position (λ b. not (is_blank b)) text.now }
{
    text.iter().position(|b| !(*b == b' ' || *b == b'\t'))
}

// Where the first blank or tab is.
fn blank(text: &[u8]) -> Option<usize>
    ensures { result ≡ position is_blank text.now }
{
    text.iter().position(|b| *b == b' ' || *b == b'\t')
}
