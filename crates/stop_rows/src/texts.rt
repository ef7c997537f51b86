//! The texts of rows.
use ccfs_base::{Bytes, NoMemory};
use itoa::Buffer;
use std::alloc::Global;

/// A part of a text. In it `;` ends a line, and a blank behind that is left out.
pub(crate) enum Part {
    /// These words.
    Text(&'static str),
    /// These words so many times, with the number of the time for each `@`.
    Turns {
        /// How many times.
        count: u64,
        /// The number of the first time.
        from: u64,
        /// The words.
        text: &'static str,
    },
}

/// Puts words behind the text, with this number for each `@`.
fn append_words(out: &mut Bytes, text: &str, number: u64) -> Result<(), NoMemory> {
    let mut ends = false;
    for byte in text.as_bytes() {
        match *byte {
            b';' => out.push(b'\n')?,
            b'@' => out.append(Buffer::new().format(number).as_bytes())?,
            b' ' if ends => {}
            other => out.push(other)?,
        }
        ends = *byte == b';';
    }
    Ok(())
}

/// The text of parts.
pub(crate) fn text_of(alloc: Global, parts: &[Part]) -> Result<Bytes, NoMemory> {
    let mut out = Bytes::new(alloc);
    for part in parts {
        match part {
            Part::Text(text) => append_words(&mut out, text, 0)?,
            Part::Turns { count, from, text } => {
                let mut number = *from;
                for _ in 0..*count {
                    append_words(&mut out, text, number)?;
                    number = number.wrapping_add(1);
                }
            }
        }
    }
    Ok(out)
}

/// The text of words.
pub(crate) fn words_text(alloc: Global, text: &str) -> Result<Bytes, NoMemory> {
    let mut out = Bytes::new(alloc);
    append_words(&mut out, text, 0)?;
    Ok(out)
}
