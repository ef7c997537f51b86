//! The lines of a script, each with what it asks for.
ghost use Rattle.script_text.specs.Grammar.{IsLineWithin, call_of, is_comment, is_skipped, meaning_of};
ghost use Rattle.script_text.specs.declared.grammar.LineFault.TheVariants.{BadLine};
ghost use Rattle.script_text.specs.declared.reading.Unread.TheVariants.{At};
ghost use Rattle.std.specs.Prelude.{ℕ, ◌≡◌, ◌-◌, ◌^◌, Err, IfErr, IfOk, Ok, min};

use super::commands::parse_command;
use super::reading::{Unread, take_byte};
use super::words::Words;
use ccfs_base::Command;
use std::alloc::Global;
use thiserror::Error;

/// The greatest actor.
pub const LAST_ACTOR: u8 = 63;

/// What a line of a script asks for.
#[derive(Debug, Drop)]
pub enum Line {
    /// Nothing: it has no words, or is a comment.
    Skip,
    /// A command of an actor.
    Call {
        /// From 0 to 63.
        actor: u8,
        /// What the actor does.
        command: Command,
    },
}

/// Why a line asks for nothing.
#[derive(Clone, Copy, Debug, PartialEq, Eq, Drop, Error)]
pub enum LineFault {
    /// It leaves the grammar. The place is that of the first word that doesn't fit, or the line's length where a word is
    /// missing; it is `u32::MAX` where that is greater.
    #[error("no command, at byte {place}")]
    BadLine {
        /// An index in bytes.
        place: u32,
    },
    /// Memory was wanted. It says nothing of the line.
    #[error("no memory")]
    NoMemory,
}

/// What a line without its end asks for. Only paths and bytes take memory.
pub fn parse_line(alloc: Global, text: &[u8]) -> Result<Line, LineFault>
    ensures ok { IfOk result (λ line. meaning_of text.now ≡ Ok line) }
    ensures within { IfOk result IsLineWithin }
    ensures bad { IfErr result (λ fault. (place : ℕ) → fault ≡ BadLine place → (at : ℕ) × (meaning_of text.now ≡ Err at) × (place ≡ min at (2 ^ 32 - 1))) }
{
    if is_skipped(&mut Words::of(text)) {
        return Ok(Line::Skip);
    }
    match parse_call(alloc, &mut Words::of(text)) {
        Ok(line) => Ok(line),
        Err(Unread::At { place }) => Err(LineFault::BadLine {
            place: place.min(u32::MAX as usize) as u32,
        }),
        Err(Unread::NoMemory) => Err(LineFault::NoMemory),
    }
}

// Whether a line is passed over.
fn is_skipped(words: &mut Words<'_>) -> bool
    ensures { result ≡ is_skipped words.old.words }
{
    match words.next_word() {
        Some(word) => begins_comment(word.bytes),
        None => true,
    }
}

// Whether a word makes its line a comment.
fn begins_comment(word: &[u8]) -> bool
    ensures { result ≡ is_comment word.now }
{
    match word.first() {
        Some(byte) => *byte == b'#',
        None => false,
    }
}

// The call that words ask for.
fn parse_call(alloc: Global, words: &mut Words<'_>) -> Result<Line, Unread>
    ensures ok { IfOk result (λ line. call_of words.old ≡ Ok line) }
    ensures within { IfOk result IsLineWithin }
    ensures at { IfErr result (λ fault. (place : ℕ) → fault ≡ At place → call_of words.old ≡ Err place) }
{
    let actor = take_byte(words, LAST_ACTOR)?;
    let command = parse_command(alloc, words)?;
    Ok(Line::Call { actor, command })
}
