//! Words of a line that are read one after another.
ghost use Rattle.ccfs_base.specs.Names.{path_of};
ghost use Rattle.script_text.specs.DataWords.{data_of};
ghost use Rattle.script_text.specs.Grammar.{first_as, next_place, number_within, verb_of};
ghost use Rattle.script_text.specs.declared.reading.Unread.TheVariants.{At};
ghost use Rattle.std.specs.Prelude.{ℕ, ◌≡◌, ◌≤◌, Err, IfErr, IfOk, None, Ok, OnOk, Some, length};

use super::data_words::parse_data;
use super::numbers::number;
use super::verbs::{Verb, parse_verb};
use super::words::Words;
use ccfs_base::{Bytes, Path, PathFault};
use std::alloc::{AllocError, Global};

/// Why the words of a line aren't read.
#[derive(Clone, Copy, Debug, Drop)]
pub enum Unread {
    /// They leave the grammar.
    At {
        /// The place of the first word that doesn't fit, or the line's length where a word is missing.
        place: usize,
    },
    /// Memory was wanted.
    NoMemory,
}

impl From<AllocError> for Unread {
    ghost use Rattle.script_text.specs.declared.reading.Unread.TheVariants.{NoMemory};

    ghost from_gives = { λ _ fault. fault ≡ NoMemory };

    fn from(_: AllocError) -> Self {
        Unread::NoMemory
    }
}

/// Takes the next word, which is a path.
pub fn take_path(alloc: Global, words: &mut Words<'_>) -> Result<Path, Unread>
    ensures ok { IfOk result (λ path. first_as path_of words.old ≡ Ok (path, words.new)) }
    ensures at { IfErr result (λ fault. (place : ℕ) → fault ≡ At place → first_as path_of words.old ≡ Err place) }
{
    let Some(word) = words.next_word() else {
        return Err(Unread::At { place: words.end() });
    };
    match Path::parse(alloc, word.bytes) {
        Ok(path) => Ok(path),
        Err(PathFault::BadPath { .. }) => Err(Unread::At { place: word.place }),
        Err(PathFault::NoMemory) => Err(Unread::NoMemory),
    }
}

/// Takes the next word, which is a number of at most `most`.
pub fn take_number(words: &mut Words<'_>, most: u32) -> Result<u32, Unread>
    ensures ok { IfOk result (λ n. first_as (number_within most) words.old ≡ Ok (n, words.new)) }
    ensures few { IfOk result (λ n. n ≤ most) }
    ensures at { IfErr result (λ fault. (place : ℕ) → fault ≡ At place → first_as (number_within most) words.old ≡ Err place) }
{
    let Some(word) = words.next_word() else {
        return Err(Unread::At { place: words.end() });
    };
    match number(word.bytes) {
        Some(number) if number <= u128::from(most) => Ok(number as u32),
        _ => Err(Unread::At { place: word.place }),
    }
}

/// Takes the next word, which is a number of at most `most`.
pub fn take_byte(words: &mut Words<'_>, most: u8) -> Result<u8, Unread>
    ensures ok { IfOk result (λ n. first_as (number_within most) words.old ≡ Ok (n, words.new)) }
    ensures few { IfOk result (λ n. n ≤ most) }
    ensures at { IfErr result (λ fault. (place : ℕ) → fault ≡ At place → first_as (number_within most) words.old ≡ Err place) }
{
    Ok(take_number(words, u32::from(most))? as u8)
}

/// Takes the next word, which stands for bytes.
pub fn take_data(alloc: Global, words: &mut Words<'_>) -> Result<Bytes, Unread>
    ensures ok { IfOk result (λ bytes. first_as data_of words.old ≡ Ok (bytes, words.new)) }
    ensures few { IfOk result (λ bytes. length bytes ≤ 65536) }
    ensures at { IfErr result (λ fault. (place : ℕ) → fault ≡ At place → first_as data_of words.old ≡ Err place) }
{
    let Some(word) = words.next_word() else {
        return Err(Unread::At { place: words.end() });
    };
    match parse_data(alloc, word.bytes)? {
        Some(bytes) => Ok(bytes),
        None => Err(Unread::At { place: word.place }),
    }
}

/// Takes the next word, which names a command.
pub fn take_verb(words: &mut Words<'_>) -> Result<Verb, Unread>
    ensures ok { IfOk result (λ v. first_as verb_of words.old ≡ Ok (v, words.new)) }
    ensures at { IfErr result (λ fault. (place : ℕ) → fault ≡ At place → first_as verb_of words.old ≡ Err place) }
{
    let Some(word) = words.next_word() else {
        return Err(Unread::At { place: words.end() });
    };
    match parse_verb(word.bytes) {
        Some(verb) => Ok(verb),
        None => Err(Unread::At { place: word.place }),
    }
}

/// Checks that no word follows.
pub fn check_end(words: &mut Words<'_>) -> Result<(), Unread>
    ensures ok { OnOk result (next_place words.old.words ≡ None) }
    ensures at { IfErr result (λ fault. (place : ℕ) → fault ≡ At place → next_place words.old.words ≡ Some place) }
{
    match words.next_word() {
        Some(word) => Err(Unread::At { place: word.place }),
        None => Ok(()),
    }
}
