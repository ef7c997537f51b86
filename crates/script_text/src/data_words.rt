//! Words of a script that stand for bytes.
ghost use Rattle.hex.specs.Hex.{pair_value};
ghost use Rattle.script_text.specs.DataWords.{all_bytes, data_of, data_within, digits_piece, few_bytes, joined, parts_of, piece_bytes, times_piece};
ghost use Rattle.std.specs.Prelude.{◌++◌, ◌<◌, ◌==◌, ◌≡◌, ◌≤◌, ◌∷◌, [], IfNone, IfOk, IfSome, None, OnOk, Some, cond, length, position, replicate, take};
ghost use Rattle.std.specs.Result.{result_ok};

use super::numbers::number;
use ccfs_base::{Bytes, NoMemory};
use hex::{FromHex, FromHexError};
use std::alloc::{AllocError, Global};

/// The most bytes that a word stands for.
pub const MOST_DATA: usize = 65_536;

/// The bytes that a word stands for: `-` for none, else one or more pieces that are joined by `+`. A piece is pairs of
/// hexadecimal digits of either case, or one such pair, `*` and how often.
///
/// Answers `None` where the word stands for no bytes, or for more than `MOST_DATA`.
pub fn parse_data(alloc: Global, word: &[u8]) -> Result<Option<Bytes>, NoMemory>
    ensures bytes { IfOk result (λ bytes. bytes ≡ data_of word.now) }
    ensures few { IfOk result (λ bytes. IfSome bytes (λ bs. length bs ≤ 65536)) }
{
    parse_within(alloc, MOST_DATA, word)
}

// The bytes that a word stands for, where they are at most so many.
fn parse_within(alloc: Global, most: usize, word: &[u8]) -> Result<Option<Bytes>, NoMemory>
    ensures bytes { IfOk result (λ bytes. bytes ≡ data_within most word.now) }
    ensures few { IfOk result (λ bytes. IfSome bytes (λ bs. length bs ≤ most)) }
{
    let mut bytes = Bytes::new(alloc);
    if word == b"-".as_slice() {
        return Ok(Some(bytes));
    }
    let mut rest = word;
    'parts: loop {
        let (part, behind) = cut_part(rest);
        if !append_part(alloc, most, &mut bytes, part)? {
            return Ok(None);
        }
        let Some(behind) = behind else {
            return Ok(Some(bytes));
        };
        rest = behind;
    }
}

// The part of a word before its first `+`, and what stands behind that.
fn cut_part(word: &[u8]) -> (&[u8], Option<&[u8]>)
    ensures first { take 1 (parts_of word.now) ≡ result.0.now ∷ [] }
    ensures last { IfNone result.1 (parts_of word.now ≡ result.0.now ∷ []) }
    ensures more { IfSome result.1 (λ behind. parts_of word.now ≡ result.0.now ∷ parts_of behind.now) }
    ensures shorter { IfSome result.1 (λ behind. length behind.now < length word.now) }
{
    match plus(word) {
        Some(place) => (&word[..place], Some(&word[place + 1..])),
        None => (word, None),
    }
}

// Where the first `+` is.
fn plus(word: &[u8]) -> Option<usize>
    ensures { result ≡ position (λ b. b == 43) word.now }
{
    word.iter().position(|b| *b == b'+')
}

// Puts the bytes of a piece behind those so far. Answers whether it is a piece and leaves them few enough.
fn append_part(alloc: Global, most: usize, out: &mut Bytes, part: &[u8]) -> Result<bool, NoMemory>
    requires { length out.old ≤ most }
    ensures { IfOk result (λ fits. few_bytes most (joined (Some out.old) (piece_bytes part.now)) ≡ cond fits (Some out.new) None) }
{
    if part.len() > 2 && part[2] == b'*' {
        let byte = byte_of(part[0], part[1]);
        append_times(most, out, byte, number(&part[3..]))
    } else {
        append_digits(alloc, most, out, part)
    }
}

// The byte of two digits, where they are digits.
fn byte_of(high: u8, low: u8) -> Option<u8>
    ensures { result ≡ result_ok (pair_value high low 0) }
{
    let [byte] = <[u8; 1]>::from_hex([high, low]).ok()?;
    Some(byte)
}

// Puts a byte behind those so far, so many times. Answers whether that is at least once and leaves them few enough.
fn append_times(
    most: usize,
    out: &mut Bytes,
    byte: Option<u8>,
    count: Option<u128>,
) -> Result<bool, NoMemory>
    requires { length out.old ≤ most }
    ensures { IfOk result (λ fits. few_bytes most (joined (Some out.old) (times_piece byte count)) ≡ cond fits (Some out.new) None) }
{
    let (Some(byte), Some(count)) = (byte, count) else {
        return Ok(false);
    };
    if count == 0 || count > (most - out.len()) as u128 {
        return Ok(false);
    }
    append_repeated(out, byte, count as usize)?;
    Ok(true)
}

// Puts a byte behind those so far, so many times.
fn append_repeated(out: &mut Bytes, byte: u8, count: usize) -> Result<(), NoMemory>
    ensures { OnOk result (out.new ≡ out.old ++ replicate count byte) }
{
    for i in 0..count {
        out.push(byte)?;
    }
    Ok(())
}

// Puts the bytes of digits behind those so far. Answers whether they are digits in pairs and leave them few enough.
fn append_digits(
    alloc: Global,
    most: usize,
    out: &mut Bytes,
    digits: &[u8],
) -> Result<bool, NoMemory>
    requires { length out.old ≤ most }
    ensures { IfOk result (λ fits. few_bytes most (joined (Some out.old) (digits_piece digits.now)) ≡ cond fits (Some out.new) None) }
{
    if digits.is_empty() || digits.len() / 2 > most - out.len() {
        return Ok(false);
    }
    match hex::decode(alloc, digits) {
        Ok(bytes) => {
            out.append(&bytes)?;
            Ok(true)
        }
        Err(FromHexError::OutOfMemory) => Err(AllocError),
        Err(_) => Ok(false),
    }
}
