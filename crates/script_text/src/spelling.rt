//! The text of bytes. On an `Err` the text that is written to may have become longer.
ghost use Rattle.hex.specs.Hex.{encode_lower};
ghost use Rattle.script_text.specs.Data.{Digits, data_text, digits_before, more_text, pieces_of, pieces_text, runs_of};
ghost use Rattle.std.specs.Prelude.{◌++◌, ◌<◌, ◌==◌, ◌≡◌, ◌≤◌, ◌∷◌, [], IfOk, OnOk, length, not, position, replicate, slice_index};

use super::writing::append_number;
use ccfs_base::{Bytes, NoMemory};

/// The least length of a run that is a piece of its own.
const LONG_RUN: usize = 8;

/// Puts the text of bytes behind the text.
pub fn append_data(out: &mut Bytes, bytes: &[u8]) -> Result<(), NoMemory>
    ensures { OnOk result (out.new ≡ out.old ++ data_text bytes.now) }
{
    if bytes.is_empty() {
        return out.append(b"-");
    }
    let mut rest = append_piece(out, bytes)?;
    while !rest.is_empty() {
        out.append(b"+")?;
        rest = append_piece(out, rest)?;
    }
    Ok(())
}

// Puts the first piece of the text of bytes behind the text, and answers the bytes that the other pieces are of.
fn append_piece<'a>(out: &mut Bytes, bytes: &'a [u8]) -> Result<&'a [u8], NoMemory>
    requires { 0 < length bytes.now }
    ensures text { IfOk result (λ rest. out.new ++ more_text (pieces_of (runs_of rest.now)) ≡ out.old ++ pieces_text (pieces_of (runs_of bytes.now))) }
    ensures shorter { IfOk result (λ rest. length rest.now < length bytes.now) }
{
    let (run, rest) = split_run(bytes);
    if run.len() < LONG_RUN {
        let (digits, rest) = split_digits(bytes, run, rest);
        append_digits(out, digits)?;
        return Ok(rest);
    }
    append_digits(out, &[bytes[0]])?;
    out.append(b"*")?;
    append_number(out, run.len() as u64)?;
    Ok(rest)
}

// Cuts the first run off bytes: the run, and the bytes behind it.
fn split_run(bytes: &[u8]) -> (&[u8], &[u8])
    requires { 0 < length bytes.now }
    ensures run { runs_of bytes.now ≡ record { byte = slice_index bytes.now 0; count = length result.0.now } ∷ runs_of result.1.now }
    ensures same { result.0.now ≡ replicate (length result.0.now) (slice_index bytes.now 0) }
    ensures whole { bytes.now ≡ result.0.now ++ result.1.now }
    ensures some { 0 < length result.0.now }
{
    let count = other(bytes, bytes[0]).unwrap_or(bytes.len());
    bytes.split_at(count)
}

// Where the first byte is that is another than this one.
fn other(bytes: &[u8], byte: u8) -> Option<usize>
    ensures { result ≡ position (λ b. not (b == byte)) bytes.now }
{
    bytes.iter().position(|b| *b != byte)
}

// Cuts the first piece off bytes, which is digits since their first run is short: the bytes of the piece, and those behind it.
fn split_digits<'a>(bytes: &'a [u8], run: &'a [u8], behind: &'a [u8]) -> (&'a [u8], &'a [u8])
    requires whole { bytes.now ≡ run.now ++ behind.now }
    requires digits { pieces_of (runs_of bytes.now) ≡ digits_before run.now (pieces_of (runs_of behind.now)) }
    ensures piece { pieces_of (runs_of bytes.now) ≡ Digits result.0.now ∷ pieces_of (runs_of result.1.now) }
    ensures shorter { length result.1.now ≤ length behind.now }
{
    let mut rest = behind;
    while !rest.is_empty() {
        let (run, after) = split_run(rest);
        if run.len() >= LONG_RUN {
            break;
        }
        rest = after;
    }
    bytes.split_at(bytes.len() - rest.len())
}

// Puts the digits of bytes behind the text, two for each.
fn append_digits(out: &mut Bytes, bytes: &[u8]) -> Result<(), NoMemory>
    ensures { OnOk result (out.new ≡ out.old ++ encode_lower bytes.now) }
{
    for byte in bytes {
        out.append(&digits_of(*byte))?;
    }
    Ok(())
}

// The two digits of a byte.
fn digits_of(byte: u8) -> [u8; 2]
    ensures { result ≡ encode_lower (byte ∷ []) }
{
    let mut digits = [0; 2];
    // Two digits always fit.
    let _ = hex::encode_to_slice([byte], &mut digits);
    digits
}
