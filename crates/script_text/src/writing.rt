//! Pieces of texts, each put behind the text so far. On an `Err` the text may have become longer.
ghost use Rattle.script_text.specs.Texts.{labeled};
ghost use Rattle.std.specs.Prelude.{◌++◌, ◌≡◌, OnOk, decimal};

use ccfs_base::{Bytes, NoMemory};
use itoa::Buffer;

/// Puts a number behind the text.
pub fn append_number(out: &mut Bytes, number: u64) -> Result<(), NoMemory>
    ensures { OnOk result (out.new ≡ out.old ++ decimal number) }
{
    let mut digits = Buffer::new();
    out.append(digits.format(number).as_bytes())
}

/// Puts a label and a number behind the text.
pub fn append_labeled(out: &mut Bytes, label: &[u8], number: u64) -> Result<(), NoMemory>
    ensures { OnOk result (out.new ≡ out.old ++ labeled label.now number) }
{
    out.append(label)?;
    append_number(out, number)
}

/// Puts two numbers behind the text, each behind its label.
pub fn append_pair(
    out: &mut Bytes,
    first: (&[u8], u64),
    second: (&[u8], u64),
) -> Result<(), NoMemory>
    ensures { OnOk result (out.new ≡ out.old ++ (labeled first.entry.0.now first.entry.1 ++ labeled second.entry.0.now second.entry.1)) }
{
    append_labeled(out, first.0, first.1)?;
    append_labeled(out, second.0, second.1)
}
