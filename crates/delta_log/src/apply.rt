//! What a record does to bytes.
ghost use Rattle.std.specs.Prelude.{◌≡◌, ◌<◌, ◌+◌, ◌≤◌, length};
ghost use Rattle.std.specs.Int.{w64, from_le_bytes};
ghost use Rattle.ccfs_base.specs.declared.records.Rec.TheVariants as recs;
ghost use Rattle.ccfs_base.specs.Places.{IsInside, part, put, with_bit};
ghost use Rattle.ccfs_base.specs.Records.{acts_at, recorded};

use ccfs_base::{Rec, superimpose};

/// Does to the bytes what the record says. Places are counted from the first of them.
pub fn apply_rec(base: &mut [u8], rec: &Rec)
    requires { IsInside (length base.old) (acts_at rec.now) }
    ensures { base.new ≡ recorded base.old rec.now }
{
    match rec {
        Rec::Range { off, bytes } => superimpose(base, *off as usize, bytes.all()),
        Rec::Add { off, by } => raise(base, *off as usize, *by),
        Rec::Bit { off, bit, on } => flip(base, *off as usize, *bit, *on),
    }
}

/// Raises a counter of eight bytes, modulo 2^64.
fn raise(base: &mut [u8], off: usize, by: u64)
    requires { off + 8 ≤ length base.old }
    ensures { base.new ≡ recorded base.old (recs.Add off by) }
{
    let count = count_at(base, off);
    superimpose(base, off, &count.wrapping_add(by).to_le_bytes());
}

/// The counter of eight bytes at a place.
fn count_at(base: &[u8], off: usize) -> u64
    requires { off + 8 ≤ length base.now }
    ensures { result ≡ from_le_bytes w64 (part off 8 base.now) }
{
    let mut bytes = [0; 8];
    bytes.copy_from_slice(&base[off..off + 8]);
    u64::from_le_bytes(bytes)
}

/// Sets or clears one bit.
fn flip(base: &mut [u8], off: usize, bit: u8, on: bool)
    requires off { off < length base.old }
    requires bit { bit < 8 }
    ensures { base.new ≡ recorded base.old (recs.Bit off bit on) }
{
    let byte = byte_with(base[off], bit, on);
    superimpose(base, off, &[byte]);
}

/// The byte with one bit set or cleared.
fn byte_with(byte: u8, bit: u8, on: bool) -> u8
    requires { bit < 8 }
    ensures { result ≡ with_bit byte bit on }
{
    if on {
        byte | (1 << bit)
    } else {
        byte & !(1 << bit)
    }
}
