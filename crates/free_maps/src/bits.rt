//! The bits of one byte, counted from the lowest.
ghost use Rattle.std.specs.Prelude.{◌≡◌, ◌≢◌, ◌==◌, ◌<◌, ◌≤◌, ℕ, MatchOption, true};
ghost use Rattle.std.specs.Int.{bit_at};
ghost use Rattle.free_maps.specs.Bits.{has_bit, clear_bits, IsLowestClearBit, AreSetFrom};

/// Whether a bit of the byte is set.
pub fn bit(byte: u8, place: u32) -> bool
    requires { place < 8 }
    ensures { result ≡ has_bit byte place }
{
    (byte >> place) & 1 == 1
}

/// The byte with one bit set or cleared.
pub fn with_bit(byte: u8, place: u32, on: bool) -> u8
    requires { place < 8 }
    ensures bit { has_bit result place ≡ on }
    ensures others { (i : ℕ) → i < 8 → i ≢ place → has_bit result i ≡ has_bit byte i }
{
    if on {
        byte | (1 << place)
    } else {
        byte & !(1 << place)
    }
}

/// The lowest clear bit of the byte from this one on. None exactly where all from there on are set.
pub fn lowest_clear_bit(byte: u8, from: u32) -> Option<u32>
    requires { from < 8 }
    ensures { MatchOption result (AreSetFrom byte from) (IsLowestClearBit byte from) }
{
    let used = byte | ((1 << from) - 1);
    if used == u8::MAX {
        None
    } else {
        Some(used.trailing_ones())
    }
}

/// How many of the lowest bits of the byte are clear.
pub fn clear_bits(byte: u8, lowest: u32) -> u32
    requires some { 1 ≤ lowest }
    requires within { lowest ≤ 8 }
    ensures { result ≡ clear_bits byte lowest }
{
    lowest - (byte & (u8::MAX >> (8 - lowest))).count_ones()
}
