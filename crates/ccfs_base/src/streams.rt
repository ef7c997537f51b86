//! Streams, and sets of them as numbers: bit s is set for stream s.
ghost use Rattle.std.specs.Prelude.{◌≡◌, ◌≢◌, ◌<◌, ℕ, false};
ghost use Rattle.ccfs_base.specs.StreamSets.{has_bit};

/// The number of streams.
pub const STREAMS: u8 = 64;

/// Whether a stream's bit is set.
pub fn has_bit(bits: u64, stream: u8) -> bool
    requires { stream < 64 }
    ensures { result ≡ has_bit bits stream }
{
    (bits >> stream) & 1 == 1
}

/// The bits with that of a stream set, which wasn't, where `on` says so.
pub fn with_bit(bits: u64, stream: u8, on: bool) -> u64
    requires stream { stream < 64 }
    requires clear { has_bit bits stream ≡ false }
    ensures own { has_bit result stream ≡ on }
    ensures others { (s : ℕ) → s ≢ stream → has_bit result s ≡ has_bit bits s }
{
    if on { bits | 1 << stream } else { bits }
}
