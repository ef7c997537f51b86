//! Sets of streams as numbers: bit s is set for stream s.
ghost use Rattle.std.specs.Prelude.{◌≡◌, ◌≢◌, ◌<◌, ◌≤◌, ℕ, false, true, length};
ghost use Rattle.std.specs.List.{filter};
ghost use Rattle.stream_cuts.specs.Forced.{streams};
ghost use Rattle.cross_dep.specs.Books.{has_bit};

/// How many streams there are.
pub(crate) const STREAMS: u8 = 64;

/// Whether a stream's bit is set.
pub(crate) fn has_bit(bits: u64, stream: u8) -> bool
    requires { stream < 64 }
    ensures { result ≡ has_bit bits stream }
{
    (bits >> stream) & 1 == 1
}

/// The bits with that of a stream set, which wasn't, where `on` says so.
pub(crate) fn with_bit(bits: u64, stream: u8, on: bool) -> u64
    requires stream { stream < 64 }
    requires clear { has_bit bits stream ≡ false }
    ensures own { has_bit result stream ≡ on }
    ensures others { (s : ℕ) → s ≢ stream → has_bit result s ≡ has_bit bits s }
{
    if on { bits | 1 << stream } else { bits }
}

/// How many streams' bits are set.
#[tactic(auto, using(crate::proofs::Rising::counted_on, crate::proofs::Rising::counted_off))]
pub(crate) fn count_of(bits: u64) -> u64
    ensures count { result ≡ length (filter (has_bit bits) streams) }
    ensures few { result ≤ 64 }
{
    let mut count = 0;
    for stream in 0..STREAMS {
        if has_bit(bits, stream) {
            count += 1;
        }
    }
    count
}
