//! The spots that calls act on, and whether a call there disturbs what is logged.
ghost use Rattle.std.specs.Prelude.{◌≡◌, ◌≢◌, ℕ, true, ◌==◌, ◌||◌};
ghost use Rattle.std.specs.List.{list_all, enumerate_from};
ghost use Rattle.record_logs.specs.Held.{recs_of, list_at};
ghost use Rattle.shared_meta.specs.Spots.{IsSpotIn, acts_among, raises, is_other_bit, is_free_of, is_run};

use ccfs_base::Rec;
use range_log::have_common;

/// What a call acts on. Places are in bytes.
#[derive(Clone, Copy)]
pub enum Spot {
    /// So many bytes from a place on.
    Range { off: u64, len: u64 },
    /// The counter of eight bytes at a place.
    Counter { off: u64 },
    /// One bit, 0 to 7 counted from the lowest.
    Bit { off: u64, bit: u8 },
}

/// Whether a spot lies in so many bytes.
pub fn lies_in(spot: Spot, size: u64) -> bool
    ensures forth { result ≡ true → IsSpotIn size spot }
    ensures back { IsSpotIn size spot → result ≡ true }
{
    match spot {
        Spot::Range { off, len } => len <= size && off <= size - len,
        Spot::Counter { off } => size >= 8 && off <= size - 8,
        Spot::Bit { off, bit } => off < size && bit < 8,
    }
}

/// Whether a spot is a range.
pub fn is_range(spot: Spot) -> bool
    ensures { result ≡ is_run spot }
{
    matches!(spot, Spot::Range { .. })
}

/// Whether a record acts on one of so many bytes from a place on.
fn acts_in(rec: &Rec, off: u64, len: u64) -> bool
    ensures { result ≡ acts_among off len rec.now }
{
    match rec {
        Rec::Range { off: at, bytes } => have_common(off, len, *at, bytes.len() as u64),
        Rec::Add { off: at, .. } => have_common(off, len, *at, 8),
        Rec::Bit { off: at, .. } => have_common(off, len, *at, 1),
    }
}

/// Whether a record raises the counter at a place.
fn is_raise_at(rec: &Rec, off: u64) -> bool
    ensures { result ≡ raises off rec.now }
{
    match rec {
        Rec::Add { off: at, .. } => off == *at,
        Rec::Range { .. } | Rec::Bit { .. } => false,
    }
}

/// Whether a record sets or clears another bit than this one of its byte.
fn is_flip_beside(rec: &Rec, bit: u8) -> bool
    ensures { result ≡ is_other_bit bit rec.now }
{
    match rec {
        Rec::Bit { bit: other, .. } => bit != *other,
        Rec::Range { .. } | Rec::Add { .. } => false,
    }
}

/// Whether a call at a spot doesn't disturb a record.
fn is_free(spot: Spot, rec: &Rec) -> bool
    ensures { result ≡ is_free_of spot rec.now }
{
    match spot {
        Spot::Range { off, len } => !acts_in(rec, off, len),
        Spot::Counter { off } => is_raise_at(rec, off) || !acts_in(rec, off, 8),
        Spot::Bit { off, bit } => is_flip_beside(rec, bit) || !acts_in(rec, off, 1),
    }
}

/// Whether a call at a spot disturbs none of these records.
pub fn is_free_of_all(spot: Spot, log: &[Rec]) -> bool
    ensures { result ≡ list_all (is_free_of spot) log.now }
{
    log.iter().all(|rec| is_free(spot, rec))
}

/// Whether a call at a spot disturbs no record of the streams but one.
pub fn is_free_of_others(spot: Spot, logs: &[Vec<Rec>], stream: u8) -> bool
    ensures forth { result ≡ true → (other : ℕ) → other ≢ stream → list_all (is_free_of spot) (list_at (recs_of logs.now) other) ≡ true }
    ensures back { ((other : ℕ) → other ≢ stream → list_all (is_free_of spot) (list_at (recs_of logs.now) other) ≡ true) → result ≡ true }
{
    passes_others(spot, logs, usize::from(stream))
}

/// Whether each list of records passes, or is the one left out.
fn passes_others(spot: Spot, logs: &[Vec<Rec>], own: usize) -> bool
    ensures { result ≡ list_all (λ log. log.0 == own || list_all (is_free_of spot) log.1.items) (enumerate_from 0 logs.now) }
{
    logs.iter()
        .enumerate()
        .all(|(other, log)| other == own || is_free_of_all(spot, log))
}
