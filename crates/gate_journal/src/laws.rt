//! What holds of batches as bytes: each law is the contract of a function that does nothing.
ghost use Rattle.std.specs.Prelude.{◌≡◌, ◌++◌, ◌^◌, ◌<◌, List, length, Option, Some, None, MatchOption};
ghost use Rattle.std.specs.List.{All};
ghost use Rattle.gate_journal.specs.Batches.{batches_bytes, batches_at, Fits, InARow, IsSpelled};

use super::batches::Batch;

/// Batches that stand in the volume, with numbers in a row, are read as they were written, whatever follows them.
pub fn written_batches_are_read(size: u64, before: Option<u64>, batches: &[Batch], rest: &[u8])
    requires fits { All (Fits size) batches.now }
    requires in_a_row { InARow before batches.now }
    ensures { batches_at size before (length batches.now) (batches_bytes batches.now ++ rest.now) ≡ Some (batches.now, rest.now) }
{}

/// What is read from bytes was written there: the bytes begin with just these batches, which stand in the volume and have
/// numbers in a row.
pub fn what_is_read_was_written(size: u64, before: Option<u64>, count: u32, bytes: &[u8])
    ensures { MatchOption (batches_at size before count bytes.now) (Unit {0}) (λ read. IsSpelled size before count bytes.now read.0 read.1) }
{}
