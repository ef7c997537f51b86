//! A journal half as it is known in memory.
ghost use Rattle.std.specs.Prelude.{◌≡◌, ◌≤◌, ◌<◌, ◌^◌, true};
ghost use Rattle.std.specs.List.{All};
ghost use Rattle.gate_journal.specs.Offsets.{records_size};
ghost use Rattle.gate_journal.specs.Batches.{Stands, range_bytes};

use super::batches::{Batch, Range, Ranges};
use super::places::{GATES, RECORDS_SIZE};
use super::reading::may_follow;
use std::alloc::Global;

/// One of the two journal halves of a disk: the batches that count, and where the next one stands.
///
/// Its ranges stand inside the volume, and have no more bytes than its batches take of the record area. Both hold on every
/// disk, also on one that tells nothing.
#[derive(Debug, Drop)]
pub struct Half {
    pub(crate) alloc: Global,
    pub(crate) half: u8,
    pub(crate) size: u64,
    pub(crate) count: u32,
    pub(crate) used: u32,
    pub(crate) last: Option<u64>,
    pub(crate) ranges: Ranges,
    pub(crate) behind: bool,
    pub ghost half_is: { half ≤ 1 },
    pub ghost count_is: { count ≤ 4096 },
    pub ghost used_is: { used ≤ records_size },
    pub ghost size_is: { size < 2 ^ 64 },
    pub ghost stand_is: { All (Stands size) ranges },
    pub ghost bytes_are: { range_bytes ranges ≤ used },
}

impl Half {
    ghost use Rattle.std.specs.Prelude.{length};
    ghost use Rattle.gate_journal.specs.Batches.{batch_bytes};
    ghost use Rattle.gate_journal.specs.Halves.{half_of, size_of, journal_of, fits, MayFollow};

    /// Which half it is, 0 or 1.
    pub fn which(&self) -> u8
        ensures which { result ≡ half_of self.now }
        ensures one_of_two { result ≤ 1 }
    {
        self.half
    }

    /// The size of the volume, in bytes.
    pub fn volume_bytes(&self) -> u64
        ensures { result ≡ size_of self.now }
    {
        self.size
    }

    /// Where its ranges lie in memory.
    pub fn alloc(&self) -> Global {
        self.alloc
    }

    /// Whether a batch of so many bytes, its header of 16 bytes included, has room in the record area and a gate, and no
    /// gate behind that one is open.
    pub fn fits(&self, bytes: u32) -> bool
        ensures { result ≡ fits (journal_of self.now) bytes }
    {
        self.has_space(u64::from(bytes))
    }

    /// Whether a batch may be appended: it fits, each of its ranges has bytes and stands in the volume, and its number is
    /// the one behind the last, where there is a last.
    pub fn accepts(&self, batch: &Batch) -> bool
        ensures fits { result ≡ true → fits (journal_of self.now) (length (batch_bytes batch.now)) ≡ true }
        ensures follows { result ≡ true → MayFollow (size_of self.now) (journal_of self.now) batch.now }
        ensures other { fits (journal_of self.now) (length (batch_bytes batch.now)) ≡ true → MayFollow (size_of self.now) (journal_of self.now) batch.now → result ≡ true }
    {
        self.has_space(batch.encoded_len())
            && may_follow(self.last, batch.number)
            && batch.stands_in(self.size)
    }

    /// Whether so many bytes fit, also where they are more than a number of 4 bytes tells.
    fn has_space(&self, bytes: u64) -> bool
        ensures { result ≡ fits (journal_of self.now) bytes }
    {
        self.count < GATES
            && !self.behind
            && bytes <= RECORDS_SIZE
            && u64::from(self.used) + bytes <= RECORDS_SIZE
    }

    /// The ranges of the open batches, in order.
    pub fn replay_list(&self) -> &[Range]
        ensures { result.now ≡ (journal_of self.now).ranges }
    {
        self.ranges.all()
    }

    /// The number of the last open batch, and None where no batch is open.
    pub fn last(&self) -> Option<u64>
        ensures { result ≡ (journal_of self.now).last }
    {
        self.last
    }
}
