//! Batches of byte ranges.
ghost use Rattle.std.specs.Prelude.{◌-◌, ◌^◌, min, true, ◌≡◌, [], ◌∷◌, ◌++◌, length, take, IfOk, OnOk, OnErr};
ghost use Rattle.std.specs.List.{All};
ghost use Rattle.gate_journal.specs.Batches.{batch_bytes, Stands};

use ccfs_base::{Bytes, NoMemory};
use std::alloc::Global;
use std::marker::Model;

/// Bytes and where they stand in the volume.
#[derive(Debug, Drop)]
pub struct Range {
    /// The volume offset of the first byte, in bytes.
    pub off: u64,
    /// The bytes.
    pub bytes: Bytes,
}

impl Range {
    /// Whether it has bytes and stands in a volume of so many bytes.
    pub fn stands_in(&self, volume_bytes: u64) -> bool
        ensures stands { result ≡ true → Stands volume_bytes self.now }
        ensures other { Stands volume_bytes self.now → result ≡ true }
    {
        let len = self.bytes.len() as u64;
        1 <= len && len <= volume_bytes && self.off <= volume_bytes - len
    }

    /// The same range once more.
    pub fn copy(&self) -> Result<Range, NoMemory>
        ensures { IfOk result (λ range. range ≡ self.now) }
    {
        Ok(Range {
            off: self.off,
            bytes: self.bytes.copy()?,
        })
    }
}

/// Ranges in an order of their own: where two overlap, the later one counts. A contract sees the list of them.
#[derive(Debug, Drop)]
pub struct Ranges {
    kept: Vec<Range>,
}

impl Model for Ranges {
    ghost use Rattle.std.specs.Prelude.{List};
    ghost use Rattle.gate_journal.specs.declared.batches.Range.{Range};

    ghost Value = { List Range };

    ghost view = { λ a. a.kept.items };
}

impl Ranges {
    /// No ranges. It takes no memory.
    pub fn new(alloc: Global) -> Ranges
        ensures { result ≡ [] }
    {
        Ranges {
            kept: Vec::new(alloc),
        }
    }

    /// Puts a range last. Without memory all is as before.
    pub fn push(&mut self, range: Range) -> Result<(), NoMemory>
        ensures ok { OnOk result (self.new ≡ self.old ++ range ∷ []) }
        ensures err { OnErr result (self.new ≡ self.old) }
    {
        self.kept.push(range)?;
        Ok(())
    }

    /// Puts copies of ranges last. Without memory all is as before.
    pub fn push_copies(&mut self, ranges: &[Range]) -> Result<(), NoMemory>
        ensures ok { OnOk result (self.new ≡ self.old ++ ranges.now) }
        ensures err { OnErr result (self.new ≡ self.old) }
    {
        let before = self.len();
        match self.push_all(ranges) {
            Ok(()) => Ok(()),
            Err(fault) => {
                self.truncate(before);
                Err(fault)
            }
        }
    }

    /// Puts copies of ranges last. Without memory some of them are there.
    fn push_all(&mut self, ranges: &[Range]) -> Result<(), NoMemory>
        ensures ok { OnOk result (self.new ≡ self.old ++ ranges.now) }
        ensures front { take (length self.old) self.new ≡ self.old }
    {
        for range in ranges {
            self.push(range.copy()?)?;
        }
        Ok(())
    }

    /// Keeps the first so many ranges, or all where there are fewer.
    pub fn truncate(&mut self, len: usize)
        ensures { self.new ≡ take len self.old }
    {
        self.kept.truncate(len);
    }

    /// How many ranges there are.
    pub fn len(&self) -> usize
        ensures { result ≡ length self.now }
    {
        self.kept.len()
    }

    /// All of the ranges.
    pub fn all(&self) -> &[Range]
        ensures { result.now ≡ self.now }
    {
        self.kept.as_slice()
    }

    /// The same ranges once more.
    pub fn copy(&self, alloc: Global) -> Result<Ranges, NoMemory>
        ensures { IfOk result (λ ranges. ranges ≡ self.now) }
    {
        let mut copy = Ranges::new(alloc);
        copy.push_copies(self.all())?;
        Ok(copy)
    }
}

/// What is committed at once, all or nothing.
#[derive(Debug, Drop)]
pub struct Batch {
    /// Its number. Behind another batch it is that one's number and 1, modulo 2^64.
    pub number: u64,
    /// What it puts on the volume.
    pub ranges: Ranges,
}

impl Batch {
    /// The same batch once more.
    pub fn copy(&self, alloc: Global) -> Result<Batch, NoMemory>
        ensures { IfOk result (λ batch. batch ≡ self.now) }
    {
        Ok(Batch {
            number: self.number,
            ranges: self.ranges.copy(alloc)?,
        })
    }

    /// How many bytes it takes in a record area, its header of 16 bytes included: 2^64 - 1 where there are more.
    pub fn encoded_len(&self) -> u64
        ensures { result ≡ min (length (batch_bytes self.now)) (2 ^ 64 - 1) }
    {
        let mut total: u64 = 16;
        for range in self.ranges.all() {
            total = total.saturating_add(12);
            total = total.saturating_add(range.bytes.len() as u64);
        }
        total
    }

    /// Whether each of its ranges has bytes and stands in a volume of so many bytes.
    pub fn stands_in(&self, volume_bytes: u64) -> bool
        ensures stands { result ≡ true → All (Stands volume_bytes) self.now.ranges }
        ensures other { All (Stands volume_bytes) self.now.ranges → result ≡ true }
    {
        for range in self.ranges.all() {
            if !range.stands_in(volume_bytes) {
                return false;
            }
        }
        true
    }
}
