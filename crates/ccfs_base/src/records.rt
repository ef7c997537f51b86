//! Records: the changes of a batch to the bytes of a volume.
ghost use Rattle.std.specs.Prelude.{◌≡◌, ◌++◌, List, [], ◌∷◌, IfOk, OnOk, OnErr};

use super::NoMemory;
use super::buffer::Bytes;
use std::alloc::Global;
use std::marker::Model;

/// A change of a few bytes of a volume. Places are counted in bytes from the volume's start.
#[derive(Debug, Drop)]
pub enum Rec {
    /// Bytes are put at a place, over what stands there.
    Range {
        /// Where the first of them stands.
        off: u64,
        /// The bytes that are put there.
        bytes: Bytes,
    },
    /// A counter of eight bytes, the lowest first, is raised.
    Add {
        /// Where its first byte stands.
        off: u64,
        /// By how much, modulo 2^64: 2^64 - 1 takes 1 away.
        by: u64,
    },
    /// One bit is set or cleared.
    Bit {
        /// Where its byte stands.
        off: u64,
        /// Its place in the byte, 0 to 7, counted from the lowest.
        bit: u8,
        /// True sets it.
        on: bool,
    },
}

impl Rec {
    /// The same change once more.
    pub fn copy(&self) -> Result<Rec, NoMemory>
        ensures { IfOk result (λ rec. rec ≡ self.now) }
    {
        Ok(match self {
            Rec::Range { off, bytes } => Rec::Range {
                off: *off,
                bytes: bytes.copy()?,
            },
            Rec::Add { off, by } => Rec::Add { off: *off, by: *by },
            Rec::Bit { off, bit, on } => Rec::Bit {
                off: *off,
                bit: *bit,
                on: *on,
            },
        })
    }
}

/// The changes of a batch, in their order. A contract sees it as the list of them.
#[derive(Debug, Drop)]
pub struct Recs {
    kept: Vec<Rec>,
}

impl Model for Recs {
    ghost use Rattle.std.specs.Prelude.{List};
    ghost use Rattle.ccfs_base.specs.declared.records.Rec.{Rec};

    ghost Value = { List Rec };

    ghost view = { λ r. r.kept.items };
}

impl Recs {
    /// No changes. It takes no memory.
    pub fn new(alloc: Global) -> Recs
        ensures { result ≡ [] }
    {
        Recs {
            kept: Vec::new(alloc),
        }
    }

    /// Just these changes, in the memory that they have. It takes no more.
    pub fn of(items: Vec<Rec>) -> Recs
        ensures { result ≡ items.items }
    {
        Recs { kept: items }
    }

    /// Puts a change last. Without memory all is as before.
    pub fn push(&mut self, rec: Rec) -> Result<(), NoMemory>
        ensures ok { OnOk result (self.new ≡ self.old ++ rec ∷ []) }
        ensures err { OnErr result (self.new ≡ self.old) }
    {
        self.kept.push(rec)?;
        Ok(())
    }

    /// All of them.
    pub fn all(&self) -> &[Rec]
        ensures { result.now ≡ self.now }
    {
        self.kept.as_slice()
    }

    /// The same changes once more.
    pub fn copy(&self) -> Result<Recs, NoMemory>
        ensures { IfOk result (λ recs. recs ≡ self.now) }
    {
        let mut recs = Recs::new(*self.kept.allocator());
        for rec in self.all() {
            recs.push(rec.copy()?)?;
        }
        Ok(recs)
    }
}
