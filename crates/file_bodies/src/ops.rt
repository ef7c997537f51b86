//! Operations on the contents of files.
ghost use Rattle.std.specs.Prelude.{◌≡◌, ◌++◌, List, [], ◌∷◌, true, IfOk, OnOk, OnErr};

use ccfs_base::{Bytes, NoMemory};
use std::alloc::Global;
use std::marker::Model;

/// A change of one file's contents. A file is named by its inode. The first three make an empty file first where there is none.
#[derive(Debug, Drop)]
pub enum BodyOp {
    /// Bytes are put at a place, over what stands there. A shorter file is first filled up with zeros to that place.
    Put {
        /// The file.
        inode: u32,
        /// Where the first of the bytes stands.
        off: u64,
        /// The bytes that are put there.
        bytes: Bytes,
    },
    /// A shorter file is filled up with zeros to a length, and another stays.
    Grow {
        /// The file.
        inode: u32,
        /// The length in bytes.
        len: u64,
    },
    /// A longer file is cut to a length, and another stays.
    Shrink {
        /// The file.
        inode: u32,
        /// The length in bytes.
        len: u64,
    },
    /// The file is dropped, if there is one.
    Drop {
        /// The file.
        inode: u32,
    },
}

impl BodyOp {
    /// The same operation once more.
    pub fn copy(&self) -> Result<BodyOp, NoMemory>
        ensures { IfOk result (λ op. op ≡ self.now) }
    {
        Ok(match self {
            BodyOp::Put { inode, off, bytes } => BodyOp::Put {
                inode: *inode,
                off: *off,
                bytes: bytes.copy()?,
            },
            BodyOp::Grow { inode, len } => BodyOp::Grow {
                inode: *inode,
                len: *len,
            },
            BodyOp::Shrink { inode, len } => BodyOp::Shrink {
                inode: *inode,
                len: *len,
            },
            BodyOp::Drop { inode } => BodyOp::Drop { inode: *inode },
        })
    }
}

/// Operations on the contents of files, in their order. A contract sees it as the list of them.
#[derive(Debug, Drop)]
pub struct BodyOps {
    kept: Vec<BodyOp>,
}

impl Model for BodyOps {
    ghost use Rattle.std.specs.Prelude.{List};
    ghost use Rattle.file_bodies.specs.declared.ops.BodyOp.{BodyOp};

    ghost Value = { List BodyOp };

    ghost view = { λ o. o.kept.items };
}

impl BodyOps {
    /// No operations. It takes no memory.
    pub fn new(alloc: Global) -> BodyOps
        ensures { result ≡ [] }
    {
        BodyOps {
            kept: Vec::new(alloc),
        }
    }

    /// Just these operations, in the memory that they have. It takes no more.
    pub fn of(items: Vec<BodyOp>) -> BodyOps
        ensures { result ≡ items.items }
    {
        BodyOps { kept: items }
    }

    /// Its operations, in the memory that they have. It takes no more.
    pub fn into_vec(self) -> Vec<BodyOp>
        ensures { result.items ≡ self }
    {
        self.kept
    }

    /// Puts an operation last. Without memory all is as before.
    pub fn push(&mut self, op: BodyOp) -> Result<(), NoMemory>
        ensures ok { OnOk result (self.new ≡ self.old ++ op ∷ []) }
        ensures err { OnErr result (self.new ≡ self.old) }
    {
        self.kept.push(op)?;
        Ok(())
    }

    /// All of them.
    pub fn all(&self) -> &[BodyOp]
        ensures { result.now ≡ self.now }
    {
        self.kept.as_slice()
    }

    /// The same operations once more.
    pub fn copy(&self) -> Result<BodyOps, NoMemory>
        ensures { IfOk result (λ ops. ops ≡ self.now) }
    {
        let mut ops = BodyOps::new(*self.kept.allocator());
        for op in self.all() {
            ops.push(op.copy()?)?;
        }
        Ok(ops)
    }

    /// Whether they are just those operations, in the same order.
    pub fn is_same(&self, other: &BodyOps) -> bool
        ensures forth { result ≡ true → self.now ≡ other.now }
        ensures back { self.now ≡ other.now → result ≡ true }
    {
        are_same(self.all(), other.all())
    }
}

/// Whether two operations are the same.
fn is_same_op(op: &BodyOp, other: &BodyOp) -> bool
    ensures forth { result ≡ true → op.now ≡ other.now }
    ensures back { op.now ≡ other.now → result ≡ true }
{
    match (op, other) {
        (
            BodyOp::Put { inode, off, bytes },
            BodyOp::Put {
                inode: other_inode,
                off: other_off,
                bytes: other_bytes,
            },
        ) => inode == other_inode && off == other_off && bytes.all() == other_bytes.all(),
        (
            BodyOp::Grow { inode, len },
            BodyOp::Grow {
                inode: other_inode,
                len: other_len,
            },
        )
        | (
            BodyOp::Shrink { inode, len },
            BodyOp::Shrink {
                inode: other_inode,
                len: other_len,
            },
        ) => { inode == other_inode && len == other_len }
        (BodyOp::Drop { inode }, BodyOp::Drop { inode: other_inode }) => inode == other_inode,
        _ => false,
    }
}

/// Whether two lists have the same operations in the same order.
fn are_same(ops: &[BodyOp], others: &[BodyOp]) -> bool
    ensures forth { result ≡ true → ops.now ≡ others.now }
    ensures back { ops.now ≡ others.now → result ≡ true }
{
    ops.len() == others.len()
        && ops
            .iter()
            .zip(others)
            .all(|(op, other)| is_same_op(op, other))
}
