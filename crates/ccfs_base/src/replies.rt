//! The replies of the file system.
ghost use Rattle.std.specs.Prelude.{◌≡◌, ◌==◌, List, [], ◌∷◌, ◌++◌, length, IfOk, OnOk, OnErr};

use super::NoMemory;
use super::buffer::Bytes;
use super::naming::Name;
use std::alloc::Global;
use std::marker::Model;

/// Why a command was refused.
#[derive(Clone, Copy, Debug, PartialEq, Eq, Drop)]
pub enum Refusal {
    /// There is no such entry.
    NoEntry,
    /// A component is a file, where a directory is needed.
    NotDir,
    /// It is a directory, where a file is needed.
    IsDir,
    /// The entry exists already.
    Exists,
    /// The directory has entries.
    NotEmpty,
    /// It is the root.
    Root,
    /// A directory can't be moved below itself.
    Loop,
    /// The file would be too long.
    FileBig,
    /// There are too few free blocks.
    NoSpace {
        /// The blocks that are needed.
        need: u32,
        /// The blocks that are free.
        free: u32,
    },
    /// No inode is free.
    NoInode,
    /// The handle isn't open.
    BadHandle,
    /// All of the actor's handles are open.
    HandlesFull,
}

/// The names of a directory's entries, each with a bool that is true for a directory. A contract sees it as the list
/// of these pairs.
#[derive(Debug, Drop)]
pub struct Names {
    kept: Vec<(Name, bool)>,
}

impl Model for Names {
    ghost use Rattle.std.specs.Prelude.{ℕ, List, Bool};

    ghost Value = { List (List ℕ × Bool) };

    ghost view = { λ n. n.kept.items };
}

impl Names {
    /// No names. It takes no memory.
    pub fn new(alloc: Global) -> Names
        ensures { result ≡ [] }
    {
        Names {
            kept: Vec::new(alloc),
        }
    }

    /// Puts a name last. Without memory all is as before.
    pub fn push(&mut self, item: (Name, bool)) -> Result<(), NoMemory>
        ensures ok { OnOk result (self.new ≡ self.old ++ item ∷ []) }
        ensures err { OnErr result (self.new ≡ self.old) }
    {
        self.kept.push(item)?;
        Ok(())
    }

    /// All of its pairs.
    pub fn all(&self) -> &[(Name, bool)]
        ensures { result.now ≡ self.now }
    {
        self.kept.as_slice()
    }

    /// The same names once more.
    pub fn copy(&self) -> Result<Names, NoMemory>
        ensures { IfOk result (λ names. names ≡ self.now) }
    {
        Ok(Names {
            kept: Vec::from_slice(*self.kept.allocator(), self.kept.as_slice())?,
        })
    }
}

impl Clone for Names {
    ghost is_clone = { λ first second. second ≡ first };

    fn clone(&self) -> Result<Names, NoMemory> {
        self.copy()
    }
}

/// What a command is answered.
#[derive(Clone, Debug, Drop)]
pub enum Reply {
    /// It was done.
    Done,
    /// The bytes that were read.
    Got {
        /// Cut off at the end of the file.
        bytes: Bytes,
    },
    /// A file was opened.
    Handle {
        /// The actor's handle.
        number: u8,
    },
    /// A directory stands at the path.
    StatDir {
        /// How many entries it has.
        entries: u32,
        /// How often its entries were changed, modulo 2^64.
        changes: u64,
    },
    /// A file stands at the path.
    StatFile {
        /// Its length in bytes.
        length: u64,
        /// How many blocks it takes.
        blocks: u32,
    },
    /// The entries of a directory.
    Listed {
        /// How many it has in all.
        total: u32,
        /// Those that were asked for.
        names: Names,
    },
    /// How much room is left.
    Space {
        /// Free blocks.
        blocks: u32,
        /// Free inodes.
        inodes: u32,
    },
    /// Batches are durable.
    Synced {
        /// The number of the last one.
        seals: u64,
    },
    /// It was refused.
    Refused(Refusal),
}

impl Reply {
    /// An equal reply.
    pub fn copy(&self) -> Result<Reply, NoMemory>
        ensures { IfOk result (λ reply. reply ≡ self.now) }
    {
        self.clone()
    }
}
