//! Lists of inodes.
ghost use Rattle.std.specs.Prelude.{◌≡◌, ◌++◌, ℕ, [], ◌∷◌, IfOk, OnOk, OnErr};

use ccfs_base::NoMemory;
use std::alloc::Global;
use std::marker::Model;

/// Inodes in some order. A contract sees them as a list.
#[derive(Debug, Drop)]
pub struct Inodes {
    kept: Vec<u32>,
}

impl Model for Inodes {
    ghost use Rattle.std.specs.Prelude.{List, ℕ};

    ghost Value = { List ℕ };

    ghost view = { λ a. a.kept.items };
}

impl Inodes {
    /// No inodes. It takes no memory.
    pub fn new(alloc: Global) -> Inodes
        ensures { result ≡ [] }
    {
        Inodes {
            kept: Vec::new(alloc),
        }
    }

    /// Puts an inode last. Without memory all is as before.
    pub fn push(&mut self, inode: u32) -> Result<(), NoMemory>
        ensures ok { OnOk result (self.new ≡ self.old ++ inode ∷ []) }
        ensures err { OnErr result (self.new ≡ self.old) }
    {
        self.kept.push(inode)?;
        Ok(())
    }

    /// All of them.
    pub fn all(&self) -> &[u32]
        ensures { result.now ≡ self.now }
    {
        self.kept.as_slice()
    }

    /// The same inodes once more.
    pub fn copy(&self) -> Result<Inodes, NoMemory>
        ensures { IfOk result (λ inodes. inodes ≡ self.now) }
    {
        let mut copy = Inodes::new(*self.kept.allocator());
        for inode in self.all() {
            copy.push(*inode)?;
        }
        Ok(copy)
    }
}
