//! Byte strings of one's own.
ghost use Rattle.std.specs.Prelude.{◌≡◌, ◌==◌, ◌+◌, ◌<◌, ◌^◌, List, [], ◌∷◌, ◌++◌, length, IfOk, OnOk, OnErr};
ghost use Rattle.ccfs_base.specs.Contents.{resized, written};

use super::NoMemory;
use std::alloc::Global;
use std::marker::Model;

/// A string of bytes in memory of its own. A contract sees it as the list of its bytes.
#[derive(Debug, Drop)]
pub struct Bytes {
    kept: Vec<u8>,
}

impl Model for Bytes {
    ghost use Rattle.std.specs.Prelude.{ℕ, List};

    ghost Value = { List ℕ };

    ghost view = { λ b. b.kept.items };
}

impl Bytes {
    /// No bytes. It takes no memory.
    pub fn new(alloc: Global) -> Bytes
        ensures { result ≡ [] }
    {
        Bytes {
            kept: Vec::new(alloc),
        }
    }

    /// Just these bytes.
    pub fn of(alloc: Global, bytes: &[u8]) -> Result<Bytes, NoMemory>
        ensures { IfOk result (λ all. all ≡ bytes.now) }
    {
        Ok(Bytes {
            kept: Vec::from_slice(alloc, bytes)?,
        })
    }

    /// Its bytes, in the memory that they have. It takes no more.
    pub fn into_vec(self) -> Vec<u8>
        ensures { result.items ≡ self }
    {
        self.kept
    }

    /// Puts a byte last. Without memory all is as before.
    pub fn push(&mut self, byte: u8) -> Result<(), NoMemory>
        ensures ok { OnOk result (self.new ≡ self.old ++ byte ∷ []) }
        ensures err { OnErr result (self.new ≡ self.old) }
    {
        self.kept.push(byte)?;
        Ok(())
    }

    /// Puts these bytes last. Without memory all is as before.
    pub fn append(&mut self, bytes: &[u8]) -> Result<(), NoMemory>
        ensures ok { OnOk result (self.new ≡ self.old ++ bytes.now) }
        ensures err { OnErr result (self.new ≡ self.old) }
    {
        self.kept.extend_from_slice(bytes)
    }

    /// Cuts it to this length in bytes, or fills it up with zeros. Without memory all is as before.
    pub fn resize(&mut self, len: usize) -> Result<(), NoMemory>
        ensures ok { OnOk result (self.new ≡ resized len self.old) }
        ensures err { OnErr result (self.new ≡ self.old) }
    {
        self.kept.resize(len, 0)
    }

    /// Puts bytes at a place, over what stands there, and zeros in a gap before them. Without memory all is as before.
    pub fn write_at(&mut self, off: usize, bytes: &[u8]) -> Result<(), NoMemory>
        requires { off + length bytes.now < 2 ^ 64 }
        ensures ok { OnOk result (self.new ≡ written off bytes.now self.old) }
        ensures err { OnErr result (self.new ≡ self.old) }
    {
        let end = off + bytes.len();
        if self.kept.len() < end {
            self.kept.resize(end, 0)?;
        }
        self.kept[off..end].copy_from_slice(bytes);
        Ok(())
    }

    /// All of its bytes.
    pub fn all(&self) -> &[u8]
        ensures { result.now ≡ self.now }
    {
        self.kept.as_slice()
    }

    /// How many bytes it has.
    pub fn len(&self) -> usize
        ensures { result ≡ length self.now }
    {
        self.all().len()
    }

    /// Whether it has no byte.
    pub fn is_empty(&self) -> bool
        ensures { result ≡ (length self.now == 0) }
    {
        self.all().is_empty()
    }

    /// The same bytes once more.
    pub fn copy(&self) -> Result<Bytes, NoMemory>
        ensures { IfOk result (λ all. all ≡ self.now) }
    {
        Ok(Bytes {
            kept: self.kept.clone()?,
        })
    }
}

impl Clone for Bytes {
    ghost is_clone = { λ first second. second ≡ first };

    fn clone(&self) -> Result<Bytes, NoMemory> {
        self.copy()
    }
}
