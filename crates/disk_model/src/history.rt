// What a disk in memory holds, and the operations that made it so.
ghost use Rattle.std.specs.Prelude.{◌≡◌, ◌+◌, ◌≤◌, IsTrue, [], ◌∷◌, length, reverse, replicate, vec_len, IfOk, OnOk, OnErr};
ghost use Rattle.disk_model.specs.Bytes.{patched, resized};
ghost use Rattle.disk_model.specs.History.{contents, all_inside};

use crate::operation::Operation;
use std::alloc::{AllocError, Global};

/// The contents at the start and now, and the operations between, the oldest first.
#[derive(Drop)]
pub struct History {
    alloc: Global,
    pub start: Vec<u8>,
    pub bytes: Vec<u8>,
    pub operations: Vec<Operation>,
    pub ghost kept: { bytes.items ≡ contents start.items (reverse operations.items) },
    pub ghost inside: { IsTrue (all_inside start.items (reverse operations.items)) },
}

impl History {
    ghost use Rattle.disk_model.specs.HistoryView.{Goes, Stays};
    ghost use Rattle.disk_model.specs.declared.operation.Operation.TheVariants.{Write, Resize, Sync};

    /// So many zeros, and no operation.
    pub fn new(alloc: Global, size: usize) -> Result<History, AllocError>
        ensures now { IfOk result (λ history. history.bytes.items ≡ replicate size 0) }
        ensures start { IfOk result (λ history. history.start.items ≡ replicate size 0) }
        ensures operations { IfOk result (λ history. history.operations.items ≡ []) }
    {
        History::holding(alloc, vec![in alloc; 0; size]?)
    }

    /// These bytes, and no operation.
    pub fn holding(alloc: Global, bytes: Vec<u8>) -> Result<History, AllocError>
        ensures now { IfOk result (λ history. history.bytes.items ≡ bytes.items) }
        ensures start { IfOk result (λ history. history.start.items ≡ bytes.items) }
        ensures operations { IfOk result (λ history. history.operations.items ≡ []) }
    {
        let start = bytes.to_vec(alloc)?;
        Ok(History {
            alloc,
            start,
            bytes,
            operations: Vec::new(alloc),
        })
    }

    /// Writes bytes at an offset.
    pub fn write(&mut self, offset: usize, bytes: &[u8]) -> Result<(), AllocError>
        requires { offset + length bytes.now ≤ vec_len self.old.bytes }
        ensures ok { OnOk result ((copy : _) × (copy.items ≡ bytes.now) × Goes (Write offset copy) self.old self.new) }
        ensures bytes { OnOk result (self.new.bytes.items ≡ patched self.old.bytes.items offset bytes.now) }
        ensures err { OnErr result (Stays self.old self.new) }
    {
        let copy = bytes.to_vec(self.alloc)?;
        self.operations.push(Operation::Write {
            offset: offset as u64,
            bytes: copy,
        })?;
        self.bytes[offset..offset + bytes.len()].copy_from_slice(bytes);
        Ok(())
    }

    /// Remembers a sync.
    pub fn sync(&mut self) -> Result<(), AllocError>
        ensures ok { OnOk result (Goes Sync self.old self.new) }
        ensures bytes { OnOk result (self.new.bytes.items ≡ self.old.bytes.items) }
        ensures err { OnErr result (Stays self.old self.new) }
    {
        self.operations.push(Operation::Sync)?;
        Ok(())
    }

    /// Cuts the contents, or fills them up with zeros.
    pub fn resize(&mut self, size: usize) -> Result<(), AllocError>
        ensures ok { OnOk result (Goes (Resize size) self.old self.new) }
        ensures bytes { OnOk result (self.new.bytes.items ≡ resized self.old.bytes.items size) }
        ensures err { OnErr result (Stays self.old self.new) }
    {
        let both = size.min(self.bytes.len());
        let zeros = vec![in self.alloc; 0; size - both]?;
        let mut next = self.bytes[..both].to_vec(self.alloc)?;
        next.extend_from_slice(&zeros)?;
        self.operations
            .push(Operation::Resize { size: size as u64 })?;
        self.bytes = next;
        Ok(())
    }
}
