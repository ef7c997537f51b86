//! The slots of an image, by inode, with an index of their places.
ghost use Rattle.std.specs.Prelude.{◌≡◌, ◌≢◌, ◌==◌, ℕ, [], Some, IfOk, OnOk, OnErr};
ghost use Rattle.std.specs.FinMap as map;
ghost use Rattle.std.specs.List.{list_any};
ghost use Rattle.std.specs.List.Sorted.{IsStrictlySortedBy};
ghost use Rattle.std.specs.Option.{option_copied};
ghost use Rattle.flat_dirs.specs.Slots.{find_in, entries_in, is_slot_at, IsLeast, is_in, by_name};

use super::index::{SlotKey, all_below, enter, first_at, leave};
use super::slot::Slot;
use ccfs_base::{Name, NoMemory};
use std::alloc::{AllocError, Global};
use std::collections::{BTreeMap, BTreeSet};
use std::marker::Model;

/// The slots of an image. A contract sees them as a finite map from inodes to slots.
#[derive(Drop)]
pub struct Slots {
    slots: BTreeMap<u32, Slot>,
    places: BTreeSet<SlotKey>,
}

impl Model for Slots {
    ghost use Rattle.std.specs.FinMap as map;
    ghost use Rattle.std.specs.Coded.{coded_ℕ};
    ghost use Rattle.std.specs.Ordering.{nat_cmp};
    ghost use Rattle.flat_dirs.specs.declared.slot.Slot.{Slot};
    ghost use Rattle.flat_dirs.specs.contracts.slot.Slot as of_slot;
    ghost use Rattle.flat_dirs.specs.Index.{IsIndex};

    ghost Value = { map.FinMap nat_cmp Slot };

    ghost coded = { map.code coded_ℕ (of_slot.the_row).coded };

    ghost view = { λ a. map.from_entries a.slots.entries };

    ghost invariant = { λ a. IsIndex (map.from_entries a.slots.entries) a.places };
}

impl Slots {
    /// No slots. It takes no memory.
    pub fn new(alloc: Global) -> Slots
        ensures { result ≡ map.empty }
    {
        Slots {
            slots: BTreeMap::new(alloc),
            places: BTreeSet::new(alloc),
        }
    }

    /// The slot of that inode.
    pub fn get(&self, inode: u32) -> Option<&Slot>
        ensures { option_copied result ≡ map.get self.now inode }
    {
        self.slots.get(&inode)
    }

    /// Sets the slot of that inode, in the place of one that it has. Without memory all is as before. The slot that the
    /// inode has already is set without memory.
    pub fn put(&mut self, inode: u32, slot: Slot) -> Result<(), NoMemory>
        ensures ok { OnOk result (self.new ≡ map.insert self.old inode slot) }
        ensures err { OnErr result (self.new ≡ self.old) }
        ensures other { OnErr result (map.get self.old inode ≢ Some slot) }
    {
        enter(&mut self.places, (slot.parent, slot.name, inode))?;
        match self.slots.insert(inode, slot) {
            Ok(Some(was)) if was == slot => Ok(()),
            Ok(Some(was)) => {
                leave(&mut self.places, &(was.parent, was.name, inode));
                Ok(())
            }
            Ok(None) => Ok(()),
            Err(_) => {
                leave(&mut self.places, &(slot.parent, slot.name, inode));
                Err(AllocError)
            }
        }
    }

    /// Takes the slot of that inode out, if it has one.
    pub fn remove(&mut self, inode: u32)
        ensures { self.new ≡ map.remove self.old inode }
    {
        if let Some(old) = self.slots.remove(&inode) {
            leave(&mut self.places, &(old.parent, old.name, inode));
        }
    }

    /// The inode whose slot has this parent and name, and `None` exactly where no slot has both. Of several such
    /// inodes, which no sound image has, it is the lowest.
    pub fn find(&self, parent: u32, name: &Name) -> Option<u32>
        ensures scan { result ≡ find_in self.now parent name.now }
        ensures least { IsLeast (λ inode. is_slot_at (map.get self.now inode) parent name.now) result }
    {
        first_at(&self.places, parent, name)
    }

    /// The inodes whose slots have this parent, in byte order of their names. Equal names, which no sound image has,
    /// are in order of inodes. An empty directory is listed without memory.
    pub fn entries(&self, alloc: Global, parent: u32) -> Result<Vec<u32>, NoMemory>
        ensures scan { IfOk result (λ inodes. inodes.items ≡ entries_in self.now parent) }
        ensures just { IfOk result (λ inodes. (inode : ℕ) → list_any (λ listed. listed == inode) inodes.items ≡ is_in parent (map.get self.now inode)) }
        ensures some { OnErr result (entries_in self.now parent ≢ []) }
        ensures ordered { IfOk result (λ inodes. IsStrictlySortedBy (by_name self.now) inodes.items) }
    {
        all_below(alloc, &self.places, parent)
    }
}
