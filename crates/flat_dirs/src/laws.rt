//! What holds of slots: each law is the contract of a function that changes nothing.
ghost use Rattle.std.specs.Prelude.{◌≡◌, Some, IsTrue, ◌+◌, take};
ghost use Rattle.std.specs.FinMap as map;
ghost use Rattle.ccfs_base.specs.Names.{is_name};
ghost use Rattle.flat_dirs.specs.Slot.{slot_bytes, slot_in, length_in};
ghost use Rattle.flat_dirs.specs.Slots.{find_in, entries_in, directory, AreApart};

use super::slot::Slot;
use super::slots::Slots;
use ccfs_base::Name;

/// The bytes of a slot with a name hold that slot.
pub fn written_is_read(slot: &Slot)
    requires { IsTrue (is_name slot.now.name) }
    ensures { slot_in (slot_bytes slot.now) ≡ Some slot.now }
{
    // No step, but with it the proof knows that the parent is a number of 4 bytes.
    let _parent = slot.parent;
}

/// Bytes that agree up to the end of the name hold the same slot, or both hold none.
pub fn only_fields_are_read(one: &[u8; 69], other: &[u8; 69])
    requires { take (5 + length_in one.now) one.now ≡ take (5 + length_in one.now) other.now }
    ensures { slot_in one.now ≡ slot_in other.now }
{}

/// What is found by a name is what the directory, as a map from names to inodes, has there.
pub fn found_as_in_a_map(slots: &Slots, parent: u32, name: &Name)
    ensures { find_in slots.now parent name.now ≡ map.get (directory slots.now parent) name.now }
{}

/// Where no two slots have one parent and name, a directory's entries are the inodes of that map, in the order of the
/// names.
pub fn listed_as_in_a_map(slots: &Slots, parent: u32)
    requires { AreApart slots.now }
    ensures { entries_in slots.now parent ≡ map.values (directory slots.now parent) }
{}
