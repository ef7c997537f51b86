//! The index of slots: their places in the order of parents, names and inodes.
ghost use Rattle.std.specs.Prelude.{◌≡◌, ◌≢◌, [], true, false, IfOk, OnOk, OnErr, map as map_list};
ghost use Rattle.std.specs.List.{filter};
ghost use Rattle.std.specs.BTreeSet.{contains, IsOrdered};
ghost use Rattle.flat_dirs.specs.Index.{place_cmp, is_below, Sets};
ghost use Rattle.flat_dirs.specs.Slots.{IsLeast};

use ccfs_base::{Name, NoMemory};
use std::alloc::{AllocError, Global};
use std::collections::BTreeSet;

/// A parent, a name in it, and the inode whose slot has both.
pub type SlotKey = (u32, Name, u32);

/// Puts a place in, if it isn't there. Without memory, which only a new place takes, all is as before.
pub fn enter(places: &mut BTreeSet<SlotKey>, place: SlotKey) -> Result<(), NoMemory>
    ensures ok { OnOk result (Sets places.old places.new place true) }
    ensures err { OnErr result (places.new ≡ places.old) }
    ensures absent { OnErr result (contains place_cmp places.old place ≡ false) }
{
    match places.insert(place) {
        Ok(_) => Ok(()),
        Err(_) => Err(AllocError),
    }
}

/// Takes a place out.
pub fn leave(places: &mut BTreeSet<SlotKey>, place: &SlotKey)
    ensures { Sets places.old places.new place.now false }
{
    places.remove(place);
}

/// The least inode at this parent and name.
pub fn first_at(places: &BTreeSet<SlotKey>, parent: u32, name: &Name) -> Option<u32>
    ensures { IsLeast (λ inode. contains place_cmp places.now (parent, name.now, inode)) result }
{
    match places.range((parent, *name, 0)..).next() {
        Some(place) if place.0 == parent && place.1 == *name => Some(place.2),
        _ => None,
    }
}

/// The inodes at this parent, in the order of the index. Where there are none it takes no memory.
pub fn all_below(
    alloc: Global,
    places: &BTreeSet<SlotKey>,
    parent: u32,
) -> Result<Vec<u32>, NoMemory>
    ensures all { IfOk result (λ inodes. inodes.items ≡ map_list (λ place. place.2) (filter (is_below parent) places.now.keys)) }
    ensures some { OnErr result (filter (is_below parent) places.now.keys ≢ []) }
    ensures ordered { IsOrdered place_cmp places.now }
{
    let mut inodes = Vec::new(alloc);
    for place in places.range((parent, Name::empty(), 0)..) {
        if place.0 != parent {
            break;
        }
        inodes.push(place.2)?;
    }
    Ok(inodes)
}
