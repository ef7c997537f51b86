//! The inodes that fail a check.
ghost use Rattle.std.specs.Prelude.{◌≡◌, ◌<◌, Some, IfSome};
ghost use Rattle.tree_model.specs.Rows.{up_from};
ghost use Rattle.image_model.specs.Lowest.{lowest};
ghost use Rattle.image_model.specs.Checks.{is_bad_attr, may_stand, is_bad_record, is_bad_slot, is_entry_at, has_lower, is_twin, parent_at, is_rooted, is_in_ring};
ghost use Rattle.flat_dirs.specs.Slots.{is_slot_at};
ghost use Rattle.image_model.specs.Reading.{IsWhole, table_in, is_bad_inode};

use super::check::{Check, Limits};
use super::reading::{attr_at, is_dir_at, is_dir_attr, is_entry, slot_at};
use block_layout::Geometry;
use ccfs_base::Name;
use flat_dirs::Slot;
use inode_table::{Attr, Kind};

/// Whether attributes are none, or those of a file that is too long.
fn is_bad_attr(longest: u64, attr: Option<Attr>) -> bool
    ensures { result ≡ is_bad_attr longest attr }
{
    match attr {
        Some(attr) => attr.kind == Kind::File && longest < attr.length,
        None => true,
    }
}

/// Whether a record is bad.
fn is_bad_record(limits: &Limits, geometry: &Geometry, bytes: &[u8], inode: u32) -> bool
    requires whole { IsWhole geometry.now bytes.now }
    requires inode { inode < geometry.now.inodes }
    ensures { result ≡ is_bad_record limits.now (table_in geometry.now bytes.now) inode }
{
    is_entry(geometry, bytes, inode) && is_bad_attr(limits.longest, attr_at(geometry, bytes, inode))
}

/// Whether a slot may have this parent, of a directory or of a file.
fn may_stand(limits: &Limits, geometry: &Geometry, bytes: &[u8], is_dir: bool, parent: u32) -> bool
    requires { IsWhole geometry.now bytes.now }
    ensures { result ≡ may_stand limits.now (table_in geometry.now bytes.now) is_dir parent }
{
    is_dir_at(geometry, bytes, parent) && !(parent == 1 && (is_dir || !limits.orphans))
}

/// Whether a slot is bad.
fn is_bad_slot(limits: &Limits, geometry: &Geometry, bytes: &[u8], inode: u32) -> bool
    requires whole { IsWhole geometry.now bytes.now }
    requires inode { inode < geometry.now.inodes }
    ensures { result ≡ is_bad_slot limits.now (table_in geometry.now bytes.now) inode }
{
    if !is_entry(geometry, bytes, inode) {
        return false;
    }
    let is_dir = is_dir_attr(attr_at(geometry, bytes, inode));
    match slot_at(geometry, bytes, inode) {
        Some(slot) => !may_stand(limits, geometry, bytes, is_dir, slot.parent),
        None => true,
    }
}

/// Whether a slot is that of this name in this directory.
fn is_slot_at(slot: Option<Slot>, parent: u32, name: &Name) -> bool
    ensures { result ≡ is_slot_at slot parent name.now }
{
    match slot {
        Some(slot) => slot.parent == parent && slot.name == *name,
        None => false,
    }
}

/// Whether an inode is a used one from 2 on that has this parent and name.
fn is_entry_at(geometry: &Geometry, bytes: &[u8], inode: u32, slot: &Slot) -> bool
    requires whole { IsWhole geometry.now bytes.now }
    requires inode { inode < geometry.now.inodes }
    ensures { result ≡ is_entry_at (table_in geometry.now bytes.now) slot.now.parent slot.now.name inode }
{
    is_entry(geometry, bytes, inode)
        && is_slot_at(slot_at(geometry, bytes, inode), slot.parent, &slot.name)
}

/// Whether a lower inode from 2 on has this parent and name.
#[tactic(auto, using(crate::proofs::Least::passed_by, crate::proofs::Least::found_below))]
fn has_lower(geometry: &Geometry, bytes: &[u8], inode: u32, slot: &Slot) -> bool
    requires whole { IsWhole geometry.now bytes.now }
    requires inode { inode < geometry.now.inodes }
    ensures { result ≡ has_lower (table_in geometry.now bytes.now) inode (Some slot.now) }
{
    for lower in 0..inode {
        if is_entry_at(geometry, bytes, lower, slot) {
            return true;
        }
    }
    false
}

/// Whether an inode has the parent and the name of a lower one.
fn is_twin(geometry: &Geometry, bytes: &[u8], inode: u32) -> bool
    requires whole { IsWhole geometry.now bytes.now }
    requires inode { inode < geometry.now.inodes }
    ensures { result ≡ is_twin (table_in geometry.now bytes.now) inode }
{
    if !is_entry(geometry, bytes, inode) {
        return false;
    }
    match slot_at(geometry, bytes, inode) {
        Some(slot) => has_lower(geometry, bytes, inode, &slot),
        None => false,
    }
}

/// The parent of an inode. The root and the orphan directory have none.
fn parent_at(geometry: &Geometry, bytes: &[u8], inode: u32) -> Option<u32>
    requires { IsWhole geometry.now bytes.now }
    ensures { result ≡ parent_at (table_in geometry.now bytes.now) inode }
{
    if inode < geometry.inodes && is_entry(geometry, bytes, inode) {
        match slot_at(geometry, bytes, inode) {
            Some(slot) => Some(slot.parent),
            None => None,
        }
    } else {
        None
    }
}

/// One step up, from an inode or from nowhere.
fn up_from(geometry: &Geometry, bytes: &[u8], at: Option<u32>) -> Option<u32>
    requires { IsWhole geometry.now bytes.now }
    ensures { result ≡ up_from (parent_at (table_in geometry.now bytes.now)) at }
{
    match at {
        Some(inode) => parent_at(geometry, bytes, inode),
        None => None,
    }
}

/// Whether the chain of parents of an inode comes to the root.
#[tactic(auto, using(crate::proofs::Least::passed_by, crate::proofs::Least::found_below))]
fn is_rooted(geometry: &Geometry, bytes: &[u8], inode: u32) -> bool
    requires { IsWhole geometry.now bytes.now }
    ensures { result ≡ is_rooted (table_in geometry.now bytes.now) inode }
{
    let mut at = Some(inode);
    for _steps in 0..geometry.inodes {
        if at == Some(0) {
            return true;
        }
        at = up_from(geometry, bytes, at);
    }
    false
}

/// Whether an inode is neither below the root nor in the orphan directory.
fn is_in_ring(geometry: &Geometry, bytes: &[u8], inode: u32) -> bool
    requires whole { IsWhole geometry.now bytes.now }
    requires inode { inode < geometry.now.inodes }
    ensures { result ≡ is_in_ring (table_in geometry.now bytes.now) inode }
{
    is_entry(geometry, bytes, inode)
        && (parent_at(geometry, bytes, inode) != Some(1) && !is_rooted(geometry, bytes, inode))
}

/// Whether an inode fails a check that is made of each inode.
fn is_bad_inode(
    check: Check,
    limits: &Limits,
    geometry: &Geometry,
    bytes: &[u8],
    inode: u32,
) -> bool
    requires whole { IsWhole geometry.now bytes.now }
    requires inode { inode < geometry.now.inodes }
    ensures { result ≡ is_bad_inode check limits.now (table_in geometry.now bytes.now) inode }
{
    match check {
        Check::Record => is_bad_record(limits, geometry, bytes, inode),
        Check::Slot => is_bad_slot(limits, geometry, bytes, inode),
        Check::Twin => is_twin(geometry, bytes, inode),
        Check::Ring => is_in_ring(geometry, bytes, inode),
        Check::Format | Check::Root | Check::Pointer | Check::Bits | Check::Counts => false,
    }
}

/// The lowest inode that fails such a check.
#[tactic(auto, using(crate::proofs::Least::passed_by, crate::proofs::Least::found_at))]
pub(crate) fn lowest_bad(
    check: Check,
    limits: &Limits,
    geometry: &Geometry,
    bytes: &[u8],
) -> Option<u32>
    requires { IsWhole geometry.now bytes.now }
    ensures lowest { result ≡ lowest (is_bad_inode check limits.now (table_in geometry.now bytes.now)) geometry.now.inodes }
    ensures within { IfSome result (λ inode. inode < geometry.now.inodes) }
{
    for inode in 0..geometry.inodes {
        if is_bad_inode(check, limits, geometry, bytes, inode) {
            return Some(inode);
        }
    }
    None
}
