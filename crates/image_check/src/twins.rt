//! Twins: inodes with the parent and the name of a lower one. The index of the slots finds the lowest inode at each place, so
//! that no two slots are compared with each other.
ghost use Rattle.std.specs.Prelude.{◌≡◌, ◌<◌, Some, IfSome};
ghost use Rattle.image_model.specs.Lowest.{lowest};
ghost use Rattle.image_model.specs.Checks.{has_lower, is_twin};
ghost use Rattle.image_check.specs.Tables.{seen, HasOnlyEntries};

use super::table::Table;
use flat_dirs::Slot;

/// Whether a lower inode has the parent and the name of this slot.
fn has_lower(table: &Table, inode: u32, slot: &Slot) -> bool
    requires { HasOnlyEntries table.now }
    ensures { result ≡ has_lower (seen table.now) inode (Some slot.now) }
{
    match table.slots.find(slot.parent, &slot.name) {
        Some(first) => first < inode,
        None => false,
    }
}

/// Whether an inode has the parent and the name of a lower one.
fn is_twin(table: &Table, inode: u32) -> bool
    requires entries { HasOnlyEntries table.now }
    requires inode { inode < table.now.used.count }
    ensures { result ≡ is_twin (seen table.now) inode }
{
    if !table.is_entry(inode) {
        return false;
    }
    match table.slot(inode) {
        Some(slot) => has_lower(table, inode, slot),
        None => false,
    }
}

/// The lowest inode that has the parent and the name of a lower one.
#[tactic(auto, using(image_model::proofs::Least::passed_by, image_model::proofs::Least::found_at))]
pub(crate) fn lowest_twin(table: &Table) -> Option<u32>
    requires { HasOnlyEntries table.now }
    ensures lowest { result ≡ lowest (is_twin (seen table.now)) table.now.used.count }
    ensures within { IfSome result (λ inode. inode < table.now.used.count) }
{
    for inode in 0..table.inodes() {
        if is_twin(table, inode) {
            return Some(inode);
        }
    }
    None
}
