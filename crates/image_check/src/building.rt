//! The tree of a volume, built from its tables: each row is made in its directory, which is listed before it, and then each
//! directory has its count of changes.
ghost use Rattle.std.specs.Prelude.{◌≡◌, IfOk, length};
ghost use Rattle.std.specs.FinMap as map;
ghost use Rattle.tree_model.specs.Rows.{Rows};
ghost use Rattle.image_check.specs.Tables.{seen};
ghost use Rattle.image_check.specs.Spelled.{AreDistinct, AreSerials, making, changes_told, IsSpelled, AreMade};

use super::inodes::Inodes;
use super::table::{Table, is_dir_attr};
use ccfs_base::NoMemory;
use std::alloc::Global;
use tree_model::{Tree, Update};

/// The serials of inodes, by inode: the places in the list. Of an inode that isn't listed nothing is told.
#[tactic(auto, using(crate::proofs::Numbered::one_serial))]
fn serials_of(alloc: Global, count: u32, inodes: &Inodes) -> Result<Vec<u32>, NoMemory>
    requires { AreDistinct count inodes.now }
    ensures { IfOk result (λ serials. AreSerials inodes.now serials.items) }
{
    let mut serials = vec![in alloc; 0; count as usize]?;
    for (serial, inode) in inodes.all().iter().enumerate() {
        serials[*inode as usize] = serial as u32;
    }
    Ok(serials)
}

/// The update that makes the row of an inode with this serial. There is none for the root, which has no slot.
fn making(table: &Table, serials: &[u32], serial: u32, inode: u32) -> Option<Update>
    ensures { result ≡ making serials.now serial ((seen table.now).attr inode) (map.get table.now.slots inode) }
{
    let slot = table.slot(inode)?;
    let dir = serials.get(slot.parent as usize)?;
    Some(Update::Make {
        dir: *dir,
        name: slot.name,
        id: serial,
        is_dir: is_dir_attr(table.attr(inode)),
    })
}

/// A tree of the rows of these inodes, in which the counts of changes aren't yet those of the volume.
fn make_rows(
    alloc: Global,
    table: &Table,
    inodes: &Inodes,
    serials: &[u32],
) -> Result<Tree, NoMemory>
    requires spelled { (t : Rows) × IsSpelled table.now inodes.now t }
    requires serials { AreSerials inodes.now serials.now }
    ensures { (t : Rows) → IsSpelled table.now inodes.now t → IfOk result (λ tree. AreMade t tree (length inodes.now)) }
{
    let mut tree = Tree::root_alone(alloc)?;
    for (serial, inode) in inodes.all().iter().enumerate() {
        if let Some(update) = making(table, serials, serial as u32, *inode) {
            tree.apply(&update)?;
        }
    }
    Ok(tree)
}

/// The count of changes of an inode. Without attributes it is 0.
fn changes_told(table: &Table, inode: u32) -> u64
    ensures { result ≡ changes_told ((seen table.now).attr inode) }
{
    match table.attr(inode) {
        Some(attr) => attr.changes,
        None => 0,
    }
}

/// Gives each directory of the tree the count of changes of its inode.
fn recount(tree: &mut Tree, table: &Table, inodes: &Inodes)
    requires { (t : Rows) × IsSpelled table.now inodes.now t }
    ensures { (t : Rows) → IsSpelled table.now inodes.now t → AreMade t tree.old (length inodes.now) → tree.new ≡ t }
{
    for (serial, inode) in inodes.all().iter().enumerate() {
        tree.with_changes(serial as u32, changes_told(table, *inode));
    }
}

/// The tree of these inodes, whose serials are their places in the list.
pub(crate) fn build(alloc: Global, table: &Table, inodes: &Inodes) -> Result<Tree, NoMemory>
    requires { (t : Rows) × IsSpelled table.now inodes.now t }
    ensures { (t : Rows) → IsSpelled table.now inodes.now t → IfOk result (λ tree. tree ≡ t) }
{
    let serials = serials_of(alloc, table.inodes(), inodes)?;
    let mut tree = make_rows(alloc, table, inodes, serials.as_slice())?;
    recount(&mut tree, table, inodes);
    Ok(tree)
}
