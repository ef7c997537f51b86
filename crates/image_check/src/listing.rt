//! The inodes of a tree in preorder: each directory before its entries, and these in byte order of their names.
ghost use Rattle.std.specs.Prelude.{◌≡◌, ◌++◌, IfOk, OnOk, reverse, map as map_list};
ghost use Rattle.flat_dirs.specs.Slots.{entries_in};
ghost use Rattle.image_check.specs.Listed.{listed, ahead_of};

use super::inodes::Inodes;
use super::table::Table;
use ccfs_base::NoMemory;
use std::alloc::Global;

/// Puts entries behind what is ahead, the last of them first, each with so many levels below it that are to be listed.
fn put_ahead(levels: u32, entries: &[u32], ahead: &mut Vec<(u32, u32)>) -> Result<(), NoMemory>
    ensures { OnOk result (ahead.new.items ≡ ahead.old.items ++ reverse (map_list (λ inode. (levels, inode)) entries.now)) }
{
    for entry in entries.iter().rev() {
        ahead.push((levels, *entry))?;
    }
    Ok(())
}

/// Puts the entries of a directory ahead, where any levels below it are to be listed.
fn open_directory(
    alloc: Global,
    table: &Table,
    levels: u32,
    inode: u32,
    ahead: &mut Vec<(u32, u32)>,
) -> Result<(), NoMemory>
    ensures { OnOk result (ahead.new.items ≡ ahead.old.items ++ reverse (ahead_of (entries_in table.now.slots) levels inode)) }
{
    if levels == 0 {
        return Ok(());
    }
    let entries = table.slots.entries(alloc, inode)?;
    put_ahead(levels - 1, entries.as_slice(), ahead)
}

/// The root and the inodes below it in preorder. No chain of parents has more steps than there are inodes, so that many
/// levels are all.
pub(crate) fn list(alloc: Global, table: &Table) -> Result<Inodes, NoMemory>
    ensures { IfOk result (λ inodes. inodes ≡ listed (entries_in table.now.slots) table.now.used.count 0) }
{
    let mut inodes = Inodes::new(alloc);
    // Inodes still to be listed, the next one last, each with so many levels below it.
    let mut ahead: Vec<(u32, u32)> = Vec::new(alloc);
    ahead.push((table.inodes(), 0))?;
    while let Some((levels, inode)) = ahead.pop() {
        inodes.push(inode)?;
        open_directory(alloc, table, levels, inode, &mut ahead)?;
    }
    Ok(inodes)
}
