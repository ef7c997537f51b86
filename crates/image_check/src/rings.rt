//! Rings: inodes whose chain of parents doesn't come to the root. Each chain is followed up to the first inode that is marked
//! as below the root, and then all of it is marked. So each inode is met a few times, and once more where there is a ring.
ghost use Rattle.std.specs.Prelude.{◌≡◌, ◌<◌, ℕ, true, false, length, Some, IfSome, IfOk, MatchOption, slice_index_or};
ghost use Rattle.tree_model.specs.Rows.{up_from};
ghost use Rattle.image_model.specs.Lowest.{lowest, NoneBelow};
ghost use Rattle.image_model.specs.Checks.{parent_at, is_rooted, is_in_ring};
ghost use Rattle.image_check.specs.Tables.{seen, HasOnlyEntries};
ghost use Rattle.image_check.specs.Marks.{marked_at, is_marked_above, Climbs, AreMarks, AreMarkedUp, MarksItsWalk};

use super::table::Table;
use ccfs_base::NoMemory;
use std::alloc::Global;

/// The parent of an inode. The root and the orphan directory have none.
#[tactic(auto, using(crate::proofs::Parents::parent_kept))]
fn parent_at(table: &Table, inode: u32) -> Option<u32>
    requires { HasOnlyEntries table.now }
    ensures { result ≡ parent_at (seen table.now) inode }
{
    match table.slot(inode) {
        Some(slot) => Some(slot.parent),
        None => None,
    }
}

/// One step up, from an inode or from nowhere.
fn up_from(table: &Table, at: Option<u32>) -> Option<u32>
    requires { HasOnlyEntries table.now }
    ensures { result ≡ up_from (parent_at (seen table.now)) at }
{
    match at {
        Some(inode) => parent_at(table, inode),
        None => None,
    }
}

/// Whether there is an inode, and it is marked.
fn is_marked(marks: &[bool], at: Option<u32>) -> bool
    ensures { result ≡ marked_at marks.now at }
{
    match at {
        Some(inode) => (inode as usize) < marks.len() && marks[inode as usize],
        None => false,
    }
}

/// Marks an inode, where there is one.
fn set_mark(marks: &mut [bool], at: Option<u32>)
    ensures kept { (i : ℕ) → slice_index_or marks.old i false ≡ true → slice_index_or marks.new i false ≡ true }
    ensures new { (i : ℕ) → slice_index_or marks.new i false ≡ true → slice_index_or marks.old i false ≡ false → at ≡ Some i }
    ensures set { (i : ℕ) → at ≡ Some i → i < length marks.old → marked_at marks.new (Some i) ≡ true }
{
    if let Some(inode) = at {
        if (inode as usize) < marks.len() {
            marks[inode as usize] = true;
        }
    }
}

/// How many steps up from an inode lead to a marked one. None where no such step is among as many as there are inodes.
#[tactic(auto, using(crate::proofs::Climbing::none_more))]
fn steps_to_mark(table: &Table, marks: &[bool], inode: u32) -> Option<u32>
    requires { HasOnlyEntries table.now }
    ensures { MatchOption result (NoneBelow (is_marked_above (seen table.now) marks.now inode) table.now.used.count) (λ steps. is_marked_above (seen table.now) marks.now inode steps ≡ true) }
{
    let mut at = Some(inode);
    for steps in 0..table.inodes() {
        if is_marked(marks, at) {
            return Some(steps);
        }
        at = up_from(table, at);
    }
    None
}

/// Marks an inode below the root and those above it, so many steps up.
fn mark_chain(table: &Table, marks: &mut [bool], inode: u32, steps: u32)
    requires entries { HasOnlyEntries table.now }
    requires marks { AreMarks (seen table.now) marks.old }
    requires below { Climbs (seen table.now) inode }
    ensures sound { AreMarks (seen table.now) marks.new }
    ensures walked { AreMarkedUp (seen table.now) marks.new inode steps }
{
    let mut at = Some(inode);
    for _step in 0..steps {
        set_mark(marks, at);
        at = up_from(table, at);
    }
}

/// Whether an inode is below the root. If so, it is marked, and all above it are.
fn is_rooted(table: &Table, marks: &mut [bool], inode: u32) -> bool
    requires entries { HasOnlyEntries table.now }
    requires marks { AreMarks (seen table.now) marks.old }
    requires some { 0 < table.now.used.count }
    ensures answer { result ≡ is_rooted (seen table.now) inode }
    ensures marks { AreMarks (seen table.now) marks.new }
    ensures walked { result ≡ true → MarksItsWalk (seen table.now) marks.old marks.new inode }
{
    match steps_to_mark(table, marks, inode) {
        Some(steps) => {
            mark_chain(table, marks, inode, steps);
            true
        }
        None => false,
    }
}

/// Whether an inode is neither below the root nor in the orphan directory.
fn is_in_ring(table: &Table, marks: &mut [bool], inode: u32) -> bool
    requires entries { HasOnlyEntries table.now }
    requires marks { AreMarks (seen table.now) marks.old }
    requires inode { inode < table.now.used.count }
    ensures answer { result ≡ is_in_ring (seen table.now) inode }
    ensures marks { AreMarks (seen table.now) marks.new }
{
    table.is_entry(inode) && (parent_at(table, inode) != Some(1) && !is_rooted(table, marks, inode))
}

/// The marks to begin with: the root's alone.
fn root_marked(alloc: Global, table: &Table) -> Result<Vec<bool>, NoMemory>
    requires { 0 < table.now.used.count }
    ensures { IfOk result (λ marks. AreMarks (seen table.now) marks.items) }
{
    let mut marks = vec![in alloc; false; table.inodes() as usize]?;
    marks[0] = true;
    Ok(marks)
}

/// The lowest inode that is neither below the root nor in the orphan directory.
#[tactic(auto, using(image_model::proofs::Least::passed_by, image_model::proofs::Least::found_at))]
pub(crate) fn lowest_in_ring(alloc: Global, table: &Table) -> Result<Option<u32>, NoMemory>
    requires entries { HasOnlyEntries table.now }
    requires some { 0 < table.now.used.count }
    ensures lowest { IfOk result (λ found. found ≡ lowest (is_in_ring (seen table.now)) table.now.used.count) }
    ensures within { IfOk result (λ found. IfSome found (λ inode. inode < table.now.used.count)) }
{
    let mut marks = root_marked(alloc, table)?;
    for inode in 0..table.inodes() {
        if is_in_ring(table, &mut marks, inode) {
            return Ok(Some(inode));
        }
    }
    Ok(None)
}
