//! The records of an update.
ghost use Rattle.std.specs.Prelude.{◌≡◌, ◌<◌, ◌∷◌, ◌++◌, [], length, false, IfOk, OnOk, IfSome, is_some};
ghost use Rattle.image_model.specs.Changes.{New, Drop, Touch, Enter, all_records, kind_made, leaving_replaced};
ghost use Rattle.update_records.specs.Built.{is_built, AreSerialsBelow, AreItsRecords, IsAtMostBelow};

use super::changes::{push_drop, push_enter, push_new, push_touch};
use ccfs_base::{Name, NoMemory, Recs};
use std::alloc::Global;
use tree_model::Update;

/// The records of an update in a volume of so many inodes, where `inodes` has the inode of each serial. Nothing is told of an update
/// of a file's bytes, and of one that leaves an open file without a name or drops it: these aren't built yet.
#[tactic(auto, using(crate::proofs::Lists::all_records_append))]
pub fn records_of(
    alloc: Global,
    inodes_of_image: u32,
    inodes: &[u32],
    update: &Update,
) -> Result<Option<Recs>, NoMemory>
    requires { AreSerialsBelow (length inodes.now) update.now }
    ensures records { IfOk result (λ told. IfSome told (AreItsRecords inodes_of_image inodes.now update.now)) }
    ensures built { IfOk result (λ told. is_some told ≡ is_built update.now) }
{
    match update {
        Update::Make {
            dir,
            name,
            id,
            is_dir,
        } => {
            let parent = inodes[*dir as usize];
            let inode = inodes[*id as usize];
            let recs = made(alloc, inodes_of_image, inode, parent, name, *is_dir)?;
            Ok(Some(recs))
        }
        Update::Remove {
            dir,
            id,
            stays: false,
            ..
        } => {
            let parent = inodes[*dir as usize];
            let inode = inodes[*id as usize];
            let recs = removed(alloc, inodes_of_image, inode, parent)?;
            Ok(Some(recs))
        }
        Update::Move {
            dir,
            to_dir,
            to_name,
            id,
            replaced,
            stays: false,
            ..
        } => {
            let from = inodes[*dir as usize];
            let to = inodes[*to_dir as usize];
            let inode = inodes[*id as usize];
            let mut recs = without_replaced(alloc, inodes_of_image, inodes, *replaced)?;
            push_moved(&mut recs, alloc, inodes_of_image, inode, from, to, to_name)?;
            Ok(Some(recs))
        }
        _ => Ok(None),
    }
}

/// The records by which a new inode gets a row in the directory of another inode.
fn made(
    alloc: Global,
    inodes: u32,
    inode: u32,
    parent: u32,
    name: &Name,
    is_dir: bool,
) -> Result<Recs, NoMemory>
    ensures { IfOk result (λ recs. recs ≡ all_records inodes (New inode parent name.now (kind_made is_dir) ∷ Touch parent ∷ [])) }
{
    let mut recs = Recs::new(alloc);
    push_new(&mut recs, alloc, inodes, inode, parent, name, is_dir)?;
    push_touch(&mut recs, inodes, parent)?;
    Ok(recs)
}

/// The records by which an inode loses its row in the directory of another inode.
fn removed(alloc: Global, inodes: u32, inode: u32, parent: u32) -> Result<Recs, NoMemory>
    ensures { IfOk result (λ recs. recs ≡ all_records inodes (Drop inode ∷ Touch parent ∷ [])) }
{
    let mut recs = Recs::new(alloc);
    push_drop(&mut recs, inodes, inode)?;
    push_touch(&mut recs, inodes, parent)?;
    Ok(recs)
}

/// The records by which the file that a move replaces isn't used any more, and none where it replaces no file.
fn without_replaced(
    alloc: Global,
    inodes_of_image: u32,
    inodes: &[u32],
    replaced: Option<u32>,
) -> Result<Recs, NoMemory>
    requires { IsAtMostBelow (length inodes.now) replaced }
    ensures { IfOk result (λ recs. recs ≡ all_records inodes_of_image (leaving_replaced inodes.now replaced false)) }
{
    let mut recs = Recs::new(alloc);
    if let Some(id) = replaced {
        push_drop(&mut recs, inodes_of_image, inodes[id as usize])?;
        return Ok(recs);
    }
    Ok(recs)
}

/// Puts the records last by which an inode comes from one directory to another, under a name there.
fn push_moved(
    recs: &mut Recs,
    alloc: Global,
    inodes: u32,
    inode: u32,
    from: u32,
    to: u32,
    name: &Name,
) -> Result<(), NoMemory>
    ensures { OnOk result (recs.new ≡ recs.old ++ all_records inodes (Enter inode to name.now ∷ Touch from ∷ Touch to ∷ [])) }
{
    push_enter(recs, alloc, inodes, inode, to, name)?;
    push_touch(recs, inodes, from)?;
    push_touch(recs, inodes, to)
}
