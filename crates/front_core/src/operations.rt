//! The operations on files that updates make.
ghost use Rattle.std.specs.Prelude.{◌≡◌, ℕ, List, IfOk, slice_index};
ghost use Rattle.image_model.specs.Carrying.{inode_in};
ghost use Rattle.update_records.specs.Operations.{ops_of, ops_of_made, ops_of_left, ops_of_replaced};

use ccfs_base::NoMemory;
use file_bodies::{BodyOp, BodyOps};
use std::alloc::Global;
use tree_model::Update;

/// The inode of a serial, 0 where none is listed.
fn inode_of(inodes: &[u32], serial: u32) -> u32
    ensures { result ≡ inode_in inodes.now serial }
{
    match inodes.get(serial as usize) {
        Some(inode) => *inode,
        None => 0,
    }
}

/// One operation, or none.
fn at_most_one(alloc: Global, op: Option<BodyOp>) -> Result<BodyOps, NoMemory>
    ensures { IfOk result (λ ops. ops ≡ Rattle.std.specs.Prelude.option_to_list op) }
{
    let mut ops = BodyOps::new(alloc);
    if let Some(op) = op {
        ops.push(op)?;
    }
    Ok(ops)
}

/// The operation by which a row has no contents any more, where it doesn't stay.
fn left(inode: u32, stays: bool) -> Option<BodyOp>
    ensures { Rattle.std.specs.Prelude.option_to_list result ≡ ops_of_left inode stays }
{
    if stays {
        None
    } else {
        Some(BodyOp::Drop { inode })
    }
}

/// The operation by which a file gets contents, where the row is no directory.
fn made(inode: u32, is_dir: bool) -> Option<BodyOp>
    ensures { Rattle.std.specs.Prelude.option_to_list result ≡ ops_of_made inode is_dir }
{
    if is_dir {
        None
    } else {
        Some(BodyOp::Grow { inode, len: 0 })
    }
}

/// The operation on files of an update, if it has one, where `inodes` has the inode of each serial.
fn op_of(inodes: &[u32], update: &Update) -> Option<BodyOp>
    ensures { Rattle.std.specs.Prelude.option_to_list result ≡ ops_of inodes.now update.now }
{
    match update {
        Update::Make { id, is_dir, .. } => made(inode_of(inodes, *id), *is_dir),
        Update::Remove { id, stays, .. } => left(inode_of(inodes, *id), *stays),
        Update::Move {
            replaced: Some(id),
            stays,
            ..
        } => left(inode_of(inodes, *id), *stays),
        Update::Release { id } => left(inode_of(inodes, *id), false),
        _ => None,
    }
}

/// The operations on files of an update, where `inodes` has the inode of each serial.
pub(crate) fn ops_of(alloc: Global, inodes: &[u32], update: &Update) -> Result<BodyOps, NoMemory>
    ensures { IfOk result (λ ops. ops ≡ ops_of inodes.now update.now) }
{
    at_most_one(alloc, op_of(inodes, update))
}
