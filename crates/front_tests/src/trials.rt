//! A front on the fresh tree of a small image, and calls that tests make on it.
ghost use Rattle.std.specs.Prelude.{◌≡◌, ◌<◌, ◌≤◌, [], ◌∷◌, IsTrue, IfOk};
ghost use Rattle.ccfs_base.specs.Fits.{fits_command};

use block_layout::Geometry;
use ccfs_base::{Bytes, Command, NoMemory, Path, Reply};
use front_core::Front;
use image_check::Inodes;
use std::alloc::Global;
use std::test::Fail;
use tree_model::Tree;

/// The front of a fresh image of 512 blocks and 32 inodes. Its metadata are six blocks, which hold zeros here.
pub(crate) fn fresh(alloc: Global, limit: u32) -> Result<Front, Fail>
    requires { (1 ≤ limit) × (limit ≤ 1048576) }
{
    let geometry = Geometry::of(512, 32)?;
    let tree = Tree::root_alone(alloc)?;
    let inodes = root_inode(alloc)?;
    let mut metadata = Bytes::new(alloc);
    metadata.resize(24_576)?;
    Ok(Front::of(alloc, tree, inodes, &geometry, metadata, limit)?)
}

/// The root's inode alone.
fn root_inode(alloc: Global) -> Result<Inodes, NoMemory>
    ensures { IfOk result (λ inodes. inodes ≡ 0 ∷ []) }
{
    let mut inodes = Inodes::new(alloc);
    inodes.push(0)?;
    Ok(inodes)
}

/// Makes a call whose reply is to be that it was done.
pub(crate) fn do_it(front: &mut Front, actor: u8, command: &Command) -> Result<(), Fail>
    requires actor { actor < 64 }
    requires fits { IsTrue (fits_command command.now) }
{
    match front.act(actor, command)? {
        Reply::Done => Ok(()),
        _ => Err("it wasn't done".into()),
    }
}

/// Whether so many batches are told to be durable.
fn is_synced(reply: &Reply, seals: u64) -> bool {
    match reply {
        Reply::Synced { seals: told } => *told == seals,
        _ => false,
    }
}

/// Makes durable what the actor's stream did. So many batches are to be told.
pub(crate) fn sync(front: &mut Front, actor: u8, seals: u64) -> Result<(), Fail>
    requires { actor < 64 }
{
    let reply = front.act(actor, &Command::StreamSync)?;
    if is_synced(&reply, seals) {
        Ok(())
    } else {
        Err("another number is told".into())
    }
}

/// Makes a file at a path, which is to be done.
pub(crate) fn create(alloc: Global, front: &mut Front, actor: u8, path: &[u8]) -> Result<(), Fail>
    requires { actor < 64 }
{
    let command = Command::Create {
        path: Path::parse(alloc, path)?,
    };
    do_it(front, actor, &command)
}

/// Takes the stream of this number for the actor.
pub(crate) fn take_stream(front: &mut Front, actor: u8, stream: u8) -> Result<(), Fail>
    requires actor { actor < 64 }
    requires stream { stream < 64 }
{
    let command = Command::SetStream {
        stream,
        ignore: false,
    };
    do_it(front, actor, &command)
}
