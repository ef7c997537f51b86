//! How operations change the lengths of files, without their bytes.
ghost use Rattle.std.specs.Prelude.{◌≡◌, ◌<◌, ◌^◌};
ghost use Rattle.file_bodies.specs.Files.{file_of};
ghost use Rattle.late_alloc.specs.Lengths.{length_by, reach_of};

use file_bodies::BodyOp;

/// The inode of the file that an operation is on.
pub fn inode_of(op: &BodyOp) -> u32
    ensures { result ≡ file_of op.now }
{
    match op {
        BodyOp::Put { inode, .. }
        | BodyOp::Grow { inode, .. }
        | BodyOp::Shrink { inode, .. }
        | BodyOp::Drop { inode } => *inode,
    }
}

/// The length of the operation's file after it, in bytes, from the length before it, where no file counts as none.
pub fn length_by(op: &BodyOp, len: u64) -> u64
    requires { reach_of op.now < 2 ^ 64 }
    ensures { result ≡ length_by op.now len }
{
    match op {
        BodyOp::Put { off, bytes, .. } => len.max(*off + bytes.len() as u64),
        BodyOp::Grow { len: to, .. } => len.max(*to),
        BodyOp::Shrink { len: to, .. } => len.min(*to),
        BodyOp::Drop { .. } => 0,
    }
}
