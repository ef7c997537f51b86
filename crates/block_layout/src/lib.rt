//! The places of a disk image, and its superblock.
//!
//! An image is blocks of 4,096 bytes. Block 0 is the superblock. The volume is all from block 260 on: the counter
//! block, the block bitmap, the inode bitmap, from block 263 on the inode table of 16 inodes a block, behind it the
//! slot table of 32 slots a block, and behind that the data blocks. What stands in blocks 1 to 259 isn't told here.
//!
//! The crate stands on `byteorder` for numbers as bytes, and on `thiserror` for messages. It promises that each
//! `Geometry` is one that an image may have, that a superblock is read as it was written, and that exactly the written
//! superblocks are read: for all others the first wrong field is named.
#![tactic(auto)]

mod geometry;
mod laws;
mod superblock;

pub use geometry::{BLOCK_SIZE, BadSize, Geometry, VOLUME_START, Which};
pub use laws::{read_is_written, sizes_tell_the_geometry, written_is_read};
pub use superblock::{BadSuper, SuperField, decode_super, encode_super};
