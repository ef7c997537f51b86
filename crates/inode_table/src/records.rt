//! Where the records of inodes stand.
ghost use Rattle.std.specs.Prelude.{◌≡◌};
ghost use Rattle.inode_table.specs.Records.{record_block, record_offset};

use block_layout::{BLOCK_SIZE, VOLUME_START};

/// The bytes of a record.
pub const RECORD_SIZE: u32 = 256;

/// The blocks of the volume in front of the inode table: the counter block and the two bitmaps.
const BLOCKS_BEFORE: u32 = 3;

/// The block of the image in which the record of an inode stands.
pub fn record_block(inode: u32) -> u32
    ensures { result ≡ record_block inode }
{
    VOLUME_START + BLOCKS_BEFORE + inode / (BLOCK_SIZE / RECORD_SIZE)
}

/// Where in the volume the record of an inode begins, in bytes from the volume's start.
pub fn record_offset(inode: u32) -> u64
    ensures { result ≡ record_offset inode }
{
    u64::from(BLOCKS_BEFORE) * u64::from(BLOCK_SIZE) + u64::from(RECORD_SIZE) * u64::from(inode)
}
