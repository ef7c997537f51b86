//! The sizes and places of an image.
ghost use Rattle.std.specs.Prelude.{◌≡◌, ◌+◌, ◌-◌, ◌*◌, ◌/◌, ◌%◌, ◌≤◌, MatchResult, IfOk, Some, None};
ghost use Rattle.block_layout.specs.Sizes.{block_size, volume_start, data_start, good_blocks, good_inodes, bad_size};

use thiserror::Error;

/// The bytes of a block.
pub const BLOCK_SIZE: u32 = 4096;

/// The first block of the volume, which goes to the end of the image.
pub const VOLUME_START: u32 = 260;

/// The first block of the inode table, behind the counter block and the two bitmaps.
const INODE_TABLE: u32 = 263;

/// How many inodes stand in a block of the inode table.
const INODES_PER_BLOCK: u32 = 16;

/// How many slots stand in a block of the slot table.
const SLOTS_PER_BLOCK: u32 = 32;

/// Which size is refused.
#[derive(Clone, Copy, Debug, PartialEq, Eq, Drop)]
pub enum Which {
    /// The number of blocks.
    Blocks,
    /// The number of inodes.
    Inodes,
}

/// A size that no image may have.
#[derive(Clone, Copy, Debug, PartialEq, Eq, Drop, Error)]
#[error("{which:?} can't be {given}")]
pub struct BadSize {
    /// The size that is refused.
    pub which: Which,
    /// The number that was given for it.
    pub given: u32,
}

/// The sizes and places of an image. All are counted in blocks, but for the inodes.
#[derive(Clone, Copy, Debug, PartialEq, Eq, Drop)]
pub struct Geometry {
    /// How many blocks the image has, from 512 to 16,384.
    pub blocks: u32,
    /// How many inodes the image has, from 32 to 8,192 in steps of 32.
    pub inodes: u32,
    /// The first block of the inode table.
    pub inode_table: u32,
    /// The first block of the slot table.
    pub slot_table: u32,
    /// The first data block.
    pub first_data: u32,
    /// How many data blocks there are, at least 64. They go to the end of the image.
    pub data_blocks: u32,
    // What each holder of a geometry knows of it.
    pub ghost least_blocks: { 512 ≤ blocks },
    pub ghost most_blocks: { blocks ≤ 16384 },
    pub ghost least_inodes: { 32 ≤ inodes },
    pub ghost most_inodes: { inodes ≤ 8192 },
    pub ghost inodes_in_steps: { inodes % 32 ≡ 0 },
    pub ghost inode_table_place: { inode_table ≡ 263 },
    pub ghost slot_table_place: { slot_table ≡ 263 + inodes / 16 },
    pub ghost first_data_place: { first_data ≡ 263 + 3 * inodes / 32 },
    pub ghost data_to_the_end: { first_data + data_blocks ≡ blocks },
    pub ghost least_data: { 64 ≤ data_blocks },
}

fn are_good_blocks(blocks: u32) -> bool
    ensures { result ≡ good_blocks blocks }
{
    512 <= blocks && blocks <= 16384
}

/// The first data block of an image of so many inodes.
fn data_start(inodes: u32) -> u32
    requires { inodes ≤ 8192 }
    ensures { result ≡ data_start inodes }
{
    INODE_TABLE + 3 * inodes / SLOTS_PER_BLOCK
}

fn are_good_inodes(blocks: u32, inodes: u32) -> bool
    ensures { result ≡ good_inodes blocks inodes }
{
    32 <= inodes && inodes <= 8192 && inodes % 32 == 0 && data_start(inodes) + 64 <= blocks
}

impl Geometry {
    /// The geometry of an image of so many blocks and inodes. The blocks are refused exactly where they are not from
    /// 512 to 16,384. The inodes are refused exactly where the blocks are good and the inodes are not from 32 to 8,192,
    /// are no multiple of 32, or leave fewer than 64 data blocks.
    pub fn of(blocks: u32, inodes: u32) -> Result<Geometry, BadSize>
        ensures cases { MatchResult result (λ _. bad_size blocks inodes ≡ None) (λ bad. bad_size blocks inodes ≡ Some bad) }
        ensures blocks { IfOk result (λ geometry. geometry.blocks ≡ blocks) }
        ensures inodes { IfOk result (λ geometry. geometry.inodes ≡ inodes) }
    {
        if !are_good_blocks(blocks) {
            return Err(BadSize {
                which: Which::Blocks,
                given: blocks,
            });
        }
        if !are_good_inodes(blocks, inodes) {
            return Err(BadSize {
                which: Which::Inodes,
                given: inodes,
            });
        }
        let first_data = data_start(inodes);
        Ok(Geometry {
            blocks,
            inodes,
            inode_table: INODE_TABLE,
            slot_table: INODE_TABLE + inodes / INODES_PER_BLOCK,
            first_data,
            data_blocks: blocks - first_data,
        })
    }

    /// The bytes of the image.
    pub fn bytes(&self) -> u64
        ensures { result ≡ block_size * self.now.blocks }
    {
        u64::from(BLOCK_SIZE) * u64::from(self.blocks)
    }

    /// The bytes of the volume.
    pub fn volume_bytes(&self) -> u64
        ensures { result ≡ block_size * (self.now.blocks - volume_start) }
    {
        u64::from(BLOCK_SIZE) * u64::from(self.blocks - VOLUME_START)
    }
}
