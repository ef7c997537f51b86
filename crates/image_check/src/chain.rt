//! All checks of a volume, in their order.
ghost use Rattle.std.specs.Prelude.{◌≡◌, ◌==◌, ◌&&◌, ◌+◌, ◌<◌, ◌≤◌, None, length, drop, option_map, IfSome, IfOk, MatchResult};
ghost use Rattle.byteorder.specs.Endian.{little_number};
ghost use Rattle.inode_table.specs.Records.{record_block};
ghost use Rattle.image_model.specs.Fields.{slot_block};
ghost use Rattle.image_model.specs.Volumes.{volume_of, number, format, clear_blocks, clear_inodes};
ghost use Rattle.image_model.specs.Checks.{is_last, unless, first_failure_for_now, are_counted};
ghost use Rattle.image_model.specs.Reading.{IsWhole};
ghost use Rattle.image_check.specs.Kinds.{told};
ghost use Rattle.image_check.specs.Tables.{IsTableOf};
ghost use Rattle.image_check.specs.Verdicts.{inode_checks, block_checks, first_among, Tells};

use super::kinds::{BadImage, CheckFault, pass};
use super::rings::lowest_in_ring;
use super::single::{are_directories, lowest_bad_record, lowest_bad_slot};
use super::table::{Table, block_bits};
use super::twins::lowest_twin;
use block_layout::Geometry;
use byteorder::{ByteOrder, LittleEndian};
use ccfs_base::NoMemory;
use image_model::{Check, Limits};
use inode_table::record_block;
use std::alloc::{AllocError, Global};

/// The blocks of the counters, and of the bits of data blocks.
const COUNTERS: u32 = 260;

const BLOCK_BITS: u32 = 261;

/// Where in the counter block the counts of free blocks and of free inodes stand, and the format. The batch number stands at
/// its start.
const FREE_BLOCKS: usize = 8;

const FREE_INODES: usize = 16;

const FORMAT: usize = 24;

/// How many slots stand in a block.
const SLOTS_PER_BLOCK: u32 = 32;

/// The number of 8 bytes at a place.
pub(crate) fn long_at(volume: &[u8], place: usize) -> u64
    requires { place + 8 ≤ length volume.now }
    ensures { result ≡ little_number 8 (drop place volume.now) }
{
    LittleEndian::read_u64(&volume[place..])
}

/// The number of 4 bytes at a place.
fn word_at(volume: &[u8], place: usize) -> u32
    requires { place + 4 ≤ length volume.now }
    ensures { result ≡ little_number 4 (drop place volume.now) }
{
    LittleEndian::read_u32(&volume[place..])
}

/// Whether the number is that of the last open batch, where a batch is open.
fn is_last(last: Option<u64>, number: u64) -> bool
    ensures { result ≡ is_last last number }
{
    match last {
        Some(last) => last == number,
        None => true,
    }
}

/// A block where a test fails.
fn unless(right: bool, block: u32) -> Option<u32>
    ensures { result ≡ unless right block }
{
    if right { None } else { Some(block) }
}

/// The block of the record of an inode, where there is one.
fn in_records(inode: Option<u32>) -> Option<u32>
    ensures { result ≡ option_map record_block inode }
{
    match inode {
        Some(inode) => Some(record_block(inode)),
        None => None,
    }
}

/// The block of the slot of an inode, where there is one.
fn in_slots(geometry: &Geometry, inode: Option<u32>) -> Option<u32>
    requires { IfSome inode (λ i. i < geometry.now.inodes) }
    ensures { result ≡ option_map (slot_block geometry.now.inodes) inode }
{
    match inode {
        Some(inode) => Some(geometry.slot_table + inode / SLOTS_PER_BLOCK),
        None => None,
    }
}

/// Whether the format is 1, and the number that of the last open batch.
fn is_format_right(last: Option<u64>, geometry: &Geometry, volume: &[u8]) -> bool
    requires { IsWhole geometry.now volume.now }
    ensures { result ≡ (format (volume_of geometry.now volume.now) == 1 && is_last last (number (volume_of geometry.now volume.now))) }
{
    word_at(volume, FORMAT) == 1 && is_last(last, long_at(volume, 0))
}

/// Whether both counts are those of the clear bits, of which there are so many.
fn are_counted(geometry: &Geometry, volume: &[u8], blocks: u32, inodes: u32) -> bool
    requires whole { IsWhole geometry.now volume.now }
    requires blocks { blocks ≡ clear_blocks (volume_of geometry.now volume.now) }
    requires inodes { inodes ≡ clear_inodes (volume_of geometry.now volume.now) }
    ensures { result ≡ are_counted (volume_of geometry.now volume.now) }
{
    long_at(volume, FREE_BLOCKS) == u64::from(blocks)
        && long_at(volume, FREE_INODES) == u64::from(inodes)
}

/// The first check of inodes that fails.
fn check_inodes(
    alloc: Global,
    geometry: &Geometry,
    volume: &[u8],
    table: &Table,
) -> Result<(), CheckFault>
    requires { IsTableOf (volume_of geometry.now volume.now) table.now }
    ensures { MatchResult result (λ _. first_among (volume_of geometry.now volume.now) inode_checks ≡ None) (λ fault. Tells (first_among (volume_of geometry.now volume.now) inode_checks) fault) }
{
    let limits = Limits::bare();
    let roots = are_directories(table);
    pass(Check::Root, unless(roots, record_block(0)))?;
    let record = lowest_bad_record(&limits, table);
    pass(Check::Record, in_records(record))?;
    let slot = lowest_bad_slot(&limits, table);
    pass(Check::Slot, in_slots(geometry, slot))?;
    let twin = lowest_twin(table);
    pass(Check::Twin, in_slots(geometry, twin))?;
    let ring = lowest_in_ring(alloc, table)?;
    pass(Check::Ring, in_slots(geometry, ring))
}

/// The first check of blocks that fails, once the checks of inodes pass. There are no pointers then, so that each data block
/// has to be free.
fn check_blocks(
    alloc: Global,
    geometry: &Geometry,
    volume: &[u8],
    table: &Table,
) -> Result<(), CheckFault>
    requires whole { IsWhole geometry.now volume.now }
    requires table { IsTableOf (volume_of geometry.now volume.now) table.now }
    requires inodes { first_among (volume_of geometry.now volume.now) inode_checks ≡ None }
    ensures { MatchResult result (λ _. first_among (volume_of geometry.now volume.now) block_checks ≡ None) (λ fault. Tells (first_among (volume_of geometry.now volume.now) block_checks) fault) }
{
    let clear = block_bits(alloc, geometry, volume)?.clear_count();
    pass(
        Check::Bits,
        unless(clear == geometry.data_blocks, BLOCK_BITS),
    )?;
    let counted = are_counted(geometry, volume, clear, table.clear_inodes());
    pass(Check::Counts, unless(counted, COUNTERS))
}

/// The tables of a volume that passes all checks, and else the first that fails. `last` is the number of the last open batch.
pub(crate) fn checked(
    alloc: Global,
    geometry: &Geometry,
    volume: &[u8],
    last: Option<u64>,
) -> Result<Table, CheckFault>
    requires { IsWhole geometry.now volume.now }
    ensures verdict { MatchResult result (λ _. first_failure_for_now last (volume_of geometry.now volume.now) ≡ None) (λ fault. Tells (first_failure_for_now last (volume_of geometry.now volume.now)) fault) }
    ensures table { IfOk result (λ table. IsTableOf (volume_of geometry.now volume.now) table) }
{
    let formatted = is_format_right(last, geometry, volume);
    pass(Check::Format, unless(formatted, COUNTERS))?;
    let table = Table::read(alloc, geometry, volume)?;
    check_inodes(alloc, geometry, volume, &table)?;
    check_blocks(alloc, geometry, volume, &table)?;
    Ok(table)
}

/// The first check of a volume that fails, with the block that is told, and nothing where the volume stands for a tree. The
/// bytes are those from block 260 to the end of an image of this geometry. `last` is the number of the last open batch, where
/// one is open. Only want of memory is an error.
pub fn first_bad(
    alloc: Global,
    geometry: &Geometry,
    volume: &[u8],
    last: Option<u64>,
) -> Result<Option<BadImage>, NoMemory>
    requires { IsWhole geometry.now volume.now }
    ensures { IfOk result (λ bad. bad ≡ option_map told (first_failure_for_now last (volume_of geometry.now volume.now))) }
{
    match checked(alloc, geometry, volume, last) {
        Ok(_) => Ok(None),
        Err(CheckFault::Bad { bad }) => Ok(Some(bad)),
        Err(CheckFault::NoMemory) => Err(AllocError),
    }
}
