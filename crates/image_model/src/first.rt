//! The first check that fails.
ghost use Rattle.std.specs.Prelude.{◌≡◌, ◌==◌, ◌&&◌, ◌*◌, ◌≤◌, ◌<◌, [], not, length, is_some, option_map, IfSome, IfOk};
ghost use Rattle.std.specs.List.{list_any};
ghost use Rattle.image_model.specs.Volumes.{volume_of, number, format, data_blocks, free_blocks, clear_blocks, free_inodes, clear_inodes};
ghost use Rattle.image_model.specs.Files.{is_dir_at, holder, named_blocks};
ghost use Rattle.image_model.specs.Lowest.{lowest};
ghost use Rattle.image_model.specs.Checks.{is_data_block, is_bad_at, bad_pointer, differ, is_bad_bit, are_counted, is_last, unless, first_of, failure, first_failure_under};
ghost use Rattle.free_maps.specs.Maps.{clear_below};
ghost use Rattle.image_model.specs.Fields.{counter_block, block_bits, slot_block};
ghost use Rattle.inode_table.specs.Records.{record_block};
ghost use Rattle.image_model.specs.Reading.{IsWhole, table_in};

use super::check::{Check, Limits};
use super::failing::lowest_bad;
use super::pointing::{holder, named_blocks, pointers};
use super::reading::{is_dir_at, is_set_at, long_at, word_at};
use block_layout::{BLOCK_SIZE, Geometry};
use ccfs_base::NoMemory;
use free_maps::BitMap;
use inode_table::record_block;
use std::alloc::Global;

/// The blocks of the counters, and of the bits of data blocks.
const COUNTERS: u32 = 260;

const BLOCK_BITS: u32 = 261;

/// Where in the counter block the counts of free blocks and of free inodes stand, and the format.
const FREE_BLOCKS: usize = 8;

const FREE_INODES: usize = 16;

const FORMAT: u128 = 24;

/// How many slots stand in a block.
const SLOTS_PER_BLOCK: u32 = 32;

/// The checks in their order.
const ALL: [Check; 9] = [
    Check::Format,
    Check::Root,
    Check::Record,
    Check::Slot,
    Check::Twin,
    Check::Ring,
    Check::Pointer,
    Check::Bits,
    Check::Counts,
];

/// Whether a block of the image is a data block.
fn is_data_block(geometry: &Geometry, block: u32) -> bool
    ensures { result ≡ is_data_block (volume_of geometry.now []) block }
{
    geometry.first_data <= block && block < geometry.blocks
}

/// Whether a block is one of these.
fn is_among(blocks: &[u32], block: u32) -> bool
    ensures { result ≡ list_any (λ other. other == block) blocks.now }
{
    blocks.iter().any(|other| *other == block)
}

/// Whether the block at a place is no data block, or one that stands before it too.
fn is_bad_at(geometry: &Geometry, named: &[u32], at: usize) -> bool
    requires { at < length named.now }
    ensures { result ≡ is_bad_at (is_data_block (volume_of geometry.now [])) named.now at }
{
    let block = named[at];
    !is_data_block(geometry, block) || is_among(&named[..at], block)
}

/// The first such place.
#[tactic(auto, using(crate::proofs::Least::passed_by, crate::proofs::Least::found_at))]
fn bad_place(geometry: &Geometry, named: &[u32]) -> Option<usize>
    ensures { result ≡ lowest (is_bad_at (is_data_block (volume_of geometry.now [])) named.now) (length named.now) }
{
    for at in 0..named.len() {
        if is_bad_at(geometry, named, at) {
            return Some(at);
        }
    }
    None
}

/// The block of the first pointer that names no data block, or one that an earlier pointer names.
fn pointer_failure(
    alloc: Global,
    geometry: &Geometry,
    bytes: &[u8],
) -> Result<Option<u32>, NoMemory>
    requires { IsWhole geometry.now bytes.now }
    ensures { IfOk result (λ block. block ≡ option_map (holder (volume_of geometry.now bytes.now)) (bad_pointer (volume_of geometry.now bytes.now))) }
{
    let pointers = pointers(alloc, geometry, bytes)?;
    let named = named_blocks(alloc, geometry, bytes, &pointers)?;
    let Some(at) = bad_place(geometry, &named) else {
        return Ok(None);
    };
    Ok(match pointers.get(at) {
        Some(pointer) => Some(holder(geometry, bytes, *pointer)),
        None => None,
    })
}

/// How many data blocks there are.
fn data_blocks(geometry: &Geometry) -> u32
    ensures { result ≡ data_blocks (volume_of geometry.now []) }
{
    geometry.data_blocks
}

fn differ(one: bool, other: bool) -> bool
    ensures { result ≡ differ one other }
{
    one != other
}

/// Whether a data block is marked as used and no pointer names it, or the other way round.
fn is_bad_bit(geometry: &Geometry, bytes: &[u8], named: &[u32], item: u32) -> bool
    requires named { named.now ≡ named_blocks (volume_of geometry.now bytes.now) }
    requires item { item < data_blocks (volume_of geometry.now bytes.now) }
    ensures { result ≡ is_bad_bit (volume_of geometry.now bytes.now) item }
{
    differ(
        is_set_at(bytes, BLOCK_SIZE, item),
        is_among(named, geometry.first_data + item),
    )
}

/// Whether there is such a block.
#[tactic(auto, using(crate::proofs::Least::passed_by, crate::proofs::Least::found_below))]
fn has_bad_bit(geometry: &Geometry, bytes: &[u8], named: &[u32]) -> bool
    requires named { named.now ≡ named_blocks (volume_of geometry.now bytes.now) }
    ensures { result ≡ is_some (lowest (is_bad_bit (volume_of geometry.now bytes.now)) (data_blocks (volume_of geometry.now bytes.now))) }
{
    for item in 0..data_blocks(geometry) {
        if is_bad_bit(geometry, bytes, named, item) {
            return true;
        }
    }
    false
}

/// How many of the first items are free in the bits of a block.
fn clear_bits(alloc: Global, block: &[u8], items: u32) -> Result<u64, NoMemory>
    requires { items ≤ 8 * length block.now }
    ensures { IfOk result (λ count. count ≡ clear_below block.now items) }
{
    let map = BitMap::of(alloc, block, items)?;
    Ok(u64::from(map.clear_count()))
}

/// Whether the count of free blocks is that of the clear bits.
fn are_blocks_counted(alloc: Global, geometry: &Geometry, bytes: &[u8]) -> Result<bool, NoMemory>
    requires { IsWhole geometry.now bytes.now }
    ensures { IfOk result (λ counted. counted ≡ (free_blocks (volume_of geometry.now bytes.now) == clear_blocks (volume_of geometry.now bytes.now))) }
{
    let clear = clear_bits(alloc, &bytes[4096..8192], data_blocks(geometry))?;
    Ok(long_at(bytes, FREE_BLOCKS) == clear)
}

/// Whether the count of free inodes is that of the clear bits.
fn are_inodes_counted(alloc: Global, geometry: &Geometry, bytes: &[u8]) -> Result<bool, NoMemory>
    requires { IsWhole geometry.now bytes.now }
    ensures { IfOk result (λ counted. counted ≡ (free_inodes (volume_of geometry.now bytes.now) == clear_inodes (volume_of geometry.now bytes.now))) }
{
    let clear = clear_bits(alloc, &bytes[8192..12288], geometry.inodes)?;
    Ok(long_at(bytes, FREE_INODES) == clear)
}

/// Whether both counts are those of the clear bits.
fn are_counted(alloc: Global, geometry: &Geometry, bytes: &[u8]) -> Result<bool, NoMemory>
    requires { IsWhole geometry.now bytes.now }
    ensures { IfOk result (λ counted. counted ≡ are_counted (volume_of geometry.now bytes.now)) }
{
    let blocks = are_blocks_counted(alloc, geometry, bytes)?;
    let inodes = are_inodes_counted(alloc, geometry, bytes)?;
    Ok(blocks && inodes)
}

/// Whether the number is that of the last open batch, where a batch is open.
fn is_last(last: Option<u64>, number: u64) -> bool
    ensures { result ≡ is_last last number }
{
    match last {
        Some(last) => last == number,
        None => true,
    }
}

/// A block where a test fails.
fn unless(right: bool, block: u32) -> Option<u32>
    ensures { result ≡ unless right block }
{
    if right { None } else { Some(block) }
}

/// The counter block, where the format or the number is wrong.
fn format_failure(last: Option<u64>, geometry: &Geometry, bytes: &[u8]) -> Option<u32>
    requires { IsWhole geometry.now bytes.now }
    ensures { result ≡ unless (format (volume_of geometry.now bytes.now) == 1 && is_last last (number (volume_of geometry.now bytes.now))) counter_block }
{
    let is_right = word_at(bytes, FORMAT) == 1 && is_last(last, long_at(bytes, 0));
    unless(is_right, COUNTERS)
}

/// Whether the root and the orphan directory are used directories.
fn are_directories(geometry: &Geometry, bytes: &[u8]) -> bool
    requires { IsWhole geometry.now bytes.now }
    ensures { result ≡ (is_dir_at (table_in geometry.now bytes.now) 0 && is_dir_at (table_in geometry.now bytes.now) 1) }
{
    is_dir_at(geometry, bytes, 0) && is_dir_at(geometry, bytes, 1)
}

/// The first block of records, where the root or the orphan directory isn't right.
fn root_failure(geometry: &Geometry, bytes: &[u8]) -> Option<u32>
    requires { IsWhole geometry.now bytes.now }
    ensures { result ≡ unless (is_dir_at (table_in geometry.now bytes.now) 0 && is_dir_at (table_in geometry.now bytes.now) 1) (record_block 0) }
{
    unless(are_directories(geometry, bytes), record_block(0))
}

/// The block of the record of an inode, where there is one.
fn in_records(inode: Option<u32>) -> Option<u32>
    ensures { result ≡ option_map record_block inode }
{
    match inode {
        Some(inode) => Some(record_block(inode)),
        None => None,
    }
}

/// The block of the slot of an inode, where there is one.
fn in_slots(geometry: &Geometry, inode: Option<u32>) -> Option<u32>
    requires { IfSome inode (λ i. i < geometry.now.inodes) }
    ensures { result ≡ option_map (slot_block geometry.now.inodes) inode }
{
    match inode {
        Some(inode) => Some(geometry.slot_table + inode / SLOTS_PER_BLOCK),
        None => None,
    }
}

/// The block of the bits of data blocks, where one of them is wrong.
fn bits_failure(alloc: Global, geometry: &Geometry, bytes: &[u8]) -> Result<Option<u32>, NoMemory>
    requires { IsWhole geometry.now bytes.now }
    ensures { IfOk result (λ block. block ≡ unless (not (is_some (lowest (is_bad_bit (volume_of geometry.now bytes.now)) (data_blocks (volume_of geometry.now bytes.now))))) block_bits) }
{
    let pointers = pointers(alloc, geometry, bytes)?;
    let named = named_blocks(alloc, geometry, bytes, &pointers)?;
    Ok(unless(!has_bad_bit(geometry, bytes, &named), BLOCK_BITS))
}

/// The block that a check tells where it fails, and nothing where it passes. `last` is the number of the last open batch.
/// Only want of memory is an error.
pub fn failure(
    alloc: Global,
    check: Check,
    limits: &Limits,
    last: Option<u64>,
    geometry: &Geometry,
    bytes: &[u8],
) -> Result<Option<u32>, NoMemory>
    requires { IsWhole geometry.now bytes.now }
    ensures { IfOk result (λ block. block ≡ failure limits.now last (volume_of geometry.now bytes.now) check) }
{
    match check {
        Check::Format => Ok(format_failure(last, geometry, bytes)),
        Check::Root => Ok(root_failure(geometry, bytes)),
        Check::Record => Ok(in_records(lowest_bad(Check::Record, limits, geometry, bytes))),
        Check::Slot => Ok(in_slots(geometry, lowest_bad(Check::Slot, limits, geometry, bytes))),
        Check::Twin => Ok(in_slots(geometry, lowest_bad(Check::Twin, limits, geometry, bytes))),
        Check::Ring => Ok(in_slots(geometry, lowest_bad(Check::Ring, limits, geometry, bytes))),
        Check::Pointer => pointer_failure(alloc, geometry, bytes),
        Check::Bits => bits_failure(alloc, geometry, bytes),
        Check::Counts => Ok(unless(are_counted(alloc, geometry, bytes)?, COUNTERS)),
    }
}

/// The first of these checks that fails.
fn first_among(
    alloc: Global,
    checks: &[Check],
    limits: &Limits,
    last: Option<u64>,
    geometry: &Geometry,
    bytes: &[u8],
) -> Result<Option<(Check, u32)>, NoMemory>
    requires { IsWhole geometry.now bytes.now }
    ensures { IfOk result (λ found. found ≡ first_of (failure limits.now last (volume_of geometry.now bytes.now)) checks.now) }
{
    for check in checks {
        if let Some(block) = failure(alloc, *check, limits, last, geometry, bytes)? {
            return Ok(Some((*check, block)));
        }
    }
    Ok(None)
}

/// The first check that fails, with its block, and nothing where the volume stands for a tree. `last` is the number of the
/// last open batch. Only want of memory is an error.
pub fn first_failure(
    alloc: Global,
    limits: &Limits,
    last: Option<u64>,
    geometry: &Geometry,
    bytes: &[u8],
) -> Result<Option<(Check, u32)>, NoMemory>
    requires { IsWhole geometry.now bytes.now }
    ensures { IfOk result (λ found. found ≡ first_failure_under limits.now last (volume_of geometry.now bytes.now)) }
{
    first_among(alloc, &ALL, limits, last, geometry, bytes)
}
