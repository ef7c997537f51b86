//! The pointers of files, and the blocks that they name.
ghost use Rattle.std.specs.Prelude.{◌≡◌, ◌-◌, ◌≤◌, ◌<◌, ◌++◌, map, drop, IfOk, OnOk};
ghost use Rattle.std.specs.List.{range_with_len};
ghost use Rattle.byteorder.specs.Endian.{little_number};
ghost use Rattle.ccfs_base.specs.Limits.{pages};
ghost use Rattle.image_model.specs.declared.pointer.Pointer.TheVariants.{Page};
ghost use Rattle.image_model.specs.Volumes.{volume_of};
ghost use Rattle.image_model.specs.Fields.{indirect_place, block_place};
ghost use Rattle.image_model.specs.Files.{length_at, file_pointers, pointers, named, holder};
ghost use Rattle.image_model.specs.Reading.{IsWhole, table_in};

use super::pointer::Pointer;
use super::reading::{attr_at, is_file_at, word_at};
use block_layout::{BLOCK_SIZE, Geometry, VOLUME_START};
use ccfs_base::NoMemory;
use inode_table::{record_block, record_offset};
use std::alloc::Global;

/// How many pages have their pointers in the record.
const DIRECT: u64 = 24;

/// Where in a record the first pointer stands, and the one to the indirect block.
const DIRECT_AT: u128 = 64;

const INDIRECT_AT: u128 = 160;

/// Puts the pointers of the pages from one on, up to another, behind those of a list.
#[tactic(auto, using(crate::proofs::Listing::pages_more, crate::proofs::Listing::no_pages))]
fn push_pages(list: &mut Vec<Pointer>, inode: u32, from: u64, to: u64) -> Result<(), NoMemory>
    requires { from ≤ to }
    ensures { OnOk result (list.new.items ≡ list.old.items ++ map (Page inode) (range_with_len from (to - from))) }
{
    for page in from..to {
        list.push(Pointer::Page { inode, page })?;
    }
    Ok(())
}

/// Puts the pointers of a file of so many pages behind those of a list.
#[tactic(auto, using(crate::proofs::Listing::few_pages, crate::proofs::Listing::many_pages))]
fn push_file(list: &mut Vec<Pointer>, inode: u32, count: u64) -> Result<(), NoMemory>
    ensures { OnOk result (list.new.items ≡ list.old.items ++ file_pointers inode count) }
{
    if count <= DIRECT {
        push_pages(list, inode, 0, count)?;
    } else {
        push_pages(list, inode, 0, DIRECT)?;
        list.push(Pointer::ToIndirect { inode })?;
        push_pages(list, inode, DIRECT, count)?;
    }
    Ok(())
}

/// The length that the record of an inode tells.
pub(crate) fn length_at(geometry: &Geometry, bytes: &[u8], inode: u32) -> u64
    requires whole { IsWhole geometry.now bytes.now }
    requires inode { inode < geometry.now.inodes }
    ensures { result ≡ length_at (table_in geometry.now bytes.now) inode }
{
    match attr_at(geometry, bytes, inode) {
        Some(attr) => attr.length,
        None => 0,
    }
}

/// How many pages so many bytes take.
pub(crate) fn pages(len: u64) -> u64
    ensures { result ≡ pages len }
{
    len.div_ceil(u64::from(BLOCK_SIZE))
}

/// All pointers that are looked at, in their order.
#[tactic(auto, using(crate::proofs::Listing::a_file_more, crate::proofs::Listing::no_file_more))]
pub(crate) fn pointers(
    alloc: Global,
    geometry: &Geometry,
    bytes: &[u8],
) -> Result<Vec<Pointer>, NoMemory>
    requires { IsWhole geometry.now bytes.now }
    ensures { IfOk result (λ list. list.items ≡ pointers (table_in geometry.now bytes.now)) }
{
    let mut list = Vec::new(alloc);
    for inode in 0..geometry.inodes {
        if is_file_at(geometry, bytes, inode) {
            push_file(&mut list, inode, pages(length_at(geometry, bytes, inode)))?;
        }
    }
    Ok(list)
}

/// The block that the pointer to the indirect block of an inode names.
fn indirect(bytes: &[u8], inode: u32) -> u32
    ensures { result ≡ little_number 4 (drop (indirect_place inode) bytes.now) }
{
    word_at(bytes, u128::from(record_offset(inode)) + INDIRECT_AT)
}

/// Where a block of the image begins in the volume.
pub(crate) fn block_place(block: u32) -> u64
    ensures { result ≡ block_place block }
{
    u64::from(BLOCK_SIZE) * u64::from(block.saturating_sub(VOLUME_START))
}

/// The block that a pointer names.
pub(crate) fn named(geometry: &Geometry, bytes: &[u8], pointer: Pointer) -> u32
    ensures { result ≡ named (volume_of geometry.now bytes.now) pointer }
{
    match pointer {
        Pointer::Page { inode, page } if page < DIRECT => {
            word_at(
                bytes,
                u128::from(record_offset(inode)) + DIRECT_AT + 4 * u128::from(page),
            )
        }
        Pointer::Page { inode, page } => {
            let block = indirect(bytes, inode);
            word_at(
                bytes,
                u128::from(block_place(block)) + 4 * u128::from(page - DIRECT),
            )
        }
        Pointer::ToIndirect { inode } => indirect(bytes, inode),
    }
}

/// The block in which a pointer stands.
pub(crate) fn holder(geometry: &Geometry, bytes: &[u8], pointer: Pointer) -> u32
    ensures { result ≡ holder (volume_of geometry.now bytes.now) pointer }
{
    match pointer {
        Pointer::Page { inode, page } if page < DIRECT => record_block(inode),
        Pointer::Page { inode, .. } => indirect(bytes, inode),
        Pointer::ToIndirect { inode } => record_block(inode),
    }
}

/// The blocks that these pointers name.
pub(crate) fn named_blocks(
    alloc: Global,
    geometry: &Geometry,
    bytes: &[u8],
    pointers: &[Pointer],
) -> Result<Vec<u32>, NoMemory>
    ensures { IfOk result (λ blocks. blocks.items ≡ map (named (volume_of geometry.now bytes.now)) pointers.now) }
{
    let mut blocks = Vec::new(alloc);
    for pointer in pointers {
        blocks.push(named(geometry, bytes, *pointer))?;
    }
    Ok(blocks)
}
