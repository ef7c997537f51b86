//! The rows of a volume, by inodes.
ghost use Rattle.std.specs.Prelude.{◌≡◌, ◌<◌, ◌^◌, IfOk, length};
ghost use Rattle.block_layout.specs.Sizes.{block_size};
ghost use Rattle.ccfs_base.specs.Places.{part};
ghost use Rattle.image_model.specs.Fields.{block_place};
ghost use Rattle.image_model.specs.Volumes.{volume_of};
ghost use Rattle.image_model.specs.Files.{file_bytes};
ghost use Rattle.image_model.specs.Trees.{has_row, slot_seen, parent_given, name_given, body_given, row_at};
ghost use Rattle.image_model.specs.Reading.{IsWhole, table_in};

use super::pointer::Pointer;
use super::pointing::{block_place, length_at, named, pages};
use super::reading::{attr_at, is_used, slot_at};
use block_layout::{BLOCK_SIZE, Geometry};
use ccfs_base::{Bytes, Name, NoMemory};
use flat_dirs::Slot;
use inode_table::Kind;
use std::alloc::Global;
use tree_model::{Body, Row};

/// The bytes of a block, as far as the volume has them.
#[tactic(auto, using(crate::proofs::Contents::cut_to_the_end))]
fn block_of(bytes: &[u8], block: u32) -> &[u8]
    requires { length bytes.now < 2 ^ 62 }
    ensures { result.now ≡ part (block_place block) block_size bytes.now }
{
    let place = block_place(block) as usize;
    let from = place.min(bytes.len());
    let to = (place + BLOCK_SIZE as usize).min(bytes.len());
    &bytes[from..to]
}

/// The bytes of a file: its pages one behind the other, cut at its length.
#[tactic(auto, using(crate::proofs::Contents::a_page_more))]
fn file_bytes(
    alloc: Global,
    geometry: &Geometry,
    bytes: &[u8],
    inode: u32,
) -> Result<Vec<u8>, NoMemory>
    requires whole { IsWhole geometry.now bytes.now }
    requires inode { inode < geometry.now.inodes }
    ensures { IfOk result (λ contents. contents.items ≡ file_bytes (volume_of geometry.now bytes.now) inode) }
{
    let length = length_at(geometry, bytes, inode);
    let mut contents = Vec::new(alloc);
    for page in 0..pages(length) {
        let block = named(geometry, bytes, Pointer::Page { inode, page });
        contents.extend_from_slice(block_of(bytes, block))?;
    }
    contents.truncate(length as usize);
    Ok(contents)
}

/// Whether an inode has a row: it is used, and isn't the orphan directory.
fn has_row(geometry: &Geometry, bytes: &[u8], inode: u32) -> bool
    ensures { result ≡ has_row (table_in geometry.now bytes.now) inode }
{
    inode < geometry.inodes && (is_used(geometry, bytes, inode) && inode != 1)
}

/// The slot that places a row: none for the root.
fn slot_seen(geometry: &Geometry, bytes: &[u8], inode: u32) -> Option<Slot>
    requires whole { IsWhole geometry.now bytes.now }
    requires inode { inode < geometry.now.inodes }
    ensures { result ≡ slot_seen (table_in geometry.now bytes.now) inode }
{
    if inode == 0 {
        None
    } else {
        slot_at(geometry, bytes, inode)
    }
}

/// The parent that a slot gives a row. A gone file has none.
fn parent_given(slot: Option<Slot>) -> Option<u32>
    ensures { result ≡ parent_given slot }
{
    match slot {
        Some(slot) if slot.parent == 1 => None,
        Some(slot) => Some(slot.parent),
        None => None,
    }
}

/// The name that a slot gives a row. A gone file has none.
fn name_given(slot: Option<Slot>) -> Name
    ensures { result ≡ name_given slot }
{
    match slot {
        Some(slot) if slot.parent == 1 => Name::empty(),
        Some(slot) => slot.name,
        None => Name::empty(),
    }
}

/// What an inode is. Only a file's bytes are read.
fn body_at(alloc: Global, geometry: &Geometry, bytes: &[u8], inode: u32) -> Result<Body, NoMemory>
    requires whole { IsWhole geometry.now bytes.now }
    requires inode { inode < geometry.now.inodes }
    ensures { IfOk result (λ body. body ≡ body_given ((table_in geometry.now bytes.now).attr inode) (file_bytes (volume_of geometry.now bytes.now) inode)) }
{
    match attr_at(geometry, bytes, inode) {
        Some(attr) if attr.kind == Kind::Dir => Ok(Body::Dir {
            changes: attr.changes,
        }),
        Some(_) => {
            let contents = file_bytes(alloc, geometry, bytes, inode)?;
            Ok(Body::File {
                bytes: Bytes::of(alloc, &contents)?,
            })
        }
        None => Ok(Body::File {
            bytes: Bytes::new(alloc),
        }),
    }
}

/// The row of an inode, with the inode of its directory for its parent. There is none where the inode isn't used, and none of
/// the orphan directory. Only want of memory is an error.
pub fn row_at(
    alloc: Global,
    geometry: &Geometry,
    bytes: &[u8],
    inode: u32,
) -> Result<Option<Row>, NoMemory>
    requires { IsWhole geometry.now bytes.now }
    ensures { IfOk result (λ row. row ≡ row_at (table_in geometry.now bytes.now) (file_bytes (volume_of geometry.now bytes.now)) inode) }
{
    if !has_row(geometry, bytes, inode) {
        return Ok(None);
    }
    let slot = slot_seen(geometry, bytes, inode);
    Ok(Some(Row {
        parent: parent_given(slot),
        name: name_given(slot),
        body: body_at(alloc, geometry, bytes, inode)?,
    }))
}
