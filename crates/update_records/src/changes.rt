//! The records of changes of single inodes.
ghost use Rattle.std.specs.Prelude.{◌≡◌, ◌-◌, ◌^◌, ◌++◌, [], ◌∷◌, true, IfOk, OnOk};
ghost use Rattle.ccfs_base.specs.declared.records.Rec.TheVariants as variants;
ghost use Rattle.inode_table.specs.Attrs.{attr_bytes};
ghost use Rattle.inode_table.specs.Records.{record_offset};
ghost use Rattle.flat_dirs.specs.Slot.{slot_bytes};
ghost use Rattle.image_model.specs.Fields.{slot_offset};
ghost use Rattle.image_model.specs.Changes.{New, Drop, Touch, Enter, records_of, frees, kind_made, marks, new_attr, slot_of};

use block_layout::BLOCK_SIZE;
use ccfs_base::{Bytes, Name, NoMemory, Rec, Recs};
use flat_dirs::{Slot, encode_slot};
use inode_table::{Attr, Kind, encode_attr, record_offset};
use std::alloc::Global;

/// Where the count of free inodes stands.
const FREE_INODES: u64 = 16;

/// Where the bits of inodes begin.
const INODE_BITS: u64 = 8192;

/// Where in the record of an inode the count of changes stands.
const CHANGES: u64 = 16;

/// How many blocks stand before the inode table.
const BEFORE_INODES: u32 = 3;

/// The bytes from one slot to the next.
const SLOT_STRIDE: u32 = 128;

/// Puts the records last by which a new inode gets its attributes and an entry, in a volume of so many inodes.
pub(crate) fn push_new(
    recs: &mut Recs,
    alloc: Global,
    inodes: u32,
    inode: u32,
    parent: u32,
    name: &Name,
    is_dir: bool,
) -> Result<(), NoMemory>
    ensures { OnOk result (recs.new ≡ recs.old ++ records_of inodes (New inode parent name.now (kind_made is_dir))) }
{
    push_attr(recs, alloc, inode, is_dir)?;
    push_enter(recs, alloc, inodes, inode, parent, name)?;
    push_used(recs, inode)
}

/// Puts the record last that gives a new inode its attributes.
fn push_attr(recs: &mut Recs, alloc: Global, inode: u32, is_dir: bool) -> Result<(), NoMemory>
    ensures { OnOk result (recs.new ≡ recs.old ++ variants.Range (record_offset inode) (attr_bytes (new_attr (kind_made is_dir))) ∷ []) }
{
    recs.push(attr_record(alloc, inode, is_dir)?)
}

/// Puts the records last that mark an inode as used and count it.
fn push_used(recs: &mut Recs, inode: u32) -> Result<(), NoMemory>
    ensures { OnOk result (recs.new ≡ recs.old ++ marks inode true ∷ frees (2 ^ 64 - 1) ∷ []) }
{
    recs.push(mark_record(inode, true))?;
    recs.push(free_record(u64::MAX))
}

/// Puts the records last by which an inode isn't used any more.
pub(crate) fn push_drop(recs: &mut Recs, inodes: u32, inode: u32) -> Result<(), NoMemory>
    ensures { OnOk result (recs.new ≡ recs.old ++ records_of inodes (Drop inode)) }
{
    recs.push(mark_record(inode, false))?;
    recs.push(free_record(1))
}

/// Puts the record last by which a directory's count of changes grows by 1.
pub(crate) fn push_touch(recs: &mut Recs, inodes: u32, inode: u32) -> Result<(), NoMemory>
    ensures { OnOk result (recs.new ≡ recs.old ++ records_of inodes (Touch inode)) }
{
    recs.push(Rec::Add {
        off: record_offset(inode) + CHANGES,
        by: 1,
    })
}

/// Puts the record last by which an inode stands in a directory under a name, in a volume of so many inodes.
pub(crate) fn push_enter(
    recs: &mut Recs,
    alloc: Global,
    inodes: u32,
    inode: u32,
    parent: u32,
    name: &Name,
) -> Result<(), NoMemory>
    ensures { OnOk result (recs.new ≡ recs.old ++ records_of inodes (Enter inode parent name.now)) }
{
    recs.push(slot_record(alloc, inodes, inode, parent, name)?)
}

/// The record that marks an inode as used, or as free.
fn mark_record(inode: u32, on: bool) -> Rec
    ensures { result ≡ marks inode on }
{
    Rec::Bit {
        off: INODE_BITS + u64::from(inode / 8),
        bit: (inode % 8) as u8,
        on,
    }
}

/// The record that raises the count of free inodes.
fn free_record(by: u64) -> Rec
    ensures { result ≡ frees by }
{
    Rec::Add {
        off: FREE_INODES,
        by,
    }
}

/// The record that gives a new inode its attributes.
fn attr_record(alloc: Global, inode: u32, is_dir: bool) -> Result<Rec, NoMemory>
    ensures { IfOk result (λ rec. rec ≡ variants.Range (record_offset inode) (attr_bytes (new_attr (kind_made is_dir)))) }
{
    let attr = Attr {
        kind: kind_made(is_dir),
        length: 0,
        changes: 0,
    };
    Ok(Rec::Range {
        off: record_offset(inode),
        bytes: Bytes::of(alloc, &encode_attr(&attr))?,
    })
}

/// The kind of a new inode.
fn kind_made(is_dir: bool) -> Kind
    ensures { result ≡ kind_made is_dir }
{
    if is_dir { Kind::Dir } else { Kind::File }
}

/// The record that puts an inode into a directory under a name.
fn slot_record(
    alloc: Global,
    inodes: u32,
    inode: u32,
    parent: u32,
    name: &Name,
) -> Result<Rec, NoMemory>
    ensures { IfOk result (λ rec. rec ≡ variants.Range (slot_offset inodes inode) (slot_bytes (slot_of parent name.now))) }
{
    let slot = Slot {
        parent,
        name: *name,
    };
    Ok(Rec::Range {
        off: slot_offset(inodes, inode),
        bytes: Bytes::of(alloc, &encode_slot(&slot))?,
    })
}

/// Where in the volume the slot of an inode begins, where there are so many inodes.
fn slot_offset(inodes: u32, inode: u32) -> u64
    ensures { result ≡ slot_offset inodes inode }
{
    let block = BEFORE_INODES + inodes / 16 + inode / 32;
    u64::from(BLOCK_SIZE) * u64::from(block) + u64::from(SLOT_STRIDE * (inode % 32))
}
