//! The fields of a volume, read one by one.
ghost use Rattle.std.specs.Prelude.{◌≡◌, ◌+◌, ◌*◌, ◌^◌, ◌<◌, ◌≤◌, length, drop, slice_index};
ghost use Rattle.byteorder.specs.Endian.{little_number};
ghost use Rattle.block_layout.specs.Sizes.{block_size};
ghost use Rattle.free_maps.specs.Bits.{has_bit};
ghost use Rattle.free_maps.specs.Maps.{is_set};
ghost use Rattle.ccfs_base.specs.Places.{part};
ghost use Rattle.image_model.specs.Files.{is_dir_attr, is_file_attr, is_dir_at, is_file_at};
ghost use Rattle.image_model.specs.Checks.{is_entry};
ghost use Rattle.image_model.specs.Reading.{IsWhole, table_in};

use block_layout::Geometry;
use byteorder::{ByteOrder, LittleEndian};
use flat_dirs::{SLOT_SIZE, Slot, decode_slot};
use inode_table::{Attr, Kind, decode_attr, record_offset};

/// Where the block of the bits of inodes begins.
const INODE_BITS: u32 = 8192;

/// The bytes before the inode table.
const BEFORE_INODES: u32 = 12288;

/// The bytes of a record and of a slot.
const RECORD: u32 = 256;

const SLOT: u32 = 128;

/// The byte at a place, and 0 past the end.
fn byte_at(bytes: &[u8], place: u128) -> u8
    ensures { result ≡ slice_index bytes.now place }
{
    if place < bytes.len() as u128 {
        bytes[place as usize]
    } else {
        0
    }
}

/// The number of 4 bytes at a place. Bytes past the end count as 0.
#[tactic(auto, using(crate::proofs::Numbers::four_read))]
pub(crate) fn word_at(bytes: &[u8], place: u128) -> u32
    requires { place < 2 ^ 100 }
    ensures { result ≡ little_number 4 (drop place bytes.now) }
{
    let spelled = [
        byte_at(bytes, place),
        byte_at(bytes, place + 1),
        byte_at(bytes, place + 2),
        byte_at(bytes, place + 3),
    ];
    LittleEndian::read_u32(&spelled)
}

/// The number of 8 bytes at a place.
pub(crate) fn long_at(bytes: &[u8], place: usize) -> u64
    requires { place + 8 ≤ length bytes.now }
    ensures { result ≡ little_number 8 (drop place bytes.now) }
{
    LittleEndian::read_u64(&bytes[place..])
}

/// Whether a bit of a byte is set.
fn has_bit(byte: u8, bit: u32) -> bool
    requires { bit < 8 }
    ensures { result ≡ has_bit byte bit }
{
    (byte >> bit) & 1 == 1
}

/// Whether the bit of an item is set in the block that begins at this byte.
#[tactic(auto, using(crate::proofs::Told::bit_of_block))]
pub(crate) fn is_set_at(bytes: &[u8], block: u32, item: u32) -> bool
    requires block { block < 2 ^ 20 }
    requires item { item < 32768 }
    ensures { result ≡ is_set (part block block_size bytes.now) item }
{
    has_bit(byte_at(bytes, u128::from(block + item / 8)), item % 8)
}

/// What the record of an inode tells, and nothing where its kind is none.
pub(crate) fn attr_at(geometry: &Geometry, bytes: &[u8], inode: u32) -> Option<Attr>
    requires whole { IsWhole geometry.now bytes.now }
    requires inode { inode < geometry.now.inodes }
    ensures { result ≡ (table_in geometry.now bytes.now).attr inode }
{
    let place = record_offset(inode) as usize;
    let mut record = [0; 24];
    record.copy_from_slice(&bytes[place..place + 24]);
    match decode_attr(&record) {
        Ok(attr) => Some(attr),
        Err(_) => None,
    }
}

/// The slot of an inode, and nothing where its length or its name is no name's.
pub(crate) fn slot_at(geometry: &Geometry, bytes: &[u8], inode: u32) -> Option<Slot>
    requires whole { IsWhole geometry.now bytes.now }
    requires inode { inode < geometry.now.inodes }
    ensures { result ≡ (table_in geometry.now bytes.now).slot inode }
{
    let place = (BEFORE_INODES + RECORD * geometry.inodes + SLOT * inode) as usize;
    let mut slot = [0; SLOT_SIZE];
    slot.copy_from_slice(&bytes[place..place + SLOT_SIZE]);
    match decode_slot(&slot) {
        Ok(slot) => Some(slot),
        Err(_) => None,
    }
}

/// Whether an inode is marked as used.
pub(crate) fn is_used(geometry: &Geometry, bytes: &[u8], inode: u32) -> bool
    requires { inode < geometry.now.inodes }
    ensures { result ≡ (table_in geometry.now bytes.now).is_used inode }
{
    is_set_at(bytes, INODE_BITS, inode)
}

/// Whether attributes are a directory's.
pub(crate) fn is_dir_attr(attr: Option<Attr>) -> bool
    ensures { result ≡ is_dir_attr attr }
{
    match attr {
        Some(attr) => attr.kind == Kind::Dir,
        None => false,
    }
}

/// Whether attributes are a file's.
fn is_file_attr(attr: Option<Attr>) -> bool
    ensures { result ≡ is_file_attr attr }
{
    match attr {
        Some(attr) => attr.kind == Kind::File,
        None => false,
    }
}

/// Whether an inode is a used directory. No number from the number of inodes on is one.
pub(crate) fn is_dir_at(geometry: &Geometry, bytes: &[u8], inode: u32) -> bool
    requires { IsWhole geometry.now bytes.now }
    ensures { result ≡ is_dir_at (table_in geometry.now bytes.now) inode }
{
    inode < geometry.inodes
        && (is_used(geometry, bytes, inode) && is_dir_attr(attr_at(geometry, bytes, inode)))
}

/// Whether an inode is a used file.
pub(crate) fn is_file_at(geometry: &Geometry, bytes: &[u8], inode: u32) -> bool
    requires { IsWhole geometry.now bytes.now }
    ensures { result ≡ is_file_at (table_in geometry.now bytes.now) inode }
{
    inode < geometry.inodes
        && (is_used(geometry, bytes, inode) && is_file_attr(attr_at(geometry, bytes, inode)))
}

/// Whether an inode is a used one from 2 on.
pub(crate) fn is_entry(geometry: &Geometry, bytes: &[u8], inode: u32) -> bool
    requires { inode < geometry.now.inodes }
    ensures { result ≡ is_entry (table_in geometry.now bytes.now) inode }
{
    2 <= inode && is_used(geometry, bytes, inode)
}
