//! The tables of a volume, read once.
ghost use Rattle.std.specs.Prelude.{◌≡◌, ◌<◌, IfOk};
ghost use Rattle.std.specs.FinMap as map;
ghost use Rattle.std.specs.Option.{option_copied};
ghost use Rattle.free_maps.specs.Maps.{clear_below};
ghost use Rattle.image_model.specs.Volumes.{volume_of};
ghost use Rattle.image_model.specs.Files.{is_dir_attr, is_dir_at};
ghost use Rattle.image_model.specs.Checks.{is_entry};
ghost use Rattle.image_model.specs.Reading.{IsWhole, table_in};
ghost use Rattle.image_check.specs.Tables.{seen, inode_map, block_map, attr_kept, slot_kept, AreAttrs, AreSlots, IsTableOf};

use block_layout::Geometry;
use ccfs_base::NoMemory;
use flat_dirs::{SLOT_SIZE, Slot, Slots, decode_slot};
use free_maps::BitMap;
use inode_table::{Attr, Kind, decode_attr, record_offset};
use std::alloc::Global;

/// Where in the volume the inode table begins, in bytes.
const INODE_TABLE: u32 = 12288;

/// The bytes of a record and of a slot.
const RECORD: u32 = 256;

const SLOT: u32 = 128;

/// What the tables of a volume tell of its used inodes. Nothing is kept of the others.
#[derive(Drop)]
pub(crate) struct Table {
    /// Which inodes are used.
    pub used: BitMap,
    /// The attributes of each used inode, by inode. There are none where the kind is none.
    pub attrs: Vec<Option<Attr>>,
    /// The slot of each used inode from 2 on. There is none where the length or the name is no name's.
    pub slots: Slots,
}

/// The bits of the inodes of a volume.
fn inode_bits(alloc: Global, geometry: &Geometry, volume: &[u8]) -> Result<BitMap, NoMemory>
    requires { IsWhole geometry.now volume.now }
    ensures { IfOk result (λ map. map ≡ inode_map (volume_of geometry.now volume.now)) }
{
    BitMap::of(alloc, &volume[8192..12288], geometry.inodes)
}

/// The bits of the data blocks of a volume.
pub(crate) fn block_bits(
    alloc: Global,
    geometry: &Geometry,
    volume: &[u8],
) -> Result<BitMap, NoMemory>
    requires { IsWhole geometry.now volume.now }
    ensures { IfOk result (λ map. map ≡ block_map (volume_of geometry.now volume.now)) }
{
    BitMap::of(alloc, &volume[4096..8192], geometry.data_blocks)
}

/// What the record of an inode tells, and nothing where its kind is none.
fn attr_at(geometry: &Geometry, volume: &[u8], inode: u32) -> Option<Attr>
    requires whole { IsWhole geometry.now volume.now }
    requires inode { inode < geometry.now.inodes }
    ensures { result ≡ (table_in geometry.now volume.now).attr inode }
{
    let place = record_offset(inode) as usize;
    let mut record = [0; 24];
    record.copy_from_slice(&volume[place..place + 24]);
    decode_attr(&record).ok()
}

/// The slot of an inode, and nothing where its length or its name is no name's.
fn slot_at(geometry: &Geometry, volume: &[u8], inode: u32) -> Option<Slot>
    requires whole { IsWhole geometry.now volume.now }
    requires inode { inode < geometry.now.inodes }
    ensures { result ≡ (table_in geometry.now volume.now).slot inode }
{
    let place = (INODE_TABLE + RECORD * geometry.inodes + SLOT * inode) as usize;
    let mut slot = [0; SLOT_SIZE];
    slot.copy_from_slice(&volume[place..place + SLOT_SIZE]);
    decode_slot(&slot).ok()
}

/// The attributes that are kept of an inode: those of a used one.
fn attr_kept(geometry: &Geometry, volume: &[u8], used: &BitMap, inode: u32) -> Option<Attr>
    requires whole { IsWhole geometry.now volume.now }
    requires used { used.now ≡ inode_map (volume_of geometry.now volume.now) }
    requires inode { inode < geometry.now.inodes }
    ensures { result ≡ attr_kept (table_in geometry.now volume.now) inode }
{
    if used.get(inode) {
        attr_at(geometry, volume, inode)
    } else {
        None
    }
}

/// The slot that is kept of an inode: that of a used one from 2 on.
fn slot_kept(geometry: &Geometry, volume: &[u8], used: &BitMap, inode: u32) -> Option<Slot>
    requires whole { IsWhole geometry.now volume.now }
    requires used { used.now ≡ inode_map (volume_of geometry.now volume.now) }
    requires inode { inode < geometry.now.inodes }
    ensures { result ≡ slot_kept (table_in geometry.now volume.now) inode }
{
    if 2 <= inode && used.get(inode) {
        slot_at(geometry, volume, inode)
    } else {
        None
    }
}

/// The attributes of all inodes, in order of inodes.
fn read_attrs(
    alloc: Global,
    geometry: &Geometry,
    volume: &[u8],
    used: &BitMap,
) -> Result<Vec<Option<Attr>>, NoMemory>
    requires whole { IsWhole geometry.now volume.now }
    requires used { used.now ≡ inode_map (volume_of geometry.now volume.now) }
    ensures { IfOk result (λ attrs. AreAttrs (table_in geometry.now volume.now) attrs.items) }
{
    let mut attrs = Vec::with_capacity(alloc, geometry.inodes as usize)?;
    for inode in 0..geometry.inodes {
        attrs.push(attr_kept(geometry, volume, used, inode))?;
    }
    Ok(attrs)
}

/// The slots of all inodes.
fn read_slots(
    alloc: Global,
    geometry: &Geometry,
    volume: &[u8],
    used: &BitMap,
) -> Result<Slots, NoMemory>
    requires whole { IsWhole geometry.now volume.now }
    requires used { used.now ≡ inode_map (volume_of geometry.now volume.now) }
    ensures { IfOk result (λ slots. AreSlots (table_in geometry.now volume.now) slots) }
{
    let mut slots = Slots::new(alloc);
    for inode in 0..geometry.inodes {
        if let Some(slot) = slot_kept(geometry, volume, used, inode) {
            slots.put(inode, slot)?;
        }
    }
    Ok(slots)
}

/// Whether attributes are a directory's.
pub(crate) fn is_dir_attr(attr: Option<Attr>) -> bool
    ensures { result ≡ is_dir_attr attr }
{
    match attr {
        Some(attr) => attr.kind == Kind::Dir,
        None => false,
    }
}

impl Table {
    /// Reads the tables of a volume.
    pub fn read(alloc: Global, geometry: &Geometry, volume: &[u8]) -> Result<Table, NoMemory>
        requires { IsWhole geometry.now volume.now }
        ensures { IfOk result (λ table. IsTableOf (volume_of geometry.now volume.now) table) }
    {
        let used = inode_bits(alloc, geometry, volume)?;
        let attrs = read_attrs(alloc, geometry, volume, &used)?;
        let slots = read_slots(alloc, geometry, volume, &used)?;
        Ok(Table { used, attrs, slots })
    }

    /// How many inodes there are.
    pub fn inodes(&self) -> u32
        ensures { result ≡ self.now.used.count }
    {
        self.used.count()
    }

    /// How many inodes aren't used.
    pub fn clear_inodes(&self) -> u32
        ensures { result ≡ clear_below self.now.used.bytes self.now.used.count }
    {
        self.used.clear_count()
    }

    /// Whether an inode is a used one from 2 on.
    pub fn is_entry(&self, inode: u32) -> bool
        requires { inode < self.now.used.count }
        ensures { result ≡ is_entry (seen self.now) inode }
    {
        2 <= inode && self.used.get(inode)
    }

    /// The attributes of an inode, where it is used and has any.
    pub fn attr(&self, inode: u32) -> Option<Attr>
        ensures { result ≡ (seen self.now).attr inode }
    {
        match self.attrs.get(inode as usize) {
            Some(attr) => *attr,
            None => None,
        }
    }

    /// The slot of an inode, where it is a used one from 2 on and has any.
    pub fn slot(&self, inode: u32) -> Option<&Slot>
        ensures { option_copied result ≡ map.get self.now.slots inode }
    {
        self.slots.get(inode)
    }

    /// Whether an inode is a used directory. No number from the number of inodes on is one.
    pub fn is_dir_at(&self, inode: u32) -> bool
        ensures { result ≡ is_dir_at (seen self.now) inode }
    {
        inode < self.inodes() && (self.used.get(inode) && is_dir_attr(self.attr(inode)))
    }
}
