//! The superblock: the first 36 bytes of an image.
ghost use Rattle.std.specs.Prelude.{◌≡◌, ◌==◌, ◌+◌, ◌≤◌, ◌++◌, take, drop, IfOk, IfErr, OnOk, OnErr, MatchResult, Some, None, true, false};
ghost use Rattle.byteorder.specs.Endian.{little_bytes};
ghost use Rattle.block_layout.specs.Super.{super_bytes, number_at, blocks_named, inodes_named, sizes_wrong, first_wrong};

use super::geometry::{Geometry, VOLUME_START, Which};
use byteorder::{ByteOrder, LittleEndian};
use thiserror::Error;

/// The first bytes of each image.
const MAGIC: &[u8; 8] = b"CCFSOWN1";

/// The one version of the layout.
const VERSION: u32 = 1;

/// The fields of a superblock, in the order in which they stand and are checked.
#[derive(Clone, Copy, Debug, PartialEq, Eq, Drop)]
pub enum SuperField {
    /// The 8 bytes `CCFSOWN1`.
    Magic,
    /// The version of the layout, 1.
    Version,
    /// How many blocks the image has.
    Blocks,
    /// How many inodes the image has.
    Inodes,
    /// The first block of the volume.
    VolumeStart,
    /// The first block of the inode table.
    InodeTable,
    /// The first block of the slot table.
    SlotTable,
    /// The first data block.
    FirstData,
}

/// Why bytes are no superblock.
#[derive(Clone, Copy, Debug, PartialEq, Eq, Drop, Error)]
#[error("no superblock: {field:?} is wrong")]
pub struct BadSuper {
    /// The first wrong field.
    pub field: SuperField,
}

/// Writes a number at this place.
fn put_number(bytes: &mut [u8; 36], place: usize, number: u32)
    requires { place + 4 ≤ 36 }
    ensures { bytes.new ≡ take place bytes.old ++ (little_bytes 4 number ++ drop (place + 4) bytes.old) }
{
    LittleEndian::write_u32(&mut bytes[place..], number);
}

/// The number at this place.
fn number_at(bytes: &[u8; 36], place: usize) -> u32
    requires { place + 4 ≤ 36 }
    ensures { result ≡ number_at place bytes.now }
{
    LittleEndian::read_u32(&bytes[place..])
}

/// The superblock of an image of this geometry.
pub fn encode_super(geometry: &Geometry) -> [u8; 36]
    ensures { result ≡ super_bytes geometry.now.blocks geometry.now.inodes }
{
    let mut bytes = [0; 36];
    bytes[..8].copy_from_slice(MAGIC);
    put_number(&mut bytes, 8, VERSION);
    put_number(&mut bytes, 12, geometry.blocks);
    put_number(&mut bytes, 16, geometry.inodes);
    put_number(&mut bytes, 20, VOLUME_START);
    put_number(&mut bytes, 24, geometry.inode_table);
    put_number(&mut bytes, 28, geometry.slot_table);
    put_number(&mut bytes, 32, geometry.first_data);
    bytes
}

/// Names this field where another number than the right one stands at its place.
fn expect_number(
    bytes: &[u8; 36],
    place: usize,
    field: SuperField,
    right: u32,
) -> Result<(), BadSuper>
    requires { place + 4 ≤ 36 }
    ensures right { OnOk result ((number_at place bytes.now == right) ≡ true) }
    ensures wrong { OnErr result ((number_at place bytes.now == right) ≡ false) }
    ensures field { IfErr result (λ bad. bad.field ≡ field) }
{
    if number_at(bytes, place) != right {
        return Err(BadSuper { field });
    }
    Ok(())
}

/// The geometry of the blocks and inodes that a superblock names.
fn geometry_named(bytes: &[u8; 36]) -> Result<Geometry, BadSuper>
    ensures cases { MatchResult result (λ _. sizes_wrong bytes.now ≡ None) (λ bad. sizes_wrong bytes.now ≡ Some bad.field) }
    ensures blocks { IfOk result (λ geometry. geometry.blocks ≡ blocks_named bytes.now) }
    ensures inodes { IfOk result (λ geometry. geometry.inodes ≡ inodes_named bytes.now) }
{
    match Geometry::of(number_at(bytes, 12), number_at(bytes, 16)) {
        Ok(geometry) => Ok(geometry),
        Err(bad) => Err(BadSuper {
            field: match bad.which {
                Which::Blocks => SuperField::Blocks,
                Which::Inodes => SuperField::Inodes,
            },
        }),
    }
}

/// The geometry that a superblock names. An error names the first wrong field, in the order of `SuperField`. Blocks and
/// inodes are wrong where `Geometry::of` refuses them, and the fields behind them where they aren't the geometry's.
pub fn decode_super(bytes: &[u8; 36]) -> Result<Geometry, BadSuper>
    ensures cases { MatchResult result (λ _. first_wrong bytes.now ≡ None) (λ bad. first_wrong bytes.now ≡ Some bad.field) }
    ensures blocks { IfOk result (λ geometry. geometry.blocks ≡ blocks_named bytes.now) }
    ensures inodes { IfOk result (λ geometry. geometry.inodes ≡ inodes_named bytes.now) }
    ensures written { IfOk result (λ geometry. bytes.now ≡ super_bytes geometry.blocks geometry.inodes) }
{
    if !bytes.starts_with(MAGIC) {
        return Err(BadSuper {
            field: SuperField::Magic,
        });
    }
    expect_number(bytes, 8, SuperField::Version, VERSION)?;
    let geometry = geometry_named(bytes)?;
    expect_number(bytes, 20, SuperField::VolumeStart, VOLUME_START)?;
    expect_number(bytes, 24, SuperField::InodeTable, geometry.inode_table)?;
    expect_number(bytes, 28, SuperField::SlotTable, geometry.slot_table)?;
    expect_number(bytes, 32, SuperField::FirstData, geometry.first_data)?;
    Ok(geometry)
}
