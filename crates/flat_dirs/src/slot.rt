//! A slot, and its bytes.
ghost use Rattle.std.specs.Prelude.{◌≡◌, ◌+◌, ◌≤◌, ◌∷◌, ◌++◌, length, take, drop, MatchResult, IfOk, IsTrue, Some, None};
ghost use Rattle.byteorder.specs.Endian.{little_bytes};
ghost use Rattle.ccfs_base.specs.Names.{is_name};
ghost use Rattle.flat_dirs.specs.Slot.{slot_bytes, slot_in};

use byteorder::{ByteOrder, LittleEndian};
use ccfs_base::Name;
use ccfs_base::naming::NAME_MOST;
use thiserror::Error;

/// The bytes of a slot that are looked at: 4 of the parent, 1 of the name's length, and 64 of the name.
pub const SLOT_SIZE: usize = 69;

/// Where the length of the name stands.
const LENGTH_AT: usize = 4;

/// Where the name stands.
const NAME_AT: usize = 5;

/// Where an inode stands: in this directory, under this name.
#[derive(Clone, Copy, Debug, PartialEq, Eq, Drop)]
pub struct Slot {
    /// The inode of the directory.
    pub parent: u32,
    /// The name in it.
    pub name: Name,
}

/// Why bytes are no slot.
#[derive(Clone, Copy, Debug, PartialEq, Eq, Drop, Error)]
pub enum SlotFault {
    /// The length isn't from 1 to 64, or the bytes of that length are no name.
    #[error("no slot: its length or name is no name's")]
    BadSlot,
}

/// Writes the parent at its place.
fn put_parent(bytes: &mut [u8; 69], parent: u32)
    ensures { bytes.new ≡ little_bytes 4 parent ++ drop 4 bytes.old }
{
    LittleEndian::write_u32(&mut bytes[..], parent);
}

/// Writes the length of a name and the name at their places.
fn put_name(bytes: &mut [u8; 69], name: &[u8])
    requires { length name.now ≤ 64 }
    ensures { bytes.new ≡ take 4 bytes.old ++ (length name.now ∷ name.now ++ drop (5 + length name.now) bytes.old) }
{
    bytes[LENGTH_AT] = name.len() as u8;
    bytes[NAME_AT..NAME_AT + name.len()].copy_from_slice(name);
}

/// The bytes of a slot: the parent, lowest byte first, the length of the name, the name, and zeros behind it.
pub fn encode_slot(slot: &Slot) -> [u8; 69]
    ensures { result ≡ slot_bytes slot.now }
{
    let mut bytes = [0; SLOT_SIZE];
    put_parent(&mut bytes, slot.parent);
    put_name(&mut bytes, slot.name.all());
    bytes
}

/// The slot that these bytes hold, or `BadSlot` exactly where the length isn't from 1 to 64 or the bytes of that length
/// are no name. The bytes behind the name aren't looked at.
pub fn decode_slot(bytes: &[u8; 69]) -> Result<Slot, SlotFault>
    ensures cases { MatchResult result (λ slot. slot_in bytes.now ≡ Some slot) (λ _. slot_in bytes.now ≡ None) }
    ensures name { IfOk result (λ slot. IsTrue (is_name slot.name)) }
{
    let length = usize::from(bytes[LENGTH_AT]);
    if length > NAME_MOST {
        return Err(SlotFault::BadSlot);
    }
    match Name::parse(&bytes[NAME_AT..NAME_AT + length]) {
        Ok(name) => Ok(Slot {
            parent: LittleEndian::read_u32(&bytes[..LENGTH_AT]),
            name,
        }),
        Err(_) => Err(SlotFault::BadSlot),
    }
}
