//! Directories as the slot table keeps them: a slot for each inode, which names its directory and its name there.
//!
//! A directory is the set of the slots that name it as parent; nothing points to a slot. `Slots` keeps the slots of an
//! image by inode, and beside them an index by parent and name, so that no look-up passes over all slots. The crate
//! stands on `ccfs_base` for names, on `byteorder` for numbers as bytes, and on `thiserror` for messages. It promises
//! that a slot is read as it was written, from its fields alone, and that each look-up answers what a scan of all slots
//! would.
#![tactic(auto)]

mod index;
mod laws;
mod slot;
mod slots;

pub use laws::{found_as_in_a_map, listed_as_in_a_map, only_fields_are_read, written_is_read};
pub use slot::{SLOT_SIZE, Slot, SlotFault, decode_slot, encode_slot};
pub use slots::Slots;
