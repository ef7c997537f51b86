//! Bitmaps that tell which blocks, or which inodes, are used.
//!
//! Item i has bit i mod 8, counted from the lowest, of byte i div 8. A set bit means used, and a clear one free. The
//! bytes may have more bits than there are items: those aren't looked at, and stay as they are.
//!
//! The crate stands on `ccfs_base`, for want of memory alone. It promises that a bit is read and set where the bytes have
//! it and nowhere else, that the lowest free item from a place on is found wherever there is one, and that the free items
//! are counted. Both go a byte at a time.
#![tactic(auto)]

mod bits;
mod laws;
mod maps;

pub use laws::{a_used_item_is_not_counted, none_is_free_where_all_are_used};
pub use maps::BitMap;
