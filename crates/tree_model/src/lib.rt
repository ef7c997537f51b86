//! The tree of files: its rows by their serials, what a change makes of them, and how they are walked and shown.
//!
//! It stands on `ccfs_base`. A row tells its directory and its name there; a tree keeps beside each row the entries of
//! that row by name, so that an entry is found by two look-ups and no call scans. The crate promises that each call
//! answers, and each change makes, what the definitions of `specs/` say of the rows alone.
#![tactic(auto)]

mod asking;
mod keeping;
mod keys;
pub mod laws;
mod node;
mod nodes;
mod picturing;
mod rows;
mod updating;
mod walking;

pub use asking::blocks_of;
pub use keeping::{ROOT, Tree};
pub use keys::{Key, changes_node, key_slots, keys_of, meets};
pub use picturing::{Item, ItemKind, Picture};
pub use rows::{Body, Entry, Row, Update};
