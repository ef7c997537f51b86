//! The records of updates, and what a batch of them carries.
//!
//! `records_of` tells the records that an update puts on a volume. The crate stands on `image_model` for what a volume carries and
//! which changes an update makes, on the codecs for their bytes, on `file_bodies` for the operations on contents, and on
//! `tree_cuts` for the cuts of a history. It promises that the records of an update are those of its changes, whatever the tree
//! is, and that the records of a batch take a volume whose metadata carries the tree of one cut to one whose metadata carries that
//! of the next.
#![tactic(auto)]

mod changes;
pub mod laws;
pub mod records;

pub use records::records_of;
