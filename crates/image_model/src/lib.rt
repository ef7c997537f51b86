//! What the bytes of a volume stand for: its fields, the checks that a sound volume passes, and the tree of its rows.
//!
//! The definitions stand in `specs/`: the places and fields of the metadata, the pointers and bytes of files, the checks in
//! their order with the block that each tells, the tree by inodes and by serials, which trees a volume carries, and the changes
//! of inodes that updates are made of. The functions of `laws`, `sound`, `changing` and `carried` say what holds of them, and
//! have no steps. `first_failure` and `row_at` read a volume by the words of the definitions, slowly: they are there to try the
//! definitions on volumes written by hand, and are no part of any other crate.
//!
//! The crate stands on the codecs `block_layout`, `inode_table`, `free_maps` and `flat_dirs`, on `tree_model` for rows and
//! updates, on `ccfs_base` for names, records and want of memory, and on `byteorder`. It promises that fields are apart and tell
//! all of the metadata, that a fresh volume stands for the root alone, that a sound volume stands for a tree and carries it, that
//! carrying falls into two halves, and that the records of an update take a volume from one tree to the next.
#![tactic(auto)]

pub mod carried;
pub mod changing;
mod check;
mod failing;
mod first;
pub mod laws;
mod pointer;
mod pointing;
mod reading;
mod rows;
pub mod sound;

pub use check::{Check, Limits};
pub use first::{failure, first_failure};
pub use pointer::Pointer;
pub use rows::row_at;
