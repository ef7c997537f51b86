//! Which streams' unsealed updates an update meets, and which streams have changed a node and not sealed the change.
//!
//! The crate stands on `tree_model` and `ccfs_base`. It promises that the book tells just the streams that have such an update,
//! whatever was added and sealed, and that an update for which room was made takes no memory, also behind seals.
#![tactic(auto)]

mod book;
mod marks;
mod places;

pub use book::KeyBook;
