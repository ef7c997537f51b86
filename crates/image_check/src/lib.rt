//! The checks of a volume: whether it stands for a tree, which check fails first where it doesn't, and the tree where it does.
//!
//! `first_bad` reads the tables of a volume once, into attributes by inode and slots with an index of their places. Then it
//! makes the checks in their order: the format, the root, records and slots one by one, twins by the index, rings by marking
//! chains of parents, and the bits and counts by counting clear bits. Each check answers the lowest inode that fails, or a
//! fixed block. `check` does the same, and of a volume that passes it lists the inodes in preorder, by the index of the slots,
//! and makes the row of each in its directory, which is listed before it.
//!
//! The crate stands on the codecs `block_layout`, `inode_table`, `free_maps` and `flat_dirs`, on `image_model` for what each
//! check means, on `ccfs_base` for want of memory, and on `byteorder` and `thiserror`. It promises that the verdict is that of
//! the definitions of `image_model`: the first check that fails, with its block, and none exactly where none fails. The tree is
//! that of `image_model` too, with the inode of each serial. Until files have bytes, only empty files with names are let
//! through.
#![tactic(auto)]

mod building;
mod chain;
mod inodes;
mod kinds;
mod listing;
mod placing;
mod rings;
mod single;
mod table;
mod twins;

pub use chain::first_bad;
pub use inodes::Inodes;
pub use kinds::{BadImage, BadKind, CheckFault};
pub use placing::{Placed, check};
