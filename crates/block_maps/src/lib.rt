//! Where the pages of committed files stand.
//!
//! A file has a block for each page of 4,096 bytes, the last page perhaps in part, and where there are more than 24 pages an
//! indirect block, which tells the blocks of the pages from 24 on. A file's blocks are kept in the order in which its pointers are
//! read: those of pages 0 to 23, then the indirect block, then those of the pages from 24 on.
//!
//! The crate stands on `ccfs_base`. It promises that a page's block is the one that was set last, and that the map of a file after
//! a batch is made without changing the maps, and put in its place without memory.
#![tactic(auto)]

mod laws;
mod maps;
mod next;
mod plans;
mod uses;

pub use laws::{next_is_whole, uses_are_prefixes};
pub use maps::Maps;
pub use next::Next;
pub use plans::{Gain, Plan};
pub use uses::{block_count, new_count, pages, place_of, use_at};

/// How many pages of a file its own record points to.
pub const DIRECT_PAGES: u32 = 24;
