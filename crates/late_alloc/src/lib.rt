//! Which blocks a batch gains and gives up.
//!
//! Blocks are chosen when a batch is written: a page that came and went in the batch takes none. The crate stands on `block_maps`,
//! `free_maps`, `reuse_hold` and `file_bodies`. It promises that just those files are looked at that operations are on, that a batch
//! gets just the blocks that it needs, the lowest ones that are neither used nor held, and that it is refused exactly where there
//! are too few.
#![tactic(auto)]

mod changes;
mod fault;
mod laws;
mod lengths;
mod plans;

pub use changes::{Reach, reaches};
pub use fault::PlanFault;
pub use laws::{least_is_least, lengths_follow};
pub use lengths::{inode_of, length_by};
pub use plans::plan;
