//! The updates that streams have not sealed, and the queue of sealed batches.
//!
//! The crate stands on `file_bodies` and `ccfs_base`. It promises that what it answers of weights and of given up space are sums
//! over the updates that are not sealed, that a batch carries just its stream's, that batches are handed out in the order of
//! their numbers, that a seal takes no memory where its place was reserved, and an update none where room was made for it.
#![tactic(auto)]

mod accounts;
mod op_logs;
mod places;
mod txns;
mod updates;

pub use txns::Txns;
