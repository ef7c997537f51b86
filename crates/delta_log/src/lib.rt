//! Raised counters and flipped bits that streams have logged and not sealed, and what a record does to bytes.
//!
//! The crate stands on `record_logs` and `ccfs_base`. It promises that a stream's records are handed out in the order in which
//! they were logged, that `apply_rec` does what the definition of a record says, and that two records that don't disturb each other may be put
//! on bytes in either order.
#![tactic(auto)]

mod apply;
pub mod laws;
mod log;

pub use apply::apply_rec;
pub use log::DeltaLog;
