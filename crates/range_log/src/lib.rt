//! Ranges of bytes that streams have put and not sealed, those of different streams apart.
//!
//! The crate stands on `record_logs` and `ccfs_base`. It promises that a stream's ranges are handed out in the order in which
//! they were put, that no two streams have a byte in common, and that memory that was taken for calls to come serves just
//! these calls.
#![tactic(auto)]

mod log;

pub use log::{RangeLog, have_common};
