//! The records that streams have logged and not sealed, and the room for calls to come.
//!
//! The crate stands on `ccfs_base`. It promises that a stream's records are handed out in the order in which they were logged,
//! and that the first call of the room takes no memory, also where a stream's records were handed out since room was made.
#![tactic(auto)]

mod logs;

pub use logs::RecordLogs;
