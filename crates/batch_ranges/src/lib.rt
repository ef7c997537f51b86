//! The batch that puts records on a volume: ranges of bytes that replay alike however often.
//!
//! Records raise counters and flip bits; a batch has the bytes that then stand there. They are told from a copy of the volume's metadata,
//! on which each record is put in its turn. The crate stands on `delta_log` for what a record does, on `gate_journal` for batches, and on
//! `carried_volumes`. It promises that the ranges, put on the volume, leave what the records leave.
#![tactic(auto)]

pub mod laws;
pub mod metadata;

pub use metadata::Metadata;
