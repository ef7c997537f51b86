//! The operations on the contents of files, and the sealed batches that carry them.
//!
//! The crate stands on `ccfs_base`. It says what each operation leaves of the files, and promises that operations on two files
//! may change places.
#![tactic(auto)]

pub mod batches;
pub mod laws;
pub mod ops;

pub use batches::Sealed;
pub use ops::{BodyOp, BodyOps};

#[cfg(test)]
mod tests;
