//! The journal of a gated volume: batches of byte ranges, each behind a gate byte of its own.
//!
//! The crate stands on the disks of `disk_model`, on the bytes of `ccfs_base`, and on `byteorder` for numbers as bytes. A
//! batch counts where its gate and all gates before it are open. `Half::append` makes a batch's bytes stable before it opens
//! the gate, and promises that at every moment a crash leaves the batches of before, or these and the whole new one.
//! `Half::load` reads the batches that count, or names the first that breaks the format; `Half::clear` closes all gates.
#![tactic(auto)]

pub mod appending;
pub mod batches;
pub mod faults;
pub mod gating;
pub mod halves;
pub mod laws;
pub mod loading;
pub mod places;
pub mod reading;
pub mod writing;

pub use batches::{Batch, Range, Ranges};
pub use faults::{JournalFault, LoadFault};
pub use halves::Half;
