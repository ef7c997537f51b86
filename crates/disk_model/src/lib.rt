//! Disks: the trait of a block device that may fail and lose power, and a disk in memory.
//!
//! The crate stands on `fault_counts`, and on `thiserror` for a message. `Disk` says what each call answers, what stands after a failure, and which
//! bytes a crash at each moment may leave. `MemDisk` keeps all of it for every plan of failures, tells everything, and
//! fails exactly where its plan names the call or it found no memory.
#![tactic(auto)]

mod counts;
mod disk;
mod history;
mod image;
mod memory;
mod operation;
mod plan;

pub use disk::{Disk, DiskFailed};
pub use memory::MemDisk;
pub use plan::{CallKind, FailPlan};
