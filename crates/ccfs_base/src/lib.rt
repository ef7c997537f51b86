//! The words that the crates of the file system share: names and paths, byte strings, commands and replies, and the
//! traits of what is read from and written to.
//!
//! It stands on `fault_counts` alone. It promises that a `Name` holds the bytes of a name, that a `Path` spells its
//! names and no others, and that what a call is refused for is what its clause says.
#![tactic(auto)]

pub mod buffer;
pub mod commands;
pub mod edges;
pub mod limits;
pub mod memory;
pub mod naming;
pub mod paths;
pub mod places;
pub mod records;
pub mod refused;
pub mod replies;
pub mod streams;

pub use buffer::Bytes;
pub use commands::Command;
pub use edges::{Sink, SinkFailed, Source, SourceFailed, write_all};
pub use limits::{FILE_MAX, TXN_LIMIT, blocks};
pub use memory::{MemSink, MemSource};
pub use naming::{Name, NameFault};
pub use paths::{Path, PathFault, PathNames};
pub use places::superimpose;
pub use records::{Rec, Recs};
pub use refused::Returned;
pub use replies::{Names, Refusal, Reply};
pub use streams::{STREAMS, has_bit, with_bit};

/// Want of memory. The call that answers it changed nothing.
pub type NoMemory = std::alloc::AllocError;
