//! The front of a session: what commands answer, which updates they make, and which batches their seals make.
//!
//! The crate stands on `command_answers` and `update_records` for the answers and records of single commands, on `front_laws` for what
//! the whole keeps, on `shared_meta`, `stream_txn` and `cross_dep` for what isn't sealed, and on `free_maps` for free inodes. It promises
//! that each call adds just the entry of the definitions to the history, and that what it hands out are just the batches of that
//! history's seals.
#![tactic(auto)]

mod bits;
pub mod fault;
mod free;
pub mod front;
mod logging;
mod operations;
mod pending;
mod planning;
mod state;

pub use fault::ActFault;
pub use front::Front;
