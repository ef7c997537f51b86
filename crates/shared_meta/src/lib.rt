//! The metadata area that streams share: a base, and the records that each stream has logged and not sealed.
//!
//! The crate stands on `range_log`, `delta_log` and `ccfs_base`. It promises that `now` is the base with the logs of the streams
//! put on it in whatever order of the streams, and that `seal` hands out one stream's log, puts it on the base, and leaves
//! `now`, the other logs and the room as they are. A caller who doesn't know what is logged asks `may_put`, `may_add` and
//! `may_flip` whether a call may be made.
#![tactic(auto)]

pub mod laws;
mod logs;
mod meta;
mod spots;
mod steps;

pub use meta::SharedMeta;
