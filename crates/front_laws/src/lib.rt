//! Laws of what a front keeps: the inodes of rows, the unsealed updates and their records, and the batches of its seals.
//!
//! The crate stands on `update_records`, `history_laws`, `carried_volumes` and `shared_meta`. It has definitions, and no code: each
//! public function of `laws` has an empty body, and its contract is one law.
#![tactic(auto)]

pub mod laws;
