//! The model of a session as a plain program: what each command answers, and what it leaves, by scans over lists.
//!
//! It stands on `history_model`, whose definitions its contracts are: each call answers and leaves exactly what they say.
//! It keeps no index beside the tree, and is meant to be read and compared with, not to be fast.
#![tactic(auto)]

mod answering;
mod calling;
mod charging;
mod commands;
mod cutting;
mod files;
mod finding;
mod keeping;
mod listing;
mod naming;
mod planning;
mod recording;
mod sealing;
mod seals;
mod sums;
mod syncing;

pub use answering::Answer;
pub use cutting::{Step, seal_numbers, tree_of_cut};
pub use keeping::{Charge, Choice, Opened, Sizes, State};
pub use recording::History;
