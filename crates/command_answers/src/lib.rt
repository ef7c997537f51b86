//! What commands on names answer, by the tree of all that was done.
//!
//! `answer` tells the reply and the update of mkdir, create, unlink, rmdir, rename, stat and list by the tree with its index. The
//! crate stands on `history_model`, whose definitions the answers are, on `history_laws` for what is known of each answer, and on
//! `tree_model`. It promises that each answer is exactly that of the definitions, and that its update applies and has good names.
#![tactic(auto)]

mod answering;
mod making;
mod moving;
mod removing;
mod showing;
mod views;

pub use answering::{
    answer, answer_list, answer_make, answer_rename, answer_rmdir, answer_stat, answer_unlink,
};
pub use views::{Answered, View};
