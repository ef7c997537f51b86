//! The language of scripts, and the texts that are printed.
//!
//! It stands on `ccfs_base` for commands, paths and replies, on `tree_model` for the items of a picture, and on `itoa` and
//! `hex` for digits. It promises that a script is read as the definitions of `specs/` say, by recursion on its bytes: its lines,
//! their words, what each line asks for, and the calls of the whole; and that each printed text is exactly the line that
//! is defined there. Cutting a text into lines and words and reading a number take no memory.
#![tactic(auto)]

mod answers;
mod commands;
mod data_words;
mod grammar;
mod lines;
mod numbers;
mod pictures;
mod reading;
mod scripts;
mod spelling;
mod texts;
mod verbs;
mod words;
mod writing;

pub use answers::reply_text;
pub use data_words::{MOST_DATA, parse_data};
pub use grammar::{LAST_ACTOR, Line, LineFault, parse_line};
pub use lines::{count_lines, next_line};
pub use numbers::number;
pub use pictures::{item_text, tree_text};
pub use scripts::{
    Call, MOST_BYTES, MOST_LINES, MOST_SCRIPT_DATA, ScriptFault, is_built, parse_script,
};
pub use texts::{
    bad_image_text, bad_line_text, disk_fault_text, made_text, memory_fault_text, not_built_text,
    script_fault_text, too_long_text, usage_text,
};
