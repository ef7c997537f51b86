//! The top call of the program: `shell` makes an image, performs a script of file commands on one and prints the replies and
//! the tree, or prints the tree of one.
//!
//! It stands on the disk's trait, the texts of scripts, the tree and its histories, and on `recovery`, which makes, opens and
//! views images. It promises that what is written and answered is a stated function of the words, the script and the contents
//! that are found, or else ends by a fault whose cause is in its contract; and that at every moment of a run a crash leaves an
//! image with the tree of a cut of the history.
#![tactic(auto)]

mod ended;
mod finish;
mod mkfs;
mod open;
mod print;
mod run;
mod say;
mod script;
mod session;
mod stop;
mod top;
mod words;

pub use ended::Ended;
pub use top::shell;
