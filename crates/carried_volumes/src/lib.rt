//! Volumes that carry trees whose files are empty, and the inodes of their rows: what a session keeps true of its volume.
//!
//! The crate stands on `image_model` and `image_check`. It has definitions, and two laws as contracts of functions that do nothing: a
//! volume that carries a tree passes all checks and stands for it, and a volume that passes them carries its tree.
#![tactic(auto)]

pub mod laws;
