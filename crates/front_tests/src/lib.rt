//! What commands answer, the records of updates, and the front of a session, by examples. The crate has tests alone.
#![tactic(auto)]

#[cfg(test)]
mod act_tests;
#[cfg(test)]
mod answers_tests;
#[cfg(test)]
mod inode_tests;
#[cfg(test)]
mod laws_tests;
#[cfg(test)]
mod records_tests;
#[cfg(test)]
mod trials;
