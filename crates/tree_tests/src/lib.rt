//! The words, the tree, its cuts and the laws of histories at examples. The crate has tests alone.
#![tactic(auto)]

#[cfg(test)]
mod byte_tests;
#[cfg(test)]
mod cutting_tests;
#[cfg(test)]
mod law_tests;
#[cfg(test)]
mod name_tests;
#[cfg(test)]
mod tree_tests;
