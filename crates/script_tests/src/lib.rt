//! The language of scripts and all printed texts, by examples that were written by hand. The crate has tests alone.
#![tactic(auto)]

#[cfg(test)]
mod data_tests;
#[cfg(test)]
mod grammar_tests;
#[cfg(test)]
mod round_tests;
#[cfg(test)]
mod text_tests;
