//! Free items, the maps of files and the choice of blocks at examples. The crate has tests alone.
#![tactic(auto)]

#[cfg(test)]
mod free_tests;
#[cfg(test)]
mod map_tests;
#[cfg(test)]
mod plan_tests;
