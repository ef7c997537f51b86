//! Disks in memory, the journal's halves and volumes over them, at worked examples. The crate has tests alone.
#![tactic(auto)]

#[cfg(test)]
mod append_tests;
#[cfg(test)]
mod batch_tests;
#[cfg(test)]
mod crash_tests;
#[cfg(test)]
mod disk_tests;
#[cfg(test)]
mod image_tests;
#[cfg(test)]
mod load_tests;
#[cfg(test)]
mod opening_tests;
#[cfg(test)]
mod samples;
#[cfg(test)]
mod trials;
