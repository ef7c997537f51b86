//! Runs of the program that lose power at a call on the disk, by what the images print that a crash may leave. The crate has tests alone.
#![tactic(auto)]

#[cfg(test)]
mod calls;
#[cfg(test)]
mod checkpoints;
#[cfg(test)]
mod stops;
#[cfg(test)]
mod texts;
