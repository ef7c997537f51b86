//! The batches that records make, and images that are made, viewed and opened, at examples. The crate has tests alone.
#![tactic(auto)]

#[cfg(test)]
mod batch_tests;
#[cfg(test)]
mod make_tests;
#[cfg(test)]
mod view_tests;
