//! The logs of records, the metadata area that streams share, the book of keys and the queue of batches, at examples that were
//! worked out by hand. The crate has tests alone.
#![tactic(auto)]

#[cfg(test)]
mod area_tests;
#[cfg(test)]
mod batch_tests;
#[cfg(test)]
mod book_tests;
#[cfg(test)]
mod delta_tests;
#[cfg(test)]
mod log_tests;
#[cfg(test)]
mod range_tests;
