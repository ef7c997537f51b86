//! Turns on real threads, over a history of numbers. The crate has tests alone.
#![tactic(auto)]

#[cfg(test)]
mod tests;
#[cfg(test)]
mod toys;
