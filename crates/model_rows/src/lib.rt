//! Scripts that are run through the plain model and through the program, side by side: both are to write the same. The crate has tests
//! alone.
#![tactic(auto)]

#[cfg(test)]
mod beside;
#[cfg(test)]
mod scripts;
