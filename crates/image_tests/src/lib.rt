//! Images that were written by hand, and what the readers below say of them. The crate has tests alone.
#![tactic(auto)]

#[cfg(test)]
mod attrs_tests;
#[cfg(test)]
mod check_tests;
#[cfg(test)]
mod layout_tests;
#[cfg(test)]
mod model_tests;
#[cfg(test)]
mod samples;
#[cfg(test)]
mod slots_tests;
#[cfg(test)]
mod trials;
