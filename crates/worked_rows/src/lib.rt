//! Scripts of commands worked by hand, with their replies and the trees of their cuts, run through the plain model. They
//! show that the definitions say what is meant. The crate has tests alone, and examples of what an update weighs.
#![tactic(auto)]

#[cfg(test)]
mod limits;
#[cfg(test)]
mod many;
#[cfg(test)]
mod playing;
#[cfg(test)]
mod refused;
#[cfg(test)]
mod streams;
