//! Calls of the program on disks in memory, by their exact output. The crate has tests alone.
#![tactic(auto)]

#[cfg(test)]
mod calls;
#[cfg(test)]
mod ends;
#[cfg(test)]
mod full;
#[cfg(test)]
mod images;
#[cfg(test)]
mod many;
#[cfg(test)]
mod playing;
#[cfg(test)]
mod scripts;
#[cfg(test)]
mod texts;
