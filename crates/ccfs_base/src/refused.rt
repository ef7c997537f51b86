//! What a refused call hands back.

/// A refusal, and the value that the refused call had taken.
#[derive(Debug, Drop)]
pub struct Returned<F, T> {
    /// Why the call was refused.
    pub fault: F,
    /// The value that it hands back.
    pub kept: T,
}
