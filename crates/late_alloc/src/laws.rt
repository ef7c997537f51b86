//! What holds of the lengths of files: each law is the contract of a function that changes nothing.
ghost use Rattle.late_alloc.specs.Lengths.{LengthsFollow, LeastIsLeast};

/// The lengths of files after operations, as those act on their bytes, follow from their lengths before them.
#[tactic(auto, using(crate::proofs::Measured::lengths_follow))]
pub fn lengths_follow()
    ensures { LengthsFollow }
{}

/// The least number of pages that a file has is at most the number at the start, and at most that at the end.
#[tactic(auto, using(crate::proofs::Measured::least_is_least))]
pub fn least_is_least()
    ensures { LeastIsLeast }
{}
