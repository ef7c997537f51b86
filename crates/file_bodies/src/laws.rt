//! What holds of operations on files: each law is the contract of a function that changes nothing.
ghost use Rattle.file_bodies.specs.Laws.{ActsOnItsFile, OthersStay, MayChangePlaces, InParts};

/// An operation leaves its file as it says, and every other file as it was.
#[tactic(auto, using(crate::proofs::Acting::acts_on_its_file, crate::proofs::Acting::others_stay))]
pub fn acts_on_one_file()
    ensures own { ActsOnItsFile }
    ensures others { OthersStay }
{}

/// Operations on different files may change places.
#[tactic(auto, using(crate::proofs::Acting::may_change_places))]
pub fn may_change_places()
    ensures { MayChangePlaces }
{}

/// Two lists of operations one behind the other leave what the second leaves of what the first left.
#[tactic(auto, using(crate::proofs::Acting::in_parts))]
pub fn in_parts()
    ensures { InParts }
{}
