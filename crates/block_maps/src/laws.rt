//! What holds of uses and of maps: each law is the contract of a function that changes nothing.
ghost use Rattle.block_maps.specs.Laws.{UsesAreCounted, UsesArePrefixes, NextIsWhole};

/// A file has as many blocks as uses, and the uses of a shorter file are the first ones of a longer one.
#[tactic(auto, using(crate::proofs::Whole::uses_are_counted, crate::proofs::Whole::uses_are_prefixes))]
pub fn uses_are_prefixes()
    ensures counted { UsesAreCounted }
    ensures fronts { UsesArePrefixes }
{}

/// A file that keeps the blocks of its first pages and gets as many new ones as it needs has just the blocks that its length takes.
#[tactic(auto, using(crate::proofs::Whole::next_is_whole))]
pub fn next_is_whole()
    ensures { NextIsWhole }
{}
