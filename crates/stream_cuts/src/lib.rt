//! Histories over numbered streams, for any states and any updates: which updates are unsealed, what seals say, and
//! which updates a cut keeps. The crate stands on nothing and has no code: each public function has an empty body,
//! and its contract is one law of the definitions in `specs/`.
//!
//! Promised: a cut that seals make keeps, with each update, all earlier ones of other streams that meet it. So, where
//! updates that don't meet may change places, what the cut keeps applies in its order, each next cut adds one batch,
//! and the state's size at a cut is known by what is lost. What happens later changes no cut. Where nothing is
//! unsealed, everything is kept.
//!
//! A crate above gives its own states and updates as an implementation of `Updating`, or cites the lemmas of
//! `proofs/Laws`, which are over any types.
#![tactic(auto)]

ghost use Rattle.stream_cuts.specs.Laws.{ForcedSealsGuard, SealingAllLeavesNone, BatchOfSeal, AllIsKept, UnsealedAreLost, CutsAreClosed, LongerKeeps, KeptApply, NextBatch, AmountsAtCut};

/// States and updates, as far as the laws speak of them: two types, when an update applies to a state, the state that
/// it makes, and when two updates meet (where both are of different streams, the earlier one is sealed before the later
/// one enters).
pub trait Updating {
    ghost State: { Type 0 };

    ghost Update: { Type 0 };

    ghost Applies: { State → Update → Type 0 };

    ghost apply: { State → Update → State };

    ghost Meet: { Update → Update → Type 0 };
}

/// The seals that an update forces guard its entry: behind them no other stream has an unsealed update that meets it.
#[tactic(auto, using(crate::proofs::Laws::forced_seals_guard))]
pub fn forced_seals_guard<T: Updating>()
    ensures { ForcedSealsGuard T.Update }
{}

/// The cut after each seal of guarded steps is closed.
#[tactic(auto, using(crate::proofs::Laws::cuts_are_closed))]
pub fn cuts_are_closed<T: Updating>()
    ensures { CutsAreClosed T.Meet }
{}

/// What a closed cut keeps applies, each update at its place; what it loses applies behind that, with the whole
/// history's state at the end.
pub fn kept_apply<T: Updating>()
    ensures { KeptApply T.Applies T.apply T.Meet }
{}

/// More steps change neither the seals so far, nor their cuts, nor the states at them.
pub fn longer_keeps<T: Updating>()
    ensures { LongerKeeps T.apply }
{}

/// The state at the next cut is the state at this one and then the next batch's updates, each applying.
pub fn next_batch<T: Updating>()
    ensures { NextBatch T.Applies T.apply T.Meet }
{}

/// The batch of a stream's seal is what was unsealed of that stream, in the order of entry.
#[tactic(auto, using(crate::proofs::Laws::batch_of_seal))]
pub fn batch_of_seal<T: Updating>()
    ensures { BatchOfSeal T.Update }
{}

/// Sealing all streams leaves nothing unsealed.
#[tactic(auto, using(crate::proofs::Laws::sealing_all_leaves_none))]
pub fn sealing_all_leaves_none<T: Updating>()
    ensures { SealingAllLeavesNone T.Update }
{}

/// Where nothing is unsealed, the cut after all seals keeps every update.
#[tactic(auto, using(crate::proofs::Laws::all_is_kept))]
pub fn all_is_kept<T: Updating>()
    ensures { AllIsKept T.Update }
{}

/// What is unsealed comes to what the cut after all seals has lost, in any amount.
#[tactic(auto, using(crate::proofs::Laws::unsealed_are_lost))]
pub fn unsealed_are_lost<T: Updating>()
    ensures { UnsealedAreLost T.Update }
{}

/// The size of the state at a closed cut and what the lost updates gain are the size at the end and what they give up.
pub fn amounts_at_cut<T: Updating>()
    ensures { AmountsAtCut T.Applies T.apply T.Meet }
{}

#[cfg(test)]
mod tests {
    use super::*;

    struct Sums;

    impl Updating for Sums {
        ghost use Rattle.std.specs.Prelude.{ℕ, ◌+◌};

        ghost State = { ℕ };

        ghost Update = { ℕ };

        ghost Applies = { λ t u. Unit };

        ghost apply = { λ t u. t + u };

        ghost Meet = { λ u v. ⊥ };
    }

    #[test]
    fn the_laws_hold_of_sums(_rt: HostRuntime) {
        forced_seals_guard::<Sums>();
        cuts_are_closed::<Sums>();
        kept_apply::<Sums>();
        longer_keeps::<Sums>();
        next_batch::<Sums>();
        batch_of_seal::<Sums>();
        sealing_all_leaves_none::<Sums>();
        all_is_kept::<Sums>();
        unsealed_are_lost::<Sums>();
        amounts_at_cut::<Sums>();
    }
}
