//! Histories of calls on a file tree: what each command answers, what a history leaves, which seals it makes, and the tree
//! of each cut. The crate stands on the tree and on the laws of cuts of trees; it has definitions, and their laws as
//! clauses of functions that do nothing.
#![tactic(auto)]

ghost use Rattle.history_model.specs.Laws.{HistIsLegal, LastCutIsWhole, LegalIsUnique, LongerKeepsTrees, SealsAreCounted, StepsAreOfCalls};

/// The tree of a cut stays as it is when more happens.
#[tactic(auto, using(crate::proofs::Longer::longer_trees))]
pub fn longer_history_law()
    ensures { LongerKeepsTrees }
{}

/// Where nothing is unsealed, the cut after all seals has every update.
#[tactic(auto, using(crate::proofs::Longer::last_cut))]
pub fn last_cut_law()
    ensures { LastCutIsWhole }
{}

/// What a history left counts its seals.
#[tactic(auto, using(crate::proofs::Longer::seals_counted))]
pub fn seal_count_law()
    ensures { SealsAreCounted }
{}

/// What a history does to the streams is what `tree_cuts` says of its calls.
#[tactic(auto, using(crate::proofs::Longer::steps_of_calls))]
pub fn steps_of_calls_law()
    ensures { StepsAreOfCalls }
{}

/// Each list of calls has one legal history: the history of the list is legal, and a legal one is that of its calls.
#[tactic(auto, using(crate::proofs::Legal::legal_is_hist, crate::proofs::Legal::hist_is_legal, crate::proofs::Legal::hist_of_calls))]
pub fn one_legal_history_law()
    ensures one { LegalIsUnique }
    ensures legal { HistIsLegal }
{}
