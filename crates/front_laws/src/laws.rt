//! The laws: each is the contract of a function that changes nothing.
ghost use Rattle.front_laws.specs.Laws.{HistoriesLeaveKeptStates, EmptyHistoriesAreKept, NextCallsAreKept, AFreeInodeIsThere, RowsFitBehindSeals, MoreInodesLeaveUpdates, UpdatesMayBeLogged, BatchesCarryOn, LongerKeepsBatches, SealsMakeBatches, BatchesHaveTheirSize, BatchesAct, BatchesAreLight};
ghost use Rattle.front_laws.specs.Covers.{BatchesAreCovered};
ghost use Rattle.front_laws.specs.Contents.{OperationsCarryOn};

/// A kept history leaves a tree whose rows have inodes of their own, and unsealed updates that own theirs.
pub fn histories_leave_kept_states()
    ensures { HistoriesLeaveKeptStates }
{}

/// An empty history is kept, on a tree whose rows have inodes of their own.
#[tactic(auto, using(crate::proofs::Starting::empty_histories_are_kept))]
pub fn empty_histories_are_kept()
    ensures { EmptyHistoriesAreKept }
{}

/// One more call is kept, where a new row gets the lowest free inode.
pub fn next_calls_are_kept()
    ensures { NextCallsAreKept }
{}

/// There is a free inode where rows and inodes that were given up are few enough.
#[tactic(auto, using(crate::proofs::FreeInodes::a_free_inode_is_there))]
pub fn a_free_inode_is_there()
    ensures { AFreeInodeIsThere }
{}

/// They are few enough behind the seals of an update that makes a row.
pub fn rows_fit_behind_seals()
    ensures { RowsFitBehindSeals }
{}

/// More inodes leave the records and operations of updates.
#[tactic(auto, using(crate::proofs::MoreInodes::more_inodes_leave_updates))]
pub fn more_inodes_leave_updates()
    ensures { MoreInodesLeaveUpdates }
{}

/// The records of an update may be logged behind its seals.
#[tactic(auto, using(crate::proofs::MayLog::updates_may_be_logged))]
pub fn updates_may_be_logged()
    ensures { UpdatesMayBeLogged }
{}

/// The records of a batch take a volume from one cut to the next.
pub fn batches_carry_on()
    ensures { BatchesCarryOn }
{}

/// More calls leave a batch.
#[tactic(auto, using(crate::proofs::LongerBatches::longer_keeps_batches))]
pub fn longer_keeps_batches()
    ensures { LongerKeepsBatches }
{}

/// The batches of one more call are those of its seals.
#[tactic(auto, using(crate::proofs::MadeBatches::seals_make_batches))]
pub fn seals_make_batches()
    ensures { SealsMakeBatches }
{}

/// The records of a batch take as many bytes as those of its updates.
#[tactic(auto, using(crate::proofs::BatchSizes::batches_have_their_size))]
pub fn batches_have_their_size()
    ensures { BatchesHaveTheirSize }
{}

/// Each record of a batch acts in at least one byte.
#[tactic(auto, using(crate::proofs::BatchActs::batches_act))]
pub fn batches_act()
    ensures { BatchesAct }
{}

/// The weight of a batch covers it.
pub fn batches_are_covered()
    ensures { BatchesAreCovered }
{}

/// A batch weighs at most what a transaction may: 262,144.
#[tactic(auto, using(crate::proofs::BatchLight::batches_are_light))]
pub fn batches_are_light()
    ensures { BatchesAreLight }
{}

/// The operations of a batch leave the files of the volume with its records.
pub fn operations_carry_on()
    ensures { OperationsCarryOn }
{}
