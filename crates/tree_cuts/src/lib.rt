//! What the calls of a history do to streams of updates of a tree, and the laws of the cuts that come of it. The crate
//! stands on the tree and on the theory of streams and cuts, and has no code: each public function has an empty body,
//! and its contract is one law of the definitions in `specs/`.
//!
//! Promised: each cut of a run keeps, with each update, all earlier ones of other streams that meet it, so what it keeps
//! applies in its order and makes a tree, each next cut adds one batch, and no later call changes a cut. A kept update of
//! a file meets the bytes there that it met in the history.
//!
//! The steps of a history are of plain updates. `charged_steps` has the same ones with what each update weighed and gave
//! up at its place, from which the limits are told.
#![tactic(auto)]

ghost use Rattle.tree_cuts.specs.Laws.{CutsAreClosed, KeptUpdatesApply, LongerHistoriesKeep, NextCutIsOneBatchOn, CutsAreTrees, ChangedFilesHaveTheirBytes, SyncedStreamsAreKept, SyncedFilesAreKept, SyncOfAllKeepsAll, TransactionsAreLight};

use stream_cuts::Updating;

/// Trees and their updates, as the theory of cuts takes them: its laws hold at this type.
pub struct Trees;

impl Updating for Trees {
    ghost use Rattle.tree_model.specs.declared.rows.Update as rows;
    ghost use Rattle.tree_model.specs.Rows.{Rows};
    ghost use Rattle.tree_model.specs.Updates as updates;
    ghost use Rattle.tree_model.specs.Laws as laws;

    ghost State = { Rows };

    ghost Update = { rows.Update };

    ghost Applies = { laws.Applies };

    ghost apply = { updates.apply };

    ghost Meet = { laws.Meet };
}

/// The cut after each seal of a run is closed: no update is kept without the earlier ones of other streams that it meets.
#[tactic(auto, using(crate::proofs::Laws::cuts_are_closed))]
pub fn cuts_are_closed()
    ensures { CutsAreClosed }
{}

/// What a closed cut keeps applies, each update at its place; what it loses applies behind that, with the tree of all
/// updates at the end.
pub fn kept_updates_apply()
    ensures { KeptUpdatesApply }
{}

/// More calls change neither the seals so far, nor their cuts, nor the trees of these.
#[tactic(auto, using(crate::proofs::Laws::longer_histories_keep))]
pub fn longer_histories_keep()
    ensures { LongerHistoriesKeep }
{}

/// One seal more puts the updates of one batch on the tree of a cut, each applying at its place.
pub fn the_next_cut_is_one_batch_on()
    ensures { NextCutIsOneBatchOn }
{}

/// The tree of every cut of a run is a tree, and each update that the cut keeps applies at its place.
pub fn cuts_are_trees()
    ensures { CutsAreTrees }
{}

/// At a kept update that changes a file, the file has the bytes in the cut that it has in the whole history.
#[tactic(auto, using(crate::proofs::Laws::a_changed_file_has_its_bytes))]
pub fn a_changed_file_has_its_bytes()
    ensures { ChangedFilesHaveTheirBytes }
{}

/// A sync keeps what it is for: the cut after all seals so far loses no update of a stream that was just synced, and none
/// that changes a file that was just synced; after a sync of all its tree is the tree of all calls.
#[tactic(auto, using(crate::proofs::Synced::synced_streams_are_kept, crate::proofs::Synced::synced_files_are_kept, crate::proofs::Synced::sync_of_all_keeps_all))]
pub fn syncs_keep_what_they_are_for()
    ensures stream { SyncedStreamsAreKept }
    ensures file { SyncedFilesAreKept }
    ensures all { SyncOfAllKeepsAll }
{}

/// The unsealed updates of a stream weigh at most what a transaction may, unless they are one update alone.
#[tactic(auto, using(crate::proofs::Light::transactions_are_light))]
pub fn transactions_are_light()
    ensures { TransactionsAreLight }
{}
