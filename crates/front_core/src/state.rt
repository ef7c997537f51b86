//! What the calls so far left, and how a call changes it.
ghost use Rattle.std.specs.Prelude.{◌≡◌, ◌<◌, ◌≤◌, ◌+◌, ◌++◌, ◌∷◌, ◌^◌, ℕ, List, [], true, false, IfOk, OnOk, OnErr, IsTrue, MatchOption, Some, length, slice_index, slice_index_or, take, Bool};
ghost use Rattle.std.specs.List.{filter};
ghost use Rattle.stream_cuts.specs.Forced.{streams};
ghost use Rattle.ccfs_base.specs.Fits.{fits_command};
ghost use Rattle.ccfs_base.specs.Limits.{transaction_limit};
ghost use Rattle.tree_model.specs.declared.rows.Entry.{Entry};
ghost use Rattle.tree_model.specs.declared.rows.Update.TheVariants.{Make};
ghost use Rattle.tree_model.specs.Rows.{Rows};
ghost use Rattle.tree_model.specs.Tests.{applies};
ghost use Rattle.tree_model.specs.Updates.{apply};
ghost use Rattle.tree_cuts.specs.Calls.{Charged};
ghost use Rattle.history_model.specs.State.{Choice, stream_in};
ghost use Rattle.history_model.specs.Histories.{entry_of, makes, choices_by};
ghost use Rattle.stream_txn.specs.Accounts.{account_at};
ghost use Rattle.cross_dep.specs.Books.{has_bit};
ghost use Rattle.update_records.specs.Built.{is_built, AreSerialsBelow};
ghost use Rattle.update_records.specs.Operations.{ops_of};
ghost use Rattle.front_laws.specs.Batches.{its_records};
ghost use Rattle.front_laws.specs.Inodes.{dropped, given_by, has, left_out, with_inode, IsLowestFree};
ghost use Rattle.front_laws.specs.Kept.{is_answered, now_of};
ghost use Rattle.front_laws.specs.Owned.{AreOwned};
ghost use Rattle.front_core.specs.Free.{AreTaken, IsOneFree, but_of, given_at};
ghost use Rattle.front_core.specs.Fronts.{sizes_of};
ghost use Rattle.front_core.specs.Pending.{IsHeld, IsDue, IsAsBefore, AreSealed};
ghost use Rattle.front_core.specs.Entering.{IsReadyFor, IsEnteringOf, MayEnter, HasEntered};
ghost use Rattle.front_core.specs.Left.{IsStateOf, IsSound, IsSameState, IsPlanOf, IsMade, sealed_by};
ghost use Rattle.front_core.specs.declared.pending.Pending.{Pending};

use super::operations::ops_of;
use super::pending::{Entering, Pending};
use super::planning::Plan;
use block_layout::Geometry;
use ccfs_base::{Command, NoMemory};
use std::alloc::{AllocError, Global};
use tree_model::{Tree, Update};
use update_records::records_of;

/// What the calls so far left.
#[derive(Drop)]
pub(crate) struct State {
    /// The tree.
    pub tree: Tree,
    /// The serial of the next new row.
    pub next: u32,
    /// The stream of each actor.
    pub streams: [u8; 64],
    /// The inode of each serial.
    pub inodes: Vec<u32>,
    /// What is kept of the unsealed updates.
    pub pending: Pending,
}

/// How many rows an update makes.
pub(crate) fn rows_made(update: &Update) -> u32
    ensures { result ≡ makes update.now }
{
    match update {
        Update::Make { .. } => 1,
        _ => 0,
    }
}

/// How many rows an update drops: that of a row without an entry, where it doesn't stay.
fn rows_left(stays: bool) -> u32
    ensures { (id : ℕ) → result ≡ length (left_out id stays) }
{
    if stays { 0 } else { 1 }
}

/// How many rows an update drops.
pub(crate) fn rows_given(update: &Update) -> u32
    ensures { result ≡ length (dropped update.now) }
{
    match update {
        Update::Remove { stays, .. } => rows_left(*stays),
        Update::Move {
            replaced: Some(_),
            stays,
            ..
        } => rows_left(*stays),
        Update::Release { .. } => 1,
        _ => 0,
    }
}

/// The stream that a command sets, if it sets one.
fn stream_set(command: &Command) -> Option<u8>
    ensures { (cs : List Choice) (actor : ℕ) → MatchOption result (choices_by cs actor command.now ≡ cs)
        (λ s. (ignore : Bool) × (choices_by cs actor command.now ≡ record { actor = actor; stream = s; ignore = ignore } ∷ cs)) }
{
    match command {
        Command::SetStream { stream, .. } => Some(*stream),
        _ => None,
    }
}

impl State {
    /// Makes a planned call of an actor. Without memory all is as before.
    pub(crate) fn make(
        &mut self,
        alloc: Global,
        geometry: &Geometry,
        actor: u8,
        command: &Command,
        plan: &Plan,
    ) -> Result<(), NoMemory>
        requires actor { actor < 64 }
        requires fits { IsTrue (fits_command command.now) }
        requires built { is_answered command.now ≡ true }
        requires sound { IsSound (sizes_of geometry.now) self.old }
        requires plan { (t : Rows) (h : List Entry) → IsStateOf (sizes_of geometry.now) t h self.old
            → IsPlanOf (sizes_of geometry.now) (now_of (sizes_of geometry.now) t h) (entry_of (sizes_of geometry.now) (now_of (sizes_of geometry.now) t h) actor command.now) plan.now }
        ensures made { OnOk result ((t : Rows) (h : List Entry) → IsStateOf (sizes_of geometry.now) t h self.old
            → IsMade (sizes_of geometry.now) t h (entry_of (sizes_of geometry.now) (now_of (sizes_of geometry.now) t h) actor command.now) self.old self.new) }
        ensures same { OnErr result (IsSameState self.old self.new) }
    {
        match &plan.update {
            Some(update) => self.update(alloc, geometry, actor, command, plan, update),
            None => {
                self.seal(plan.forced)?;
                self.choose(actor, command);
                Ok(())
            }
        }
    }

    /// Sets the stream of an actor, where the command does.
    fn choose(&mut self, actor: u8, command: &Command)
        requires actor { actor < 64 }
        ensures streams { (cs : List Choice) → ((a : ℕ) → a < 64 → slice_index self.old.streams a ≡ stream_in cs a) → (a : ℕ) → a < 64 → slice_index self.new.streams a ≡ stream_in (choices_by cs actor command.now) a }
        ensures tree { self.new.tree ≡ self.old.tree }
        ensures next { self.new.next ≡ self.old.next }
        ensures inodes { self.new.inodes ≡ self.old.inodes }
        ensures pending { self.new.pending ≡ self.old.pending }
    {
        if let Some(stream) = stream_set(command) {
            self.streams[usize::from(actor)] = stream;
        }
    }

    /// Seals the streams whose bits are set. Without memory all is as before.
    fn seal(&mut self, sealed: u64) -> Result<(), NoMemory>
        requires held { IsHeld self.old.pending }
        requires open { (s : ℕ) → s < 64 → has_bit sealed s ≡ true → (account_at self.old.pending.txns.accounts s).is_open ≡ true }
        ensures sealed { OnOk result ((mid : Pending) × (IsAsBefore self.old.pending mid × AreSealed mid (filter (has_bit sealed) streams) self.new.pending)) }
        ensures tree { self.new.tree ≡ self.old.tree }
        ensures next { self.new.next ≡ self.old.next }
        ensures streams { self.new.streams ≡ self.old.streams }
        ensures inodes { self.new.inodes.items ≡ self.old.inodes.items }
        ensures same { OnErr result (IsAsBefore self.old.pending self.new.pending) }
    {
        self.pending.reserve(sealed)?;
        self.pending.seal_these(sealed);
        Ok(())
    }

    /// Makes an update behind the seals that it forces. Without memory all is as before.
    fn update(
        &mut self,
        alloc: Global,
        geometry: &Geometry,
        actor: u8,
        command: &Command,
        plan: &Plan,
        update: &Update,
    ) -> Result<(), NoMemory>
        requires actor { actor < 64 }
        requires fits { IsTrue (fits_command command.now) }
        requires built { is_answered command.now ≡ true }
        requires sound { IsSound (sizes_of geometry.now) self.old }
        requires is { plan.now.update ≡ Some update.now }
        requires plan { (t : Rows) (h : List Entry) → IsStateOf (sizes_of geometry.now) t h self.old
            → IsPlanOf (sizes_of geometry.now) (now_of (sizes_of geometry.now) t h) (entry_of (sizes_of geometry.now) (now_of (sizes_of geometry.now) t h) actor command.now) plan.now }
        ensures made { OnOk result ((t : Rows) (h : List Entry) → IsStateOf (sizes_of geometry.now) t h self.old
            → IsMade (sizes_of geometry.now) t h (entry_of (sizes_of geometry.now) (now_of (sizes_of geometry.now) t h) actor command.now) self.old self.new) }
        ensures same { OnErr result (IsSameState self.old self.new) }
    {
        let next = self.next + rows_made(update);
        let listed = self.inodes.len();
        self.list_inode(plan.sealed(), update)?;
        match self.prepare(alloc, geometry, plan, update) {
            Ok(entering) => {
                self.enter(plan, entering, update);
                self.next = next;
                Ok(())
            }
            Err(AllocError) => {
                self.inodes.truncate(listed);
                Err(AllocError)
            }
        }
    }

    /// Lists the inode of a row that an update makes: the lowest that is free once these streams are sealed. Without memory all is as
    /// before.
    fn list_inode(&mut self, sealed: u64, update: &Update) -> Result<(), NoMemory>
        requires { makes update.now ≡ 1 → IsOneFree sealed self.old.pending.free }
        ensures tree { self.new.tree ≡ self.old.tree }
        ensures next { self.new.next ≡ self.old.next }
        ensures streams { self.new.streams ≡ self.old.streams }
        ensures pending { self.new.pending ≡ self.old.pending }
        ensures none { makes update.now ≡ 0 → self.new.inodes.items ≡ self.old.inodes.items }
        ensures listed { OnOk result (makes update.now ≡ 1 → (i : ℕ) × ((self.new.inodes.items ≡ self.old.inodes.items ++ i ∷ [])
            × ((count : ℕ) (inodes : List ℕ) (t : Rows) (unsealed : List (ℕ × Charged)) → AreOwned inodes t unsealed → AreTaken count inodes t unsealed self.old.pending.free → IsLowestFree count inodes t (but_of sealed unsealed) i))) }
        ensures err { OnErr result (self.new.inodes.items ≡ self.old.inodes.items) }
    {
        if rows_made(update) == 0 {
            return Ok(());
        }
        let inode = self.pending.free.lowest(sealed).unwrap();
        self.inodes.push(inode)?;
        Ok(())
    }

    /// Takes all memory that an update needs, and makes it in the tree. Without memory all is as before.
    fn prepare(
        &mut self,
        alloc: Global,
        geometry: &Geometry,
        plan: &Plan,
        update: &Update,
    ) -> Result<Entering, NoMemory>
        requires stream { plan.now.stream < 64 }
        requires apart { has_bit plan.now.forced plan.now.stream ≡ false }
        requires applies { IsTrue (applies self.old.tree update.now) }
        requires serials { AreSerialsBelow (length self.old.inodes.items) update.now }
        requires built { is_built update.now ≡ true }
        ensures told { IfOk result (IsEnteringOf geometry.now.inodes self.old.inodes.items plan.now.stream update.now) }
        ensures ready { IfOk result (λ e. IsReadyFor e self.new.pending) }
        ensures due { OnOk result ((s : ℕ) → s < 64 → has_bit plan.now.forced s ≡ true → (account_at self.old.pending.txns.accounts s).is_open ≡ true → IsDue self.new.pending s) }
        ensures own_due { OnOk result (plan.now.own ≡ true → (account_at self.old.pending.txns.accounts plan.now.stream).is_open ≡ true → IsDue self.new.pending plan.now.stream) }
        ensures before { IsAsBefore self.old.pending self.new.pending }
        ensures made { OnOk result (self.new.tree ≡ apply self.old.tree update.now) }
        ensures tree { OnErr result (self.new.tree ≡ self.old.tree) }
        ensures next { self.new.next ≡ self.old.next }
        ensures streams { self.new.streams ≡ self.old.streams }
        ensures inodes { self.new.inodes.items ≡ self.old.inodes.items }
    {
        let entering = self.entering(alloc, geometry, plan.stream, update)?;
        self.pending.reserve(plan.sealed())?;
        self.pending.make_room(&entering)?;
        self.tree.apply(update)?;
        Ok(entering)
    }

    /// An update as it is kept in its stream.
    fn entering(
        &self,
        alloc: Global,
        geometry: &Geometry,
        stream: u8,
        update: &Update,
    ) -> Result<Entering, NoMemory>
        requires serials { AreSerialsBelow (length self.now.inodes.items) update.now }
        requires built { is_built update.now ≡ true }
        ensures stream { IfOk result (λ e. e.stream ≡ stream) }
        ensures rows { IfOk result (λ e. e.gave_rows ≡ length (dropped update.now)) }
        ensures recs { IfOk result (λ e. e.recs ≡ its_records geometry.now.inodes self.now.inodes.items update.now) }
        ensures ops { IfOk result (λ e. e.ops ≡ ops_of self.now.inodes.items update.now) }
    {
        let recs = records_of(alloc, geometry.inodes, &self.inodes, update)?.unwrap();
        let ops = ops_of(alloc, &self.inodes, update)?;
        Ok(Entering {
            stream,
            gave_rows: rows_given(update),
            recs,
            ops,
        })
    }

    /// Seals the planned streams, and enters an update that the tree has already. It takes no memory.
    fn enter(&mut self, plan: &Plan, entering: Entering, update: &Update)
        requires stream { plan.now.stream < 64 }
        requires apart { has_bit plan.now.forced plan.now.stream ≡ false }
        requires held { IsHeld self.old.pending }
        requires due { (s : ℕ) → s < 64 → has_bit plan.now.forced s ≡ true → IsDue self.old.pending s }
        requires own { plan.now.own ≡ true → IsDue self.old.pending plan.now.stream }
        requires same { entering.stream ≡ plan.now.stream }
        requires ready { IsReadyFor entering self.old.pending }
        requires serials { AreSerialsBelow (length self.old.inodes.items) update.now }
        requires built { is_built update.now ≡ true }
        requires below { (i : ℕ) → has i (given_by self.old.inodes.items update.now) ≡ true → i < self.old.pending.free.count }
        requires made { (dir : ℕ) (name : List ℕ) (id : ℕ) (is_dir : Bool) → update.now ≡ Make dir name id is_dir → slice_index_or self.old.inodes.items id 0 < self.old.pending.free.count }
        requires may { (mid : Pending) → AreSealed self.old.pending (sealed_by plan.now) mid → MayEnter entering mid }
        requires place { (mid : Pending) → AreSealed self.old.pending (sealed_by plan.now) mid → length (given_at mid.free entering.stream) < slice_index_or mid.free.places entering.stream 0 }
        ensures entered { (mid : Pending) × (AreSealed self.old.pending (sealed_by plan.now) mid × HasEntered entering update.now self.old.inodes.items mid self.new.pending) }
        ensures tree { self.new.tree ≡ self.old.tree }
        ensures streams { self.new.streams ≡ self.old.streams }
        ensures inodes { self.new.inodes.items ≡ self.old.inodes.items }
    {
        self.seal_planned(plan);
        self.pending.enter(entering, update, &self.inodes);
    }

    /// Seals the planned streams. It takes no memory.
    fn seal_planned(&mut self, plan: &Plan)
        requires stream { plan.now.stream < 64 }
        requires apart { has_bit plan.now.forced plan.now.stream ≡ false }
        requires held { IsHeld self.old.pending }
        requires due { (s : ℕ) → s < 64 → has_bit plan.now.forced s ≡ true → IsDue self.old.pending s }
        requires own { plan.now.own ≡ true → IsDue self.old.pending plan.now.stream }
        ensures sealed { AreSealed self.old.pending (sealed_by plan.now) self.new.pending }
        ensures next { self.new.next ≡ self.old.next }
        ensures tree { self.new.tree ≡ self.old.tree }
        ensures streams { self.new.streams ≡ self.old.streams }
        ensures inodes { self.new.inodes.items ≡ self.old.inodes.items }
    {
        self.pending.seal_these(plan.forced);
        if plan.own {
            self.pending.seal(plan.stream);
        }
    }
}
