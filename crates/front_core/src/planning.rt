//! What a call is to do, told before anything changes.
ghost use Rattle.std.specs.Prelude.{◌≡◌, ◌<◌, ◌≤◌, ◌+◌, ◌-◌, ◌*◌, ◌^◌, ◌&&◌, ◌||◌, ℕ, List, [], true, false, Option, None, Some, IfOk, IfSome, IsTrue, nat_lt, length, slice_index};
ghost use Rattle.std.specs.FinMap.{len};
ghost use Rattle.std.specs.List.{filter};
ghost use Rattle.stream_cuts.specs.Forced.{sealed_before, is_open};
ghost use Rattle.ccfs_base.specs.Fits.{fits_command};
ghost use Rattle.ccfs_base.specs.Limits.{transaction_limit};
ghost use Rattle.tree_model.specs.declared.rows.Update.{Update};
ghost use Rattle.tree_cuts.specs.Calls.{Sizes, Charged, charge, charged_meets, seals_own};
ghost use Rattle.history_model.specs.State.{Now, stream_in};
ghost use Rattle.history_model.specs.Histories.{entry_of, makes};
ghost use Rattle.stream_txn.specs.Accounts.{account_at};
ghost use Rattle.cross_dep.specs.Books.{Call, IsBookOf, has_bit, is_met};
ghost use Rattle.update_records.specs.Built.{is_built};
ghost use Rattle.command_answers.specs.Viewing.{is_viewed};
ghost use Rattle.front_laws.specs.Inodes.{dropped};
ghost use Rattle.front_laws.specs.Kept.{is_answered, now_of};
ghost use Rattle.front_laws.specs.Laws.{IsKeptNow};
ghost use Rattle.front_core.specs.Fronts.{sizes_of};
ghost use Rattle.front_core.specs.Left.{IsLeft, IsStateOf, IsSound, IsPlanOf, is_synced, sync_reply, sealed_by};
ghost use Rattle.tree_model.specs.declared.rows.Entry.{Entry};
ghost use Rattle.tree_model.specs.Rows.{Rows};
ghost use Rattle.tree_model.specs.Updates.{Fits};

use super::bits::{count_of, with_bit};
use super::pending::WEIGHT;
use super::state::{State, rows_given, rows_made};
use block_layout::Geometry;
use ccfs_base::{Command, NoMemory, Reply, TXN_LIMIT};
use command_answers::{Answered, View, answer};
use std::alloc::Global;
use tree_model::Update;

/// What a call is to do.
#[derive(Drop)]
pub(crate) struct Plan {
    /// The actor's stream.
    pub stream: u8,
    /// The reply.
    pub reply: Reply,
    /// The update, if there is one.
    pub update: Option<Update>,
    /// The streams that are sealed, in rising order: bit s is set for stream s.
    pub forced: u64,
    /// Whether the actor's stream is sealed behind them.
    pub own: bool,
}

impl Plan {
    /// All streams that are sealed.
    pub(crate) fn sealed(&self) -> u64
        requires stream { self.now.stream < 64 }
        requires apart { has_bit self.now.forced self.now.stream ≡ false }
        ensures own { has_bit result self.now.stream ≡ self.now.own }
        ensures others { (s : ℕ) → (s ≡ self.now.stream → ⊥) → has_bit result s ≡ has_bit self.now.forced s }
    {
        with_bit(self.forced, self.stream, self.own)
    }
}

/// Whether a command is built.
pub(crate) fn is_answered(command: &Command) -> bool
    ensures { result ≡ is_answered command.now }
{
    match command {
        Command::Mkdir { .. }
        | Command::Create { .. }
        | Command::Unlink { .. }
        | Command::Rmdir { .. }
        | Command::Rename { .. }
        | Command::Stat { .. }
        | Command::List { .. }
        | Command::StreamSync
        | Command::Sync
        | Command::Flush => true,
        Command::SetStream { ignore, .. } => !*ignore,
        _ => false,
    }
}

/// The reply of a sync form after which there are so many seals, or of setting a stream.
fn sync_reply(command: &Command, seals: u64) -> Reply
    ensures { result ≡ sync_reply command.now seals }
{
    match command {
        Command::SetStream { .. } => Reply::Done,
        _ => Reply::Synced { seals },
    }
}

impl State {
    /// What a call of an actor is to do.
    pub(crate) fn plan(
        &self,
        alloc: Global,
        geometry: &Geometry,
        actor: u8,
        command: &Command,
    ) -> Result<Plan, NoMemory>
        requires actor { actor < 64 }
        requires sound { IsSound (sizes_of geometry.now) self.now }
        requires built { is_answered command.now ≡ true }
        ensures { (t : Rows) (h : List Entry) → IsStateOf (sizes_of geometry.now) t h self.now
            → IfOk result (IsPlanOf (sizes_of geometry.now) (now_of (sizes_of geometry.now) t h) (entry_of (sizes_of geometry.now) (now_of (sizes_of geometry.now) t h) actor command.now)) }
    {
        let stream = self.streams[usize::from(actor)];
        let view = View {
            tree: &self.tree,
            next: self.next,
            inodes: geometry.inodes,
            gave_rows: self.pending.txns.gave_rows(Some(stream)),
        };
        match answer(alloc, &view, command)? {
            Some(answered) => Ok(self.plan_answered(geometry, stream, answered)),
            None => Ok(self.plan_sync(stream, command)),
        }
    }

    /// What a call with this answer is to do.
    fn plan_answered(&self, geometry: &Geometry, stream: u8, answered: Answered) -> Plan
        requires stream { stream < 64 }
        requires weight { (account_at self.now.pending.txns.accounts stream).weight ≤ transaction_limit }
        ensures stream { result.stream ≡ stream }
        ensures reply { result.reply ≡ answered.reply }
        ensures update { result.update ≡ answered.update }
        ensures none { answered.update ≡ None → sealed_by result ≡ [] }
        ensures forced_open { (n : Now) → IsLeft (sizes_of geometry.now) n self.now → (s : ℕ) → s < 64 → has_bit result.forced s ≡ true → is_open n.unsealed s ≡ true }
        ensures own_open { (n : Now) → IsLeft (sizes_of geometry.now) n self.now → result.own ≡ true → is_open n.unsealed result.stream ≡ true }
        ensures alone { result.update ≡ None → result.own ≡ false }
        ensures apart { (n : Now) (u : Update) → IsLeft (sizes_of geometry.now) n self.now → result.update ≡ Some u → has_bit result.forced result.stream ≡ false }
        ensures some { (n : Now) (calls : ℕ) (u : Update) → IsLeft (sizes_of geometry.now) n self.now → IsKeptNow (sizes_of geometry.now) self.now.inodes.items calls n
            → answered.update ≡ Some u → Fits n.tree u → is_built u ≡ true → sealed_by result ≡ sealed_before charged_meets stream (u, charge n.tree u) (seals_own (sizes_of geometry.now) n.tree n.unsealed stream u) n.unsealed }
    {
        let Answered { reply, update } = answered;
        let (forced, own) = self.seals_before(geometry, stream, &update);
        Plan {
            stream,
            reply,
            update,
            forced,
            own,
        }
    }

    /// The streams that are sealed before an update, if there is one: the other ones that it meets, and whether its own is.
    fn seals_before(&self, geometry: &Geometry, stream: u8, update: &Option<Update>) -> (u64, bool)
        requires stream { stream < 64 }
        requires weight { (account_at self.now.pending.txns.accounts stream).weight ≤ transaction_limit }
        ensures none { update.now ≡ None → (result.0 ≡ 0) × (result.1 ≡ false) }
        ensures bits { (u : Update) → update.now ≡ Some u → (unsealed : List Call) → IsBookOf self.now.pending.keys unsealed → (s : ℕ) → s < 64 → has_bit result.0 s ≡ is_met stream u unsealed s }
        ensures own { (u : Update) → update.now ≡ Some u → result.1 ≡ ((nat_lt transaction_limit ((account_at self.now.pending.txns.accounts stream).weight + 512)
            || nat_lt (geometry.now.inodes - 1) (len self.now.tree + makes u - length (dropped u) + self.now.pending.txns.gave_rows))
            && (account_at self.now.pending.txns.accounts stream).is_open) }
    {
        match update {
            Some(update) => (
                self.pending.keys.met(stream, update),
                self.seals_own(geometry, stream, update),
            ),
            None => (0, false),
        }
    }

    /// Whether an update's own stream is sealed before it.
    fn seals_own(&self, geometry: &Geometry, stream: u8, update: &Update) -> bool
        requires stream { stream < 64 }
        requires weight { (account_at self.now.pending.txns.accounts stream).weight ≤ transaction_limit }
        ensures { result ≡ ((nat_lt transaction_limit ((account_at self.now.pending.txns.accounts stream).weight + 512)
            || nat_lt (geometry.now.inodes - 1) (len self.now.tree + makes update.now - length (dropped update.now) + self.now.pending.txns.gave_rows))
            && (account_at self.now.pending.txns.accounts stream).is_open) }
    {
        (self.is_heavy(stream) || self.is_without_inodes(geometry, update))
            && self.pending.txns.is_open(stream)
    }

    /// Whether a stream's transaction would be too heavy with one more update.
    fn is_heavy(&self, stream: u8) -> bool
        requires stream { stream < 64 }
        requires weight { (account_at self.now.pending.txns.accounts stream).weight ≤ transaction_limit }
        ensures { result ≡ nat_lt transaction_limit ((account_at self.now.pending.txns.accounts stream).weight + 512) }
    {
        TXN_LIMIT < self.pending.txns.weight(stream) + WEIGHT
    }

    /// Whether the rows after an update, and those whose inodes aren't free yet, would be too many.
    fn is_without_inodes(&self, geometry: &Geometry, update: &Update) -> bool
        ensures { result ≡ nat_lt (geometry.now.inodes - 1) (len self.now.tree + makes update.now - length (dropped update.now) + self.now.pending.txns.gave_rows) }
    {
        let rows = self.tree.len() as u64 + u64::from(rows_made(update));
        let left = rows.saturating_sub(u64::from(rows_given(update)));
        let given = u64::from(self.pending.txns.gave_rows(None));
        u64::from(geometry.inodes).saturating_sub(1) < left + given
    }

    /// What a call of a sync form is to do, or one that sets a stream.
    fn plan_sync(&self, stream: u8, command: &Command) -> Plan
        requires stream { stream < 64 }
        requires seals { self.now.pending.txns.seals + 64 < 2 ^ 64 }
        ensures { (sizes : Sizes) (n : Now) (actor : ℕ) → IsLeft sizes n self.now → is_answered command.now ≡ true → is_viewed command.now ≡ false → stream ≡ stream_in n.choices actor
            → IsPlanOf sizes n (entry_of sizes n actor command.now) result }
    {
        let forced = self.synced(stream, command);
        let seals = self.pending.txns.seals() + count_of(forced);
        Plan {
            stream,
            reply: sync_reply(command, seals),
            update: None,
            forced,
            own: false,
        }
    }

    /// The streams that a sync form seals: those of its streams that have an unsealed update.
    fn synced(&self, stream: u8, command: &Command) -> u64
        requires stream { stream < 64 }
        ensures { (s : ℕ) → s < 64 → has_bit result s ≡ (is_synced command.now stream s && (account_at self.now.pending.txns.accounts s).is_open) }
    {
        match command {
            Command::StreamSync => with_bit(0, stream, self.pending.txns.is_open(stream)),
            Command::Sync => self.pending.open_streams(),
            _ => 0,
        }
    }
}
