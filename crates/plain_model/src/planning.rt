//! What a call is to leave, told before anything changes.
ghost use Rattle.std.specs.Prelude.{◌≡◌, ◌≤◌, ◌<◌, ◌+◌, ◌-◌, ◌^◌, ◌∷◌, ◌++◌, ◌==◌, ◌&&◌, ◌||◌, [], IfOk, IsTrue, length, map, not, nat_lt, if◌then◌else◌};
ghost use Rattle.std.specs.List.{filter, list_any};
ghost use Rattle.std.specs.FinMap.{len};
ghost use Rattle.stream_cuts.specs.Streams.{Step, Enter, Seal};
ghost use Rattle.stream_cuts.specs.Forced.{is_open, streams};
ghost use Rattle.ccfs_base.specs.Limits.{transaction_limit};
ghost use Rattle.tree_model.specs.Keys.{meets};
ghost use Rattle.tree_model.specs.Tests.{applies};
ghost use Rattle.tree_model.specs.Updates.{apply};
ghost use Rattle.tree_model.specs.Weights.{live};
ghost use Rattle.tree_cuts.specs.Calls as calls;
ghost use Rattle.history_model.specs.State.{file_in, ignores_in};
ghost use Rattle.history_model.specs.Histories.{file_call, sync_call};

use super::charging::charge;
use super::finding::{file_in, ignores_in, stream_in};
use super::keeping::{Charge, Sizes, State};
use super::seals::{forced, is_open, streams_below};
use super::sums::{unsealed_blocks, unsealed_rows, unsealed_weight};
use super::syncing::STREAMS;
use ccfs_base::{Command, NoMemory, TXN_LIMIT};
use tree_model::{Tree, Update};

/// What an update that enters a stream does.
#[derive(Drop)]
pub(crate) struct Entering {
    /// The tree after it.
    pub after: Tree,
    /// What it is charged.
    pub charge: Charge,
    /// The streams that are sealed before it enters.
    pub sealed: Vec<u8>,
}

/// These streams, and this one last where that is told.
fn with_own(mut all: Vec<u8>, stream: u8, own: bool) -> Result<Vec<u8>, NoMemory>
    ensures those { IfOk result (λ those. those.items ≡ all.items ++ (if own then stream ∷ [] else [])) }
    ensures few { IfOk result (λ those. length those.items ≤ length all.items + 1) }
{
    if own {
        all.push(stream)?;
    }
    Ok(all)
}

impl State {
    /// Whether a limit seals an update's own stream, by the tree after the update and what it is charged.
    fn is_over(&self, sizes: &Sizes, stream: u8, after: &Tree, charge: &Charge) -> bool
        ensures { result ≡ (nat_lt transaction_limit (calls.unsealed_weight stream self.now.unsealed + charge.now.weight)
            || nat_lt sizes.now.data_blocks (live after.now + calls.unsealed_blocks self.now.unsealed)
            || nat_lt (sizes.now.inodes - 1) (len after.now + calls.unsealed_rows self.now.unsealed)) }
    {
        self.is_heavy(stream, charge)
            || self.is_without_blocks(sizes, after)
            || self.is_without_inodes(sizes, after)
    }

    /// Whether the stream's transaction would be too heavy.
    fn is_heavy(&self, stream: u8, charge: &Charge) -> bool
        ensures { result ≡ nat_lt transaction_limit (calls.unsealed_weight stream self.now.unsealed + charge.now.weight) }
    {
        u128::from(TXN_LIMIT)
            < unsealed_weight(&self.unsealed, stream).saturating_add(charge.weight)
    }

    /// Whether the blocks of all files after the update, and those that aren't free yet, would be too many.
    fn is_without_blocks(&self, sizes: &Sizes, after: &Tree) -> bool
        ensures { result ≡ nat_lt sizes.now.data_blocks (live after.now + calls.unsealed_blocks self.now.unsealed) }
    {
        u128::from(sizes.data_blocks) < unsealed_blocks(&self.unsealed).saturating_add(after.live())
    }

    /// The same of rows and inodes.
    fn is_without_inodes(&self, sizes: &Sizes, after: &Tree) -> bool
        ensures { result ≡ nat_lt (sizes.now.inodes - 1) (len after.now + calls.unsealed_rows self.now.unsealed) }
    {
        u128::from(sizes.inodes.saturating_sub(1))
            < unsealed_rows(&self.unsealed).saturating_add(after.len() as u128)
    }

    /// The streams that are sealed before an update enters its own: those that it forces, and its own, where that is told.
    fn sealed_before(&self, stream: u8, update: &Update, own: bool) -> Result<Vec<u8>, NoMemory>
        ensures those { IfOk result (λ all. all.items ≡ filter (λ r. not (r == stream) && list_any (λ e. e.0 == r && meets e.1.0 update.now) self.now.unsealed) streams
            ++ (if own && is_open self.now.unsealed stream then stream ∷ [] else [])) }
        ensures few { IfOk result (λ all. length all.items ≤ 65) }
    {
        let streams = streams_below(self.alloc, STREAMS)?;
        let all = forced(self.alloc, &self.unsealed, stream, update, &streams)?;
        let own = self.seals_own(stream, own);
        with_own(all, stream, own)
    }

    /// Whether the own stream is sealed, where a limit says so.
    fn seals_own(&self, stream: u8, own: bool) -> bool
        ensures { result ≡ (own && is_open self.now.unsealed stream) }
    {
        own && is_open(&self.unsealed, stream)
    }

    /// What an update that enters a stream does.
    pub(crate) fn entering(
        &self,
        sizes: &Sizes,
        stream: u8,
        update: &Update,
    ) -> Result<Entering, NoMemory>
        requires { IsTrue (applies self.now.tree update.now) }
        ensures after { IfOk result (λ e. e.after ≡ apply self.now.tree update.now) }
        ensures charge { IfOk result (λ e. e.charge ≡ calls.charge self.now.tree update.now) }
        ensures steps { IfOk result (λ e. map Seal e.sealed.items ++ Enter stream (update.now, calls.charge self.now.tree update.now) ∷ []
            ≡ calls.call_steps sizes.now self.now.tree self.now.unsealed (calls.Accepted stream update.now)) }
        ensures few { IfOk result (λ e. length e.sealed.items ≤ 65) }
    {
        let mut after = self.tree.copy(self.alloc)?;
        after.apply(update)?;
        let charge = charge(&self.tree, update, &after);
        let own = self.is_over(sizes, stream, &after, &charge);
        let sealed = self.sealed_before(stream, update, own)?;
        Ok(Entering {
            after,
            charge,
            sealed,
        })
    }

    /// The streams that a command without an update seals.
    pub(crate) fn sealed_by(&self, actor: u8, command: &Command) -> Result<Vec<u8>, NoMemory>
        ensures those { IfOk result (λ all. (sizes : calls.Sizes) → map Seal all.items ≡ calls.call_steps sizes self.now.tree self.now.unsealed (sync_call self.now actor command.now)) }
        ensures few { IfOk result (λ all. length all.items ≤ 65) }
    {
        match command {
            Command::StreamSync => self.sealed_by_stream(stream_in(&self.choices, actor)),
            Command::Fsync { handle } => self.sealed_by_fsync(actor, *handle),
            Command::Sync => self.sealed_by_all(),
            _ => Ok(Vec::new(self.alloc)),
        }
    }

    /// Those that a sync of an actor's handle seals.
    fn sealed_by_fsync(&self, actor: u8, handle: u8) -> Result<Vec<u8>, NoMemory>
        ensures those { IfOk result (λ all. (sizes : calls.Sizes) → map Seal all.items ≡ calls.call_steps sizes self.now.tree self.now.unsealed (file_call (ignores_in self.now.choices actor) (file_in self.now.handles actor handle))) }
        ensures few { IfOk result (λ all. length all.items ≤ 64) }
    {
        if ignores_in(&self.choices, actor) {
            return Ok(Vec::new(self.alloc));
        }
        match file_in(&self.handles, actor, handle) {
            Some(id) => self.sealed_by_file(id),
            None => Ok(Vec::new(self.alloc)),
        }
    }
}
