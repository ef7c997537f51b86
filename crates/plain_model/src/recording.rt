//! Histories of calls, as they are recorded.
ghost use Rattle.std.specs.FinMap.{entries};
ghost use Rattle.std.specs.Prelude.{◌≡◌, ◌++◌, [], suc, IsTrue, IfOk, OnOk, map, None, Some};
ghost use Rattle.stream_cuts.specs.Streams as streams;
ghost use Rattle.stream_cuts.specs.Cuts.{seals};
ghost use Rattle.tree_model.specs.Rows.{alone};
ghost use Rattle.tree_cuts.specs.Calls.{plain};
ghost use Rattle.history_model.specs.Histories.{start, top_serial, steps_by, steps_in, tree_at};
ghost use Rattle.plain_model.specs.Bounds.{FilesFit, applies_if};
ghost use Rattle.plain_model.specs.Steps.{steps_of};
ghost use Rattle.plain_model.specs.Recorded.{called, may_call, entered_step};

use super::cutting::{Step, seal_numbers, tree_of_cut};
use super::keeping::{Sizes, State};
use ccfs_base::{Command, NoMemory};
use std::alloc::Global;
use std::marker::Model;
use tree_model::{Entry, Tree};

/// A history of calls on a tree of opening: what each was answered and changed, what they left, and what they sealed. A
/// contract sees the numbers of the image, the tree of opening and the entries.
#[derive(Drop)]
pub struct History {
    alloc: Global,
    sizes: Sizes,
    opening: Tree,
    state: State,
    entries: Vec<Entry>,
    steps: Vec<Step>,
}

impl Model for History {
    ghost use Rattle.plain_model.specs.Recorded as recorded;
    ghost use Rattle.plain_model.specs.Codes.{recorded_code};

    ghost Value = { recorded.Recorded };

    ghost coded = { recorded_code };

    ghost view = { λ h. record { sizes = h.sizes; opening = h.opening; entries = h.entries.items } };

    ghost invariant = { λ h. recorded.IsRecorded h.sizes h.opening h.state h.entries.items h.steps.items };
}

/// Puts the step of an entry's update last, if it has one.
#[tactic(auto, using(crate::proofs::Records::steps_joined))]
fn push_entered(steps: &mut Vec<Step>, entry: &Entry) -> Result<(), NoMemory>
    ensures { OnOk result (steps_of steps.new.items ≡ steps_of steps.old.items ++ entered_step entry.now.stream entry.now.update) }
{
    if let Some(update) = &entry.update {
        let update = update.copy()?;
        steps.push(Step::Enter {
            stream: entry.stream,
            update,
        })?;
    }
    Ok(())
}

/// Puts seals of these streams last.
#[tactic(auto, using(crate::proofs::Records::seal_pushed))]
fn push_seals(steps: &mut Vec<Step>, sealed: &[u8]) -> Result<(), NoMemory>
    ensures { OnOk result (steps_of steps.new.items ≡ steps_of steps.old.items ++ map streams.Seal sealed.now) }
{
    for stream in sealed {
        steps.push(Step::Seal { stream: *stream })?;
    }
    Ok(())
}

impl State {
    /// The streams that a call seals before its update enters, if it has one.
    fn sealed_for(&self, sizes: &Sizes, entry: &Entry) -> Result<Vec<u8>, NoMemory>
        requires { IsTrue (applies_if self.now.tree entry.now.update) }
        ensures { IfOk result (λ all. map streams.Seal all.items ++ entered_step entry.now.stream entry.now.update ≡ plain (steps_by sizes.now self.now entry.now)) }
    {
        match &entry.update {
            Some(update) => Ok(self.entering(sizes, entry.stream, update)?.sealed),
            None => self.sealed_by(entry.actor, &entry.command),
        }
    }
}

impl History {
    /// No calls on this tree of opening, of which `next` is the serial one above the greatest.
    pub fn on(alloc: Global, sizes: Sizes, opening: Tree, next: u32) -> Result<History, NoMemory>
        requires files { FilesFit opening }
        requires next { next ≡ suc (top_serial (entries opening)) }
        ensures { IfOk result (λ history. history ≡ record { sizes = sizes; opening = opening; entries = [] }) }
    {
        opening.is_a_tree();
        let tree = opening.copy(alloc)?;
        Ok(History {
            alloc,
            sizes,
            opening,
            state: State::of(alloc, tree, next),
            entries: Vec::new(alloc),
            steps: Vec::new(alloc),
        })
    }

    /// No calls on the root alone, never changed.
    #[tactic(auto, using(crate::proofs::Records::alone_fits, crate::proofs::Records::alone_next))]
    pub fn on_empty(alloc: Global, sizes: Sizes) -> Result<History, NoMemory>
        ensures { IfOk result (λ history. history ≡ record { sizes = sizes; opening = alone 0; entries = [] }) }
    {
        let opening = Tree::root_alone(alloc)?;
        History::on(alloc, sizes, opening, 1)
    }

    /// The entries of all calls so far, the first one first.
    pub fn entries(&self) -> &[Entry]
        ensures { result.now ≡ self.now.entries }
    {
        self.entries.as_slice()
    }

    /// Whether a call may be made: the actor is below 64, the command is within its bounds, and there are serials and
    /// numbers of seals left.
    pub fn may_call(&self, actor: u8, command: &Command) -> bool
        ensures { result ≡ may_call self.now actor command.now }
    {
        actor < 64
            && command.fits()
            && self.state.next < u32::MAX
            && self.state.seals < u64::MAX - 64
    }

    /// Makes a call. Where memory is wanted, the history is lost.
    pub fn call(self, actor: u8, command: &Command) -> Result<History, NoMemory>
        requires { IsTrue (may_call self actor command.now) }
        ensures { IfOk result (λ history. history ≡ called self actor command.now) }
    {
        let History {
            alloc,
            sizes,
            opening,
            mut state,
            mut entries,
            mut steps,
        } = self;
        let entry = state.entry(&sizes, actor, command)?;
        let sealed = state.sealed_for(&sizes, &entry)?;
        push_seals(&mut steps, &sealed)?;
        push_entered(&mut steps, &entry)?;
        state.leave(&sizes, &entry)?;
        entries.push(entry)?;
        Ok(History {
            alloc,
            sizes,
            opening,
            state,
            entries,
            steps,
        })
    }

    /// The seals so far: each a stream, and how many updates it had by then.
    pub fn seals(&self) -> Result<Vec<(u8, u64)>, NoMemory>
        ensures { IfOk result (λ all. all.items ≡ seals (steps_in self.now.sizes (start self.now.opening) self.now.entries)) }
    {
        seal_numbers(self.alloc, &self.steps)
    }

    /// The tree of the cut after the first n seals.
    pub fn tree_at(&self, n: u64) -> Result<Tree, NoMemory>
        ensures { IfOk result (λ tree. tree ≡ tree_at self.now.sizes (start self.now.opening) self.now.entries n) }
    {
        tree_of_cut(self.alloc, &self.opening, &self.steps, n)
    }
}
