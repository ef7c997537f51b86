//! The tree of a cut: what is left of a history where only the first so many seals were kept.
ghost use Rattle.std.specs.Prelude.{◌≡◌, IfOk};
ghost use Rattle.stream_cuts.specs.Streams.{no_counts, entered, counts_after};
ghost use Rattle.stream_cuts.specs.Cuts.{kept, seals, cut_of, cut_at};
ghost use Rattle.stream_cuts.specs.States.{state_at, AllApply};
ghost use Rattle.tree_model.specs.Updates.{apply};
ghost use Rattle.tree_model.specs.Laws.{Applies};
ghost use Rattle.plain_model.specs.Steps.{steps_of};

use ccfs_base::NoMemory;
use std::alloc::Global;
use tree_model::{Tree, Update};

/// One step of a history.
#[derive(Drop)]
pub enum Step {
    /// An update enters a stream.
    Enter {
        /// The stream.
        stream: u8,
        /// The update.
        update: Update,
    },
    /// A stream is sealed.
    Seal {
        /// The stream.
        stream: u8,
    },
}

/// How many updates of a stream the steps have.
fn count_of(steps: &[Step], stream: u8) -> u64
    ensures { result ≡ counts_after no_counts (entered (steps_of steps.now)) stream }
{
    let mut count = 0;
    for step in steps {
        if let Step::Enter {
            stream: of,
            update: _,
        } = step
        {
            if *of == stream {
                count += 1;
            }
        }
    }
    count
}

/// The seals of the steps, in their order: each a stream, and how many updates it had by then.
pub fn seal_numbers(alloc: Global, steps: &[Step]) -> Result<Vec<(u8, u64)>, NoMemory>
    ensures { IfOk result (λ all. all.items ≡ seals (steps_of steps.now)) }
{
    let mut all = Vec::new(alloc);
    for i in 0..steps.len() {
        if let Step::Seal { stream } = &steps[i] {
            all.push((*stream, count_of(&steps[..i], *stream)))?;
        }
    }
    Ok(all)
}

/// How many updates of a stream are kept by the cut that these seals make.
fn number_in(seals: &[(u8, u64)], stream: u8) -> u64
    ensures { result ≡ cut_of no_counts seals.now stream }
{
    let mut kept = 0;
    for (of, number) in seals {
        if *of == stream {
            kept = *number;
        }
    }
    kept
}

/// The tree of the cut after the first n seals: the opening tree, and the updates that the cut keeps, in their order.
pub fn tree_of_cut(alloc: Global, opening: &Tree, steps: &[Step], n: u64) -> Result<Tree, NoMemory>
    requires { AllApply Applies apply opening.now (kept (entered (steps_of steps.now)) (cut_at (steps_of steps.now) n)) }
    ensures { IfOk result (λ tree. tree ≡ state_at apply opening.now (steps_of steps.now) n) }
{
    let mut seals = seal_numbers(alloc, steps)?;
    seals.truncate(n as usize);
    let mut tree = opening.copy(alloc)?;
    for i in 0..steps.len() {
        if let Step::Enter { stream, update } = &steps[i] {
            if count_of(&steps[..i], *stream) < number_in(&seals, *stream) {
                tree.apply(update)?;
            }
        }
    }
    Ok(tree)
}
