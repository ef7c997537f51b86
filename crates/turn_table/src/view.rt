//! What a seat knows, and the rule of the table.
use crate::naming::{Counted, EntryOf, Written};
use atomic_table::TableRule;
use std::collections::LinkedList;
use std::snapshot::Snapshot;

/// What lies in a slot.
pub enum Place<F, B> {
    /// The front value, while its turn is free.
    Front(F),
    /// The back value, while its turn is free.
    Back(B),
    /// Nothing, while a seat has the value.
    Empty,
}

/// Whose seat it is. The first seat counts the callers that it gave seats to.
pub enum Who {
    /// The first seat, with the number of callers that were given seats.
    First(u64),
    /// The seat of this caller.
    Caller(u64),
    /// The seat of a note, which has no caller.
    Note,
    /// What a join left of a seat.
    Spent,
}

/// The front turn as its seat sees it: a held turn keeps what its value stands for.
pub enum FrontPhase<E> {
    /// The seat doesn't hold it.
    Away,
    /// The seat holds it.
    Holds {
        /// All entries.
        list: LinkedList<E>,
        /// The number of the value's failure, or 0.
        fail: u64,
        /// How many batches were handed over.
        handed: u64,
    },
}

/// The back turn as its seat sees it: a held turn keeps what its value stands for.
pub enum BackPhase<E> {
    /// The seat doesn't hold it.
    Rests,
    /// The seat holds it.
    Writes {
        /// The beginning of the history that the value heard of.
        heard: LinkedList<E>,
        /// How many batches are written.
        written: u64,
        /// The number of the value's failure, or 0.
        fail: u64,
        /// How many batches are due, the written ones among them.
        due: u64,
    },
}

/// A caller whose seat ended in another one, with what that seat knew.
pub struct Ended<E> {
    /// The caller.
    pub caller: u64,
    /// The entries of its calls.
    pub mine: LinkedList<E>,
    /// The beginning of the history that its seat had seen.
    pub seen: LinkedList<E>,
    /// The greatest number of written batches that its seat was told.
    pub known: u64,
    /// A failure that its seat was told, or 0.
    pub failed: u64,
}

/// What a seat knows. It is for proofs alone: no value of it is made.
pub struct View<F, B, E> {
    /// The front value that the turns began with. A spent seat has none.
    pub opening: Option<F>,
    /// The back value that the turns began with. A spent seat has none.
    pub rear: Option<B>,
    /// Whose seat it is.
    pub who: Who,
    /// The callers whose seats ended in it.
    pub ended: LinkedList<Ended<E>>,
    /// What it has of the front turn.
    pub front: FrontPhase<E>,
    /// What it has of the back turn.
    pub back: BackPhase<E>,
    /// The beginning of the history that it has seen.
    pub seen: LinkedList<E>,
    /// What a join set aside until the load behind it: what the other seat had seen.
    pub heard_of: LinkedList<E>,
    /// The entries of its own calls.
    pub mine: LinkedList<E>,
    /// The greatest number of entries that it was told.
    pub counted: u64,
    /// The greatest number of written batches that it was told.
    pub known: u64,
    /// A failure that it was told, or 0.
    pub failed: u64,
    /// How many of its tries found the front turn held.
    pub met_front: u64,
    /// How many of its tries found the back turn held.
    pub met_back: u64,
}

/// The values that the turns began with: the key of their table.
#[derive(Drop)]
pub struct Firsts<F, B> {
    /// The front value.
    pub front: Snapshot<F>,
    /// The back value.
    pub back: Snapshot<B>,
}

/// The rule of the turns, which holds between any two steps.
pub struct TurnRule;

impl<F: Counted, B: Written<Name = F::Name>> TableRule<
    Place<F, B>,
    View<F, B, EntryOf<F>>,
    Firsts<F, B>,
> for TurnRule {
    ghost use Rattle.turn_table.specs.Rule.{Ruled};
    ghost use Rattle.turn_table.specs.Views.{first_view};

    ghost holds = { λ key. Ruled F.means F.Name.caller B.means key.front.value key.back.value };

    ghost first = { λ key. first_view F.means B.means key.front.value key.back.value };
}
