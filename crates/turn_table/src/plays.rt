//! What each step on the table tells the seat that makes it.
use crate::naming::{Counted, EntryOf, Written};
use crate::view::{Place, View};
use atomic_table::{Join, Play, Split};

/// Takes the front turn, or finds it held.
pub struct TakeFront;

impl<F: Counted, B> Play<Place<F, B>, View<F, B, EntryOf<F>>> for TakeFront {
    ghost use Rattle.turn_table.specs.Told.{took_front};

    ghost then = { λ _. took_front F.means F.Name.caller };
}

/// Stores the number of entries of the front value in hand.
pub struct StoreCalls;

impl<F: Counted, B> Play<Place<F, B>, View<F, B, EntryOf<F>>> for StoreCalls {
    ghost use Rattle.turn_table.specs.Told.{stored_front};

    ghost then = { λ _. stored_front F.means F.Name.caller };
}

/// Gives the front turn back.
pub struct GiveFront;

impl<F: Counted, B> Play<Place<F, B>, View<F, B, EntryOf<F>>> for GiveFront {
    ghost use Rattle.turn_table.specs.Told.{gave_front};

    ghost then = { λ _. gave_front };
}

/// Takes the back turn, or finds it held.
pub struct TakeBack;

impl<F: Counted, B: Written<Name = F::Name>> Play<Place<F, B>, View<F, B, EntryOf<F>>>
    for TakeBack {
    ghost use Rattle.turn_table.specs.Told.{took_back};

    ghost then = { λ _. took_back B.means };
}

/// Stores the number of written batches of the back value in hand.
pub struct StoreDurable;

impl<F: Counted, B: Written<Name = F::Name>> Play<Place<F, B>, View<F, B, EntryOf<F>>>
    for StoreDurable {
    ghost use Rattle.turn_table.specs.Told.{stored_back};

    ghost then = { λ _. stored_back B.means };
}

/// Gives the back turn back.
pub struct GiveBack;

impl<F: Counted, B> Play<Place<F, B>, View<F, B, EntryOf<F>>> for GiveBack {
    ghost use Rattle.turn_table.specs.Told.{gave_back};

    ghost then = { λ _. gave_back };
}

/// Reads how many entries there are.
pub struct LookAtCalls;

impl<F: Counted, B> Play<Place<F, B>, View<F, B, EntryOf<F>>> for LookAtCalls {
    ghost use Rattle.turn_table.specs.Told.{looked_at_calls};

    ghost then = { λ _. looked_at_calls };
}

/// Reads how many batches are written.
pub struct LookAtDurable;

impl<F: Counted, B> Play<Place<F, B>, View<F, B, EntryOf<F>>> for LookAtDurable {
    ghost use Rattle.turn_table.specs.Told.{looked_at_durable};

    ghost then = { λ _. looked_at_durable };
}

/// Has seen what a join set aside.
pub struct Listen;

impl<F: Counted, B> Play<Place<F, B>, View<F, B, EntryOf<F>>> for Listen {
    ghost use Rattle.turn_table.specs.Told.{listened};

    ghost then = { λ _. listened };
}

/// A seat for the next caller.
pub struct SeatCaller;

impl<F, B, E> Split<View<F, B, E>> for SeatCaller {
    ghost use Rattle.turn_table.specs.Views.{gives_seat, next_caller};

    ghost left = { gives_seat };

    ghost right = { next_caller };
}

/// A seat with no caller, which has seen as much.
pub struct SeatNote;

impl<F, B, E> Split<View<F, B, E>> for SeatNote {
    ghost use Rattle.turn_table.specs.Views.{noted};

    ghost left = { λ v. v };

    ghost right = { noted };
}

/// One seat ends in another, which sets aside what it has seen.
pub struct Merge;

impl<F, B, E> Join<View<F, B, E>> for Merge {
    ghost use Rattle.turn_table.specs.Views.{joined, spent_view};

    ghost both = { joined };

    ghost spent = { spent_view };
}
