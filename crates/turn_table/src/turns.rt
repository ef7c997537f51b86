//! The table of the turns, at its start and at its end.
ghost use Rattle.std.specs.Prelude.{◌≡◌, [], ◌∷◌, IfOk, IfErr};
ghost use Rattle.turn_table.specs.declared.view.Place.TheVariants.{Front, Back};
ghost use Rattle.turn_table.specs.Views.{first_view};
ghost use Rattle.turn_table.specs.Told.{CanStart, IsFirst, AllEnded, ClosesOver};

use crate::naming::{Counted, EntryOf, Written};
use crate::view::{Firsts, Place, TurnRule, View};
use crate::waits::Sleepers;
use atomic_table::{Refused, Seat, Table};
use std::alloc::Global;
use std::snapshot::Snapshot;

/// A thread's right to step at the turns, with what it knows of them.
pub type TurnSeat<F, B> = Seat<Place<F, B>, View<F, B, EntryOf<F>>>;

/// Two values, each of which one seat holds at a time.
///
/// Of the four words of its table, word 0 is 1 while the front turn is held and word 2 while the
/// back turn is, and 0 else; word 1 is the number of entries, and word 3 that of written batches.
/// Slot 0 is the front value's, and slot 1 the back's.
pub struct Turns<F: Counted, B: Written<Name = F::Name>> {
    /// The words and slots.
    pub table: Table<Place<F, B>, View<F, B, EntryOf<F>>, Firsts<F, B>, TurnRule, Global>,
    /// Who sleeps until the front turn is given back.
    pub(crate) front_sleepers: Sleepers,
    /// Who sleeps until the back turn is given back.
    pub(crate) back_sleepers: Sleepers,
    ghost sized: { (table.shared.table_id.words ≡ 4) × (table.shared.table_id.slots ≡ 2) },
}

/// There was no memory. Both values come back.
#[derive(Drop)]
pub struct NewFault<F, B> {
    /// The front value, as it was given.
    pub front: F,
    /// The back value, as it was given.
    pub back: B,
}

/// Both values side by side.
fn in_slots<F, B>(alloc: Global, front: F, back: B) -> Result<Vec<Place<F, B>>, NewFault<F, B>>
    ensures ok { IfOk result (λ slots. slots.items ≡ Front front ∷ Back back ∷ []) }
    ensures err { IfErr result (λ fault. (fault.front ≡ front) × (fault.back ≡ back)) }
{
    let Ok(mut slots) = Vec::with_capacity(alloc, 2) else {
        return Err(NewFault { front, back });
    };
    match slots.push(Place::Front(front)) {
        Ok(()) => (),
        Err(_) => unreachable!(),
    }
    match slots.push(Place::Back(back)) {
        Ok(()) => (),
        Err(_) => unreachable!(),
    }
    Ok(slots)
}

/// The two values come out of the slots that got no table.
fn out_of_slots<F, B>(mut slots: Vec<Place<F, B>>) -> NewFault<F, B>
    requires { (f : F) × (b : B) × (slots.items ≡ Front f ∷ Back b ∷ []) }
    ensures { slots.items ≡ Front result.front ∷ Back result.back ∷ [] }
{
    let second = slots.pop();
    let first = slots.pop();
    slots.destroy_empty();
    match (first, second) {
        (Some(Place::Front(front)), Some(Place::Back(back))) => NewFault { front, back },
        _ => unreachable!(),
    }
}

/// The value in the front slot.
fn front_in<F, B>(place: Place<F, B>) -> F
    requires { (f : F) × (place ≡ Front f) }
    ensures { place ≡ Front result }
{
    match place {
        Place::Front(front) => front,
        _ => unreachable!(),
    }
}

/// The value in the back slot.
fn back_in<F, B>(place: Place<F, B>) -> B
    requires { (b : B) × (place ≡ Back b) }
    ensures { place ≡ Back result }
{
    match place {
        Place::Back(back) => back,
        _ => unreachable!(),
    }
}

impl<F: Counted, B: Written<Name = F::Name>> Turns<F, B> {
    /// The turns over two values, with their first seat, which gives the others theirs.
    ///
    /// For want of memory both values come back.
    pub fn new(
        alloc: Global,
        front: F,
        back: B,
    ) -> Result<(Turns<F, B>, TurnSeat<F, B>), NewFault<F, B>>
        requires { CanStart F.means B.means front back }
        ensures firsts { IfOk result (λ new. IsFirst new.0.table.shared.key front back) }
        ensures own { IfOk result (λ new. new.1.table_id ≡ new.0.table.shared.table_id) }
        ensures seat { IfOk result (λ new. new.1.me ≡ (first_view F.means B.means front back, [])) }
        ensures err { IfErr result (λ fault. (fault.front ≡ front) × (fault.back ≡ back)) }
    {
        let words = [0, front.count(), 0, back.count()];
        let firsts = Firsts {
            front: Snapshot::of(&front),
            back: Snapshot::of(&back),
        };
        let slots = in_slots(alloc, front, back)?;
        match Table::new(alloc, &words, slots, &firsts) {
            Ok((table, seat)) => Ok((
                Turns {
                    table,
                    front_sleepers: Sleepers::new(),
                    back_sleepers: Sleepers::new(),
                },
                seat,
            )),
            Err(Refused { slots }) => Err(out_of_slots(slots)),
        }
    }

    /// Both values, where the seats of all callers ended in the first one. No turn is held then.
    pub fn close(self, seat: TurnSeat<F, B>) -> (F, B)
        requires own { seat.table_id ≡ self.table.shared.table_id }
        requires ended { AllEnded seat.me.0 }
        ensures { ClosesOver F.means F.Name.caller B.means self.table.shared.key seat.me.0 result }
    {
        let Turns {
            table,
            front_sleepers: _,
            back_sleepers: _,
        } = self;
        let mut closed = table.close_with(seat);
        let front = closed.take(0);
        let back = closed.take(1);
        closed.free();
        (front_in(front), back_in(back))
    }
}
