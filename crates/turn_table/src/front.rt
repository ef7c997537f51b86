//! The front turn: to take it, to put its value back with more entries, and to give it back as it
//! was.
ghost use Rattle.std.specs.Prelude.{◌≡◌, ◌∷◌, IfSome, IfNone};
ghost use Rattle.atomic_table.specs.Table.{rest};
ghost use Rattle.turn_table.specs.declared.view.Place.TheVariants.{Empty};
ghost use Rattle.turn_table.specs.declared.view.FrontPhase.TheVariants.{Away};
ghost use Rattle.turn_table.specs.Views.{away, met_front};
ghost use Rattle.turn_table.specs.Rule.{IsCaller};
ghost use Rattle.turn_table.specs.Told.{ShowsFront, TookFront, TookFrontLate, LaidFront, EnteredFront, HasFront, Adds, HandsOver, KeepsFrontFault, IsSameFront, KeepsMine};

use crate::naming::{Counted, Written};
use crate::plays::{GiveFront, StoreCalls, TakeFront};
use crate::turns::{TurnSeat, Turns};
use crate::view::Place;
use std::sync::Wait;

impl<F: Counted, B: Written<Name = F::Name>> Turns<F, B> {
    /// Takes the front turn where this very try finds it free. It never waits.
    ///
    /// `None` says that this try found the turn held. The seat has then met it held once more, and
    /// all else is as before.
    pub fn try_front(&self, seat: &mut TurnSeat<F, B>) -> Option<F>
        requires own { seat.old.table_id ≡ self.now.table.shared.table_id }
        requires free { seat.old.me.0.front ≡ Away }
        requires caller { IsCaller seat.old.me.0.who }
        ensures own { (seat.new.table_id ≡ seat.old.table_id) × (seat.new.id ≡ seat.old.id) }
        ensures taken { IfSome result (λ f. TookFront F.means seat.old.me f seat.new.me) }
        ensures shows { IfSome result (λ f. ShowsFront F.means F.Name.caller seat.old.me.0 f) }
        ensures busy { IfNone result (seat.new.me ≡ (met_front seat.old.me.0, seat.old.me.1)) }
    {
        if self
            .table
            .shared
            .compare_exchange::<TakeFront>(seat, 0, 0, 1)
            != 0
        {
            return None;
        }
        match self.table.shared.exchange(seat, 0, Place::Empty) {
            Place::Front(front) => Some(front),
            _ => unreachable!(),
        }
    }

    /// Takes the front turn. It may wait: it yields where it finds the turn held, and later sleeps
    /// until the turn is given back.
    pub fn take_front<R: Wait>(&self, rt: &R, seat: &mut TurnSeat<F, B>) -> F
        requires own { seat.old.table_id ≡ self.now.table.shared.table_id }
        requires free { seat.old.me.0.front ≡ Away }
        requires caller { IsCaller seat.old.me.0.who }
        ensures own { (seat.new.table_id ≡ seat.old.table_id) × (seat.new.id ≡ seat.old.id) }
        ensures taken { TookFrontLate F.means seat.old.me result seat.new.me }
        ensures shows { ShowsFront F.means F.Name.caller seat.old.me.0 result }
    {
        let mut meetings = 0u64;
        for _ in rt.forever() {
            if let Some(front) = self.try_front(seat) {
                return front;
            }
            self.front_sleepers
                .pause(rt, &self.table.shared, 0, meetings);
            meetings = meetings.saturating_add(1);
        }
        unreachable!()
    }

    /// The value goes into the slot of the seat that has the front turn.
    fn lay_front(&self, seat: &mut TurnSeat<F, B>, front: F)
        requires own { seat.old.table_id ≡ self.now.table.shared.table_id }
        requires out { seat.old.me.1 ≡ (0, Empty) ∷ rest seat.old.me.1 }
        ensures own { (seat.new.table_id ≡ seat.old.table_id) × (seat.new.id ≡ seat.old.id) }
        ensures laid { LaidFront seat.old.me front seat.new.me }
    {
        match self.table.shared.exchange(seat, 0, Place::Front(front)) {
            Place::Empty => (),
            _ => unreachable!(),
        }
    }

    /// Gives the front turn back with a value to which entries of the seat's caller came, or none,
    /// and stores the number of entries. A seat that has the back turn too may have handed more
    /// batches over. A seat that has both turns gives back first the one that it took last.
    pub fn put_front(&self, seat: &mut TurnSeat<F, B>, front: F)
        requires own { seat.old.table_id ≡ self.now.table.shared.table_id }
        requires held { HasFront seat.old.me }
        requires adds { Adds F.means F.Name.caller seat.old.me.0 front }
        requires hands { HandsOver F.means seat.old.me.0 front }
        requires fault { KeepsFrontFault F.means seat.old.me.0 front }
        requires kin { F.means.kin self.now.table.shared.key.front.value front }
        ensures own { (seat.new.table_id ≡ seat.old.table_id) × (seat.new.id ≡ seat.old.id) }
        ensures entered { EnteredFront F.means seat.old.me front seat.new.me }
        ensures mine { KeepsMine F.means F.Name.caller self.now.table.shared.key seat.new.me }
    {
        let count = front.count();
        self.lay_front(seat, front);
        self.table.shared.store::<StoreCalls>(seat, 1, count);
        self.table.shared.store::<GiveFront>(seat, 0, 0);
        self.front_sleepers.wake(&self.table.shared, 0);
    }

    /// Gives the front turn back with its value as it was taken. It stores no number.
    pub fn return_front(&self, seat: &mut TurnSeat<F, B>, unchanged: F)
        requires own { seat.old.table_id ≡ self.now.table.shared.table_id }
        requires held { HasFront seat.old.me }
        requires same { IsSameFront F.means seat.old.me.0 unchanged }
        requires kin { F.means.kin self.now.table.shared.key.front.value unchanged }
        ensures own { (seat.new.table_id ≡ seat.old.table_id) × (seat.new.id ≡ seat.old.id) }
        ensures away { seat.new.me ≡ (away seat.old.me.0, rest seat.old.me.1) }
    {
        self.lay_front(seat, unchanged);
        self.table.shared.store::<GiveFront>(seat, 0, 0);
        self.front_sleepers.wake(&self.table.shared, 0);
    }
}
