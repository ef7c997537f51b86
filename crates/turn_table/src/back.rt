//! The back turn: to take it, to put its value back with more batches written, and to give it back
//! as it was.
ghost use Rattle.std.specs.Prelude.{◌≡◌, ◌∷◌, IfSome, IfNone};
ghost use Rattle.atomic_table.specs.Table.{rest};
ghost use Rattle.turn_table.specs.declared.view.Place.TheVariants.{Empty};
ghost use Rattle.turn_table.specs.declared.view.BackPhase.TheVariants.{Rests};
ghost use Rattle.turn_table.specs.Views.{resting, met_back};
ghost use Rattle.turn_table.specs.Rule.{IsCaller};
ghost use Rattle.turn_table.specs.Told.{ShowsBack, TookBack, TookBackLate, LaidBack, WroteBack, HasBack, WritesOn, KeepsBackFault, IsSameBack};

use crate::naming::{Counted, Written};
use crate::plays::{GiveBack, StoreDurable, TakeBack};
use crate::turns::{TurnSeat, Turns};
use crate::view::Place;
use std::sync::Wait;

impl<F: Counted, B: Written<Name = F::Name>> Turns<F, B> {
    /// Takes the back turn where this very try finds it free. It never waits.
    ///
    /// `None` says that this try found the turn held. The seat has then met it held once more, and
    /// all else is as before.
    pub fn try_back(&self, seat: &mut TurnSeat<F, B>) -> Option<B>
        requires own { seat.old.table_id ≡ self.now.table.shared.table_id }
        requires free { seat.old.me.0.back ≡ Rests }
        requires caller { IsCaller seat.old.me.0.who }
        ensures own { (seat.new.table_id ≡ seat.old.table_id) × (seat.new.id ≡ seat.old.id) }
        ensures taken { IfSome result (λ b. TookBack B.means seat.old.me b seat.new.me) }
        ensures shows { IfSome result (λ b. ShowsBack B.means seat.old.me.0 b) }
        ensures busy { IfNone result (seat.new.me ≡ (met_back seat.old.me.0, seat.old.me.1)) }
    {
        if self
            .table
            .shared
            .compare_exchange::<TakeBack>(seat, 2, 0, 1)
            != 0
        {
            return None;
        }
        match self.table.shared.exchange(seat, 1, Place::Empty) {
            Place::Back(back) => Some(back),
            _ => unreachable!(),
        }
    }

    /// Takes the back turn. It may wait: it yields where it finds the turn held, and later sleeps
    /// until the turn is given back.
    pub fn take_back<R: Wait>(&self, rt: &R, seat: &mut TurnSeat<F, B>) -> B
        requires own { seat.old.table_id ≡ self.now.table.shared.table_id }
        requires free { seat.old.me.0.back ≡ Rests }
        requires caller { IsCaller seat.old.me.0.who }
        ensures own { (seat.new.table_id ≡ seat.old.table_id) × (seat.new.id ≡ seat.old.id) }
        ensures taken { TookBackLate B.means seat.old.me result seat.new.me }
        ensures shows { ShowsBack B.means seat.old.me.0 result }
    {
        let mut meetings = 0u64;
        for _ in rt.forever() {
            if let Some(back) = self.try_back(seat) {
                return back;
            }
            self.back_sleepers
                .pause(rt, &self.table.shared, 2, meetings);
            meetings = meetings.saturating_add(1);
        }
        unreachable!()
    }

    /// The value goes into the slot of the seat that has the back turn.
    fn lay_back(&self, seat: &mut TurnSeat<F, B>, back: B)
        requires own { seat.old.table_id ≡ self.now.table.shared.table_id }
        requires out { seat.old.me.1 ≡ (1, Empty) ∷ rest seat.old.me.1 }
        ensures own { (seat.new.table_id ≡ seat.old.table_id) × (seat.new.id ≡ seat.old.id) }
        ensures laid { LaidBack seat.old.me back seat.new.me }
    {
        match self.table.shared.exchange(seat, 1, Place::Back(back)) {
            Place::Empty => (),
            _ => unreachable!(),
        }
    }

    /// Gives the back turn back with a value that wrote more of the batches that are due to it, or
    /// none, and stores how many it wrote. It may have heard of as much of the history as the seat
    /// has seen. A seat that has both turns gives back first the one that it took last.
    pub fn put_back(&self, seat: &mut TurnSeat<F, B>, back: B)
        requires own { seat.old.table_id ≡ self.now.table.shared.table_id }
        requires held { HasBack seat.old.me }
        requires writes { WritesOn B.means seat.old.me.0 back }
        requires fault { KeepsBackFault B.means seat.old.me.0 back }
        requires kin { B.means.kin self.now.table.shared.key.back.value back }
        ensures own { (seat.new.table_id ≡ seat.old.table_id) × (seat.new.id ≡ seat.old.id) }
        ensures wrote { WroteBack B.means seat.old.me back seat.new.me }
        ensures known { seat.new.me.0.known ≡ B.means.written back }
    {
        let written = back.count();
        self.lay_back(seat, back);
        self.table.shared.store::<StoreDurable>(seat, 3, written);
        self.table.shared.store::<GiveBack>(seat, 2, 0);
        self.back_sleepers.wake(&self.table.shared, 2);
    }

    /// Gives the back turn back with its value as it was taken, but for the batches that were
    /// handed over since. It stores no number.
    pub fn return_back(&self, seat: &mut TurnSeat<F, B>, unchanged: B)
        requires own { seat.old.table_id ≡ self.now.table.shared.table_id }
        requires held { HasBack seat.old.me }
        requires same { IsSameBack B.means seat.old.me.0 unchanged }
        requires kin { B.means.kin self.now.table.shared.key.back.value unchanged }
        ensures own { (seat.new.table_id ≡ seat.old.table_id) × (seat.new.id ≡ seat.old.id) }
        ensures rests { seat.new.me ≡ (resting seat.old.me.0, rest seat.old.me.1) }
    {
        self.lay_back(seat, unchanged);
        self.table.shared.store::<GiveBack>(seat, 2, 0);
        self.back_sleepers.wake(&self.table.shared, 2);
    }
}
