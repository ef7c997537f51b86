//! Seats come from one another and end in one another, and read the two counts.
ghost use Rattle.std.specs.Prelude.{◌≡◌, ◌≤◌, [], length};
ghost use mathlib.Core.List.{IsPrefix};
ghost use Rattle.turn_table.specs.Views.{told, informed, hears, newcomer, split_who, after_split, joined};
ghost use Rattle.turn_table.specs.Told.{IsPart, IsFree, CanSplit};

use crate::naming::{Counted, Written};
use crate::plays::{Listen, LookAtCalls, LookAtDurable, Merge, SeatCaller, SeatNote};
use crate::turns::{TurnSeat, Turns};

impl<F: Counted, B: Written<Name = F::Name>> Turns<F, B> {
    /// How many entries there are, by one load. It is no less than the seat has seen, or was told
    /// before.
    pub fn load_calls(&self, seat: &mut TurnSeat<F, B>) -> u64
        requires own { seat.old.table_id ≡ self.now.table.shared.table_id }
        ensures own { (seat.new.table_id ≡ seat.old.table_id) × (seat.new.id ≡ seat.old.id) }
        ensures told { seat.new.me ≡ (told seat.old.me.0 result, seat.old.me.1) }
        ensures least { (seat.old.me.0.counted ≤ result) × (length seat.old.me.0.seen ≤ result) }
    {
        self.table.shared.load::<LookAtCalls>(seat, 1)
    }

    /// How many batches are written, by one load. It is no less than the seat was told before.
    pub fn load_durable(&self, seat: &mut TurnSeat<F, B>) -> u64
        requires own { seat.old.table_id ≡ self.now.table.shared.table_id }
        ensures own { (seat.new.table_id ≡ seat.old.table_id) × (seat.new.id ≡ seat.old.id) }
        ensures informed { seat.new.me ≡ (informed seat.old.me.0 result, seat.old.me.1) }
        ensures least { seat.old.me.0.known ≤ result }
    {
        self.table.shared.load::<LookAtDurable>(seat, 3)
    }

    /// A seat for this caller, or for a note, which has seen as much as this seat. The first seat
    /// gives callers theirs, from 0 on, each once; each seat that isn't spent gives notes theirs.
    pub fn split(&self, seat: &mut TurnSeat<F, B>, caller: Option<u8>) -> TurnSeat<F, B>
        requires own { seat.old.table_id ≡ self.now.table.shared.table_id }
        requires can { CanSplit caller seat.old.me.0.who }
        ensures own { (seat.new.table_id ≡ seat.old.table_id) × (seat.new.id ≡ seat.old.id) }
        ensures theirs { result.table_id ≡ seat.old.table_id }
        ensures seat { seat.new.me ≡ (after_split caller seat.old.me.0, seat.old.me.1) }
        ensures made { result.me ≡ (newcomer (split_who caller) seat.old.me.0, []) }
    {
        match caller {
            Some(_) => self.table.shared.split_seat::<SeatCaller>(seat),
            None => self.table.shared.split_seat::<SeatNote>(seat),
        }
    }

    /// The other seat ends in this one, which has then seen and knows what either did. The first
    /// seat can't end, and the other holds no turn.
    pub fn join(&self, seat: &mut TurnSeat<F, B>, other: TurnSeat<F, B>)
        requires own { seat.old.table_id ≡ self.now.table.shared.table_id }
        requires theirs { other.table_id ≡ self.now.table.shared.table_id }
        requires part { IsPart other.me.0.who }
        requires free { IsFree other.me }
        ensures own { (seat.new.table_id ≡ seat.old.table_id) × (seat.new.id ≡ seat.old.id) }
        ensures joined { seat.new.me ≡ (hears (joined seat.old.me.0 other.me.0), seat.old.me.1) }
        ensures seen { IsPrefix seat.old.me.0.seen seat.new.me.0.seen }
        ensures heard { IsPrefix other.me.0.seen seat.new.me.0.seen }
    {
        self.table.shared.join_seat::<Merge>(seat, other);
        self.table.shared.load::<Listen>(seat, 1);
    }
}
