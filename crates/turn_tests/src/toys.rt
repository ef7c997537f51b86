//! A history of numbers and its writer, which the tests share, and what a thread does with them.
ghost use Rattle.std.specs.Prelude.{◌≡◌, ℕ, IfSome};
ghost use Rattle.turn_table.specs.declared.view.Who.TheVariants.{First};
ghost use Rattle.turn_table.specs.Views.{told};
ghost use Rattle.turn_table.specs.Told.{EndsToo, IsIdle};

use std::alloc::Global;
use std::snapshot::Snapshot;
use std::sync::Wait;
use std::thread;
use turn_table::{Counted, Naming, TurnSeat, Turns, Written};

/// One caller's call, with its number among that caller's.
#[derive(Clone, Copy)]
pub struct Call {
    pub caller: u8,
    pub number: u64,
}

pub struct Calls;

impl Naming for Calls {
    type Entry = Call;

    ghost caller = { λ call. call.caller };
}

#[derive(Drop)]
pub struct History {
    pub calls: Vec<Call>,
    pub handed: u64,
}

impl Counted for History {
    type Name = Calls;

    ghost means = { record {
      entries = λ h. h.calls.items;
      fault = λ _. 0;
      handed = λ h. h.handed;
      kin = λ _ _. Unit {0};
    } };

    fn count(&self) -> u64 {
        self.calls.len() as u64
    }

    fn failed(&self) -> u64 {
        0
    }
}

#[derive(Drop)]
pub struct Writer {
    pub heard: Snapshot<Vec<Call>>,
    pub written: u64,
    pub due: u64,
}

impl Written for Writer {
    type Name = Calls;

    ghost means = { record {
      heard = λ w. w.heard.value.items;
      written = λ w. w.written;
      due = λ w. w.due;
      fault = λ _. 0;
      kin = λ _ _. Unit {0};
    } };

    fn count(&self) -> u64 {
        self.written
    }

    fn failed(&self) -> u64 {
        0
    }
}

pub type ToySeat = TurnSeat<History, Writer>;

/// Enters one call. For want of memory nothing is entered.
pub fn post<R: Wait>(rt: &R, turns: &Turns<History, Writer>, seat: &mut ToySeat, call: Call)
    requires own { seat.old.table_id ≡ turns.now.table.shared.table_id }
    requires idle { IsIdle call.caller seat.old.me }
    ensures own { seat.new.table_id ≡ seat.old.table_id }
    ensures idle { IsIdle call.caller seat.new.me }
{
    let mut history = turns.take_front(rt, seat);
    match history.calls.push(call) {
        Ok(()) => turns.put_front(seat, history),
        Err(_) => turns.return_front(seat, history),
    }
}

/// Enters this many calls of one caller.
pub fn post_all<R: Wait>(
    rt: &R,
    turns: &Turns<History, Writer>,
    mut seat: ToySeat,
    caller: u8,
    times: u64,
) -> ToySeat
    requires own { seat.table_id ≡ turns.now.table.shared.table_id }
    requires idle { IsIdle caller seat.me }
    ensures own { result.table_id ≡ seat.table_id }
    ensures idle { IsIdle caller result.me }
{
    for number in 0..times {
        post(rt, turns, &mut seat, Call { caller, number });
    }
    seat
}

/// Waits until there are so many entries.
fn wait_for<R: Wait>(rt: &R, turns: &Turns<History, Writer>, seat: &mut ToySeat, calls: u64)
    requires own { seat.old.table_id ≡ turns.now.table.shared.table_id }
    ensures own { seat.new.table_id ≡ seat.old.table_id }
    ensures told { (n : ℕ) × (seat.new.me ≡ (told seat.old.me.0 n, seat.old.me.1)) }
{
    for _ in rt.forever() {
        if turns.load_calls(seat) >= calls {
            return;
        }
        thread::yield_now();
    }
    unreachable!()
}

/// Holds the back turn until others entered so many calls, then hands a batch over and writes all
/// that is due.
pub fn write_after<R: Wait>(
    rt: &R,
    turns: &Turns<History, Writer>,
    mut seat: ToySeat,
    caller: u8,
    calls: u64,
) -> ToySeat
    requires own { seat.table_id ≡ turns.now.table.shared.table_id }
    requires idle { IsIdle caller seat.me }
    ensures own { result.table_id ≡ seat.table_id }
    ensures idle { IsIdle caller result.me }
{
    let mut writer = turns.take_back(rt, &mut seat);
    wait_for(rt, turns, &mut seat, calls);
    let mut history = turns.take_front(rt, &mut seat);
    history.handed = history.handed.saturating_add(1);
    writer.heard = Snapshot::of(&history.calls);
    writer.due = history.handed;
    turns.put_front(&mut seat, history);
    writer.written = writer.due;
    turns.put_back(&mut seat, writer);
    seat
}

/// An empty history and its writer under the turns, where there is memory.
pub fn start(alloc: Global) -> Option<(Turns<History, Writer>, ToySeat)>
    ensures own { IfSome result (λ made. made.1.table_id ≡ made.0.table.shared.table_id) }
    ensures first { IfSome result (λ made. made.1.me.0.who ≡ First 0) }
{
    let history = History {
        calls: Vec::new(alloc),
        handed: 0,
    };
    let writer = Writer {
        heard: Snapshot::of(&history.calls),
        written: 0,
        due: 0,
    };
    match Turns::new(alloc, history, writer) {
        Ok(made) => Some(made),
        Err(_) => None,
    }
}

/// Seats for the callers 0 to 3.
pub fn seat_four(
    turns: &Turns<History, Writer>,
    first: &mut ToySeat,
) -> (ToySeat, ToySeat, ToySeat, ToySeat)
    requires own { first.old.table_id ≡ turns.now.table.shared.table_id }
    requires first { first.old.me.0.who ≡ First 0 }
    ensures own { first.new.table_id ≡ first.old.table_id }
    ensures own_0 { result.0.table_id ≡ first.old.table_id }
    ensures own_1 { result.1.table_id ≡ first.old.table_id }
    ensures own_2 { result.2.table_id ≡ first.old.table_id }
    ensures own_3 { result.3.table_id ≡ first.old.table_id }
    ensures first { first.new.me.0.who ≡ First 4 }
    ensures idle_01 { IsIdle 0 result.0.me × IsIdle 1 result.1.me }
    ensures idle_23 { IsIdle 2 result.2.me × IsIdle 3 result.3.me }
{
    let a = turns.split(first, Some(0));
    let b = turns.split(first, Some(1));
    let c = turns.split(first, Some(2));
    let d = turns.split(first, Some(3));
    (a, b, c, d)
}

/// The caller's seat ends in the first one.
fn end(turns: &Turns<History, Writer>, first: &mut ToySeat, seat: ToySeat, caller: u8)
    requires own { first.old.table_id ≡ turns.now.table.shared.table_id }
    requires theirs { seat.table_id ≡ turns.now.table.shared.table_id }
    requires idle { IsIdle caller seat.me }
    ensures own { first.new.table_id ≡ first.old.table_id }
    ensures who { first.new.me.0.who ≡ first.old.me.0.who }
    ensures ended { EndsToo caller first.old.me.0.ended first.new.me.0.ended }
{
    turns.join(first, seat);
}

/// Both values, once the seats of the callers 0 to 3 are back.
pub fn finish(
    turns: Turns<History, Writer>,
    mut first: ToySeat,
    seats: (ToySeat, ToySeat, ToySeat, ToySeat),
) -> (History, Writer)
    requires own { first.table_id ≡ turns.table.shared.table_id }
    requires own_0 { seats.0.table_id ≡ turns.table.shared.table_id }
    requires own_1 { seats.1.table_id ≡ turns.table.shared.table_id }
    requires own_2 { seats.2.table_id ≡ turns.table.shared.table_id }
    requires own_3 { seats.3.table_id ≡ turns.table.shared.table_id }
    requires first { first.me.0.who ≡ First 4 }
    requires idle_01 { IsIdle 0 seats.0.me × IsIdle 1 seats.1.me }
    requires idle_23 { IsIdle 2 seats.2.me × IsIdle 3 seats.3.me }
{
    let (a, b, c, d) = seats;
    end(&turns, &mut first, a, 0);
    end(&turns, &mut first, b, 1);
    end(&turns, &mut first, c, 2);
    end(&turns, &mut first, d, 3);
    turns.close(first)
}
