//! The values under the turns that are measured, and what a thread does with them.
ghost use Rattle.std.specs.Prelude.{◌≡◌, [], IfOk};
ghost use Rattle.turn_table.specs.declared.view.Who.TheVariants.{First};
ghost use Rattle.turn_table.specs.Told.{EndsToo, IsIdle};

use std::alloc::Global;
use std::io;
use std::sync::Wait;
use turn_table::{Counted, Naming, TurnSeat, Turns, Written};

/// One caller's call, with its number among that caller's.
#[derive(Clone, Copy)]
pub struct Call {
    pub caller: u8,
    pub number: u64,
}

/// Calls as the entries of a history.
pub struct Calls;

impl Naming for Calls {
    type Entry = Call;

    ghost caller = { λ call. call.caller };
}

/// A history, in 64 bytes with those beside it.
#[derive(Drop)]
pub struct History {
    pub calls: Vec<Call>,
    pub beside: [u64; 5],
}

impl Counted for History {
    type Name = Calls;

    ghost means = { record {
      entries = λ h. h.calls.items;
      fault = λ _. 0;
      handed = λ _. 0;
      kin = λ _ _. Unit {0};
    } };

    fn count(&self) -> u64 {
        self.calls.len() as u64
    }

    fn failed(&self) -> u64 {
        0
    }
}

/// A back value that nothing is handed to.
#[derive(Drop)]
pub struct Writer;

impl Written for Writer {
    type Name = Calls;

    ghost means = { record {
      heard = λ _. [];
      written = λ _. 0;
      due = λ _. 0;
      fault = λ _. 0;
      kin = λ _ _. Unit {0};
    } };

    fn count(&self) -> u64 {
        0
    }

    fn failed(&self) -> u64 {
        0
    }
}

/// The turns that are measured.
pub type BenchTurns = Turns<History, Writer>;

/// A seat of them.
pub type BenchSeat = TurnSeat<History, Writer>;

/// The turns over an empty history, with their first seat. For want of memory it fails.
pub fn start(alloc: Global) -> io::Result<(BenchTurns, BenchSeat)>
    ensures own { IfOk result (λ new. new.1.table_id ≡ new.0.table.shared.table_id) }
    ensures first { IfOk result (λ new. new.1.me.0.who ≡ First 0) }
{
    let history = History {
        calls: Vec::new(alloc),
        beside: [0; 5],
    };
    match Turns::new(alloc, history, Writer) {
        Ok(made) => Ok(made),
        Err(_) => Err(io::ErrorKind::OutOfMemory.into()),
    }
}

/// Takes the front turn, and puts its value back without a new call.
pub fn pass<R: Wait>(rt: &R, turns: &BenchTurns, seat: &mut BenchSeat, caller: u8)
    requires own { seat.old.table_id ≡ turns.now.table.shared.table_id }
    requires idle { IsIdle caller seat.old.me }
    ensures own { seat.new.table_id ≡ seat.old.table_id }
    ensures idle { IsIdle caller seat.new.me }
{
    let history = turns.take_front(rt, seat);
    turns.put_front(seat, history);
}

/// Enters one call. For want of memory nothing is entered.
pub fn post<R: Wait>(rt: &R, turns: &BenchTurns, seat: &mut BenchSeat, call: Call)
    requires own { seat.old.table_id ≡ turns.now.table.shared.table_id }
    requires idle { IsIdle call.caller seat.old.me }
    ensures own { seat.new.table_id ≡ seat.old.table_id }
    ensures idle { IsIdle call.caller seat.new.me }
{
    let mut history = turns.take_front(rt, seat);
    match history.calls.push(call) {
        Ok(()) => turns.put_front(seat, history),
        Err(_) => turns.return_front(seat, history),
    }
}

/// The caller's seat ends in the first one.
pub fn end(turns: &BenchTurns, first: &mut BenchSeat, seat: BenchSeat, caller: u8)
    requires own { first.old.table_id ≡ turns.now.table.shared.table_id }
    requires theirs { seat.table_id ≡ turns.now.table.shared.table_id }
    requires idle { IsIdle caller seat.me }
    ensures own { first.new.table_id ≡ first.old.table_id }
    ensures who { first.new.me.0.who ≡ first.old.me.0.who }
    ensures ended { EndsToo caller first.old.me.0.ended first.new.me.0.ended }
{
    turns.join(first, seat);
}
