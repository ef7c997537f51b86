//! Four threads enter calls at once.
ghost use Rattle.std.specs.Prelude.{◌≡◌};
ghost use Rattle.turn_table.specs.Told.{IsIdle};

use crate::values::{BenchSeat, BenchTurns, Call, History, end, post, start};
use std::alloc::Global;
use std::sync::Wait;
use std::thread::Threads;
use std::time::{Clock, Duration, Instant};
use std::{io, thread};

/// How many calls each of the four threads enters.
const EACH: u64 = 250_000;

/// Enters all calls of one caller.
fn post_all<R: Wait>(rt: &R, turns: &BenchTurns, mut seat: BenchSeat, caller: u8) -> BenchSeat
    requires own { seat.table_id ≡ turns.now.table.shared.table_id }
    requires idle { IsIdle caller seat.me }
    ensures own { result.table_id ≡ seat.table_id }
    ensures idle { IsIdle caller result.me }
{
    for number in 0..EACH {
        post(rt, turns, &mut seat, Call { caller, number });
    }
    seat
}

/// Two threads enter calls, each of its own caller.
fn post_both<R: Threads + Wait + Sync>(
    rt: &R,
    turns: &BenchTurns,
    a: BenchSeat,
    b: BenchSeat,
    first: u8,
    second: u8,
) -> (BenchSeat, BenchSeat)
    requires own_0 { a.table_id ≡ turns.now.table.shared.table_id }
    requires own_1 { b.table_id ≡ turns.now.table.shared.table_id }
    requires idle { IsIdle first a.me × IsIdle second b.me }
    ensures own_0 { result.0.table_id ≡ a.table_id }
    ensures own_1 { result.1.table_id ≡ b.table_id }
    ensures idle { IsIdle first result.0.me × IsIdle second result.1.me }
{
    thread::join(
        rt,
        move || post_all(rt, turns, a, first),
        move || post_all(rt, turns, b, second),
    )
}

/// Four seats of the callers 0 to 3.
type FourSeats = (BenchSeat, BenchSeat, BenchSeat, BenchSeat);

/// Four threads enter calls, each of its own caller.
fn post_four<R: Threads + Wait + Sync>(rt: &R, turns: &BenchTurns, seats: FourSeats) -> FourSeats
    requires own_0 { seats.0.table_id ≡ turns.now.table.shared.table_id }
    requires own_1 { seats.1.table_id ≡ turns.now.table.shared.table_id }
    requires own_2 { seats.2.table_id ≡ turns.now.table.shared.table_id }
    requires own_3 { seats.3.table_id ≡ turns.now.table.shared.table_id }
    requires idle_01 { IsIdle 0 seats.0.me × IsIdle 1 seats.1.me }
    requires idle_23 { IsIdle 2 seats.2.me × IsIdle 3 seats.3.me }
    ensures own_0 { result.0.table_id ≡ seats.0.table_id }
    ensures own_1 { result.1.table_id ≡ seats.1.table_id }
    ensures own_2 { result.2.table_id ≡ seats.2.table_id }
    ensures own_3 { result.3.table_id ≡ seats.3.table_id }
    ensures idle_01 { IsIdle 0 result.0.me × IsIdle 1 result.1.me }
    ensures idle_23 { IsIdle 2 result.2.me × IsIdle 3 result.3.me }
{
    let (a, b, c, d) = seats;
    let ((a, b), (c, d)) = thread::join(
        rt,
        move || -> (BenchSeat, BenchSeat)
            requires own_0 { a.table_id ≡ turns.now.table.shared.table_id }
            requires own_1 { b.table_id ≡ turns.now.table.shared.table_id }
            requires idle { IsIdle 0 a.me × IsIdle 1 b.me }
            ensures own_0 { result.0.table_id ≡ a.table_id }
            ensures own_1 { result.1.table_id ≡ b.table_id }
            ensures idle { IsIdle 0 result.0.me × IsIdle 1 result.1.me }
        { post_both(rt, turns, a, b, 0, 1) },
        move || -> (BenchSeat, BenchSeat)
            requires own_0 { c.table_id ≡ turns.now.table.shared.table_id }
            requires own_1 { d.table_id ≡ turns.now.table.shared.table_id }
            requires idle { IsIdle 2 c.me × IsIdle 3 d.me }
            ensures own_0 { result.0.table_id ≡ c.table_id }
            ensures own_1 { result.1.table_id ≡ d.table_id }
            ensures idle { IsIdle 2 result.0.me × IsIdle 3 result.1.me }
        { post_both(rt, turns, c, d, 2, 3) },
    );
    (a, b, c, d)
}

/// Whether the history has all calls, each caller's in their order.
fn is_in_order(history: &History) -> bool {
    let mut next = [0u64; 4];
    for call in history.calls.iter() {
        let caller = call.caller as usize;
        if caller >= 4 || call.number != next[caller] {
            return false;
        }
        next[caller] = next[caller].saturating_add(1);
    }
    next == [EACH; 4]
}

/// The time in which four threads enter a million calls, and whether each caller's stand in order.
pub fn million<R: Threads + Wait + Sync + Clock>(
    rt: &R,
    alloc: Global,
) -> io::Result<(Duration, bool)> {
    let begun = Instant::now(rt)?;
    let (turns, mut first) = start(alloc)?;
    let a = turns.split(&mut first, Some(0));
    let b = turns.split(&mut first, Some(1));
    let c = turns.split(&mut first, Some(2));
    let d = turns.split(&mut first, Some(3));
    let (a, b, c, d) = post_four(rt, &turns, (a, b, c, d));
    let took = begun.elapsed(rt);
    end(&turns, &mut first, a, 0);
    end(&turns, &mut first, b, 1);
    end(&turns, &mut first, c, 2);
    end(&turns, &mut first, d, 3);
    let (history, _writer) = turns.close(first);
    Ok((took?, is_in_order(&history)))
}
