//! The turns on real threads.
ghost use Rattle.std.specs.Prelude.{◌≡◌};
ghost use Rattle.turn_table.specs.Told.{IsIdle};

use crate::toys::{
    Call, History, ToySeat, Writer, finish, post, post_all, seat_four, start, write_after,
};
use std::snapshot::Snapshot;
use std::sync::Wait;
use std::test::Fail;
use std::thread;
use std::thread::Threads;
use turn_table::{NewFault, Turns};

/// Two threads enter calls, each of its own caller.
fn post_both<R: Threads + Wait + Sync>(
    rt: &R,
    turns: &Turns<History, Writer>,
    seats: (ToySeat, ToySeat),
    callers: (u8, u8),
    times: u64,
) -> (ToySeat, ToySeat)
    requires own_0 { seats.0.table_id ≡ turns.now.table.shared.table_id }
    requires own_1 { seats.1.table_id ≡ turns.now.table.shared.table_id }
    requires idle { IsIdle callers.0 seats.0.me × IsIdle callers.1 seats.1.me }
    ensures own_0 { result.0.table_id ≡ seats.0.table_id }
    ensures own_1 { result.1.table_id ≡ seats.1.table_id }
    ensures idle { IsIdle callers.0 result.0.me × IsIdle callers.1 result.1.me }
{
    let (a, b) = seats;
    let (first, second) = callers;
    thread::join(
        rt,
        move || post_all(rt, turns, a, first, times),
        move || post_all(rt, turns, b, second, times),
    )
}

/// One thread holds the back turn until another entered all its calls.
fn write_beside<R: Threads + Wait + Sync>(
    rt: &R,
    turns: &Turns<History, Writer>,
    seats: (ToySeat, ToySeat),
    callers: (u8, u8),
    times: u64,
) -> (ToySeat, ToySeat)
    requires own_0 { seats.0.table_id ≡ turns.now.table.shared.table_id }
    requires own_1 { seats.1.table_id ≡ turns.now.table.shared.table_id }
    requires idle { IsIdle callers.0 seats.0.me × IsIdle callers.1 seats.1.me }
    ensures own_0 { result.0.table_id ≡ seats.0.table_id }
    ensures own_1 { result.1.table_id ≡ seats.1.table_id }
    ensures idle { IsIdle callers.0 result.0.me × IsIdle callers.1 result.1.me }
{
    let (a, b) = seats;
    let (first, second) = callers;
    thread::join(
        rt,
        move || write_after(rt, turns, a, first, times),
        move || post_all(rt, turns, b, second, times),
    )
}

/// Whether the caller's calls are numbered from 0 on, and are as many as this.
fn are_in_order(history: &History, caller: u8, times: u64) -> bool {
    let mut next = 0u64;
    for call in history.calls.iter() {
        if call.caller == caller {
            if call.number != next {
                return false;
            }
            next = next.saturating_add(1);
        }
    }
    next == times
}

/// Whether a try finds the front turn free. It gives the turn back at once.
fn is_front_free(turns: &Turns<History, Writer>, seat: &mut ToySeat, caller: u8) -> bool
    requires own { seat.old.table_id ≡ turns.now.table.shared.table_id }
    requires idle { IsIdle caller seat.old.me }
    ensures own { seat.new.table_id ≡ seat.old.table_id }
    ensures idle { IsIdle caller seat.new.me }
{
    match turns.try_front(seat) {
        Some(history) => {
            turns.return_front(seat, history);
            true
        }
        None => false,
    }
}

/// Whether a try finds the back turn free. It gives the turn back at once.
fn is_back_free(turns: &Turns<History, Writer>, seat: &mut ToySeat, caller: u8) -> bool
    requires own { seat.old.table_id ≡ turns.now.table.shared.table_id }
    requires idle { IsIdle caller seat.old.me }
    ensures own { seat.new.table_id ≡ seat.old.table_id }
    ensures idle { IsIdle caller seat.new.me }
{
    match turns.try_back(seat) {
        Some(writer) => {
            turns.return_back(seat, writer);
            true
        }
        None => false,
    }
}

#[test]
fn four_threads_enter_each_call_once_in_order(rt: HostRuntime) -> Result<(), Fail> {
    let Some((turns, mut first)) = start(rt.alloc()) else {
        panic!(rt; "no memory")
    };
    let (a, b, c, d) = seat_four(&turns, &mut first);
    let ((a, b), (c, d)) = thread::join(
        &rt,
        || post_both(&rt, &turns, (a, b), (0, 1), 1000),
        || post_both(&rt, &turns, (c, d), (2, 3), 1000),
    );
    let (history, _writer) = finish(turns, first, (a, b, c, d));
    assert!(rt; history.calls.len() == 4000);
    for caller in 0..4u8 {
        assert!(rt; are_in_order(&history, caller, 1000), "caller {caller}");
    }
    Ok(())
}

#[test]
fn others_enter_calls_while_one_holds_the_back(rt: HostRuntime) -> Result<(), Fail> {
    let Some((turns, mut first)) = start(rt.alloc()) else {
        panic!(rt; "no memory")
    };
    let (a, b, c, d) = seat_four(&turns, &mut first);
    let (a, b) = write_beside(&rt, &turns, (a, b), (0, 1), 200);
    let (history, writer) = finish(turns, first, (a, b, c, d));
    assert!(rt; history.calls.len() == 200 && are_in_order(&history, 1, 200));
    assert!(rt; history.handed == 1 && writer.written == 1 && writer.due == 1);
    Ok(())
}

#[test]
fn a_try_finds_a_held_turn(rt: HostRuntime) -> Result<(), Fail> {
    let Some((turns, mut first)) = start(rt.alloc()) else {
        panic!(rt; "no memory")
    };
    let (mut a, mut b, c, d) = seat_four(&turns, &mut first);
    let history = turns.take_front(&rt, &mut a);
    let (held, other) = (
        is_front_free(&turns, &mut b, 1),
        is_back_free(&turns, &mut b, 1),
    );
    turns.return_front(&mut a, history);
    assert!(rt; !held && other && is_front_free(&turns, &mut b, 1));
    let writer = turns.take_back(&rt, &mut a);
    let (held, other) = (
        is_back_free(&turns, &mut b, 1),
        is_front_free(&turns, &mut b, 1),
    );
    turns.return_back(&mut a, writer);
    assert!(rt; !held && other && is_back_free(&turns, &mut b, 1));
    let (history, writer) = finish(turns, first, (a, b, c, d));
    assert!(rt; history.calls.is_empty() && writer.written == 0);
    Ok(())
}

#[test]
fn two_notes_are_heard(rt: HostRuntime) -> Result<(), Fail> {
    let Some((turns, mut first)) = start(rt.alloc()) else {
        panic!(rt; "no memory")
    };
    let (mut a, mut b, c, d) = seat_four(&turns, &mut first);
    post(
        &rt,
        &turns,
        &mut a,
        Call {
            caller: 0,
            number: 0,
        },
    );
    let one = turns.split(&mut a, None);
    post(
        &rt,
        &turns,
        &mut a,
        Call {
            caller: 0,
            number: 1,
        },
    );
    let two = turns.split(&mut a, None);
    turns.join(&mut b, two);
    turns.join(&mut b, one);
    post(
        &rt,
        &turns,
        &mut b,
        Call {
            caller: 1,
            number: 0,
        },
    );
    assert!(rt; turns.load_calls(&mut b) == 3 && turns.load_durable(&mut b) == 0);
    let (history, _writer) = finish(turns, first, (a, b, c, d));
    assert!(rt; are_in_order(&history, 0, 2) && are_in_order(&history, 1, 1));
    Ok(())
}

#[test]
fn both_values_come_back_for_want_of_memory(rt: HostRuntime) -> Result<(), Fail> {
    let history = History {
        calls: Vec::new(rt.alloc()),
        handed: 2,
    };
    let writer = Writer {
        heard: Snapshot::of(&history.calls),
        written: 1,
        due: 2,
    };
    let (history, writer) = match Turns::new(rt.alloc(), history, writer) {
        Ok((turns, first)) => turns.close(first),
        Err(NewFault { front, back }) => (front, back),
    };
    assert!(rt; history.handed == 2 && writer.written == 1 && writer.due == 2);
    Ok(())
}
