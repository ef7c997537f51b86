//! What a thread costs that waits for a held turn.
ghost use Rattle.std.specs.Prelude.{◌≡◌};
ghost use Rattle.turn_table.specs.Told.{IsIdle};

use crate::values::{BenchSeat, BenchTurns, end, pass, start};
use std::alloc::Global;
use std::sync::Wait;
use std::sync::atomic::AtomicU64;
use std::sync::atomic::Ordering::SeqCst;
use std::thread::Threads;
use std::time::{Clock, CpuClock, Duration};
use std::{io, thread};

/// How many milliseconds the turn is held, once the other thread is about to wait.
const HELD: u64 = 200;

/// How far the two threads are.
const HOLDS: u64 = 1;

const ABOUT_TO_WAIT: u64 = 2;

/// Waits until the other thread is so far.
fn wait_for<R: Wait + Clock>(rt: &R, stage: &AtomicU64, wanted: u64) {
    for _ in rt.forever() {
        if stage.load(SeqCst) >= wanted {
            return;
        }
        thread::sleep(rt, Duration::from_millis(1));
    }
    unreachable!()
}

/// Holds the front turn for as long as it is to be held.
fn hold<R: Wait + Clock>(
    rt: &R,
    turns: &BenchTurns,
    mut seat: BenchSeat,
    stage: &AtomicU64,
) -> BenchSeat
    requires own { seat.table_id ≡ turns.now.table.shared.table_id }
    requires idle { IsIdle 0 seat.me }
    ensures own { result.table_id ≡ seat.table_id }
    ensures idle { IsIdle 0 result.me }
{
    let history = turns.take_front(rt, &mut seat);
    stage.store(HOLDS, SeqCst);
    wait_for(rt, stage, ABOUT_TO_WAIT);
    thread::sleep(rt, Duration::from_millis(HELD));
    turns.put_front(&mut seat, history);
    seat
}

/// Waits for the front turn, and says what processor time that took.
fn wait<R: Wait + Clock + CpuClock>(
    rt: &R,
    turns: &BenchTurns,
    mut seat: BenchSeat,
    stage: &AtomicU64,
) -> (BenchSeat, io::Result<Duration>)
    requires own { seat.table_id ≡ turns.now.table.shared.table_id }
    requires idle { IsIdle 1 seat.me }
    ensures own { result.0.table_id ≡ seat.table_id }
    ensures idle { IsIdle 1 result.0.me }
{
    wait_for(rt, stage, HOLDS);
    let before = rt.thread_cpu_time();
    stage.store(ABOUT_TO_WAIT, SeqCst);
    pass(rt, turns, &mut seat, 1);
    let after = rt.thread_cpu_time();
    (seat, between(before, after))
}

/// The time between two readings.
fn between(before: io::Result<Duration>, after: io::Result<Duration>) -> io::Result<Duration> {
    let before = before?;
    Ok(after?.saturating_sub(before))
}

/// The processor time of a thread that waits for a turn which another holds.
pub fn waiting<R: Threads + Wait + Sync + Clock + CpuClock>(
    rt: &R,
    alloc: Global,
) -> io::Result<Duration> {
    let (turns, mut first) = start(alloc)?;
    let a = turns.split(&mut first, Some(0));
    let b = turns.split(&mut first, Some(1));
    let stage = AtomicU64::new(0);
    let (a, (b, took)) = thread::join(
        rt,
        || hold(rt, &turns, a, &stage),
        || wait(rt, &turns, b, &stage),
    );
    end(&turns, &mut first, a, 0);
    end(&turns, &mut first, b, 1);
    let _both = turns.close(first);
    took
}
