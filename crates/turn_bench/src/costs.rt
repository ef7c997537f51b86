//! What an exchange costs, and what a take and a put that nobody contends.
ghost use Rattle.std.specs.Prelude.{◌≡◌};
ghost use Rattle.turn_table.specs.Told.{IsIdle};

use crate::values::{BenchSeat, BenchTurns, end, pass, start};
use std::alloc::Global;
use std::io;
use std::sync::Wait;
use std::sync::atomic::AtomicU64;
use std::sync::atomic::Ordering::SeqCst;
use std::time::{Clock, Duration, Instant};

/// How many rounds there are. The least counts, since another program may run in the others.
const ROUNDS: u64 = 15;

/// How many exchanges, or takes and puts, a round has.
const TIMES: u64 = 100_000;

/// The time of a round of compare-and-exchanges on one word.
fn exchange_all<R: Clock>(rt: &R, word: &AtomicU64) -> io::Result<Duration> {
    let start = Instant::now(rt)?;
    for number in 0..TIMES {
        let _found = word.compare_exchange(number, number + 1, SeqCst, SeqCst);
    }
    start.elapsed(rt)
}

/// The least time of a round of exchanges.
pub fn exchanges<R: Clock>(rt: &R) -> io::Result<Duration> {
    let word = AtomicU64::new(0);
    let mut least = Duration::MAX;
    for _ in 0..ROUNDS {
        word.store(0, SeqCst);
        least = least.min(exchange_all(rt, &word)?);
    }
    Ok(least)
}

/// The time of a round of takes and puts.
fn pass_all<R: Wait + Clock>(
    rt: &R,
    turns: &BenchTurns,
    seat: &mut BenchSeat,
) -> io::Result<Duration>
    requires own { seat.old.table_id ≡ turns.now.table.shared.table_id }
    requires idle { IsIdle 0 seat.old.me }
    ensures own { seat.new.table_id ≡ seat.old.table_id }
    ensures idle { IsIdle 0 seat.new.me }
{
    let start = Instant::now(rt)?;
    for _ in 0..TIMES {
        pass(rt, turns, seat, 0);
    }
    start.elapsed(rt)
}

/// The least time of a round of takes and puts by one seat.
fn least_pass<R: Wait + Clock>(
    rt: &R,
    turns: &BenchTurns,
    seat: &mut BenchSeat,
) -> io::Result<Duration>
    requires own { seat.old.table_id ≡ turns.now.table.shared.table_id }
    requires idle { IsIdle 0 seat.old.me }
    ensures own { seat.new.table_id ≡ seat.old.table_id }
    ensures idle { IsIdle 0 seat.new.me }
{
    let mut least = Duration::MAX;
    for _ in 0..ROUNDS {
        least = least.min(pass_all(rt, turns, seat)?);
    }
    Ok(least)
}

/// The least time of a round of takes and puts.
pub fn turns<R: Wait + Clock>(rt: &R, alloc: Global) -> io::Result<Duration> {
    let (turns, mut first) = start(alloc)?;
    let mut seat = turns.split(&mut first, Some(0));
    let least = least_pass(rt, &turns, &mut seat);
    end(&turns, &mut first, seat, 0);
    let _both = turns.close(first);
    least
}
