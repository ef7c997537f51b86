//! Measures the turns: what an uncontended take and put costs, how long four threads take to enter
//! a million calls, and what a thread that waits costs.
//!
//! Standard output says for each bound that it holds, and so is the same in each run; the figures
//! go to standard error. Each bound is far above what was measured, since other programs may run
//! on the same processors.
#![tactic(auto)]

mod costs;
mod posts;
mod values;
mod waiters;

use std::io;
use std::time::Duration;

/// The most that a take and a put may cost, in exchanges.
const MOST_EXCHANGES: u128 = 20;

/// The most seconds that a million calls of four threads may take.
const MOST_POSTING: u64 = 20;

/// The most milliseconds of processor time that a thread may take which waits for 200 ms.
const MOST_WAITING: u64 = 20;

/// Whether a bound holds, as a word.
fn verdict(holds: bool) -> &'static str {
    if holds { "holds" } else { "is missed" }
}

fn main(rt: HostRuntime) -> io::Result<()> {
    let exchanges = costs::exchanges(&rt)?;
    let turns = costs::turns(&rt, rt.alloc())?;
    let cheap = turns.as_nanos() <= exchanges.as_nanos().saturating_mul(MOST_EXCHANGES);
    println!(rt;
        "a take and a put of 64 bytes cost at most 20 exchanges: {}",
        verdict(cheap)
    )?;
    eprintln!(rt; "100000 exchanges: {exchanges:?}; 100000 takes and puts: {turns:?}")?;

    let (posting, in_order) = posts::million(&rt, rt.alloc())?;
    let soon = posting <= Duration::from_secs(MOST_POSTING) && in_order;
    println!(rt;
        "four threads enter 1000000 calls in order in 20 s: {}",
        verdict(soon)
    )?;
    eprintln!(rt; "1000000 calls: {posting:?}")?;

    let waiting = waiters::waiting(&rt, rt.alloc())?;
    let idle = waiting <= Duration::from_millis(MOST_WAITING);
    println!(rt;
        "a thread that waits 200 ms takes at most 20 ms: {}",
        verdict(idle)
    )?;
    eprintln!(rt; "processor time of a wait of 200 ms: {waiting:?}")?;
    Ok(())
}
