//! How a thread waits for a held turn: it yields at first, and from then on sleeps on the turn's
//! word.
//!
//! A thread that is about to sleep counts itself first, and one that gives the turn back stores the
//! word first and then reads the count. So one of the two sees the other: the sleeper a word that
//! is no longer 1, or the giver a count that isn't 0, and a turn that nobody waits for is given
//! back without a call of the system. No clause says so.
ghost use Rattle.std.specs.Prelude.{◌<◌};

use atomic_table::{Shared, TableRule};
use std::sync::Wait;
use std::sync::atomic::AtomicU64;
use std::sync::atomic::Ordering::SeqCst;
use std::thread;

/// How often a thread yields before it sleeps.
const YIELDS: u64 = 64;

/// The number of threads that sleep on the word of one turn, are about to, or have just woken.
#[derive(Drop)]
pub struct Sleepers {
    count: AtomicU64,
}

impl Sleepers {
    /// Nobody sleeps.
    pub fn new() -> Sleepers {
        Sleepers {
            count: AtomicU64::new(0),
        }
    }

    /// Waits a little where a turn was found held, after it was found held `before` times: yields,
    /// or sleeps while the word is 1, until it is woken. It may return for no reason.
    pub fn pause<S, V, K, P: TableRule<S, V, K>, R: Wait>(
        &self,
        rt: &R,
        shared: &Shared<S, V, K, P>,
        word: usize,
        before: u64,
    )
        requires { word < shared.now.table_id.words }
    {
        if before < YIELDS {
            thread::yield_now();
            return;
        }
        self.count.fetch_add(1, SeqCst);
        shared.park(rt, word, 1);
        self.count.fetch_sub(1, SeqCst);
    }

    /// Wakes one of those that sleep on the word, if there is one.
    pub fn wake<S, V, K, P: TableRule<S, V, K>>(&self, shared: &Shared<S, V, K, P>, word: usize)
        requires { word < shared.now.table_id.words }
    {
        if self.count.load(SeqCst) != 0 {
            shared.wake_one(word);
        }
    }
}
