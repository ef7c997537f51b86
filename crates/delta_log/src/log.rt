//! The log of raised counters and flipped bits.
ghost use Rattle.std.specs.Prelude.{◌≡◌, ◌<◌, ◌++◌, ℕ, [], ◌∷◌, true, length, IsOk, OnOk, OnErr};
ghost use Rattle.ccfs_base.specs.Rooms.{IsFirst};
ghost use Rattle.ccfs_base.specs.Logs.{no_logs, IsCalled, IsTaken, AreSame};
ghost use Rattle.record_logs.specs.Kept.{log_of, logs_of, call_by};
ghost use Rattle.record_logs.specs.Held.{recs_of};
ghost use Rattle.delta_log.specs.Deltas.{add_call, bit_call, is_delta, AreDeltas};

use ccfs_base::{NoMemory, Rec};
use record_logs::RecordLogs;
use std::alloc::Global;
use std::marker::Model;

/// The raises and flips of up to 64 streams, numbered from 0. Places are in bytes.
#[derive(Drop)]
pub struct DeltaLog {
    logs: RecordLogs,
}

impl Model for DeltaLog {
    ghost use Rattle.record_logs.specs.Kept.{LogLists, log_of};
    ghost use Rattle.delta_log.specs.Deltas.{AreDeltas};

    ghost Value = { LogLists };

    ghost view = { λ a. a.logs };

    ghost invariant = { λ a. AreDeltas (log_of a.logs) };
}

impl DeltaLog {
    /// No records. It takes no memory.
    pub fn new(alloc: Global) -> DeltaLog
        ensures { AreSame no_logs (logs_of result) }
    {
        DeltaLog {
            logs: RecordLogs::new(alloc),
        }
    }

    /// Logs that a counter of eight bytes is raised, modulo 2^64; a negative number lowers it. Without memory all is as
    /// before. The first call of the room takes no memory.
    pub fn add(&mut self, stream: u8, off: u64, by: i64) -> Result<(), NoMemory>
        requires { stream < 64 }
        ensures first { IsFirst (add_call stream off by) self.old.room → IsOk result }
        ensures ok { OnOk result (IsCalled (logs_of self.old) (add_call stream off by) (logs_of self.new)) }
        ensures err { OnErr result (AreSame (logs_of self.old) (logs_of self.new)) }
    {
        self.log(stream, raise(off, by))
    }

    /// Logs that a bit, 0 to 7 counted from the lowest, is set or cleared. Otherwise as `add`.
    pub fn bit(&mut self, stream: u8, off: u64, bit: u8, on: bool) -> Result<(), NoMemory>
        requires { stream < 64 }
        ensures first { IsFirst (bit_call stream off bit on) self.old.room → IsOk result }
        ensures ok { OnOk result (IsCalled (logs_of self.old) (bit_call stream off bit on) (logs_of self.new)) }
        ensures err { OnErr result (AreSame (logs_of self.old) (logs_of self.new)) }
    {
        self.log(stream, Rec::Bit { off, bit, on })
    }

    /// Logs a record. Otherwise as `add`.
    fn log(&mut self, stream: u8, rec: Rec) -> Result<(), NoMemory>
        requires stream { stream < 64 }
        requires delta { is_delta rec ≡ true }
        ensures first { IsFirst (call_by stream rec) self.old.room → IsOk result }
        ensures ok { OnOk result (IsCalled (logs_of self.old) (call_by stream rec) (logs_of self.new)) }
        ensures err { OnErr result (AreSame (logs_of self.old) (logs_of self.new)) }
    {
        if is_first(&self.logs, stream, &rec) {
            self.logs.use_first();
            return Ok(());
        }
        self.logs.push(stream, rec)
    }

    /// Takes the memory for a call of `add` with these arguments, and puts the call at the end of the room. Without memory
    /// all is as before.
    pub fn add_room(&mut self, stream: u8, off: u64, by: i64) -> Result<(), NoMemory>
        requires { stream < 64 }
        ensures log { (s : ℕ) → log_of self.new s ≡ log_of self.old s }
        ensures ok { OnOk result (self.new.room ≡ self.old.room ++ add_call stream off by ∷ []) }
        ensures err { OnErr result (self.new.room ≡ self.old.room) }
    {
        self.logs.add_room(stream, raise(off, by))
    }

    /// The same for a call of `bit`.
    pub fn bit_room(&mut self, stream: u8, off: u64, bit: u8, on: bool) -> Result<(), NoMemory>
        requires { stream < 64 }
        ensures log { (s : ℕ) → log_of self.new s ≡ log_of self.old s }
        ensures ok { OnOk result (self.new.room ≡ self.old.room ++ bit_call stream off bit on ∷ []) }
        ensures err { OnErr result (self.new.room ≡ self.old.room) }
    {
        self.logs.add_room(stream, Rec::Bit { off, bit, on })
    }

    /// Whether a call of `add` with these arguments is the first of the room.
    pub fn is_first_add(&self, stream: u8, off: u64, by: i64) -> bool
        ensures forth { result ≡ true → IsFirst (add_call stream off by) self.now.room }
        ensures back { IsFirst (add_call stream off by) self.now.room → result ≡ true }
    {
        is_first(&self.logs, stream, &raise(off, by))
    }

    /// Whether a call of `bit` with these arguments is the first of the room.
    pub fn is_first_bit(&self, stream: u8, off: u64, bit: u8, on: bool) -> bool
        ensures forth { result ≡ true → IsFirst (bit_call stream off bit on) self.now.room }
        ensures back { IsFirst (bit_call stream off bit on) self.now.room → result ≡ true }
    {
        is_first(&self.logs, stream, &Rec::Bit { off, bit, on })
    }

    /// Empties the room. It takes no memory.
    pub fn clear_room(&mut self)
        ensures log { (s : ℕ) → log_of self.new s ≡ log_of self.old s }
        ensures room { self.new.room ≡ [] }
    {
        self.logs.clear_room();
    }

    /// The records of each stream, in the order in which they were logged, those of stream 0 first.
    pub fn all(&self) -> &[Vec<Rec>]
        ensures logs { recs_of result.now ≡ self.now.logs }
        ensures streams { length result.now ≡ 64 }
    {
        self.logs.all()
    }

    /// How many records a stream has.
    pub fn count(&self, stream: u8) -> usize
        requires { stream < 64 }
        ensures { result ≡ length (log_of self.now stream) }
    {
        self.logs.count(stream)
    }

    /// Hands out a stream's records in the order in which they were logged, and leaves it none. The room stays. It
    /// takes no memory.
    pub fn take(&mut self, stream: u8) -> Vec<Rec>
        requires { stream < 64 }
        ensures taken { result.items ≡ log_of self.old stream }
        ensures log { IsTaken (log_of self.old) stream (log_of self.new) }
        ensures room { self.new.room ≡ self.old.room }
    {
        self.logs.take(stream)
    }

    /// Each record is a raise or a flip.
    pub fn are_deltas(&self)
        ensures { AreDeltas (log_of self.now) }
    {
        let _ = &self.logs;
    }
}

/// The record that raises a counter by a number that may be negative.
fn raise(off: u64, by: i64) -> Rec
    ensures { result ≡ (add_call 0 off by).rec }
{
    Rec::Add {
        off,
        by: by.cast_unsigned(),
    }
}

/// Whether the first call of the room logs this record for the stream.
fn is_first(logs: &RecordLogs, stream: u8, rec: &Rec) -> bool
    ensures forth { result ≡ true → IsFirst (call_by stream rec.now) logs.now.room }
    ensures back { IsFirst (call_by stream rec.now) logs.now.room → result ≡ true }
{
    logs.first()
        .is_some_and(|(first, kept)| first == stream && are_same(kept, rec))
}

/// Whether two records say the same.
fn are_same(rec: &Rec, other: &Rec) -> bool
    ensures forth { result ≡ true → rec.now ≡ other.now }
    ensures back { rec.now ≡ other.now → result ≡ true }
{
    match (rec, other) {
        (
            Rec::Range { off, bytes },
            Rec::Range {
                off: at,
                bytes: new,
            },
        ) => { off == at && bytes.all() == new.all() }
        (Rec::Add { off, by }, Rec::Add { off: at, by: more }) => off == at && by == more,
        (
            Rec::Bit { off, bit, on },
            Rec::Bit {
                off: at,
                bit: place,
                on: set,
            },
        ) => { off == at && bit == place && on == set }
        _ => false,
    }
}
