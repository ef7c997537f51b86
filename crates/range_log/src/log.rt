//! The log of ranges.
ghost use Rattle.std.specs.Prelude.{◌≡◌, ◌<◌, ℕ, [], ◌∷◌, ◌++◌, true, not, length, ◌==◌, ◌||◌, IfOk, IsOk, OnOk, OnErr};
ghost use Rattle.std.specs.List.{list_all, enumerate_from};
ghost use Rattle.ccfs_base.specs.declared.records.Rec.TheVariants as recs;
ghost use Rattle.ccfs_base.specs.Rooms.{IsFirst};
ghost use Rattle.ccfs_base.specs.Logs.{no_logs, IsCalled, IsTaken, AreSame};
ghost use Rattle.record_logs.specs.Kept.{log_of, logs_of};
ghost use Rattle.record_logs.specs.Held.{recs_of};
ghost use Rattle.range_log.specs.Ranges.{range_call, share, is_touched, is_clear_of, AreRanges, AreApartByStreams};

use ccfs_base::{Bytes, NoMemory, Rec};
use record_logs::RecordLogs;
use std::alloc::Global;
use std::marker::Model;

/// The ranges of up to 64 streams, numbered from 0. Places are in bytes.
#[derive(Drop)]
pub struct RangeLog {
    alloc: Global,
    logs: RecordLogs,
}

impl Model for RangeLog {
    ghost use Rattle.record_logs.specs.Kept.{LogLists, log_of};
    ghost use Rattle.range_log.specs.Ranges.{IsHeld};

    ghost Value = { LogLists };

    ghost view = { λ a. a.logs };

    ghost invariant = { λ a. IsHeld (log_of a.logs) };
}

/// Whether so many bytes from one place share a byte with so many from another. No bytes share none.
pub fn have_common(off: u64, len: u64, at: u64, size: u64) -> bool
    ensures { result ≡ share off len at size }
{
    if off <= at {
        size > 0 && at - off < len
    } else {
        len > 0 && off - at < size
    }
}

/// Whether a record is a range that shares a byte with so many from a place on.
fn touches(rec: &Rec, off: u64, len: u64) -> bool
    ensures { result ≡ is_touched off len rec.now }
{
    match rec {
        Rec::Range { off: at, bytes } => have_common(off, len, *at, bytes.len() as u64),
        Rec::Add { .. } | Rec::Bit { .. } => false,
    }
}

/// Whether a record puts these bytes at this place.
fn is_range_of(rec: &Rec, off: u64, bytes: &[u8]) -> bool
    ensures forth { result ≡ true → rec.now ≡ recs.Range off bytes.now }
    ensures back { rec.now ≡ recs.Range off bytes.now → result ≡ true }
{
    match rec {
        Rec::Range {
            off: at,
            bytes: kept,
        } => *at == off && kept.all() == bytes,
        Rec::Add { .. } | Rec::Bit { .. } => false,
    }
}

/// Whether the first call of the room puts these bytes at this place for the stream.
fn is_first(logs: &RecordLogs, stream: u8, off: u64, bytes: &[u8]) -> bool
    ensures forth { result ≡ true → IsFirst (range_call stream off bytes.now) logs.now.room }
    ensures back { IsFirst (range_call stream off bytes.now) logs.now.room → result ≡ true }
{
    logs.first().is_some_and(|(first, rec)| first == stream && is_range_of(rec, off, bytes))
}

/// Whether none of these records is a range that shares a byte with so many from a place on.
fn is_untouched(log: &[Rec], off: u64, len: u64) -> bool
    ensures { result ≡ list_all (λ rec. not (is_touched off len rec)) log.now }
{
    log.iter().all(|rec| !touches(rec, off, len))
}

/// Whether no other stream's log has a range that shares a byte with so many from a place on.
fn are_untouched(logs: &[Vec<Rec>], stream: u8, off: u64, len: u64) -> bool
    ensures { result ≡ list_all (λ log. log.0 == stream || list_all (λ rec. not (is_touched off len rec)) log.1.items) (enumerate_from 0 logs.now) }
{
    let own = usize::from(stream);
    logs.iter()
        .enumerate()
        .all(|(other, log)| other == own || is_untouched(log, off, len))
}

/// The record that puts these bytes at a place.
fn range_of(alloc: Global, off: u64, bytes: &[u8]) -> Result<Rec, NoMemory>
    ensures { IfOk result (λ rec. rec ≡ recs.Range off bytes.now) }
{
    Ok(Rec::Range {
        off,
        bytes: Bytes::of(alloc, bytes)?,
    })
}

impl RangeLog {
    /// No ranges. It takes no memory.
    pub fn new(alloc: Global) -> RangeLog
        ensures { AreSame no_logs (logs_of result) }
    {
        RangeLog {
            alloc,
            logs: RecordLogs::new(alloc),
        }
    }

    /// Puts these bytes at a place, behind the ranges that the stream has put before. No other stream may have a byte there,
    /// as `clear_of` tells. Without memory all is as before. The first call of the room takes no memory, and any other that
    /// is answered Ok empties the room.
    pub fn put(&mut self, stream: u8, off: u64, bytes: &[u8]) -> Result<(), NoMemory>
        requires stream { stream < 64 }
        requires clear { is_clear_of (log_of self.old) stream off (length bytes.now) ≡ true }
        ensures first { IsFirst (range_call stream off bytes.now) self.old.room → IsOk result }
        ensures ok { OnOk result (IsCalled (logs_of self.old) (range_call stream off bytes.now) (logs_of self.new)) }
        ensures err { OnErr result (AreSame (logs_of self.old) (logs_of self.new)) }
    {
        if is_first(&self.logs, stream, off, bytes) {
            self.logs.use_first();
            return Ok(());
        }
        let rec = range_of(self.alloc, off, bytes)?;
        self.logs.push(stream, rec)
    }

    /// Takes the memory for a call of `put` with these arguments, and puts the call at the end of the room. Without memory
    /// all is as before.
    pub fn put_room(&mut self, stream: u8, off: u64, bytes: &[u8]) -> Result<(), NoMemory>
        requires stream { stream < 64 }
        ensures log { (s : ℕ) → log_of self.new s ≡ log_of self.old s }
        ensures ok { OnOk result (self.new.room ≡ self.old.room ++ range_call stream off bytes.now ∷ []) }
        ensures err { OnErr result (self.new.room ≡ self.old.room) }
    {
        let rec = range_of(self.alloc, off, bytes)?;
        self.logs.add_room(stream, rec)
    }

    /// Whether a call of `put` with these arguments is the first of the room.
    pub fn is_first_put(&self, stream: u8, off: u64, bytes: &[u8]) -> bool
        ensures forth { result ≡ true → IsFirst (range_call stream off bytes.now) self.now.room }
        ensures back { IsFirst (range_call stream off bytes.now) self.now.room → result ≡ true }
    {
        is_first(&self.logs, stream, off, bytes)
    }

    /// Empties the room. It takes no memory.
    pub fn clear_room(&mut self)
        ensures log { (s : ℕ) → log_of self.new s ≡ log_of self.old s }
        ensures room { self.new.room ≡ [] }
    {
        self.logs.clear_room();
    }

    /// Whether no other stream's range shares a byte with the `len` bytes from a place on. No bytes share none. It looks at
    /// each range of the other streams.
    pub fn clear_of(&self, stream: u8, off: u64, len: u64) -> bool
        ensures { result ≡ is_clear_of (log_of self.now) stream off len }
    {
        are_untouched(self.logs.all(), stream, off, len)
    }

    /// The ranges of each stream, in the order in which they were put, those of stream 0 first.
    pub fn all(&self) -> &[Vec<Rec>]
        ensures logs { recs_of result.now ≡ self.now.logs }
        ensures streams { length result.now ≡ 64 }
    {
        self.logs.all()
    }

    /// How many ranges a stream has.
    pub fn count(&self, stream: u8) -> usize
        requires { stream < 64 }
        ensures { result ≡ length (log_of self.now stream) }
    {
        self.logs.count(stream)
    }

    /// Hands out a stream's ranges in the order in which they were put, and leaves it none. The room stays. It takes
    /// no memory.
    pub fn take(&mut self, stream: u8) -> Vec<Rec>
        requires { stream < 64 }
        ensures taken { result.items ≡ log_of self.old stream }
        ensures log { IsTaken (log_of self.old) stream (log_of self.new) }
        ensures room { self.new.room ≡ self.old.room }
    {
        self.logs.take(stream)
    }

    /// Each record is a range, and two ranges of different streams share no byte.
    pub fn are_apart(&self)
        ensures ranges { AreRanges (log_of self.now) }
        ensures apart { AreApartByStreams (log_of self.now) }
    {
        let _held = &self.logs;
    }
}
