//! The logs of records.
ghost use Rattle.std.specs.Prelude.{◌≡◌, ◌≢◌, ◌<◌, ◌≤◌, ◌+◌, ℕ, max, [], ◌∷◌, ◌++◌, length, slice_set, MatchOption, IsOk, OnOk, OnErr, vec_len, vec_capacity};
ghost use Rattle.ccfs_base.specs.Rooms.{IsFirst};
ghost use Rattle.ccfs_base.specs.Logs.{Call, no_logs, IsLogged, IsCalled, IsTaken, AreSame};
ghost use Rattle.record_logs.specs.Kept.{log_of, logs_of, call_by};
ghost use Rattle.record_logs.specs.Held.{recs_of, places_of, list_at, number_at, with_last, NoneFell};

use ccfs_base::{NoMemory, Rec};
use std::alloc::Global;
use std::marker::Model;
use std::{array, mem};

/// How many streams there are.
const STREAMS: usize = 64;

/// A call that memory was taken for.
#[derive(Drop)]
struct RoomCall {
    stream: u8,
    rec: Rec,
    // An empty list with a place for the call and for each call before it in the room: the records of the stream move there
    // where its log has no place for the call.
    place: Vec<Rec>,
}

/// The records of up to 64 streams, numbered from 0, and the room: the calls that memory was taken for.
#[derive(Drop)]
pub struct RecordLogs {
    alloc: Global,
    // The records of each stream, in the order in which they were logged.
    logs: [Vec<Rec>; STREAMS],
    // The calls that memory was taken for, the first of them first.
    room: Vec<RoomCall>,
}

impl Model for RecordLogs {
    ghost use Rattle.record_logs.specs.Kept.{LogLists};
    ghost use Rattle.record_logs.specs.Held.{recs_of, places_of, kept_in, AreServed};

    ghost Value = { LogLists };

    ghost view = { λ a. kept_in (recs_of a.logs) a.room.items };

    ghost invariant = { λ a. AreServed (recs_of a.logs) (places_of a.logs) 0 a.room.items };
}

/// No records of any stream. It takes no memory.
fn no_records(alloc: Global) -> [Vec<Rec>; STREAMS]
    ensures { (stream : ℕ) → list_at (recs_of result) stream ≡ [] }
{
    array::from_fn(|_| Vec::new(alloc))
}

/// Puts a record last in a list. Where the list is full, its records move to an empty one that has a place more.
fn push_or_move(list: &mut Vec<Rec>, mut place: Vec<Rec>, rec: Rec)
    requires empty { place.items ≡ [] }
    requires room { vec_len list.old < max (vec_capacity list.old) (vec_capacity place) }
    ensures items { list.new.items ≡ list.old.items ++ rec ∷ [] }
    ensures capacity { vec_capacity list.old ≤ vec_capacity list.new }
{
    if list.len() == list.capacity() {
        place.append(list).unwrap();
        *list = place;
    }
    list.push(rec).unwrap();
}

/// Puts the record of a call of the room last in its stream's log. It takes no memory.
fn use_at(logs: &mut [Vec<Rec>], call: RoomCall)
    requires stream { call.stream < length logs.old }
    requires empty { call.place.items ≡ [] }
    requires room { length (list_at (recs_of logs.old) call.stream) < max (number_at (places_of logs.old) call.stream) (vec_capacity call.place) }
    ensures recs { recs_of logs.new ≡ with_last (recs_of logs.old) call.stream call.rec }
    ensures places { NoneFell (places_of logs.old) (places_of logs.new) }
{
    let log = &mut logs[usize::from(call.stream)];
    push_or_move(log, call.place, call.rec);
}

/// Puts a record last in a stream's log. Without memory all is as before.
fn push_at(logs: &mut [Vec<Rec>], stream: u8, rec: Rec) -> Result<(), NoMemory>
    requires { stream < length logs.old }
    ensures ok { OnOk result (recs_of logs.new ≡ with_last (recs_of logs.old) stream rec) }
    ensures err { OnErr result (recs_of logs.new ≡ recs_of logs.old) }
    ensures places { NoneFell (places_of logs.old) (places_of logs.new) }
{
    logs[usize::from(stream)].push(rec)?;
    Ok(())
}

/// Makes places for so many more records in a stream's log.
fn reserve_at(logs: &mut [Vec<Rec>], stream: u8, more: usize) -> Result<(), NoMemory>
    requires { stream < length logs.old }
    ensures recs { recs_of logs.new ≡ recs_of logs.old }
    ensures ok { OnOk result (length (list_at (recs_of logs.new) stream) + more ≤ number_at (places_of logs.new) stream) }
    ensures places { NoneFell (places_of logs.old) (places_of logs.new) }
{
    logs[usize::from(stream)].reserve(more)
}

/// Hands out a stream's log, and leaves it none.
fn take_at(alloc: Global, logs: &mut [Vec<Rec>], stream: u8) -> Vec<Rec>
    requires { stream < length logs.old }
    ensures taken { result.items ≡ list_at (recs_of logs.old) stream }
    ensures left { recs_of logs.new ≡ slice_set (recs_of logs.old) stream [] }
    ensures places { (other : ℕ) → other ≢ stream → number_at (places_of logs.new) other ≡ number_at (places_of logs.old) other }
{
    mem::replace(&mut logs[usize::from(stream)], Vec::new(alloc))
}

impl RecordLogs {
    /// No records, and no room. It takes no memory.
    pub fn new(alloc: Global) -> RecordLogs
        ensures { AreSame no_logs (logs_of result) }
    {
        RecordLogs {
            alloc,
            logs: no_records(alloc),
            room: Vec::new(alloc),
        }
    }

    /// The records of each stream, in the order in which they were logged, those of stream 0 first.
    pub fn all(&self) -> &[Vec<Rec>]
        ensures logs { recs_of result.now ≡ self.now.logs }
        ensures streams { length result.now ≡ 64 }
    {
        &self.logs
    }

    /// How many records a stream has.
    pub fn count(&self, stream: u8) -> usize
        requires { stream < 64 }
        ensures { result ≡ length (log_of self.now stream) }
    {
        self.logs[usize::from(stream)].len()
    }

    /// The stream and the record of the first call of the room. None where the room is empty.
    pub fn first(&self) -> Option<(u8, &Rec)>
        ensures { MatchOption result (self.now.room ≡ []) (λ call. IsFirst (call_by call.0 call.1.now) self.now.room) }
    {
        let call = self.room.first()?;
        Some((call.stream, &call.rec))
    }

    /// Makes the first call of the room: its record stands last in its stream's log, and the room lacks the call. It takes no
    /// memory.
    pub fn use_first(&mut self)
        requires { 0 < length self.old.room }
        ensures { (call : Call) → IsFirst call self.old.room → IsCalled (logs_of self.old) call (logs_of self.new) }
    {
        let call = self.room.remove(0);
        use_at(&mut self.logs, call);
    }

    /// Puts a record last in a stream's log, and empties the room. Without memory all is as before.
    pub fn push(&mut self, stream: u8, rec: Rec) -> Result<(), NoMemory>
        requires { stream < 64 }
        ensures log { OnOk result (IsLogged (log_of self.old) (call_by stream rec) (log_of self.new)) }
        ensures room { OnOk result (self.new.room ≡ []) }
        ensures err { OnErr result (AreSame (logs_of self.old) (logs_of self.new)) }
    {
        push_at(&mut self.logs, stream, rec)?;
        self.room.clear();
        Ok(())
    }

    /// Takes the memory for a call that logs this record, and puts the call at the end of the room. Without memory all is as
    /// before. Beside its place in the log, the n-th call of the room takes memory for n records, so a room is to be short.
    pub fn add_room(&mut self, stream: u8, rec: Rec) -> Result<(), NoMemory>
        requires { stream < 64 }
        ensures log { (s : ℕ) → log_of self.new s ≡ log_of self.old s }
        ensures ok { OnOk result (self.new.room ≡ self.old.room ++ call_by stream rec ∷ []) }
        ensures err { OnErr result (self.new.room ≡ self.old.room) }
    {
        let more = self.room.len() + 1;
        let place = Vec::with_capacity(self.alloc, more)?;
        reserve_at(&mut self.logs, stream, more)?;
        self.room.push(RoomCall { stream, rec, place })?;
        Ok(())
    }

    /// Empties the room. It takes no memory.
    pub fn clear_room(&mut self)
        ensures log { (s : ℕ) → log_of self.new s ≡ log_of self.old s }
        ensures room { self.new.room ≡ [] }
    {
        self.room.clear();
    }

    /// Hands out a stream's records in the order in which they were logged, and leaves it none. The room stays. It takes no
    /// memory.
    pub fn take(&mut self, stream: u8) -> Vec<Rec>
        requires { stream < 64 }
        ensures taken { result.items ≡ log_of self.old stream }
        ensures log { IsTaken (log_of self.old) stream (log_of self.new) }
        ensures room { self.new.room ≡ self.old.room }
    {
        take_at(self.alloc, &mut self.logs, stream)
    }
}
