//! The operations on files that streams have not sealed, and the memory for more.
ghost use Rattle.std.specs.Prelude.{◌≡◌, ◌≢◌, ◌<◌, ◌≤◌, ◌+◌, ℕ, max, [], ◌++◌, length, slice_set, OnOk, vec_len, vec_capacity};
ghost use Rattle.stream_txn.specs.Held.{ops_in, places_of, ops_at, number_at, with_ops, HasRoom, NoneFell};

use super::updates::{STREAMS, Unsealed};
use ccfs_base::NoMemory;
use file_bodies::BodyOp;
use std::alloc::Global;
use std::marker::Model;
use std::{array, mem};

/// The operations of up to 64 streams, numbered from 0.
#[derive(Drop)]
pub struct OpLogs {
    alloc: Global,
    // The operations of each stream, in the order of its updates.
    logs: [Vec<BodyOp>; STREAMS],
}

impl Model for OpLogs {
    ghost use Rattle.stream_txn.specs.Held.{KeptOps, ops_in, places_of, kept_ops};

    ghost Value = { KeptOps };

    ghost view = { λ a. kept_ops (ops_in a.logs) (places_of a.logs) };
}

/// No operations of any stream. It takes no memory.
fn no_ops(alloc: Global) -> [Vec<BodyOp>; STREAMS]
    ensures { (stream : ℕ) → ops_at (ops_in result) stream ≡ [] }
{
    array::from_fn(|_| Vec::new(alloc))
}

/// Puts operations last in a list. Where it has no places for them it is empty, and the list that comes stands for it.
fn append_or_adopt(list: &mut Vec<BodyOp>, mut ops: Vec<BodyOp>)
    requires { vec_len list.old + vec_len ops ≤ max (vec_capacity list.old) (vec_len ops) }
    ensures items { list.new.items ≡ list.old.items ++ ops.items }
    ensures capacity { vec_capacity list.old ≤ vec_capacity list.new }
{
    if list.capacity() - list.len() < ops.len() {
        *list = ops;
    } else {
        list.append(&mut ops).unwrap();
    }
}

/// Puts operations last in a stream's log, which has room for them. It takes no memory.
fn append_at(logs: &mut [Vec<BodyOp>], stream: u8, ops: Vec<BodyOp>)
    requires stream { stream < length logs.old }
    requires room { HasRoom (ops_in logs.old) (places_of logs.old) stream (length ops.items) }
    ensures ops { ops_in logs.new ≡ with_ops (ops_in logs.old) stream ops.items }
    ensures places { NoneFell (places_of logs.old) (places_of logs.new) }
{
    append_or_adopt(&mut logs[usize::from(stream)], ops);
}

/// Makes places for so many more operations in a stream's log.
fn reserve_at(logs: &mut [Vec<BodyOp>], stream: u8, more: usize) -> Result<(), NoMemory>
    requires { stream < length logs.old }
    ensures ops { ops_in logs.new ≡ ops_in logs.old }
    ensures ok { OnOk result (length (ops_at (ops_in logs.new) stream) + more ≤ number_at (places_of logs.new) stream) }
    ensures places { NoneFell (places_of logs.old) (places_of logs.new) }
{
    logs[usize::from(stream)].reserve(more)
}

/// Hands out a stream's log, and leaves it none.
fn take_at(alloc: Global, logs: &mut [Vec<BodyOp>], stream: u8) -> Vec<BodyOp>
    requires { stream < length logs.old }
    ensures taken { result.items ≡ ops_at (ops_in logs.old) stream }
    ensures left { ops_in logs.new ≡ slice_set (ops_in logs.old) stream [] }
    ensures places { (other : ℕ) → other ≢ stream → number_at (places_of logs.new) other ≡ number_at (places_of logs.old) other }
{
    mem::replace(&mut logs[usize::from(stream)], Vec::new(alloc))
}

impl OpLogs {
    /// No operations. It takes no memory.
    pub fn new(alloc: Global) -> OpLogs
        ensures ops { (stream : ℕ) → ops_at result.logs stream ≡ [] }
        ensures streams { length result.logs ≡ 64 }
    {
        OpLogs {
            alloc,
            logs: no_ops(alloc),
        }
    }

    /// Puts an update's operations last in its stream's log, which has room for them. It takes no memory.
    pub fn add(&mut self, update: Unsealed)
        requires stream { update.stream < 64 }
        requires room { HasRoom self.old.logs self.old.spaces update.stream (length update.ops) }
        ensures ops { self.new.logs ≡ with_ops self.old.logs update.stream update.ops }
        ensures places { NoneFell self.old.spaces self.new.spaces }
    {
        append_at(&mut self.logs, update.stream, update.ops.into_vec());
    }

    /// Makes places for so many more operations in a stream's log. Without memory there are as many as before.
    pub fn reserve(&mut self, stream: u8, more: usize) -> Result<(), NoMemory>
        requires { stream < 64 }
        ensures ops { self.new.logs ≡ self.old.logs }
        ensures places { NoneFell self.old.spaces self.new.spaces }
        ensures ok { OnOk result (HasRoom self.new.logs self.new.spaces stream more) }
    {
        reserve_at(&mut self.logs, stream, more)
    }

    /// Hands out a stream's operations in the order of its updates, and leaves it none. The room of each stream stays. It takes no
    /// memory.
    pub fn take(&mut self, stream: u8) -> Vec<BodyOp>
        requires { stream < 64 }
        ensures taken { result.items ≡ ops_at self.old.logs stream }
        ensures left { self.new.logs ≡ slice_set self.old.logs stream [] }
        ensures room { (s count : ℕ) → HasRoom self.old.logs self.old.spaces s count → HasRoom self.new.logs self.new.spaces s count }
    {
        take_at(self.alloc, &mut self.logs, stream)
    }
}
