//! The unsealed updates of all streams.
ghost use Rattle.std.specs.Prelude.{◌≡◌, ◌<◌, ◌+◌, ◌-◌, ◌^◌, ℕ, List, [], ◌∷◌, ◌++◌, true, false, Option, None, Some, MatchOption, length, OnOk, OnErr, slice_set};
ghost use Rattle.stream_txn.specs.declared.updates.Unsealed.{Unsealed};
ghost use Rattle.stream_txn.specs.Updates.{update_of, of_stream, without, all_but, has_any, weight_of, blocks_of, rows_of};
ghost use Rattle.stream_txn.specs.Accounts.{account_at};
ghost use Rattle.stream_txn.specs.Kept.{AreTxnsOf, blocks_but, rows_but, has_place, placed, roomed, HasOpRoom, IsOpRoomKept, IsOpRoomKeptBut, handed_out, next, batch_of, AreInOrder};

use super::accounts::{Account, no_accounts, raise, take_account};
use super::op_logs::OpLogs;
use super::places::{no_places, push_or_move, take_place};
use super::updates::{STREAMS, Unsealed};
use ccfs_base::{NoMemory, Recs};
use file_bodies::{BodyOps, Sealed};
use std::alloc::Global;
use std::marker::Model;
use std::mem;

/// The updates of up to 64 streams, numbered from 0, that are not sealed, and the queue of the batches that are. Of the updates
/// only sums and the operations on files are kept, so that each question costs a constant.
#[derive(Drop)]
pub struct Txns {
    alloc: Global,
    accounts: [Account; STREAMS],
    // The sums over all streams.
    gave_blocks: u32,
    gave_rows: u32,
    ops: OpLogs,
    // An empty list for batches, with memory for one of each stream, where a place was made for the stream's.
    places: [Option<Vec<Sealed>>; STREAMS],
    // The number of the last batch.
    seals: u64,
    // The batches that wait, in the order of their numbers.
    queue: Vec<Sealed>,
}

impl Model for Txns {
    ghost use Rattle.std.specs.Prelude.{vec_capacity};
    ghost use Rattle.stream_txn.specs.Kept.{TxnLists};
    ghost use Rattle.stream_txn.specs.Space.{kept_in, IsHeld};

    ghost Value = { TxnLists };

    ghost view = { λ t. kept_in t.accounts t.gave_blocks t.gave_rows t.ops t.places t.seals t.queue.items };

    ghost invariant = { λ t. IsHeld (kept_in t.accounts t.gave_blocks t.gave_rows t.ops t.places t.seals t.queue.items) t.places (vec_capacity t.queue) };
}

impl Txns {
    /// No updates and no batches. It takes no memory.
    pub fn new(alloc: Global) -> Txns
        ensures txns { AreTxnsOf result [] }
        ensures places { (stream : ℕ) → has_place result stream ≡ false }
        ensures seals { result.seals ≡ 0 }
        ensures queue { result.queue ≡ [] }
    {
        Txns {
            alloc,
            accounts: no_accounts(),
            gave_blocks: 0,
            gave_rows: 0,
            ops: OpLogs::new(alloc),
            places: no_places(),
            seals: 0,
            queue: Vec::new(alloc),
        }
    }

    /// Adds an update of a stream. Its weight and what it gave up are to fit the sums, and the stream is to have room for its
    /// operations. It takes no memory.
    pub fn add(&mut self, stream: u8, weight: u32, gave_blocks: u32, gave_rows: u32, ops: BodyOps)
        requires stream { stream < 64 }
        requires room { HasOpRoom self.old stream (length ops) }
        requires weight { (account_at self.old.accounts stream).weight + weight < 2 ^ 32 }
        requires blocks { self.old.gave_blocks + gave_blocks < 2 ^ 32 }
        requires rows { self.old.gave_rows + gave_rows < 2 ^ 32 }
        ensures txns { (unsealed : List Unsealed) → AreTxnsOf self.old unsealed → AreTxnsOf self.new (unsealed ++ update_of stream weight gave_blocks gave_rows ops ∷ []) }
        ensures room { IsOpRoomKeptBut self.old stream self.new }
        ensures places { self.new.places ≡ self.old.places }
        ensures seals { self.new.seals ≡ self.old.seals }
        ensures queue { self.new.queue ≡ self.old.queue }
    {
        self.ops.add(Unsealed {
            stream,
            weight,
            gave_blocks,
            gave_rows,
            ops,
        });
        raise(&mut self.accounts, stream, weight, gave_blocks, gave_rows);
        self.gave_blocks += gave_blocks;
        self.gave_rows += gave_rows;
    }

    /// Makes room for a stream's next update with so many operations. It stands over seals of the stream and of others. Without
    /// memory there is as much room as before.
    pub fn reserve_ops(&mut self, stream: u8, count: usize) -> Result<(), NoMemory>
        requires { stream < 64 }
        ensures same { self.new ≡ roomed self.old self.new.spaces }
        ensures kept { IsOpRoomKept self.old self.new }
        ensures ok { OnOk result (HasOpRoom self.new stream count) }
    {
        self.ops.reserve(stream, count)
    }

    /// Makes a place in the queue for a stream's next batch. It stands until the stream's next seal, whatever else is added,
    /// sealed or handed out. Without memory all is as before.
    pub fn reserve(&mut self, stream: u8) -> Result<(), NoMemory>
        requires { stream < 64 }
        ensures ok { OnOk result (self.new ≡ placed self.old stream) }
        ensures there { OnOk result (has_place self.new stream ≡ true) }
        ensures err { OnErr result (self.new ≡ self.old) }
    {
        let place = Vec::with_capacity(self.alloc, STREAMS)?;
        self.queue.reserve(STREAMS)?;
        self.places[usize::from(stream)] = Some(place);
        Ok(())
    }

    /// Whether a stream has a place in the queue, which `reserve` made and no seal has used.
    pub fn is_reserved(&self, stream: u8) -> bool
        requires { stream < 64 }
        ensures { result ≡ has_place self.now stream }
    {
        self.places[usize::from(stream)].is_some()
    }

    /// Whether a stream has an update that is not sealed.
    pub fn is_open(&self, stream: u8) -> bool
        requires { stream < 64 }
        ensures value { result ≡ (account_at self.now.accounts stream).is_open }
        ensures sum { (unsealed : List Unsealed) → AreTxnsOf self.now unsealed → result ≡ has_any (of_stream stream unsealed) }
    {
        self.accounts[usize::from(stream)].is_open
    }

    /// What a stream's updates weigh that are not sealed.
    pub fn weight(&self, stream: u8) -> u32
        requires { stream < 64 }
        ensures value { result ≡ (account_at self.now.accounts stream).weight }
        ensures sum { (unsealed : List Unsealed) → AreTxnsOf self.now unsealed → result ≡ weight_of (of_stream stream unsealed) }
    {
        self.accounts[usize::from(stream)].weight
    }

    /// How many blocks the updates gave up that are not sealed, without those of the stream `but`.
    pub fn gave_blocks(&self, but: Option<u8>) -> u32
        requires { MatchOption but (Unit {0}) (λ stream. stream < 64) }
        ensures value { result ≡ blocks_but self.now but }
        ensures sum { (unsealed : List Unsealed) → AreTxnsOf self.now unsealed → result ≡ blocks_of (all_but but unsealed) }
    {
        match but {
            None => self.gave_blocks,
            Some(stream) => self.gave_blocks - self.accounts[usize::from(stream)].gave_blocks,
        }
    }

    /// How many rows the updates gave up that are not sealed, without those of the stream `but`.
    pub fn gave_rows(&self, but: Option<u8>) -> u32
        requires { MatchOption but (Unit {0}) (λ stream. stream < 64) }
        ensures value { result ≡ rows_but self.now but }
        ensures sum { (unsealed : List Unsealed) → AreTxnsOf self.now unsealed → result ≡ rows_of (all_but but unsealed) }
    {
        match but {
            None => self.gave_rows,
            Some(stream) => self.gave_rows - self.accounts[usize::from(stream)].gave_rows,
        }
    }

    /// The number of the last batch: how many there are, modulo 2^64.
    pub fn seals(&self) -> u64
        ensures { result ≡ self.now.seals }
    {
        self.seals
    }

    /// Seals a stream's updates: the batch of them, with these changes of the metadata and the next number, stands last in the
    /// queue, and the stream has no update left. Something is to be unsealed there, and its place reserved. It takes no memory.
    pub fn seal(&mut self, stream: u8, recs: Recs)
        requires stream { stream < 64 }
        requires open { (account_at self.old.accounts stream).is_open ≡ true }
        requires place { has_place self.old stream ≡ true }
        ensures txns { (unsealed : List Unsealed) → AreTxnsOf self.old unsealed → AreTxnsOf self.new (without stream unsealed) }
        ensures queue { (unsealed : List Unsealed) → AreTxnsOf self.old unsealed → self.new.queue ≡ self.old.queue ++ batch_of stream (next self.old.seals) recs (of_stream stream unsealed) ∷ [] }
        ensures seals { self.new.seals ≡ next self.old.seals }
        ensures places { self.new.places ≡ slice_set self.old.places stream false }
        ensures room { IsOpRoomKept self.old self.new }
    {
        let account = take_account(&mut self.accounts, stream);
        let place = take_place(&mut self.places, stream).unwrap();
        let ops = BodyOps::of(self.ops.take(stream));
        self.gave_blocks -= account.gave_blocks;
        self.gave_rows -= account.gave_rows;
        self.seals = self.seals.wrapping_add(1);
        let batch = Sealed {
            stream,
            number: self.seals,
            weight: account.weight,
            recs,
            ops,
        };
        push_or_move(&mut self.queue, place, batch);
    }

    /// Hands out the batches that wait, in the order of their numbers up to the last, and leaves none. It takes no memory.
    pub fn take_sealed(&mut self) -> Vec<Sealed>
        ensures taken { result.items ≡ self.old.queue }
        ensures order { (first : ℕ) × AreInOrder first result.items self.old.seals }
        ensures left { self.new ≡ handed_out self.old }
    {
        mem::replace(&mut self.queue, Vec::new(self.alloc))
    }
}
