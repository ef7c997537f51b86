//! The book of the unsealed updates of all streams.
ghost use Rattle.std.specs.Prelude.{◌≡◌, ◌≢◌, ◌<◌, ◌≤◌, ◌+◌, ◌*◌, ◌++◌, ℕ, false, List, [], ◌∷◌, length, slice_set, IfOk, OnOk};
ghost use Rattle.std.specs.List.{filter_map};
ghost use Rattle.tree_model.specs.Laws.{changes_node};
ghost use Rattle.cross_dep.specs.Books.{Call, HasRoom, IsBookOf, IsRoomKept, IsRoomUsed, has_bit, is_met, one_of, without};
ghost use Rattle.cross_dep.specs.Held.{NoneFell, any_clashes, held_at, keys_in};
ghost use Rattle.cross_dep.specs.Kept.{IsMarked};

use super::marks::Marks;
use ccfs_base::NoMemory;
use std::alloc::{AllocError, Global};
use std::array;
use std::marker::Model;
use tree_model::{Key, Update, key_slots};

/// How many streams there are.
const STREAMS: usize = 64;

/// The most keys that an update has.
const KEYS: usize = 6;

/// What the unsealed updates of up to 64 streams, numbered from 0, change and need.
#[derive(Drop)]
pub struct KeyBook {
    // The marks of each stream. Their memory has places for more of them.
    marks: [Marks; STREAMS],
}

impl Model for KeyBook {
    ghost use Rattle.cross_dep.specs.Books.{Book};
    ghost use Rattle.cross_dep.specs.Held.{book_in};

    ghost Value = { Book };

    ghost view = { λ a. book_in a.marks };
}

/// No marks of any stream. It takes no memory.
fn no_marks(alloc: Global) -> [Marks; STREAMS]
    ensures { (stream : ℕ) → (held_at result stream).keys ≡ [] }
{
    array::from_fn(|_| Marks::new(alloc))
}

/// How many keys so many updates have at most.
fn keys_of_all(updates: usize) -> Result<usize, NoMemory>
    ensures { IfOk result (λ keys. keys ≡ 6 * updates) }
{
    updates.checked_mul(KEYS).ok_or(AllocError)
}

/// Makes places for so many more marks of a stream. Without memory all is as before.
fn reserve_at(marks: &mut [Marks], stream: u8, more: usize) -> Result<(), NoMemory>
    requires { stream < length marks.old }
    ensures keys { keys_in marks.new ≡ keys_in marks.old }
    ensures places { NoneFell marks.old marks.new }
    ensures ok { OnOk result (length (held_at marks.old stream).keys + more ≤ (held_at marks.new stream).places) }
{
    marks[usize::from(stream)].reserve(more)
}

/// Marks the keys of an update for a stream. It takes no memory.
fn mark_at(marks: &mut [Marks], stream: u8, update: &Update)
    requires stream { stream < length marks.old }
    requires places { length (held_at marks.old stream).keys + 6 ≤ (held_at marks.old stream).places }
    ensures own { IsMarked (held_at marks.old stream).keys update.now (held_at marks.new stream).keys }
    ensures others { (other : ℕ) → other ≢ stream → held_at marks.new other ≡ held_at marks.old other }
    ensures places { NoneFell marks.old marks.new }
{
    marks[usize::from(stream)].mark_all(update);
}

/// Drops the marks of a stream. Their memory stays.
fn clear_at(marks: &mut [Marks], stream: u8)
    requires { stream < length marks.old }
    ensures keys { keys_in marks.new ≡ slice_set (keys_in marks.old) stream [] }
    ensures places { NoneFell marks.old marks.new }
{
    marks[usize::from(stream)].clear();
}

/// Whether one of the marks clashes with one of the keys in the slots. It takes no memory.
fn any_clashes(marks: &Marks, slots: &[Option<Key>]) -> bool
    ensures { result ≡ any_clashes marks.now.keys (filter_map (λ slot. slot) slots.now) }
{
    for slot in slots {
        if let Some(key) = slot {
            if marks.clashes(key) {
                return true;
            }
        }
    }
    false
}

/// The bits with one of them set, which wasn't, where `on` says so.
fn with_bit(bits: u64, at: usize, on: bool) -> u64
    requires at { at < 64 }
    requires clear { has_bit bits at ≡ false }
    ensures own { has_bit result at ≡ on }
    ensures others { (s : ℕ) → s ≢ at → has_bit result s ≡ has_bit bits s }
{
    if on { bits | 1 << at } else { bits }
}

impl KeyBook {
    /// No updates. It takes no memory.
    pub fn new(alloc: Global) -> KeyBook
        ensures { IsBookOf result [] }
    {
        KeyBook {
            marks: no_marks(alloc),
        }
    }

    /// Adds an unsealed update of a stream that has room for it. It takes no memory.
    pub fn add(&mut self, stream: u8, update: &Update)
        requires stream { stream < 64 }
        requires room { HasRoom self.old stream 1 }
        ensures book { (unsealed : List Call) → IsBookOf self.old unsealed → IsBookOf self.new (unsealed ++ (stream, update.now) ∷ []) }
        ensures room { IsRoomUsed self.old stream self.new }
    {
        mark_at(&mut self.marks, stream, update);
    }

    /// Makes room for so many updates of a stream. It stands over seals of the stream and of others. Without memory there is as
    /// much room as before.
    pub fn reserve(&mut self, stream: u8, updates: usize) -> Result<(), NoMemory>
        requires { stream < 64 }
        ensures marks { self.new.marks ≡ self.old.marks }
        ensures kept { IsRoomKept self.old self.new }
        ensures ok { OnOk result (HasRoom self.new stream updates) }
    {
        let more = keys_of_all(updates)?;
        reserve_at(&mut self.marks, stream, more)
    }

    /// The other streams that have an unsealed update which meets this one: bit s is set for stream s. It takes no memory.
    pub fn met(&self, stream: u8, update: &Update) -> u64
        requires { stream < 64 }
        ensures { (unsealed : List Call) → IsBookOf self.now unsealed → (s : ℕ) → s < 64 → has_bit result s ≡ is_met stream update.now unsealed s }
    {
        let slots = key_slots(update);
        let mut met = 0;
        for (other, marks) in self.marks.iter().enumerate() {
            let meets = other != usize::from(stream) && any_clashes(marks, &slots);
            met = with_bit(met, other, meets);
        }
        met
    }

    /// The streams that have an unsealed update which changes the node: bit s is set for stream s. It takes no memory.
    pub fn changers(&self, id: u32) -> u64
        ensures { (unsealed : List Call) → IsBookOf self.now unsealed → (s : ℕ) → s < 64 → has_bit result s ≡ one_of s (changes_node id) unsealed }
    {
        let needed = Key::Node { id, changed: false };
        let mut changers = 0;
        for (stream, marks) in self.marks.iter().enumerate() {
            changers = with_bit(changers, stream, marks.clashes(&needed));
        }
        changers
    }

    /// Drops a stream's updates, which are sealed. The room of each stream stays. It takes no memory.
    pub fn forget(&mut self, stream: u8)
        requires { stream < 64 }
        ensures book { (unsealed : List Call) → IsBookOf self.old unsealed → IsBookOf self.new (without stream unsealed) }
        ensures room { IsRoomKept self.old self.new }
    {
        clear_at(&mut self.marks, stream);
    }
}
