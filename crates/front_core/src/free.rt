//! The inodes that new rows may get.
ghost use Rattle.std.specs.Prelude.{◌≡◌, ◌<◌, ◌≤◌, ◌++◌, ℕ, List, [], ◌∷◌, true, false, min, length, IfOk, IfSome, OnOk, OnErr, MatchOption, slice_index_or, slice_set, Bool};
ghost use Rattle.tree_model.specs.declared.rows.Update.TheVariants.{Make};
ghost use Rattle.tree_model.specs.Rows.{Rows, IsTree};
ghost use Rattle.tree_model.specs.Updates.{apply, Fits};
ghost use Rattle.tree_cuts.specs.Calls.{Charge, Charged};
ghost use Rattle.stream_cuts.specs.Streams.{without};
ghost use Rattle.free_maps.specs.Maps.{is_set};
ghost use Rattle.carried_volumes.specs.Plain.{IsDense};
ghost use Rattle.carried_volumes.specs.Carried.{HaveInodes};
ghost use Rattle.cross_dep.specs.Books.{has_bit};
ghost use Rattle.update_records.specs.Built.{is_built, AreSerialsBelow};
ghost use Rattle.front_laws.specs.Inodes.{IsFree, IsLowestFree, dropped, given_by, has};
ghost use Rattle.front_laws.specs.Owned.{AreOwned};
ghost use Rattle.front_core.specs.Free.{AreTaken, AreBelow, MakesTheLast, IsLowestOf, IsThisOrIn, given_at, list_at, lists_in, places_in, but_of};

use ccfs_base::NoMemory;
use free_maps::BitMap;
use std::alloc::Global;
use std::array;
use std::marker::Model;
use tree_model::Update;

/// How many streams there are.
const STREAMS: usize = 64;

/// The inodes of an image that rows have or that streams gave up and have not sealed: none of them is given to a new row.
#[derive(Drop)]
pub struct FreeInodes {
    // A set bit is an inode that is taken. The bits of the inodes 0 and 1, which no new row gets, don't matter.
    taken: BitMap,
    // What each stream gave up, in the order of its updates.
    given: [Vec<u32>; STREAMS],
}

impl Model for FreeInodes {
    ghost use Rattle.front_core.specs.Free.{Taken, lists_in, places_in, AreBelow};

    ghost Value = { Taken };

    ghost view = { λ a. record { count = a.taken.count; bits = a.taken.bytes; given = lists_in a.given; places = places_in a.given } };

    ghost invariant = { λ a. AreBelow a.taken.count (lists_in a.given) };
}

/// No inodes of any stream. It takes no memory.
fn none_given(alloc: Global) -> [Vec<u32>; STREAMS]
    ensures { (stream : ℕ) → list_at (lists_in result) stream ≡ [] }
{
    array::from_fn(|_| Vec::new(alloc))
}

/// A bitmap of so many items, all of them clear.
fn clear_map(alloc: Global, count: u32) -> Result<BitMap, NoMemory>
    ensures clear { IfOk result (λ map. (i : ℕ) → is_set map.bytes i ≡ false) }
    ensures count { IfOk result (λ map. map.count ≡ count) }
{
    let bytes = vec![in alloc; 0u8; count.div_ceil(8) as usize]?;
    BitMap::of(alloc, &bytes, count)
}

/// Marks all inodes of a list as taken, or as free. The others stay as they are.
fn mark_all(taken: &mut BitMap, inodes: &[u32], on: bool)
    requires { (i : ℕ) → has i inodes.now ≡ true → i < taken.old.count }
    ensures own { (i : ℕ) → has i inodes.now ≡ true → is_set taken.new.bytes i ≡ on }
    ensures others { (i : ℕ) → has i inodes.now ≡ false → is_set taken.new.bytes i ≡ is_set taken.old.bytes i }
    ensures count { taken.new.count ≡ taken.old.count }
{
    for inode in inodes {
        taken.set(*inode, on);
    }
}

/// Marks the inodes of a stream's list as free. The others stay as they are.
fn free_at(taken: &mut BitMap, given: &[Vec<u32>], stream: u8)
    requires stream { stream < length given.now }
    requires below { AreBelow taken.old.count (lists_in given.now) }
    ensures own { (i : ℕ) → has i (list_at (lists_in given.now) stream) ≡ true → is_set taken.new.bytes i ≡ false }
    ensures others { (i : ℕ) → has i (list_at (lists_in given.now) stream) ≡ false → is_set taken.new.bytes i ≡ is_set taken.old.bytes i }
    ensures count { taken.new.count ≡ taken.old.count }
{
    mark_all(taken, &given[usize::from(stream)], false);
}

/// Makes a place for one more inode in a stream's list. Without memory all is as before.
fn reserve_at(given: &mut [Vec<u32>], stream: u8) -> Result<(), NoMemory>
    requires { stream < length given.old }
    ensures lists { lists_in given.new ≡ lists_in given.old }
    ensures ok { OnOk result (length (list_at (lists_in given.new) stream) < slice_index_or (places_in given.new) stream 0) }
{
    given[usize::from(stream)].reserve(1)
}

/// Puts an inode last in a stream's list. It takes no memory.
fn push_at(given: &mut [Vec<u32>], stream: u8, inode: u32)
    requires stream { stream < length given.old }
    requires place { length (list_at (lists_in given.old) stream) < slice_index_or (places_in given.old) stream 0 }
    ensures { lists_in given.new ≡ slice_set (lists_in given.old) stream (list_at (lists_in given.old) stream ++ inode ∷ []) }
{
    given[usize::from(stream)].push_reserved(inode);
}

/// Empties a stream's list. Its memory stays.
fn clear_at(given: &mut [Vec<u32>], stream: u8)
    requires { stream < length given.old }
    ensures lists { lists_in given.new ≡ slice_set (lists_in given.old) stream [] }
    ensures places { places_in given.new ≡ places_in given.old }
{
    given[usize::from(stream)].clear();
}

/// Whether a bit is set.
fn has_bit(bits: u64, at: usize) -> bool
    requires { at < 64 }
    ensures { result ≡ has_bit bits at }
{
    bits >> at & 1 == 1
}

/// The lower of an inode, if there is one, and another.
fn lower(first: Option<u32>, inode: u32) -> u32
    ensures { MatchOption first (result ≡ inode) (λ low. result ≡ min low inode) }
{
    first.map_or(inode, |low| low.min(inode))
}

/// The lowest of an inode, if there is one, and those of a list.
fn lowest_with(first: Option<u32>, inodes: &[u32]) -> Option<u32>
    ensures { IsLowestOf (IsThisOrIn first inodes.now) result }
{
    let mut lowest = first;
    for inode in inodes {
        lowest = Some(lower(lowest, *inode));
    }
    lowest
}

/// The serial of the row that an update drops, where it drops one.
fn dropped_row(update: &Update) -> Option<u32>
    ensures { MatchOption result (dropped update.now ≡ []) (λ id. dropped update.now ≡ id ∷ []) }
{
    match update {
        Update::Remove {
            id,
            stays: false,
            ..
        } => Some(*id),
        Update::Release { id } => Some(*id),
        Update::Move {
            replaced,
            stays: false,
            ..
        } => *replaced,
        _ => None,
    }
}

/// The inode of the row that an update drops, where it drops one. The inode of each serial is in the list.
fn dropped_inode(update: &Update, inodes: &[u32]) -> Option<u32>
    ensures listed { IfSome result (λ i. has i inodes.now ≡ true) }
    ensures given { is_built update.now ≡ true → AreSerialsBelow (length inodes.now) update.now
        → MatchOption result (given_by inodes.now update.now ≡ []) (λ i. given_by inodes.now update.now ≡ i ∷ []) }
{
    let id = dropped_row(update)?;
    inodes.get(id as usize).copied()
}

impl FreeInodes {
    /// Those of an image of so many inodes in which rows have these.
    pub fn of(alloc: Global, count: u32, inodes: &[u32]) -> Result<FreeInodes, NoMemory>
        requires { (i : ℕ) → i < length inodes.now → slice_index_or inodes.now i 0 < count }
        ensures count { IfOk result (λ free. free.count ≡ count) }
        ensures taken { (t : Rows) → HaveInodes count inodes.now t → IsDense t (length inodes.now) → IfOk result (λ free. AreTaken count inodes.now t [] free) }
    {
        let mut taken = clear_map(alloc, count)?;
        mark_all(&mut taken, inodes, true);
        Ok(FreeInodes {
            taken,
            given: none_given(alloc),
        })
    }

    /// Makes a place for one more inode that a stream gives up. Without memory all is as before.
    pub fn reserve(&mut self, stream: u8) -> Result<(), NoMemory>
        requires { stream < 64 }
        ensures taken { (count : ℕ) (inodes : List ℕ) (t : Rows) (unsealed : List (ℕ × Charged)) → AreTaken count inodes t unsealed self.old → AreTaken count inodes t unsealed self.new }
        ensures count { self.new.count ≡ self.old.count }
        ensures place { OnOk result (length (given_at self.new stream) < slice_index_or self.new.places stream 0) }
    {
        reserve_at(&mut self.given, stream)
    }

    /// The lowest inode from 2 on that is free once the streams are sealed whose bits are set. None where there is none.
    pub fn lowest(&self, sealed: u64) -> Option<u32>
        ensures { (count : ℕ) (inodes : List ℕ) (t : Rows) (unsealed : List (ℕ × Charged)) → AreOwned inodes t unsealed → AreTaken count inodes t unsealed self.now
            → MatchOption result ((i : ℕ) → 2 ≤ i → i < count → IsFree inodes t (but_of sealed unsealed) i → ⊥) (λ i. IsLowestFree count inodes t (but_of sealed unsealed) i) }
    {
        let mut lowest = self.taken.lowest_clear(2);
        for (stream, given) in self.given.iter().enumerate() {
            if has_bit(sealed, stream) {
                lowest = lowest_with(lowest, given);
            }
        }
        lowest
    }

    /// Frees the inodes that a stream gave up, since it is sealed. It takes no memory.
    pub fn release(&mut self, stream: u8)
        requires { stream < 64 }
        ensures taken { (count : ℕ) (inodes : List ℕ) (t : Rows) (unsealed : List (ℕ × Charged)) → AreOwned inodes t unsealed → AreTaken count inodes t unsealed self.old → AreTaken count inodes t (without stream unsealed) self.new }
        ensures count { self.new.count ≡ self.old.count }
        ensures places { self.new.places ≡ self.old.places }
    {
        free_at(&mut self.taken, &self.given, stream);
        clear_at(&mut self.given, stream);
    }

    /// Takes the inode of a row that an update of a stream makes, or keeps aside that of a row that it drops. The inode of each serial
    /// is in the list, that of the new row last. It takes no memory.
    pub fn enter(&mut self, stream: u8, update: &Update, inodes: &[u32])
        requires stream { stream < 64 }
        requires place { length (given_at self.old stream) < slice_index_or self.old.places stream 0 }
        requires serials { AreSerialsBelow (length inodes.now) update.now }
        requires built { is_built update.now ≡ true }
        requires below { (i : ℕ) → has i (given_by inodes.now update.now) ≡ true → i < self.old.count }
        requires made { (dir : ℕ) (name : List ℕ) (id : ℕ) (is_dir : Bool) → update.now ≡ Make dir name id is_dir → slice_index_or inodes.now id 0 < self.old.count }
        ensures taken { (count : ℕ) (t : Rows) (unsealed : List (ℕ × Charged)) (cost : Charge) → IsTree t → HaveInodes count inodes.now t → AreOwned inodes.now t unsealed → Fits t update.now → is_built update.now ≡ true
            → MakesTheLast count inodes.now t unsealed update.now → AreTaken count inodes.now t unsealed self.old → AreTaken count inodes.now (apply t update.now) ((stream, (update.now, cost)) ∷ unsealed) self.new }
        ensures count { self.new.count ≡ self.old.count }
    {
        if let Update::Make { id, .. } = update {
            self.taken.set(inodes[*id as usize], true);
        } else if let Some(inode) = dropped_inode(update, inodes) {
            push_at(&mut self.given, stream, inode);
        }
    }
}
