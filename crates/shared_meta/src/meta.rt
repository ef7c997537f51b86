//! The metadata area with the logs of its streams.
ghost use Rattle.std.specs.Prelude.{◌≡◌, ◌<◌, ℕ, ℤ, Bool, List, [], ◌∷◌, ◌++◌, true, length, IsOk, OnOk, OnErr};
ghost use Rattle.std.specs.List.Sorted.{IsPermutation};
ghost use Rattle.ccfs_base.specs.Rooms.{IsFirst};
ghost use Rattle.ccfs_base.specs.Records.{recorded};
ghost use Rattle.range_log.specs.Ranges.{range_call};
ghost use Rattle.delta_log.specs.Deltas.{add_call, bit_call};
ghost use Rattle.shared_meta.specs.Area.{area, area_of, log_of, all_streams, standing, standing_in, MayLog, IsLoggedIn, IsSealed, AreAsBefore, AreSameAreas, IsPlaced, IsShared};
ghost use Rattle.shared_meta.specs.Spots.{MayAct};

use super::logs::Logs;
use super::spots::{Spot, lies_in};
use super::steps::{apply_all, make_copy, put_bytes, put_rec, take_place};
use ccfs_base::{Bytes, NoMemory, Rec, Recs};
use std::alloc::Global;
use std::array;
use std::marker::Model;

/// How many streams there are.
const STREAMS: usize = 64;

/// The metadata area with the logs of up to 64 streams, numbered from 0. Places are in bytes from the area's start.
#[derive(Drop)]
pub struct SharedMeta {
    alloc: Global,
    base: Vec<u8>,
    // The area as it stands. None while nothing is logged: the base is the area.
    copy: Option<Vec<u8>>,
    logs: Logs,
    // An empty list with memory for the log of each stream, where one was made.
    places: [Option<Vec<Rec>>; STREAMS],
}

impl Model for SharedMeta {
    ghost use Rattle.shared_meta.specs.Area.{AreaLists, area};

    ghost Value = { AreaLists };

    ghost use Rattle.shared_meta.specs.Held.{kept_in, IsHeld};

    ghost view = { λ m. kept_in m.base.items m.logs m.places };

    ghost invariant = { λ m. IsHeld (area (kept_in m.base.items m.logs m.places)) m.copy m.places };
}

impl SharedMeta {
    /// The area with these bytes, and no logs. It takes no memory.
    pub fn of(base: Bytes) -> SharedMeta
        ensures { AreSameAreas (area_of base) (area result) }
    {
        let base = base.into_vec();
        let alloc = *base.allocator();
        SharedMeta {
            alloc,
            base,
            copy: None,
            logs: Logs::new(alloc),
            places: array::from_fn(|_| None),
        }
    }

    /// The area as it stands: the base with the logs of all streams put on it, in whatever order of the streams.
    pub fn now(&self) -> &[u8]
        ensures standing { result.now ≡ standing (area self.now) }
        ensures any_order { (order : List ℕ) → IsPermutation all_streams order → result.now ≡ standing_in order (area self.now) }
    {
        match &self.copy {
            Some(copy) => copy.as_slice(),
            None => self.base.as_slice(),
        }
    }

    /// Puts bytes at a place, for a stream. Without memory all is as before. The first call of the room takes no memory.
    pub fn put(&mut self, stream: u8, off: u64, bytes: &[u8]) -> Result<(), NoMemory>
        requires { MayLog (area self.old) (range_call stream off bytes.now) }
        ensures first { IsFirst (range_call stream off bytes.now) self.old.room → IsOk result }
        ensures ok { OnOk result (IsLoggedIn (area self.old) (range_call stream off bytes.now) (area self.new)) }
        ensures now { OnOk result (standing (area self.new) ≡ recorded (standing (area self.old)) (range_call stream off bytes.now).rec) }
        ensures err { OnErr result (AreSameAreas (area self.old) (area self.new)) }
    {
        make_copy(self.alloc, &mut self.copy, &self.base)?;
        self.logs.put(stream, off, bytes)?;
        put_bytes(&mut self.copy, off, bytes);
        self.places[usize::from(stream)] = None;
        Ok(())
    }

    /// Raises a counter of eight bytes, modulo 2^64, for a stream; a negative number lowers it. Otherwise as `put`.
    pub fn add(&mut self, stream: u8, off: u64, by: i64) -> Result<(), NoMemory>
        requires { MayLog (area self.old) (add_call stream off by) }
        ensures first { IsFirst (add_call stream off by) self.old.room → IsOk result }
        ensures ok { OnOk result (IsLoggedIn (area self.old) (add_call stream off by) (area self.new)) }
        ensures now { OnOk result (standing (area self.new) ≡ recorded (standing (area self.old)) (add_call stream off by).rec) }
        ensures err { OnErr result (AreSameAreas (area self.old) (area self.new)) }
    {
        let rec = Rec::Add {
            off,
            by: by.cast_unsigned(),
        };
        make_copy(self.alloc, &mut self.copy, &self.base)?;
        self.logs.add(stream, off, by)?;
        put_rec(&mut self.copy, &rec);
        self.places[usize::from(stream)] = None;
        Ok(())
    }

    /// Sets or clears a bit, 0 to 7 counted from the lowest, for a stream. Otherwise as `put`.
    pub fn flip(&mut self, stream: u8, off: u64, bit: u8, on: bool) -> Result<(), NoMemory>
        requires { MayLog (area self.old) (bit_call stream off bit on) }
        ensures first { IsFirst (bit_call stream off bit on) self.old.room → IsOk result }
        ensures ok { OnOk result (IsLoggedIn (area self.old) (bit_call stream off bit on) (area self.new)) }
        ensures now { OnOk result (standing (area self.new) ≡ recorded (standing (area self.old)) (bit_call stream off bit on).rec) }
        ensures err { OnErr result (AreSameAreas (area self.old) (area self.new)) }
    {
        let rec = Rec::Bit { off, bit, on };
        make_copy(self.alloc, &mut self.copy, &self.base)?;
        self.logs.flip(stream, off, bit, on)?;
        put_rec(&mut self.copy, &rec);
        self.places[usize::from(stream)] = None;
        Ok(())
    }

    /// Whether a call of `put` with these arguments and so many bytes may be made. It looks at each record that is logged.
    pub fn may_put(&self, stream: u8, off: u64, len: u64) -> bool
        ensures forth { result ≡ true → (bytes : List ℕ) → length bytes ≡ len → MayLog (area self.now) (range_call stream off bytes) }
        ensures back { (bytes : List ℕ) → length bytes ≡ len → MayLog (area self.now) (range_call stream off bytes) → result ≡ true }
    {
        self.may_act(stream, Spot::Range { off, len })
    }

    /// The same for calls of `add`, whatever the number.
    pub fn may_add(&self, stream: u8, off: u64) -> bool
        ensures forth { result ≡ true → (by : ℤ) → MayLog (area self.now) (add_call stream off by) }
        ensures back { (by : ℤ) → MayLog (area self.now) (add_call stream off by) → result ≡ true }
    {
        self.may_act(stream, Spot::Counter { off })
    }

    /// The same for calls of `flip`, that set the bit or clear it.
    pub fn may_flip(&self, stream: u8, off: u64, bit: u8) -> bool
        ensures forth { result ≡ true → (on : Bool) → MayLog (area self.now) (bit_call stream off bit on) }
        ensures back { (on : Bool) → MayLog (area self.now) (bit_call stream off bit on) → result ≡ true }
    {
        self.may_act(stream, Spot::Bit { off, bit })
    }

    /// Whether a call at a spot may be made.
    fn may_act(&self, stream: u8, spot: Spot) -> bool
        ensures forth { result ≡ true → MayAct (area self.now) stream spot }
        ensures back { MayAct (area self.now) stream spot → result ≡ true }
    {
        usize::from(stream) < STREAMS
            && lies_in(spot, self.base.len() as u64)
            && self.logs.is_free(stream, spot)
    }

    /// Takes the memory for a call of `put` with these arguments, and puts the call at the end of the room. Without memory all
    /// is as before.
    pub fn put_room(&mut self, stream: u8, off: u64, bytes: &[u8]) -> Result<(), NoMemory>
        requires { stream < 64 }
        ensures kept { AreAsBefore (area self.old) (area self.new) }
        ensures ok { OnOk result (self.new.room ≡ self.old.room ++ range_call stream off bytes.now ∷ []) }
        ensures err { OnErr result (self.new.room ≡ self.old.room) }
    {
        make_copy(self.alloc, &mut self.copy, &self.base)?;
        self.logs.put_room(stream, off, bytes)
    }

    /// The same for a call of `add`.
    pub fn add_room(&mut self, stream: u8, off: u64, by: i64) -> Result<(), NoMemory>
        requires { stream < 64 }
        ensures kept { AreAsBefore (area self.old) (area self.new) }
        ensures ok { OnOk result (self.new.room ≡ self.old.room ++ add_call stream off by ∷ []) }
        ensures err { OnErr result (self.new.room ≡ self.old.room) }
    {
        make_copy(self.alloc, &mut self.copy, &self.base)?;
        self.logs.add_room(stream, off, by)
    }

    /// The same for a call of `flip`.
    pub fn flip_room(&mut self, stream: u8, off: u64, bit: u8, on: bool) -> Result<(), NoMemory>
        requires { stream < 64 }
        ensures kept { AreAsBefore (area self.old) (area self.new) }
        ensures ok { OnOk result (self.new.room ≡ self.old.room ++ bit_call stream off bit on ∷ []) }
        ensures err { OnErr result (self.new.room ≡ self.old.room) }
    {
        make_copy(self.alloc, &mut self.copy, &self.base)?;
        self.logs.flip_room(stream, off, bit, on)
    }

    /// Empties the room. It takes no memory.
    pub fn clear_room(&mut self)
        ensures kept { AreAsBefore (area self.old) (area self.new) }
        ensures room { self.new.room ≡ [] }
    {
        self.logs.clear_room();
    }

    /// Makes a place for what `seal` hands out of a stream's log. It stands until the stream's next put, add or flip.
    pub fn reserve(&mut self, stream: u8) -> Result<(), NoMemory>
        requires { stream < 64 }
        ensures ok { OnOk result (IsPlaced (area self.old) stream (area self.new)) }
        ensures err { OnErr result (AreSameAreas (area self.old) (area self.new)) }
    {
        self.places[usize::from(stream)] = Some(self.logs.place(stream)?);
        Ok(())
    }

    /// Hands out what does to every area of that size what the stream's log does in its order: its ranges, and then its raises
    /// and flips. It puts them on the base and leaves the stream none. The room stays. It takes no memory.
    pub fn seal(&mut self, stream: u8) -> Recs
        requires stream { stream < 64 }
        requires place { (area self.old).places stream ≡ true }
        ensures handed { result ≡ log_of (area self.old) stream }
        ensures sealed { IsSealed (area self.old) stream (area self.new) }
        ensures stays { standing (area self.new) ≡ standing (area self.old) }
    {
        let mut sealed = take_place(&mut self.places, stream).unwrap();
        self.logs.take(stream, &mut sealed);
        apply_all(&mut self.base, &sealed);
        Recs::of(sealed)
    }

    /// The logs lie in the area, and those of different streams don't disturb each other.
    pub fn is_shared(&self)
        ensures { IsShared (area self.now) }
    {
        let _ = &self.base;
    }
}
