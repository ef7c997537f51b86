//! The log of ranges, and the log of raises and flips, with one room for the calls of both.
ghost use Rattle.std.specs.Prelude.{◌≡◌, ◌<◌, ◌≤◌, ◌+◌, ℕ, [], ◌∷◌, ◌++◌, true, length, IfOk, IsOk, OnOk, OnErr, Some};
ghost use Rattle.ccfs_base.specs.Rooms.{IsFirst};
ghost use Rattle.ccfs_base.specs.Logs.{IsTaken};
ghost use Rattle.range_log.specs.Ranges.{range_call, is_clear_of};
ghost use Rattle.delta_log.specs.Deltas.{add_call, bit_call};
ghost use Rattle.shared_meta.specs.declared.logs.Kind.TheVariants as kinds;
ghost use Rattle.shared_meta.specs.Merged.{list_at, IsCalledIn, AreLogsKept};
ghost use Rattle.shared_meta.specs.Held.{IsPlaceFor};
ghost use Rattle.shared_meta.specs.Spots.{IsFreeSpot};

use super::spots::{Spot, is_free_of_all, is_free_of_others, is_range};
use ccfs_base::{NoMemory, Rec};
use delta_log::DeltaLog;
use range_log::RangeLog;
use std::alloc::{AllocError, Global};
use std::marker::Model;

/// Which of the two logs a call goes to.
#[derive(Clone, Copy)]
enum Kind {
    /// The log of ranges.
    Range,
    /// The log of raises and flips.
    Delta,
}

/// The ranges, and the raises and flips, of up to 64 streams.
#[derive(Drop)]
pub struct Logs {
    alloc: Global,
    ranges: RangeLog,
    deltas: DeltaLog,
    // Which log each call of the room goes to, the first call first.
    order: Vec<Kind>,
}

impl Model for Logs {
    ghost use Rattle.shared_meta.specs.Merged.{Both, merged, AreMerged};

    ghost Value = { Both };

    ghost view = { λ l. record { ranges = l.ranges.logs; deltas = l.deltas.logs; room = merged l.order.items l.ranges.room l.deltas.room } };

    ghost invariant = { λ l. AreMerged l.order.items l.ranges.room l.deltas.room };
}

/// Whether the first call of the room is a range.
fn is_range_next(order: &[Kind]) -> bool
    ensures forth { result ≡ true → IsFirst kinds.Range order.now }
    ensures back { IsFirst kinds.Range order.now → result ≡ true }
{
    matches!(order.first(), Some(Kind::Range))
}

/// Whether the first call of the room is a raise or a flip.
fn is_delta_next(order: &[Kind]) -> bool
    ensures forth { result ≡ true → IsFirst kinds.Delta order.now }
    ensures back { IsFirst kinds.Delta order.now → result ≡ true }
{
    matches!(order.first(), Some(Kind::Delta))
}

impl Logs {
    /// No records. It takes no memory.
    pub fn new(alloc: Global) -> Logs
        ensures ranges { (s : ℕ) → list_at result.ranges s ≡ [] }
        ensures deltas { (s : ℕ) → list_at result.deltas s ≡ [] }
        ensures room { result.room ≡ [] }
    {
        Logs {
            alloc,
            ranges: RangeLog::new(alloc),
            deltas: DeltaLog::new(alloc),
            order: Vec::new(alloc),
        }
    }

    /// Logs that bytes are put at a place. Without memory all is as before. The first call of the room takes no memory.
    pub fn put(&mut self, stream: u8, off: u64, bytes: &[u8]) -> Result<(), NoMemory>
        requires stream { stream < 64 }
        requires clear { is_clear_of (list_at self.old.ranges) stream off (length bytes.now) ≡ true }
        ensures first { IsFirst (range_call stream off bytes.now) self.old.room → IsOk result }
        ensures ok { OnOk result (IsCalledIn self.old (range_call stream off bytes.now) self.new) }
        ensures err { OnErr result (AreLogsKept self.old self.new) }
        ensures err_room { OnErr result (self.new.room ≡ self.old.room) }
    {
        let first = is_range_next(&self.order) && self.ranges.is_first_put(stream, off, bytes);
        self.ranges.put(stream, off, bytes)?;
        if first {
            self.order.remove(0);
        } else {
            self.ranges.clear_room();
            self.deltas.clear_room();
            self.order.clear();
        }
        Ok(())
    }

    /// Logs that a counter of eight bytes is raised, modulo 2^64; a negative number lowers it. Otherwise as `put`.
    pub fn add(&mut self, stream: u8, off: u64, by: i64) -> Result<(), NoMemory>
        requires { stream < 64 }
        ensures first { IsFirst (add_call stream off by) self.old.room → IsOk result }
        ensures ok { OnOk result (IsCalledIn self.old (add_call stream off by) self.new) }
        ensures err { OnErr result (AreLogsKept self.old self.new) }
        ensures err_room { OnErr result (self.new.room ≡ self.old.room) }
    {
        let first = is_delta_next(&self.order) && self.deltas.is_first_add(stream, off, by);
        self.deltas.add(stream, off, by)?;
        if first {
            self.order.remove(0);
        } else {
            self.ranges.clear_room();
            self.deltas.clear_room();
            self.order.clear();
        }
        Ok(())
    }

    /// Logs that a bit, 0 to 7 counted from the lowest, is set or cleared. Otherwise as `put`.
    pub fn flip(&mut self, stream: u8, off: u64, bit: u8, on: bool) -> Result<(), NoMemory>
        requires { stream < 64 }
        ensures first { IsFirst (bit_call stream off bit on) self.old.room → IsOk result }
        ensures ok { OnOk result (IsCalledIn self.old (bit_call stream off bit on) self.new) }
        ensures err { OnErr result (AreLogsKept self.old self.new) }
        ensures err_room { OnErr result (self.new.room ≡ self.old.room) }
    {
        let first = is_delta_next(&self.order) && self.deltas.is_first_bit(stream, off, bit, on);
        self.deltas.bit(stream, off, bit, on)?;
        if first {
            self.order.remove(0);
        } else {
            self.ranges.clear_room();
            self.deltas.clear_room();
            self.order.clear();
        }
        Ok(())
    }

    /// Takes the memory for a call of `put` with these arguments, and puts the call at the end of the room. Without memory
    /// all is as before.
    pub fn put_room(&mut self, stream: u8, off: u64, bytes: &[u8]) -> Result<(), NoMemory>
        requires { stream < 64 }
        ensures kept { AreLogsKept self.old self.new }
        ensures ok { OnOk result (self.new.room ≡ self.old.room ++ range_call stream off bytes.now ∷ []) }
        ensures err { OnErr result (self.new.room ≡ self.old.room) }
    {
        self.order.reserve(1)?;
        self.ranges.put_room(stream, off, bytes)?;
        self.order.push_reserved(Kind::Range);
        Ok(())
    }

    /// The same for a call of `add`.
    pub fn add_room(&mut self, stream: u8, off: u64, by: i64) -> Result<(), NoMemory>
        requires { stream < 64 }
        ensures kept { AreLogsKept self.old self.new }
        ensures ok { OnOk result (self.new.room ≡ self.old.room ++ add_call stream off by ∷ []) }
        ensures err { OnErr result (self.new.room ≡ self.old.room) }
    {
        self.order.reserve(1)?;
        self.deltas.add_room(stream, off, by)?;
        self.order.push_reserved(Kind::Delta);
        Ok(())
    }

    /// The same for a call of `flip`.
    pub fn flip_room(&mut self, stream: u8, off: u64, bit: u8, on: bool) -> Result<(), NoMemory>
        requires { stream < 64 }
        ensures kept { AreLogsKept self.old self.new }
        ensures ok { OnOk result (self.new.room ≡ self.old.room ++ bit_call stream off bit on ∷ []) }
        ensures err { OnErr result (self.new.room ≡ self.old.room) }
    {
        self.order.reserve(1)?;
        self.deltas.bit_room(stream, off, bit, on)?;
        self.order.push_reserved(Kind::Delta);
        Ok(())
    }

    /// Empties the room. It takes no memory.
    pub fn clear_room(&mut self)
        ensures kept { AreLogsKept self.old self.new }
        ensures room { self.new.room ≡ [] }
    {
        self.ranges.clear_room();
        self.deltas.clear_room();
        self.order.clear();
    }

    /// Whether a call at a spot disturbs no record of other streams, and a range no raise or flip of its own. It looks at each
    /// record.
    pub fn is_free(&self, stream: u8, spot: Spot) -> bool
        requires { stream < 64 }
        ensures forth { result ≡ true → IsFreeSpot (list_at self.now.ranges) (list_at self.now.deltas) stream spot }
        ensures back { IsFreeSpot (list_at self.now.ranges) (list_at self.now.deltas) stream spot → result ≡ true }
    {
        let deltas = self.deltas.all();
        is_free_of_others(spot, self.ranges.all(), stream)
            && is_free_of_others(spot, deltas, stream)
            && (!is_range(spot) || is_free_of_all(spot, &deltas[usize::from(stream)]))
    }

    /// An empty list with places for all that a stream has logged.
    pub fn place(&self, stream: u8) -> Result<Vec<Rec>, NoMemory>
        requires { stream < 64 }
        ensures { IfOk result (λ place. IsPlaceFor (length (list_at self.now.ranges stream) + length (list_at self.now.deltas stream)) (Some place)) }
    {
        let size = self
            .ranges
            .count(stream)
            .checked_add(self.deltas.count(stream))
            .ok_or(AllocError)?;
        Vec::with_capacity(self.alloc, size)
    }

    /// Moves all that a stream has logged to the end of a list, its ranges first, and leaves the stream none. The room stays. It
    /// takes no memory.
    pub fn take(&mut self, stream: u8, place: &mut Vec<Rec>)
        requires stream { stream < 64 }
        requires place { IsPlaceFor (length (list_at self.old.ranges stream) + length (list_at self.old.deltas stream)) (Some place.old) }
        ensures taken { place.new.items ≡ list_at self.old.ranges stream ++ list_at self.old.deltas stream }
        ensures ranges { IsTaken (list_at self.old.ranges) stream (list_at self.new.ranges) }
        ensures deltas { IsTaken (list_at self.old.deltas) stream (list_at self.new.deltas) }
        ensures room { self.new.room ≡ self.old.room }
    {
        place.append(&mut self.ranges.take(stream)).unwrap();
        place.append(&mut self.deltas.take(stream)).unwrap();
    }
}
