//! A bitmap in memory.
ghost use Rattle.std.specs.Prelude.{◌≡◌, ◌≢◌, ◌*◌, ◌/◌, ◌<◌, ◌≤◌, ℕ, length, slice_index, IfOk, MatchOption};
ghost use Rattle.free_maps.specs.Maps.{is_set, clear_below, AllSet, IsLowestClear};

use super::bits::{bit, clear_bits, lowest_clear_bit, with_bit};
use ccfs_base::NoMemory;
use std::alloc::Global;
use std::marker::Model;

/// A bitmap of so many items. A contract sees its bytes and the number of its items.
#[derive(Debug, Drop)]
pub struct BitMap {
    bits: Vec<u8>,
    items: u32,
}

impl Model for BitMap {
    ghost use Rattle.std.specs.Prelude.{◌≤◌, ◌*◌, length};
    ghost use Rattle.free_maps.specs.Maps.{Map};

    ghost Value = { Map };

    ghost view = { λ m. record { bytes = m.bits.items; count = m.items } };

    ghost invariant = { λ m. m.items ≤ 8 * length m.bits.items };
}

impl BitMap {
    /// The bitmap of `count` items in these bytes. Bits past the last item are kept as they are.
    pub fn of(alloc: Global, bytes: &[u8], count: u32) -> Result<BitMap, NoMemory>
        requires { count ≤ 8 * length bytes.now }
        ensures bytes { IfOk result (λ map. map.bytes ≡ bytes.now) }
        ensures count { IfOk result (λ map. map.count ≡ count) }
    {
        Ok(BitMap {
            bits: Vec::from_slice(alloc, bytes)?,
            items: count,
        })
    }

    /// Its bytes, as they are written back. There are bits for all items.
    pub fn bytes(&self) -> &[u8]
        ensures bytes { result.now ≡ self.now.bytes }
        ensures enough { self.now.count ≤ 8 * length result.now }
    {
        self.bits.as_slice()
    }

    /// How many items it has.
    pub fn count(&self) -> u32
        ensures { result ≡ self.now.count }
    {
        self.items
    }

    /// Whether the item at this place is used.
    pub fn get(&self, place: u32) -> bool
        requires { place < self.now.count }
        ensures { result ≡ is_set self.now.bytes place }
    {
        bit(self.bits[(place / 8) as usize], place % 8)
    }

    /// Marks the item at this place as used, or as free. All other bits stay as they are, also those past the last item.
    pub fn set(&mut self, place: u32, on: bool)
        requires { place < self.old.count }
        ensures bit { is_set self.new.bytes place ≡ on }
        ensures others { (i : ℕ) → i ≢ place → is_set self.new.bytes i ≡ is_set self.old.bytes i }
        ensures bytes { (k : ℕ) → k ≢ place / 8 → slice_index self.new.bytes k ≡ slice_index self.old.bytes k }
        ensures len { length self.new.bytes ≡ length self.old.bytes }
        ensures count { self.new.count ≡ self.old.count }
    {
        let at = (place / 8) as usize;
        self.bits[at] = with_bit(self.bits[at], place % 8, on);
    }

    /// The lowest free item from `start` on. None exactly where all from there on are used, which they are where `start`
    /// is past the last item.
    pub fn lowest_clear(&self, start: u32) -> Option<u32>
        ensures { MatchOption result (AllSet self.now start) (IsLowestClear self.now start) }
    {
        for at in start / 8..self.items.div_ceil(8) {
            let from = start.saturating_sub(8 * at);
            if let Some(bit) = lowest_clear_bit(self.bits[at as usize], from) {
                let place = 8 * at + bit;
                return (place < self.items).then_some(place);
            }
        }
        None
    }

    /// How many items are free.
    pub fn clear_count(&self) -> u32
        ensures { result ≡ clear_below self.now.bytes self.now.count }
    {
        let mut clear = 0;
        for at in 0..self.items.div_ceil(8) {
            let lowest = (self.items - 8 * at).min(8);
            clear += clear_bits(self.bits[at as usize], lowest);
        }
        clear
    }
}
