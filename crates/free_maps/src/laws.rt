//! What holds of bitmaps: each law is the contract of a function that changes nothing.
ghost use Rattle.std.specs.Prelude.{◌≡◌, ◌≢◌, ◌+◌, ◌<◌, ℕ, true, false};
ghost use Rattle.free_maps.specs.Maps.{is_set, clear_below};

/// Where an item is used in one bitmap and free in another, and all others are the same in both, the one has one free
/// item less. So adding or taking 1 for each item that `set` marks anew keeps a count of free items right.
pub fn a_used_item_is_not_counted(one: &[u8], other: &[u8], place: u32, count: u32)
    requires place { place < count }
    requires used { is_set one.now place ≡ true }
    requires free { is_set other.now place ≡ false }
    requires others { (i : ℕ) → i ≢ place → is_set one.now i ≡ is_set other.now i }
    ensures { clear_below one.now count + 1 ≡ clear_below other.now count }
{}

/// No item is free exactly where all are used. So where the count of free items isn't 0, `lowest_clear` finds one from
/// the first item on.
pub fn none_is_free_where_all_are_used(bytes: &[u8], count: u32)
    ensures none { ((i : ℕ) → i < count → is_set bytes.now i ≡ true) → clear_below bytes.now count ≡ 0 }
    ensures all { clear_below bytes.now count ≡ 0 → (i : ℕ) → i < count → is_set bytes.now i ≡ true }
{}
