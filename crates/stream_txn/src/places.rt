//! The places of batches in the queue.
ghost use Rattle.std.specs.Prelude.{ℕ, ◌≡◌, ◌<◌, ◌≤◌, max, [], ◌∷◌, ◌++◌, None, length, slice_index_or, slice_set, vec_len, vec_capacity};

use super::updates::STREAMS;
use file_bodies::Sealed;
use std::{array, mem};

/// No place of any stream.
pub fn no_places() -> [Option<Vec<Sealed>>; STREAMS]
    ensures { (stream : ℕ) → slice_index_or result stream None ≡ None }
{
    array::from_fn(|_| None)
}

/// Hands out the place of a stream, and leaves it none.
pub fn take_place(places: &mut [Option<Vec<Sealed>>], stream: u8) -> Option<Vec<Sealed>>
    requires { stream < length places.old }
    ensures taken { result ≡ slice_index_or places.old stream None }
    ensures left { places.new ≡ slice_set places.old stream None }
{
    mem::replace(&mut places[usize::from(stream)], None)
}

/// Puts a batch last in the queue. Where the queue is full, its batches move to the place, an empty list that has memory for one
/// more. It takes no memory.
pub fn push_or_move(queue: &mut Vec<Sealed>, mut place: Vec<Sealed>, batch: Sealed)
    requires empty { place.items ≡ [] }
    requires room { vec_len queue.old < max (vec_capacity queue.old) (vec_capacity place) }
    ensures items { queue.new.items ≡ queue.old.items ++ batch ∷ [] }
    ensures capacity { vec_capacity queue.old ≤ vec_capacity queue.new }
{
    if queue.len() == queue.capacity() {
        place.append(queue).unwrap();
        *queue = place;
    }
    queue.push(batch).unwrap();
}
