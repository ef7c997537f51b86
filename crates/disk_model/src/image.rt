// The bytes of the images that numbers pick.
ghost use Rattle.std.specs.Prelude.{◌≡◌, ◌||◌, ℕ, ◌+◌, ◌≤◌, ◌<◌, length, reverse, false, if◌then◌else◌, vec_len, slice_index, slice_index_or, EachIndex, IfOk, OnOk};
ghost use Rattle.disk_model.specs.HistoryView.{past_of};
ghost use Rattle.disk_model.specs.Pick.{stable_of, covers_place, is_loose, mixed, loose_byte, IsPicked};
ghost use Rattle.disk_model.specs.Replay.{synced_of, stepped, IsWithin};

use crate::history::History;
use crate::operation::Operation;
use std::alloc::{AllocError, Global};

// What the pick and the place are multiplied by for the number of a loose place.
const PICK_FACTOR: u64 = 6364136223846793005;

const PLACE_FACTOR: u64 = 1442695040888963407;

/// The bytes of the image that a number picks.
///
/// The time is in proportion to the size at the start and now, and to all that was written and grown between.
pub fn image_bytes(history: &History, alloc: Global, pick: u64) -> Result<Vec<u8>, AllocError>
    ensures { IfOk result (λ image. IsPicked history.now.start.items (past_of history.now) pick image.items) }
{
    if pick == 1 {
        return history.bytes.to_vec(alloc);
    }
    let synced = count_synced(&history.operations);
    let mut image = stable_bytes(history, alloc, synced)?;
    if pick == 0 {
        return Ok(image);
    }
    let loose = loose_places(history, alloc, synced)?;
    draw_loose(&mut image, &history.bytes, &loose, pick);
    Ok(image)
}

/// How many operations there are up to the last sync, with it, or 0 where there is none.
fn count_synced(operations: &[Operation]) -> usize
    ensures { result ≡ synced_of (reverse operations.now) }
{
    let mut synced = 0;
    for (i, operation) in operations.iter().enumerate() {
        if let Operation::Sync = operation {
            synced = i + 1;
        }
    }
    synced
}

/// The contents at the last sync, at the size of now.
fn stable_bytes(history: &History, alloc: Global, synced: usize) -> Result<Vec<u8>, AllocError>
    requires { synced ≡ synced_of (past_of history.now) }
    ensures { IfOk result (λ stable. stable.items ≡ stable_of history.now.start.items (past_of history.now)) }
{
    let mut stable = history.start.to_vec(alloc)?;
    for (i, operation) in history.operations.iter().enumerate() {
        step(&mut stable, operation, i < synced)?;
    }
    Ok(stable)
}

/// Performs an operation on the bytes, a write only if it was synced.
fn step(stable: &mut Vec<u8>, operation: &Operation, synced: bool) -> Result<(), AllocError>
    requires { IsWithin operation.now (vec_len stable.old) }
    ensures { OnOk result (stable.new.items ≡ stepped synced operation.now stable.old.items) }
{
    match operation {
        Operation::Write { offset, bytes } => {
            if synced {
                let offset = *offset as usize;
                stable[offset..offset + bytes.len()].copy_from_slice(bytes);
            }
            Ok(())
        }
        Operation::Resize { size } => stable.resize(*size as usize, 0),
        Operation::Sync => Ok(()),
    }
}

/// For each place whether a write since the last sync covers it.
fn loose_places(history: &History, alloc: Global, synced: usize) -> Result<Vec<bool>, AllocError>
    requires { synced ≡ synced_of (past_of history.now) }
    ensures size { IfOk result (λ loose. vec_len loose ≡ vec_len history.now.bytes) }
    ensures places { IfOk result (λ loose. EachIndex loose.items (λ place. slice_index_or loose.items place false ≡ is_loose (past_of history.now) place)) }
{
    let mut loose = vec![in alloc; false; history.bytes.len()]?;
    for (i, operation) in history.operations.iter().enumerate() {
        if synced <= i {
            mark(&mut loose, operation);
        }
    }
    Ok(loose)
}

/// Marks the places that the operation writes.
fn mark(loose: &mut [bool], operation: &Operation)
    ensures { EachIndex loose.new (λ place. slice_index_or loose.new place false ≡ (covers_place operation.now place || slice_index_or loose.old place false)) }
{
    if let Operation::Write { offset, bytes } = operation {
        let from = (*offset as usize).min(loose.len());
        let to = from + bytes.len().min(loose.len() - from);
        for place in from..to {
            loose[place] = true;
        }
    }
}

/// Draws the bytes at the loose places.
fn draw_loose(image: &mut [u8], now: &[u8], loose: &[bool], pick: u64)
    requires now { length now.now ≡ length image.old }
    requires loose { length loose.now ≡ length image.old }
    ensures { EachIndex image.new (λ place. slice_index image.new place ≡ (if slice_index_or loose.now place false then loose_byte (mixed pick place) (slice_index image.old place) (slice_index now.now place) else slice_index image.old place)) }
{
    for place in 0..image.len() {
        if loose[place] {
            image[place] = drawn_byte(pick, place as u64, image[place], now[place]);
        }
    }
}

/// The byte at a loose place, by the stable byte and the byte now.
fn drawn_byte(pick: u64, place: u64, stable: u8, now: u8) -> u8
    ensures { result ≡ loose_byte (mixed pick place) stable now }
{
    let number = pick
        .wrapping_mul(PICK_FACTOR)
        .wrapping_add(place.wrapping_mul(PLACE_FACTOR));
    match (number >> 48) % 4 {
        0 => stable,
        1 => now,
        _ => (number >> 56) as u8,
    }
}
