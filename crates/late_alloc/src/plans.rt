//! The choice of blocks.
ghost use Rattle.std.specs.Prelude.{◌≡◌, ◌≤◌, ◌<◌, ◌+◌, ◌^◌, ◌++◌, length, take, drop, All, IfOk, OnOk};
ghost use Rattle.ccfs_base.specs.Limits.{file_max};
ghost use Rattle.late_alloc.specs.Lengths.{IsWithin};
ghost use Rattle.block_maps.specs.Maps.{IsWhole};
ghost use Rattle.block_maps.specs.Uses as uses;
ghost use Rattle.late_alloc.specs.Choice.{IsAnswer, is_unheld, unheld};
ghost use Rattle.late_alloc.specs.Gaining.{own_gains, gains_by};
ghost use Rattle.late_alloc.specs.Reaches.{news, given_by};

use super::changes::{Reach, reaches};
use super::fault::PlanFault;
use block_maps::{Gain, Maps, Plan, block_count, new_count, use_at};
use ccfs_base::NoMemory;
use file_bodies::Sealed;
use free_maps::BitMap;
use reuse_hold::Held;
use std::alloc::Global;

/// Chooses the blocks that a batch gains, and tells those that it gives up. Bit i of the bitmap is of block `first + i` of the
/// image, and the holds are by blocks of the image. Whatever it answers, all is as before.
pub fn plan(
    alloc: Global,
    maps: &Maps,
    free: &BitMap,
    held: &Held,
    first: u32,
    batch: &Sealed,
) -> Result<Plan, PlanFault>
    requires inodes { length maps.now ≤ 8192 }
    requires whole { All IsWhole maps.now }
    requires within { All (IsWithin (length maps.now)) batch.now.ops }
    requires blocks { first + free.now.count ≤ length held.now }
    requires fits { first + free.now.count < 2 ^ 32 }
    ensures { IsAnswer maps.now batch.now.ops (unheld free.now held.now first) result }
{
    let reaches = reaches(alloc, maps, batch.ops.all())?;
    let need = needed(&reaches);
    let blocks = lowest_unheld(alloc, free, held, first, need)?;
    if blocks.len() < need {
        return Err(PlanFault::Short {
            need: need as u32,
            free: blocks.len() as u32,
        });
    }
    Ok(Plan {
        gained: gains(alloc, &reaches, &blocks)?,
        given: given(alloc, maps, &reaches)?,
    })
}

/// The lowest blocks that are neither used nor held, so many or as many as there are.
fn lowest_unheld(
    alloc: Global,
    free: &BitMap,
    held: &Held,
    first: u32,
    most: usize,
) -> Result<Vec<u32>, NoMemory>
    requires blocks { first + free.now.count ≤ length held.now }
    requires fits { first + free.now.count < 2 ^ 32 }
    ensures { IfOk result (λ blocks. blocks.items ≡ take most (unheld free.now held.now first)) }
{
    let mut blocks = Vec::new(alloc);
    for item in 0..free.count() {
        if blocks.len() == most {
            return Ok(blocks);
        }
        if is_free(free, held, first, item) {
            blocks.push(first + item)?;
        }
    }
    Ok(blocks)
}

/// Whether a data block is neither used nor held.
fn is_free(free: &BitMap, held: &Held, first: u32, item: u32) -> bool
    requires item { item < free.now.count }
    requires blocks { first + free.now.count ≤ length held.now }
    requires fits { first + free.now.count < 2 ^ 32 }
    ensures { result ≡ is_unheld free.now held.now first item }
{
    !free.get(item) && !held.holds(first + item)
}

/// How many new blocks files need.
fn needed(reaches: &[Reach]) -> usize
    requires few { length reaches.now ≤ 8192 }
    requires ends { All (λ reach. reach.end ≤ file_max) reaches.now }
    ensures count { result ≡ length (news reaches.now) }
    ensures fits { result < 2 ^ 32 }
{
    let mut need = 0;
    for reach in reaches {
        need += new_count(reach.least, reach.end);
    }
    need
}

/// The new blocks of files, of which each takes as many as it needs.
fn gains(alloc: Global, reaches: &[Reach], blocks: &[u32]) -> Result<Vec<Gain>, NoMemory>
    requires ends { All (λ reach. reach.end ≤ file_max) reaches.now }
    requires enough { length (news reaches.now) ≤ length blocks.now }
    ensures { IfOk result (λ gained. gained.items ≡ gains_by reaches.now blocks.now) }
{
    let mut gained = Vec::with_capacity(alloc, blocks.len())?;
    let mut rest = blocks;
    for reach in reaches {
        let (new, others) = rest.split_at(new_count(reach.least, reach.end));
        add_gains(&mut gained, reach, new)?;
        rest = others;
    }
    Ok(gained)
}

/// Puts the new blocks of one file last.
fn add_gains(gained: &mut Vec<Gain>, reach: &Reach, new: &[u32]) -> Result<(), NoMemory>
    requires end { reach.now.end ≤ file_max }
    requires new { length new.now ≡ uses.new_count reach.now.least reach.now.end }
    ensures { OnOk result (gained.new.items ≡ gained.old.items ++ own_gains reach.now new.now) }
{
    let mut place = block_count(reach.least);
    for block in new {
        gained.push(Gain {
            inode: reach.inode,
            page: use_at(place),
            block: *block,
        })?;
        place += 1;
    }
    Ok(())
}

/// The blocks that files give up.
fn given(alloc: Global, maps: &Maps, reaches: &[Reach]) -> Result<Vec<u32>, NoMemory>
    requires whole { All IsWhole maps.now }
    requires inodes { All (λ reach. reach.inode < length maps.now) reaches.now }
    ensures { IfOk result (λ given. given.items ≡ given_by maps.now reaches.now) }
{
    let mut given = Vec::new(alloc);
    for reach in reaches {
        add_given(
            &mut given,
            maps.blocks(reach.inode),
            block_count(reach.least),
        )?;
    }
    Ok(given)
}

/// Puts those blocks last that stand behind the kept ones.
fn add_given(given: &mut Vec<u32>, blocks: &[u32], kept: usize) -> Result<(), NoMemory>
    ensures { OnOk result (given.new.items ≡ given.old.items ++ drop kept blocks.now) }
{
    if kept < blocks.len() {
        given.extend_from_slice(&blocks[kept..])?;
    }
    Ok(())
}
