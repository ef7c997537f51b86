//! How short files become in a batch, and how long they are at its end.
ghost use Rattle.std.specs.Prelude.{◌≡◌, ◌<◌, ◌≤◌, length, unwrap_or, All, IfOk};
ghost use Rattle.std.specs.BTreeMap.{get, values, IsOrdered};
ghost use Rattle.std.specs.Ordering.{nat_cmp};
ghost use Rattle.ccfs_base.specs.Limits.{file_max};
ghost use Rattle.late_alloc.specs.Lengths.{IsWithin, reach_of};
ghost use Rattle.block_maps.specs.Maps.{IsWhole};
ghost use Rattle.late_alloc.specs.Reaches.{touched_of};
ghost use Rattle.late_alloc.specs.Steps.{started, stepped};

use super::lengths::{inode_of, length_by};
use block_maps::{Maps, pages};
use ccfs_base::NoMemory;
use file_bodies::BodyOp;
use std::alloc::Global;
use std::collections::BTreeMap;

/// What a batch does to the length of one file.
#[derive(Debug, Clone, Copy, PartialEq, Eq)]
pub struct Reach {
    /// The file.
    pub inode: u32,
    /// The least number of pages that it has had since the batch began.
    pub least: u32,
    /// Its length in bytes at the end.
    pub end: u64,
}

/// What operations do to the lengths of the files that they are on, inodes rising. No other file is looked at.
pub fn reaches(alloc: Global, maps: &Maps, ops: &[BodyOp]) -> Result<Vec<Reach>, NoMemory>
    requires within { All (IsWithin (length maps.now)) ops.now }
    requires whole { All IsWhole maps.now }
    ensures { IfOk result (λ reaches. reaches.items ≡ touched_of maps.now ops.now) }
{
    let mut reaches = BTreeMap::new(alloc);
    for op in ops {
        let inode = inode_of(op);
        let reach = so_far(&reaches, maps, inode);
        reaches.insert(inode, reach.by(op))?;
    }
    in_order(alloc, &reaches)
}

/// What became of a file so far, which is as it was where no operation was on it.
fn so_far(reaches: &BTreeMap<u32, Reach>, maps: &Maps, inode: u32) -> Reach
    requires inode { inode < length maps.now }
    requires whole { All IsWhole maps.now }
    ensures { result ≡ unwrap_or (get nat_cmp reaches.now inode) (started maps.now inode) }
{
    match reaches.get(&inode) {
        Some(reach) => *reach,
        None => {
            let end = maps.length(inode);
            Reach {
                inode,
                least: pages(end),
                end,
            }
        }
    }
}

/// All of them, inodes rising.
fn in_order(alloc: Global, reaches: &BTreeMap<u32, Reach>) -> Result<Vec<Reach>, NoMemory>
    ensures items { IfOk result (λ list. list.items ≡ values reaches.now) }
    ensures order { IsOrdered nat_cmp reaches.now }
{
    let mut list = Vec::with_capacity(alloc, reaches.len())?;
    for reach in reaches.values() {
        list.push(*reach)?;
    }
    Ok(list)
}

impl Reach {
    /// The same after one operation more on the file.
    fn by(self, op: &BodyOp) -> Reach
        requires end { self.end ≤ file_max }
        requires reach { reach_of op.now ≤ file_max }
        ensures { result ≡ stepped op.now self }
    {
        let end = length_by(op, self.end);
        Reach {
            inode: self.inode,
            least: self.least.min(pages(end)),
            end,
        }
    }
}
