//! The tree of a volume that passes all checks.
ghost use Rattle.std.specs.Prelude.{MatchResult};
ghost use Rattle.image_model.specs.Volumes.{volume_of};
ghost use Rattle.image_model.specs.Checks.{first_failure_for_now};
ghost use Rattle.image_model.specs.Reading.{IsWhole};
ghost use Rattle.image_check.specs.Verdicts.{Tells};
ghost use Rattle.image_check.specs.Standing.{IsPlaced};

use super::building::build;
use super::chain::{checked, long_at};
use super::inodes::Inodes;
use super::kinds::CheckFault;
use super::listing::list;
use block_layout::Geometry;
use std::alloc::Global;
use tree_model::Tree;

/// Where in the volume the batch number stands, in bytes.
const NUMBER: usize = 0;

/// What a sound volume stands for.
#[derive(Drop)]
pub struct Placed {
    /// Its tree. The rows have the serials 0, 1, 2 and so on in preorder, entries in byte order of their names.
    pub tree: Tree,
    /// The inode of each serial.
    pub inodes: Inodes,
    /// The inodes of files without names. Until files may stay open without a name there are none.
    pub orphans: Inodes,
    /// The batch number.
    pub number: u64,
}

/// Makes all checks of a volume, and tells what it stands for where it passes them. The bytes are those from block 260 to the
/// end of an image of this geometry. `last` is the number of the last open batch, where one is open. `Bad` tells the first
/// check that fails, and is answered exactly where one does.
pub fn check(
    alloc: Global,
    geometry: &Geometry,
    volume: &[u8],
    last: Option<u64>,
) -> Result<Placed, CheckFault>
    requires { IsWhole geometry.now volume.now }
    ensures { MatchResult result (λ placed. IsPlaced last (volume_of geometry.now volume.now) placed) (λ fault. Tells (first_failure_for_now last (volume_of geometry.now volume.now)) fault) }
{
    let table = checked(alloc, geometry, volume, last)?;
    let inodes = list(alloc, &table)?;
    let tree = build(alloc, &table, &inodes)?;
    Ok(Placed {
        tree,
        inodes,
        orphans: Inodes::new(alloc),
        number: long_at(volume, NUMBER),
    })
}
