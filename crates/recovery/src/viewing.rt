//! Images that are viewed.
ghost use Rattle.std.specs.Prelude.{◌≡◌, ◌≤◌, false, Some, IfOk, IfErr, IsErrOf};
ghost use Rattle.fault_counts.specs.Counts.{Rose};
ghost use Rattle.gate_journal.specs.Runs.{Quiet};
ghost use Rattle.recovery.specs.Recovering.{recovered_for_now};
ghost use Rattle.recovery.specs.Bad.{Says};
ghost use Rattle.recovery.specs.declared.fault.OpenFault.TheVariants.{Device};

use super::fault::{OpenFault, of_check, of_volume};
use atomic_volume::reading::read_image;
use ccfs_base::NoMemory;
use disk_model::Disk;
use image_check::check;
use std::alloc::Global;
use tree_model::Tree;

/// What an image recovers to.
#[derive(Drop)]
pub struct Viewed {
    /// The number of the last batch that made it so.
    pub number: u64,
    /// The tree. Its serials are in preorder, entries in byte order of their names.
    pub tree: Tree,
}

impl Viewed {
    /// The same once more.
    pub fn copy(&self, alloc: Global) -> Result<Viewed, NoMemory>
        ensures { IfOk result (λ viewed. viewed ≡ self.now) }
    {
        Ok(Viewed {
            number: self.number,
            tree: self.tree.copy(alloc)?,
        })
    }
}

/// Reads the tree that an image recovers to, without a sync or a write.
///
/// `Device` comes only where the disk's faults rose, and `Bad` where the image holds no tree, with the first check that
/// fails.
pub fn view<D: Disk>(alloc: Global, disk: &mut D) -> Result<Viewed, OpenFault>
    ensures recovers { D.tells → D.in_doubt disk.old ≡ false → IfOk result (λ viewed. recovered_for_now (D.seen disk.old) ≡ Some (viewed.number, viewed.tree)) }
    ensures says { D.tells → D.in_doubt disk.old ≡ false → IfErr result (Says (D.seen disk.old)) }
    ensures quiet { D.tells → Quiet D.Disk disk.old disk.new }
    ensures device { IfErr result (λ fault. fault ≡ Device → Rose (D.faults disk.old) (D.faults disk.new)) }
    ensures later { D.faults disk.old ≤ D.faults disk.new }
    ensures steady { (IsErrOf result Device → ⊥) → D.faults disk.new ≡ D.faults disk.old }
    ensures doubt { D.tells → D.in_doubt disk.old ≡ false → D.in_doubt disk.new ≡ false }
    ensures count { D.written disk.new ≡ D.written disk.old }
{
    let image = match read_image(alloc, disk) {
        Ok(image) => image,
        Err(fault) => return Err(of_volume(fault)),
    };
    match check(alloc, &image.geometry, &image.volume, image.half.last()) {
        Ok(placed) => Ok(Viewed {
            number: placed.number,
            tree: placed.tree,
        }),
        Err(fault) => Err(of_check(fault)),
    }
}
