//! Trees that are printed.
ghost use Rattle.std.specs.Prelude.{◌≡◌, ◌⊎◌, ◌≤◌, ◌++◌, ℕ, List, false, IfOk, IfErr, IsErrOf};
ghost use Rattle.fault_counts.specs.Counts.{Rose};
ghost use Rattle.gate_journal.specs.Runs.{Quiet};
ghost use Rattle.tree_model.specs.Rows.{Rows};
ghost use Rattle.ccfs_top.specs.Ends.{joined};
ghost use Rattle.ccfs_top.specs.Images.{Finding, Good, Finds, RecoversTo};
ghost use Rattle.ccfs_top.specs.Runs.{over, printed};
ghost use Rattle.ccfs_top.specs.Steady.{Unmoved};
ghost use Rattle.ccfs_top.specs.Stops.{Decides, Grew, IsLate};

use crate::finish::write_tree;
use crate::stop::{Stop, stop_of_open};
use ccfs_base::Sink;
use disk_model::Disk;
use recovery::view;
use std::alloc::Global;

/// Writes the text of the tree that an image recovers to, and answers its number. It writes nothing to the disk.
pub fn print_tree<D: Disk, K: Sink>(alloc: Global, disk: &mut D, out: &mut K) -> Result<u64, Stop>
    ensures done { D.tells → D.in_doubt disk.old ≡ false → IfOk result (λ n. (p : ℕ × Rows) × RecoversTo p (D.seen disk.old) × (n ≡ p.0) × (K.tells → K.held out.new ≡ K.held out.old ++ (printed p).last)) }
    ensures halts { D.tells → D.in_doubt disk.old ≡ false → IfErr result (λ stop. (seen : Finding (ℕ × Rows)) × Finds RecoversTo (D.seen disk.old) seen × Decides (over printed seen) stop × (K.tells → Grew (over printed seen) stop 0 (K.held out.old) (K.held out.new))) }
    ensures quiet { D.tells → Quiet D.Disk disk.old disk.new }
    ensures count { D.written disk.new ≡ D.written disk.old }
    ensures late { IfErr result (λ stop. IsLate stop) }
    ensures sink_cause { IsErrOf result Stop.Sink → Rose (K.faults out.old) (K.faults out.new) }
    ensures sink_steady { Unmoved (K.faults out.old) (K.faults out.new) (IsErrOf result Stop.Sink) }
    ensures sink_later { K.faults out.old ≤ K.faults out.new }
    ensures device { IsErrOf result Stop.Disk → Rose (D.faults disk.old) (D.faults disk.new) }
    ensures steady { (IsErrOf result Stop.Disk → ⊥) → D.faults disk.new ≡ D.faults disk.old }
{
    let viewed = match view(alloc, disk) {
        Ok(viewed) => viewed,
        Err(fault) => return Err(stop_of_open(fault)),
    };
    let Ok(picture) = viewed.tree.picture(alloc) else {
        return Err(Stop::NoMemory);
    };
    match write_tree(alloc, viewed.number, picture.all(), out) {
        Ok(()) => Ok(viewed.number),
        Err(stop) => Err(stop),
    }
}
