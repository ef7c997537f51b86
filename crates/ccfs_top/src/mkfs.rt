//! Images that are made.
ghost use Rattle.std.specs.Prelude.{◌≡◌, ◌≤◌, ◌*◌, ◌^◌, ◌++◌, false, IfErr, OnOk, IsErrOf};
ghost use Rattle.fault_counts.specs.Counts.{Rose};
ghost use Rattle.ccfs_top.specs.Outcomes.{IsNew};
ghost use Rattle.ccfs_top.specs.Runs.{fresh};
ghost use Rattle.ccfs_top.specs.Steady.{Sure, Unmoved};
ghost use Rattle.ccfs_top.specs.Stops.{Grew, IsFaultStop};

use crate::stop::Stop;
use block_layout::Geometry;
use ccfs_base::{Sink, write_all};
use disk_model::Disk;
use recovery::{MakeFault, make};
use script_text::made_text;
use std::alloc::Global;

/// Makes a fresh image of these sizes, and writes the line that says so. The line has its memory before the disk has a call, so that
/// want of memory leaves the disk as it was.
pub fn make_image<D: Disk, K: Sink>(
    alloc: Global,
    disk: &mut D,
    geometry: &Geometry,
    out: &mut K,
) -> Result<(), Stop>
    requires { 64 * 2 ^ 20 ≤ D.most }
    ensures new { D.tells → OnOk result (IsNew D.Disk disk.new geometry.now.blocks geometry.now.inodes) }
    ensures text { K.tells → OnOk result (K.held out.new ≡ K.held out.old ++ (fresh geometry.now.blocks geometry.now.inodes).last) }
    ensures grew { K.tells → IfErr result (λ stop. Grew (fresh geometry.now.blocks geometry.now.inodes) stop 0 (K.held out.old) (K.held out.new)) }
    ensures fault { IfErr result (λ stop. IsFaultStop stop) }
    ensures sink_cause { IsErrOf result Stop.Sink → Rose (K.faults out.old) (K.faults out.new) }
    ensures sink_steady { Unmoved (K.faults out.old) (K.faults out.new) (IsErrOf result Stop.Sink) }
    ensures sink_later { K.faults out.old ≤ K.faults out.new }
    ensures device { IsErrOf result Stop.Disk → Rose (D.faults disk.old) (D.faults disk.new) }
    ensures untouched { IsErrOf result Stop.NoMemory → disk.new ≡ disk.old }
    ensures steady { (IsErrOf result Stop.Disk → ⊥) → D.faults disk.new ≡ D.faults disk.old }
    ensures settled { D.tells → OnOk result (D.in_doubt disk.new ≡ false) }
    ensures sure { D.tells → Sure D.Disk disk.old disk.new (IsErrOf result Stop.Disk) }
{
    let Ok(line) = made_text(
        alloc,
        geometry.blocks,
        geometry.inodes,
        geometry.data_blocks,
    ) else {
        return Err(Stop::NoMemory);
    };
    match make(alloc, disk, geometry) {
        Ok(()) => {}
        Err(MakeFault::Device) => return Err(Stop::Disk),
        Err(MakeFault::NoMemory) => return Err(Stop::NoMemory),
    }
    match write_all(out, line.all()) {
        Ok(()) => Ok(()),
        Err(_) => Err(Stop::Sink),
    }
}
