//! A disk is opened.
ghost use Rattle.std.specs.Prelude.{◌≡◌, ◌≤◌, ◌<◌, ◌^◌, ℕ, Some, List, length, false, true, IfOk, IfErr, MatchResult};
ghost use Rattle.fault_counts.specs.Counts.{Rose};
ghost use Rattle.gate_journal.specs.Halves.{journal_of};
ghost use Rattle.recovery.specs.Opens.{Finds};
ghost use Rattle.recovery.specs.Recovering.{recovered_for_now};
ghost use Rattle.atomic_volume.specs.Held.{contents_by};
ghost use Rattle.ccfs_top.specs.Outcomes.{IsShut};
ghost use Rattle.recovery.specs.declared.fault.OpenFault.TheVariants as open_fault;
ghost use Rattle.ccfs_top.specs.Found.{IsFound};
ghost use Rattle.ccfs_top.specs.Images.{IsImage};
ghost use Rattle.image_model.specs.Checks.{is_last};
ghost use Rattle.carried_volumes.specs.Plain.{IsPlain, IsDense};
ghost use Rattle.carried_volumes.specs.Carried.{HaveInodes};
ghost use Rattle.front_laws.specs.Logging.{metadata_size};
ghost use Rattle.front_core.specs.Fronts.{new_front};
ghost use Rattle.ccfs_top.specs.Runs.{image_by};
ghost use Rattle.ccfs_top.specs.Steady.{Rises, Steady, Sure};
ghost use Rattle.ccfs_top.specs.Sessions.{Settled};

use crate::session::Session;
use atomic_volume::Volume;
use batch_ranges::Metadata;
use block_layout::Geometry;
use ccfs_base::{Bytes, NoMemory, Returned};
use disk_model::Disk;
use front_core::Front;
use image_check::Inodes;
use recovery::OpenFault;
use std::alloc::Global;
use tree_model::Tree;

/// How many calls a session's history may have.
const LIMIT: u32 = 1_048_576;

/// Opens the disk: its contents are made stable and read, and the tree that they recover to is that of a session. The disk
/// comes back where that fails.
pub fn open<D: Disk>(alloc: Global, disk: D) -> Result<Session<D>, Returned<OpenFault, D>>
    ensures opened { D.tells → IfOk result (λ s. (found : List ℕ) × IsFound (D.may_leave disk) (D.in_doubt disk) (D.seen disk) found
        × IsImage (image_by s.first s.front) found) }
    ensures new { IfOk result (λ s. s.front ≡ new_front s.volume.geometry 1048576 s.front.opening s.front.inodes) }
    ensures none_written { IfOk result (λ s. s.written ≡ 0) }
    ensures settled { IfOk result (λ s. Settled s.volume.geometry s.volume.volume.items s.metadata s.front s.first s.written) }
    ensures working { IfOk result (λ s. s.volume.failed ≡ false) }
    ensures last { IfOk result (λ s. is_last (journal_of s.volume.half).last s.first ≡ true) }
    ensures way { D.tells → IfOk result (λ s. Finds D.Disk disk s.volume.disk (contents_by s.volume.geometry s.volume.half s.volume.volume.items) (s.first, s.front.opening)) }
    ensures each { D.tells → IfOk result (λ s. (c : List ℕ) → D.may_leave s.volume.disk c → recovered_for_now c ≡ Some (s.first, s.front.opening)) }
    ensures small { IfOk result (λ s. s.first < 2 ^ 64) }
    ensures shut { D.tells → IfErr result (λ refused. IsShut D.Disk disk refused.kept refused.fault) }
    ensures later { MatchResult result (λ s. D.faults disk ≤ D.faults s.volume.disk) (λ refused. D.faults disk ≤ D.faults refused.kept) }
    ensures device { IfErr result (λ r. Rises D.Disk disk r.kept (r.fault ≡ open_fault.Device)) }
    ensures steady { IfOk result (λ s. D.faults s.volume.disk ≡ D.faults disk) }
    ensures calm { IfErr result (λ r. Steady D.Disk disk r.kept (r.fault ≡ open_fault.Device)) }
    ensures sure { D.tells → IfErr result (λ r. Sure D.Disk disk r.kept (r.fault ≡ open_fault.Device)) }
{
    let opened = recovery::open(alloc, disk)?;
    let volume = opened.volume;
    let Ok(metadata) = Metadata::of(alloc, volume.geometry(), volume.bytes()) else {
        return Err(refused(volume));
    };
    match front_on(
        alloc,
        opened.tree,
        opened.inodes,
        volume.geometry(),
        &metadata,
    ) {
        Ok(front) => Ok(Session {
            volume,
            metadata,
            front,
            first: opened.number,
            written: 0,
        }),
        Err(_) => Err(refused(volume)),
    }
}

/// The front of a session on what was opened. No call was made yet.
fn front_on(
    alloc: Global,
    tree: Tree,
    inodes: Inodes,
    geometry: &Geometry,
    metadata: &Metadata,
) -> Result<Front, NoMemory>
    requires plain { IsPlain tree }
    requires have { HaveInodes geometry.now.inodes inodes tree }
    requires dense { IsDense tree (length inodes) }
    requires metadata { length metadata.now ≡ metadata_size geometry.now.inodes }
    ensures { IfOk result (λ front. front ≡ new_front geometry.now 1048576 tree inodes) }
{
    let area = Bytes::of(alloc, metadata.bytes())?;
    Front::of(alloc, tree, inodes, geometry, area, LIMIT)
}

/// There was no memory, and the disk comes back.
fn refused<D: Disk>(volume: Volume<D>) -> Returned<OpenFault, D>
    ensures fault { result.fault ≡ open_fault.NoMemory }
    ensures kept { result.kept ≡ volume.disk }
{
    Returned {
        fault: OpenFault::NoMemory,
        kept: volume.end(),
    }
}
