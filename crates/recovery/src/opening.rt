//! Images that are opened for commits.
ghost use Rattle.std.specs.Prelude.{◌≡◌, ◌⊎◌, ◌+◌, ◌≤◌, false, List, ℕ, Some, None, IfOk, IfErr, MatchResult};
ghost use Rattle.fault_counts.specs.Counts.{Rose, RisesBy};
ghost use Rattle.gate_journal.specs.Offsets.{records_size};
ghost use Rattle.gate_journal.specs.Halves.{journal_of};
ghost use Rattle.gate_journal.specs.Loading.{empty};
ghost use Rattle.gate_journal.specs.Runs.{Quiet};
ghost use Rattle.tree_model.specs.Rows.{Rows};
ghost use Rattle.atomic_volume.specs.Opening.{Contents, opened};
ghost use Rattle.atomic_volume.specs.Held.{contents_by};
ghost use Rattle.image_model.specs.Volumes.{volume_of, table_of};
ghost use Rattle.image_model.specs.Files.{file_bytes};
ghost use Rattle.image_model.specs.Checks.{first_failure_for_now};
ghost use Rattle.image_model.specs.Trees.{inodes_of};
ghost use Rattle.recovery.specs.Recovering.{tree_held, recovered_for_now};
ghost use Rattle.image_check.specs.declared.kinds.BadImage.{BadImage};
ghost use Rattle.recovery.specs.Opens.{Finds, IsRefused, IsFoundBad};
ghost use Rattle.recovery.specs.declared.fault.OpenFault.TheVariants.{Device, Bad};

use super::fault::{OpenFault, of_check, of_volume};
use atomic_volume::{Found, Volume};
use ccfs_base::Returned;
use disk_model::Disk;
use image_check::{Inodes, check};
use std::alloc::Global;
use tree_model::Tree;

/// An image that is ready for commits.
#[derive(Drop)]
pub struct Opened<D: Disk> {
    /// The volume, on the disk that it owns.
    pub volume: Volume<D>,
    /// The tree that it holds. Its serials are in preorder, entries in byte order of their names.
    pub tree: Tree,
    /// The inode of each serial.
    pub inodes: Inodes,
    /// The number of the last batch that made it so.
    pub number: u64,
}

/// Makes what stands on the disk stable, reads the tree that it recovers to, moves open batches home, and makes its volume
/// ready for commits. The active half is then empty, and no batch is open.
///
/// At every moment a crash leaves an image of the start, or one that recovers to the tree and the number that were found; after
/// Ok it leaves only the latter. `Device` comes only where the disk's faults rose, and may come behind writes. `Bad` comes where
/// what the sync made stable holds no tree, with the first check that fails. It and `NoMemory` come before any write. Each
/// refusal hands the disk back. In all 528,385 bytes are written at most: the record area of a half, the gates of the other one,
/// and the master byte.
pub fn open<D: Disk>(alloc: Global, disk: D) -> Result<Opened<D>, Returned<OpenFault, D>>
    ensures found { D.tells → IfOk result (λ done. Finds D.Disk disk done.volume.disk (contents_by done.volume.geometry done.volume.half done.volume.volume.items) (done.number, done.tree)) }
    ensures each { D.tells → IfOk result (λ done. (c : List ℕ) → D.may_leave done.volume.disk c → recovered_for_now c ≡ Some (done.number, done.tree)) }
    ensures home { D.tells → IfOk result (λ done. (c : List ℕ) → D.may_leave done.volume.disk c → opened c ≡ Some (contents_by done.volume.geometry done.volume.half done.volume.volume.items)) }
    ensures journal { IfOk result (λ done. journal_of done.volume.half ≡ empty) }
    ensures held { IfOk result (λ done. tree_held (contents_by done.volume.geometry done.volume.half done.volume.volume.items) ≡ Some (done.number, done.tree)) }
    ensures sound { IfOk result (λ done. first_failure_for_now None (volume_of done.volume.geometry done.volume.volume.items) ≡ None) }
    ensures inodes { IfOk result (λ done. done.inodes ≡ inodes_of (table_of (volume_of done.volume.geometry done.volume.volume.items)) (file_bytes (volume_of done.volume.geometry done.volume.volume.items))) }
    ensures working { IfOk result (λ done. done.volume.failed ≡ false) }
    ensures refuses { D.tells → IfErr result (λ refused. IsRefused D.Disk disk refused.fault) }
    ensures bad { D.tells → IfErr result (λ refused. (bad : BadImage) → refused.fault ≡ Bad bad → IsFoundBad D.Disk disk refused.kept bad) }
    ensures left { D.tells → IfErr result (λ refused. Quiet D.Disk disk refused.kept ⊎ (refused.fault ≡ Device) × ((home : Contents) × ((found : ℕ × Rows) × Finds D.Disk disk refused.kept home found))) }
    ensures unwritten { IfErr result (λ refused. (D.written refused.kept ≡ D.written disk) ⊎ (refused.fault ≡ Device)) }
    ensures device { IfErr result (λ refused. refused.fault ≡ Device → Rose (D.faults disk) (D.faults refused.kept)) }
    ensures later { MatchResult result (λ done. D.faults disk ≤ D.faults done.volume.disk) (λ refused. D.faults disk ≤ D.faults refused.kept) }
    ensures steady { IfOk result (λ opened. D.faults opened.volume.disk ≡ D.faults disk) }
    ensures settled { D.tells → IfOk result (λ opened. D.in_doubt opened.volume.disk ≡ false) }
    ensures doubt { D.tells → D.in_doubt disk ≡ false → IfErr result (λ refused. (refused.fault ≡ Device → ⊥) → D.in_doubt refused.kept ≡ false) }
    ensures calm { IfErr result (λ refused. (refused.fault ≡ Device → ⊥) → D.faults refused.kept ≡ D.faults disk) }
    ensures count { MatchResult result (λ done. RisesBy (records_size + 4097) (D.written disk) (D.written done.volume.disk)) (λ refused. RisesBy (records_size + 4097) (D.written disk) (D.written refused.kept)) }
{
    let found = match Found::open(alloc, disk) {
        Ok(found) => found,
        Err(Returned { fault, kept }) => {
            return Err(Returned {
                fault: of_volume(fault),
                kept,
            });
        }
    };
    let placed = match check(alloc, found.geometry(), found.bytes(), found.last()) {
        Ok(placed) => placed,
        Err(fault) => {
            return Err(Returned {
                fault: of_check(fault),
                kept: found.end(),
            });
        }
    };
    match found.start() {
        Ok(volume) => Ok(Opened {
            volume,
            tree: placed.tree,
            inodes: placed.inodes,
            number: placed.number,
        }),
        Err(Returned { fault, kept }) => Err(Returned {
            fault: of_volume(fault),
            kept,
        }),
    }
}
