//! An image that was found on a disk and checked.
ghost use Rattle.std.specs.Prelude.{◌≡◌, ◌+◌, ◌-◌, ◌*◌, ◌≤◌, false, Some, List, ℕ, vec_len, IfOk, IfErr, MatchResult, IsErrOf};
ghost use Rattle.fault_counts.specs.Counts.{Rose, RisesBy};
ghost use Rattle.block_layout.specs.Sizes.{block_size, volume_start};
ghost use Rattle.gate_journal.specs.Batches.{range_bytes};
ghost use Rattle.gate_journal.specs.Halves.{size_of, journal_of};
ghost use Rattle.gate_journal.specs.Loading.{empty};
ghost use Rattle.gate_journal.specs.Runs.{LeavesBy, Quiet};
ghost use Rattle.atomic_volume.specs.Opening.{opened};
ghost use Rattle.atomic_volume.specs.Refusals.{IsBad};
ghost use Rattle.atomic_volume.specs.Held.{contents_by, ReadsAs};
ghost use Rattle.atomic_volume.specs.Homing.{at_home, IsMoved};
ghost use Rattle.atomic_volume.specs.Opened.{IsFound, IsRefused};
ghost use Rattle.atomic_volume.specs.declared.fault.VolumeFault.TheVariants.{Device};

use super::fault::VolumeFault;
use super::reading::{Image, read_image};
use super::volume::Volume;
use block_layout::Geometry;
use ccfs_base::Returned;
use disk_model::Disk;
use gate_journal::Half;
use std::alloc::Global;

/// An image on a disk that it owns, made stable, read and checked.
#[derive(Drop)]
pub struct Found<D: Disk> {
    pub(crate) disk: D,
    pub(crate) geometry: Geometry,
    pub(crate) half: Half,
    pub(crate) volume: Vec<u8>,
    pub ghost size_is: { size_of half ≡ vec_len volume },
    pub ghost whole: { vec_len volume ≡ block_size * (geometry.blocks - volume_start) },
    pub ghost known_is: { D.known disk ≡ block_size * geometry.blocks },
    pub ghost settled: { D.tells → D.in_doubt disk ≡ false },
    pub ghost sound: { D.tells → (c : List ℕ) → D.may_leave disk c → ReadsAs geometry half volume.items c },
}

impl<D: Disk> Found<D> {
    /// Makes what stands on the disk stable, reads it and checks it. It writes nothing.
    ///
    /// What is found is one of the images that a crash might leave before the call, and what a read gave then where the disk
    /// wasn't in doubt. `Device` comes only where the disk's faults rose, and `NoMemory` where there is no memory for the
    /// record area or the volume. The other refusals name what is wrong with the image, the first in the order of its
    /// length, the superblock's fields and the journal, in what the sync made stable: also on a disk in doubt, whose reads
    /// before the sync tell nothing. Each refusal hands the disk back, its contents as they were.
    pub fn open(alloc: Global, disk: D) -> Result<Found<D>, Returned<VolumeFault, D>>
        ensures found { D.tells → IfOk result (λ found. IsFound D.Disk disk found.disk (contents_by found.geometry found.half found.volume.items)) }
        ensures bad { D.tells → IfErr result (λ refused. IsBad refused.fault → IsRefused D.Disk disk refused.kept refused.fault) }
        ensures quiet { D.tells → MatchResult result (λ found. Quiet D.Disk disk found.disk) (λ refused. Quiet D.Disk disk refused.kept) }
        ensures device { IfErr result (λ refused. refused.fault ≡ Device → Rose (D.faults disk) (D.faults refused.kept)) }
        ensures later { MatchResult result (λ found. D.faults disk ≤ D.faults found.disk) (λ refused. D.faults disk ≤ D.faults refused.kept) }
        ensures steady { IfOk result (λ found. D.faults found.disk ≡ D.faults disk) }
        ensures calm { IfErr result (λ refused. (refused.fault ≡ Device → ⊥) → D.faults refused.kept ≡ D.faults disk) }
        ensures count { MatchResult result (λ found. D.written found.disk ≡ D.written disk) (λ refused. D.written refused.kept ≡ D.written disk) }
    {
        let mut disk = disk;
        match sync_and_read(alloc, &mut disk) {
            Ok(image) => Ok(Found {
                disk,
                geometry: image.geometry,
                half: image.half,
                volume: image.volume,
            }),
            Err(fault) => Err(Returned { fault, kept: disk }),
        }
    }

    /// The sizes that the superblock names.
    pub fn geometry(&self) -> &Geometry
        ensures { result.now ≡ self.now.geometry }
    {
        &self.geometry
    }

    /// The volume with the open batches put on it.
    pub fn bytes(&self) -> &[u8]
        ensures { result.now ≡ self.now.volume.items }
    {
        &self.volume
    }

    /// The number of the last open batch, and None where no batch is open.
    pub fn last(&self) -> Option<u64>
        ensures { result ≡ (journal_of self.now.half).last }
    {
        self.half.last()
    }

    /// Hands the disk back.
    pub fn end(self) -> D
        ensures { result ≡ self.disk }
    {
        self.disk
    }

    /// The volume that was found, for commits, once its open batches are moved home.
    ///
    /// The bytes are those that were found, and the active half has no batch. At every moment a crash leaves an image that
    /// opens as one of before, or to the found contents without open batches. It takes no memory: `Device` is the only refusal, and comes
    /// only where the disk's faults rose. It hands the disk back.
    pub fn start(self) -> Result<Volume<D>, Returned<VolumeFault, D>>
        ensures contents { IfOk result (λ volume. contents_by volume.geometry volume.half volume.volume.items ≡ at_home (contents_by self.geometry self.half self.volume.items)) }
        ensures journal { IfOk result (λ volume. journal_of volume.half ≡ empty) }
        ensures any_moment { D.tells → MatchResult result (λ volume. LeavesBy D.Disk self.disk volume.disk (IsMoved (contents_by self.geometry self.half self.volume.items) (D.may_leave self.disk))) (λ refused. LeavesBy D.Disk self.disk refused.kept (IsMoved (contents_by self.geometry self.half self.volume.items) (D.may_leave self.disk))) }
        ensures after { D.tells → IfOk result (λ volume. (c : List ℕ) → D.may_leave volume.disk c → opened c ≡ Some (contents_by volume.geometry volume.half volume.volume.items)) }
        ensures working { IfOk result (λ volume. volume.failed ≡ false) }
        ensures device { IfErr result (λ refused. (refused.fault ≡ Device) × Rose (D.faults self.disk) (D.faults refused.kept)) }
        ensures later { MatchResult result (λ volume. D.faults self.disk ≤ D.faults volume.disk) (λ refused. D.faults self.disk ≤ D.faults refused.kept) }
        ensures steady { IfOk result (λ volume. D.faults volume.disk ≡ D.faults self.disk) }
        ensures count { MatchResult result (λ volume. RisesBy (range_bytes (journal_of self.half).ranges + 4097) (D.written self.disk) (D.written volume.disk)) (λ refused. RisesBy (range_bytes (journal_of self.half).ranges + 4097) (D.written self.disk) (D.written refused.kept)) }
    {
        let mut volume = Volume {
            disk: self.disk,
            geometry: self.geometry,
            half: self.half,
            volume: self.volume,
            failed: false,
        };
        match volume.checkpoint() {
            Ok(()) => Ok(volume),
            Err(fault) => Err(Returned {
                fault,
                kept: volume.end(),
            }),
        }
    }
}

/// Makes what stands on a disk stable, and reads it.
fn sync_and_read<D: Disk>(alloc: Global, disk: &mut D) -> Result<Image, VolumeFault>
    ensures found { D.tells → IfOk result (λ image. IsFound D.Disk disk.old disk.new (contents_by image.geometry image.half image.volume.items)) }
    ensures holds { D.tells → IfOk result (λ image. (c : List ℕ) → D.may_leave disk.new c → ReadsAs image.geometry image.half image.volume.items c) }
    ensures sized { IfOk result (λ image. D.known disk.new ≡ block_size * image.geometry.blocks) }
    ensures size { IfOk result (λ image. size_of image.half ≡ vec_len image.volume) }
    ensures whole { IfOk result (λ image. vec_len image.volume ≡ block_size * (image.geometry.blocks - volume_start)) }
    ensures bad { D.tells → IfErr result (λ fault. IsBad fault → IsRefused D.Disk disk.old disk.new fault) }
    ensures quiet { D.tells → Quiet D.Disk disk.old disk.new }
    ensures device { IfErr result (λ fault. fault ≡ Device → Rose (D.faults disk.old) (D.faults disk.new)) }
    ensures later { D.faults disk.old ≤ D.faults disk.new }
    ensures steady { (IsErrOf result Device → ⊥) → D.faults disk.new ≡ D.faults disk.old }
    ensures count { D.written disk.new ≡ D.written disk.old }
{
    disk.sync()?;
    read_image(alloc, disk)
}
