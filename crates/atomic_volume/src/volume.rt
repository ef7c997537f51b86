//! A volume that batches are committed to.
ghost use Rattle.std.specs.Prelude.{◌≡◌, ◌⊎◌, ◌+◌, ◌-◌, ◌*◌, ◌≤◌, true, false, List, ℕ, length, vec_len, Some, Err, IfErr, OnOk, OnErr, IsErrOf};
ghost use Rattle.fault_counts.specs.Counts.{Rose, RisesBy};
ghost use Rattle.block_layout.specs.Sizes.{block_size, volume_start};
ghost use Rattle.gate_journal.specs.Batches.{batch_bytes, range_bytes};
ghost use Rattle.gate_journal.specs.Halves.{size_of, journal_of, fits, MayFollow, with_batch};
ghost use Rattle.gate_journal.specs.Loading.{empty};
ghost use Rattle.gate_journal.specs.Runs.{LeavesBy};
ghost use Rattle.atomic_volume.specs.Opening.{opened};
ghost use Rattle.atomic_volume.specs.Held.{contents_by, ReadsAs};
ghost use Rattle.atomic_volume.specs.Commits.{committed, AllOrNothing};
ghost use Rattle.atomic_volume.specs.Homing.{at_home, IsMoved};
ghost use Rattle.atomic_volume.specs.declared.fault.VolumeFault.TheVariants.{Device, NoMemory};

use super::fault::VolumeFault;
use super::homing::move_home;
use super::putting::put_ranges;
use block_layout::Geometry;
use disk_model::Disk;
use gate_journal::{Batch, Half, JournalFault, Range};

/// A volume on a disk that it owns: the committed bytes in memory, and the journal half that takes the next batches.
///
/// While no call on it failed, each image that a crash may leave opens to the committed bytes and the last batch's number.
#[derive(Drop)]
pub struct Volume<D: Disk> {
    pub(crate) disk: D,
    pub(crate) geometry: Geometry,
    pub(crate) half: Half,
    pub(crate) volume: Vec<u8>,
    pub(crate) failed: bool,
    pub ghost size_is: { size_of half ≡ vec_len volume },
    pub ghost whole: { vec_len volume ≡ block_size * (geometry.blocks - volume_start) },
    pub ghost known_is: { D.known disk ≡ block_size * geometry.blocks },
    pub ghost settled: { D.tells → failed ≡ false → D.in_doubt disk ≡ false },
    pub ghost sound: { D.tells → failed ≡ false → (c : List ℕ) → D.may_leave disk c → ReadsAs geometry half volume.items c },
}

impl<D: Disk> Volume<D> {
    /// The committed bytes of the volume.
    pub fn bytes(&self) -> &[u8]
        ensures { result.now ≡ self.now.volume.items }
    {
        &self.volume
    }

    /// The ranges of the active half's batches, in order.
    pub fn ranges(&self) -> &[Range]
        ensures { result.now ≡ (journal_of self.now.half).ranges }
    {
        self.half.replay_list()
    }

    /// The number of the last batch in the active half, and None where it has no batch.
    pub fn last(&self) -> Option<u64>
        ensures { result ≡ (journal_of self.now.half).last }
    {
        self.half.last()
    }

    /// Whether a batch of so many bytes, its header of 16 bytes included, fits the active half.
    pub fn fits(&self, bytes: u32) -> bool
        ensures { result ≡ fits (journal_of self.now.half) bytes }
    {
        self.half.fits(bytes)
    }

    /// Whether a batch may be committed: it fits the active half, each of its ranges has bytes and stands in the volume, and
    /// its number is the one behind the last, where the half has a last.
    pub fn accepts(&self, batch: &Batch) -> bool
        ensures fits { result ≡ true → fits (journal_of self.now.half) (length (batch_bytes batch.now)) ≡ true }
        ensures follows { result ≡ true → MayFollow (size_of self.now.half) (journal_of self.now.half) batch.now }
        ensures other { fits (journal_of self.now.half) (length (batch_bytes batch.now)) ≡ true → MayFollow (size_of self.now.half) (journal_of self.now.half) batch.now → result ≡ true }
    {
        self.half.accepts(batch)
    }

    /// The sizes that the superblock names.
    pub fn geometry(&self) -> &Geometry
        ensures { result.now ≡ self.now.geometry }
    {
        &self.geometry
    }

    /// The disk's count of faults, without a call on the device.
    pub fn faults(&self) -> u64
        ensures { result ≡ D.faults self.now.disk }
    {
        self.disk.faults()
    }

    /// Whether a call on the volume answered `Device`. The writing calls have the condition that none did.
    pub fn failed(&self) -> bool
        ensures { result ≡ self.now.failed }
    {
        self.failed
    }

    /// Hands the disk back.
    pub fn end(self) -> D
        ensures { result ≡ self.disk }
    {
        self.disk
    }

    /// Commits a batch: all of its ranges, or nothing.
    ///
    /// At every moment a crash leaves an image that opens as one of before, or to the committed bytes with the whole batch.
    /// After Ok it leaves only the latter. `Device` comes only where the disk's faults rose, and the volume has failed after
    /// it. `NoMemory` comes before any call on the disk, and leaves all as it was.
    pub fn commit(&mut self, batch: &Batch) -> Result<(), VolumeFault>
        requires working { self.old.failed ≡ false }
        requires fits { fits (journal_of self.old.half) (length (batch_bytes batch.now)) ≡ true }
        requires follows { MayFollow (size_of self.old.half) (journal_of self.old.half) batch.now }
        ensures geometry { self.new.geometry ≡ self.old.geometry }
        ensures done { OnOk result (contents_by self.new.geometry self.new.half self.new.volume.items ≡ committed (contents_by self.old.geometry self.old.half self.old.volume.items) batch.now) }
        ensures journal { OnOk result (journal_of self.new.half ≡ with_batch (journal_of self.old.half) batch.now) }
        ensures refused { OnErr result ((self.new.volume.items ≡ self.old.volume.items) × (journal_of self.new.half ≡ journal_of self.old.half)) }
        ensures any_moment { D.tells → LeavesBy D.Disk self.old.disk self.new.disk (AllOrNothing (contents_by self.old.geometry self.old.half self.old.volume.items) batch.now (D.may_leave self.old.disk)) }
        ensures after { D.tells → OnOk result ((c : List ℕ) → D.may_leave self.new.disk c → opened c ≡ Some (contents_by self.new.geometry self.new.half self.new.volume.items)) }
        ensures working { OnOk result (self.new.failed ≡ false) }
        ensures faults { IfErr result (λ fault. (fault ≡ Device) × (self.new.failed ≡ true) × Rose (D.faults self.old.disk) (D.faults self.new.disk) ⊎ (fault ≡ NoMemory) × (self.new.failed ≡ false) × (self.new.disk ≡ self.old.disk)) }
        ensures later { D.faults self.old.disk ≤ D.faults self.new.disk }
        ensures steady { (IsErrOf result Device → ⊥) → D.faults self.new.disk ≡ D.faults self.old.disk }
        ensures settled { D.tells → (IsErrOf result Device → ⊥) → D.in_doubt self.new.disk ≡ false }
        ensures count { RisesBy (length (batch_bytes batch.now) + 1) (D.written self.old.disk) (D.written self.new.disk) }
    {
        match self.half.append(&mut self.disk, batch) {
            Ok(()) => {
                put_ranges(&mut self.volume, batch.ranges.all());
                Ok(())
            }
            Err(JournalFault::Device) => {
                self.failed = true;
                Err(VolumeFault::Device)
            }
            Err(JournalFault::NoMemory) => Err(VolumeFault::NoMemory),
        }
    }

    /// Moves the batches of the active half home, and makes the other half, without batches, the active one.
    ///
    /// The bytes stay. At every moment a crash leaves an image that opens as one of before, or to the committed bytes without
    /// open batches; after Ok it leaves only the latter, and the active half has room for 524,288 bytes. It takes no memory: `Device`
    /// is the only answer beside Ok. It comes only where the disk's faults rose, and the volume has failed after it.
    pub fn checkpoint(&mut self) -> Result<(), VolumeFault>
        requires working { self.old.failed ≡ false }
        ensures geometry { self.new.geometry ≡ self.old.geometry }
        ensures bytes { self.new.volume.items ≡ self.old.volume.items }
        ensures journal { OnOk result (journal_of self.new.half ≡ empty) }
        ensures refused { OnErr result (journal_of self.new.half ≡ journal_of self.old.half) }
        ensures any_moment { D.tells → LeavesBy D.Disk self.old.disk self.new.disk (IsMoved (contents_by self.old.geometry self.old.half self.old.volume.items) (D.may_leave self.old.disk)) }
        ensures after { D.tells → OnOk result ((c : List ℕ) → D.may_leave self.new.disk c → opened c ≡ Some (at_home (contents_by self.old.geometry self.old.half self.old.volume.items))) }
        ensures working { OnOk result (self.new.failed ≡ false) }
        ensures faults { IfErr result (λ fault. (fault ≡ Device) × (self.new.failed ≡ true) × Rose (D.faults self.old.disk) (D.faults self.new.disk)) }
        ensures later { D.faults self.old.disk ≤ D.faults self.new.disk }
        ensures steady { OnOk result (D.faults self.new.disk ≡ D.faults self.old.disk) }
        ensures settled { D.tells → OnOk result (D.in_doubt self.new.disk ≡ false) }
        ensures count { RisesBy (range_bytes (journal_of self.old.half).ranges + 4097) (D.written self.old.disk) (D.written self.new.disk) }
    {
        match move_home(&mut self.disk, &self.half) {
            Ok(half) => {
                self.half = half;
                Ok(())
            }
            Err(fault) => {
                self.failed = true;
                Err(fault)
            }
        }
    }
}
