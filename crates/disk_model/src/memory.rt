// A disk in memory. It keeps its operations, so it answers for every moment.
ghost use Rattle.std.specs.Prelude.{◌≡◌, ◌⊎◌, ◌+◌, ◌*◌, ◌^◌, ◌≤◌, ◌<◌, ℕ, List, length, replicate, false, refl, OnOk, OnErr, IfOk, Ok};
ghost use Rattle.fault_counts.specs.Counts.{raised, HasCause, RisesBy};
ghost use Rattle.disk_model.specs.Bytes.{part, patched, resized, Torn, Resized};
ghost use Rattle.disk_model.specs.Moments.{Only, Follows, Reaches, Elapses};
ghost use Rattle.disk_model.specs.Past.{LeftSince-now, LeftSince-only, LeftSince-earlier};
ghost use Rattle.disk_model.specs.Told.{bytes_are_image};

use crate::counts::Counts;
use crate::history::History;
use crate::image::image_bytes;
use crate::plan::DeviceCall;
use crate::{Disk, DiskFailed, FailPlan};
use std::alloc::{AllocError, Global};

/// A disk in memory, for tests and for trying crashes: it fails where its plan names a call, or where it finds no memory
/// for its record, and nowhere else. It is never in doubt.
#[derive(Drop)]
pub struct MemDisk {
    history: History,
    counts: Counts,
    written: u64,
}

impl MemDisk {
    ghost use Rattle.disk_model.specs.Memory.{seen_of, may_leave_of, left_since_of, moment_of, faults_of, written_of, starved_of, plan_of, calls_of, calls_of_kind, Undisturbed, IsPickedFrom};

    /// A disk of so many zero bytes, at most 64 MiB, all stable. No call fails, and all counts are 0.
    ///
    /// Answers `AllocError` where there is no memory for the bytes, twice.
    pub fn new(alloc: Global, bytes: u64) -> Result<MemDisk, AllocError>
        requires { bytes ≤ 64 * 2 ^ 20 }
        ensures zeros { IfOk result (λ disk. seen_of disk ≡ replicate bytes 0) }
        ensures stable { IfOk result (λ disk. Only (replicate bytes 0) (may_leave_of disk)) }
        ensures moment { IfOk result (λ disk. moment_of disk ≡ 0) }
        ensures faults { IfOk result (λ disk. faults_of disk ≡ 0) }
        ensures written { IfOk result (λ disk. written_of disk ≡ 0) }
        ensures starved { IfOk result (λ disk. starved_of disk ≡ 0) }
        ensures plan { IfOk result (λ disk. plan_of disk ≡ FailPlan.Never) }
        ensures calls { IfOk result (λ disk. (kind : _) → calls_of_kind disk kind ≡ 0) }
    {
        Ok(MemDisk {
            history: History::new(alloc, bytes as usize)?,
            counts: Counts::new(),
            written: 0,
        })
    }

    /// A new disk, all stable, that holds an image of a crash at this moment. No call of it fails, and its counts are 0.
    ///
    /// Pick 0 gives the contents of the last `sync` that answered Ok, at the size of now. Pick 1 gives the contents now.
    /// Another pick gives those of pick 0, but for the bytes that were written since that `sync`: each of them is the one
    /// of pick 0, the one of pick 1 or another, as the number and the offset of the byte have it. The same pick gives the
    /// same image each time.
    ///
    /// Answers `AllocError` where there is no memory for it. The time is in proportion to the size at the start and now,
    /// and to all that was written and grown between.
    pub fn image(&self, alloc: Global, pick: u64) -> Result<MemDisk, AllocError>
        ensures picked { IfOk result (λ disk. IsPickedFrom self.now pick (seen_of disk)) }
        ensures image { IfOk result (λ disk. may_leave_of self.now (seen_of disk)) }
        ensures stable { IfOk result (λ disk. Only (seen_of disk) (may_leave_of disk)) }
        ensures moment { IfOk result (λ disk. moment_of disk ≡ 0) }
        ensures faults { IfOk result (λ disk. faults_of disk ≡ 0) }
        ensures written { IfOk result (λ disk. written_of disk ≡ 0) }
        ensures starved { IfOk result (λ disk. starved_of disk ≡ 0) }
        ensures plan { IfOk result (λ disk. plan_of disk ≡ FailPlan.Never) }
        ensures calls { IfOk result (λ disk. (kind : _) → calls_of_kind disk kind ≡ 0) }
    {
        let bytes = image_bytes(&self.history, alloc, pick)?;
        let history = History::holding(alloc, bytes)?;
        let counts = Counts::new();
        Ok(MemDisk {
            history,
            counts,
            written: 0,
        })
    }

    /// From now on this plan says which calls fail, and calls are counted from 0. All else stays.
    pub fn plan(&mut self, plan: FailPlan)
        ensures plan { plan_of self.new ≡ plan }
        ensures calls { (kind : _) → calls_of_kind self.new kind ≡ 0 }
        ensures stays { Undisturbed self.old self.new }
        ensures faults { faults_of self.new ≡ faults_of self.old }
        ensures starved { starved_of self.new ≡ starved_of self.old }
    {
        self.counts.set_plan(plan);
    }

    /// How many calls of `size`, `set_size`, `read_at`, `write_at` and `sync` came since the plan was set. The count
    /// ends at 2^64 - 1.
    pub fn calls(&self) -> u64
        ensures { result ≡ calls_of self.now }
    {
        self.counts.calls
    }

    /// How many bytes were written, also by writes that failed as planned. The count stays at 2^64 - 1.
    pub fn written(&self) -> u64
        ensures { result ≡ written_of self.now }
    {
        self.written
    }

    /// How many calls found no memory, and failed for it. The count stays at 2^64 - 1.
    pub fn starved(&self) -> u64
        ensures { result ≡ starved_of self.now }
    {
        self.counts.starved
    }
}

impl Disk for MemDisk {
    ghost use Rattle.disk_model.specs.Memory.{seen_of, known_of, may_leave_of, left_since_of, moment_of, faults_of, written_of, starved_of, Undisturbed, Wrote, Answers};

    ghost tells = { Unit {0} };

    ghost most = { 64 * 2 ^ 20 + 4096 };

    ghost known = { known_of };

    ghost faults = { faults_of };

    ghost written = { written_of };

    ghost seen = { seen_of };

    ghost in_doubt = { λ disk. false };

    ghost may_leave = { may_leave_of };

    ghost moment = { moment_of };

    ghost left_since = { left_since_of };

    ghost length_seen = { λ told disk. refl };

    ghost may_leave_seen = { λ told disk. bytes_are_image disk.history };

    ghost counts_now = { λ told disk t c le now. LeftSince-now _ _ t c now };

    ghost only_now = { λ told disk c left. LeftSince-only _ _ c left };

    ghost earlier = { λ told disk. LeftSince-earlier _ _ };

    /// The length in bytes.
    fn size(&mut self) -> Result<u64, DiskFailed>
        ensures value { IfOk result (λ size. size ≡ known_of self.new) }
        ensures stays { Undisturbed self.old self.new }
        ensures known { known_of self.new ≡ known_of self.old }
        ensures answers { Answers DeviceCall.Size self.old self.new result }
        ensures starved { starved_of self.new ≡ starved_of self.old }
        ensures cause { HasCause (faults_of self.old) (faults_of self.new) result }
        ensures time { Elapses (moment_of self.old) (moment_of self.new) (left_since_of self.old) (left_since_of self.new) }
        ensures crash { (c : List ℕ) → left_since_of self.new (moment_of self.old) c → may_leave_of self.old c }
    {
        if self.counts.next(DeviceCall::Size) {
            return Err(self.counts.fail());
        }
        Ok(self.history.bytes.len() as u64)
    }

    /// Cuts the disk, or fills it up with zeros. A call that fails changes nothing.
    fn set_size(&mut self, bytes: u64) -> Result<(), DiskFailed>
        requires { bytes ≤ 64 * 2 ^ 20 + 4096 }
        ensures put { OnOk result (seen_of self.new ≡ resized (seen_of self.old) bytes) }
        ensures known { OnOk result (known_of self.new ≡ bytes) }
        ensures unsynced { OnOk result (Reaches (Resized bytes) (may_leave_of self.old) (may_leave_of self.new)) }
        ensures stays { OnErr result (Undisturbed self.old self.new) }
        ensures answers { Answers DeviceCall.SetSize self.old self.new result }
        ensures cause { HasCause (faults_of self.old) (faults_of self.new) result }
        ensures count { written_of self.new ≡ written_of self.old }
        ensures time { Elapses (moment_of self.old) (moment_of self.new) (left_since_of self.old) (left_since_of self.new) }
        ensures ticks { OnOk result (moment_of self.old < moment_of self.new) }
        ensures crash { Follows (Resized bytes) (may_leave_of self.old) (left_since_of self.new (moment_of self.old)) }
    {
        if self.counts.next(DeviceCall::SetSize) {
            return Err(self.counts.fail());
        }
        match self.history.resize(bytes as usize) {
            Ok(()) => Ok(()),
            Err(_) => Err(self.counts.starve()),
        }
    }

    /// Reads the contents. A call that fails changes nothing, and leaves `into` as it was.
    fn read_at(&mut self, offset: u64, into: &mut [u8]) -> Result<(), DiskFailed>
        requires { offset + length into.old ≤ known_of self.old }
        ensures bytes { OnOk result (into.new ≡ part offset (length into.old) (seen_of self.new)) }
        ensures into { OnErr result (into.new ≡ into.old) }
        ensures stays { Undisturbed self.old self.new }
        ensures known { known_of self.new ≡ known_of self.old }
        ensures answers { Answers DeviceCall.ReadAt self.old self.new result }
        ensures starved { starved_of self.new ≡ starved_of self.old }
        ensures cause { HasCause (faults_of self.old) (faults_of self.new) result }
        ensures time { Elapses (moment_of self.old) (moment_of self.new) (left_since_of self.old) (left_since_of self.new) }
        ensures crash { (c : List ℕ) → left_since_of self.new (moment_of self.old) c → may_leave_of self.old c }
    {
        if self.counts.next(DeviceCall::ReadAt) {
            return Err(self.counts.fail());
        }
        let offset = offset as usize;
        into.copy_from_slice(&self.history.bytes[offset..offset + into.len()]);
        Ok(())
    }

    /// Writes, also where the plan fails the call: then, too, the contents have the new bytes, which aren't stable. A call
    /// that finds no memory changes nothing.
    fn write_at(&mut self, offset: u64, bytes: &[u8]) -> Result<(), DiskFailed>
        requires { offset + length bytes.now ≤ known_of self.old }
        ensures wrote { OnOk result (Wrote offset bytes.now self.old self.new) }
        ensures effect { ((starved_of self.new ≡ starved_of self.old) × Wrote offset bytes.now self.old self.new) ⊎ ((starved_of self.new ≡ raised (starved_of self.old)) × Undisturbed self.old self.new) }
        ensures known { known_of self.new ≡ known_of self.old }
        ensures read_back { OnOk result (part offset (length bytes.now) (seen_of self.new) ≡ bytes.now) }
        ensures answers { Answers DeviceCall.WriteAt self.old self.new result }
        ensures count { RisesBy (length bytes.now) (written_of self.old) (written_of self.new) }
        ensures cause { HasCause (faults_of self.old) (faults_of self.new) result }
        ensures time { Elapses (moment_of self.old) (moment_of self.new) (left_since_of self.old) (left_since_of self.new) }
        ensures ticks { OnOk result (moment_of self.old < moment_of self.new) }
        ensures crash { Follows (Torn offset (length bytes.now)) (may_leave_of self.old) (left_since_of self.new (moment_of self.old)) }
    {
        let planned = self.counts.next(DeviceCall::WriteAt);
        match self.history.write(offset as usize, bytes) {
            Ok(()) => {}
            Err(_) => return Err(self.counts.starve()),
        }
        self.written = self.written.saturating_add(bytes.len() as u64);
        if planned {
            return Err(self.counts.fail());
        }
        Ok(())
    }

    /// Makes the contents stable. A call that fails changes nothing.
    fn sync(&mut self) -> Result<(), DiskFailed>
        ensures durable { OnOk result (Only (seen_of self.new) (may_leave_of self.new)) }
        ensures contents { seen_of self.new ≡ seen_of self.old }
        ensures stays { OnErr result (Undisturbed self.old self.new) }
        ensures known { known_of self.new ≡ known_of self.old }
        ensures answers { Answers DeviceCall.SyncAll self.old self.new result }
        ensures cause { HasCause (faults_of self.old) (faults_of self.new) result }
        ensures count { written_of self.new ≡ written_of self.old }
        ensures time { Elapses (moment_of self.old) (moment_of self.new) (left_since_of self.old) (left_since_of self.new) }
        ensures ticks { OnOk result (moment_of self.old < moment_of self.new) }
        ensures crash { (c : List ℕ) → left_since_of self.new (moment_of self.old) c → may_leave_of self.old c }
    {
        if self.counts.next(DeviceCall::SyncAll) {
            return Err(self.counts.fail());
        }
        match self.history.sync() {
            Ok(()) => Ok(()),
            Err(_) => Err(self.counts.starve()),
        }
    }

    fn faults(&self) -> u64 {
        self.counts.faults
    }

    fn known_size(&self) -> u64 {
        self.history.bytes.len() as u64
    }
}
