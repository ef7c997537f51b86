//! A file system in use: its front, and the volume that holds what is durable.
ghost use Rattle.std.specs.Prelude.{◌≡◌, ◌⊎◌, ◌≤◌, ◌<◌, ◌+◌, true, false, IsTrue, IfOk, OnOk, OnErr, IfErr, IsErrOf, length};
ghost use Rattle.fault_counts.specs.Counts.{Rose};
ghost use Rattle.ccfs_base.specs.Fits.{fits_command};
ghost use Rattle.script_text.specs.Texts.{reply_line};
ghost use Rattle.gate_journal.specs.Batches.{batch_bytes};
ghost use Rattle.gate_journal.specs.Halves.{size_of, journal_of, MayFollow};
ghost use Rattle.gate_journal.specs.Runs.{LeavesBy};
ghost use Rattle.atomic_volume.specs.Held.{contents_by};
ghost use Rattle.atomic_volume.specs.Homing.{IsMoved};
ghost use Rattle.atomic_volume.specs.declared.fault.VolumeFault.TheVariants as volume_fault;
ghost use Rattle.image_model.specs.Checks.{is_last};
ghost use Rattle.front_laws.specs.Batches.{batch_at};
ghost use Rattle.front_laws.specs.Kept.{is_answered};
ghost use Rattle.front_core.specs.Fronts.{next_history, seals_of};
ghost use Rattle.ccfs_top.specs.Runs.{further};
ghost use Rattle.ccfs_top.specs.Stages.{Failed, is_sync_form};
ghost use Rattle.ccfs_top.specs.Steady.{Rises, Steady};
ghost use Rattle.ccfs_top.specs.JournalSpace.{next_batch, journal_for, HasOneMore, space_used, taken_by, size_at, HasTaken};
ghost use Rattle.ccfs_top.specs.Sessions.{Settled, ShowsOneOf, IsStepped};

use atomic_volume::{Volume, VolumeFault};
use batch_ranges::Metadata;
use ccfs_base::{Bytes, Command, Reply};
use disk_model::Disk;
use file_bodies::Sealed;
use front_core::{ActFault, Front};
use gate_journal::Batch;
use script_text::reply_text;
use std::alloc::Global;

/// Why a call wasn't performed.
#[derive(Clone, Copy, Debug, PartialEq, Eq, Drop)]
pub enum StepFault {
    /// The device failed.
    Device,
    /// There was no memory.
    NoMemory,
    /// What the call asks for isn't built yet.
    NotBuilt,
}

/// A reply, and its line. The line has its memory before anything of the call is made durable.
#[derive(Drop)]
pub struct Answer {
    /// The reply.
    pub reply: Reply,
    /// Its line.
    pub line: Bytes,
}

/// A file system in use.
pub struct Session<D: Disk> {
    /// The volume that holds what is durable, on the disk.
    pub volume: Volume<D>,
    /// The metadata of the volume.
    pub metadata: Metadata,
    /// What was done, and what of it isn't durable.
    pub front: Front,
    /// The number of the last batch in the volume when it was opened.
    pub first: u64,
    /// How many batches were written since then.
    pub written: u64,
}

/// Whether a command makes durable what is sealed.
fn is_sync_form(command: &Command) -> bool
    ensures { result ≡ is_sync_form command.now }
{
    matches!(
        command,
        Command::StreamSync | Command::Sync | Command::Flush
    )
}

/// Why a call wasn't performed, where a commit was refused.
fn stop_of_commit(fault: VolumeFault) -> StepFault
    ensures device { fault ≡ volume_fault.Device → result ≡ StepFault.Device }
    ensures told { result ≡ StepFault.Device → fault ≡ volume_fault.Device }
    ensures built { result ≡ StepFault.NotBuilt → ⊥ }
{
    match fault {
        VolumeFault::Device => StepFault::Device,
        VolumeFault::NoMemory
        | VolumeFault::BadLength
        | VolumeFault::BadSuper { .. }
        | VolumeFault::BadJournal { .. } => StepFault::NoMemory,
    }
}

/// Makes room for a batch: where it doesn't fit the half in use, a checkpoint moves what is in it home, and the other half takes the batch.
/// Where it fits, nothing is done. `Device` is the only fault, and comes only where the disk's faults rose.
fn make_space<D: Disk>(volume: &mut Volume<D>, batch: &Batch) -> Result<(), StepFault>
    requires working { volume.old.failed ≡ false }
    requires follows { MayFollow (size_of volume.old.half) (journal_of volume.old.half) batch.now }
    ensures geometry { volume.new.geometry ≡ volume.old.geometry }
    ensures bytes { volume.new.volume.items ≡ volume.old.volume.items }
    ensures journal { OnOk result (journal_of volume.new.half ≡ journal_for (journal_of volume.old.half) (length (batch_bytes batch.now))) }
    ensures working { OnOk result (volume.new.failed ≡ false) }
    ensures any_moment { D.tells → LeavesBy D.Disk volume.old.disk volume.new.disk (IsMoved (contents_by volume.old.geometry volume.old.half volume.old.volume.items) (D.may_leave volume.old.disk)) }
    ensures later { D.faults volume.old.disk ≤ D.faults volume.new.disk }
    ensures device { IfErr result (λ fault. fault ≡ StepFault.Device) }
    ensures rose { OnErr result (Rose (D.faults volume.old.disk) (D.faults volume.new.disk)) }
    ensures steady { OnOk result (D.faults volume.new.disk ≡ D.faults volume.old.disk) }
{
    if volume.accepts(batch) {
        return Ok(());
    }
    match volume.checkpoint() {
        Ok(()) => Ok(()),
        Err(_) => Err(StepFault::Device),
    }
}

impl<D: Disk> Session<D> {
    /// Writes the batch that takes the volume to its next cut, where it doesn't fit the journal behind a checkpoint. Which of both it is, is
    /// decided before anything is written. Where that fails, nothing may be written any more.
    fn commit(&mut self, alloc: Global, sealed: &Sealed) -> Result<(), StepFault>
        requires settled { Settled self.old.volume.geometry self.old.volume.volume.items self.old.metadata self.old.front self.old.first self.old.written }
        requires next { sealed.now ≡ batch_at self.old.front.sizes self.old.front.opening self.old.front.inodes self.old.front.entries self.old.written }
        requires more { self.old.written < seals_of self.old.front }
        requires working { self.old.volume.failed ≡ false }
        requires last { is_last (journal_of self.old.volume.half).last (further self.old.first self.old.written) ≡ true }
        ensures front { self.new.front ≡ self.old.front }
        ensures first { self.new.first ≡ self.old.first }
        ensures written { OnOk result (self.new.written ≡ self.old.written + 1) }
        ensures settled { OnOk result (Settled self.new.volume.geometry self.new.volume.volume.items self.new.metadata self.new.front self.new.first self.new.written) }
        ensures journal { OnOk result (HasOneMore self.old.volume.half (next_batch self.old.metadata self.old.front self.old.first self.old.written) self.new.volume.half) }
        ensures taken { OnOk result (space_used (journal_of self.new.volume.half) ≡ taken_by (space_used (journal_of self.old.volume.half)) (size_at self.old.front self.old.written)) }
        ensures last { OnOk result (is_last (journal_of self.new.volume.half).last (further self.new.first self.new.written) ≡ true) }
        ensures working { OnOk result (self.new.volume.failed ≡ false) }
        ensures geometry { self.new.volume.geometry ≡ self.old.volume.geometry }
        ensures moments { D.tells → LeavesBy D.Disk self.old.volume.disk self.new.volume.disk (ShowsOneOf self.old.front self.old.first self.old.written (self.old.written + 1)) }
        ensures later { D.faults self.old.volume.disk ≤ D.faults self.new.volume.disk }
        ensures device { Rises D.Disk self.old.volume.disk self.new.volume.disk (Failed result) }
        ensures steady { Steady D.Disk self.old.volume.disk self.new.volume.disk (Failed result) }
        ensures unfailed { (Failed result → ⊥) → self.new.volume.failed ≡ false }
        ensures built { IsErrOf result StepFault.NotBuilt → ⊥ }
        ensures unwritten { OnErr result (self.new.written ≡ self.old.written) }
    {
        self.front.is_kept();
        let number = self.first.wrapping_add(self.written).wrapping_add(1);
        let Ok(batch) = self.metadata.batch(alloc, number, &sealed.recs) else {
            return Err(StepFault::NoMemory);
        };
        make_space(&mut self.volume, &batch)?;
        match self.volume.commit(&batch) {
            Ok(()) => {
                self.written += 1;
                Ok(())
            }
            Err(fault) => Err(stop_of_commit(fault)),
        }
    }

    /// Writes all batches that were sealed, in the order of their numbers. Where that fails, nothing may be written any more.
    fn write_all(&mut self, alloc: Global) -> Result<(), StepFault>
        requires settled { Settled self.old.volume.geometry self.old.volume.volume.items self.old.metadata self.old.front self.old.first self.old.written }
        requires handed { self.old.front.handed ≡ self.old.written }
        requires working { self.old.volume.failed ≡ false }
        requires last { is_last (journal_of self.old.volume.half).last (further self.old.first self.old.written) ≡ true }
        ensures front { self.new.front ≡ record self.old.front { handed = seals_of self.old.front } }
        ensures first { self.new.first ≡ self.old.first }
        ensures geometry { self.new.volume.geometry ≡ self.old.volume.geometry }
        ensures written { OnOk result (self.new.written ≡ seals_of self.old.front) }
        ensures settled { OnOk result (Settled self.new.volume.geometry self.new.volume.volume.items self.new.metadata self.new.front self.new.first self.new.written) }
        ensures journal { OnOk result (HasTaken self.new.front self.old.written self.new.written self.old.volume.half self.new.volume.half) }
        ensures last { OnOk result (is_last (journal_of self.new.volume.half).last (further self.new.first self.new.written) ≡ true) }
        ensures working { OnOk result (self.new.volume.failed ≡ false) }
        ensures moments { D.tells → LeavesBy D.Disk self.old.volume.disk self.new.volume.disk (ShowsOneOf self.old.front self.old.first self.old.written (seals_of self.old.front)) }
        ensures later { D.faults self.old.volume.disk ≤ D.faults self.new.volume.disk }
        ensures device { Rises D.Disk self.old.volume.disk self.new.volume.disk (Failed result) }
        ensures steady { Steady D.Disk self.old.volume.disk self.new.volume.disk (Failed result) }
        ensures unfailed { (Failed result → ⊥) → self.new.volume.failed ≡ false }
        ensures built { IsErrOf result StepFault.NotBuilt → ⊥ }
        ensures undone { OnErr result (self.new.written < seals_of self.new.front) }
    {
        let sealed = self.front.take_sealed();
        for batch in &sealed {
            self.commit(alloc, batch)?;
        }
        Ok(())
    }

    /// Performs a command of an actor, and answers its reply with its line.
    ///
    /// The line has its memory before a batch is written. So want of memory leaves the volume as it was, or a batch that
    /// the command was to write isn't there: nothing is made durable whose reply can't be written.
    /// At every moment a crash leaves an image with the picture of a cut from the last that was written to the last that is sealed.
    /// A batch that doesn't fit the journal is written behind a checkpoint, and there is none but for such a batch.
    /// `NotBuilt` comes only for a command that isn't built, and all is as before. `Device` comes only where the disk's faults rose, and the
    /// volume has failed after it. After any fault but one that leaves the front as it was, nothing may be performed any more.
    pub fn step(&mut self, alloc: Global, actor: u8, command: &Command) -> Result<Answer, StepFault>
        requires actor { actor < 64 }
        requires fits { IsTrue (fits_command command.now) }
        requires room { length self.old.front.entries < self.old.front.limit }
        requires settled { Settled self.old.volume.geometry self.old.volume.volume.items self.old.metadata self.old.front self.old.first self.old.written }
        requires handed { self.old.front.handed ≡ self.old.written }
        requires working { self.old.volume.failed ≡ false }
        requires last { is_last (journal_of self.old.volume.half).last (further self.old.first self.old.written) ≡ true }
        ensures stepped { IfOk result (λ answer. IsStepped self.old.front self.old.written actor command.now answer.reply self.new.front self.new.written) }
        ensures line { IfOk result (λ answer. answer.line ≡ reply_line actor answer.reply) }
        ensures settled { OnOk result (Settled self.new.volume.geometry self.new.volume.volume.items self.new.metadata self.new.front self.new.first self.new.written) }
        ensures journal { OnOk result (HasTaken self.new.front self.old.written self.new.written self.old.volume.half self.new.volume.half) }
        ensures first { self.new.first ≡ self.old.first }
        ensures geometry { self.new.volume.geometry ≡ self.old.volume.geometry }
        ensures last { OnOk result (is_last (journal_of self.new.volume.half).last (further self.new.first self.new.written) ≡ true) }
        ensures working { OnOk result (self.new.volume.failed ≡ false) }
        ensures moments { D.tells → LeavesBy D.Disk self.old.volume.disk self.new.volume.disk (ShowsOneOf (record self.old.front { entries = next_history self.old.front actor command.now }) self.old.first self.old.written (seals_of (record self.old.front { entries = next_history self.old.front actor command.now }))) }
        ensures later { D.faults self.old.volume.disk ≤ D.faults self.new.volume.disk }
        ensures device { Rises D.Disk self.old.volume.disk self.new.volume.disk (Failed result) }
        ensures steady { Steady D.Disk self.old.volume.disk self.new.volume.disk (Failed result) }
        ensures unfailed { (Failed result → ⊥) → self.new.volume.failed ≡ false }
        ensures answered { OnOk result (is_answered command.now ≡ true) }
        ensures unbuilt { IsErrOf result StepFault.NotBuilt → is_answered command.now ≡ false }
        ensures undone { IsErrOf result StepFault.NoMemory
            → (self.new.volume ≡ self.old.volume) ⊎ (self.new.written < seals_of self.new.front) }
        ensures not_entered { IsErrOf result StepFault.NotBuilt → self.new ≡ self.old }
    {
        let reply = match self.front.act(actor, command) {
            Ok(reply) => reply,
            Err(ActFault::NotBuilt) => return Err(StepFault::NotBuilt),
            Err(ActFault::NoMemory) => return Err(StepFault::NoMemory),
            Err(ActFault::HistoryFull { .. }) => unreachable!(),
        };
        let Ok(line) = reply_text(alloc, actor, &reply) else {
            return Err(StepFault::NoMemory);
        };
        if !is_sync_form(command) {
            return Ok(Answer { reply, line });
        }
        self.write_all(alloc)?;
        Ok(Answer { reply, line })
    }

    /// Hands the disk back.
    pub fn end(self) -> D
        ensures { result ≡ self.volume.disk }
    {
        let Session {
            volume,
            metadata: _,
            front: _,
            first: _,
            written: _,
        } = self;
        volume.end()
    }
}
