//! The calls of a script, one after another.
ghost use Rattle.std.specs.Prelude.{◌≡◌, ◌≢◌, ◌⊎◌, ◌≤◌, ◌<◌, ◌+◌, ◌-◌, ◌^◌, ◌++◌, ℕ, List, [], true, false, IsTrue, length, take, OnOk, OnErr, IfOk, IfErr, IsErrOf, None, Some};
ghost use Rattle.fault_counts.specs.Counts.{Rose};
ghost use Rattle.tree_model.specs.Picture.{picture};
ghost use Rattle.script_text.specs.Scripts.{first_unbuilt};
ghost use Rattle.gate_journal.specs.Halves.{journal_of};
ghost use Rattle.std.specs.List.{All};
ghost use Rattle.ccfs_base.specs.Fits.{fits_command};
ghost use Rattle.image_model.specs.Checks.{is_last};
ghost use Rattle.ccfs_top.specs.Ends.{IsPart, joined};
ghost use Rattle.ccfs_top.specs.Outcomes.{CrashSafe, Halts};
ghost use Rattle.ccfs_top.specs.Runs.{image_by, replies, final_number, final_tree, ran};
ghost use Rattle.ccfs_top.specs.Sessions.{Settled, Shows};
ghost use Rattle.front_core.specs.Fronts.{new_front};
ghost use Rattle.ccfs_top.specs.Steady.{Rises, Steady, Unmoved};
ghost use Rattle.ccfs_top.specs.Stops.{ByDisk, IsFaultStop};

use crate::session::{Session, StepFault};
use crate::stop::Stop;
use ccfs_base::{Sink, write_all};
use disk_model::Disk;
use script_text::Call;
use std::alloc::Global;

/// Why a run stops at a call that isn't performed, though it is built.
fn stop_of_step(fault: StepFault) -> Stop
    requires built { fault ≡ StepFault.NotBuilt → ⊥ }
    ensures device { result ≡ Stop.Disk → fault ≡ StepFault.Device }
    ensures told { fault ≡ StepFault.Device → result ≡ Stop.Disk }
    ensures kinds { (result ≡ Stop.Disk) ⊎ (result ≡ Stop.NoMemory) }
{
    match fault {
        StepFault::Device => Stop::Disk,
        StepFault::NoMemory => Stop::NoMemory,
        StepFault::NotBuilt => unreachable!(),
    }
}

/// Writes the line of a reply. It has its memory already, so that only the sink can fail.
fn write_reply<K: Sink>(line: &[u8], out: &mut K) -> Result<(), Stop>
    ensures text { K.tells → OnOk result (K.held out.new ≡ K.held out.old ++ line.now) }
    ensures sink { K.tells → IsErrOf result Stop.Sink → (said : List ℕ) × (K.held out.new ≡ K.held out.old ++ said) × IsPart said line.now }
    ensures sink_cause { IsErrOf result Stop.Sink → Rose (K.faults out.old) (K.faults out.new) }
    ensures sink_steady { Unmoved (K.faults out.old) (K.faults out.new) (IsErrOf result Stop.Sink) }
    ensures kinds { IfErr result (λ stop. stop ≡ Stop.Sink) }
    ensures sink_later { K.faults out.old ≤ K.faults out.new }
{
    match write_all(out, line) {
        Ok(()) => Ok(()),
        Err(_) => Err(Stop::Sink),
    }
}

/// Performs these calls in order on a session that was just opened, and writes the line of each reply before the next
/// call. It stops at the first fault.
pub fn perform_all<D: Disk, K: Sink>(
    alloc: Global,
    session: &mut Session<D>,
    calls: &[Call],
    out: &mut K,
) -> Result<(), Stop>
    requires actors { All (λ call. call.actor < 64) calls.now }
    requires fits { All (λ call. fits_command call.command ≡ true) calls.now }
    requires few { length calls.now ≤ 65536 }
    requires built { first_unbuilt calls.now ≡ None }
    requires new { session.old.front ≡ new_front session.old.volume.geometry 1048576 session.old.front.opening session.old.front.inodes }
    requires none_written { session.old.written ≡ 0 }
    requires settled { Settled session.old.volume.geometry session.old.volume.volume.items session.old.metadata session.old.front session.old.first session.old.written }
    requires working { session.old.volume.failed ≡ false }
    requires last { is_last (journal_of session.old.volume.half).last session.old.first ≡ true }
    ensures text { K.tells → OnOk result (K.held out.new ≡ K.held out.old ++ joined (replies (image_by session.old.first session.old.front) calls.now)) }
    ensures shows { OnOk result (Shows session.new.volume.geometry session.new.volume.half session.new.volume.volume.items
        (final_number (image_by session.old.first session.old.front) calls.now) (picture (final_tree (image_by session.old.first session.old.front) calls.now))) }
    ensures working { OnOk result (session.new.volume.failed ≡ false) }
    ensures kept { D.tells → OnOk result (CrashSafe D.Disk session.old.volume.disk session.new.volume.disk (image_by session.old.first session.old.front) calls.now (length (replies (image_by session.old.first session.old.front) calls.now))) }
    ensures halts { D.tells → IfErr result (λ stop. Halts (ran (image_by session.old.first session.old.front) calls.now) stop (CrashSafe D.Disk session.old.volume.disk session.new.volume.disk (image_by session.old.first session.old.front) calls.now) K.tells (K.held out.old) (K.held out.new)) }
    ensures fault { IfErr result (λ stop. IsFaultStop stop) }
    ensures later { D.faults session.old.volume.disk ≤ D.faults session.new.volume.disk }
    ensures sink_later { K.faults out.old ≤ K.faults out.new }
    ensures sink_cause { IsErrOf result Stop.Sink → Rose (K.faults out.old) (K.faults out.new) }
    ensures sink_steady { Unmoved (K.faults out.old) (K.faults out.new) (IsErrOf result Stop.Sink) }
    ensures device { Rises D.Disk session.old.volume.disk session.new.volume.disk (ByDisk result) }
    ensures steady { Steady D.Disk session.old.volume.disk session.new.volume.disk (ByDisk result) }
    ensures unfailed { (ByDisk result → ⊥) → session.new.volume.failed ≡ false }
{
    for call in calls {
        let answer = match session.step(alloc, call.actor, &call.command) {
            Ok(answer) => answer,
            Err(fault) => return Err(stop_of_step(fault)),
        };
        match write_reply(answer.line.all(), out) {
            Ok(()) => {}
            Err(stop) => return Err(stop),
        }
    }
    Ok(())
}
