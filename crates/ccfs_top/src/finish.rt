//! A run over a disk, from its opening to the tree text.
ghost use Rattle.std.specs.Prelude.{◌≡◌, ◌⊎◌, ◌<◌, ◌≤◌, ◌++◌, ℕ, List, true, false, None, Some, IfOk, IfErr, OnOk, OnErr, IsErrOf, length};
ghost use Rattle.fault_counts.specs.Counts.{Rose};
ghost use Rattle.tree_model.specs.declared.picturing.Item.{Item};
ghost use Rattle.tree_model.specs.Picture.{picture};
ghost use Rattle.script_text.specs.Scripts.{first_unbuilt};
ghost use Rattle.script_text.specs.Trees.{tree_lines};
ghost use Rattle.gate_journal.specs.Halves.{journal_of};
ghost use Rattle.gate_journal.specs.Runs.{Quiet};
ghost use Rattle.recovery.specs.Bad.{Says};
ghost use Rattle.std.specs.List.{All};
ghost use Rattle.ccfs_base.specs.Fits.{fits_command};
ghost use Rattle.image_model.specs.Checks.{is_last};
ghost use Rattle.recovery.specs.Recovering.{shown_for_now};
ghost use Rattle.recovery.specs.declared.fault.OpenFault.TheVariants as open_fault;
ghost use Rattle.ccfs_top.specs.Ends.{IsPart, joined};
ghost use Rattle.ccfs_top.specs.Outcomes.{CrashSafe, Halts, Done, DoneOn, HaltsOn};
ghost use Rattle.front_core.specs.Fronts.{new_front};
ghost use Rattle.ccfs_top.specs.Runs.{image_by, ran, over};
ghost use Rattle.ccfs_top.specs.Sessions.{Settled};
ghost use Rattle.ccfs_top.specs.Steady.{Rises, Steady, Sure, Unmoved};
ghost use Rattle.ccfs_top.specs.Stops.{IsFaultStop, IsLate};

use crate::open::open;
use crate::run::perform_all;
use crate::session::Session;
use crate::stop::{Stop, stop_of_open};
use ccfs_base::{Returned, Sink, write_all};
use disk_model::Disk;
use recovery::view;
use script_text::{Call, tree_text};
use std::alloc::Global;
use tree_model::Item;

/// A run that came to its end.
pub struct Finished<D> {
    /// The number that was printed with the tree.
    pub batches: u64,
    /// The disk.
    pub disk: D,
}

/// Writes the text of a tree by its picture.
pub fn write_tree<K: Sink>(
    alloc: Global,
    number: u64,
    picture: &[Item],
    out: &mut K,
) -> Result<(), Stop>
    ensures text { K.tells → OnOk result (K.held out.new ≡ K.held out.old ++ tree_lines number picture.now) }
    ensures sink { K.tells → IsErrOf result Stop.Sink → (said : List ℕ) × (K.held out.new ≡ K.held out.old ++ said) × IsPart said (tree_lines number picture.now) }
    ensures unwritten { K.tells → IsErrOf result Stop.NoMemory → K.held out.new ≡ K.held out.old }
    ensures sink_cause { IsErrOf result Stop.Sink → Rose (K.faults out.old) (K.faults out.new) }
    ensures sink_steady { Unmoved (K.faults out.old) (K.faults out.new) (IsErrOf result Stop.Sink) }
    ensures kinds { IfErr result (λ stop. (stop ≡ Stop.Sink) ⊎ (stop ≡ Stop.NoMemory)) }
    ensures sink_later { K.faults out.old ≤ K.faults out.new }
{
    let Ok(text) = tree_text(alloc, number, picture) else {
        return Err(Stop::NoMemory);
    };
    match write_all(out, text.all()) {
        Ok(()) => Ok(()),
        Err(_) => Err(Stop::Sink),
    }
}

/// Reads the tree that the disk holds and writes its text. Answers the number that was written.
fn write_shown<D: Disk, K: Sink>(alloc: Global, disk: &mut D, out: &mut K) -> Result<u64, Stop>
    ensures number { D.tells → D.in_doubt disk.old ≡ false → (number : ℕ) (p : List Item) → shown_for_now (D.seen disk.old) ≡ Some (number, p) → IfOk result (λ n. n ≡ number) }
    ensures text { D.tells → K.tells → D.in_doubt disk.old ≡ false → (number : ℕ) (p : List Item) → shown_for_now (D.seen disk.old) ≡ Some (number, p) → OnOk result (K.held out.new ≡ K.held out.old ++ tree_lines number p) }
    ensures sink { D.tells → K.tells → D.in_doubt disk.old ≡ false → (number : ℕ) (p : List Item) → shown_for_now (D.seen disk.old) ≡ Some (number, p) → IsErrOf result Stop.Sink
        → (said : List ℕ) × (K.held out.new ≡ K.held out.old ++ said) × IsPart said (tree_lines number p) }
    ensures sink_cause { IsErrOf result Stop.Sink → Rose (K.faults out.old) (K.faults out.new) }
    ensures sink_steady { Unmoved (K.faults out.old) (K.faults out.new) (IsErrOf result Stop.Sink) }
    ensures unwritten { K.tells → (IsErrOf result Stop.Sink → ⊥) → OnErr result (K.held out.new ≡ K.held out.old) }
    ensures fault { D.tells → D.in_doubt disk.old ≡ false → (number : ℕ) (p : List Item) → shown_for_now (D.seen disk.old) ≡ Some (number, p) → IfErr result (λ stop. IsFaultStop stop) }
    ensures quiet { D.tells → Quiet D.Disk disk.old disk.new }
    ensures later { D.faults disk.old ≤ D.faults disk.new }
    ensures sink_later { K.faults out.old ≤ K.faults out.new }
    ensures device { IsErrOf result Stop.Disk → Rose (D.faults disk.old) (D.faults disk.new) }
    ensures steady { (IsErrOf result Stop.Disk → ⊥) → D.faults disk.new ≡ D.faults disk.old }
    ensures late { IfErr result (λ stop. IsLate stop) }
{
    let viewed = match view(alloc, disk) {
        Ok(viewed) => viewed,
        Err(fault) => return Err(stop_of_open(fault)),
    };
    let Ok(picture) = viewed.tree.picture(alloc) else {
        return Err(Stop::NoMemory);
    };
    match write_tree(alloc, viewed.number, picture.all(), out) {
        Ok(()) => Ok(viewed.number),
        Err(stop) => Err(stop),
    }
}

/// Performs these calls on a session that was just opened, hands its disk back, and writes the tree text.
fn run_session<D: Disk, K: Sink>(
    alloc: Global,
    session: Session<D>,
    calls: &[Call],
    out: &mut K,
) -> Result<Finished<D>, Returned<Stop, D>>
    requires actors { All (λ call. call.actor < 64) calls.now }
    requires fits { All (λ call. fits_command call.command ≡ true) calls.now }
    requires few { length calls.now ≤ 65536 }
    requires built { first_unbuilt calls.now ≡ None }
    requires new { session.front ≡ new_front session.volume.geometry 1048576 session.front.opening session.front.inodes }
    requires none_written { session.written ≡ 0 }
    requires settled { Settled session.volume.geometry session.volume.volume.items session.metadata session.front session.first session.written }
    requires working { session.volume.failed ≡ false }
    requires last { is_last (journal_of session.volume.half).last session.first ≡ true }
    ensures done { D.tells → IfOk result (λ done. Done D.Disk session.volume.disk done.disk calls.now (image_by session.first session.front) done.batches K.tells (K.held out.old) (K.held out.new)) }
    ensures halts { D.tells → IfErr result (λ refused. Halts (ran (image_by session.first session.front) calls.now) refused.fault (CrashSafe D.Disk session.volume.disk refused.kept (image_by session.first session.front) calls.now) K.tells (K.held out.old) (K.held out.new)) }
    ensures sink_cause { IfErr result (λ refused. refused.fault ≡ Stop.Sink → Rose (K.faults out.old) (K.faults out.new)) }
    ensures sink_steady { OnOk result (K.faults out.new ≡ K.faults out.old) }
    ensures late { IfErr result (λ refused. IsLate refused.fault) }
    ensures sink_later { K.faults out.old ≤ K.faults out.new }
    ensures device { IfErr result (λ r. Rises D.Disk session.volume.disk r.kept (r.fault ≡ Stop.Disk)) }
    ensures steady { IfOk result (λ done. D.faults done.disk ≡ D.faults session.volume.disk) }
    ensures calm { IfErr result (λ r. Steady D.Disk session.volume.disk r.kept (r.fault ≡ Stop.Disk)) }
    ensures settled { D.tells → IfOk result (λ done. D.in_doubt done.disk ≡ false) }
    ensures sure { D.tells → IfErr result (λ r. (r.fault ≡ Stop.Disk → ⊥) → D.in_doubt r.kept ≡ false) }
{
    let mut session = session;
    match perform_all(alloc, &mut session, calls, out) {
        Ok(()) => {}
        Err(fault) => {
            return Err(Returned {
                fault,
                kept: session.end(),
            });
        }
    }
    let mut disk = session.end();
    match write_shown(alloc, &mut disk, out) {
        Ok(batches) => Ok(Finished { batches, disk }),
        Err(fault) => Err(Returned { fault, kept: disk }),
    }
}

/// Opens the disk, performs these calls on it and writes the tree text.
pub fn run_disk<D: Disk, K: Sink>(
    alloc: Global,
    disk: D,
    calls: &[Call],
    out: &mut K,
) -> Result<Finished<D>, Returned<Stop, D>>
    requires actors { All (λ call. call.actor < 64) calls.now }
    requires fits { All (λ call. fits_command call.command ≡ true) calls.now }
    requires few { length calls.now ≤ 65536 }
    requires built { first_unbuilt calls.now ≡ None }
    ensures done { D.tells → IfOk result (λ done. DoneOn D.Disk disk done.disk calls.now done.batches K.tells (K.held out.old) (K.held out.new)) }
    ensures halts { D.tells → IfErr result (λ refused. HaltsOn D.Disk disk refused.kept calls.now (over (λ image. ran image calls.now)) refused.fault K.tells (K.held out.old) (K.held out.new)) }
    ensures sink_cause { IfErr result (λ refused. refused.fault ≡ Stop.Sink → Rose (K.faults out.old) (K.faults out.new)) }
    ensures sink_steady { OnOk result (K.faults out.new ≡ K.faults out.old) }
    ensures late { IfErr result (λ refused. IsLate refused.fault) }
    ensures sink_later { K.faults out.old ≤ K.faults out.new }
    ensures device { IfErr result (λ r. Rises D.Disk disk r.kept (r.fault ≡ Stop.Disk)) }
    ensures steady { IfOk result (λ done. D.faults done.disk ≡ D.faults disk) }
    ensures calm { IfErr result (λ r. Steady D.Disk disk r.kept (r.fault ≡ Stop.Disk)) }
    ensures settled { D.tells → IfOk result (λ done. D.in_doubt done.disk ≡ false) }
    ensures sure { D.tells → IfErr result (λ r. Sure D.Disk disk r.kept (r.fault ≡ Stop.Disk)) }
{
    let session = match open(alloc, disk) {
        Ok(session) => session,
        Err(refused) => {
            return Err(Returned {
                fault: stop_of_open(refused.fault),
                kept: refused.kept,
            });
        }
    };
    run_session(alloc, session, calls, out)
}
