//! The top call.
ghost use Rattle.std.specs.Prelude.{◌≡◌, ◌⊎◌, ◌≤◌, ◌↔◌, ◌*◌, ◌^◌, ◌++◌, ℕ, List, true, false, length, None, Some, Ok, Err, IsErr, IfOk, IfErr, OnOk};
ghost use Rattle.fault_counts.specs.Counts.{Rose};
ghost use Rattle.script_text.specs.declared.scripts.Call.{Call};
ghost use Rattle.script_text.specs.Scripts.{calls_of};
ghost use Rattle.script_text.specs.Texts.{usage_line};
ghost use Rattle.gate_journal.specs.Runs.{Quiet};
ghost use Rattle.ccfs_top.specs.Asked.{Mkfs, Run, Tree, IsStatusOf, asked_by};
ghost use Rattle.ccfs_top.specs.Ends.{EndsWith, IsEarly, IsMadeStatus, IsRefusal, IsRefusedWith, IsRunStatus, IsTreeStatus, Wrote};
ghost use Rattle.ccfs_top.specs.Images.{Unread};
ghost use Rattle.ccfs_top.specs.Outcomes.{DoneOn, HaltsOn, Ran, Printed, IsNew};
ghost use Rattle.ccfs_top.specs.Runs.{IsReady, IsUnready, alone, calls_in, expected, fresh};
ghost use Rattle.ccfs_top.specs.Steady.{Rises, Steady, StoppedBySource, Sure, Unmoved};
ghost use Rattle.ccfs_top.specs.Stops.{Decides, IsLate, IsOfScript, Told, SaidOf};

use crate::ended::Ended;
use crate::finish::{Finished, run_disk};
use crate::mkfs::make_image;
use crate::print::print_tree;
use crate::script::{ScriptEnd, read_calls};
use crate::stop::{Stop, say_stop};
use crate::words::{Row, row_of};
use block_layout::Geometry;
use ccfs_base::{Returned, Sink, Source};
use disk_model::Disk;
use std::alloc::Global;

fn stop_of_script(end: ScriptEnd) -> Stop
    ensures source { (end ≡ ScriptEnd.Source → result ≡ Stop.Source) × (result ≡ Stop.Source → end ≡ ScriptEnd.Source) }
    ensures long { (end ≡ ScriptEnd.Long → result ≡ Stop.Long) × (result ≡ Stop.Long → end ≡ ScriptEnd.Long) }
    ensures no_memory { end ≡ ScriptEnd.NoMemory → result ≡ Stop.NoMemory }
    ensures bad_line { (line : ℕ) → (end ≡ ScriptEnd.BadLine line → result ≡ Stop.BadLine line) × (result ≡ Stop.BadLine line → end ≡ ScriptEnd.BadLine line) }
    ensures not_built { (line : ℕ) → (end ≡ ScriptEnd.NotBuilt line → result ≡ Stop.NotBuilt line) × (result ≡ Stop.NotBuilt line → end ≡ ScriptEnd.NotBuilt line) }
    ensures others { (result ≡ Stop.Source) ⊎ (result ≡ Stop.Long) ⊎ (result ≡ Stop.NoMemory) ⊎ ((line : ℕ) × (result ≡ Stop.BadLine line)) ⊎ ((line : ℕ) × (result ≡ Stop.NotBuilt line)) }
{
    match end {
        ScriptEnd::Source => Stop::Source,
        ScriptEnd::Long => Stop::Long,
        ScriptEnd::BadLine { line } => Stop::BadLine { line },
        ScriptEnd::NotBuilt { line } => Stop::NotBuilt { line },
        ScriptEnd::NoMemory => Stop::NoMemory,
    }
}

/// Performs a script on a disk, and writes the replies and the tree.
fn run_script<D: Disk, S: Source, K: Sink>(
    alloc: Global,
    disk: D,
    script: &mut S,
    out: &mut K,
) -> Result<Finished<D>, Returned<Stop, D>>
    ensures done { S.tells → D.tells → IfOk result (λ done. (calls : List Call) × IsReady (S.left script.old) calls × DoneOn D.Disk disk done.disk calls done.batches K.tells (K.held out.old) (K.held out.new)) }
    ensures halts { S.tells → D.tells → IfErr result (λ refused. HaltsOn D.Disk disk refused.kept (calls_in (calls_of (S.left script.old))) (expected (S.left script.old)) refused.fault K.tells (K.held out.old) (K.held out.new)) }
    ensures refused { S.tells → IfErr result (λ refused. (IsLate refused.fault → ⊥) → Decides (expected (S.left script.old) Unread) refused.fault) }
    ensures no_usage { IfErr result (λ refused. refused.fault ≡ Stop.Usage → ⊥) }
    ensures source { IfErr result (λ refused. refused.fault ≡ Stop.Source → Rose (S.faults script.old) (S.faults script.new)) }
    ensures source_steady { Unmoved (S.faults script.old) (S.faults script.new) (StoppedBySource result) }
    ensures sink_cause { IfErr result (λ refused. refused.fault ≡ Stop.Sink → Rose (K.faults out.old) (K.faults out.new)) }
    ensures sink_steady { OnOk result (K.faults out.new ≡ K.faults out.old) }
    ensures sink_later { K.faults out.old ≤ K.faults out.new }
    ensures device { IfErr result (λ r. Rises D.Disk disk r.kept (r.fault ≡ Stop.Disk)) }
    ensures steady { IfOk result (λ done. D.faults done.disk ≡ D.faults disk) }
    ensures calm { IfErr result (λ r. Steady D.Disk disk r.kept (r.fault ≡ Stop.Disk)) }
    ensures settled { D.tells → IfOk result (λ done. D.in_doubt done.disk ≡ false) }
    ensures sure { D.tells → IfErr result (λ r. Sure D.Disk disk r.kept (r.fault ≡ Stop.Disk)) }
    ensures untouched { IfErr result (λ refused. (IsLate refused.fault → ⊥) → refused.kept ≡ disk) }
    ensures unready { S.tells → IsUnready (S.left script.old) → IsErr result }
    ensures unready_cause { S.tells → IsUnready (S.left script.old) → IfErr result (λ refused. IsOfScript refused.fault) }
    ensures unready_untouched { S.tells → IsUnready (S.left script.old) → IfErr result (λ refused. refused.kept ≡ disk) }
{
    match read_calls(alloc, script) {
        Ok(calls) => run_disk(alloc, disk, &calls, out),
        Err(end) => Err(Returned {
            fault: stop_of_script(end),
            kept: disk,
        }),
    }
}

/// How a call ends that stopped so, and the line that says it.
fn ended_by<D, K: Sink>(alloc: Global, stop: Stop, disk: D, out: &mut K) -> Ended<D>
    ensures told { Told stop result.status }
    ensures text { K.tells → (said : List ℕ) × (K.held out.new ≡ K.held out.old ++ said) × SaidOf (Rose (K.faults out.old) (K.faults out.new)) stop result.status said }
    ensures batches { result.batches ≡ 0 }
    ensures disk { result.disk ≡ disk }
    ensures later { K.faults out.old ≤ K.faults out.new }
{
    Ended {
        status: say_stop(alloc, stop, out),
        batches: 0,
        disk,
    }
}

/// Performs `run IMAGE SCRIPT`.
fn run<D: Disk, S: Source, K: Sink>(alloc: Global, disk: D, script: &mut S, out: &mut K) -> Ended<D>
    ensures statuses { IsRunStatus result.status }
    ensures refused { S.tells → IsRefusal result.status → result.status ≡ (expected (S.left script.old) Unread).status }
    ensures ran { S.tells → D.tells → Ran D.Disk disk result.disk (S.left script.old) K.tells (Rose (K.faults out.old) (K.faults out.new)) result.status result.batches (K.held out.old) (K.held out.new) }
    ensures no_batches { (result.status ≡ 0 → ⊥) → result.batches ≡ 0 }
    ensures source_fault { result.status ≡ 5 → Rose (S.faults script.old) (S.faults script.new) }
    ensures source_steady { Unmoved (S.faults script.old) (S.faults script.new) (result.status ≡ 5) }
    ensures sink_fault { result.status ≡ 6 → Rose (K.faults out.old) (K.faults out.new) }
    ensures sink_steady { result.status ≡ 0 → K.faults out.new ≡ K.faults out.old }
    ensures disk_fault { Rises D.Disk disk result.disk (result.status ≡ 7) }
    ensures disk_steady { Steady D.Disk disk result.disk (result.status ≡ 7) }
    ensures sure { D.tells → Sure D.Disk disk result.disk (result.status ≡ 7) }
    ensures settled { D.tells → result.status ≡ 0 → D.in_doubt result.disk ≡ false }
    ensures untouched { IsEarly result.status → result.disk ≡ disk }
    ensures unready_untouched { S.tells → IsUnready (S.left script.old) → result.disk ≡ disk }
    ensures unready { S.tells → IsUnready (S.left script.old) → IsRefusedWith (expected (S.left script.old) Unread) result.status }
{
    match run_script(alloc, disk, script, out) {
        Ok(Finished { batches, disk }) => Ended {
            status: 0,
            batches,
            disk,
        },
        Err(Returned { fault, kept }) => ended_by(alloc, fault, kept, out),
    }
}

/// Performs `mkfs IMAGE BLOCKS INODES`.
fn mkfs<D: Disk, K: Sink>(alloc: Global, disk: D, geometry: &Geometry, out: &mut K) -> Ended<D>
    requires { 64 * 2 ^ 20 ≤ D.most }
    ensures statuses { IsMadeStatus result.status }
    ensures ends { EndsWith (fresh geometry.now.blocks geometry.now.inodes) 0 result.status result.batches }
    ensures wrote { K.tells → Wrote (fresh geometry.now.blocks geometry.now.inodes) (Rose (K.faults out.old) (K.faults out.new)) 0 result.status (K.held out.old) (K.held out.new) }
    ensures new { D.tells → result.status ≡ 0 → IsNew D.Disk result.disk geometry.now.blocks geometry.now.inodes }
    ensures no_batches { result.batches ≡ 0 }
    ensures sink_fault { result.status ≡ 6 → Rose (K.faults out.old) (K.faults out.new) }
    ensures sink_steady { result.status ≡ 0 → K.faults out.new ≡ K.faults out.old }
    ensures unmade { result.status ≡ 9 → result.disk ≡ disk }
    ensures disk_fault { Rises D.Disk disk result.disk (result.status ≡ 7) }
    ensures disk_steady { Steady D.Disk disk result.disk (result.status ≡ 7) }
    ensures sure { D.tells → Sure D.Disk disk result.disk (result.status ≡ 7) }
    ensures settled { D.tells → result.status ≡ 0 → D.in_doubt result.disk ≡ false }
{
    let mut disk = disk;
    match make_image(alloc, &mut disk, geometry, out) {
        Ok(()) => Ended {
            status: 0,
            batches: 0,
            disk,
        },
        Err(stop) => ended_by(alloc, stop, disk, out),
    }
}

/// Performs `tree IMAGE`.
fn tree<D: Disk, K: Sink>(alloc: Global, disk: D, out: &mut K) -> Ended<D>
    ensures statuses { IsTreeStatus result.status }
    ensures printed { D.tells → D.in_doubt disk ≡ false → Printed (D.seen disk) K.tells (Rose (K.faults out.old) (K.faults out.new)) result.status result.batches (K.held out.old) (K.held out.new) }
    ensures quiet { D.tells → Quiet D.Disk disk result.disk }
    ensures count { D.written result.disk ≡ D.written disk }
    ensures no_batches { (result.status ≡ 0 → ⊥) → result.batches ≡ 0 }
    ensures sink_fault { result.status ≡ 6 → Rose (K.faults out.old) (K.faults out.new) }
    ensures sink_steady { result.status ≡ 0 → K.faults out.new ≡ K.faults out.old }
    ensures disk_fault { Rises D.Disk disk result.disk (result.status ≡ 7) }
    ensures disk_steady { Steady D.Disk disk result.disk (result.status ≡ 7) }
    ensures sure { D.tells → Sure D.Disk disk result.disk (result.status ≡ 7) }
{
    let mut disk = disk;
    match print_tree(alloc, &mut disk, out) {
        Ok(batches) => Ended {
            status: 0,
            batches,
            disk,
        },
        Err(stop) => ended_by(alloc, stop, disk, out),
    }
}

/// Performs what the words ask for on a disk, with a script from the source where they ask for a run, and writes what is
/// printed to the sink. It always returns.
///
/// The words are the program's name and then `mkfs IMAGE BLOCKS INODES`, `run IMAGE SCRIPT` or `tree IMAGE`. The disk has no
/// call before the words, and in a run the whole script, are known to be right. Blocks have 4,096 bytes.
pub fn shell<D: Disk, S: Source, K: Sink>(
    alloc: Global,
    words: &[String],
    disk: D,
    script: &mut S,
    out: &mut K,
) -> Ended<D>
    // The greatest image has 64 MiB.
    requires { 64 * 2 ^ 20 ≤ D.most }
    // By what the words ask for: status 2 alone for words that match no row, or name sizes that no image has; and never for others.
    ensures statuses { IsStatusOf (asked_by words.now) result.status }
    ensures usage { (result.status ≡ 2) ↔ (asked_by words.now ≡ None) }
    ensures usage_said { asked_by words.now ≡ None → K.tells → Wrote (alone 2 usage_line) (Rose (K.faults out.old) (K.faults out.new)) 0 result.status (K.held out.old) (K.held out.new) }
    // An image that is made.
    ensures made { (blocks inodes : ℕ) → asked_by words.now ≡ Some (Mkfs blocks inodes) → EndsWith (fresh blocks inodes) 0 result.status result.batches
        × (K.tells → Wrote (fresh blocks inodes) (Rose (K.faults out.old) (K.faults out.new)) 0 result.status (K.held out.old) (K.held out.new)) }
    ensures new { (blocks inodes : ℕ) → asked_by words.now ≡ Some (Mkfs blocks inodes) → D.tells → result.status ≡ 0 → IsNew D.Disk result.disk blocks inodes }
    ensures unmade { (blocks inodes : ℕ) → asked_by words.now ≡ Some (Mkfs blocks inodes) → result.status ≡ 9 → result.disk ≡ disk }
    // A script that is run: what was found, how the run ended, what a crash leaves, and what was written.
    ensures ran { asked_by words.now ≡ Some Run → S.tells → D.tells
        → Ran D.Disk disk result.disk (S.left script.old) K.tells (Rose (K.faults out.old) (K.faults out.new)) result.status result.batches (K.held out.old) (K.held out.new) }
    // A script that is refused, whatever the disk tells.
    ensures refused { asked_by words.now ≡ Some Run → S.tells → IsRefusal result.status → result.status ≡ (expected (S.left script.old) Unread).status }
    // A tree that is printed, without a sync or a write.
    ensures printed { asked_by words.now ≡ Some Tree → D.tells → D.in_doubt disk ≡ false
        → Printed (D.seen disk) K.tells (Rose (K.faults out.old) (K.faults out.new)) result.status result.batches (K.held out.old) (K.held out.new) }
    ensures tree_quiet { asked_by words.now ≡ Some Tree → D.tells → Quiet D.Disk disk result.disk }
    ensures tree_count { asked_by words.now ≡ Some Tree → D.written result.disk ≡ D.written disk }
    // A batch number comes with status 0 alone.
    ensures no_batches { (result.status ≡ 0 → ⊥) → result.batches ≡ 0 }
    // The causes of the faults. Only a run reads the script.
    ensures unread { (asked_by words.now ≡ Some Run → ⊥) → script.new ≡ script.old }
    ensures source_fault { result.status ≡ 5 → (asked_by words.now ≡ Some Run) × Rose (S.faults script.old) (S.faults script.new) }
    ensures source_steady { Unmoved (S.faults script.old) (S.faults script.new) (result.status ≡ 5) }
    ensures sink_fault { result.status ≡ 6 → Rose (K.faults out.old) (K.faults out.new) }
    ensures sink_steady { result.status ≡ 0 → K.faults out.new ≡ K.faults out.old }
    ensures disk_fault { Rises D.Disk disk result.disk (result.status ≡ 7) }
    ensures disk_steady { Steady D.Disk disk result.disk (result.status ≡ 7) }
    // A disk that failed in no call isn't left in doubt: the next row finds what this one left.
    ensures sure { D.tells → Sure D.Disk disk result.disk (result.status ≡ 7) }
    ensures settled { D.tells → result.status ≡ 0 → (asked_by words.now ≡ Some Tree → ⊥) → D.in_doubt result.disk ≡ false }
    // Until the words and the script are known to be right, the disk has no call.
    ensures untouched { IsEarly result.status → result.disk ≡ disk }
    ensures unready_untouched { asked_by words.now ≡ Some Run → S.tells → IsUnready (S.left script.old) → result.disk ≡ disk }
    ensures unready { asked_by words.now ≡ Some Run → S.tells → IsUnready (S.left script.old)
        → IsRefusedWith (expected (S.left script.old) Unread) result.status }
{
    match row_of(words) {
        None => ended_by(alloc, Stop::Usage, disk, out),
        Some(Row::Mkfs { geometry }) => mkfs(alloc, disk, &geometry, out),
        Some(Row::Run) => run(alloc, disk, script, out),
        Some(Row::Tree) => tree(alloc, disk, out),
    }
}
