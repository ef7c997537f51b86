//! Why a run stops before its end, and the line that says so.
ghost use Rattle.std.specs.Prelude.{◌≡◌, ◌⊎◌, ◌≤◌, ◌++◌, List, ℕ, IfOk, OnErr, IsErr};
ghost use Rattle.fault_counts.specs.Counts.{Rose};
ghost use Rattle.ccfs_top.specs.Ends.{IsSaid};
ghost use Rattle.ccfs_top.specs.Stops.{Told, SaidOf, of_open};
ghost use Rattle.script_text.specs.Texts.{memory_fault_line};

use crate::say::say;
use ccfs_base::{Bytes, NoMemory, Sink};
use image_check::BadImage;
use recovery::OpenFault;
use script_text::{
    bad_image_text, bad_line_text, disk_fault_text, memory_fault_text, not_built_text,
    script_fault_text, too_long_text, usage_text,
};
use std::alloc::Global;

/// Why a run stops before its end.
#[derive(Clone, Copy, Debug, PartialEq, Eq, Drop)]
pub enum Stop {
    /// The words match no row.
    Usage,
    /// The script is too long.
    Long,
    /// This line of the script, the first such, isn't a command.
    BadLine { line: u32 },
    /// What this line of the script asks for isn't built.
    NotBuilt { line: u32 },
    /// The source failed.
    Source,
    /// The sink failed.
    Sink,
    /// The disk failed.
    Disk,
    /// The image holds no tree.
    BadImage { bad: BadImage },
    /// There was no memory.
    NoMemory,
}

/// Why a run stops where an image isn't opened or viewed.
pub fn stop_of_open(fault: OpenFault) -> Stop
    ensures { result ≡ of_open fault }
{
    match fault {
        OpenFault::Device => Stop::Disk,
        OpenFault::Bad { bad } => Stop::BadImage { bad },
        OpenFault::NoMemory => Stop::NoMemory,
    }
}

/// Writes the line of a stop, if it has one, and answers the status. Where there is no memory for a line, the stop is one
/// for want of memory.
pub fn say_stop<K: Sink>(alloc: Global, stop: Stop, out: &mut K) -> u8
    ensures told { Told stop result }
    ensures text { K.tells → (said : List ℕ) × (K.held out.new ≡ K.held out.old ++ said)
        × SaidOf (Rose (K.faults out.old) (K.faults out.new)) stop result said }
    ensures later { K.faults out.old ≤ K.faults out.new }
{
    match stop {
        Stop::Usage => say_line(2, usage_text(), out),
        Stop::Long => say_line(4, too_long_text(), out),
        Stop::BadLine { line } => say_text(3, bad_line_text(alloc, line), out),
        Stop::NotBuilt { line } => say_text(1, not_built_text(alloc, line), out),
        Stop::Source => say_line(5, script_fault_text(), out),
        Stop::Sink => 6,
        Stop::Disk => say_line(7, disk_fault_text(), out),
        Stop::BadImage { bad } => say_text(
            8,
            bad_image_text(alloc, bad.kind.name(), bad.block),
            out,
        ),
        Stop::NoMemory => say_line(9, memory_fault_text(), out),
    }
}

/// Writes a line and answers this status.
fn say_line<K: Sink>(status: u8, line: &[u8], out: &mut K) -> u8
    ensures status { result ≡ status }
    ensures text { K.tells → (said : List ℕ) × (K.held out.new ≡ K.held out.old ++ said) × IsSaid (Rose (K.faults out.old) (K.faults out.new)) line.now said }
    ensures later { K.faults out.old ≤ K.faults out.new }
{
    say(out, line);
    status
}

/// Writes this text as a line and answers this status, or says that there was no memory for the text.
fn say_text<K: Sink>(status: u8, text: Result<Bytes, NoMemory>, out: &mut K) -> u8
    ensures told { (result ≡ status) ⊎ ((result ≡ 9) × (IsErr text)) }
    ensures text { K.tells → (said : List ℕ) × (K.held out.new ≡ K.held out.old ++ said)
        × (IfOk text (λ line. (result ≡ status) × IsSaid (Rose (K.faults out.old) (K.faults out.new)) line said))
        × (OnErr text ((result ≡ 9) × IsSaid (Rose (K.faults out.old) (K.faults out.new)) memory_fault_line said)) }
    ensures later { K.faults out.old ≤ K.faults out.new }
{
    match text {
        Ok(line) => say_line(status, line.all(), out),
        Err(_) => say_line(9, memory_fault_text(), out),
    }
}
