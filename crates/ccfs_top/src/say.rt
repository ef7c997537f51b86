//! Lines that end a run.
ghost use Rattle.std.specs.Prelude.{◌≡◌, ◌≤◌, ◌++◌, List, ℕ};
ghost use Rattle.fault_counts.specs.Counts.{Rose};
ghost use Rattle.ccfs_top.specs.Ends.{IsSaid};

use ccfs_base::{Sink, write_all};

/// Writes the line of a fault. A failure of the sink on the way changes nothing but how much of the line is written.
pub fn say<K: Sink>(out: &mut K, line: &[u8])
    ensures text { K.tells → (said : List ℕ) × (K.held out.new ≡ K.held out.old ++ said) × IsSaid (Rose (K.faults out.old) (K.faults out.new)) line.now said }
    ensures later { K.faults out.old ≤ K.faults out.new }
{
    let _written = write_all(out, line);
}
