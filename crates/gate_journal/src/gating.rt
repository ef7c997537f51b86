//! Bytes that become stable before the gate in front of them is opened.
ghost use Rattle.std.specs.Prelude.{◌≡◌, ◌+◌, ◌≤◌, ◌<◌, List, ℕ, [], ◌∷◌, length, false, OnOk};
ghost use Rattle.fault_counts.specs.Counts.{HasCause, RisesBy};
ghost use Rattle.disk_model.specs.Bytes.{patched, Torn};
ghost use Rattle.disk_model.specs.Moments.{Only, Follows, Elapses};
ghost use Rattle.gate_journal.specs.Gating.{Staged};

use disk_model::{Disk, DiskFailed};

/// The byte of an open gate.
pub const OPEN: u8 = 0xA5;

/// Writes bytes at an offset and makes them stable.
pub fn write_stable<D: Disk>(disk: &mut D, offset: u64, bytes: &[u8]) -> Result<(), DiskFailed>
    requires { offset + length bytes.now ≤ D.known disk.old }
    ensures known { D.known disk.new ≡ D.known disk.old }
    ensures cause { HasCause (D.faults disk.old) (D.faults disk.new) result }
    ensures steady { OnOk result (D.faults disk.new ≡ D.faults disk.old) }
    ensures count { RisesBy (length bytes.now) (D.written disk.old) (D.written disk.new) }
    ensures time { D.tells → Elapses (D.moment disk.old) (D.moment disk.new) (D.left_since disk.old) (D.left_since disk.new) }
    ensures crash { D.tells → Follows (Torn offset (length bytes.now)) (D.may_leave disk.old) (D.left_since disk.new (D.moment disk.old)) }
    ensures durable { D.tells → OnOk result (Only (D.seen disk.new) (D.may_leave disk.new)) }
    ensures put { D.tells → D.in_doubt disk.old ≡ false → OnOk result (D.seen disk.new ≡ patched (D.seen disk.old) offset bytes.now) }
    ensures settled { D.tells → OnOk result (D.in_doubt disk.new ≡ false) }
    ensures ticks { D.tells → OnOk result (D.moment disk.old < D.moment disk.new) }
{
    disk.write_at(offset, bytes)?;
    disk.sync()
}

/// Writes bytes, makes them stable, opens the gate and makes that stable.
pub(crate) fn put_behind_gate<D: Disk>(
    disk: &mut D,
    gate: u64,
    at: u64,
    bytes: &[u8],
) -> Result<(), DiskFailed>
    requires before { gate < at }
    requires inside { at + length bytes.now ≤ D.known disk.old }
    requires settled { D.tells → D.in_doubt disk.old ≡ false }
    ensures known { D.known disk.new ≡ D.known disk.old }
    ensures cause { HasCause (D.faults disk.old) (D.faults disk.new) result }
    ensures steady { OnOk result (D.faults disk.new ≡ D.faults disk.old) }
    ensures count { RisesBy (length bytes.now + 1) (D.written disk.old) (D.written disk.new) }
    ensures time { D.tells → Elapses (D.moment disk.old) (D.moment disk.new) (D.left_since disk.old) (D.left_since disk.new) }
    ensures crash { D.tells → (c : List ℕ) → D.left_since disk.new (D.moment disk.old) c → Staged gate at bytes.now (D.may_leave disk.old) (D.seen disk.old) c }
    ensures durable { D.tells → OnOk result (Only (D.seen disk.new) (D.may_leave disk.new)) }
    ensures put { D.tells → OnOk result (D.seen disk.new ≡ patched (patched (D.seen disk.old) at bytes.now) gate (165 ∷ [])) }
    ensures settled { D.tells → OnOk result (D.in_doubt disk.new ≡ false) }
{
    write_stable(disk, at, bytes)?;
    write_stable(disk, gate, &[OPEN])
}
