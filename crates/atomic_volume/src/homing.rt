//! The open batches of a half put home, so that the other half can take the next ones.
ghost use Rattle.std.specs.Prelude.{◌≡◌, ◌+◌, ◌<◌, ◌≤◌, ◌^◌, false, option_map, List, ℕ, length, IfOk, IfErr, OnOk};
ghost use Rattle.std.specs.List.{All};
ghost use Rattle.fault_counts.specs.Counts.{Rose, HasCause, RisesBy};
ghost use Rattle.disk_model.specs.Moments.{Only};
ghost use Rattle.gate_journal.specs.Batches.{range_bytes};
ghost use Rattle.gate_journal.specs.Halves.{half_of, size_of, journal_of};
ghost use Rattle.gate_journal.specs.Loading.{empty};
ghost use Rattle.gate_journal.specs.Runs.{LeavesBy};
ghost use Rattle.atomic_volume.specs.Opening.{volume_place, opened};
ghost use Rattle.atomic_volume.specs.Homing.{other_half, put_home, Scattered, Comes, at_home, IsMovedFrom, OpensLike, Bears, master_of, made_ready};
ghost use Rattle.atomic_volume.specs.declared.fault.VolumeFault.TheVariants.{Device};

use super::fault::VolumeFault;
use super::reading::{HALF_1, MASTER_OFFSET, VOLUME_OFFSET};
use disk_model::{Disk, DiskFailed};
use gate_journal::gating::write_stable;
use gate_journal::{Half, Range};

/// The byte that names a half, 0 or 1, as the active one.
fn master_byte(half: u8) -> u8
    ensures { result ≡ master_of half }
{
    if half == 1 { HALF_1 } else { 0 }
}

/// Writes ranges home: each at its place in the volume, one after the other. It makes nothing stable.
fn write_home<D: Disk>(disk: &mut D, ranges: &[Range]) -> Result<(), DiskFailed>
    requires volume { volume_place ≤ D.known disk.old }
    requires inside { All (λ r. volume_place + r.off + length r.bytes ≤ D.known disk.old) ranges.now }
    requires small { D.known disk.old < 2 ^ 64 }
    ensures known { D.known disk.new ≡ D.known disk.old }
    ensures cause { HasCause (D.faults disk.old) (D.faults disk.new) result }
    ensures steady { OnOk result (D.faults disk.new ≡ D.faults disk.old) }
    ensures count { RisesBy (range_bytes ranges.now) (D.written disk.old) (D.written disk.new) }
    ensures any_moment { D.tells → LeavesBy D.Disk disk.old disk.new (Comes (Scattered ranges.now) (D.may_leave disk.old)) }
    ensures put { D.tells → D.in_doubt disk.old ≡ false → OnOk result (D.seen disk.new ≡ put_home (D.seen disk.old) ranges.now) }
    ensures doubt { D.tells → D.in_doubt disk.old ≡ false → OnOk result (D.in_doubt disk.new ≡ false) }
{
    for range in ranges {
        disk.write_at(VOLUME_OFFSET + range.off, range.bytes.all())?;
    }
    Ok(())
}

/// Writes the ranges of the active half home, closes all gates of the other half, and makes both stable.
///
/// At every moment a crash leaves an image that opens as one of before: the open batches are put on the same places again.
fn make_ready<D: Disk>(disk: &mut D, half: &Half) -> Result<Half, VolumeFault>
    requires inside { volume_place + size_of half.now ≤ D.known disk.old }
    requires small { D.known disk.old < 2 ^ 64 }
    requires settled { D.tells → D.in_doubt disk.old ≡ false }
    requires bears { D.tells → (c : List ℕ) → D.may_leave disk.old c → Bears half.now c }
    ensures half { IfOk result (λ other. half_of other ≡ other_half (half_of half.now)) }
    ensures size { IfOk result (λ other. size_of other ≡ size_of half.now) }
    ensures empty { IfOk result (λ other. journal_of other ≡ empty) }
    ensures put { D.tells → OnOk result (D.seen disk.new ≡ made_ready half.now (D.seen disk.old)) }
    ensures any_moment { D.tells → LeavesBy D.Disk disk.old disk.new (Comes OpensLike (D.may_leave disk.old)) }
    ensures durable { D.tells → OnOk result (Only (D.seen disk.new) (D.may_leave disk.new)) }
    ensures settled { D.tells → OnOk result (D.in_doubt disk.new ≡ false) }
    ensures device { IfErr result (λ fault. (fault ≡ Device) × Rose (D.faults disk.old) (D.faults disk.new)) }
    ensures known { D.known disk.new ≡ D.known disk.old }
    ensures later { D.faults disk.old ≤ D.faults disk.new }
    ensures steady { OnOk result (D.faults disk.new ≡ D.faults disk.old) }
    ensures count { RisesBy (range_bytes (journal_of half.now).ranges + 4096) (D.written disk.old) (D.written disk.new) }
{
    write_home(disk, half.replay_list())?;
    let other = Half::clear(half.alloc(), disk, 1 - half.which(), half.volume_bytes())?;
    disk.sync()?;
    Ok(other)
}

/// Moves the batches of the active half home, and makes the other half, without batches, the active one.
///
/// At every moment a crash leaves an image that opens as one of before, or to what the contents at the start open to, without
/// open batches. After Ok it leaves only the latter. It takes no memory: `Device` is the only answer beside Ok, and comes only where the disk's faults
/// rose.
pub fn move_home<D: Disk>(disk: &mut D, half: &Half) -> Result<Half, VolumeFault>
    requires inside { volume_place + size_of half.now ≤ D.known disk.old }
    requires small { D.known disk.old < 2 ^ 64 }
    requires settled { D.tells → D.in_doubt disk.old ≡ false }
    requires bears { D.tells → (c : List ℕ) → D.may_leave disk.old c → Bears half.now c }
    ensures half { IfOk result (λ other. half_of other ≡ other_half (half_of half.now)) }
    ensures size { IfOk result (λ other. size_of other ≡ size_of half.now) }
    ensures empty { IfOk result (λ other. journal_of other ≡ empty) }
    ensures bears { D.tells → IfOk result (λ other. Bears other (D.seen disk.new)) }
    ensures opens { D.tells → OnOk result (opened (D.seen disk.new) ≡ option_map at_home (opened (D.seen disk.old))) }
    ensures any_moment { D.tells → LeavesBy D.Disk disk.old disk.new (IsMovedFrom (D.seen disk.old) (D.may_leave disk.old)) }
    ensures durable { D.tells → OnOk result (Only (D.seen disk.new) (D.may_leave disk.new)) }
    ensures settled { D.tells → OnOk result (D.in_doubt disk.new ≡ false) }
    ensures device { IfErr result (λ fault. (fault ≡ Device) × Rose (D.faults disk.old) (D.faults disk.new)) }
    ensures known { D.known disk.new ≡ D.known disk.old }
    ensures later { D.faults disk.old ≤ D.faults disk.new }
    ensures steady { OnOk result (D.faults disk.new ≡ D.faults disk.old) }
    ensures count { RisesBy (range_bytes (journal_of half.now).ranges + 4097) (D.written disk.old) (D.written disk.new) }
{
    let other = make_ready(disk, half)?;
    write_stable(disk, MASTER_OFFSET, &[master_byte(other.which())])?;
    Ok(other)
}
