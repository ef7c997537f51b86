//! A journal half read from a disk, or cleared on it.
ghost use Rattle.std.specs.Prelude.{◌≡◌, ◌≢◌, ◌≤◌, false, Bool, not, List, ℕ, length, drop, replicate, Some, IfOk, IfErr, OnOk, IsErrOf};
ghost use Rattle.std.specs.List.{All, list_any, position_or_len};
ghost use Rattle.fault_counts.specs.Counts.{Rose, RisesBy, HasCause};
ghost use Rattle.disk_model.specs.Bytes.{patched, Torn};
ghost use Rattle.disk_model.specs.Moments.{Elapses, Follows};
ghost use Rattle.gate_journal.specs.Offsets.{gates_start, records_size, halves_end};
ghost use Rattle.gate_journal.specs.Batches.{Stands, range_bytes};
ghost use Rattle.gate_journal.specs.Journal.{is_open, records_of, open_gates, is_open_behind, open_batches, summed};
ghost use Rattle.gate_journal.specs.Halves.{half_of, size_of, journal_of, Shows};
ghost use Rattle.gate_journal.specs.Runs.{Quiet};
ghost use Rattle.gate_journal.specs.Loading.{Refuses, journal_read, empty};
ghost use Rattle.gate_journal.specs.declared.faults.LoadFault.TheVariants.{Device};

use super::batches::Ranges;
use super::faults::{JournalFault, LoadFault};
use super::gating::OPEN;
use super::halves::Half;
use super::laws::what_is_read_was_written;
use super::places::{BLOCK_SIZE, GATES, RECORDS_SIZE, gates_start, records_start};
use super::reading::{ReadBatches, ReadFault, read_batches};
use disk_model::{Disk, DiskFailed};
use std::alloc::Global;

/// What the gates of a half say.
#[derive(Drop)]
struct OpenGates {
    /// How many gates are open before the first closed one.
    count: u32,
    /// Whether a gate behind that one is open.
    behind: bool,
}

/// Counts the open gates before the first closed one, and looks for one behind it.
fn count_gates(gates: &[u8]) -> OpenGates
    requires { length gates.now ≤ 4096 }
    ensures count { result.count ≡ position_or_len (λ gate. not (is_open gate)) gates.now }
    ensures behind { result.behind ≡ list_any is_open (drop result.count gates.now) }
    ensures few { result.count ≤ 4096 }
{
    let count = gates
        .iter()
        .position(|gate| *gate != OPEN)
        .unwrap_or(gates.len());
    OpenGates {
        count: count as u32,
        behind: gates[count..].iter().any(|gate| *gate == OPEN),
    }
}

/// Reads the gates of a half.
fn read_gates<D: Disk>(disk: &mut D, half: u8) -> Result<OpenGates, DiskFailed>
    requires half { half ≤ 1 }
    requires inside { halves_end ≤ D.known disk.old }
    ensures count { D.tells → D.in_doubt disk.old ≡ false → IfOk result (λ gates. gates.count ≡ open_gates half (D.seen disk.old)) }
    ensures behind { D.tells → D.in_doubt disk.old ≡ false → IfOk result (λ gates. gates.behind ≡ is_open_behind half (D.seen disk.old)) }
    ensures few { IfOk result (λ gates. gates.count ≤ 4096) }
    ensures quiet { D.tells → Quiet D.Disk disk.old disk.new }
    ensures cause { HasCause (D.faults disk.old) (D.faults disk.new) result }
    ensures steady { OnOk result (D.faults disk.new ≡ D.faults disk.old) }
    ensures known { D.known disk.new ≡ D.known disk.old }
    ensures written { D.written disk.new ≡ D.written disk.old }
{
    let mut gates = [0; GATES as usize];
    disk.read_at(gates_start(half), &mut gates)?;
    Ok(count_gates(&gates))
}

/// Reads the record area of a half.
fn read_records<D: Disk>(alloc: Global, disk: &mut D, half: u8) -> Result<Vec<u8>, LoadFault>
    requires half { half ≤ 1 }
    requires inside { halves_end ≤ D.known disk.old }
    ensures bytes { D.tells → D.in_doubt disk.old ≡ false → IfOk result (λ area. area.items ≡ records_of half (D.seen disk.old)) }
    ensures size { IfOk result (λ area. length area.items ≡ records_size) }
    ensures refuses { (c : List ℕ) (size : ℕ) → IfErr result (Refuses half size c) }
    ensures quiet { D.tells → Quiet D.Disk disk.old disk.new }
    ensures device { IfErr result (λ fault. fault ≡ Device → Rose (D.faults disk.old) (D.faults disk.new)) }
    ensures known { D.known disk.new ≡ D.known disk.old }
    ensures later { D.faults disk.old ≤ D.faults disk.new }
    ensures steady { (IsErrOf result Device → ⊥) → D.faults disk.new ≡ D.faults disk.old }
    ensures written { D.written disk.new ≡ D.written disk.old }
{
    let mut area = vec![in alloc; 0; RECORDS_SIZE as usize]?;
    disk.read_at(records_start(half), &mut area)?;
    Ok(area)
}

/// Reads so many batches from the record area of a half, and names the block of the first that breaks the format.
fn batches_of(
    alloc: Global,
    area: &[u8],
    half: u8,
    count: u32,
    volume_bytes: u64,
) -> Result<ReadBatches, LoadFault>
    requires half { half ≤ 1 }
    requires size { length area.now ≤ records_size }
    ensures read { (c : List ℕ) → area.now ≡ records_of half c → count ≡ open_gates half c → IfOk result (λ read. (behind : Bool) → summed behind (open_batches half volume_bytes c) ≡ Some (journal_read behind count read)) }
    ensures refuses { (c : List ℕ) → area.now ≡ records_of half c → count ≡ open_gates half c → IfErr result (Refuses half volume_bytes c) }
    ensures stand { IfOk result (λ read. All (Stands volume_bytes) read.ranges) }
    ensures bytes { IfOk result (λ read. range_bytes read.ranges ≤ read.used) }
    ensures used { IfOk result (λ read. read.used ≤ records_size) }
    ensures no_device { IfErr result (λ fault. fault ≢ Device) }
{
    // The law does nothing. It says that so many batches were read, and that they don't pass the area's end.
    what_is_read_was_written(volume_bytes, None, count, area);
    match read_batches(alloc, area, count, volume_bytes) {
        Ok(read) => Ok(read),
        Err(ReadFault::NoMemory) => Err(LoadFault::NoMemory),
        Err(ReadFault::Broken { batch, place }) => {
            let block = ((records_start(half) + u64::from(place)) / BLOCK_SIZE) as u32;
            Err(LoadFault::BadJournal { half, batch, block })
        }
    }
}

/// Reads the batches of a half with so many open gates. Where there are none it makes no call.
fn load_batches<D: Disk>(
    alloc: Global,
    disk: &mut D,
    half: u8,
    count: u32,
    volume_bytes: u64,
) -> Result<ReadBatches, LoadFault>
    requires half { half ≤ 1 }
    requires inside { halves_end ≤ D.known disk.old }
    ensures read { D.tells → D.in_doubt disk.old ≡ false → count ≡ open_gates half (D.seen disk.old) → IfOk result (λ read. (behind : Bool) → summed behind (open_batches half volume_bytes (D.seen disk.old)) ≡ Some (journal_read behind count read)) }
    ensures refuses { D.tells → D.in_doubt disk.old ≡ false → count ≡ open_gates half (D.seen disk.old) → IfErr result (Refuses half volume_bytes (D.seen disk.old)) }
    ensures stand { IfOk result (λ read. All (Stands volume_bytes) read.ranges) }
    ensures bytes { IfOk result (λ read. range_bytes read.ranges ≤ read.used) }
    ensures used { IfOk result (λ read. read.used ≤ records_size) }
    ensures quiet { D.tells → Quiet D.Disk disk.old disk.new }
    ensures device { IfErr result (λ fault. fault ≡ Device → Rose (D.faults disk.old) (D.faults disk.new)) }
    ensures known { D.known disk.new ≡ D.known disk.old }
    ensures later { D.faults disk.old ≤ D.faults disk.new }
    ensures steady { (IsErrOf result Device → ⊥) → D.faults disk.new ≡ D.faults disk.old }
    ensures written { D.written disk.new ≡ D.written disk.old }
{
    if count == 0 {
        return Ok(ReadBatches {
            ranges: Ranges::new(alloc),
            used: 0,
            last: None,
        });
    }
    let area = read_records(alloc, disk, half)?;
    batches_of(alloc, &area, half, count, volume_bytes)
}

impl Half {
    /// Reads a half, 0 or 1, of a disk whose volume has so many bytes: the batches that count.
    ///
    /// Answers `BadJournal` with the first open batch that breaks the format, `Device` only where the disk's faults rose,
    /// and `NoMemory`. It reads alone.
    pub fn load<D: Disk>(
        alloc: Global,
        disk: &mut D,
        half: u8,
        volume_bytes: u64,
    ) -> Result<Half, LoadFault>
        requires half { half ≤ 1 }
        requires inside { halves_end ≤ D.known disk.old }
        ensures half { IfOk result (λ h. half_of h ≡ half) }
        ensures size { IfOk result (λ h. size_of h ≡ volume_bytes) }
        ensures shows { D.tells → D.in_doubt disk.old ≡ false → IfOk result (λ h. Shows h (D.seen disk.old)) }
        ensures refuses { D.tells → D.in_doubt disk.old ≡ false → IfErr result (Refuses half volume_bytes (D.seen disk.old)) }
        ensures stand { IfOk result (λ h. All (Stands volume_bytes) (journal_of h).ranges) }
        ensures quiet { D.tells → Quiet D.Disk disk.old disk.new }
        ensures device { IfErr result (λ fault. fault ≡ Device → Rose (D.faults disk.old) (D.faults disk.new)) }
        ensures known { D.known disk.new ≡ D.known disk.old }
        ensures later { D.faults disk.old ≤ D.faults disk.new }
        ensures steady { (IsErrOf result Device → ⊥) → D.faults disk.new ≡ D.faults disk.old }
        ensures count { D.written disk.new ≡ D.written disk.old }
    {
        let gates = read_gates(disk, half)?;
        let read = load_batches(alloc, disk, half, gates.count, volume_bytes)?;
        Ok(Half {
            alloc,
            half,
            size: volume_bytes,
            count: gates.count,
            used: read.used,
            last: read.last,
            ranges: read.ranges,
            behind: gates.behind,
        })
    }

    /// Closes all gates of a half, 0 or 1, without reading them, and gives that half without batches. It takes no memory.
    ///
    /// The gates are stable only after the next sync that answers Ok. `Device` comes only where the disk's faults rose, and
    /// is the only answer beside Ok.
    pub fn clear<D: Disk>(
        alloc: Global,
        disk: &mut D,
        half: u8,
        volume_bytes: u64,
    ) -> Result<Half, JournalFault>
        requires half { half ≤ 1 }
        requires inside { halves_end ≤ D.known disk.old }
        ensures half { IfOk result (λ h. half_of h ≡ half) }
        ensures size { IfOk result (λ h. size_of h ≡ volume_bytes) }
        ensures empty { IfOk result (λ h. journal_of h ≡ empty) }
        ensures shows { D.tells → IfOk result (λ h. Shows h (D.seen disk.new)) }
        ensures put { D.tells → D.in_doubt disk.old ≡ false → OnOk result (D.seen disk.new ≡ patched (D.seen disk.old) (gates_start half) (replicate 4096 0)) }
        ensures doubt { D.tells → D.in_doubt disk.old ≡ false → OnOk result (D.in_doubt disk.new ≡ false) }
        ensures time { D.tells → Elapses (D.moment disk.old) (D.moment disk.new) (D.left_since disk.old) (D.left_since disk.new) }
        ensures crash { D.tells → Follows (Torn (gates_start half) 4096) (D.may_leave disk.old) (D.left_since disk.new (D.moment disk.old)) }
        ensures device { IfErr result (λ fault. (fault ≡ JournalFault.Device) × Rose (D.faults disk.old) (D.faults disk.new)) }
        ensures known { D.known disk.new ≡ D.known disk.old }
        ensures later { D.faults disk.old ≤ D.faults disk.new }
        ensures steady { OnOk result (D.faults disk.new ≡ D.faults disk.old) }
        ensures count { RisesBy 4096 (D.written disk.old) (D.written disk.new) }
    {
        disk.write_at(gates_start(half), &[0; GATES as usize])?;
        Ok(Half {
            alloc,
            half,
            size: volume_bytes,
            count: 0,
            used: 0,
            last: None,
            ranges: Ranges::new(alloc),
            behind: false,
        })
    }
}
