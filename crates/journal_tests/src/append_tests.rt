//! What no clause of appending says: that calls come through, how many calls on the disk they make, and what crashes
//! leave of a half on a disk in memory.
ghost use Rattle.std.specs.Prelude.{◌≡◌, ◌+◌, ◌*◌, ◌^◌, ◌≤◌, List, ℕ, length, IfOk, OnOk};
ghost use Rattle.disk_model.specs.Memory.{known_of, may_leave_of};
ghost use Rattle.gate_journal.specs.Offsets.{halves_end};
ghost use Rattle.gate_journal.specs.Halves.{Shows};

use ccfs_base::{Bytes, NoMemory};
use disk_model::{CallKind, Disk, DiskFailed, FailPlan, MemDisk};
use gate_journal::{Batch, Half, JournalFault, LoadFault, Range, Ranges};
use std::alloc::{AllocError, Global};
use std::process::Abort;
use std::test::Fail;

/// Two blocks, the gates of both halves, their record areas, and three blocks of volume.
const DISK_SIZE: u64 = 263 * 4096;

/// Three blocks.
const VOLUME: u64 = 3 * 4096;

/// Where the first gate of each half is.
const GATES: [u64; 2] = [8192, 12288];

/// Where the record area of each half begins.
const RECORDS: [u64; 2] = [16384, 540_672];

/// The bytes of a batch with the number 7 that puts 1 and 2 at 5, of one with the number 8 that puts 3 at 6, and one zero.
const WRITTEN: [u8; 60] = [
    7, 0, 0, 0, 0, 0, 0, 0, 14, 0, 0, 0, 1, 0, 0, 0, 5, 0, 0, 0, 0, 0, 0, 0, 2, 0, 0, 0, 1, 2, 8,
    0, 0, 0, 0, 0, 0, 0, 13, 0, 0, 0, 1, 0, 0, 0, 6, 0, 0, 0, 0, 0, 0, 0, 1, 0, 0, 0, 3, 0,
];

/// A disk of so many zeros: all gates are closed.
fn zeros(alloc: Global, bytes: u64) -> Result<MemDisk, AllocError>
    requires { bytes ≤ 64 * 2 ^ 20 }
    ensures { IfOk result (λ disk. known_of disk ≡ bytes) }
{
    MemDisk::new(alloc, bytes)
}

/// Writes bytes.
fn put(disk: &mut MemDisk, offset: u64, bytes: &[u8]) -> Result<(), DiskFailed>
    requires { offset + length bytes.now ≤ known_of disk.old }
    ensures { known_of disk.new ≡ known_of disk.old }
{
    disk.write_at(offset, bytes)
}

/// Reads bytes.
fn get(disk: &mut MemDisk, offset: u64, into: &mut [u8]) -> Result<(), DiskFailed>
    requires { offset + length into.old ≤ known_of disk.old }
    ensures { known_of disk.new ≡ known_of disk.old }
{
    disk.read_at(offset, into)
}

/// Loads a half, 0 or 1.
fn load(alloc: Global, disk: &mut MemDisk, half: u8, volume_bytes: u64) -> Result<Half, LoadFault>
    requires half { half ≤ 1 }
    requires inside { halves_end ≤ known_of disk.old }
    ensures { known_of disk.new ≡ known_of disk.old }
{
    Half::load(alloc, disk, half, volume_bytes)
}

/// Clears a half, 0 or 1, and makes that stable.
fn clear(
    alloc: Global,
    disk: &mut MemDisk,
    half: u8,
    volume_bytes: u64,
) -> Result<Half, JournalFault>
    requires half { half ≤ 1 }
    requires inside { halves_end ≤ known_of disk.old }
    ensures known { known_of disk.new ≡ known_of disk.old }
    ensures shown { IfOk result (λ half. (c : List ℕ) → may_leave_of disk.new c → Shows half c) }
{
    let cleared = Half::clear(alloc, disk, half, volume_bytes)?;
    disk.sync()?;
    Ok(cleared)
}

/// Sets the plan for the calls from now on.
fn plan(disk: &mut MemDisk, plan: FailPlan)
    ensures known { known_of disk.new ≡ known_of disk.old }
    ensures images { (c : List ℕ) → may_leave_of disk.new c → may_leave_of disk.old c }
{
    disk.plan(plan);
}

/// Appends a batch that the half accepts.
fn append(
    rt: &impl Abort,
    disk: &mut MemDisk,
    half: &mut Half,
    batch: &Batch,
) -> Result<(), JournalFault>
    requires inside { halves_end ≤ known_of disk.old }
    requires shown { (c : List ℕ) → may_leave_of disk.old c → Shows half.old c }
    ensures known { known_of disk.new ≡ known_of disk.old }
    ensures shown { OnOk result ((c : List ℕ) → may_leave_of disk.new c → Shows half.new c) }
{
    assert!(rt; half.accepts(batch));
    half.append(disk, batch)
}

/// A batch that puts these bytes at an offset.
fn batch_of(alloc: Global, number: u64, off: u64, bytes: &[u8]) -> Result<Batch, NoMemory> {
    let mut ranges = Ranges::new(alloc);
    ranges.push(Range {
        off,
        bytes: Bytes::of(alloc, bytes)?,
    })?;
    Ok(Batch { number, ranges })
}

/// So many bytes, all the same.
fn filled(alloc: Global, byte: u8, len: usize) -> Result<Vec<u8>, AllocError> {
    vec![in alloc; byte; len]
}

/// Whether a half has just these ranges.
fn has(half: &Half, ranges: &[(u64, &[u8])]) -> bool {
    let found = half.replay_list();
    found.len() == ranges.len()
        && found.iter().zip(ranges).all(|(range, (off, bytes))| range.off == *off
            && range.bytes.all() == *bytes)
}

/// Clears half 0 and appends a batch that has the number 7 and puts 1 and 2 at 5.
fn with_one_batch(
    rt: &impl Abort,
    alloc: Global,
    disk: &mut MemDisk,
    volume_bytes: u64,
) -> Result<Half, Fail>
    requires inside { halves_end ≤ known_of disk.old }
    ensures known { known_of disk.new ≡ known_of disk.old }
    ensures shown { IfOk result (λ half. (c : List ℕ) → may_leave_of disk.new c → Shows half c) }
{
    let mut half = clear(alloc, disk, 0, volume_bytes)?;
    append(rt, disk, &mut half, &batch_of(alloc, 7, 5, &[1, 2])?)?;
    Ok(half)
}

/// The batch that the tests append behind that one. It puts 3 and 4 at 6, and 9 at the volume's last byte.
fn second_batch(alloc: Global) -> Result<Batch, NoMemory> {
    let mut batch = batch_of(alloc, 8, 6, &[3, 4])?;
    batch.ranges.push(Range {
        off: VOLUME - 1,
        bytes: Bytes::of(alloc, &[9])?,
    })?;
    Ok(batch)
}

/// Whether a half has the first batch alone.
fn is_old(half: &Half) -> bool {
    half.last() == Some(7) && has(half, &[(5, &[1, 2])])
}

/// Whether a half has both batches.
fn is_new(half: &Half) -> bool {
    half.last() == Some(8) && has(half, &[(5, &[1, 2]), (6, &[3, 4]), (VOLUME - 1, &[9])])
}

/// Appends two batches to a half, 0 or 1, whose gates and records are at these places, and loads them.
fn append_two(
    rt: &impl Abort,
    alloc: Global,
    half: u8,
    gates_at: u64,
    records_at: u64,
) -> Result<(), Fail>
    requires half { half ≤ 1 }
    requires gates { gates_at + 3 ≤ halves_end }
    requires records { records_at + 60 ≤ halves_end }
{
    let mut disk = zeros(alloc, DISK_SIZE)?;
    let mut written = clear(alloc, &mut disk, half, VOLUME)?;
    append(
        rt,
        &mut disk,
        &mut written,
        &batch_of(alloc, 7, 5, &[1, 2])?,
    )?;
    assert_eq!(rt; is_old(&written), true);
    assert_eq!(rt;
        [written.fits(524_258), written.fits(524_259)],
        [true, false]
    );
    append(rt, &mut disk, &mut written, &batch_of(alloc, 8, 6, &[3])?)?;
    let mut gates = [9; 3];
    let mut records = [9; 60];
    get(&mut disk, gates_at, &mut gates)?;
    get(&mut disk, records_at, &mut records)?;
    assert_eq!(rt; gates, [0xA5, 0xA5, 0]);
    assert_eq!(rt; records, WRITTEN);
    let loaded = load(alloc, &mut disk, half, VOLUME)?;
    for seen in [&written, &loaded] {
        assert_eq!(rt; has(seen, &[(5, &[1, 2]), (6, &[3])]), true);
        assert_eq!(rt; seen.last(), Some(8));
        assert_eq!(rt; [seen.fits(524_229), seen.fits(524_230)], [true, false]);
    }
    Ok(())
}

#[test]
fn two_batches_are_appended_and_loaded(rt: HostRuntime) -> Result<(), Fail> {
    append_two(&rt, rt.alloc(), 0, GATES[0], RECORDS[0])?;
    append_two(&rt, rt.alloc(), 1, GATES[1], RECORDS[1])
}

#[test]
fn an_append_writes_twice_and_syncs_twice(rt: HostRuntime) -> Result<(), Fail> {
    for (kind, number, fails) in [
        (CallKind::Any, 4, true),
        (CallKind::Any, 5, false),
        (CallKind::Read, 1, false),
        (CallKind::Write, 1, true),
        (CallKind::Write, 2, true),
        (CallKind::Write, 3, false),
        (CallKind::Sync, 1, true),
        (CallKind::Sync, 2, true),
        (CallKind::Sync, 3, false),
    ] {
        let mut disk = zeros(rt.alloc(), DISK_SIZE)?;
        let mut half = with_one_batch(&rt, rt.alloc(), &mut disk, VOLUME)?;
        let before = disk.written();
        assert_eq!(rt; disk.faults(), 0);
        plan(&mut disk, FailPlan::One { kind, number });
        let done = append(&rt, &mut disk, &mut half, &second_batch(rt.alloc())?);
        if fails {
            assert_eq!(rt; done, Err(JournalFault::Device), "{kind:?} {number}");
            assert_eq!(rt; is_old(&half), true, "{kind:?} {number}");
            assert_eq!(rt; disk.faults(), 1);
        } else {
            assert_eq!(rt; done, Ok(()), "{kind:?} {number}");
            assert_eq!(rt; is_new(&half), true);
            assert_eq!(rt; disk.calls(), 4);
            assert_eq!(rt; disk.written().checked_sub(before), Some(43 + 1));
            assert_eq!(rt; disk.faults(), 0);
        }
    }
    Ok(())
}

#[test]
fn a_crash_leaves_the_old_batches_or_the_new_one_too(rt: HostRuntime) -> Result<(), Fail> {
    for (call, old, new) in [
        (1, true, false),
        (2, true, false),
        (3, true, true),
        (4, true, true),
        (5, false, true),
    ] {
        let mut disk = zeros(rt.alloc(), DISK_SIZE)?;
        let mut half = with_one_batch(&rt, rt.alloc(), &mut disk, VOLUME)?;
        plan(&mut disk, FailPlan::From { call });
        let done = append(&rt, &mut disk, &mut half, &second_batch(rt.alloc())?);
        assert_eq!(rt; done.is_ok(), call == 5);
        let mut olds = false;
        let mut news = false;
        for pick in 0..=20 {
            let mut image = disk.image(rt.alloc(), pick)?;
            assert!(rt; image.known_size() == DISK_SIZE);
            let left = load(rt.alloc(), &mut image, 0, VOLUME)?;
            assert_eq!(rt;
                is_old(&left) || is_new(&left),
                true,
                "call {call}, pick {pick}"
            );
            olds |= is_old(&left);
            news |= is_new(&left);
        }
        assert_eq!(rt; [olds, news], [old, new], "call {call}");
    }
    Ok(())
}

#[test]
fn no_batch_fits_before_an_open_gate(rt: HostRuntime) -> Result<(), Fail> {
    let batch = batch_of(rt.alloc(), 7, 5, &[1])?;
    let mut disk = zeros(rt.alloc(), DISK_SIZE)?;
    let cleared = clear(rt.alloc(), &mut disk, 0, VOLUME)?;
    assert_eq!(rt; [cleared.fits(17), cleared.accepts(&batch)], [true, true]);
    put(&mut disk, GATES[0] + 1, &[0xA5])?;
    let loaded = load(rt.alloc(), &mut disk, 0, VOLUME)?;
    assert_eq!(rt; loaded.last(), None);
    assert_eq!(rt; [loaded.fits(16), loaded.fits(17)], [false, false]);
    assert_eq!(rt; loaded.accepts(&batch), false);
    Ok(())
}

#[test]
fn the_greatest_batch_fills_the_record_area(rt: HostRuntime) -> Result<(), Fail> {
    let mut disk = zeros(rt.alloc(), DISK_SIZE)?;
    let mut half = clear(rt.alloc(), &mut disk, 0, 524_260)?;
    assert_eq!(rt; half.fits(524_288), true);
    let bytes = filled(rt.alloc(), 0x5A, 524_260)?;
    append(
        &rt,
        &mut disk,
        &mut half,
        &batch_of(rt.alloc(), u64::MAX, 0, &bytes)?,
    )?;
    let loaded = load(rt.alloc(), &mut disk, 0, 524_260)?;
    for seen in [&half, &loaded] {
        assert_eq!(rt; has(seen, &[(0, &bytes)]), true);
        assert_eq!(rt; seen.last(), Some(u64::MAX));
        assert_eq!(rt;
            [seen.fits(0), seen.fits(1), seen.fits(17)],
            [true, false, false]
        );
    }
    let mut around = [9; 2];
    get(&mut disk, RECORDS[1] - 1, &mut around)?;
    assert_eq!(rt; around, [0x5A, 0]);
    Ok(())
}

#[test]
fn a_batch_is_accepted_where_it_fits_and_follows(rt: HostRuntime) -> Result<(), Fail> {
    let mut disk = zeros(rt.alloc(), DISK_SIZE)?;
    let half = with_one_batch(&rt, rt.alloc(), &mut disk, 600_000)?;
    for (what, number, off, len, accepted) in [
        ("the volume's last byte", 8, 599_999, 1, true),
        ("a byte past the volume's end", 8, 599_999, 2, false),
        ("no bytes", 8, 5, 0, false),
        ("the last number", 7, 5, 1, false),
        ("the number after the next", 9, 5, 1, false),
        ("all bytes that fit", 8, 0, 524_230, true),
        ("a byte too many", 8, 0, 524_231, false),
    ] {
        let bytes = filled(rt.alloc(), 1, len)?;
        let batch = batch_of(rt.alloc(), number, off, &bytes)?;
        assert_eq!(rt; half.accepts(&batch), accepted, "{what}");
    }
    Ok(())
}
