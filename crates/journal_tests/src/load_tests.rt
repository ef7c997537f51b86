//! What no clause of loading says: that calls come through, and what the definitions mean on disks written by hand.
use super::samples::{put, zeros};
use disk_model::{CallKind, Disk, DiskFailed, FailPlan, MemDisk};
use gate_journal::{Half, JournalFault, LoadFault};
use std::alloc::Global;
use std::process::Abort;
use std::test::Fail;

/// Two blocks, the gates of both halves, their record areas, and three blocks of volume.
const DISK_SIZE: u64 = 263 * 4096;

/// Three blocks.
const VOLUME: u64 = 3 * 4096;

/// Where the first gate of each half is.
const GATES_0: u64 = 8192;

const GATES_1: u64 = 12288;

/// Where the record area of each half begins.
const RECORDS_0: u64 = 16384;

const RECORDS_1: u64 = 540_672;

/// How long a batch of one byte is.
const BATCH: u64 = 29;

/// The header and the record's head of a batch with the number 1 whose bytes are just as many as a record area has.
const FULL: [u8; 28] = [
    1, 0, 0, 0, 0, 0, 0, 0, 0xF0, 0xFF, 7, 0, 1, 0, 0, 0, 0, 0, 0, 0, 0, 0, 0, 0, 0xE4, 0xFF, 7, 0,
];

/// What is done with a disk and the half that was last known of it, or seen of them.
#[derive(Clone, Copy, Debug, Drop)]
enum Step {
    /// A place and bytes.
    Put(u64, &'static [u8]),
    /// A place, and the number, the offset and the byte of a batch of one byte.
    PutBatch(u64, u8, u8, u8),
    /// Of the calls of a kind from now on the one with this number fails, and no other.
    PlanOne(CallKind, u64),
    /// A sync that answers Ok.
    Sync,
    /// A half, 0 or 1, the size of the volume, and what its loading is refused with.
    Load(u8, u64, Option<LoadFault>),
    /// A half, 0 or 1, and what its clearing is refused with.
    Clear(u8, Option<JournalFault>),
    /// Which half it is, and the size of the volume.
    Stands(u8, u64),
    /// The offsets and the bytes of the half's ranges.
    Ranges(&'static [(u64, &'static [u8])]),
    /// The lengths of the half's ranges.
    Lengths(&'static [usize]),
    /// The number of the half's last batch.
    Last(Option<u64>),
    /// Whether a batch of so many bytes fits.
    Fits(u32, bool),
    /// A place and the byte there.
    Byte(u64, u8),
    /// How many calls there were on the disk.
    Calls(u64),
    /// How many faults there were.
    Faults(u64),
}

/// A disk, and the half that was loaded or cleared last.
#[derive(Drop)]
struct Known {
    /// The disk.
    disk: MemDisk,
    /// The half, where one was loaded or cleared.
    half: Option<Half>,
}

/// The bytes of a batch that puts one byte at an offset: the number, 13 bytes in one record, and the record.
fn one_byte(number: u8, off: u8, byte: u8) -> [u8; 29] {
    [
        number, 0, 0, 0, 0, 0, 0, 0, 13, 0, 0, 0, 1, 0, 0, 0, off, 0, 0, 0, 0, 0, 0, 0, 1, 0, 0, 0,
        byte,
    ]
}

/// Whether a half, 0 or 1, is loaded or refused so.
fn loads(alloc: Global, known: &mut Known, half: u8, size: u64, want: Option<LoadFault>) -> bool {
    if 1 < half || known.disk.known_size() < DISK_SIZE {
        return false;
    }
    match Half::load(alloc, &mut known.disk, half, size) {
        Ok(half) => {
            known.half = Some(half);
            want.is_none()
        }
        Err(fault) => {
            known.half = None;
            want == Some(fault)
        }
    }
}

/// Whether a half, 0 or 1, is cleared or refused so.
fn clears(alloc: Global, known: &mut Known, half: u8, want: Option<JournalFault>) -> bool {
    if 1 < half || known.disk.known_size() < DISK_SIZE {
        return false;
    }
    match Half::clear(alloc, &mut known.disk, half, VOLUME) {
        Ok(half) => {
            known.half = Some(half);
            want.is_none()
        }
        Err(fault) => {
            known.half = None;
            want == Some(fault)
        }
    }
}

/// Whether the disk has this byte at a place.
fn has_byte(disk: &mut MemDisk, place: u64, want: u8) -> Result<bool, DiskFailed> {
    let mut byte = [9];
    if disk.known_size() <= place {
        return Err(DiskFailed);
    }
    disk.read_at(place, &mut byte)?;
    Ok(byte[0] == want)
}

/// Whether a half has just these ranges.
fn has(half: &Half, ranges: &[(u64, &[u8])]) -> bool {
    let found = half.replay_list();
    found.len() == ranges.len()
        && found.iter().zip(ranges).all(|(range, (off, bytes))| range.off == *off
            && range.bytes.all() == *bytes)
}

/// Whether the ranges of a half have just these lengths.
fn has_lengths(half: &Half, lengths: &[usize]) -> bool {
    let found = half.replay_list();
    found.len() == lengths.len()
        && found
            .iter()
            .zip(lengths)
            .all(|(range, len)| range.bytes.len() == *len)
}

/// Whether a half is as the step says. A step of the disk is none of a half.
fn is_seen(half: &Half, step: &Step) -> bool {
    match step {
        Step::Stands(which, size) => half.which() == *which && half.volume_bytes() == *size,
        Step::Ranges(ranges) => has(half, ranges),
        Step::Lengths(lengths) => has_lengths(half, lengths),
        Step::Last(want) => half.last() == *want,
        Step::Fits(bytes, want) => half.fits(*bytes) == *want,
        _ => false,
    }
}

/// Takes a step, and tells whether it goes as it says.
fn goes(alloc: Global, known: &mut Known, step: &Step) -> Result<bool, Fail> {
    match step {
        Step::Put(place, bytes) => put(&mut known.disk, *place, bytes)?,
        Step::PutBatch(place, number, off, byte) => {
            put(&mut known.disk, *place, &one_byte(*number, *off, *byte))?;
        }
        Step::PlanOne(kind, number) => known.disk.plan(FailPlan::One {
            kind: *kind,
            number: *number,
        }),
        Step::Sync => known.disk.sync()?,
        Step::Load(half, size, want) => return Ok(loads(alloc, known, *half, *size, *want)),
        Step::Clear(half, want) => return Ok(clears(alloc, known, *half, *want)),
        Step::Byte(place, want) => return Ok(has_byte(&mut known.disk, *place, *want)?),
        Step::Calls(want) => return Ok(known.disk.calls() == *want),
        Step::Faults(want) => return Ok(known.disk.faults() == *want),
        _ => {
            return Ok(match &known.half {
                Some(half) => is_seen(half, step),
                None => false,
            });
        }
    }
    Ok(true)
}

/// Takes the steps of each row in turn, each row on a new disk of zeros: all gates are closed.
fn run(rt: &impl Abort, alloc: Global, rows: &[&[Step]]) -> Result<(), Fail> {
    for row in rows {
        let mut known = Known {
            disk: zeros(alloc, DISK_SIZE)?,
            half: None,
        };
        for step in *row {
            assert!(rt; goes(alloc, &mut known, step)?, "at {step:?}");
        }
    }
    Ok(())
}

/// A half with closed gates has no batch, and its record area is not read.
const CLOSED: &[Step] = &[
    Step::Put(RECORDS_0, &[0xA5; 16]),
    Step::Load(0, VOLUME, None),
    Step::Ranges(&[]),
    Step::Last(None),
    Step::Fits(524_288, true),
    Step::Fits(524_289, false),
    Step::Calls(2),
];

/// Two open batches are replayed in order.
const TWO_OPEN: &[Step] = &[
    Step::Put(GATES_0, &[0xA5, 0xA5]),
    Step::PutBatch(RECORDS_0, 7, 5, 1),
    Step::PutBatch(RECORDS_0 + BATCH, 8, 4, 2),
    Step::Load(0, VOLUME, None),
    Step::Ranges(&[(5, &[1]), (4, &[2])]),
    Step::Last(Some(8)),
    Step::Fits(524_230, true),
    Step::Fits(524_231, false),
];

/// A batch behind a closed gate does not count.
const BEHIND_CLOSED: &[Step] = &[
    Step::Put(GATES_0, &[0xA5, 0xA4, 0xA5]),
    Step::PutBatch(RECORDS_0, 7, 5, 1),
    Step::PutBatch(RECORDS_0 + BATCH, 8, 4, 2),
    Step::PutBatch(RECORDS_0 + 2 * BATCH, 9, 3, 3),
    Step::Load(0, VOLUME, None),
    Step::Ranges(&[(5, &[1])]),
    Step::Last(Some(7)),
    Step::Fits(16, false),
];

/// A wrong number is named with its block.
const WRONG_NUMBER: &[Step] = &[
    Step::Put(GATES_1, &[0xA5, 0xA5]),
    Step::PutBatch(RECORDS_1, 7, 5, 1),
    Step::PutBatch(RECORDS_1 + BATCH, 9, 4, 2),
    Step::Load(
        1,
        VOLUME,
        Some(LoadFault::BadJournal {
            half: 1,
            batch: 1,
            block: 132,
        }),
    ),
];

/// A batch up to the end of the area of half 0 is read, and none behind it.
const FULL_0: &[Step] = &[
    Step::Put(GATES_0, &[0xA5]),
    Step::Put(RECORDS_0, &FULL),
    Step::Load(0, 524_260, None),
    Step::Lengths(&[524_260]),
    Step::Fits(0, true),
    Step::Fits(1, false),
    Step::Put(GATES_0 + 1, &[0xA5]),
    Step::Load(
        0,
        524_260,
        Some(LoadFault::BadJournal {
            half: 0,
            batch: 1,
            block: 132,
        }),
    ),
];

/// The same of half 1.
const FULL_1: &[Step] = &[
    Step::Put(GATES_1, &[0xA5]),
    Step::Put(RECORDS_1, &FULL),
    Step::Load(1, 524_260, None),
    Step::Lengths(&[524_260]),
    Step::Fits(0, true),
    Step::Fits(1, false),
    Step::Put(GATES_1 + 1, &[0xA5]),
    Step::Load(
        1,
        524_260,
        Some(LoadFault::BadJournal {
            half: 1,
            batch: 1,
            block: 260,
        }),
    ),
];

/// Each half stands at its own places.
const OWN_PLACES: &[Step] = &[
    Step::Put(GATES_1, &[0xA5]),
    Step::PutBatch(RECORDS_0, 3, 5, 1),
    Step::PutBatch(RECORDS_1, 4, 6, 2),
    Step::Load(0, VOLUME, None),
    Step::Stands(0, VOLUME),
    Step::Last(None),
    Step::Load(1, VOLUME, None),
    Step::Stands(1, VOLUME),
    Step::Last(Some(4)),
    Step::Ranges(&[(6, &[2])]),
];

/// A failed read of the gates is told, and a later one reads them.
const FAILED_GATES: &[Step] = &[
    Step::Put(GATES_0, &[0xA5]),
    Step::PutBatch(RECORDS_0, 7, 5, 1),
    Step::PlanOne(CallKind::Read, 1),
    Step::Load(0, VOLUME, Some(LoadFault::Device)),
    Step::Calls(1),
    Step::Faults(1),
    Step::Load(0, VOLUME, None),
    Step::Last(Some(7)),
];

/// The same of a failed read of the records.
const FAILED_RECORDS: &[Step] = &[
    Step::Put(GATES_0, &[0xA5]),
    Step::PutBatch(RECORDS_0, 7, 5, 1),
    Step::PlanOne(CallKind::Read, 2),
    Step::Load(0, VOLUME, Some(LoadFault::Device)),
    Step::Calls(2),
    Step::Faults(1),
    Step::Load(0, VOLUME, None),
    Step::Last(Some(7)),
];

#[test]
fn a_half_is_loaded_with_its_open_batches(rt: HostRuntime) -> Result<(), Fail> {
    let rows = [CLOSED, TWO_OPEN, BEHIND_CLOSED, WRONG_NUMBER];
    run(&rt, rt.alloc(), &rows)?;
    let rows = [FULL_0, FULL_1, OWN_PLACES, FAILED_GATES, FAILED_RECORDS];
    run(&rt, rt.alloc(), &rows)
}

/// Clearing closes all gates of half 1, and none of half 0.
const CLEARED: &[Step] = &[
    Step::Put(GATES_1 - 1, &[7, 0xA5]),
    Step::Put(GATES_1 + 4095, &[0xA5]),
    Step::PutBatch(RECORDS_1, 7, 5, 1),
    Step::Clear(1, None),
    Step::Last(None),
    Step::Fits(524_288, true),
    Step::Sync,
    Step::Byte(GATES_1 - 1, 7),
    Step::Byte(GATES_1, 0),
    Step::Byte(GATES_1 + 4095, 0),
    Step::Load(1, VOLUME, None),
    Step::Ranges(&[]),
    Step::Fits(524_288, true),
];

/// A failed write of the gates is told.
const UNCLEARED: &[Step] = &[
    Step::PlanOne(CallKind::Write, 1),
    Step::Clear(0, Some(JournalFault::Device)),
    Step::Calls(1),
    Step::Faults(1),
];

#[test]
fn a_half_is_cleared_with_all_its_gates(rt: HostRuntime) -> Result<(), Fail> {
    run(&rt, rt.alloc(), &[CLEARED, UNCLEARED])
}
