//! What calls of disks in memory answer, and the images of their crashes, with each byte worked out by hand from the rule
//! that `MemDisk::image` states.
use disk_model::{CallKind, Disk, DiskFailed, FailPlan, MemDisk};
use std::alloc::Global;
use std::process::Abort;
use std::test::Fail;

/// What is done with a disk, or seen of it.
#[derive(Clone, Copy, Debug, Drop)]
enum Step {
    /// The plan of the calls from now on.
    Plan(FailPlan),
    /// Of the calls of a kind from now on the one with this number fails, and no other.
    PlanOne(CallKind, u64),
    /// An offset and bytes, and whether the write answers Ok.
    Write(u64, &'static [u8], bool),
    /// Whether the sync answers Ok.
    Sync(bool),
    /// A size, and whether its setting answers Ok.
    SetSize(u64, bool),
    /// What the call of the size answers.
    Size(Result<u64, DiskFailed>),
    /// The size that is known without a call.
    Known(u64),
    /// An offset, and the bytes that are read there.
    Read(u64, &'static [u8]),
    /// A read of the first byte, and whether it answers Ok.
    ReadFirst(bool),
    /// For the picks 0, 1, 2 and 7 all bytes of the image.
    Images([[u8; 6]; 4]),
    /// From now on the disk is the image of this pick.
    Become(u64),
    /// How many calls there were.
    Calls(u64),
    /// How many faults there were.
    Faults(u64),
    /// How many bytes were written, and how many calls found no memory.
    Written(u64, u64),
}

/// Whether a write that has room answers so.
fn writes(disk: &mut MemDisk, offset: u64, bytes: &[u8], want: bool) -> bool {
    match offset.checked_add(bytes.len() as u64) {
        Some(end) if end <= disk.known_size() => disk.write_at(offset, bytes).is_ok() == want,
        _ => false,
    }
}

/// Whether a read that has room answers Ok and gives these bytes. All bytes were 9 before.
fn reads(alloc: Global, disk: &mut MemDisk, offset: u64, want: &[u8]) -> Result<bool, Fail> {
    let mut got = vec![in alloc; 9; want.len()]?;
    Ok(match offset.checked_add(got.len() as u64) {
        Some(end) if end <= disk.known_size() => {
            disk.read_at(offset, &mut got).is_ok() && got.as_slice() == want
        }
        _ => false,
    })
}

/// Whether a read of the first byte answers so.
fn reads_first(disk: &mut MemDisk, want: bool) -> bool {
    1 <= disk.known_size() && disk.read_at(0, &mut [9]).is_ok() == want
}

/// Whether a size of at most 64 MiB is set with this answer.
fn sets_size(disk: &mut MemDisk, bytes: u64, want: bool) -> bool {
    bytes <= 67_108_864 && disk.set_size(bytes).is_ok() == want
}

/// Whether the images of the picks 0, 1, 2 and 7 have just these bytes.
fn has_images(alloc: Global, disk: &MemDisk, images: &[[u8; 6]; 4]) -> Result<bool, Fail> {
    for (pick, want) in [0, 1, 2, 7].into_iter().zip(images) {
        let mut image = disk.image(alloc, pick)?;
        if image.known_size() != 6 || !reads(alloc, &mut image, 0, want)? {
            return Ok(false);
        }
    }
    Ok(true)
}

/// Takes a step, and tells whether it goes as it says.
fn goes(alloc: Global, disk: &mut MemDisk, step: &Step) -> Result<bool, Fail> {
    match step {
        Step::Plan(plan) => disk.plan(*plan),
        Step::PlanOne(kind, number) => disk.plan(FailPlan::One {
            kind: *kind,
            number: *number,
        }),
        Step::Write(offset, bytes, want) => return Ok(writes(disk, *offset, bytes, *want)),
        Step::Sync(want) => return Ok(disk.sync().is_ok() == *want),
        Step::SetSize(bytes, want) => return Ok(sets_size(disk, *bytes, *want)),
        Step::Size(want) => return Ok(disk.size() == *want),
        Step::Known(want) => return Ok(disk.known_size() == *want),
        Step::Read(offset, want) => return reads(alloc, disk, *offset, want),
        Step::ReadFirst(want) => return Ok(reads_first(disk, *want)),
        Step::Images(images) => return has_images(alloc, disk, images),
        Step::Become(pick) => *disk = disk.image(alloc, *pick)?,
        Step::Calls(want) => return Ok(disk.calls() == *want),
        Step::Faults(want) => return Ok(disk.faults() == *want),
        Step::Written(bytes, starved) => {
            return Ok(disk.written() == *bytes && disk.starved() == *starved);
        }
    }
    Ok(true)
}

/// Takes the steps of each row in turn, each row on a new disk of so many zeros, at most 64 MiB.
fn run(rt: &impl Abort, alloc: Global, bytes: u64, rows: &[&[Step]]) -> Result<(), Fail> {
    if 67_108_864 < bytes {
        return Err(DiskFailed.into());
    }
    for row in rows {
        let mut disk = MemDisk::new(alloc, bytes)?;
        for step in *row {
            assert!(rt; goes(alloc, &mut disk, step)?, "at {step:?}");
        }
    }
    Ok(())
}

/// What was written is read back.
const READ_BACK: &[Step] = &[
    Step::Write(3, &[1, 2], true),
    Step::Sync(true),
    Step::Read(2, &[0, 1, 2, 0]),
    Step::Size(Ok(8)),
    Step::Calls(4),
    Step::Written(2, 0),
    Step::Faults(0),
];

/// A planned call of each kind fails and is counted.
const PLANNED: &[Step] = &[
    Step::PlanOne(CallKind::Read, 2),
    Step::ReadFirst(true),
    Step::ReadFirst(false),
    Step::PlanOne(CallKind::Write, 1),
    Step::Write(0, &[1], false),
    Step::Write(0, &[2], true),
    Step::PlanOne(CallKind::Sync, 1),
    Step::Sync(false),
    Step::Sync(true),
    Step::PlanOne(CallKind::Any, 1),
    Step::Size(Err(DiskFailed)),
    Step::SetSize(9, true),
    Step::Calls(2),
    Step::Faults(4),
];

/// Every call fails from the planned one on.
const PLANNED_ON: &[Step] = &[
    Step::Plan(FailPlan::From { call: 2 }),
    Step::Size(Ok(8)),
    Step::SetSize(0, false),
    Step::Sync(false),
    Step::Known(8),
];

/// A write that failed as planned stands in the contents.
const FAILED_WRITE: &[Step] = &[
    Step::PlanOne(CallKind::Write, 1),
    Step::Write(1, &[7, 8], false),
    Step::Read(0, &[0, 7, 8, 0]),
];

/// Growth fills with zeros.
const GROWTH: &[Step] = &[
    Step::Write(0, &[5, 6, 7, 8], true),
    Step::SetSize(2, true),
    Step::SetSize(4, true),
    Step::Known(4),
    Step::Read(0, &[5, 6, 0, 0]),
];

#[test]
fn calls_answer_as_planned_and_are_counted(rt: HostRuntime) -> Result<(), Fail> {
    run(&rt, rt.alloc(), 8, &[READ_BACK, PLANNED, PLANNED_ON])?;
    run(&rt, rt.alloc(), 4, &[FAILED_WRITE, GROWTH])
}

/// 1 2 3 4 5 6, which are written and then made stable.
const FIRST: Step = Step::Write(0, &[1, 2, 3, 4, 5, 6], true);

/// 12 13 14 15, written over 2 3 4 5.
const SECOND: Step = Step::Write(1, &[12, 13, 14, 15], true);

/// A pick draws each byte that was written since the sync.
const DRAWN: &[Step] = &[
    FIRST,
    Step::Sync(true),
    SECOND,
    Step::Images([
        [1, 2, 3, 4, 5, 6],
        [1, 12, 13, 14, 15, 6],
        [1, 12, 216, 4, 15, 6],
        [1, 126, 3, 166, 186, 6],
    ]),
];

/// After a sync each pick gives the contents.
const SYNCED: &[Step] = &[
    FIRST,
    Step::Sync(true),
    SECOND,
    Step::Sync(true),
    Step::Images([[1, 12, 13, 14, 15, 6]; 4]),
];

/// Bytes that were cut off are still drawn once the disk has grown.
const CUT_OFF: &[Step] = &[
    FIRST,
    Step::Sync(true),
    SECOND,
    Step::SetSize(3, true),
    Step::SetSize(6, true),
    Step::Images([
        [1, 2, 3, 0, 0, 0],
        [1, 12, 13, 0, 0, 0],
        [1, 12, 216, 0, 0, 0],
        [1, 126, 3, 166, 186, 0],
    ]),
];

/// Where nothing was written each pick gives the same image.
const UNWRITTEN: &[Step] = &[
    FIRST,
    Step::Sync(true),
    Step::SetSize(4, true),
    Step::SetSize(6, true),
    Step::Images([[1, 2, 3, 4, 0, 0]; 4]),
];

/// A write that failed as planned is drawn too.
const FAILED_DRAWN: &[Step] = &[
    FIRST,
    Step::Sync(true),
    Step::PlanOne(CallKind::Write, 1),
    Step::Write(1, &[12, 13], false),
    Step::Images([
        [1, 2, 3, 4, 5, 6],
        [1, 12, 13, 4, 5, 6],
        [1, 12, 216, 4, 5, 6],
        [1, 126, 3, 4, 5, 6],
    ]),
];

/// The made disk fails no call and counts from 0.
const MADE: &[Step] = &[
    FIRST,
    Step::Sync(true),
    SECOND,
    Step::Plan(FailPlan::From { call: 1 }),
    Step::Sync(false),
    Step::Become(1),
    Step::Calls(0),
    Step::Written(0, 0),
    Step::Faults(0),
    Step::Size(Ok(6)),
    Step::Images([[1, 12, 13, 14, 15, 6]; 4]),
];

#[test]
fn a_crash_leaves_the_image_that_the_rule_gives(rt: HostRuntime) -> Result<(), Fail> {
    let rows = [DRAWN, SYNCED, CUT_OFF, UNWRITTEN, FAILED_DRAWN, MADE];
    run(&rt, rt.alloc(), 6, &rows)
}
