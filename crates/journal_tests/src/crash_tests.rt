//! What no clause of committing says: that calls come through, how many calls on the disk they make, and what crashes leave
//! of a volume on a disk in memory, by a reading of the format that shares no code with this crate.
use super::samples::{
    GATES, MASTER, Part, RECORDS, VOLUME, VOLUME_SIZE, batches_bytes, contents, image_of, now_of,
    read_plainly,
};
use super::trials::{holds, look_at, open};
use atomic_volume::{Volume, VolumeFault};
use ccfs_base::{Bytes, NoMemory};
use disk_model::{CallKind, Disk, FailPlan, MemDisk};
use gate_journal::{Batch, Range, Ranges};
use std::alloc::Global;
use std::process::Abort;
use std::test::Fail;

/// How many calls on the disk the reading of an image with an open batch takes, a sync in front of it included.
const READING: u64 = 7;

/// How many calls on the disk the opening of an image with one open range takes: those of reading, three writes and two syncs.
const OPENING: u64 = READING + 5;

/// What the first bytes of the volume are in the image, after the first batch and after the second. The last byte of the
/// volume is 6, then 6, and then 9.
const FRONTS: [[u8; 8]; 3] = [
    [5, 5, 5, 5, 5, 5, 5, 5],
    [5, 5, 1, 1, 1, 5, 5, 5],
    [5, 5, 1, 2, 2, 2, 5, 5],
];

/// The ranges of the first batch, which has the number 2^64 - 1.
const FIRST: [Part<'static>; 1] = [(2, &[1, 1, 1])];

/// The ranges of the second batch, which has the number 0.
const SECOND: [Part<'static>; 2] = [(3, &[2, 2, 2]), (VOLUME_SIZE - 1, &[9])];

/// A batch of these ranges.
fn batch_of(alloc: Global, number: u64, parts: &[Part<'_>]) -> Result<Batch, NoMemory> {
    let mut ranges = Ranges::new(alloc);
    for (off, bytes) in parts {
        ranges.push(Range {
            off: *off,
            bytes: Bytes::of(alloc, bytes)?,
        })?;
    }
    Ok(Batch { number, ranges })
}

/// The volume of an image, ready for commits.
fn volume_on(alloc: Global, disk: MemDisk) -> Result<Volume<MemDisk>, VolumeFault> {
    let found = match open(alloc, disk) {
        Ok(found) => found,
        Err(refused) => return Err(refused.fault),
    };
    match found.start() {
        Ok(volume) => Ok(volume),
        Err(refused) => Err(refused.fault),
    }
}

/// Commits a batch. The test fails where the volume doesn't accept it.
fn commit(volume: &mut Volume<MemDisk>, batch: &Batch) -> Result<Result<(), VolumeFault>, Fail> {
    if volume.failed() || !volume.accepts(batch) {
        return Err("the batch is not accepted".into());
    }
    Ok(volume.commit(batch))
}

/// Commits the first batch.
fn commit_first(alloc: Global, volume: &mut Volume<MemDisk>) -> Result<(), Fail> {
    let batch = batch_of(alloc, u64::MAX, &FIRST)?;
    commit(volume, &batch)??;
    Ok(())
}

/// Commits the second batch.
fn commit_second(
    alloc: Global,
    volume: &mut Volume<MemDisk>,
) -> Result<Result<(), VolumeFault>, Fail> {
    let batch = batch_of(alloc, 0, &SECOND)?;
    commit(volume, &batch)
}

/// A volume to which no batch was committed.
fn fresh(alloc: Global) -> Result<Volume<MemDisk>, Fail> {
    let parts: [Part<'_>; 2] = [(VOLUME, &FRONTS[0]), (VOLUME + VOLUME_SIZE - 1, &[6])];
    Ok(volume_on(alloc, image_of(alloc, &parts)?)?)
}

/// A volume to which the first batch was committed, on a disk with this plan. The calls of the plan begin with the first
/// call of a commit, number `OPENING + 1`.
fn with_first(alloc: Global, plan: FailPlan) -> Result<Volume<MemDisk>, Fail> {
    let mut volume = fresh(alloc)?;
    commit_first(alloc, &mut volume)?;
    let mut disk = now_of(alloc, &volume.end())?;
    disk.plan(plan);
    Ok(volume_on(alloc, disk)?)
}

/// Which of the three states these bytes are, with the number of that state's last batch or with none: 0, 1 or 2 batches.
/// `None` where they are none of them.
fn state(bytes: &[u8], last: Option<u64>) -> Option<usize> {
    let state = FRONTS.iter().position(|front| bytes.starts_with(front))?;
    let (end, number) = match state {
        0 => (6, None),
        1 => (6, Some(u64::MAX)),
        _ => (9, Some(0)),
    };
    let middle = bytes.get(8..bytes.len().saturating_sub(1))?;
    let right = bytes.len() as u64 == VOLUME_SIZE
        && middle.iter().all(|byte| *byte == 0)
        && bytes.last() == Some(&end)
        && (last.is_none() || last == number);
    if right { Some(state) } else { None }
}

/// The state of a volume that may be committed to.
fn state_held(volume: &Volume<MemDisk>) -> Option<usize> {
    state(volume.bytes(), volume.last())
}

/// The state of an image, as `look` and the words of the format have it.
fn state_of(rt: &impl Abort, alloc: Global, disk: &mut MemDisk) -> Result<Option<usize>, Fail> {
    let looked = look_at(alloc, disk)?;
    let plain = read_plainly(alloc, &contents(alloc, disk)?)?.ok_or("the words refuse it")?;
    assert!(rt; looked.bytes.all() == plain.volume.as_slice());
    assert_eq!(rt; looked.last, plain.last);
    Ok(state(looked.bytes.all(), looked.last))
}

/// Whether a volume's ranges are just these.
fn has(volume: &Volume<MemDisk>, parts: &[Part<'_>]) -> bool {
    let found = volume.ranges();
    found.len() == parts.len()
        && found.iter().zip(parts).all(|(range, (off, bytes))| range.off == *off
            && range.bytes.all() == *bytes)
}

/// Whether a disk has the image with both batches, in half 1.
fn holds_both(alloc: Global, disk: &mut MemDisk) -> Result<bool, Fail> {
    let records = batches_bytes(alloc, &[(u64::MAX, &FIRST), (0, &SECOND)])?;
    let parts: [Part<'_>; 5] = [
        (MASTER, &[0xA5]),
        (GATES[1], &[0xA5, 0xA5]),
        (RECORDS[1], records.all()),
        (VOLUME, &FRONTS[0]),
        (VOLUME + VOLUME_SIZE - 1, &[6]),
    ];
    let mut same = image_of(alloc, &parts)?;
    let bytes = contents(alloc, &mut same)?;
    holds(alloc, disk, &bytes)
}

#[test]
fn two_commits_are_seen_in_memory_and_on_the_disk(rt: HostRuntime) -> Result<(), Fail> {
    let both = [FIRST[0], SECOND[0], SECOND[1]];
    let mut volume = fresh(rt.alloc())?;
    assert_eq!(rt; state_held(&volume), Some(0));
    assert_eq!(rt; volume.fits(524_288), true);
    commit_first(rt.alloc(), &mut volume)?;
    assert_eq!(rt; state_held(&volume), Some(1));
    assert_eq!(rt; has(&volume, &FIRST), true);
    assert_eq!(rt; [volume.fits(524_257), volume.fits(524_258)], [true, false]);
    commit_second(rt.alloc(), &mut volume)??;
    assert_eq!(rt; state_held(&volume), Some(2));
    assert_eq!(rt; has(&volume, &both), true);
    assert_eq!(rt; [volume.failed(), volume.faults() != 0], [false, false]);
    assert_eq!(rt;
        [volume.geometry().blocks, volume.geometry().inodes],
        [512, 32]
    );
    let mut disk = volume.end();
    assert_eq!(rt; holds_both(rt.alloc(), &mut disk)?, true);
    let again = volume_on(rt.alloc(), disk)?;
    assert_eq!(rt; state_held(&again), Some(2));
    assert_eq!(rt; has(&again, &[]), true);
    assert_eq!(rt; again.last(), None);
    Ok(())
}

/// The second commit on a disk with this plan: whether it fails.
fn assert_fails(rt: &impl Abort, alloc: Global, plan: FailPlan, fails: bool) -> Result<(), Fail> {
    let mut volume = with_first(alloc, plan)?;
    let done = commit_second(alloc, &mut volume)?;
    assert_eq!(rt; volume.failed(), fails, "{plan:?}");
    assert_eq!(rt; volume.faults(), u64::from(fails));
    if fails {
        assert_eq!(rt; done, Err(VolumeFault::Device));
        assert_eq!(rt; state_held(&volume), Some(1));
        assert_eq!(rt; has(&volume, &[]), true);
    } else {
        assert_eq!(rt; done, Ok(()));
        assert_eq!(rt; state_held(&volume), Some(2));
        let disk = volume.end();
        assert_eq!(rt;
            [disk.calls(), disk.written()],
            [OPENING + 4, 3 + 4097 + 44 + 1]
        );
    }
    Ok(())
}

/// How many of the images that crashes leave are the old volume, and how many the new one: there is no other.
fn images_left(rt: &impl Abort, alloc: Global, disk: &MemDisk) -> Result<[u64; 2], Fail> {
    let mut olds = 0u64;
    let mut news = 0u64;
    for pick in 0..=20 {
        let mut image = disk.image(alloc, pick)?;
        match state_of(rt, alloc, &mut image)? {
            Some(1) => olds = olds.saturating_add(1),
            Some(2) => news = news.saturating_add(1),
            left => panic!(rt; "pick {pick}: {left:?}"),
        }
    }
    Ok([olds, news])
}

/// What crashes leave of the second commit where power is lost at this call on the disk, from which on all fail.
fn left_at(rt: &impl Abort, alloc: Global, call: u64, done: bool) -> Result<[u64; 2], Fail> {
    let mut volume = with_first(alloc, FailPlan::From { call })?;
    let answer = commit_second(alloc, &mut volume)?;
    assert_eq!(rt; [answer.is_ok(), !volume.failed()], [done; 2]);
    let held = if done { 2 } else { 1 };
    assert_eq!(rt; state_held(&volume), Some(held));
    images_left(rt, alloc, &volume.end())
}

#[test]
fn a_commit_is_two_writes_and_two_syncs_and_all_or_nothing(rt: HostRuntime) -> Result<(), Fail> {
    for (kind, number, fails) in [
        (CallKind::Any, OPENING + 4, true),
        (CallKind::Any, OPENING + 5, false),
        (CallKind::Read, 6, false),
        (CallKind::Write, 4, true),
        (CallKind::Write, 5, true),
        (CallKind::Write, 6, false),
        (CallKind::Sync, 4, true),
        (CallKind::Sync, 5, true),
        (CallKind::Sync, 6, false),
    ] {
        assert_fails(&rt, rt.alloc(), FailPlan::One { kind, number }, fails)?;
    }
    for (call, done, old, new) in [
        (OPENING + 1, false, true, false),
        (OPENING + 2, false, true, false),
        (OPENING + 3, false, true, true),
        (OPENING + 4, false, true, true),
        (OPENING + 5, true, false, true),
    ] {
        let [olds, news] = left_at(&rt, rt.alloc(), call, done)?;
        assert_eq!(rt; olds.saturating_add(news), 21, "call {call}");
        assert_eq!(rt; [0 < olds, 0 < news], [old, new], "call {call}");
    }
    Ok(())
}

/// A half by its places: the master byte that names it, its gates, its record area, and the gates of the other half.
type Places = (u8, u64, u64, u64);

/// An image with the first batch open in a half. In the other one gates are open over zeros, which break the format.
fn image_with_first(alloc: Global, half: Places) -> Result<MemDisk, Fail> {
    let (master, gates, records, other_gates) = half;
    let batch = batches_bytes(alloc, &[(u64::MAX, &FIRST)])?;
    let parts: [Part<'_>; 6] = [
        (MASTER, &[master]),
        (gates, &[0xA5]),
        (records, batch.all()),
        (other_gates, &[0xA5; 3]),
        (VOLUME, &FRONTS[0]),
        (VOLUME + VOLUME_SIZE - 1, &[6]),
    ];
    image_of(alloc, &parts)
}

/// What an opening leaves where power is lost at this call of its checkpoint, from which on all fail, and whether it is done.
fn stopped_at(alloc: Global, disk: MemDisk, call: u64) -> Result<(bool, MemDisk), Fail> {
    let mut disk = disk;
    disk.plan(FailPlan::From {
        call: READING.saturating_add(call),
    });
    let found = match open(alloc, disk) {
        Ok(found) => found,
        Err(refused) => return Err(refused.fault.into()),
    };
    match found.start() {
        Ok(volume) => Ok((true, volume.end())),
        Err(refused) => Ok((false, refused.kept)),
    }
}

/// An image that a stop left is opened and stopped again at this call, and stays the same volume.
fn assert_stays(rt: &impl Abort, alloc: Global, image: MemDisk, call: u64) -> Result<(), Fail> {
    let (_, disk) = stopped_at(alloc, image, call)?;
    for pick in [0, 5, 20] {
        let mut left = disk.image(alloc, pick)?;
        assert_eq!(rt;
            state_of(rt, alloc, &mut left)?,
            Some(1),
            "call {call}, pick {pick}"
        );
    }
    Ok(())
}

/// Of how many of the images that crashes leave the first batch is open, and of how many it is home: all are the same volume.
fn batches_left(rt: &impl Abort, alloc: Global, disk: &MemDisk) -> Result<[u64; 2], Fail> {
    let mut open = 0u64;
    let mut home = 0u64;
    for pick in 0..=20 {
        let mut image = disk.image(alloc, pick)?;
        assert_eq!(rt; state_of(rt, alloc, &mut image)?, Some(1), "pick {pick}");
        match look_at(alloc, &mut image)?.last {
            Some(_) => open = open.saturating_add(1),
            None => home = home.saturating_add(1),
        }
        if pick % 4 == 0 {
            assert_stays(rt, alloc, image, pick / 4 + 1)?;
        }
    }
    Ok([open, home])
}

#[test]
fn a_crash_of_a_checkpoint_leaves_the_same_volume(rt: HostRuntime) -> Result<(), Fail> {
    for half in [
        (0, GATES[0], RECORDS[0], GATES[1]),
        (0xA5, GATES[1], RECORDS[1], GATES[0]),
    ] {
        for (call, done, is_open, is_home) in [
            (1, false, true, false),
            (2, false, true, false),
            (3, false, true, false),
            (4, false, true, true),
            (5, false, true, true),
            (6, true, false, true),
        ] {
            let disk = image_with_first(rt.alloc(), half)?;
            let (is_done, disk) = stopped_at(rt.alloc(), disk, call)?;
            assert_eq!(rt; is_done, done, "call {call}");
            let [open, home] = batches_left(&rt, rt.alloc(), &disk)?;
            assert_eq!(rt; open.saturating_add(home), 21, "call {call}");
            assert_eq!(rt; [0 < open, 0 < home], [is_open, is_home], "call {call}");
        }
    }
    Ok(())
}
