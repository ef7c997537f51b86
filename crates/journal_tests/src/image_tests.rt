//! What no clause of opening says of the image around the journal: its length, its superblock, its master byte, and the calls
//! on its disk.
use super::samples::{
    GATES, MASTER, Part, RECORDS, SUPERBLOCK, contents, image_of, now_of, put, zeros,
};
use super::trials::{bad_journal, holds, look_at, one_record, open, refusal, refusal_of};
use atomic_volume::VolumeFault;
use block_layout::SuperField;
use disk_model::{CallKind, Disk, DiskFailed, FailPlan, MemDisk};
use std::alloc::Global;
use std::process::Abort;
use std::test::Fail;

/// A stable disk of so many bytes with a superblock, where it has room for one, and these parts.
fn disk_of(alloc: Global, bytes: u64, parts: &[Part<'_>]) -> Result<MemDisk, Fail> {
    let mut disk = zeros(alloc, bytes)?;
    if 36 <= bytes {
        put(&mut disk, 0, &SUPERBLOCK)?;
    }
    for (place, bytes) in parts {
        put(&mut disk, *place, bytes)?;
    }
    now_of(alloc, &disk)
}

/// An empty disk that was made so long, at most 64 MiB and a block.
fn grown(alloc: Global, bytes: u64) -> Result<MemDisk, Fail> {
    let mut disk = zeros(alloc, 0)?;
    if 67_112_960 < bytes {
        return Err(DiskFailed.into());
    }
    disk.set_size(bytes)?;
    Ok(disk)
}

/// A superblock with these bytes at a place is refused for this field, whatever is wrong behind it.
fn assert_field(
    rt: &impl Abort,
    alloc: Global,
    place: u64,
    bytes: &[u8],
    field: SuperField,
) -> Result<(), Fail> {
    let parts: [Part<'_>; 3] = [(MASTER, &[0xA5]), (GATES[0], &[0xA5]), (place, bytes)];
    let refused = refusal_of(rt, alloc, &parts)?;
    assert_eq!(rt; refused, Some(VolumeFault::BadSuper { field }), "{place}");
    Ok(())
}

#[test]
fn a_wrong_length_and_the_first_wrong_field_are_refused(rt: HostRuntime) -> Result<(), Fail> {
    let wrong = Some(VolumeFault::BadLength);
    for bytes in [0, 100, 4096, 511 * 4096, 512 * 4096 - 1, 512 * 4096 + 1] {
        let mut disk = disk_of(rt.alloc(), bytes, &[])?;
        assert_eq!(rt; refusal(&rt, rt.alloc(), &mut disk)?, wrong, "{bytes}");
    }
    let mut disk = grown(rt.alloc(), 16_385 * 4096)?;
    assert_eq!(rt; look_at(rt.alloc(), &mut disk).err(), wrong);
    for (place, byte, field) in [
        (0, 0x42, SuperField::Magic),
        (7, 0x32, SuperField::Magic),
        (8, 2, SuperField::Version),
        (12, 1, SuperField::Blocks),
        (13, 1, SuperField::Blocks),
        (15, 1, SuperField::Blocks),
        (16, 33, SuperField::Inodes),
        (16, 0, SuperField::Inodes),
        (16, 64, SuperField::SlotTable),
        (20, 3, SuperField::VolumeStart),
        (24, 8, SuperField::InodeTable),
        (28, 8, SuperField::SlotTable),
        (32, 11, SuperField::FirstData),
        (35, 1, SuperField::FirstData),
    ] {
        assert_field(&rt, rt.alloc(), place, &[byte], field)?;
    }
    let both = [0x32, 2, 0, 0, 0, 0, 0];
    assert_field(&rt, rt.alloc(), 7, &both, SuperField::Magic)?;
    let other = VolumeFault::BadSuper {
        field: SuperField::Blocks,
    };
    for (low, refused) in [(0, Some(other)), (1, None)] {
        let parts: [Part<'_>; 2] = [(12, &[low, 2]), (512 * 4096, &[8; 64])];
        let mut disk = disk_of(rt.alloc(), 513 * 4096, &parts)?;
        assert_eq!(rt; refusal(&rt, rt.alloc(), &mut disk)?, refused);
    }
    Ok(())
}

/// An image with this master byte, these gates and one batch in half 1 is refused with this.
fn assert_master(
    rt: &impl Abort,
    alloc: Global,
    master: u8,
    gates: &[u8],
    refused: Option<VolumeFault>,
) -> Result<(), Fail> {
    let batch = one_record(14, 1, [0; 8], 2, [3, 4]);
    let parts: [Part<'_>; 3] = [(MASTER, &[master]), (GATES[1], gates), (RECORDS[1], &batch)];
    assert_eq!(rt;
        refusal_of(rt, alloc, &parts)?,
        refused,
        "{master} {gates:?}"
    );
    Ok(())
}

#[test]
fn the_master_byte_names_the_half_that_counts(rt: HostRuntime) -> Result<(), Fail> {
    let broken = Some(VolumeFault::BadJournal {
        half: 1,
        batch: 1,
        block: 132,
    });
    for (master, gates, refused) in [
        (0xA5, [0, 0], None),
        (0xA5, [0xA5, 0], None),
        (0xA5, [0xA5, 0xA5], broken),
        (0xA4, [0xA5, 0xA5], None),
        (0x5A, [0xA5, 0xA5], None),
        (1, [0, 0xA5], None),
    ] {
        assert_master(&rt, rt.alloc(), master, &gates, refused)?;
    }
    Ok(())
}

/// Looking at a disk whose call of this number fails: it has 6 calls.
fn assert_look_told(
    rt: &impl Abort,
    alloc: Global,
    disk: &mut MemDisk,
    number: u64,
) -> Result<(), Fail> {
    disk.plan(FailPlan::One {
        kind: CallKind::Any,
        number,
    });
    match look_at(alloc, disk) {
        Ok(_) => assert!(rt; 7 <= number),
        Err(fault) => {
            assert_eq!(rt; fault, VolumeFault::Device);
            assert!(rt; number <= 6);
        }
    }
    Ok(())
}

/// The disk that opening hands back where its call of this number fails: it has a sync and the 6 calls of looking.
fn kept_by_open(
    rt: &impl Abort,
    alloc: Global,
    disk: MemDisk,
    number: u64,
) -> Result<MemDisk, Fail> {
    let mut disk = disk;
    disk.plan(FailPlan::One {
        kind: CallKind::Any,
        number,
    });
    match open(alloc, disk) {
        Ok(found) => {
            assert!(rt; 8 <= number);
            Ok(found.end())
        }
        Err(refused) => {
            assert_eq!(rt; refused.fault, VolumeFault::Device);
            assert!(rt; number <= 7);
            Ok(refused.kept)
        }
    }
}

#[test]
fn each_failed_call_is_told_as_the_device(rt: HostRuntime) -> Result<(), Fail> {
    let batch = one_record(14, 1, [0; 8], 2, [3, 4]);
    let parts: [Part<'_>; 2] = [(GATES[0], &[0xA5]), (RECORDS[0], &batch)];
    for number in [1, 2, 3, 4, 5, 6, 7, 8] {
        let mut disk = image_of(rt.alloc(), &parts)?;
        let before = contents(rt.alloc(), &mut disk)?;
        assert_look_told(&rt, rt.alloc(), &mut disk, number)?;
        let mut kept = kept_by_open(&rt, rt.alloc(), disk, number)?;
        assert_eq!(rt; kept.calls(), number.min(7));
        kept.plan(FailPlan::Never);
        assert!(rt; holds(rt.alloc(), &mut kept, &before)?);
        assert_eq!(rt; kept.written(), 0);
    }
    Ok(())
}
