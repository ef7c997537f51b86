//! What no clause of viewing and opening says: that calls come through.
use atomic_volume::VolumeFault;
use block_layout::Geometry;
use ccfs_base::{Bytes, Returned};
use disk_model::{CallKind, Disk, FailPlan, MemDisk};
use gate_journal::{Batch, Range, Ranges};
use image_check::{BadImage, BadKind};
use recovery::{OpenFault, Opened, make, open, view};
use std::alloc::Global;
use std::test::Fail;

/// Where the master byte and the first gate of half 0 stand, in bytes.
const MASTER: u64 = 4096;

const GATES: u64 = 8192;

/// Where the record area of half 0 begins, in bytes.
const RECORDS: u64 = 4 * 4096;

/// How many calls on the disk the opening of a fresh image takes: three syncs, five reads and two writes.
const OPENING: u64 = 10;

/// Where the volume begins, in bytes.
const VOLUME: u64 = 260 * 4096;

/// Where in the volume the count of free blocks stands, which is 246.
const FREE_BLOCKS: u64 = VOLUME + 8;

/// Where in the volume the bits of the first data blocks stand, of which none is used.
const BLOCK_BITS: u64 = VOLUME + 4096;

/// Where in the volume the bits of the first inodes stand, of which two are used.
const INODE_BITS: u64 = VOLUME + 8192;

/// A disk with a fresh image of 512 blocks and 32 inodes.
fn fresh(alloc: Global) -> Result<MemDisk, Fail> {
    let mut disk = MemDisk::new(alloc, 0)?;
    make(alloc, &mut disk, &Geometry::of(512, 32)?)?;
    Ok(disk)
}

/// A batch with these bytes at the volume's start.
fn batch_of(alloc: Global, number: u64, bytes: &[u8]) -> Result<Batch, Fail> {
    let mut ranges = Ranges::new(alloc);
    ranges.push(Range {
        off: 0,
        bytes: Bytes::of(alloc, bytes)?,
    })?;
    Ok(Batch { number, ranges })
}

/// Opens an image. A refusal gives the fault alone.
fn opened(alloc: Global, disk: MemDisk) -> Result<Opened<MemDisk>, OpenFault> {
    match open(alloc, disk) {
        Ok(opened) => Ok(opened),
        Err(refused) => Err(refused.fault),
    }
}

/// The disk after a batch of this number and these bytes was committed to a fresh image.
fn committed(alloc: Global, number: u64, bytes: &[u8]) -> Result<MemDisk, Fail> {
    let mut volume = opened(alloc, fresh(alloc)?)?.volume;
    let batch = batch_of(alloc, number, bytes)?;
    if volume.failed() || !volume.accepts(&batch) {
        return Err("the batch is not accepted".into());
    }
    let done: Result<(), VolumeFault> = volume.commit(&batch);
    done?;
    Ok(volume.end())
}

/// The stable image with the number 1 that a commit left, on a disk of its own.
fn with_batch(alloc: Global) -> Result<MemDisk, Fail> {
    Ok(committed(alloc, 1, &[1, 0, 0, 0, 0, 0, 0, 0])?.image(alloc, 0)?)
}

/// The byte at a place. The test fails where the disk has no such place.
fn byte_at(disk: &mut MemDisk, place: u64) -> Result<u8, Fail> {
    if disk.known_size() <= place {
        return Err("no such place".into());
    }
    let mut byte = [0];
    disk.read_at(place, &mut byte)?;
    Ok(byte[0])
}

/// The kind and block that the viewing of an image tells, if it tells one.
fn bad(alloc: Global, disk: &mut MemDisk) -> Option<BadImage> {
    match view(alloc, disk) {
        Err(OpenFault::Bad { bad }) => Some(bad),
        _ => None,
    }
}

/// Writes a byte. The test fails where the disk has no such place.
fn poke(disk: &mut MemDisk, place: u64, byte: u8) -> Result<(), Fail> {
    if disk.known_size() <= place {
        return Err("no such place".into());
    }
    disk.write_at(place, &[byte])?;
    Ok(())
}

/// What is told of a fresh image with these bytes at these places. Viewing and opening have to tell the same.
fn told(alloc: Global, changes: &[(u64, u8)]) -> Result<Option<BadImage>, Fail> {
    let mut disk = fresh(alloc)?;
    for (place, byte) in changes {
        poke(&mut disk, *place, *byte)?;
    }
    let viewed = bad(alloc, &mut disk);
    match opened(alloc, disk) {
        Err(OpenFault::Bad { bad }) if viewed == Some(bad) => Ok(viewed),
        _ => Err("viewing and opening differ".into()),
    }
}

#[test]
fn the_root_alone_is_viewed_and_opened_with_its_number(rt: HostRuntime) -> Result<(), Fail> {
    let batch = [1, 0, 0, 0, 0, 0, 0, 0];
    for (disk, number) in [
        (fresh(rt.alloc())?, 0),
        (committed(rt.alloc(), 1, &batch)?, 1),
    ] {
        let mut disk = disk;
        let viewed = view(rt.alloc(), &mut disk)?.copy(rt.alloc())?;
        assert_eq!(rt; [viewed.number, viewed.tree.len() as u64], [number, 1]);
        let opened = opened(rt.alloc(), disk)?;
        assert_eq!(rt; [opened.number, opened.tree.len() as u64], [number, 1]);
        assert_eq!(rt; opened.inodes.all(), [0].as_slice());
        assert_eq!(rt; opened.volume.last(), None);
    }
    Ok(())
}

#[test]
fn the_first_check_that_fails_is_told_with_its_block(rt: HostRuntime) -> Result<(), Fail> {
    // A count of 246 free blocks is right.
    for (free, place, byte, kind, block) in [
        (246, 0, 0, BadKind::Super, 0),
        (246, VOLUME + 24, 2, BadKind::Format, 260),
        (246, INODE_BITS, 0, BadKind::Root, 263),
        (246, INODE_BITS, 7, BadKind::Record, 263),
        (246, BLOCK_BITS, 1, BadKind::Bits, 261),
        (245, VOLUME, 0, BadKind::Counts, 260),
        (245, 0, 0, BadKind::Super, 0),
        (245, INODE_BITS, 0, BadKind::Root, 263),
        (245, BLOCK_BITS, 1, BadKind::Bits, 261),
    ] {
        let image = BadImage { kind, block };
        let changes = [(FREE_BLOCKS, free), (place, byte)];
        assert_eq!(rt; told(rt.alloc(), &changes)?, Some(image));
    }
    // The header of the batch names one byte and no record.
    let journal = BadImage {
        kind: BadKind::Journal,
        block: 4,
    };
    let batch = [(GATES, 0xA5), (RECORDS + 8, 1)];
    assert_eq!(rt; told(rt.alloc(), &batch)?, Some(journal));
    // The batch has the number 2, and leaves the number 1 in the counter block.
    let format = BadImage {
        kind: BadKind::Format,
        block: 260,
    };
    let mut other = committed(rt.alloc(), 2, &[1])?;
    assert_eq!(rt; bad(rt.alloc(), &mut other), Some(format));
    let size = BadImage {
        kind: BadKind::Size,
        block: 0,
    };
    let mut short = MemDisk::new(rt.alloc(), 100)?;
    assert_eq!(rt; bad(rt.alloc(), &mut short), Some(size));
    Ok(())
}

#[test]
fn a_failing_device_is_told_by_view_and_open(rt: HostRuntime) -> Result<(), Fail> {
    let mut disk = fresh(rt.alloc())?;
    disk.plan(FailPlan::One {
        kind: CallKind::Any,
        number: 1,
    });
    assert_eq!(rt; view(rt.alloc(), &mut disk).err(), Some(OpenFault::Device));
    disk.plan(FailPlan::From { call: 1 });
    assert_eq!(rt; opened(rt.alloc(), disk).err(), Some(OpenFault::Device));
    Ok(())
}

#[test]
fn an_opening_goes_on_with_the_other_half(rt: HostRuntime) -> Result<(), Fail> {
    let mut disk = fresh(rt.alloc())?;
    for master in [0xA5, 0, 0xA5] {
        disk = opened(rt.alloc(), disk.image(rt.alloc(), 0)?)?.volume.end();
        assert_eq!(rt; [disk.calls(), disk.written()], [OPENING, 4097]);
        assert_eq!(rt; byte_at(&mut disk, MASTER)?, master);
        assert_eq!(rt; view(rt.alloc(), &mut disk)?.number, 0);
    }
    Ok(())
}

/// What an opening that loses power at this call leaves: whether it was done, and the disk.
fn opened_until(alloc: Global, call: u64) -> Result<(bool, MemDisk), Fail> {
    let mut disk = with_batch(alloc)?;
    disk.plan(FailPlan::From { call });
    match open(alloc, disk) {
        Ok(opened) => Ok((true, opened.volume.end())),
        Err(Returned { fault, kept }) if fault == OpenFault::Device => Ok((false, kept)),
        Err(_) => Err("it is refused".into()),
    }
}

#[test]
fn an_opening_that_stops_leaves_the_same_tree(rt: HostRuntime) -> Result<(), Fail> {
    for call in 1..=OPENING + 3 {
        let (done, kept) = opened_until(rt.alloc(), call)?;
        assert_eq!(rt; done, call == OPENING + 3, "call {call}");
        for pick in 0..5 {
            let mut image = kept.image(rt.alloc(), pick)?;
            let viewed = view(rt.alloc(), &mut image)?;
            let opened = opened(rt.alloc(), image)?;
            assert_eq!(rt; [viewed.number, opened.number], [1, 1], "{call} {pick}");
            assert_eq!(rt; [viewed.tree.len(), opened.tree.len()], [1, 1]);
        }
    }
    Ok(())
}
