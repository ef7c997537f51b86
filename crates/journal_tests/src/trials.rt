//! Images opened by this crate and by the words of the format, for the tests.
use super::samples::{Part, contents, image_of, now_of, read_plainly};
use atomic_volume::{Found, Looked, VolumeFault, look};
use ccfs_base::Returned;
use disk_model::{Disk, MemDisk};
use std::alloc::Global;
use std::process::Abort;
use std::test::Fail;

/// Looks at a disk.
pub fn look_at(alloc: Global, disk: &mut MemDisk) -> Result<Looked, VolumeFault> {
    look(alloc, disk)
}

/// Opens a disk.
pub fn open(
    alloc: Global,
    disk: MemDisk,
) -> Result<Found<MemDisk>, Returned<VolumeFault, MemDisk>> {
    Found::open(alloc, disk)
}

/// Whether a disk has just these bytes.
pub fn holds(alloc: Global, disk: &mut MemDisk, bytes: &[u8]) -> Result<bool, Fail> {
    Ok(contents(alloc, disk)?.as_slice() == bytes)
}

/// Why an image is refused, by `look` and by `Found::open` alike, or `None` where both open it to what the words of the
/// format say. Both leave the image as it was.
pub fn refusal(
    rt: &impl Abort,
    alloc: Global,
    disk: &mut MemDisk,
) -> Result<Option<VolumeFault>, Fail> {
    let before = contents(alloc, disk)?;
    let written = disk.written();
    let looked = look_at(alloc, disk);
    assert!(rt; holds(alloc, disk, &before)?);
    assert_eq!(rt; disk.written(), written);
    let opened = open(alloc, now_of(alloc, disk)?);
    let (mut kept, refused) = match (read_plainly(alloc, &before)?, looked, opened) {
        (Some(plain), Ok(looked), Ok(found)) => {
            assert!(rt; looked.bytes.all() == plain.volume.as_slice());
            assert!(rt; found.bytes() == plain.volume.as_slice());
            assert_eq!(rt; [looked.last, found.last()], [plain.last, plain.last]);
            assert_eq!(rt; looked.geometry, *found.geometry());
            assert_eq!(rt; looked.geometry.bytes(), disk.known_size());
            (found.end(), None)
        }
        (None, Err(fault), Err(refused)) => {
            assert_eq!(rt; refused.fault, fault);
            (refused.kept, Some(fault))
        }
        (plain, looked, opened) => {
            let opens = [plain.is_some(), looked.is_ok(), opened.is_ok()];
            panic!(rt; "the words, look and open: {opens:?}");
        }
    };
    assert!(rt; holds(alloc, &mut kept, &before)?);
    assert_eq!(rt; kept.written(), 0);
    Ok(refused)
}

/// The same of the image with these parts.
pub fn refusal_of(
    rt: &impl Abort,
    alloc: Global,
    parts: &[Part<'_>],
) -> Result<Option<VolumeFault>, Fail> {
    refusal(rt, alloc, &mut image_of(alloc, parts)?)
}

/// What a batch of half 0 is refused with.
pub fn bad_journal(batch: u32, block: u32) -> Option<VolumeFault> {
    Some(VolumeFault::BadJournal {
        half: 0,
        batch,
        block,
    })
}

/// A batch with the number 1 and one record: how many bytes and records its header names, the record's offset, its length
/// and its bytes.
pub fn one_record(count: u8, records: u8, off: [u8; 8], len: u8, bytes: [u8; 2]) -> [u8; 30] {
    let [a, b, c, d, e, f, g, h] = off;
    [
        1, 0, 0, 0, 0, 0, 0, 0, count, 0, 0, 0, records, 0, 0, 0, a, b, c, d, e, f, g, h, len, 0,
        0, 0, bytes[0], bytes[1],
    ]
}
