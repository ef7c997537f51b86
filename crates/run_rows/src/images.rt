//! Images that hold no tree, and images of either half.
use super::calls::{fresh, print, run, spoilt};
use ccfs_base::MemSink;
use disk_model::MemDisk;
use std::alloc::Global;
use std::test::Fail;

/// Where the volume begins, in bytes from the start of the image.
const VOLUME: u64 = 260 * 4096;

/// Bytes of a fresh image that are changed, and the line by which it is told.
type Spoilt = (&'static [(u64, u8)], &'static [u8]);

const SPOILT: &[Spoilt] = &[
    (&[(0, 0)], b"bad image Super block 0\n"),
    // A batch that is open has a record with no bytes; and one of half 1 where that half is active.
    (
        &[(2 * 4096, 0xA5), (4 * 4096 + 8, 1)],
        b"bad image Journal block 4\n",
    ),
    (
        &[(4096, 0xA5), (3 * 4096, 0xA5), (132 * 4096 + 8, 1)],
        b"bad image Journal block 132\n",
    ),
    // The format, though the fixed inodes aren't used either.
    (
        &[(VOLUME + 24, 2), (VOLUME + 8192, 0)],
        b"bad image Format block 260\n",
    ),
    // The orphan directory isn't used; and the root has no kind.
    (
        &[(VOLUME + 8192, 1), (VOLUME + 16, 31)],
        b"bad image Root block 263\n",
    ),
    (&[(VOLUME + 12288, 9)], b"bad image Root block 263\n"),
    // A used inode without a kind; and a data block that no file has.
    (
        &[(VOLUME + 8192, 7), (VOLUME + 16, 29)],
        b"bad image Record block 263\n",
    ),
    (
        &[(VOLUME + 4096, 1), (VOLUME + 8, 245)],
        b"bad image Bits block 261\n",
    ),
    // The count of free blocks, and that of free inodes.
    (&[(VOLUME + 8, 245)], b"bad image Counts block 260\n"),
    (&[(VOLUME + 16, 29)], b"bad image Counts block 260\n"),
];

const FIRST: &[u8] = b"0 mkdir /a\n0 create /a/f\n0 streamsync\n";

/// The test fails where `tree` and `run` on a disk don't both tell a bad image by this line.
fn is_told(alloc: Global, disk: MemDisk, line: &[u8]) -> Result<(), Fail> {
    let (status, printed) = print(alloc, disk.image(alloc, 0)?)?;
    let mut out = MemSink::new(alloc, None);
    let ended = run(alloc, disk, FIRST, &mut out)?;
    if (status, ended.status) != (8, 8) || printed.held() != line || out.held() != line {
        return Err("the image is told otherwise".into());
    }
    if ended.disk.written() != 0 {
        return Err("the image was written".into());
    }
    Ok(())
}

const FRESH_TREE: &[u8] = b"batches 0\ndir / entries 0 changes 0\n";

const FIRST_TREE: &[u8] =
    b"batches 1\ndir / entries 1 changes 1\ndir /a entries 1 changes 1\nfile /a/f length 0 data -\n";

/// Changes of the image that the first script leaves, whose active half is half 1, and the tree that is printed then.
const EITHER: &[Spoilt] = &[
    (&[], FIRST_TREE),
    // The batch's gate isn't open.
    (&[(3 * 4096, 0x7F)], FRESH_TREE),
    // Half 0 is active, and has no batch.
    (&[(4096, 0x01)], FRESH_TREE),
    // A broken batch in the half that isn't active isn't looked at.
    (&[(2 * 4096, 0xA5), (4 * 4096 + 8, 1)], FIRST_TREE),
    (&[(4096, 0x01), (132 * 4096 + 8, 0xFF)], FRESH_TREE),
];

/// The test fails where `tree`, or `run` with an empty script, don't print this tree.
fn prints(alloc: Global, disk: MemDisk, tree: &[u8]) -> Result<(), Fail> {
    let (status, printed) = print(alloc, disk.image(alloc, 0)?)?;
    let mut out = MemSink::new(alloc, None);
    let ended = run(alloc, disk, b"", &mut out)?;
    if (status, ended.status) != (0, 0) || printed.held() != tree || out.held() != tree {
        return Err("another tree is printed".into());
    }
    Ok(())
}

#[test]
fn images_are_told_by_their_first_failing_check(rt: HostRuntime) -> Result<(), Fail> {
    let alloc = rt.alloc();
    is_told(
        alloc,
        MemDisk::new(alloc, 100)?,
        b"bad image Size block 0\n",
    )?;
    for (places, line) in SPOILT {
        is_told(alloc, spoilt(alloc, fresh(alloc)?, places)?, line)?;
    }
    // An image that was just made opens with either half active.
    prints(
        alloc,
        spoilt(alloc, fresh(alloc)?, &[(4096, 0xA5)])?,
        FRESH_TREE,
    )?;
    let mut out = MemSink::new(alloc, None);
    let first = run(alloc, fresh(alloc)?, FIRST, &mut out)?.disk;
    for (places, tree) in EITHER {
        prints(alloc, spoilt(alloc, first.image(alloc, 0)?, places)?, tree)?;
    }
    let broken: &[(u64, u8)] = &[
        (132 * 4096 + 8, 0xFF),
        (132 * 4096 + 9, 0xFF),
        (132 * 4096 + 10, 0xFF),
        (132 * 4096 + 11, 0xFF),
    ];
    is_told(
        alloc,
        spoilt(alloc, first.image(alloc, 0)?, broken)?,
        b"bad image Journal block 132\n",
    )
}
