//! What no clause says: that calls come through with ample memory, and what the format means at bytes by hand.
ghost use Rattle.std.specs.Prelude.{◌≡◌, ◌≤◌, ◌∷◌, [], length, IfOk};

use ccfs_base::{Bytes, NoMemory};
use gate_journal::reading::{ReadBatches, ReadFault, read_batches};
use gate_journal::writing::write_batch;
use gate_journal::{Batch, LoadFault, Range, Ranges};
use std::alloc::Global;
use std::process::Abort;
use std::test::Fail;

/// The size of the volume, in bytes.
const SIZE: u64 = 10;

/// The batch 5 with the range 7 8 at offset 5.
const FIRST: [u8; 30] = [
    5, 0, 0, 0, 0, 0, 0, 0, 14, 0, 0, 0, 1, 0, 0, 0, 5, 0, 0, 0, 0, 0, 0, 0, 2, 0, 0, 0, 7, 8,
];

/// The batch 6 with the range 9 at offset 0.
const SECOND: [u8; 29] = [
    6, 0, 0, 0, 0, 0, 0, 0, 13, 0, 0, 0, 1, 0, 0, 0, 0, 0, 0, 0, 0, 0, 0, 0, 1, 0, 0, 0, 9,
];

/// What is told where the first batch is followed by one that breaks the format.
const SECOND_BROKEN: ReadFault = ReadFault::Broken {
    batch: 1,
    place: 30,
};

/// The header of a batch with small numbers.
fn header(number: u8, count: u8, records: u8) -> [u8; 16] {
    [
        number, 0, 0, 0, 0, 0, 0, 0, count, 0, 0, 0, records, 0, 0, 0,
    ]
}

/// A batch of one range.
fn one_range(alloc: Global, number: u64, off: u64, bytes: &[u8]) -> Result<Batch, NoMemory>
    ensures { IfOk result (λ batch. batch.ranges ≡ record { off = off; bytes = bytes.now } ∷ []) }
{
    let mut ranges = Ranges::new(alloc);
    ranges.push(Range {
        off,
        bytes: Bytes::of(alloc, bytes)?,
    })?;
    Ok(Batch { number, ranges })
}

/// Reads so many batches from pieces of an area, one behind the other.
fn read(
    rt: &impl Abort,
    alloc: Global,
    pieces: &[&[u8]],
    count: u32,
) -> Result<ReadBatches, ReadFault> {
    let mut area = Bytes::new(alloc);
    for piece in pieces {
        area.append(piece)?;
    }
    assert!(rt; area.len() <= 1000);
    read_batches(alloc, area.all(), count, SIZE)
}

/// What is told of two batches, where the first is whole and these are the pieces of the second.
fn told_behind_first(
    rt: &impl Abort,
    alloc: Global,
    head: &[u8],
    front: &[u8],
    bytes: &[u8],
) -> Option<ReadFault> {
    let pieces = [FIRST.as_slice(), head, front, bytes];
    read(rt, alloc, &pieces, 2).err()
}

/// Whether these are the ranges, each an offset and bytes.
fn are(ranges: &Ranges, expected: &[(u64, &[u8])]) -> bool {
    let same = ranges.all().iter().zip(expected).all(|(range, (off, bytes))| range.off == *off
        && range.bytes.all() == *bytes);
    same && ranges.len() == expected.len()
}

#[test]
fn a_batch_is_its_header_and_its_records_and_is_copied(rt: HostRuntime) -> Result<(), Fail> {
    let first = one_range(rt.alloc(), 5, 5, &[7, 8])?;
    assert_eq!(rt; write_batch(rt.alloc(), &first)?.all(), FIRST.as_slice());
    let second = one_range(rt.alloc(), 6, 0, &[9])?;
    assert_eq!(rt; write_batch(rt.alloc(), &second)?.all(), SECOND.as_slice());
    let mut batch = one_range(rt.alloc(), 5, 3, &[7, 8])?;
    let copy = batch.copy(rt.alloc())?;
    batch.ranges.truncate(0);
    assert!(rt; are(&batch.ranges, &[]));
    assert_eq!(rt; copy.number, 5);
    assert!(rt; are(&copy.ranges, &[(3, &[7, 8])]));
    Ok(())
}

/// Whole batches: the pieces of an area, how many batches are read, their ranges, how many bytes they take, and the number
/// of the last.
type Whole = (
    &'static [&'static [u8]],
    u32,
    &'static [(u64, &'static [u8])],
    u32,
    Option<u64>,
);

/// Two batches leave what follows them; a batch without records takes 16 bytes, and no batch takes none; number 0 follows
/// the last of all numbers.
const WHOLE: [Whole; 4] = [
    (
        &[&FIRST, &SECOND, &[1, 2, 3]],
        2,
        &[(5, &[7, 8]), (0, &[9])],
        59,
        Some(6),
    ),
    (&[&[9], &[0; 15]], 1, &[], 16, Some(9)),
    (&[], 0, &[], 0, None),
    (&[&[255; 8], &[0; 24]], 2, &[], 32, Some(0)),
];

#[test]
fn whole_batches_are_read_up_to_their_end(rt: HostRuntime) -> Result<(), Fail> {
    for (pieces, count, ranges, used, last) in WHOLE {
        let read = read(&rt, rt.alloc(), pieces, count).map_err(|_| "unread")?;
        assert!(rt; are(&read.ranges, ranges), "{last:?}");
        assert_eq!(rt; (read.used, read.last), (used, last));
    }
    Ok(())
}

/// A second batch that breaks the format: how many bytes and records its header names, the front of a record, and its bytes.
type Broken = (&'static str, u8, u8, [u8; 12], &'static [u8]);

/// Each way to break the format in the records.
const BROKEN: [Broken; 11] = [
    (
        "a count past the end",
        14,
        1,
        [5, 0, 0, 0, 0, 0, 0, 0, 2, 0, 0, 0],
        b"a",
    ),
    (
        "bytes behind the records",
        15,
        1,
        [5, 0, 0, 0, 0, 0, 0, 0, 2, 0, 0, 0],
        b"abc",
    ),
    (
        "bytes without a record",
        12,
        0,
        [5, 0, 0, 0, 0, 0, 0, 0, 1, 0, 0, 0],
        b"",
    ),
    (
        "records without bytes",
        0,
        255,
        [5, 0, 0, 0, 0, 0, 0, 0, 1, 0, 0, 0],
        b"a",
    ),
    (
        "half of a record's front",
        6,
        1,
        [5, 0, 0, 0, 0, 0, 0, 0, 1, 0, 0, 0],
        b"a",
    ),
    (
        "a record cut short",
        13,
        1,
        [5, 0, 0, 0, 0, 0, 0, 0, 2, 0, 0, 0],
        b"ab",
    ),
    (
        "one record for two",
        13,
        2,
        [5, 0, 0, 0, 0, 0, 0, 0, 1, 0, 0, 0],
        b"a",
    ),
    (
        "a range without bytes",
        12,
        1,
        [5, 0, 0, 0, 0, 0, 0, 0, 0, 0, 0, 0],
        b"",
    ),
    (
        "a range past the end",
        14,
        1,
        [9, 0, 0, 0, 0, 0, 0, 0, 2, 0, 0, 0],
        b"ab",
    ),
    (
        "the greatest offset",
        13,
        1,
        [255, 255, 255, 255, 255, 255, 255, 255, 1, 0, 0, 0],
        b"a",
    ),
    (
        "the greatest length",
        13,
        1,
        [5, 0, 0, 0, 0, 0, 0, 0, 255, 255, 255, 255],
        b"a",
    ),
];

/// A second batch's bytes, of which the header is cut short or has a number out of row.
const BAD_HEADERS: [(&str, &[u8]); 3] = [
    (
        "a header cut short",
        &[6, 0, 0, 0, 0, 0, 0, 0, 0, 0, 0, 0, 0, 0, 0],
    ),
    (
        "5 behind 5",
        &[5, 0, 0, 0, 0, 0, 0, 0, 0, 0, 0, 0, 0, 0, 0, 0],
    ),
    (
        "7 behind 5",
        &[7, 0, 0, 0, 0, 0, 0, 0, 0, 0, 0, 0, 0, 0, 0, 0],
    ),
];

#[test]
fn the_first_broken_batch_is_told_with_its_place(rt: HostRuntime) {
    for (what, count, records, front, bytes) in BROKEN {
        let head = header(6, count, records);
        let told = told_behind_first(&rt, rt.alloc(), &head, &front, bytes);
        assert_eq!(rt; told, Some(SECOND_BROKEN), "{what}");
    }
    for (what, head) in BAD_HEADERS {
        let told = told_behind_first(&rt, rt.alloc(), head, &[], &[]);
        assert_eq!(rt; told, Some(SECOND_BROKEN), "{what}");
    }
    let broken = header(5, 0, 1);
    let told = read(&rt, rt.alloc(), &[&broken, &broken], 2).err();
    assert_eq!(rt; told, Some(ReadFault::Broken { batch: 0, place: 0 }));
}

#[test]
fn a_bad_journal_is_told_with_its_batch_half_and_block(rt: HostRuntime) -> Result<(), Fail> {
    let fault = LoadFault::BadJournal {
        half: 1,
        batch: 3,
        block: 140,
    };
    let text = format!(in rt.alloc(); "{fault}")?;
    assert_eq!(rt;
        text.as_str(),
        "batch 3 of half 1 breaks the format, in block 140"
    );
    Ok(())
}
