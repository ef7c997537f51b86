//! Volumes that were written by hand, and what `image_check` finds wrong with them or the trees that they stand for.
use super::samples::{
    BLOCK_BITS, DEEP, DEEP_SLOTS, EMPTY, FORMAT, FREE_BLOCKS, FREE_INODES, FRESH, GARBAGE,
    INODE_BITS, LENGTH, MIXED, NUMBER, RECORD_0, RECORD_1, RECORD_3, RECORD_4, SLOT_2, SLOT_3,
    SLOT_4, SLOT_5, SMALL,
};
use super::trials::{Start, Step, run};
use image_check::BadKind;
use std::test::Fail;

/// What the checker says of a volume whose batch number is 7 and that passes all other checks.
const LAST: &'static [Step] = &[
    Step::Checked(None, None),
    Step::Checked(Some(7), None),
    Step::Checked(Some(6), Some((BadKind::Format, 260))),
];

/// Volumes, and what is done with each and seen of it.
const VOLUMES: [(Start, &'static [Step]); 10] = [
    // What isn't looked at may be anything.
    ((32, 0, &EMPTY), LAST),
    ((32, GARBAGE, &EMPTY), LAST),
    ((32, 0xFF, &EMPTY), LAST),
    // One name in two directories is no twin.
    (
        (32, GARBAGE, &EMPTY),
        &[
            Step::Put(SLOT_3, &[0, 0, 0, 0, 1, b'g']),
            Step::Checked(None, None),
        ],
    ),
    // A wrong count and a wrong bit behind a ring: the directory `d` stands in the directory `f`, and that in `d`.
    (
        (32, GARBAGE, &EMPTY),
        &[
            Step::Put(FREE_BLOCKS, &[9]),
            Step::Put(BLOCK_BITS, &[1]),
            Step::Put(RECORD_3, &[1]),
            Step::Put(SLOT_2, &[3]),
            Step::Checked(None, Some((BadKind::Ring, 265))),
        ],
    ),
    // A fresh volume is the root alone.
    (
        (32, 0, &FRESH),
        &[Step::Stands(Some(0), 0, 1, &[(0, 0, None, b"", Some(0))])],
    ),
    // A file in a directory is told with its number.
    (
        (32, 0, &SMALL),
        &[Step::Stands(
            Some(3),
            3,
            3,
            &[
                (0, 0, None, b"", Some(1)),
                (1, 2, Some(0), b"a", Some(258)),
                (2, 3, Some(1), b"f", None),
            ],
        )],
    ),
    // Serials go by names and not by inodes.
    (
        (32, 0, &MIXED),
        &[
            Step::Stands(
                None,
                0,
                4,
                &[
                    (0, 0, None, b"", Some(2)),
                    (1, 3, Some(0), b"a", Some(1)),
                    (2, 5, Some(1), b"f", None),
                    (3, 2, Some(0), b"b", Some(0)),
                ],
            ),
            // Inode 4 isn't used: it is no directory for `f`. The slot of inode 5 is in block 265.
            Step::Put(SLOT_5, &[4]),
            Step::Checked(None, Some((BadKind::Slot, 265))),
        ],
    ),
    // A chain of 500 directories is listed to its end.
    (
        (512, 0, &DEEP),
        &[
            Step::Chain,
            Step::Stands(
                None,
                0,
                501,
                &[
                    (1, 2, Some(0), b"d", Some(0)),
                    (500, 501, Some(499), b"d", Some(0)),
                ],
            ),
        ],
    ),
    // It is no ring until it is closed. Then inodes 300 to 400 are a ring, and the others from 401 on stand below it.
    (
        (512, 0, &DEEP),
        &[
            Step::Chain,
            Step::Checked(None, None),
            Step::Put(DEEP_SLOTS + 128 * 300, &[0x90, 1, 0, 0, 1, b'e']),
            Step::Checked(None, Some((BadKind::Ring, 304))),
            Step::Put(DEEP_SLOTS + 128 * 2, &[0xF5, 1, 0, 0, 1, b'd']),
            Step::Checked(None, Some((BadKind::Ring, 295))),
            // A record that is none comes first: that of inode 501 is in block 294.
            Step::Put(RECORD_0 + 256 * 501, &[0]),
            Step::Checked(None, Some((BadKind::Record, 294))),
        ],
    ),
];

#[test]
fn volumes_are_checked_as_the_steps_say(rt: HostRuntime) -> Result<(), Fail> {
    for (start, steps) in &VOLUMES {
        run(&rt, rt.alloc(), start, steps)?;
    }
    Ok(())
}

/// One piece put on the volume of `/d`, `/d/f` and `/d/g`, and the check that fails then with its block.
const WRONG: [(usize, &'static [u8], BadKind, u32); 23] = [
    (NUMBER, &[8], BadKind::Format, 260),
    (FORMAT, &[2], BadKind::Format, 260),
    (INODE_BITS, &[30], BadKind::Root, 263),
    (INODE_BITS, &[29], BadKind::Root, 263),
    (RECORD_1, &[2], BadKind::Root, 263),
    (RECORD_4, &[3], BadKind::Record, 263),
    (RECORD_3 + LENGTH, &[1], BadKind::Record, 263),
    (SLOT_3 + 4, &[0], BadKind::Slot, 265),
    (SLOT_3 + 4, &[65], BadKind::Slot, 265),
    (SLOT_3 + 5, b"/", BadKind::Slot, 265),
    (SLOT_3, &[5], BadKind::Slot, 265),
    (SLOT_3, &[32], BadKind::Slot, 265),
    (SLOT_3, &[4], BadKind::Slot, 265),
    (SLOT_2, &[1], BadKind::Slot, 265),
    (SLOT_4, &[1], BadKind::Slot, 265),
    (SLOT_3 + 5, b"g", BadKind::Twin, 265),
    (SLOT_3, &[0, 0, 0, 0, 1, b'd'], BadKind::Twin, 265),
    (SLOT_2, &[2], BadKind::Ring, 265),
    (BLOCK_BITS, &[1], BadKind::Bits, 261),
    (BLOCK_BITS + 30, &[0x20], BadKind::Bits, 261),
    (FREE_BLOCKS, &[245], BadKind::Counts, 260),
    (FREE_INODES, &[29], BadKind::Counts, 260),
    (FREE_INODES + 1, &[1], BadKind::Counts, 260),
];

#[test]
fn the_check_that_fails_is_told_with_its_block(rt: HostRuntime) -> Result<(), Fail> {
    for (place, bytes, kind, block) in WRONG {
        let steps = [
            Step::Put(place, bytes),
            Step::Checked(Some(7), Some((kind, block))),
        ];
        run(&rt, rt.alloc(), &(32, GARBAGE, &EMPTY), &steps)?;
    }
    Ok(())
}

#[test]
fn kinds_have_their_words(rt: HostRuntime) {
    for (kind, name) in [
        (BadKind::Size, b"Size".as_slice()),
        (BadKind::Super, b"Super".as_slice()),
        (BadKind::Journal, b"Journal".as_slice()),
        (BadKind::Twin, b"Twin".as_slice()),
        (BadKind::Counts, b"Counts".as_slice()),
    ] {
        assert_eq!(rt; kind.name(), name);
    }
}
