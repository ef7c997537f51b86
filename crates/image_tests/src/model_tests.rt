//! Volumes that were written by hand, and what the reader of `image_model` says of them.
use super::samples::{
    BLOCK_266, BLOCK_290, BLOCK_BITS, FORMAT, FREE_BLOCKS, FREE_INODES, FRESH, GARBAGE, INDIRECT,
    INODE_BITS, LENGTH, LONG, NUMBER, PAGED, POINTERS, RECORD_1, RECORD_2, RECORD_3, SLOT_2,
    SLOT_3,
};
use super::trials::{Start, Step, run};
use image_model::Check;
use std::test::Fail;

/// Volumes, and what is done with each and seen of it.
const VOLUMES: [(Start, &'static [Step]); 9] = [
    // A fresh volume stands.
    (
        (32, 0, &FRESH),
        &[
            Step::Bare(None, None),
            Step::Bare(Some(0), None),
            Step::Bare(Some(1), Some((Check::Format, 260))),
        ],
    ),
    // What isn't looked at may be anything.
    ((32, 0, &PAGED), &[Step::Model(Some(7), None)]),
    ((32, GARBAGE, &PAGED), &[Step::Model(Some(7), None)]),
    ((32, 0xFF, &PAGED), &[Step::Model(Some(7), None)]),
    // A wrong count and wrong bits behind a ring of two directories in each other: the first check is told, and the lowest
    // inode.
    (
        (32, 0, &PAGED),
        &[
            Step::Put(FREE_BLOCKS, &[9]),
            Step::Put(BLOCK_BITS, &[0]),
            Step::Put(RECORD_3, &[1]),
            Step::Put(SLOT_2, &[3]),
            Step::Model(None, Some((Check::Ring, 265))),
        ],
    ),
    // A gone file passes, but not yet: until files have bytes its length is refused, and then, without bytes, its parent.
    (
        (32, GARBAGE, &PAGED),
        &[
            Step::Put(SLOT_3, &[1, 0, 0, 0, 2, b'#', b'3']),
            Step::Model(Some(7), None),
            Step::Bare(Some(7), Some((Check::Record, 263))),
            Step::Put(RECORD_3 + LENGTH, &[0, 0]),
            Step::Bare(Some(7), Some((Check::Slot, 265))),
        ],
    ),
    // A row has its pages cut at its length. Page 0 is block 266, and page 1 block 267.
    (
        (32, GARBAGE, &PAGED),
        &[
            Step::Put(BLOCK_266, b"first"),
            Step::Put(BLOCK_266 + 4095, b"xy"),
            Step::Bytes(3, 5000, 0, b"first"),
            Step::Bytes(3, 5000, 4095, b"xy"),
            Step::Bytes(3, 5000, 4999, &[GARBAGE]),
        ],
    ),
    // Rows have the inodes of their directories, and a gone file has neither parent nor name.
    (
        (32, GARBAGE, &PAGED),
        &[
            Step::Row(0, Some((None, b""))),
            Step::Row(1, None),
            Step::Row(2, Some((Some(0), b"d"))),
            Step::Row(3, Some((Some(2), b"f"))),
            Step::Row(4, None),
            Step::Row(32, None),
            Step::Put(SLOT_3, &[1, 0, 0, 0, 2, b'#', b'3']),
            Step::Row(3, Some((None, b""))),
        ],
    ),
    // The pointer of page 24 stands in the indirect block 290, and the one to that block in block 263.
    (
        (32, 0, &LONG),
        &[
            Step::Model(None, None),
            Step::Put(BLOCK_290, &[33, 1, 0, 0]),
            Step::Model(None, Some((Check::Pointer, 290))),
            Step::Put(RECORD_2 + INDIRECT, &[33, 1, 0, 0]),
            Step::Model(None, Some((Check::Pointer, 263))),
        ],
    ),
];

#[test]
fn volumes_are_seen_as_the_steps_say(rt: HostRuntime) -> Result<(), Fail> {
    for (start, steps) in &VOLUMES {
        run(&rt, rt.alloc(), start, steps)?;
    }
    Ok(())
}

/// One piece put on the volume of `/d` and `/d/f`, and the check that fails then with its block.
const WRONG: [(usize, &'static [u8], Check, u32); 20] = [
    (NUMBER, &[8], Check::Format, 260),
    (FORMAT, &[2], Check::Format, 260),
    (INODE_BITS, &[13], Check::Root, 263),
    (RECORD_1, &[2], Check::Root, 263),
    (RECORD_3, &[3], Check::Record, 263),
    // 4,292,609 bytes are one too many
    (RECORD_3 + LENGTH, &[1, 0x80, 0x41], Check::Record, 263),
    (SLOT_3 + 4, &[0], Check::Slot, 265),
    (SLOT_3 + 4, &[65], Check::Slot, 265),
    (SLOT_3 + 5, b"/", Check::Slot, 265),
    (SLOT_3, &[4], Check::Slot, 265),
    (SLOT_3, &[32], Check::Slot, 265),
    (SLOT_2, &[1], Check::Slot, 265),
    (SLOT_3, &[0, 0, 0, 0, 1, b'd'], Check::Twin, 265),
    (SLOT_2, &[2], Check::Ring, 265),
    (RECORD_3 + POINTERS, &[9, 1, 0, 0], Check::Pointer, 263),
    (RECORD_3 + POINTERS, &[0, 2, 0, 0], Check::Pointer, 263),
    (RECORD_3 + POINTERS + 4, &[10, 1, 0, 0], Check::Pointer, 263),
    (BLOCK_BITS, &[7], Check::Bits, 261),
    (FREE_BLOCKS, &[243], Check::Counts, 260),
    (FREE_INODES, &[27], Check::Counts, 260),
];

#[test]
fn the_check_that_fails_is_told_with_its_block(rt: HostRuntime) -> Result<(), Fail> {
    for (place, bytes, check, block) in WRONG {
        let steps = [
            Step::Put(place, bytes),
            Step::Model(Some(7), Some((check, block))),
        ];
        run(&rt, rt.alloc(), &(32, GARBAGE, &PAGED), &steps)?;
    }
    Ok(())
}
