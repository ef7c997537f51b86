//! What the clauses mean at batches whose blocks were worked out by hand.
ghost use Rattle.std.specs.Prelude.{◌≡◌, ◌<◌, true, length, All};
ghost use Rattle.block_maps.specs.Maps.{file_at, IsWhole};
ghost use Rattle.late_alloc.specs.Lengths.{IsWithin};

use block_maps::{Gain, Maps, Plan, block_count, new_count, pages, use_at};
use ccfs_base::{Bytes, FILE_MAX, Recs};
use file_bodies::{BodyOp, BodyOps, Sealed};
use free_maps::BitMap;
use late_alloc::{PlanFault, inode_of, plan};
use reuse_hold::Held;
use std::alloc::Global;
use std::process::Abort;
use std::test::Fail;

/// The first data block.
const FIRST: u32 = 300;

/// Of 48 data blocks the first 31 are used and block 333, and the others are free.
const BITS: [u8; 6] = [0xff, 0xff, 0xff, 0x7f, 0x02, 0];

/// What an operation does to file 1. A put has two bytes.
#[derive(Clone, Copy)]
enum Step {
    Put(u64),
    Grow(u64),
    Shrink(u64),
    Drop,
}

/// The length of file 1 in bytes, the operations of a batch, the new blocks with the pages that they are for, and the blocks that it
/// gives up.
const PLANS: [(
    u64,
    &'static [Step],
    &'static [(Option<u32>, u32)],
    &'static [u32],
); 7] = [
    // 24 to 25 pages.
    (
        98_304,
        &[Step::Grow(98_305)],
        &[(None, 331), (Some(24), 334)],
        &[],
    ),
    // 30 to 24 to 30 pages.
    (
        122_880,
        &[Step::Shrink(98_304), Step::Grow(122_880)],
        &[
            (None, 331),
            (Some(24), 334),
            (Some(25), 335),
            (Some(26), 336),
            (Some(27), 337),
            (Some(28), 338),
            (Some(29), 339),
        ],
        &[324, 325, 326, 327, 328, 329, 330],
    ),
    // 30 to 25 pages.
    (
        122_880,
        &[Step::Grow(7), Step::Shrink(102_400)],
        &[],
        &[326, 327, 328, 329, 330],
    ),
    // Dropped and made anew with two pages.
    (
        9000,
        &[Step::Drop, Step::Put(5000)],
        &[(Some(0), 331), (Some(1), 334)],
        &[300, 301, 302],
    ),
    // A gap over a page.
    (
        4096,
        &[Step::Put(8191)],
        &[(Some(1), 331), (Some(2), 334)],
        &[],
    ),
    // A page that comes and goes.
    (4096, &[Step::Grow(8192), Step::Shrink(4000)], &[], &[]),
    // A shrink and a grow inside a kept page.
    (4096, &[Step::Shrink(1), Step::Grow(4000)], &[], &[]),
];

/// Two files, of which file 1 has so many bytes, and blocks from 300 on in the order of uses.
fn with_bytes(rt: &impl Abort, alloc: Global, len: u64) -> Result<Maps, Fail> {
    let mut maps = Maps::new(alloc, 2)?;
    assert!(rt; len <= FILE_MAX);
    let mut gained = Vec::new(alloc);
    for place in 0..new_count(0, len) {
        assert!(rt; place < 2000);
        gained.push(Gain {
            inode: 1,
            page: use_at(place),
            block: FIRST + place as u32,
        })?;
    }
    let next = maps.next(alloc, 1, 0, len, &gained)?;
    maps.install(next);
    Ok(maps)
}

/// A batch of these operations.
fn batch_of(alloc: Global, steps: &[Step]) -> Result<Sealed, Fail> {
    let mut ops = BodyOps::new(alloc);
    for step in steps {
        ops.push(match *step {
            Step::Put(off) => BodyOp::Put {
                inode: 1,
                off,
                bytes: Bytes::of(alloc, b"ab")?,
            },
            Step::Grow(len) => BodyOp::Grow { inode: 1, len },
            Step::Shrink(len) => BodyOp::Shrink { inode: 1, len },
            Step::Drop => BodyOp::Drop { inode: 1 },
        })?;
    }
    Ok(Sealed {
        stream: 0,
        number: 1,
        weight: 512,
        recs: Recs::new(alloc),
        ops,
    })
}

/// Whether a file has just the blocks that its length takes.
fn is_whole(maps: &Maps, inode: u32) -> bool
    requires { inode < length maps.now }
    ensures { result ≡ true → IsWhole (file_at maps.now inode) }
{
    let len = maps.length(inode);
    len <= FILE_MAX && maps.blocks(inode).len() == block_count(pages(len))
}

/// Whether there are two files, and both are whole.
#[tactic(auto, using(late_alloc::proofs::Trying::two_whole))]
fn are_whole(maps: &Maps) -> bool
    ensures { result ≡ true → All IsWhole maps.now }
{
    maps.inodes() == 2 && is_whole(maps, 0) && is_whole(maps, 1)
}

/// Whether each operation is on one of so many inodes, and reaches no further than the greatest file.
fn are_within(ops: &[BodyOp], inodes: u32) -> bool
    ensures { result ≡ true → All (IsWithin inodes) ops.now }
{
    for op in ops {
        if !is_within(op, inodes) {
            return false;
        }
    }
    true
}

/// Whether an operation is on one of so many inodes, and reaches no further than the greatest file.
fn is_within(op: &BodyOp, inodes: u32) -> bool
    ensures { result ≡ true → IsWithin inodes op.now }
{
    let reach = match op {
        BodyOp::Put { off, bytes, .. } => off.saturating_add(bytes.len() as u64),
        BodyOp::Grow { len, .. } => *len,
        BodyOp::Shrink { .. } | BodyOp::Drop { .. } => 0,
    };
    inode_of(op) < inodes && reach <= FILE_MAX
}

/// What is chosen for operations on file 1 that has so many bytes, from so many data blocks, of which block 332 is held.
fn planned(
    rt: &impl Abort,
    alloc: Global,
    len: u64,
    steps: &[Step],
    count: u32,
) -> Result<Result<Plan, PlanFault>, Fail> {
    let maps = with_bytes(rt, alloc, len)?;
    let batch = batch_of(alloc, steps)?;
    assert!(rt; count <= 48);
    let free = BitMap::of(alloc, &BITS, count)?;
    let mut held = Held::new(alloc, FIRST + 48)?;
    held.hold(FIRST + 32);
    assert!(rt; maps.inodes() == 2);
    assert!(rt; are_whole(&maps));
    assert!(rt; are_within(batch.ops.all(), 2));
    Ok(plan(alloc, &maps, &free, &held, FIRST, &batch))
}

#[test]
fn the_lowest_blocks_go_to_the_uses_in_their_order(rt: HostRuntime) -> Result<(), Fail> {
    for (len, steps, gained, given) in &PLANS {
        let plan = planned(&rt, rt.alloc(), *len, steps, 48)?.map_err(|_| "no plan")?;
        assert_eq!(rt; plan.gained.len(), gained.len(), "at {len}");
        for (gain, (page, block)) in plan.gained.iter().zip(gained.iter()) {
            assert_eq!(rt;
                (gain.inode, gain.page, gain.block),
                (1, *page, *block),
                "at {len}"
            );
        }
        assert_eq!(rt; plan.given.as_slice(), *given, "at {len}");
    }
    // Seven blocks are needed, and six stand, or just seven.
    let steps = [Step::Shrink(98_304), Step::Grow(122_880)];
    for (count, short) in [
        (39, Some(PlanFault::Short { need: 7, free: 6 })),
        (40, None),
    ] {
        let plan = planned(&rt, rt.alloc(), 122_880, &steps, count)?;
        assert_eq!(rt; plan.err(), short, "of {count}");
    }
    Ok(())
}
