//! What the clauses mean at files whose maps were worked out by hand.
ghost use Rattle.std.specs.Prelude.{◌≡◌, ◌<◌, length, IfOk};

use block_maps::{Gain, Maps, block_count, new_count, place_of, use_at};
use std::alloc::Global;
use std::process::Abort;
use std::test::Fail;

/// The blocks of pages 0 and 23 of a file, of its indirect block, and of its pages 24 and 1,047.
type Told = [Option<u32>; 5];

/// No blocks.
const NONE: Told = [None, None, None, None, None];

/// How many blocks a file has, those that are told, and the pointers to that of page 23 and to the indirect block; then to how many
/// pages it is cut, and the blocks that are told behind that. It has 1, 24, 25 and 1,048 pages.
const CUT: [(u32, Told, [u8; 8], u32, Told); 4] = [
    (1, [Some(300), None, None, None, None], [0; 8], 0, NONE),
    (
        24,
        [Some(300), Some(323), None, None, None],
        [67, 1, 0, 0, 0, 0, 0, 0],
        23,
        [Some(300), None, None, None, None],
    ),
    (
        26,
        [Some(300), Some(323), Some(324), Some(325), None],
        [67, 1, 0, 0, 68, 1, 0, 0],
        24,
        [Some(300), Some(323), None, None, None],
    ),
    (
        1049,
        [Some(300), Some(323), Some(324), Some(325), Some(1348)],
        [67, 1, 0, 0, 68, 1, 0, 0],
        25,
        [Some(300), Some(323), Some(324), Some(325), None],
    ),
];

/// How many blocks a file has, its least pages in a batch, its length at the end and how many new blocks it needs; then the blocks
/// that are told, and how many there are.
const BEHIND: [(u32, u32, u64, usize, Told, usize); 6] = [
    // 24 to 25 pages.
    (
        24,
        24,
        98_305,
        2,
        [Some(300), Some(323), Some(900), Some(901), None],
        26,
    ),
    // 30 to 24 to 30 pages.
    (
        31,
        24,
        122_880,
        7,
        [Some(300), Some(323), Some(900), Some(901), None],
        31,
    ),
    // 30 to 25 pages.
    (
        31,
        25,
        102_400,
        0,
        [Some(300), Some(323), Some(324), Some(325), None],
        26,
    ),
    // 30 to 24 pages.
    (
        31,
        24,
        98_304,
        0,
        [Some(300), Some(323), None, None, None],
        24,
    ),
    // Dropped and made anew with 24 pages.
    (
        31,
        0,
        98_304,
        24,
        [Some(900), Some(923), None, None, None],
        24,
    ),
    // 1 to 1,048 pages.
    (
        1,
        1,
        4_292_608,
        1048,
        [Some(300), Some(922), Some(923), Some(924), Some(1947)],
        1049,
    ),
];

/// Three files, of which file 1 has so many blocks, 300 and on in the order of uses.
fn with_blocks(rt: &impl Abort, alloc: Global, blocks: u32) -> Result<Maps, Fail>
    ensures { IfOk result (λ maps. length maps ≡ 3) }
{
    let mut maps = Maps::new(alloc, 3)?;
    for place in 0..blocks {
        let page = use_at(place as usize);
        assert!(rt; place < 2000);
        assert!(rt; maps.inodes() == 3);
        assert!(rt; place_of(page) <= maps.blocks(1).len());
        maps.set(1, page, 300 + place)?;
    }
    assert!(rt; maps.inodes() == 3);
    Ok(maps)
}

/// What is told of file 1.
fn told(maps: &Maps) -> Told
    requires { 1 < length maps.now }
{
    [
        maps.page(1, Some(0)),
        maps.page(1, Some(23)),
        maps.page(1, None),
        maps.page(1, Some(24)),
        maps.page(1, Some(1047)),
    ]
}

/// Blocks for file 1, 900 and on, from a place in the order of uses on.
fn gains(rt: &impl Abort, alloc: Global, place: usize, count: usize) -> Result<Vec<Gain>, Fail> {
    let mut gained = Vec::new(alloc);
    assert!(rt; place < 2000);
    for more in 0..count {
        assert!(rt; more < 2000);
        gained.push(Gain {
            inode: 1,
            page: use_at(place + more),
            block: 900 + more as u32,
        })?;
    }
    Ok(gained)
}

#[test]
fn the_blocks_of_a_file_are_told_and_cut(rt: HostRuntime) -> Result<(), Fail> {
    for (blocks, before, pointers, pages, behind) in CUT {
        let mut maps = with_blocks(&rt, rt.alloc(), blocks)?;
        assert_eq!(rt; told(&maps), before, "of {blocks}");
        assert_eq!(rt; &maps.pointers(1)[92..], pointers.as_slice());
        maps.set_length(1, 70_000);
        assert!(rt; maps.inodes() == 3);
        maps.cut(1, pages);
        assert!(rt; maps.inodes() == 3);
        assert_eq!(rt; told(&maps), behind, "of {blocks}");
        assert_eq!(rt;
            (maps.length(1), maps.blocks(1).len()),
            (70_000, block_count(pages))
        );
        assert_eq!(rt; (maps.length(2), maps.page(2, Some(0))), (0, None));
        // A block is set anew, or as the first one.
        maps.set(1, Some(0), 70_000)?;
        assert!(rt; maps.inodes() == 3);
        assert_eq!(rt; &maps.pointers(1)[..4], [112, 17, 1, 0].as_slice());
    }
    Ok(())
}

#[test]
fn a_file_keeps_its_first_blocks_and_gets_those_that_it_gained(
    rt: HostRuntime,
) -> Result<(), Fail> {
    for (blocks, least, len, new, behind, count) in BEHIND {
        let mut maps = with_blocks(&rt, rt.alloc(), blocks)?;
        assert!(rt; len <= 4_292_608);
        assert_eq!(rt; new_count(least, len), new);
        let gained = gains(&rt, rt.alloc(), block_count(least), new)?;
        let next = maps.next(rt.alloc(), 1, least, len, &gained)?;
        assert_eq!(rt;
            (maps.length(1), maps.blocks(1).len()),
            (0, blocks as usize)
        );
        maps.install(next);
        assert!(rt; maps.inodes() == 3);
        assert_eq!(rt; told(&maps), behind, "of {blocks}");
        assert_eq!(rt; (maps.length(1), maps.blocks(1).len()), (len, count));
        assert_eq!(rt; (maps.length(2), maps.page(2, Some(0))), (0, None));
    }
    Ok(())
}
