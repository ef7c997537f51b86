//! What the clauses mean at bitmaps that were worked out by hand.
use free_maps::BitMap;
use std::alloc::Global;
use std::process::Abort;
use std::test::Fail;

/// Items 0 to 7 and 9 are used, and item 8 and those from 10 on are free. The last bit is set.
const BYTES: [u8; 3] = [0xff, 0x02, 0x80];

/// What is done with a bitmap, or seen of it.
#[derive(Clone, Copy, Debug, Drop)]
enum Step {
    /// How many items there are.
    Count(u32),
    /// An item, and whether it is used.
    Used(u32, bool),
    /// A place, and the lowest free item from there on.
    Lowest(u32, Option<u32>),
    /// How many items are free.
    Free(u32),
    /// An item is marked as used, or as free.
    Marked(u32, bool),
    /// Its bytes.
    Bytes(&'static [u8]),
}

/// Takes a step, and tells whether it goes as it says.
fn goes(map: &mut BitMap, step: &Step) -> bool {
    match *step {
        Step::Count(count) => map.count() == count,
        Step::Used(place, used) => place < map.count() && map.get(place) == used,
        Step::Lowest(start, lowest) => map.lowest_clear(start) == lowest,
        Step::Free(free) => map.clear_count() == free,
        Step::Marked(place, used) => {
            if map.count() <= place {
                return false;
            }
            map.set(place, used);
            true
        }
        Step::Bytes(bytes) => map.bytes() == bytes,
    }
}

/// Takes steps with a bitmap of so many items in these bytes.
fn run(
    rt: &impl Abort,
    alloc: Global,
    bytes: &[u8],
    count: u32,
    steps: &[Step],
) -> Result<(), Fail> {
    assert!(rt; bytes.len() < 10);
    assert!(rt; count as usize <= 8 * bytes.len());
    let mut map = BitMap::of(alloc, bytes, count)?;
    for step in steps {
        assert!(rt; goes(&mut map, step), "of {count}, at {step:?}");
    }
    Ok(())
}

/// Bits are counted from the lowest.
const COUNTED: [Step; 9] = [
    Step::Count(20),
    Step::Used(0, true),
    Step::Used(7, true),
    Step::Used(8, false),
    Step::Used(9, true),
    Step::Used(10, false),
    Step::Used(15, false),
    Step::Used(16, false),
    Step::Used(19, false),
];

/// The lowest free item from a place on is found.
const LOWEST: [Step; 7] = [
    Step::Lowest(0, Some(8)),
    Step::Lowest(8, Some(8)),
    Step::Lowest(9, Some(10)),
    Step::Lowest(10, Some(10)),
    Step::Lowest(19, Some(19)),
    Step::Lowest(20, None),
    Step::Lowest(4_294_967_295, None),
];

/// Items are marked, and the bits past the last one stay.
const MARKED: [Step; 8] = [
    Step::Count(20),
    Step::Marked(8, true),
    Step::Marked(0, false),
    Step::Marked(19, true),
    Step::Marked(9, true),
    Step::Bytes(&[0xfe, 0x03, 0x88]),
    Step::Lowest(1, Some(10)),
    Step::Free(10),
];

/// Without a free item none is found.
const NONE: [Step; 2] = [Step::Lowest(0, None), Step::Free(0)];

#[test]
fn bitmaps_go_as_the_steps_say(rt: HostRuntime) -> Result<(), Fail> {
    for (bytes, count, steps) in [
        (BYTES.as_slice(), 20, COUNTED.as_slice()),
        (BYTES.as_slice(), 20, LOWEST.as_slice()),
        (BYTES.as_slice(), 20, MARKED.as_slice()),
        ([0xff, 0xff, 0x0f, 0].as_slice(), 20, NONE.as_slice()),
        ([].as_slice(), 0, NONE.as_slice()),
    ] {
        run(&rt, rt.alloc(), bytes, count, steps)?;
    }
    // Free items are counted.
    for (count, free) in [
        (0, 0),
        (8, 0),
        (9, 1),
        (10, 1),
        (20, 11),
        (23, 14),
        (24, 14),
    ] {
        run(&rt, rt.alloc(), &BYTES, count, &[Step::Free(free)])?;
    }
    Ok(())
}
