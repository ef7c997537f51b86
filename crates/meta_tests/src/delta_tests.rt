//! What the clauses of records and of the log of raises and flips mean at examples that were worked out by hand, and that a caller
//! who made room needs no memory.
ghost use Rattle.std.specs.Prelude.{◌≡◌, ◌<◌, true};
ghost use Rattle.ccfs_base.specs.Places.{IsInside};
ghost use Rattle.ccfs_base.specs.Records.{acts_at};

use ccfs_base::{Bytes, Rec};
use delta_log::{DeltaLog, apply_rec};
use std::alloc::Global;
use std::process::Abort;
use std::test::Fail;

/// What is done with the log, or seen of it. A stream comes first, and then a place.
#[derive(Debug, Drop)]
enum Step {
    /// A counter is raised by a number.
    Add(u8, u64, i64),
    /// A bit is set or cleared.
    Bit(u8, u64, u8, bool),
    /// A counter is raised as the first call of the room. It takes no memory.
    AddFirst(u8, u64, i64),
    /// A bit is set or cleared as the first call of the room. It takes no memory.
    BitFirst(u8, u64, u8, bool),
    /// Room is made for a raise.
    AddRoom(u8, u64, i64),
    /// Room is made for a flip.
    BitRoom(u8, u64, u8, bool),
    /// The room is emptied.
    Cleared,
    /// The first call of the room isn't this raise.
    Lost(u8, u64, i64),
    /// How many records a stream has.
    Count(u8, usize),
    /// How many records of a stream are handed out.
    Handed(u8, usize),
    /// Streams whose records are handed out in this order, bytes, and what the records make of them.
    Taken(&'static [u8], &'static [u8], &'static [u8]),
}

/// Whether the record lies in so many bytes.
fn lies_in(size: usize, rec: &Rec) -> bool
    ensures { result ≡ true → IsInside size (acts_at rec.now) }
{
    let size = size as u64;
    match rec {
        Rec::Range { off, bytes } => *off <= size && bytes.len() as u64 <= size - *off,
        Rec::Add { off, .. } => *off <= size && 8 <= size - *off,
        Rec::Bit { off, bit, .. } => *off < size && *bit < 8,
    }
}

/// Puts the records that lie in the bytes on them.
fn put_on(bytes: &mut [u8], log: &[Rec]) {
    for rec in log {
        if lies_in(bytes.len(), rec) {
            apply_rec(bytes, rec);
        }
    }
}

/// Raises a counter as the first call of the room, which can't fail. False where the call isn't the first.
fn is_added_first(log: &mut DeltaLog, stream: u8, off: u64, by: i64) -> bool {
    if stream >= 64 || !log.is_first_add(stream, off, by) {
        return false;
    }
    log.add(stream, off, by).unwrap();
    true
}

/// Sets or clears a bit as the first call of the room, which can't fail. False where the call isn't the first.
fn is_flipped_first(log: &mut DeltaLog, stream: u8, off: u64, bit: u8, on: bool) -> bool {
    if stream >= 64 || !log.is_first_bit(stream, off, bit, on) {
        return false;
    }
    log.bit(stream, off, bit, on).unwrap();
    true
}

/// Whether the records of the streams, handed out in this order, make the one bytes of the others.
fn makes(
    alloc: Global,
    log: &mut DeltaLog,
    streams: &[u8],
    before: &[u8],
    after: &[u8],
) -> Result<bool, Fail> {
    let mut bytes = Vec::from_slice(alloc, before)?;
    for stream in streams {
        if *stream >= 64 {
            return Ok(false);
        }
        put_on(&mut bytes, &log.take(*stream));
    }
    Ok(bytes.as_slice() == after)
}

/// Takes a step, and tells whether it goes as it says.
fn goes(alloc: Global, log: &mut DeltaLog, step: &Step) -> Result<bool, Fail> {
    match *step {
        Step::Add(stream, off, by) if stream < 64 => log.add(stream, off, by)?,
        Step::Bit(stream, off, bit, on) if stream < 64 => log.bit(stream, off, bit, on)?,
        Step::AddFirst(stream, off, by) => return Ok(is_added_first(log, stream, off, by)),
        Step::BitFirst(stream, off, bit, on) => {
            return Ok(is_flipped_first(log, stream, off, bit, on));
        }
        Step::AddRoom(stream, off, by) if stream < 64 => log.add_room(stream, off, by)?,
        Step::BitRoom(stream, off, bit, on) if stream < 64 => log.bit_room(stream, off, bit, on)?,
        Step::Cleared => log.clear_room(),
        Step::Lost(stream, off, by) => return Ok(!log.is_first_add(stream, off, by)),
        Step::Count(stream, want) => return Ok(stream < 64 && log.count(stream) == want),
        Step::Handed(stream, want) => return Ok(stream < 64 && log.take(stream).len() == want),
        Step::Taken(streams, before, after) => return makes(alloc, log, streams, before, after),
        _ => return Ok(false),
    }
    Ok(true)
}

/// Takes steps.
fn take(rt: &impl Abort, alloc: Global, log: &mut DeltaLog, steps: &[Step]) -> Result<(), Fail> {
    for step in steps {
        assert!(rt; goes(alloc, log, step)?, "at {step:?}");
    }
    Ok(())
}

/// Takes steps from no records on.
fn run(rt: &impl Abort, alloc: Global, start: &[Step], steps: &[Step]) -> Result<(), Fail> {
    let mut log = DeltaLog::new(alloc);
    take(rt, alloc, &mut log, start)?;
    take(rt, alloc, &mut log, steps)
}

#[test]
fn a_range_is_put_where_it_says(rt: HostRuntime) -> Result<(), Fail> {
    let mut bytes = [5, 6, 7, 8];
    let new = Bytes::of(rt.alloc(), &[1, 2])?;
    put_on(&mut bytes, &[Rec::Range { off: 1, bytes: new }]);
    assert_eq!(rt; bytes, [5, 1, 2, 8]);
    Ok(())
}

#[test]
fn a_flip_sets_or_clears_and_does_not_toggle(rt: HostRuntime) {
    let mut bytes = [0b0001_0000, 0b0001_0000];
    let set = Rec::Bit {
        off: 0,
        bit: 4,
        on: true,
    };
    let clear = Rec::Bit {
        off: 1,
        bit: 4,
        on: false,
    };
    put_on(&mut bytes, &[set, clear]);
    assert_eq!(rt; bytes, [0b0001_0000, 0]);
}

/// A raise wraps both ways.
const WRAPPED: [Step; 6] = [
    Step::Add(0, 1, 2),
    Step::Add(63, 1, -1),
    Step::Count(0, 1),
    Step::Taken(
        &[0],
        &[7, 255, 255, 255, 255, 255, 255, 255, 255, 7],
        &[7, 1, 0, 0, 0, 0, 0, 0, 0, 7],
    ),
    Step::Count(0, 0),
    Step::Taken(
        &[63],
        &[7, 0, 0, 0, 0, 0, 0, 0, 0, 7],
        &[7, 255, 255, 255, 255, 255, 255, 255, 255, 7],
    ),
];

/// Eight streams of which each has a bit of byte 1 of its own: stream 0 sets bit 0, stream 1 clears bit 1, and so on.
const EIGHT: [Step; 8] = [
    Step::Bit(0, 1, 0, true),
    Step::Bit(1, 1, 1, false),
    Step::Bit(2, 1, 2, true),
    Step::Bit(3, 1, 3, false),
    Step::Bit(4, 1, 4, true),
    Step::Bit(5, 1, 5, false),
    Step::Bit(6, 1, 6, true),
    Step::Bit(7, 1, 7, false),
];

/// The flips of the eight streams, the lowest stream first.
const UP: [Step; 1] = [Step::Taken(
    &[0, 1, 2, 3, 4, 5, 6, 7],
    &[0, 0xf0, 0xff],
    &[0, 0x55, 0xff],
)];

/// The same, the highest stream first.
const DOWN: [Step; 1] = [Step::Taken(
    &[7, 6, 5, 4, 3, 2, 1, 0],
    &[0, 0x0f, 0xff],
    &[0, 0x55, 0xff],
)];

/// A hand out leaves the room.
const HANDED_OUT: [Step; 4] = [
    Step::AddRoom(3, 0, 5),
    Step::Handed(3, 0),
    Step::AddFirst(3, 0, 5),
    Step::Taken(&[3], &[0; 8], &[5, 0, 0, 0, 0, 0, 0, 0]),
];

/// Calls of the room, a raise and a flip, are logged as others. Once there is room for both, no memory is wanted.
const LOGGED: [Step; 9] = [
    Step::Cleared,
    Step::AddRoom(3, 8, -1),
    Step::BitRoom(4, 0, 7, true),
    Step::AddFirst(3, 8, -1),
    Step::BitFirst(4, 0, 7, true),
    Step::Bit(4, 1, 0, true),
    Step::Count(3, 1),
    Step::Count(4, 2),
    Step::Taken(
        &[3, 4],
        &[0; 16],
        &[
            128, 1, 0, 0, 0, 0, 0, 0, 255, 255, 255, 255, 255, 255, 255, 255,
        ],
    ),
];

/// A call that is not the first of the room loses it: room is made for two raises, of which one is logged, and then another.
const LOST: [Step; 9] = [
    Step::Cleared,
    Step::AddRoom(0, 0, 1),
    Step::AddRoom(0, 0, 1),
    Step::Add(0, 0, 1),
    Step::Add(0, 0, 2),
    Step::Lost(0, 0, 1),
    Step::Add(0, 0, 1),
    Step::Count(0, 3),
    Step::Taken(&[0], &[0; 8], &[4, 0, 0, 0, 0, 0, 0, 0]),
];

#[test]
fn raises_and_flips_go_as_the_steps_say(rt: HostRuntime) -> Result<(), Fail> {
    for (start, steps) in [
        ([].as_slice(), WRAPPED.as_slice()),
        (EIGHT.as_slice(), UP.as_slice()),
        (EIGHT.as_slice(), DOWN.as_slice()),
        ([].as_slice(), HANDED_OUT.as_slice()),
        ([].as_slice(), LOGGED.as_slice()),
        ([].as_slice(), LOST.as_slice()),
    ] {
        run(&rt, rt.alloc(), start, steps)?;
    }
    Ok(())
}
