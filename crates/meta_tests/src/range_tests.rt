//! What no clause says of the log of ranges: that calls come through with ample memory, and what the clauses mean at examples.
ghost use Rattle.std.specs.Prelude.{◌<◌};

use ccfs_base::Rec;
use range_log::RangeLog;
use std::alloc::Global;
use std::process::Abort;
use std::test::Fail;

/// Some bytes.
type Text = &'static [u8];

/// What is done with the log, or seen of it. A stream comes first, and then a place.
#[derive(Debug, Drop)]
enum Step {
    /// Bytes are put that are clear of the other streams' ranges.
    Put(u8, u64, Text),
    /// The same as the first call of the room. It takes no memory.
    PutFirst(u8, u64, Text),
    /// Room is made for a put.
    Room(u8, u64, Text),
    /// The room is emptied.
    Cleared,
    /// For a stream, so many bytes from a place on are clear of the other streams' ranges.
    Clear(u8, u64, u64),
    /// A place and so many bytes, which are clear for stream 3, and whether they are for streams 0 and 255.
    Touch(u64, u64, bool),
    /// How many ranges a stream has.
    Count(u8, usize),
    /// The ranges of a stream, which are handed out.
    Taken(u8, &'static [(u64, Text)]),
}

/// Whether the records are just these ranges, in this order: the place and the bytes of each.
fn are_ranges(recs: &[Rec], ranges: &[(u64, Text)]) -> bool {
    recs.len() == ranges.len()
        && recs.iter().zip(ranges).all(|(rec, (off, bytes))| match rec {
            Rec::Range {
                off: at,
                bytes: kept,
            } => *at == *off && kept.all() == *bytes,
            Rec::Add { .. } | Rec::Bit { .. } => false,
        })
}

/// Puts bytes that are clear of the other streams' ranges. False where they aren't.
fn is_put(log: &mut RangeLog, stream: u8, off: u64, bytes: &[u8]) -> Result<bool, Fail> {
    if stream >= 64 || !log.clear_of(stream, off, bytes.len() as u64) {
        return Ok(false);
    }
    log.put(stream, off, bytes)?;
    Ok(true)
}

/// The same where the put is the first call of the room: then it can't fail.
fn is_put_first(log: &mut RangeLog, stream: u8, off: u64, bytes: &[u8]) -> bool {
    if stream >= 64
        || !log.clear_of(stream, off, bytes.len() as u64)
        || !log.is_first_put(stream, off, bytes)
    {
        return false;
    }
    log.put(stream, off, bytes).unwrap();
    true
}

/// Takes a step, and tells whether it goes as it says.
fn goes(log: &mut RangeLog, step: &Step) -> Result<bool, Fail> {
    match *step {
        Step::Put(stream, off, bytes) => return is_put(log, stream, off, bytes),
        Step::PutFirst(stream, off, bytes) => return Ok(is_put_first(log, stream, off, bytes)),
        Step::Room(stream, off, bytes) if stream < 64 => log.put_room(stream, off, bytes)?,
        Step::Cleared => log.clear_room(),
        Step::Clear(stream, off, len) => return Ok(log.clear_of(stream, off, len)),
        Step::Touch(off, len, want) => {
            return Ok(
                log.clear_of(3, off, len)
                    && log.clear_of(0, off, len) == want
                    && log.clear_of(255, off, len) == want,
            );
        }
        Step::Count(stream, want) => return Ok(stream < 64 && log.count(stream) == want),
        Step::Taken(stream, want) => {
            return Ok(stream < 64 && are_ranges(&log.take(stream), want));
        }
        _ => return Ok(false),
    }
    Ok(true)
}

/// Takes steps from no ranges on. Then, too, the ranges of different streams are apart.
fn run(rt: &impl Abort, alloc: Global, steps: &[Step]) -> Result<(), Fail> {
    let mut log = RangeLog::new(alloc);
    for step in steps {
        assert!(rt; goes(&mut log, step)?, "at {step:?}");
    }
    log.are_apart();
    Ok(())
}

/// Two streams put into one block.
const TWO: [Step; 11] = [
    Step::Put(1, 4096, &[1, 2, 3]),
    Step::Put(2, 4099, &[4, 5]),
    Step::Put(1, 4101, &[6]),
    Step::Count(0, 0),
    Step::Count(1, 2),
    Step::Count(2, 1),
    Step::Taken(1, &[(4096, &[1, 2, 3]), (4101, &[6])]),
    Step::Count(1, 0),
    Step::Count(2, 1),
    Step::Taken(2, &[(4099, &[4, 5])]),
    Step::Count(2, 0),
];

/// A stream puts over its own bytes in order.
const OVER: [Step; 4] = [
    Step::Put(63, 9, &[1, 2]),
    Step::Put(63, 8, &[3, 4]),
    Step::Put(63, 9, &[1, 2]),
    Step::Taken(63, &[(9, &[1, 2]), (8, &[3, 4]), (9, &[1, 2])]),
];

/// Ranges that touch end to end are clear.
const TOUCHING: [Step; 14] = [
    Step::Put(3, 10, &[1, 2, 3, 4]),
    Step::Put(4, 30, &[]),
    Step::Touch(6, 4, true),
    Step::Touch(6, 5, false),
    Step::Touch(14, 3, true),
    Step::Touch(13, 1, false),
    Step::Touch(10, 1, false),
    Step::Touch(11, 2, false),
    Step::Touch(0, 100, false),
    Step::Touch(12, 0, true),
    Step::Touch(29, 3, true),
    Step::Touch(13, u64::MAX, false),
    Step::Touch(14, u64::MAX, true),
    Step::Touch(u64::MAX, u64::MAX, true),
];

/// A call of the room takes no memory.
const ROOM: [Step; 10] = [
    Step::Room(5, 7, &[1, 2]),
    Step::Room(6, 9, &[3]),
    Step::Count(5, 0),
    Step::Count(6, 0),
    Step::Clear(5, 7, 2),
    Step::PutFirst(5, 7, &[1, 2]),
    Step::Clear(6, 9, 1),
    Step::PutFirst(6, 9, &[3]),
    Step::Taken(5, &[(7, &[1, 2])]),
    Step::Taken(6, &[(9, &[3])]),
];

/// A hand out leaves the room.
const HANDED_OUT: [Step; 5] = [
    Step::Room(5, 7, &[1, 2]),
    Step::Taken(5, &[]),
    Step::Clear(5, 7, 2),
    Step::PutFirst(5, 7, &[1, 2]),
    Step::Taken(5, &[(7, &[1, 2])]),
];

/// Calls that lose the room come through.
const LOST: [Step; 11] = [
    Step::Room(5, 7, &[1, 2]),
    Step::Room(5, 7, &[1, 2]),
    Step::Put(5, 7, &[1, 9]),
    Step::Put(5, 7, &[1, 2]),
    Step::Room(5, 8, &[4]),
    Step::Cleared,
    Step::Put(5, 8, &[4]),
    Step::Room(6, 0, &[5]),
    Step::Taken(5, &[(7, &[1, 9]), (7, &[1, 2]), (8, &[4])]),
    Step::Put(6, 0, &[5]),
    Step::Taken(6, &[(0, &[5])]),
];

#[test]
fn ranges_go_as_the_steps_say(rt: HostRuntime) -> Result<(), Fail> {
    for steps in [
        TWO.as_slice(),
        OVER.as_slice(),
        TOUCHING.as_slice(),
        ROOM.as_slice(),
        HANDED_OUT.as_slice(),
        LOST.as_slice(),
    ] {
        run(&rt, rt.alloc(), steps)?;
    }
    Ok(())
}
