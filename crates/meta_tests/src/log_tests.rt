//! What no clause says of the logs of records: that calls come through with ample memory, and what the clauses mean at examples.
ghost use Rattle.std.specs.Prelude.{◌<◌};

use ccfs_base::Rec;
use record_logs::RecordLogs;
use std::alloc::Global;
use std::process::Abort;
use std::test::Fail;

/// Raises in their order: the place of each counter, and by how much it is raised.
type Raises = &'static [(u64, u64)];

/// What is done with the logs, or seen of them. A stream comes first.
#[derive(Debug, Drop)]
enum Step {
    /// A raise is logged.
    Push(u8, u64, u64),
    /// Room is made for a raise.
    Room(u8, u64, u64),
    /// The first call of the room is made.
    Used,
    /// The room is emptied.
    Cleared,
    /// The stream of the first call of the room.
    First(Option<u8>),
    /// How many records a stream has.
    Count(u8, usize),
    /// For how many streams there is a log.
    Logs(usize),
    /// The records of a stream, which stay.
    Kept(u8, Raises),
    /// The records of a stream, which are handed out.
    Taken(u8, Raises),
}

/// Whether the records are just these raises, in this order: the place of each counter, and by how much it is raised.
fn are_raises(recs: &[Rec], raises: &[(u64, u64)]) -> bool {
    recs.len() == raises.len()
        && recs.iter().zip(raises).all(|(rec, (off, by))| match rec {
            Rec::Add { off: at, by: more } => *at == *off && *more == *by,
            Rec::Range { .. } | Rec::Bit { .. } => false,
        })
}

/// Makes the first call of the room. False where the room is empty.
fn is_used(logs: &mut RecordLogs) -> bool {
    if logs.first().is_none() {
        return false;
    }
    logs.use_first();
    true
}

/// Whether the first call of the room is of this stream, or the room is empty.
fn has_first(logs: &RecordLogs, want: Option<u8>) -> bool {
    match (logs.first(), want) {
        (Some((stream, _)), Some(wanted)) => stream == wanted,
        (None, None) => true,
        _ => false,
    }
}

/// Takes a step, and tells whether it goes as it says.
fn goes(logs: &mut RecordLogs, step: &Step) -> Result<bool, Fail> {
    match *step {
        Step::Push(stream, off, by) if stream < 64 => logs.push(stream, Rec::Add { off, by })?,
        Step::Room(stream, off, by) if stream < 64 => logs.add_room(stream, Rec::Add { off, by })?,
        Step::Used => return Ok(is_used(logs)),
        Step::Cleared => logs.clear_room(),
        Step::First(want) => return Ok(has_first(logs, want)),
        Step::Count(stream, want) => return Ok(stream < 64 && logs.count(stream) == want),
        Step::Logs(want) => return Ok(logs.all().len() == want),
        Step::Kept(stream, want) => {
            return Ok(stream < 64 && are_raises(&logs.all()[usize::from(stream)], want));
        }
        Step::Taken(stream, want) => {
            return Ok(stream < 64 && are_raises(&logs.take(stream), want));
        }
        _ => return Ok(false),
    }
    Ok(true)
}

/// Takes steps from no records on.
fn run(rt: &impl Abort, alloc: Global, steps: &[Step]) -> Result<(), Fail> {
    let mut logs = RecordLogs::new(alloc);
    for step in steps {
        assert!(rt; goes(&mut logs, step)?, "at {step:?}");
    }
    Ok(())
}

/// Nothing is there at first.
const FRESH: [Step; 4] = [
    Step::First(None),
    Step::Count(0, 0),
    Step::Count(63, 0),
    Step::Logs(64),
];

/// A stream gets its own records in their order.
const OWN: [Step; 12] = [
    Step::Push(63, 8, 1),
    Step::Push(0, 16, 2),
    Step::Push(63, 8, 3),
    Step::Count(0, 1),
    Step::Count(1, 0),
    Step::Count(63, 2),
    Step::Kept(0, &[(16, 2)]),
    Step::Kept(63, &[(8, 1), (8, 3)]),
    Step::Taken(63, &[(8, 1), (8, 3)]),
    Step::Taken(63, &[]),
    Step::Count(0, 1),
    Step::Count(63, 0),
];

/// A log is handed out between the calls of the room.
const BETWEEN: [Step; 8] = [
    Step::Room(7, 8, 1),
    Step::Room(7, 16, 2),
    Step::Taken(7, &[]),
    Step::Used,
    Step::Taken(7, &[(8, 1)]),
    Step::Used,
    Step::Taken(7, &[(16, 2)]),
    Step::First(None),
];

/// Records move to the list of a call.
const MOVED: [Step; 10] = [
    Step::Push(7, 0, 9),
    Step::Room(7, 8, 1),
    Step::Room(5, 16, 2),
    Step::Room(7, 24, 3),
    Step::Taken(7, &[(0, 9)]),
    Step::Used,
    Step::Used,
    Step::Used,
    Step::Taken(5, &[(16, 2)]),
    Step::Taken(7, &[(8, 1), (24, 3)]),
];

/// Another record empties the room.
const EMPTIED: [Step; 10] = [
    Step::Room(7, 8, 1),
    Step::First(Some(7)),
    Step::Push(6, 16, 2),
    Step::First(None),
    Step::Room(5, 8, 1),
    Step::Cleared,
    Step::First(None),
    Step::Count(5, 0),
    Step::Count(6, 1),
    Step::Count(7, 0),
];

#[test]
fn logs_go_as_the_steps_say(rt: HostRuntime) -> Result<(), Fail> {
    for steps in [
        FRESH.as_slice(),
        OWN.as_slice(),
        BETWEEN.as_slice(),
        MOVED.as_slice(),
        EMPTIED.as_slice(),
    ] {
        run(&rt, rt.alloc(), steps)?;
    }
    Ok(())
}
