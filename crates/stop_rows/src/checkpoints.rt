//! Runs that lose power in a checkpoint, or in the commit behind it.
use super::calls::made;
use super::stops::{COMMIT, OPENING, PICKS, left, stopped};
use super::texts::Part::{Text, Turns};
use super::texts::{Part, text_of};
use disk_model::FailPlan;
use std::alloc::Global;
use std::test::Fail;

/// A script whose last sync finds no room in a half, as one row more passes its bytes.
const LARGE: &[Part] = &[
    Turns {
        count: 3_072,
        from: 1_000,
        text: "0 create /@;",
    },
    Text("0 streamsync;"),
    Turns {
        count: 10,
        from: 4_072,
        text: "0 create /@;",
    },
    Text("0 streamsync; 0 create /4082; 0 streamsync;"),
];

/// What it says before that sync is answered.
const LARGE_SAID: &[Part] = &[
    Turns {
        count: 3_072,
        from: 0,
        text: "0 ok;",
    },
    Text("0 ok 6;"),
    Turns {
        count: 10,
        from: 0,
        text: "0 ok;",
    },
    Text("0 ok 7; 0 ok;"),
];

const LARGE_CUTS: [&[Part]; 2] = [
    &[
        Text("batches 7; dir / entries 3082 changes 3082;"),
        Turns {
            count: 3_082,
            from: 1_000,
            text: "file /@ length 0 data -;",
        },
    ],
    &[
        Text("batches 8; dir / entries 3083 changes 3083;"),
        Turns {
            count: 3_083,
            from: 1_000,
            text: "file /@ length 0 data -;",
        },
    ],
];

/// How many calls come before its checkpoint, and how many ranges that writes home: five of a made row, and one of each batch.
const BEFORE: u64 = OPENING + 7 * COMMIT;

const HOME: u64 = 5 * 3_082 + 7;

/// Where a run stops behind those calls, whether its last sync was answered, and in how many images its batch is at least and at
/// most.
type Stop = (u64, bool, u64, u64);

/// At home writes; at the gates, a sync, the master byte and a sync.
const AT_HOME: &[Stop] = &[
    (1, false, 0, 0),
    (2, false, 0, 0),
    (HOME / 2, false, 0, 0),
    (HOME, false, 0, 0),
    (HOME + 1, false, 0, 0),
    (HOME + 2, false, 0, 0),
    (HOME + 3, false, 0, 0),
    (HOME + 4, false, 0, 0),
];

/// At the commit's four calls, and behind it.
const AT_COMMIT: &[Stop] = &[
    (HOME + 5, false, 0, 0),
    (HOME + 6, false, 0, 0),
    (HOME + 7, false, 1, PICKS - 1),
    (HOME + 8, false, 1, PICKS - 1),
    (HOME + 9, true, PICKS, PICKS),
];

/// The test fails where the run that stops there leaves another tree.
fn checkpoint_stops(alloc: Global, call: u64, is_synced: bool) -> Result<u64, Fail> {
    let script = text_of(alloc, LARGE)?;
    let mut said = text_of(alloc, LARGE_SAID)?;
    if is_synced {
        said.append(b"0 ok 8\n")?;
    }
    let plan = FailPlan::From {
        call: BEFORE.saturating_add(call),
    };
    let disk = made(alloc, "1024", "4096")?;
    let disk = stopped(alloc, disk, plan, script.all(), said.all())?;
    let first = text_of(alloc, LARGE_CUTS[0])?;
    let second = text_of(alloc, LARGE_CUTS[1])?;
    left(alloc, &disk, first.all(), second.all())
}

/// The test fails where a run that stops at one of these leaves its batch in too many images or too few.
fn all_stop(alloc: Global, stops: &[Stop]) -> Result<(), Fail> {
    for (call, is_synced, least, most) in stops {
        let count = checkpoint_stops(alloc, *call, *is_synced)?;
        if count < *least || *most < count {
            return Err("the batch is in too many images or too few".into());
        }
    }
    Ok(())
}

#[test]
fn a_checkpoint_that_stops_leaves_its_tree(rt: HostRuntime) -> Result<(), Fail> {
    all_stop(rt.alloc(), AT_HOME)
}

#[test]
fn a_commit_behind_a_checkpoint_that_stops_leaves_cuts(rt: HostRuntime) -> Result<(), Fail> {
    all_stop(rt.alloc(), AT_COMMIT)
}
