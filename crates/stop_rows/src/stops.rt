//! Runs that lose power at a call on the disk: each image that a crash may leave is printed by the program itself, and opened.
use super::calls::{fresh, print, run};
use super::texts::words_text;
use ccfs_base::{Bytes, MemSink};
use disk_model::{CallKind, FailPlan, MemDisk};
use std::alloc::Global;
use std::test::Fail;

/// How many calls an opening of an image without open batches makes: a sync, the size, four reads, and as its checkpoint two
/// writes with a sync behind each.
pub(crate) const OPENING: u64 = 10;

/// How many calls the commit of a batch makes: its records and its gate, each with a sync behind it.
pub(crate) const COMMIT: u64 = 4;

/// How many images are looked at.
pub(crate) const PICKS: u64 = 21;

/// The text of the tree of an image. The test fails where it holds none.
fn tree_in(alloc: Global, image: MemDisk) -> Result<MemSink, Fail> {
    let (status, text) = print(alloc, image)?;
    if status != 0 {
        return Err("an image has no tree".into());
    }
    Ok(text)
}

/// The test fails where an image prints another tree once it was opened.
fn opens_to(alloc: Global, image: MemDisk, tree: &[u8]) -> Result<(), Fail> {
    let mut out = MemSink::new(alloc, None);
    let ended = run(alloc, image, b"", &mut out)?;
    let again = tree_in(alloc, ended.disk.image(alloc, 0)?)?;
    if ended.status != 0 || out.held() != tree || again.held() != tree {
        return Err("an image opens to another tree".into());
    }
    Ok(())
}

/// Whether the image of a pick has the second of two trees, else it has the first. The test fails where it has another, or is one
/// of the first and opens to another.
fn has_second(
    alloc: Global,
    disk: &MemDisk,
    pick: u64,
    first: &[u8],
    second: &[u8],
) -> Result<bool, Fail> {
    let text = tree_in(alloc, disk.image(alloc, pick)?)?;
    let is_second = text.held() == second;
    if !is_second && text.held() != first {
        return Err("an image has another tree".into());
    }
    opens_to(alloc, disk.image(alloc, pick)?, text.held())?;
    Ok(is_second)
}

/// How many of the images that may be left have the second of two trees, where all others have the first. The test fails where
/// one has another, or opens to another.
pub(crate) fn left(
    alloc: Global,
    disk: &MemDisk,
    first: &[u8],
    second: &[u8],
) -> Result<u64, Fail> {
    let mut count = 0u64;
    for pick in 0..PICKS {
        if has_second(alloc, disk, pick, first, second)? {
            count = count.saturating_add(1);
        }
    }
    Ok(count)
}

/// The disk after a run with this plan, which a device fault ends behind these lines.
pub(crate) fn stopped(
    alloc: Global,
    disk: MemDisk,
    plan: FailPlan,
    script: &[u8],
    replies: &[u8],
) -> Result<MemDisk, Fail> {
    let mut disk = disk;
    disk.plan(plan);
    let mut out = MemSink::new(alloc, None);
    let ended = run(alloc, disk, script, &mut out)?;
    let mut said = Bytes::of(alloc, replies)?;
    said.append(b"fault: disk\n")?;
    if ended.status != 7 || out.held() != said.all() {
        return Err("the run ended otherwise".into());
    }
    Ok(ended.disk)
}

/// A script that ends with its one sync, on a fresh image.
struct Synced {
    /// All lines.
    script: &'static str,
    /// What is written before the sync is answered, and its reply.
    replies: [&'static str; 2],
    /// The tree before the first batch.
    first: &'static str,
    /// The tree with each batch more.
    cuts: &'static [&'static str],
}

const SYNCED: &[Synced] = &[
    Synced {
        script: "0 mkdir /a; 0 create /a/f; 0 streamsync;",
        replies: ["0 ok; 0 ok;", "0 ok 1;"],
        first: "batches 0; dir / entries 0 changes 0;",
        cuts: &[
            "batches 1; dir / entries 1 changes 1; dir /a entries 1 changes 1; file /a/f length 0 data -;",
        ],
    },
    // Of four batches the first two are sealed by what they meet, and the others by the sync.
    Synced {
        script: "1 setstream 1; 2 setstream 2; 3 setstream 3; 1 mkdir /a; 2 create /a/f; 3 create /g; 0 mkdir /b; 2 rename /a/f /b/f; 0 sync;",
        replies: ["1 ok; 2 ok; 3 ok; 1 ok; 2 ok; 3 ok; 0 ok; 2 ok;", "0 ok 4;"],
        first: "batches 0; dir / entries 0 changes 0;",
        cuts: &[
            "batches 1; dir / entries 1 changes 1; dir /a entries 0 changes 0;",
            "batches 2; dir / entries 2 changes 2; dir /a entries 0 changes 0; dir /b entries 0 changes 0;",
            "batches 3; dir / entries 2 changes 2; dir /a entries 0 changes 2; dir /b entries 1 changes 1; file /b/f length 0 data -;",
            "batches 4; dir / entries 3 changes 3; dir /a entries 0 changes 2; dir /b entries 1 changes 1; file /b/f length 0 data -; file /g length 0 data -;",
        ],
    },
];

/// The test fails where a commit that goes from one cut to the next leaves another tree where it stops at this of its calls,
/// behind so many of others. Before its gate is written a batch is in no image, and then in some.
fn commit_stops(
    alloc: Global,
    row: &Synced,
    calls: u64,
    call: u64,
    cuts: [&[u8]; 2],
) -> Result<(), Fail> {
    let script = words_text(alloc, row.script)?;
    let replies = words_text(alloc, row.replies[0])?;
    let plan = FailPlan::From {
        call: calls.saturating_add(call),
    };
    let disk = stopped(alloc, fresh(alloc)?, plan, script.all(), replies.all())?;
    let count = left(alloc, &disk, cuts[0], cuts[1])?;
    if (count == 0) != (call < 3) || count == PICKS {
        return Err("a batch is in too many images or too few".into());
    }
    Ok(())
}

/// The test fails where an image lacks a sync that was answered, though the run fails then.
fn stays_synced(alloc: Global, row: &Synced, calls: u64, cut: &[u8]) -> Result<(), Fail> {
    let script = words_text(alloc, row.script)?;
    let mut replies = words_text(alloc, row.replies[0])?;
    replies.append(words_text(alloc, row.replies[1])?.all())?;
    let plan = FailPlan::From {
        call: calls.saturating_add(1),
    };
    let disk = stopped(alloc, fresh(alloc)?, plan, script.all(), replies.all())?;
    left(alloc, &disk, cut, cut)?;
    Ok(())
}

/// The test fails where a run that isn't stopped makes other calls: beside those up to its sync the calls of printing a tree, and
/// one more, by which the batches are read back.
fn makes_calls(alloc: Global, row: &Synced, calls: u64) -> Result<(), Fail> {
    let script = words_text(alloc, row.script)?;
    let mut out = MemSink::new(alloc, None);
    let ended = run(alloc, fresh(alloc)?, script.all(), &mut out)?;
    let idle = run(alloc, fresh(alloc)?, b"", &mut out)?;
    let printing = idle.disk.calls().saturating_sub(OPENING);
    if ended.disk.calls() != calls.saturating_add(printing).saturating_add(1) {
        return Err("the run made other calls".into());
    }
    Ok(())
}

/// The test fails where a row's sync, stopped at one of its calls, leaves what is no cut.
fn sync_stops(alloc: Global, row: &Synced) -> Result<(), Fail> {
    let mut calls = OPENING;
    let mut first = words_text(alloc, row.first)?;
    for text in row.cuts {
        let second = words_text(alloc, text)?;
        for call in 1..=COMMIT {
            commit_stops(alloc, row, calls, call, [first.all(), second.all()])?;
        }
        calls = calls.saturating_add(COMMIT);
        first = second;
    }
    stays_synced(alloc, row, calls, first.all())?;
    makes_calls(alloc, row, calls)
}

#[test]
fn a_sync_that_stops_leaves_cuts(rt: HostRuntime) -> Result<(), Fail> {
    for row in SYNCED {
        sync_stops(rt.alloc(), row)?;
    }
    Ok(())
}

/// The test fails where the image of a pick prints another tree once its opening is stopped in turn, at one of its ten calls by the pick.
fn stops_again(alloc: Global, disk: &MemDisk, pick: u64, tree: &[u8]) -> Result<(), Fail> {
    let plan = FailPlan::From {
        call: pick % OPENING + 1,
    };
    let again = stopped(alloc, disk.image(alloc, pick)?, plan, b"", b"")?;
    if tree_in(alloc, again.image(alloc, pick)?)?.held() != tree {
        return Err("an image that was stopped twice has another tree".into());
    }
    Ok(())
}

/// The test fails where a run without a script that stops at a call leaves another tree than this one, or where it goes on though
/// that call alone fails.
fn opening_stops_at(alloc: Global, image: &MemDisk, number: u64, tree: &[u8]) -> Result<(), Fail> {
    let plan = FailPlan::One {
        kind: CallKind::Any,
        number,
    };
    let disk = stopped(alloc, image.image(alloc, 0)?, plan, b"", b"")?;
    for pick in 0..PICKS {
        if tree_in(alloc, disk.image(alloc, pick)?)?.held() != tree {
            return Err("an image has another tree where one call failed".into());
        }
    }
    let plan = FailPlan::From { call: number };
    let disk = stopped(alloc, image.image(alloc, 0)?, plan, b"", b"")?;
    left(alloc, &disk, tree, tree)?;
    for pick in 0..PICKS {
        stops_again(alloc, &disk, pick, tree)?;
    }
    Ok(())
}

/// The image that a run of a script leaves of another.
fn left_by(alloc: Global, image: MemDisk, script: &str) -> Result<MemDisk, Fail> {
    let mut out = MemSink::new(alloc, None);
    let ended = run(alloc, image, words_text(alloc, script)?.all(), &mut out)?;
    Ok(ended.disk.image(alloc, 0)?)
}

/// The test fails where an opening of the image that a script leaves, stopped at one of its calls, leaves another tree than this one.
fn opening_stops(alloc: Global, image: MemDisk, row: &[&str; 2]) -> Result<(), Fail> {
    let tree = words_text(alloc, row[1])?;
    let image = left_by(alloc, image, row[0])?;
    let mut out = MemSink::new(alloc, None);
    let idle = run(alloc, image.image(alloc, 0)?, b"", &mut out)?;
    for number in 1..=idle.disk.calls() {
        opening_stops_at(alloc, &image, number, tree.all())?;
    }
    Ok(())
}

/// A script that leaves an image without a batch, and its tree.
const EMPTY: [&str; 2] = ["", "batches 0; dir / entries 0 changes 0;"];

/// One that leaves a batch in half 1, since the opening before it emptied that.
const MADE: [&str; 2] = [
    "0 create /f; 0 streamsync;",
    "batches 1; dir / entries 1 changes 1; file /f length 0 data -;",
];

/// One that leaves a batch in half 0, on the image of the script before.
const MOVED: [&str; 2] = [
    "0 rename /f /g; 0 streamsync;",
    "batches 2; dir / entries 1 changes 3; file /g length 0 data -;",
];

#[test]
fn an_opening_of_an_empty_journal_that_stops_leaves_its_tree(rt: HostRuntime) -> Result<(), Fail> {
    opening_stops(rt.alloc(), fresh(rt.alloc())?, &EMPTY)
}

#[test]
fn an_opening_of_half_1_that_stops_leaves_its_tree(rt: HostRuntime) -> Result<(), Fail> {
    opening_stops(rt.alloc(), fresh(rt.alloc())?, &MADE)
}

#[test]
fn an_opening_of_half_0_that_stops_leaves_its_tree(rt: HostRuntime) -> Result<(), Fail> {
    let alloc = rt.alloc();
    opening_stops(alloc, left_by(alloc, fresh(alloc)?, MADE[0])?, &MOVED)
}
