//! Examples worked by hand: what the calls of a front answer on the fresh tree of a small image.
ghost use Rattle.std.specs.Prelude.{◌<◌, IsTrue};
ghost use Rattle.ccfs_base.specs.Fits.{fits_command};

use super::trials::{create, do_it, fresh, sync, take_stream};
use ccfs_base::{Command, Path, Reply};
use file_bodies::Sealed;
use front_core::{ActFault, Front};
use std::alloc::Global;
use std::test::Fail;

/// The actors 1 and 2 take the streams 1 and 2.
fn take_streams(front: &mut Front) -> Result<(), Fail> {
    take_stream(front, 1, 1)?;
    take_stream(front, 2, 2)
}

/// The actor 1 makes the directory /a, and the actor 2 the file /a/f.
fn make_two(alloc: Global, front: &mut Front) -> Result<(), Fail> {
    let mkdir = Command::Mkdir {
        path: Path::parse(alloc, b"/a")?,
    };
    do_it(front, 1, &mkdir)?;
    create(alloc, front, 2, b"/a/f")
}

/// Whether a batch has this stream and number, and the weight of one update.
fn is_batch(batch: Option<&Sealed>, stream: u8, number: u64) -> bool {
    match batch {
        Some(batch) => batch.stream == stream && batch.number == number && batch.weight == 512,
        None => false,
    }
}

/// Whether these are two batches, the first of stream 1 and the second of stream 2.
fn are_two(batches: &[Sealed]) -> bool {
    batches.len() == 2 && is_batch(batches.first(), 1, 1) && is_batch(batches.get(1), 2, 2)
}

/// Whether just those two wait. They are handed out.
fn hands_out_two(front: &mut Front) -> bool {
    are_two(&front.take_sealed())
}

/// Whether no batch waits.
fn hands_out_none(front: &mut Front) -> bool {
    front.take_sealed().is_empty()
}

/// Whether it tells of a directory without entries that was never changed.
fn is_fresh_dir(reply: &Reply) -> bool {
    match reply {
        Reply::StatDir { entries, changes } => *entries == 0 && *changes == 0,
        _ => false,
    }
}

/// Why the command isn't performed for the actor 0, and nothing where it is.
fn fault_of(front: &mut Front, command: &Command) -> Option<ActFault>
    requires { IsTrue (fits_command command.now) }
{
    match front.act(0, command) {
        Ok(_) => None,
        Err(fault) => Some(fault),
    }
}

/// Asks twice what the root is. The first answer is to be a fresh directory. Why there is no second one is told.
fn stat_twice(alloc: Global, front: &mut Front) -> Result<Option<ActFault>, Fail> {
    let stat = Command::Stat {
        path: Path::parse(alloc, b"/")?,
    };
    let first = front.act(0, &stat)?;
    if is_fresh_dir(&first) {
        Ok(fault_of(front, &stat))
    } else {
        Err("the root is another".into())
    }
}

#[test]
fn calls_of_two_streams_are_handed_out_as_batches(rt: HostRuntime) -> Result<(), Fail> {
    let mut front = fresh(rt.alloc(), 100)?;
    take_streams(&mut front)?;
    assert_eq!(rt; front.seals(), 0);
    make_two(rt.alloc(), &mut front)?;
    assert_eq!(rt; front.seals(), 1);
    sync(&mut front, 2, 2)?;
    assert!(rt; hands_out_two(&mut front));
    assert!(rt; hands_out_none(&mut front));
    assert_eq!(rt; front.history().len(), 5);
    assert_eq!(rt; front.inodes(), [0, 2, 3].as_slice());
    front.is_kept();
    Ok(())
}

#[test]
fn a_full_history_refuses_a_call(rt: HostRuntime) -> Result<(), Fail> {
    let mut front = fresh(rt.alloc(), 1)?;
    let fault = stat_twice(rt.alloc(), &mut front)?;
    let full = ActFault::HistoryFull { calls: 1 };
    assert_eq!(rt; fault, Some(full));
    assert_eq!(rt; front.history().len(), 1);
    Ok(())
}

#[test]
fn a_command_that_is_not_built_is_refused(rt: HostRuntime) -> Result<(), Fail> {
    let mut front = fresh(rt.alloc(), 100)?;
    let fault = fault_of(&mut front, &Command::Space);
    assert_eq!(rt; fault, Some(ActFault::NotBuilt));
    assert!(rt; front.history().is_empty());
    assert_eq!(rt; front.opening().len(), 1);
    Ok(())
}
