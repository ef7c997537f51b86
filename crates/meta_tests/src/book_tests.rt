//! What no clause says of the book of keys: that calls come through with ample memory, and what the clauses mean at examples.
ghost use Rattle.std.specs.Prelude.{◌<◌};

use ccfs_base::{Bytes, Name, NoMemory};
use cross_dep::KeyBook;
use std::alloc::Global;
use std::process::Abort;
use std::test::Fail;
use tree_model::Update;

/// A name.
type Text = &'static [u8];

/// An update, its name as a text.
#[derive(Debug, Drop)]
enum Change {
    /// Makes a directory: in a directory, by a name, with a serial.
    Make(u32, Text, u32),
    /// Writes `new` to a file at a place.
    Write(u32, u64),
    /// A file and a length.
    Resize(u32, u64),
    /// Removes `a` of directory 0, with a serial. Nothing stays.
    Remove(u32),
    /// Moves the directory `x` from one directory to `y` in another, with a serial.
    MoveDir(u32, u32, u32),
    /// A file.
    Release(u32),
}

/// What is done with the book, or seen of it. A stream comes first, save at `Changers`.
#[derive(Debug, Drop)]
enum Step {
    /// Room is made for an update, which is added.
    Added(u8, Change),
    /// Room is made for so many updates.
    Reserved(u8, usize),
    /// Room is made for two updates, what the stream had is dropped, and both are added.
    AddedBoth(u8, Change, Change),
    /// What the stream had is dropped.
    Forgotten(u8),
    /// The other streams that have an update which meets this one.
    Met(u8, Change, u64),
    /// A node, and the streams that have an update which changes it.
    Changers(u32, u64),
}

/// The update of a change.
fn update_of(alloc: Global, change: &Change) -> Result<Update, Fail> {
    Ok(match *change {
        Change::Make(dir, name, id) => Update::Make {
            dir,
            name: Name::parse(name)?,
            id,
            is_dir: true,
        },
        Change::Write(id, off) => Update::Write {
            id,
            off,
            bytes: Bytes::of(alloc, b"new")?,
        },
        Change::Resize(id, len) => Update::Resize { id, len },
        Change::Remove(id) => Update::Remove {
            dir: 0,
            name: Name::parse(b"a")?,
            id,
            stays: false,
        },
        Change::MoveDir(dir, to_dir, id) => Update::Move {
            dir,
            name: Name::parse(b"x")?,
            to_dir,
            to_name: Name::parse(b"y")?,
            id,
            is_dir: true,
            replaced: None,
            stays: false,
        },
        Change::Release(id) => Update::Release { id },
    })
}

/// Adds an update behind making room for it.
fn add(book: &mut KeyBook, stream: u8, update: &Update) -> Result<(), NoMemory>
    requires { stream < 64 }
{
    book.reserve(stream, 1)?;
    book.add(stream, update);
    Ok(())
}

/// Makes room for two updates of a stream, drops what the stream had, and adds both: once there is room, no memory is wanted.
fn add_both(book: &mut KeyBook, stream: u8, first: &Update, second: &Update) -> Result<(), NoMemory>
    requires { stream < 64 }
{
    book.reserve(stream, 2)?;
    book.forget(stream);
    book.add(stream, first);
    book.add(stream, second);
    Ok(())
}

/// Takes a step, and tells whether it goes as it says.
fn goes(alloc: Global, book: &mut KeyBook, step: &Step) -> Result<bool, Fail> {
    match step {
        Step::Added(stream, change) if *stream < 64 => {
            add(book, *stream, &update_of(alloc, change)?)?;
        }
        Step::Reserved(stream, updates) if *stream < 64 => book.reserve(*stream, *updates)?,
        Step::AddedBoth(stream, first, second) if *stream < 64 => {
            let first = update_of(alloc, first)?;
            add_both(book, *stream, &first, &update_of(alloc, second)?)?;
        }
        Step::Forgotten(stream) if *stream < 64 => book.forget(*stream),
        Step::Met(stream, change, want) if *stream < 64 => {
            return Ok(book.met(*stream, &update_of(alloc, change)?) == *want);
        }
        Step::Changers(id, want) => return Ok(book.changers(*id) == *want),
        _ => return Ok(false),
    }
    Ok(true)
}

/// Takes steps from no updates on.
fn run(rt: &impl Abort, alloc: Global, steps: &[Step]) -> Result<(), Fail> {
    let mut book = KeyBook::new(alloc);
    for step in steps {
        assert!(rt; goes(alloc, &mut book, step)?, "at {step:?}");
    }
    Ok(())
}

/// Nothing is met at first.
const FRESH: [Step; 2] = [
    Step::Met(0, Change::Make(0, b"a", 1), 0),
    Step::Changers(0, 0),
];

/// A row is made in a directory that another stream made.
const BELOW: [Step; 5] = [
    Step::Added(1, Change::Make(0, b"a", 1)),
    Step::Met(2, Change::Make(1, b"f", 2), 1 << 1),
    Step::Met(1, Change::Make(1, b"f", 2), 0),
    Step::Met(2, Change::Make(0, b"b", 3), 0),
    Step::Met(63, Change::Make(0, b"a", 4), 1 << 1),
];

/// Several streams are met, and sealed ones are not.
const SEVERAL: [Step; 14] = [
    Step::Added(0, Change::Resize(7, 3)),
    Step::Added(5, Change::Resize(7, 3)),
    Step::Added(5, Change::Resize(9, 3)),
    Step::Added(63, Change::Resize(7, 3)),
    Step::Added(62, Change::Resize(8, 3)),
    Step::Met(5, Change::Write(7, 0), 1 << 63 | 1),
    Step::Changers(7, 1 << 63 | 1 << 5 | 1),
    Step::Forgotten(63),
    Step::Met(5, Change::Write(7, 0), 1),
    Step::Changers(7, 1 << 5 | 1),
    Step::Forgotten(5),
    Step::Met(1, Change::Write(7, 0), 1),
    Step::Changers(9, 0),
    Step::Changers(8, 1 << 62),
];

/// A needed node has no changer until it is changed.
const NEEDED: [Step; 8] = [
    Step::Added(3, Change::Make(4, b"f", 7)),
    Step::Changers(4, 0),
    Step::Changers(7, 1 << 3),
    Step::Met(2, Change::Make(4, b"g", 8), 0),
    Step::Met(2, Change::Remove(4), 1 << 3),
    Step::Added(3, Change::Remove(4)),
    Step::Changers(4, 1 << 3),
    Step::Met(2, Change::Make(4, b"g", 8), 1 << 3),
];

/// A rename changes two entries.
const RENAMED: [Step; 5] = [
    Step::Added(1, Change::MoveDir(4, 4, 9)),
    Step::Met(2, Change::Make(4, b"x", 7), 1 << 1),
    Step::Met(2, Change::Make(4, b"y", 7), 1 << 1),
    Step::Met(2, Change::Make(4, b"z", 7), 0),
    Step::Met(2, Change::Make(5, b"x", 7), 0),
];

/// Two moves of directories meet in the shape.
const SHAPE: [Step; 3] = [
    Step::Added(1, Change::MoveDir(4, 5, 9)),
    Step::Met(2, Change::MoveDir(6, 7, 10), 1 << 1),
    Step::Met(2, Change::MoveDir(6, 6, 10), 0),
];

/// Room for two updates stands over a seal.
const OVER_A_SEAL: [Step; 7] = [
    Step::Added(1, Change::Release(9)),
    Step::Reserved(1, 1),
    Step::Met(2, Change::Make(0, b"a", 1), 0),
    Step::AddedBoth(1, Change::Make(0, b"a", 1), Change::Write(2, 8)),
    Step::Met(2, Change::Make(0, b"a", 1), 1 << 1),
    Step::Met(2, Change::Write(2, 8), 1 << 1),
    Step::Changers(9, 0),
];

#[test]
fn books_go_as_the_steps_say(rt: HostRuntime) -> Result<(), Fail> {
    for steps in [
        FRESH.as_slice(),
        BELOW.as_slice(),
        SEVERAL.as_slice(),
        NEEDED.as_slice(),
        RENAMED.as_slice(),
        SHAPE.as_slice(),
        OVER_A_SEAL.as_slice(),
    ] {
        run(&rt, rt.alloc(), steps)?;
    }
    Ok(())
}
