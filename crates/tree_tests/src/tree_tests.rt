//! What no clause says: that each call succeeds with ample memory, and what trees, updates and their keys are at examples.
use ccfs_base::{Bytes, Name, Path, Refusal};
use std::alloc::Global;
use std::process::Abort;
use std::test::Fail;
use tree_model::{Body, Key, Picture, Tree, Update, keys_of, meets};

/// A name or bytes.
type Text = &'static [u8];

/// An update, its names and bytes as texts.
#[derive(Clone, Copy, Debug, Drop)]
enum Change {
    /// A directory, a name there, a serial, and whether it is a directory's.
    Make(u32, Text, u32, bool),
    /// A file, a place and bytes.
    Write(u32, u64, Text),
    /// A file and a length.
    Resize(u32, u64),
    /// A directory, a name there and a serial. Nothing stays.
    Remove(u32, Text, u32),
    /// From an entry to another, with a serial, which is a directory's where it is below 10, and what is replaced and stays.
    Rename((u32, Text), (u32, Text), u32, Option<u32>),
    /// `x` of a directory to `y` of another, with a serial, whether it is a directory's, and what is replaced and goes.
    MoveOver(u32, u32, u32, bool, Option<u32>),
    /// A file.
    Release(u32),
}

/// What is done with a tree, or seen of it.
#[derive(Clone, Copy, Debug, Drop)]
enum Step {
    /// The update applies, and is made.
    Made(Change),
    /// Whether the update applies.
    Applies(Change, bool),
    /// A directory, and how often it was changed.
    Changes(u32, u64),
    /// A file and its bytes.
    Bytes(u32, Text),
    /// A directory, a name, and what has it there.
    Entry(u32, Text, Option<u32>),
    /// A directory, and how many entries it has.
    Entries(u32, u32),
    /// How many rows there are.
    Rows(usize),
    /// The depths and names of the picture.
    Shown(&'static [(u32, Text)]),
    /// A path, and what stands there.
    Walk(Text, Result<u32, Refusal>),
    /// A path, the directory that its last name stands in, and that name.
    Parent(Text, u32, Text),
}

/// The move of a row.
fn moved(
    from: (u32, Text),
    to: (u32, Text),
    id: u32,
    is_dir: bool,
    replaced: Option<u32>,
    stays: bool,
) -> Result<Update, Fail> {
    Ok(Update::Move {
        dir: from.0,
        name: Name::parse(from.1)?,
        to_dir: to.0,
        to_name: Name::parse(to.1)?,
        id,
        is_dir,
        replaced,
        stays,
    })
}

/// The update of a change.
fn update_of(alloc: Global, change: &Change) -> Result<Update, Fail> {
    Ok(match *change {
        Change::Make(dir, name, id, is_dir) => Update::Make {
            dir,
            name: Name::parse(name)?,
            id,
            is_dir,
        },
        Change::Write(id, off, bytes) => Update::Write {
            id,
            off,
            bytes: Bytes::of(alloc, bytes)?,
        },
        Change::Resize(id, len) => Update::Resize { id, len },
        Change::Remove(dir, name, id) => Update::Remove {
            dir,
            name: Name::parse(name)?,
            id,
            stays: false,
        },
        Change::Rename(from, to, id, replaced) => moved(from, to, id, id < 10, replaced, true)?,
        Change::MoveOver(dir, to_dir, id, is_dir, replaced) => {
            moved((dir, b"x"), (to_dir, b"y"), id, is_dir, replaced, false)?
        }
        Change::Release(id) => Update::Release { id },
    })
}

/// Whether an update applies. Then it is made.
fn is_made(alloc: Global, tree: &mut Tree, change: &Change) -> Result<bool, Fail> {
    let update = update_of(alloc, change)?;
    if !tree.applies(&update) {
        return Ok(false);
    }
    tree.apply(&update)?;
    Ok(true)
}

fn has_changes(tree: &Tree, id: u32, count: u64) -> bool {
    match tree.row(id) {
        Some(row) => matches!(&row.body, Body::Dir { changes } if *changes == count),
        None => false,
    }
}

fn has_bytes(tree: &Tree, id: u32, expected: &[u8]) -> bool {
    match tree.row(id) {
        Some(row) => match &row.body {
            Body::File { bytes } => bytes.all() == expected,
            Body::Dir { .. } => false,
        },
        None => false,
    }
}

fn shows(picture: &Picture, expected: &[(u32, Text)]) -> bool {
    let items = picture.all();
    let same = items.iter().zip(expected).all(|(item, line)| item.depth == line.0
        && item.name.all() == line.1);
    same && items.len() == expected.len()
}

/// Whether the last name of a path stands in that directory, and is this name.
fn has_parent(alloc: Global, tree: &Tree, path: Text, dir: u32, name: Text) -> Result<bool, Fail> {
    let path = Path::parse(alloc, path)?;
    let name = Name::parse(name)?;
    Ok(!path.is_root() && tree.resolve_parent(&path) == Ok((dir, name)))
}

/// Takes a step, and tells whether it goes as it says.
fn goes(alloc: Global, tree: &mut Tree, step: &Step) -> Result<bool, Fail> {
    match step {
        Step::Made(change) => is_made(alloc, tree, change),
        Step::Applies(change, want) => Ok(tree.applies(&update_of(alloc, change)?) == *want),
        Step::Changes(dir, count) => Ok(has_changes(tree, *dir, *count)),
        Step::Bytes(file, bytes) => Ok(has_bytes(tree, *file, bytes)),
        Step::Entry(dir, name, want) => Ok(tree.entry(*dir, &Name::parse(name)?) == *want),
        Step::Entries(dir, count) => Ok(tree.entry_count(*dir) == *count),
        Step::Rows(count) => Ok(tree.len() == *count),
        Step::Shown(items) => {
            let picture = tree.copy(alloc)?.picture(alloc)?.copy(alloc)?;
            Ok(shows(&picture, items))
        }
        Step::Walk(path, want) => Ok(tree.resolve(&Path::parse(alloc, path)?) == *want),
        Step::Parent(path, dir, name) => has_parent(alloc, tree, path, *dir, name),
    }
}

/// Takes steps.
fn take(rt: &impl Abort, alloc: Global, tree: &mut Tree, steps: &[Step]) -> Result<(), Fail> {
    for step in steps {
        assert!(rt; goes(alloc, tree, step)?, "at {step:?}");
    }
    Ok(())
}

/// Takes steps from the root alone on.
fn run(rt: &impl Abort, alloc: Global, start: &[Step], steps: &[Step]) -> Result<(), Fail> {
    let mut tree = Tree::root_alone(alloc)?;
    take(rt, alloc, &mut tree, start)?;
    take(rt, alloc, &mut tree, steps)
}

/// The directories `/b` (7) and `/a` (4), and the file `/a/f` (15), made in that order.
const SMALL: [Step; 3] = [
    Step::Made(Change::Make(0, b"b", 7, true)),
    Step::Made(Change::Make(0, b"a", 4, true)),
    Step::Made(Change::Make(4, b"f", 15, false)),
];

/// A picture goes down before it goes on, and a walk ends at a file and at a missing name.
const WALKED: [Step; 5] = [
    Step::Shown(&[(0, b""), (1, b"a"), (2, b"f"), (1, b"b")]),
    Step::Walk(b"/a/f", Ok(15)),
    Step::Walk(b"/a/f/x", Err(Refusal::NotDir)),
    Step::Walk(b"/a/g", Err(Refusal::NoEntry)),
    Step::Parent(b"/a/g", 4, b"g"),
];

/// Names stand in byte order.
const ORDERED: [Step; 4] = [
    Step::Made(Change::Make(4, b"ab", 1, true)),
    Step::Made(Change::Make(4, b"a.b", 2, true)),
    Step::Made(Change::Make(4, b"B", 3, true)),
    Step::Shown(&[
        (0, b""),
        (1, b"a"),
        (2, b"B"),
        (2, b"a.b"),
        (2, b"ab"),
        (2, b"f"),
        (1, b"b"),
    ]),
];

/// The directories `/a` (1) and `/b` (2), and the files `/a/f` (11) and `/b/g` (12).
const TWO: [Step; 4] = [
    Step::Made(Change::Make(0, b"a", 1, true)),
    Step::Made(Change::Make(0, b"b", 2, true)),
    Step::Made(Change::Make(1, b"f", 11, false)),
    Step::Made(Change::Make(2, b"g", 12, false)),
];

/// A rename counts a change of each directory, and two within one.
const RENAMED: [Step; 7] = [
    Step::Made(Change::Rename((1, b"f"), (2, b"h"), 11, None)),
    Step::Changes(1, 2),
    Step::Changes(2, 2),
    Step::Made(Change::Rename((2, b"h"), (2, b"i"), 11, None)),
    Step::Changes(2, 4),
    Step::Entry(2, b"i", Some(11)),
    Step::Entry(2, b"h", None),
];

/// A replaced file that is open stays until its release.
const REPLACED: [Step; 8] = [
    Step::Made(Change::Rename((1, b"f"), (2, b"g"), 11, Some(12))),
    Step::Entry(2, b"g", Some(11)),
    Step::Entries(2, 1),
    Step::Rows(5),
    Step::Made(Change::Write(12, 1, b"x")),
    Step::Bytes(12, b"\0x"),
    Step::Made(Change::Release(12)),
    Step::Rows(4),
];

/// What doesn't apply is told.
const REFUSED: [Step; 6] = [
    Step::Applies(Change::Remove(0, b"a", 1), false),
    Step::Applies(Change::Rename((0, b"a"), (1, b"c"), 1, None), false),
    Step::Applies(Change::Rename((1, b"f"), (2, b"g"), 11, None), false),
    Step::Applies(Change::Release(11), false),
    Step::Applies(Change::Write(11, 4_292_608, b"x"), false),
    Step::Applies(Change::Write(11, 4_292_607, b"x"), true),
];

/// Two updates that don't meet, and what comes of them. Then the file is cut off and removed.
const ONE_ORDER: [Step; 9] = [
    Step::Made(Change::Write(11, 2, b"yz")),
    Step::Made(Change::Rename((1, b"f"), (2, b"h"), 11, None)),
    Step::Bytes(11, b"\0\0yz"),
    Step::Entry(2, b"h", Some(11)),
    Step::Entries(1, 0),
    Step::Made(Change::Resize(11, 3)),
    Step::Bytes(11, b"\0\0y"),
    Step::Made(Change::Remove(2, b"h", 11)),
    Step::Rows(4),
];

/// The same two updates in the other order make the same tree.
const OTHER_ORDER: [Step; 5] = [
    Step::Made(Change::Rename((1, b"f"), (2, b"h"), 11, None)),
    Step::Made(Change::Write(11, 2, b"yz")),
    Step::Bytes(11, b"\0\0yz"),
    Step::Entry(2, b"h", Some(11)),
    Step::Entries(1, 0),
];

#[test]
fn trees_go_as_the_steps_say(rt: HostRuntime) -> Result<(), Fail> {
    for (start, steps) in [
        (SMALL.as_slice(), WALKED.as_slice()),
        (SMALL.as_slice(), ORDERED.as_slice()),
        (TWO.as_slice(), RENAMED.as_slice()),
        (TWO.as_slice(), REPLACED.as_slice()),
        (TWO.as_slice(), REFUSED.as_slice()),
        (TWO.as_slice(), ONE_ORDER.as_slice()),
        (TWO.as_slice(), OTHER_ORDER.as_slice()),
    ] {
        run(&rt, rt.alloc(), start, steps)?;
    }
    Ok(())
}

/// Pairs of updates, and whether they meet.
const PAIRS: [(Change, Change, bool); 11] = [
    // Two names are made in a directory, but not in one that is removed.
    (
        Change::Make(4, b"f", 15, false),
        Change::Make(4, b"g", 16, false),
        false,
    ),
    (
        Change::Make(4, b"f", 15, false),
        Change::Make(4, b"f", 16, false),
        true,
    ),
    (
        Change::Make(4, b"f", 15, false),
        Change::Remove(0, b"a", 4),
        true,
    ),
    // Changes of one file meet wherever they are.
    (
        Change::Write(15, 0, b"new"),
        Change::Write(15, 4096, b"new"),
        true,
    ),
    (
        Change::Write(15, 0, b"new"),
        Change::Write(16, 0, b"new"),
        false,
    ),
    (Change::Write(15, 0, b"new"), Change::Release(15), true),
    // A write meets a move over its file, but not one of it.
    (
        Change::Write(15, 0, b"new"),
        Change::MoveOver(4, 7, 15, false, None),
        false,
    ),
    (
        Change::Write(15, 0, b"new"),
        Change::MoveOver(4, 7, 16, false, Some(15)),
        true,
    ),
    // Moves of directories to other parents meet.
    (
        Change::MoveOver(1, 2, 5, true, None),
        Change::MoveOver(3, 4, 6, true, None),
        true,
    ),
    (
        Change::MoveOver(1, 2, 5, true, None),
        Change::MoveOver(3, 4, 16, false, None),
        false,
    ),
    (
        Change::MoveOver(1, 2, 5, true, None),
        Change::MoveOver(3, 3, 6, true, None),
        false,
    ),
];

#[test]
fn updates_meet_as_the_pairs_say_in_both_orders(rt: HostRuntime) -> Result<(), Fail> {
    for (a, b, want) in &PAIRS {
        let one = update_of(rt.alloc(), a)?;
        let other = update_of(rt.alloc(), b)?;
        assert_eq!(rt;
            (meets(&one, &other), meets(&other, &one)),
            (*want, *want),
            "at {a:?}"
        );
    }
    Ok(())
}

#[test]
fn a_directory_that_gets_another_parent_has_five_keys(rt: HostRuntime) -> Result<(), Fail> {
    let expected = [
        Key::Entry {
            dir: 1,
            name: Name::parse(b"x")?,
            changed: true,
        },
        Key::Entry {
            dir: 2,
            name: Name::parse(b"y")?,
            changed: true,
        },
        Key::Node {
            id: 1,
            changed: false,
        },
        Key::Node {
            id: 2,
            changed: false,
        },
        Key::Shape,
    ];
    let update = update_of(rt.alloc(), &Change::MoveOver(1, 2, 5, true, None))?;
    let keys = keys_of(rt.alloc(), &update)?;
    assert_eq!(rt; keys.as_slice(), expected.as_slice());
    Ok(())
}
