//! What no clause says: two rows of commands by hand, with ample memory.
use ccfs_base::{Command, Path, Refusal, Reply};
use command_answers::{Answered, View, answer};
use std::alloc::Global;
use std::process::Abort;
use std::test::Fail;
use tree_model::Tree;

/// Answers a command and makes its update, under the serial `next`.
fn step(
    rt: &impl Abort,
    alloc: Global,
    tree: &mut Tree,
    next: u32,
    command: &Command,
) -> Result<Option<Reply>, Fail> {
    let view = View {
        tree: &*tree,
        next,
        inodes: 32,
        gave_rows: 0,
    };
    let Some(Answered { reply, update }) = answer(alloc, &view, command)? else {
        return Ok(None);
    };
    if let Some(update) = update {
        assert!(rt; tree.applies(&update));
        tree.apply(&update)?;
    }
    Ok(Some(reply))
}

fn mkdir(alloc: Global, path: &[u8]) -> Result<Command, Fail> {
    Ok(Command::Mkdir {
        path: Path::parse(alloc, path)?,
    })
}

fn create(alloc: Global, path: &[u8]) -> Result<Command, Fail> {
    Ok(Command::Create {
        path: Path::parse(alloc, path)?,
    })
}

fn rmdir(alloc: Global, path: &[u8]) -> Result<Command, Fail> {
    Ok(Command::Rmdir {
        path: Path::parse(alloc, path)?,
    })
}

fn unlink(alloc: Global, path: &[u8]) -> Result<Command, Fail> {
    Ok(Command::Unlink {
        path: Path::parse(alloc, path)?,
    })
}

fn stat(alloc: Global, path: &[u8]) -> Result<Command, Fail> {
    Ok(Command::Stat {
        path: Path::parse(alloc, path)?,
    })
}

fn rename(alloc: Global, path: &[u8], to: &[u8]) -> Result<Command, Fail> {
    Ok(Command::Rename {
        path: Path::parse(alloc, path)?,
        to: Path::parse(alloc, to)?,
    })
}

fn is_done(reply: &Option<Reply>) -> bool {
    matches!(reply, Some(Reply::Done))
}

fn is_refused(reply: &Option<Reply>, cause: Refusal) -> bool {
    match reply {
        Some(Reply::Refused(told)) => *told == cause,
        _ => false,
    }
}

fn lists(reply: &Option<Reply>, expected: &[(&[u8], bool)]) -> bool {
    match reply {
        Some(Reply::Listed { total, names }) => {
            let same = names
                .all()
                .iter()
                .zip(expected)
                .all(|(name, line)| name.0.all() == line.0 && name.1 == line.1);
            same && *total as usize == expected.len() && names.all().len() == expected.len()
        }
        _ => false,
    }
}

#[test]
fn a_directory_stays_out_of_itself(rt: HostRuntime) -> Result<(), Fail> {
    let alloc = rt.alloc();
    let mut tree = Tree::root_alone(alloc)?;
    assert!(rt; is_done(&step(&rt, alloc, &mut tree, 1, &mkdir(alloc, b"/a")?)?));
    assert!(rt;
        is_refused(
            &step(&rt, alloc, &mut tree, 2, &rename(alloc, b"/a", b"/a/b")?)?,
            Refusal::Loop
        )
    );
    assert!(rt; is_done(&step(&rt, alloc, &mut tree, 2, &rename(alloc, b"/a", b"/a")?)?));
    assert!(rt; is_done(&step(&rt, alloc, &mut tree, 2, &create(alloc, b"/f")?)?));
    assert!(rt; is_done(&step(&rt, alloc, &mut tree, 3, &create(alloc, b"/g")?)?));
    assert!(rt; is_done(&step(&rt, alloc, &mut tree, 4, &rename(alloc, b"/f", b"/g")?)?));
    let list = Command::List {
        path: Path::parse(alloc, b"/")?,
        skip: 0,
    };
    assert!(rt;
        lists(
            &step(&rt, alloc, &mut tree, 4, &list)?,
            &[(b"a", true), (b"g", false)]
        )
    );
    let root = step(&rt, alloc, &mut tree, 4, &stat(alloc, b"/")?)?;
    assert!(rt;
        matches!(
            root,
            Some(Reply::StatDir {
                entries: 2,
                changes: 5
            })
        )
    );
    Ok(())
}

#[test]
fn the_first_check_that_fails_is_told(rt: HostRuntime) -> Result<(), Fail> {
    let alloc = rt.alloc();
    let mut tree = Tree::root_alone(alloc)?;
    assert!(rt; is_done(&step(&rt, alloc, &mut tree, 1, &mkdir(alloc, b"/d")?)?));
    assert!(rt; is_done(&step(&rt, alloc, &mut tree, 2, &create(alloc, b"/d/f")?)?));
    assert!(rt;
        is_refused(
            &step(&rt, alloc, &mut tree, 3, &create(alloc, b"/d")?)?,
            Refusal::Exists
        )
    );
    assert!(rt;
        is_refused(
            &step(&rt, alloc, &mut tree, 3, &rmdir(alloc, b"/d")?)?,
            Refusal::NotEmpty
        )
    );
    assert!(rt;
        is_refused(
            &step(&rt, alloc, &mut tree, 3, &unlink(alloc, b"/d")?)?,
            Refusal::IsDir
        )
    );
    assert!(rt;
        is_refused(
            &step(&rt, alloc, &mut tree, 3, &rmdir(alloc, b"/")?)?,
            Refusal::Root
        )
    );
    assert!(rt;
        is_refused(
            &step(&rt, alloc, &mut tree, 3, &stat(alloc, b"/x/y")?)?,
            Refusal::NoEntry
        )
    );
    assert!(rt;
        is_refused(
            &step(&rt, alloc, &mut tree, 3, &stat(alloc, b"/d/f/y")?)?,
            Refusal::NotDir
        )
    );
    assert!(rt;
        is_refused(
            &step(&rt, alloc, &mut tree, 3, &rmdir(alloc, b"/d/f")?)?,
            Refusal::NotDir
        )
    );
    assert!(rt;
        is_refused(
            &step(&rt, alloc, &mut tree, 3, &rename(alloc, b"/d", b"/d/f/x")?)?,
            Refusal::NotDir
        )
    );
    Ok(())
}

#[test]
fn other_commands_are_left(rt: HostRuntime) -> Result<(), Fail> {
    let alloc = rt.alloc();
    let mut tree = Tree::root_alone(alloc)?;
    assert!(rt; step(&rt, alloc, &mut tree, 1, &Command::Sync)?.is_none());
    Ok(())
}
