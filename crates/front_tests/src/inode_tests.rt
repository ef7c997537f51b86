//! Examples worked by hand: which inode a new row gets, before and after the stream that gave one up is sealed.
use super::trials::{create, do_it, fresh, sync, take_stream};
use ccfs_base::{Command, Path, Refusal, Reply};
use front_core::Front;
use std::alloc::Global;
use std::test::Fail;

/// A front of two streams whose actors 1 and 2 have them, and in which nothing is unsealed: the root has the inode 0, `/d` the inode 2,
/// and `/f` the inode 3. Actor 1 then removes `/f`, which isn't sealed.
fn with_one_given_up(alloc: Global) -> Result<Front, Fail> {
    let mut front = fresh(alloc, 100)?;
    take_stream(&mut front, 1, 1)?;
    take_stream(&mut front, 2, 2)?;
    create(alloc, &mut front, 1, b"/d")?;
    create(alloc, &mut front, 1, b"/f")?;
    sync(&mut front, 1, 1)?;
    let unlink = Command::Unlink {
        path: Path::parse(alloc, b"/f")?,
    };
    do_it(&mut front, 1, &unlink)?;
    Ok(front)
}

/// A sync of an actor, with the number of seals that it tells; then files that actors make; and the inodes of all rows then.
type Row = (
    Option<(u8, u64)>,
    &'static [(u8, &'static [u8])],
    &'static [u32],
);

const ROWS: [Row; 5] = [
    // Another stream doesn't get the inode whose removal isn't sealed, nor behind a sync of a third one.
    (None, &[(2, b"/g")], &[0, 2, 3, 4]),
    (Some((0, 1)), &[(2, b"/g")], &[0, 2, 3, 4]),
    // It makes one of the removed name, by which the first stream is sealed: the inode is free then.
    (None, &[(2, b"/f")], &[0, 2, 3, 3]),
    // The first stream is sealed before. The next row gets the next one.
    (Some((1, 2)), &[(2, b"/g")], &[0, 2, 3, 3]),
    (Some((1, 2)), &[(1, b"/g"), (1, b"/h")], &[0, 2, 3, 3, 4]),
];

/// Whether the rows have these inodes once a row's calls were made.
fn goes(alloc: Global, row: &Row) -> Result<bool, Fail> {
    let mut front = with_one_given_up(alloc)?;
    let (synced, files, inodes) = row;
    if let Some((actor, seals)) = synced
        && *actor < 64
    {
        sync(&mut front, *actor, *seals)?;
    }
    for (actor, path) in *files {
        if *actor < 64 {
            create(alloc, &mut front, *actor, path)?;
        }
    }
    Ok(front.inodes() == *inodes)
}

#[test]
fn an_inode_is_free_once_its_stream_is_sealed(rt: HostRuntime) -> Result<(), Fail> {
    for row in &ROWS {
        assert!(rt; goes(rt.alloc(), row)?, "at {row:?}");
    }
    Ok(())
}

/// The path of a file in the root whose name is a digit and a letter.
fn path_of(alloc: Global, number: u8) -> Result<Path, Fail> {
    let text = [b'/', b'0' + number % 10, b'a' + number / 10 % 10];
    Ok(Path::parse(alloc, &text)?)
}

#[test]
fn a_full_image_has_none(rt: HostRuntime) -> Result<(), Fail> {
    let mut front = fresh(rt.alloc(), 100)?;
    for number in 0..30 {
        let command = Command::Create {
            path: path_of(rt.alloc(), number)?,
        };
        do_it(&mut front, 0, &command)?;
    }
    let more = Command::Create {
        path: path_of(rt.alloc(), 30)?,
    };
    let reply = front.act(0, &more)?;
    assert!(rt; matches!(reply, Reply::Refused(Refusal::NoInode)));
    Ok(())
}
