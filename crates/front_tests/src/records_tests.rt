//! The records of updates by the words of the format, in a volume of 32 inodes: the inode records begin at byte 12,288 and the slots
//! at byte 20,480.
use ccfs_base::{Bytes, Name, Rec};
use std::test::Fail;
use tree_model::Update;
use update_records::records_of;

/// Whether a record puts so many bytes at a place, which begin with these and go on with zeros.
fn is_range(rec: &Rec, place: u64, size: usize, front: &[u8]) -> bool {
    match rec {
        Rec::Range { off, bytes } => {
            let bytes = bytes.all();
            *off == place
                && bytes.len() == size
                && front.len() <= bytes.len()
                && &bytes[..front.len()] == front
                && bytes[front.len()..].iter().all(|byte| *byte == 0)
        }
        _ => false,
    }
}

/// Whether a record raises the counter at a place by so much.
fn is_add(rec: &Rec, place: u64, more: u64) -> bool {
    match rec {
        Rec::Add { off, by } => *off == place && *by == more,
        _ => false,
    }
}

/// Whether a record sets or clears a bit of the byte at a place.
fn is_bit(rec: &Rec, place: u64, at: u8, set: bool) -> bool {
    match rec {
        Rec::Bit { off, bit, on } => *off == place && *bit == at && *on == set,
        _ => false,
    }
}

#[test]
fn a_made_directory_has_five_records(rt: HostRuntime) -> Result<(), Fail> {
    let update = Update::Make {
        dir: 0,
        name: Name::parse(b"a")?,
        id: 1,
        is_dir: true,
    };
    let Some(recs) = records_of(rt.alloc(), 32, &[0, 2], &update)? else {
        return Err("it has no records".into());
    };
    let recs = recs.all();
    assert!(rt; recs.len() == 5);
    assert!(rt; is_range(&recs[0], 12800, 24, &[1]));
    assert!(rt; is_range(&recs[1], 20736, 69, &[0, 0, 0, 0, 1, b'a']));
    assert!(rt; is_bit(&recs[2], 8192, 2, true));
    assert!(rt; is_add(&recs[3], 16, u64::MAX));
    assert!(rt; is_add(&recs[4], 12304, 1));
    Ok(())
}

#[test]
fn a_removed_entry_gives_its_inode_up(rt: HostRuntime) -> Result<(), Fail> {
    let update = Update::Remove {
        dir: 0,
        name: Name::parse(b"a")?,
        id: 1,
        stays: false,
    };
    let Some(recs) = records_of(rt.alloc(), 32, &[0, 9], &update)? else {
        return Err("it has no records".into());
    };
    let recs = recs.all();
    assert!(rt; recs.len() == 3);
    assert!(rt; is_bit(&recs[0], 8193, 1, false));
    assert!(rt; is_add(&recs[1], 16, 1));
    assert!(rt; is_add(&recs[2], 12304, 1));
    Ok(())
}

#[test]
fn a_move_over_a_file_gives_that_ones_inode_up(rt: HostRuntime) -> Result<(), Fail> {
    let update = Update::Move {
        dir: 0,
        name: Name::parse(b"f")?,
        to_dir: 1,
        to_name: Name::parse(b"g")?,
        id: 2,
        is_dir: false,
        replaced: Some(3),
        stays: false,
    };
    let Some(recs) = records_of(rt.alloc(), 32, &[0, 2, 3, 4], &update)? else {
        return Err("it has no records".into());
    };
    let recs = recs.all();
    assert!(rt; recs.len() == 5);
    assert!(rt; is_bit(&recs[0], 8192, 4, false));
    assert!(rt; is_add(&recs[1], 16, 1));
    assert!(rt; is_range(&recs[2], 20864, 69, &[2, 0, 0, 0, 1, b'g']));
    assert!(rt; is_add(&recs[3], 12304, 1));
    assert!(rt; is_add(&recs[4], 12816, 1));
    Ok(())
}

#[test]
fn what_is_not_built_has_none(rt: HostRuntime) -> Result<(), Fail> {
    let bytes = Bytes::of(rt.alloc(), &[1])?;
    let write = Update::Write {
        id: 1,
        off: 0,
        bytes,
    };
    assert!(rt; records_of(rt.alloc(), 32, &[0, 2], &write)?.is_none());
    let stays = Update::Remove {
        dir: 0,
        name: Name::parse(b"a")?,
        id: 1,
        stays: true,
    };
    assert!(rt; records_of(rt.alloc(), 32, &[0, 2], &stays)?.is_none());
    Ok(())
}
