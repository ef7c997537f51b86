//! What no clause says: that calls come through with ample memory, and what the clauses mean at examples of bytes and records.
use ccfs_base::{
    Bytes, Command, FILE_MAX, MemSink, MemSource, Name, Names, Rec, Recs, Reply, SinkFailed,
    Source, SourceFailed, blocks, write_all,
};
use std::test::Fail;

#[test]
fn a_sink_in_small_pieces_takes_all_and_fails_at_its_planned_call(rt: HostRuntime) {
    let mut sink = MemSink::in_pieces(rt.alloc(), 2, Some(4));
    assert!(rt; write_all(&mut sink, b"abcde").is_ok());
    assert_eq!(rt; write_all(&mut sink, b"fg"), Err(SinkFailed));
    assert_eq!(rt; sink.held(), b"abcde".as_slice());
    assert_eq!(rt; sink.faults(), 1);
    assert_eq!(rt; sink.starved(), 0);
}

#[test]
fn a_source_gives_its_bytes_behind_its_planned_failure(rt: HostRuntime) -> Result<(), Fail> {
    let mut source = MemSource::in_pieces(Bytes::of(rt.alloc(), b"abc")?, 2, Some(1));
    let mut into = [0; 4];
    assert_eq!(rt; source.read(&mut into), Err(SourceFailed));
    assert_eq!(rt; source.read(&mut into), Ok(2));
    assert_eq!(rt; into, [b'a', b'b', 0, 0]);
    assert_eq!(rt; source.faults(), 1);
    Ok(())
}

#[test]
fn commands_and_replies_are_copied(rt: HostRuntime) -> Result<(), Fail> {
    let mut bytes = Bytes::of(rt.alloc(), b"a")?;
    bytes.push(b'b')?;
    bytes.append(b"cd")?;
    let write = Command::HWrite {
        handle: 0,
        off: 0,
        bytes,
    };
    assert!(rt; write.copy()?.fits());
    let mut names = Names::new(rt.alloc());
    names.push((Name::empty(), true))?;
    let listed = Reply::Listed { total: 1, names };
    assert!(rt; matches!(listed.copy()?, Reply::Listed { .. }));
    Ok(())
}

#[test]
fn a_file_of_more_than_24_pages_takes_a_block_for_pointers(rt: HostRuntime) {
    assert_eq!(rt; blocks(0), 0);
    assert_eq!(rt; blocks(1), 1);
    assert_eq!(rt; blocks(98_304), 24);
    assert_eq!(rt; blocks(98_305), 26);
    assert_eq!(rt; blocks(FILE_MAX), 1049);
}

#[test]
fn a_gap_is_filled_with_zeros_and_a_cut_forgets_the_tail(rt: HostRuntime) -> Result<(), Fail> {
    let mut bytes = Bytes::of(rt.alloc(), b"abc")?;
    bytes.write_at(1, b"X")?;
    assert_eq!(rt; bytes.all(), b"aXc".as_slice());
    bytes.resize(1)?;
    bytes.write_at(3, b"Y")?;
    assert_eq!(rt; bytes.all(), b"a\0\0Y".as_slice());
    bytes.resize(5)?;
    assert_eq!(rt; bytes.all(), b"a\0\0Y\0".as_slice());
    Ok(())
}

#[test]
fn records_come_back_in_their_order_and_from_a_copy(rt: HostRuntime) -> Result<(), Fail> {
    let mut recs = Recs::new(rt.alloc());
    recs.push(Rec::Range {
        off: 7,
        bytes: Bytes::of(rt.alloc(), b"ab")?,
    })?;
    recs.push(Rec::Add { off: 16, by: 1 })?;
    recs.push(Rec::Bit {
        off: 9,
        bit: 3,
        on: true,
    })?;
    let copy = recs.copy()?;
    assert_eq!(rt; copy.all().len(), 3);
    for rec in copy.all() {
        match rec {
            Rec::Range { off, bytes } => {
                assert_eq!(rt; *off, 7);
                assert_eq!(rt; bytes.all(), b"ab".as_slice());
            }
            Rec::Add { off, by } => assert_eq!(rt; (*off, *by), (16, 1)),
            Rec::Bit { off, bit, on } => assert_eq!(rt; (*off, *bit, *on), (9, 3, true)),
        }
    }
    Ok(())
}
