//! What no clause says of the texts of bytes and of the words that stand for bytes: that the definitions mean those that are
//! written here by hand.
use ccfs_base::{Bytes, Name, Names, NoMemory, Reply};
use script_text::{item_text, parse_data, reply_text};
use std::alloc::Global;
use std::process::Abort;
use std::test::Fail;
use tree_model::{Item, ItemKind, Picture};

/// Runs one behind the other, each a byte and how often it stands.
fn bytes_of(alloc: Global, runs: &[(u8, usize)]) -> Result<Bytes, NoMemory> {
    let mut bytes = Bytes::new(alloc);
    for (byte, count) in runs {
        for _ in 0..*count {
            bytes.push(*byte)?;
        }
    }
    Ok(bytes)
}

fn assert_text(
    rt: &impl Abort,
    alloc: Global,
    runs: &[(u8, usize)],
    text: &[u8],
) -> Result<(), NoMemory> {
    let bytes = bytes_of(alloc, runs)?;
    assert_eq!(rt; reply_text(alloc, 0, &Reply::Got { bytes })?.all(), text);
    Ok(())
}

#[test]
fn a_run_of_8_is_a_piece_of_its_own(rt: HostRuntime) -> Result<(), Fail> {
    for (count, text) in [
        (0, b"0 ok -\n".as_slice()),
        (1, b"0 ok 0a\n".as_slice()),
        (7, b"0 ok 0a0a0a0a0a0a0a\n".as_slice()),
        (8, b"0 ok 0a*8\n".as_slice()),
        (9, b"0 ok 0a*9\n".as_slice()),
        (65_536, b"0 ok 0a*65536\n".as_slice()),
    ] {
        assert_text(&rt, rt.alloc(), &[(10, count)], text)?;
    }
    Ok(())
}

#[test]
fn shorter_neighbours_are_one_piece(rt: HostRuntime) -> Result<(), Fail> {
    let alloc = rt.alloc();
    assert_text(
        &rt,
        alloc,
        &[(1, 2), (255, 1), (171, 1)],
        b"0 ok 0101ffab\n",
    )?;
    assert_text(
        &rt,
        alloc,
        &[(1, 7), (2, 7)],
        b"0 ok 0101010101010102020202020202\n",
    )?;
    assert_text(&rt, alloc, &[(1, 8), (2, 1), (3, 1)], b"0 ok 01*8+0203\n")?;
    assert_text(&rt, alloc, &[(2, 1), (1, 8), (3, 1)], b"0 ok 02+01*8+03\n")?;
    assert_text(&rt, alloc, &[(1, 8), (2, 9)], b"0 ok 01*8+02*9\n")?;
    assert_text(
        &rt,
        alloc,
        &[(2, 1), (1, 7), (3, 8), (4, 1), (5, 8)],
        b"0 ok 0201010101010101+03*8+04+05*8\n",
    )?;
    Ok(())
}

#[test]
fn a_list_has_its_names_behind_the_count(rt: HostRuntime) -> Result<(), Fail> {
    let name = Name::parse(b"n").ok().ok_or("no name")?;
    for (count, text) in [
        (0, b"0 ok 70\n".as_slice()),
        (1, b"0 ok 70 n/\n".as_slice()),
        (
            64,
            b"0 ok 70 n/ n/ n/ n/ n/ n/ n/ n/ n/ n/ n/ n/ n/ n/ n/ n/ n/ n/ n/ n/ n/ n/ n/ n/ n/ n/ n/ n/ n/ n/ n/ n/ n/ n/ n/ n/ n/ n/ n/ n/ n/ n/ n/ n/ n/ n/ n/ n/ n/ n/ n/ n/ n/ n/ n/ n/ n/ n/ n/ n/ n/ n/ n/ n/\n".as_slice(),
        ),
    ] {
        let mut names = Names::new(rt.alloc());
        for _ in 0..count {
            names.push((name, true))?;
        }
        let listed = Reply::Listed { total: 70, names };
        assert_eq!(rt; reply_text(rt.alloc(), 0, &listed)?.all(), text);
    }
    Ok(())
}

#[test]
fn an_item_is_printed_by_its_path(rt: HostRuntime) -> Result<(), Fail> {
    let [a, f] = [b"a", b"f"].map(|text| Name::parse(text).ok());
    let mut picture = Picture::new(rt.alloc());
    picture.push(Item {
        depth: 0,
        name: Name::empty(),
        kind: ItemKind::Dir {
            entries: 1,
            changes: 1,
        },
    })?;
    picture.push(Item {
        depth: 1,
        name: a.ok_or("no name")?,
        kind: ItemKind::Dir {
            entries: 1,
            changes: 2,
        },
    })?;
    picture.push(Item {
        depth: 2,
        name: f.ok_or("no name")?,
        kind: ItemKind::File {
            bytes: bytes_of(rt.alloc(), &[(17, 4096)])?,
        },
    })?;
    for (place, text) in [
        (0, b"dir / entries 1 changes 1\n".as_slice()),
        (1, b"dir /a entries 1 changes 2\n".as_slice()),
        (2, b"file /a/f length 4096 data 11*4096\n".as_slice()),
    ] {
        if place as usize >= picture.all().len() {
            return Err("no such item".into());
        }
        assert_eq!(rt; item_text(rt.alloc(), &picture, place)?.all(), text);
    }
    Ok(())
}

#[test]
fn a_word_of_the_format_stands_for_its_bytes(rt: HostRuntime) -> Result<(), Fail> {
    for (word, want) in [
        (b"-".as_slice(), b"".as_slice()),
        (b"0a".as_slice(), b"\x0a".as_slice()),
        (b"0A0b".as_slice(), b"\x0a\x0b".as_slice()),
        (b"aBCd".as_slice(), b"\xab\xcd".as_slice()),
        (b"00*1".as_slice(), b"\x00".as_slice()),
        (b"Fe*003".as_slice(), b"\xfe\xfe\xfe".as_slice()),
        (
            b"0a0B+07*3+ff".as_slice(),
            b"\x0a\x0b\x07\x07\x07\xff".as_slice(),
        ),
    ] {
        let bytes = parse_data(rt.alloc(), word)?.ok_or("no bytes")?;
        assert_eq!(rt; bytes.all(), want);
    }
    Ok(())
}

#[test]
fn another_word_stands_for_no_bytes(rt: HostRuntime) -> Result<(), Fail> {
    for word in [
        b"a".as_slice(),
        b"abc".as_slice(),
        b"0g".as_slice(),
        b"00*0".as_slice(),
        b"aa*".as_slice(),
        b"aa*x".as_slice(),
        b"aa*-1".as_slice(),
        b"aa*000000000000000000001".as_slice(),
        b"aa*3*3".as_slice(),
        b"aabb*3".as_slice(),
        b"a*3".as_slice(),
        b"*3".as_slice(),
        b"aa+".as_slice(),
        b"+aa".as_slice(),
        b"aa++bb".as_slice(),
        b"-+aa".as_slice(),
        b"--".as_slice(),
    ] {
        assert!(rt; parse_data(rt.alloc(), word)?.is_none());
    }
    Ok(())
}

#[test]
fn a_word_stands_for_at_most_65536_bytes(rt: HostRuntime) -> Result<(), Fail> {
    for word in [
        b"11*65536".as_slice(),
        b"11*65535+22".as_slice(),
        b"22+11*65535".as_slice(),
        b"11*32768+22*32768".as_slice(),
    ] {
        let bytes = parse_data(rt.alloc(), word)?.ok_or("no bytes")?;
        assert_eq!(rt; bytes.len(), 65_536);
    }
    for word in [
        b"11*65537".as_slice(),
        b"11*65536+22".as_slice(),
        b"22+11*65536".as_slice(),
        b"11*32768+22*32769".as_slice(),
        b"11*99999999999999999999".as_slice(),
    ] {
        assert!(rt; parse_data(rt.alloc(), word)?.is_none());
    }
    for (count, is_data) in [(131_072, true), (131_073, false), (131_074, false)] {
        let digits = bytes_of(rt.alloc(), &[(b'7', count)])?;
        let bytes = parse_data(rt.alloc(), digits.all())?;
        assert_eq!(rt; bytes.is_some(), is_data);
    }
    Ok(())
}
