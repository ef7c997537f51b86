//! What no clause says: that the definitions mean the lines, words and texts that are written here by hand.
use ccfs_base::{Bytes, Name, Names, Refusal, Reply};
use script_text::{
    bad_image_text, bad_line_text, count_lines, disk_fault_text, made_text, memory_fault_text,
    next_line, not_built_text, number, reply_text, script_fault_text, too_long_text, tree_text,
    usage_text,
};
use std::alloc::{AllocError, Global};
use std::process::Abort;
use std::test::Fail;
use tree_model::{Item, ItemKind};

#[test]
fn a_line_ends_with_a_line_feed_or_the_script(rt: HostRuntime) {
    for (text, first, count) in [
        (b"a\r\nb".as_slice(), b"a".as_slice(), 2),
        (b"a\r\r\n".as_slice(), b"a\r".as_slice(), 1),
        (b"a\rb\n\n".as_slice(), b"a\rb".as_slice(), 2),
        (b"\nb".as_slice(), b"".as_slice(), 2),
        (b"a\r".as_slice(), b"a".as_slice(), 1),
    ] {
        assert_eq!(rt; next_line(text).map(|cut| cut.0), Some(first));
        assert_eq!(rt; count_lines(text), count);
    }
    assert!(rt; next_line(b"").is_none());
}

#[test]
fn a_number_is_1_to_20_digits(rt: HostRuntime) {
    assert_eq!(rt; number(b"0063"), Some(63));
    assert_eq!(rt; number(b"00000000000000000007"), Some(7));
    assert_eq!(rt;
        number(b"99999999999999999999"),
        Some(99_999_999_999_999_999_999)
    );
    for word in [
        b"".as_slice(),
        b"000000000000000000007".as_slice(),
        b"7a".as_slice(),
        b"-7".as_slice(),
    ] {
        assert!(rt; number(word).is_none());
    }
}

fn assert_printed(
    rt: &impl Abort,
    alloc: Global,
    reply: &Reply,
    text: &[u8],
) -> Result<(), AllocError> {
    assert_eq!(rt; reply_text(alloc, 63, reply)?.all(), text);
    Ok(())
}

#[test]
fn replies_are_printed_as_the_format_says(rt: HostRuntime) -> Result<(), Fail> {
    let alloc = rt.alloc();
    let mut names = Names::new(alloc);
    names.push((Name::parse(b"a").ok().ok_or("no name")?, true))?;
    names.push((Name::parse(b"b").ok().ok_or("no name")?, false))?;
    let empty = Reply::Got {
        bytes: Bytes::new(alloc),
    };
    assert_printed(&rt, alloc, &Reply::Done, b"63 ok\n")?;
    assert_printed(&rt, alloc, &empty, b"63 ok -\n")?;
    assert_printed(&rt, alloc, &Reply::Handle { number: 15 }, b"63 ok 15\n")?;
    assert_printed(
        &rt,
        alloc,
        &Reply::StatDir {
            entries: 2,
            changes: 3,
        },
        b"63 ok dir entries 2 changes 3\n",
    )?;
    assert_printed(
        &rt,
        alloc,
        &Reply::StatFile {
            length: 4097,
            blocks: 2,
        },
        b"63 ok file length 4097 blocks 2\n",
    )?;
    assert_printed(
        &rt,
        alloc,
        &Reply::Listed { total: 9, names },
        b"63 ok 9 a/ b\n",
    )?;
    assert_printed(
        &rt,
        alloc,
        &Reply::Space {
            blocks: 246,
            inodes: 31,
        },
        b"63 ok free blocks 246 inodes 31\n",
    )?;
    assert_printed(&rt, alloc, &Reply::Synced { seals: 12 }, b"63 ok 12\n")?;
    Ok(())
}

#[test]
fn a_refusal_is_printed_by_its_name(rt: HostRuntime) -> Result<(), Fail> {
    for (refusal, text) in [
        (
            Refusal::NoSpace { need: 3, free: 2 },
            b"0 refused NoSpace need 3 free 2\n".as_slice(),
        ),
        (Refusal::NoEntry, b"0 refused NoEntry\n".as_slice()),
        (Refusal::NotDir, b"0 refused NotDir\n".as_slice()),
        (Refusal::IsDir, b"0 refused IsDir\n".as_slice()),
        (Refusal::Exists, b"0 refused Exists\n".as_slice()),
        (Refusal::NotEmpty, b"0 refused NotEmpty\n".as_slice()),
        (Refusal::Root, b"0 refused Root\n".as_slice()),
        (Refusal::Loop, b"0 refused Loop\n".as_slice()),
        (Refusal::FileBig, b"0 refused FileBig\n".as_slice()),
        (Refusal::NoInode, b"0 refused NoInode\n".as_slice()),
        (Refusal::BadHandle, b"0 refused BadHandle\n".as_slice()),
        (Refusal::HandlesFull, b"0 refused HandlesFull\n".as_slice()),
    ] {
        assert_eq!(rt;
            reply_text(rt.alloc(), 0, &Reply::Refused(refusal))?.all(),
            text
        );
    }
    Ok(())
}

#[test]
fn a_tree_is_printed_by_the_paths_of_its_items(rt: HostRuntime) -> Result<(), Fail> {
    let [a, f, b] = [b"a", b"f", b"b"].map(|text| Name::parse(text).ok());
    let picture = [
        Item {
            depth: 0,
            name: Name::empty(),
            kind: ItemKind::Dir {
                entries: 2,
                changes: 5,
            },
        },
        Item {
            depth: 1,
            name: a.ok_or("no name")?,
            kind: ItemKind::Dir {
                entries: 1,
                changes: 1,
            },
        },
        Item {
            depth: 2,
            name: f.ok_or("no name")?,
            kind: ItemKind::File {
                bytes: Bytes::new(rt.alloc()),
            },
        },
        Item {
            depth: 1,
            name: b.ok_or("no name")?,
            kind: ItemKind::Dir {
                entries: 0,
                changes: 0,
            },
        },
    ];
    let text = tree_text(rt.alloc(), 3, &picture)?;
    assert_eq!(rt;
        text.all(),
        b"batches 3\ndir / entries 2 changes 5\ndir /a entries 1 changes 1\nfile /a/f length 0 data -\ndir /b entries 0 changes 0\n".as_slice()
    );
    Ok(())
}

#[test]
fn the_other_lines_are_printed_as_the_format_says(rt: HostRuntime) {
    for (text, want) in [
        (
            usage_text(),
            b"usage: ccfs mkfs IMAGE BLOCKS INODES | run IMAGE SCRIPT | race IMAGE SCRIPT | tree IMAGE | check IMAGE | demo IMAGE START COUNT | crash BLOCKS SCRIPT CALL PICK\n".as_slice(),
        ),
        (too_long_text(), b"script too long\n".as_slice()),
        (script_fault_text(), b"fault: script\n".as_slice()),
        (disk_fault_text(), b"fault: disk\n".as_slice()),
        (memory_fault_text(), b"fault: memory\n".as_slice()),
    ] {
        assert_eq!(rt; text, want);
    }
}

#[test]
fn the_lines_with_numbers_are_printed_as_the_format_says(rt: HostRuntime) -> Result<(), Fail> {
    for (text, want) in [
        (
            not_built_text(rt.alloc(), 65_536)?,
            b"line 65536 not built\n".as_slice(),
        ),
        (
            bad_line_text(rt.alloc(), 7)?,
            b"script line 7 is not a command\n".as_slice(),
        ),
        (
            made_text(rt.alloc(), 512, 32, 246)?,
            b"made 512 blocks 32 inodes 246 data blocks\n".as_slice(),
        ),
        (
            bad_image_text(rt.alloc(), b"Size", 0)?,
            b"bad image Size block 0\n".as_slice(),
        ),
        (
            bad_image_text(rt.alloc(), b"Plain", 260)?,
            b"bad image Plain block 260\n".as_slice(),
        ),
    ] {
        assert_eq!(rt; text.all(), want);
    }
    Ok(())
}
