//! How calls end that perform no script: by their words, their source or a fault.
use super::calls::{call, fresh, print, run, words_of};
use ccfs_base::{Bytes, MemSink, MemSource};
use ccfs_top::shell;
use disk_model::{CallKind, Disk, FailPlan, MemDisk};
use std::alloc::Global;
use std::test::Fail;

/// Words that match no row.
const WORDS: &[&[&str]] = &[
    &["ccfs", "run", "A"],
    &["ccfs", "mkfs", "A", "511", "32"],
    &["ccfs", "mkfs", "A", "512", "33"],
    &["ccfs", "mkfs", "A", "512", "1984"],
    &["ccfs", "mkfs", "A", "512", "4294967328"],
    &["ccfs", "mkfs", "A", "512", "000000000000000000032"],
    &["ccfs", "mkfs", "A", "512"],
    &["ccfs", "check", "A"],
    &["ccfs"],
    &[],
];

const USAGE: &[u8] =
    b"usage: ccfs mkfs IMAGE BLOCKS INODES | run IMAGE SCRIPT | race IMAGE SCRIPT | tree IMAGE | check IMAGE | demo IMAGE START COUNT | crash BLOCKS SCRIPT CALL PICK\n";

/// A directory, a file in it, and both made durable.
const FIRST: &[u8] = b"0 mkdir /a\n0 create /a/f\n0 streamsync\n";

/// The test fails where these words get no usage line, or the disk a call.
fn gets_usage(alloc: Global, words: &[&str]) -> Result<(), Fail> {
    let mut out = MemSink::new(alloc, None);
    let ended = call(alloc, words, MemDisk::new(alloc, 0)?, FIRST, &mut out)?;
    if (ended.status, ended.disk.calls()) != (2, 0) || out.held() != USAGE {
        return Err("the words got no usage line".into());
    }
    Ok(())
}

/// The test fails where an image with 32 inodes, told so, is made otherwise.
fn is_made(alloc: Global, inodes: &str) -> Result<(), Fail> {
    let mut out = MemSink::in_pieces(alloc, 1, None);
    let words = ["ccfs", "mkfs", "A", "512", inodes];
    let mut made = call(alloc, &words, MemDisk::new(alloc, 100)?, b"", &mut out)?;
    if made.status != 0 || out.held() != b"made 512 blocks 32 inodes 246 data blocks\n".as_slice() {
        return Err("the image was made otherwise".into());
    }
    let mut front = [0; 36];
    if made.disk.known_size() != 512 * 4096 {
        return Err("the image has another length".into());
    }
    made.disk.read_at(0, &mut front)?;
    if &front[..20] != b"CCFSOWN1\x01\0\0\0\0\x02\0\0\x20\0\0\0".as_slice()
        || &front[20..] != b"\x04\x01\0\0\x07\x01\0\0\x09\x01\0\0\x0a\x01\0\0".as_slice()
    {
        return Err("the superblock is another".into());
    }
    let (status, text) = print(alloc, made.disk)?;
    if status != 0 || text.held() != b"batches 0\ndir / entries 0 changes 0\n".as_slice() {
        return Err("the tree is another".into());
    }
    Ok(())
}

#[test]
fn words_are_answered(rt: HostRuntime) -> Result<(), Fail> {
    for words in WORDS {
        gets_usage(rt.alloc(), words)?;
    }
    for inodes in ["32", "00000000000000000032"] {
        is_made(rt.alloc(), inodes)?;
    }
    Ok(())
}

/// The test fails where a call of these words on a fresh disk with this plan ends otherwise.
fn ends_by(alloc: Global, words: &[&str], plan: FailPlan, said: (u8, &[u8])) -> Result<(), Fail> {
    let mut disk = fresh(alloc)?;
    disk.plan(plan);
    let mut out = MemSink::in_pieces(alloc, 1, None);
    let ended = call(alloc, words, disk, FIRST, &mut out)?;
    if ended.status != said.0 || out.held() != said.1 {
        return Err("the call ended otherwise".into());
    }
    Ok(())
}

/// The test fails where a sink that fails is told otherwise.
fn sink_fails(alloc: Global) -> Result<(), Fail> {
    let mut out = MemSink::new(alloc, Some(1));
    let ended = run(alloc, fresh(alloc)?, FIRST, &mut out)?;
    if ended.status != 6 || !out.held().is_empty() {
        return Err("a sink's fault is told otherwise".into());
    }
    Ok(())
}

/// The test fails where a source that gives this, and fails at that call, is told otherwise.
fn source_ends(
    alloc: Global,
    text: &[u8],
    fails: Option<u64>,
    said: (u8, &[u8]),
) -> Result<(), Fail> {
    let words = words_of(alloc, &["ccfs", "run", "A", "S"])?;
    let mut source = MemSource::new(Bytes::of(alloc, text)?, fails);
    let mut out = MemSink::new(alloc, None);
    let ended = shell(alloc, &words, fresh(alloc)?, &mut source, &mut out);
    if (ended.status, ended.disk.calls()) != (said.0, 0) || out.held() != said.1 {
        return Err("a source is told otherwise".into());
    }
    Ok(())
}

#[test]
fn each_fault_has_its_status_and_line(rt: HostRuntime) -> Result<(), Fail> {
    let alloc = rt.alloc();
    // An opening writes the other half's gates and the master byte, and the sync its batch first.
    let plan = FailPlan::One {
        kind: CallKind::Write,
        number: 3,
    };
    let run = ["ccfs", "run", "A", "S"];
    ends_by(alloc, &run, plan, (7, b"0 ok\n0 ok\nfault: disk\n"))?;
    for words in [
        ["ccfs", "mkfs", "A", "512", "32"].as_slice(),
        &run,
        &["ccfs", "tree", "A"],
    ] {
        ends_by(
            alloc,
            words,
            FailPlan::From { call: 1 },
            (7, b"fault: disk\n"),
        )?;
    }
    sink_fails(alloc)?;
    source_ends(alloc, FIRST, Some(1), (5, b"fault: script\n"))?;
    let long = vec![in alloc; b'\n'; 65_537]?;
    source_ends(alloc, &long, None, (4, b"script too long\n"))
}
