//! What no clause says of lines and scripts: that the definitions mean the commands, places and faults that are written here by
//! hand.
use ccfs_base::{Bytes, Command, NoMemory};
use script_text::{
    Line, LineFault, MOST_DATA, MOST_SCRIPT_DATA, ScriptFault, parse_line, parse_script,
};
use std::alloc::Global;
use std::test::Fail;

/// The command of a line of actor 5.
fn command(alloc: Global, line: &[u8]) -> Option<Command> {
    match parse_line(alloc, line) {
        Ok(Line::Call { actor: 5, command }) => Some(command),
        _ => None,
    }
}

/// Where a line leaves the grammar.
fn bad_place(alloc: Global, line: &[u8]) -> Option<u32> {
    match parse_line(alloc, line) {
        Err(LineFault::BadLine { place }) => Some(place),
        _ => None,
    }
}

/// The name of a command's variant.
fn kind(command: &Command) -> &'static [u8] {
    match command {
        Command::Mkdir { .. } => b"Mkdir",
        Command::Create { .. } => b"Create",
        Command::Write { .. } => b"Write",
        Command::Resize { .. } => b"Resize",
        Command::Read { .. } => b"Read",
        Command::Unlink { .. } => b"Unlink",
        Command::Rmdir { .. } => b"Rmdir",
        Command::Rename { .. } => b"Rename",
        Command::OpenFile { .. } => b"OpenFile",
        Command::HWrite { .. } => b"HWrite",
        Command::HRead { .. } => b"HRead",
        Command::Close { .. } => b"Close",
        Command::Stat { .. } => b"Stat",
        Command::List { .. } => b"List",
        Command::Space => b"Space",
        Command::SetStream { .. } => b"SetStream",
        Command::StreamSync => b"StreamSync",
        Command::Fsync { .. } => b"Fsync",
        Command::Sync => b"Sync",
        Command::Flush => b"Flush",
    }
}

/// The first path of a command.
fn path(command: &Command) -> &[u8] {
    match command {
        Command::Mkdir { path }
        | Command::Create { path }
        | Command::Unlink { path }
        | Command::Rmdir { path }
        | Command::OpenFile { path }
        | Command::Stat { path }
        | Command::Write { path, .. }
        | Command::Resize { path, .. }
        | Command::Read { path, .. }
        | Command::Rename { path, .. }
        | Command::List { path, .. } => path.all(),
        _ => b"".as_slice(),
    }
}

/// The bytes of a command, or its second path.
fn bytes(command: &Command) -> &[u8] {
    match command {
        Command::Write { bytes, .. } | Command::HWrite { bytes, .. } => bytes.all(),
        Command::Rename { to, .. } => to.all(),
        _ => b"".as_slice(),
    }
}

/// The numbers of a command: its handle or stream, where it reads or writes or what it leaves out, and how many bytes it is about.
fn numbers(command: &Command) -> (u8, u64, u64) {
    match command {
        Command::Write { off, .. } => (0, *off, 0),
        Command::Resize { len, .. } => (0, 0, *len),
        Command::Read { off, len, .. } => (0, *off, u64::from(*len)),
        Command::HWrite { handle, off, .. } => (*handle, *off, 0),
        Command::HRead { handle, off, len } => (*handle, *off, u64::from(*len)),
        Command::Close { handle } | Command::Fsync { handle } => (*handle, 0, 0),
        Command::List { skip, .. } => (0, u64::from(*skip), 0),
        Command::SetStream { stream, ignore } => (*stream, u64::from(*ignore), 0),
        _ => (0, 0, 0),
    }
}

/// Whether a line is read as a command of that variant, with that path.
fn is_read_with_path(alloc: Global, line: &[u8], name: &[u8], want: &[u8]) -> bool {
    match command(alloc, line) {
        Some(read) => kind(&read) == name && path(&read) == want,
        None => false,
    }
}

/// Whether a line is read as a command of that variant, with those bytes or that second path.
fn is_read_with_bytes(alloc: Global, line: &[u8], name: &[u8], want: &[u8]) -> bool {
    match command(alloc, line) {
        Some(read) => kind(&read) == name && bytes(&read) == want,
        None => false,
    }
}

#[test]
fn a_line_without_words_or_behind_a_hash_is_skipped(rt: HostRuntime) -> Result<(), Fail> {
    for text in [
        b"".as_slice(),
        b" \t".as_slice(),
        b"# 0 mkdir /a".as_slice(),
        b" #0 mkdir /a".as_slice(),
        b"#".as_slice(),
    ] {
        assert!(rt; matches!(parse_line(rt.alloc(), text), Ok(Line::Skip)));
    }
    Ok(())
}

#[test]
fn a_command_on_a_path_is_read(rt: HostRuntime) {
    for (line, name, want) in [
        (
            b"\t0005  mkdir /a/b\t".as_slice(),
            b"Mkdir".as_slice(),
            b"/a/b".as_slice(),
        ),
        (b"5 create /", b"Create", b"/"),
        (b"5 unlink /#", b"Unlink", b"/#"),
        (b"5 rmdir /...", b"Rmdir", b"/..."),
        (b"5 open /a+b", b"OpenFile", b"/a+b"),
        (b"5 stat /-", b"Stat", b"/-"),
    ] {
        assert!(rt; is_read_with_path(rt.alloc(), line, name, want));
    }
}

#[test]
fn a_command_with_numbers_is_read(rt: HostRuntime) -> Result<(), Fail> {
    for (line, name, want) in [
        (
            b"5 resize /a 4294967295".as_slice(),
            b"Resize".as_slice(),
            (0, 0, 4_294_967_295),
        ),
        (
            b"5 read /a 00000000000000000007 4096",
            b"Read",
            (0, 7, 4096),
        ),
        (b"5 hread 255 7 0", b"HRead", (255, 7, 0)),
        (b"5 list / 64", b"List", (0, 64, 0)),
        (b"5 close 3", b"Close", (3, 0, 0)),
        (b"5 fsync 16", b"Fsync", (16, 0, 0)),
        (b"5 setstream 63", b"SetStream", (63, 0, 0)),
        (b"5 setstream 1 ignore", b"SetStream", (1, 1, 0)),
    ] {
        let read = command(rt.alloc(), line).ok_or("no command")?;
        assert_eq!(rt; (kind(&read), numbers(&read)), (name, want));
    }
    Ok(())
}

#[test]
fn a_command_with_bytes_or_without_words_is_read(rt: HostRuntime) {
    for (line, name, want) in [
        (
            b"5 write /f 9 0a0B+ff*2".as_slice(),
            b"Write".as_slice(),
            b"\x0a\x0b\xff\xff".as_slice(),
        ),
        (b"5 hwrite 2 0 -", b"HWrite", b""),
        (b"5 rename /a /b", b"Rename", b"/b"),
        (b"5 space", b"Space", b""),
        (b"5 streamsync", b"StreamSync", b""),
        (b"5 sync", b"Sync", b""),
        (b"5 flush \t", b"Flush", b""),
    ] {
        assert!(rt; is_read_with_bytes(rt.alloc(), line, name, want));
    }
}

#[test]
fn a_line_outside_the_grammar_is_told_with_its_place(rt: HostRuntime) {
    for (line, place) in [
        (b"64 streamsync".as_slice(), 0),
        (b"mkdir /a".as_slice(), 0),
        (b"  +1 sync".as_slice(), 2),
        (b"000000000000000000000 sync".as_slice(), 0),
        (b"\x0b0 sync".as_slice(), 0),
        (b"0".as_slice(), 1),
        (b" 0 \t".as_slice(), 4),
        (b"0 mkdirs /a".as_slice(), 2),
        (b"0 Create /a".as_slice(), 2),
        (b"0 sync\n".as_slice(), 2),
        (b"0 sync\r".as_slice(), 2),
        (b"0 streamsync 1".as_slice(), 13),
        (b"0 create".as_slice(), 8),
        (b"0 create  ".as_slice(), 10),
        (b"0 create a".as_slice(), 9),
        (b"0 create /a/".as_slice(), 9),
        (b"0 create /.".as_slice(), 9),
        (b"0 create /a/..".as_slice(), 9),
        (b"0 create /a\r".as_slice(), 9),
        (b"0 create /a\t\t/b".as_slice(), 13),
        (b"0 rename /a b".as_slice(), 12),
        (b"0 rename a".as_slice(), 9),
        (b"0 rename /a".as_slice(), 11),
    ] {
        assert_eq!(rt; bad_place(rt.alloc(), line), Some(place));
    }
}

#[test]
fn a_number_past_its_range_is_told_with_its_place(rt: HostRuntime) {
    for (line, place) in [
        (b"0 resize /f 4294967296".as_slice(), 12),
        (b"0 resize /f 99999999999999999999".as_slice(), 12),
        (b"0 resize /f 000000000000000000005".as_slice(), 12),
        (b"0 resize /f -5".as_slice(), 12),
        (b"0 read /f 0 4097".as_slice(), 12),
        (b"0 read /f x 4097".as_slice(), 10),
        (b"0 hread 256 0 1".as_slice(), 8),
        (b"0 close 256".as_slice(), 8),
        (b"0 list / 4294967296".as_slice(), 9),
        (b"0 list /".as_slice(), 8),
        (b"0 setstream 64".as_slice(), 12),
        (b"0 setstream 5 ignored".as_slice(), 14),
        (b"0 setstream 5 ignore x".as_slice(), 21),
        (b"0 write /f 0".as_slice(), 12),
        (b"0 write /f 0 0a0".as_slice(), 13),
        (b"0 write /f 0 11*65537".as_slice(), 13),
        (b"0 write /f 0 00*0 x".as_slice(), 13),
        (b"0 write /f 0 00 x".as_slice(), 16),
        (b"0 hwrite 0 0 - -".as_slice(), 15),
    ] {
        assert_eq!(rt; bad_place(rt.alloc(), line), Some(place));
    }
}

#[test]
fn a_name_has_at_most_64_bytes_and_a_path_4096(rt: HostRuntime) -> Result<(), Fail> {
    let most = b"5 create /123456789_123456789_123456789_123456789_123456789_123456789_1234";
    assert_eq!(rt;
        path(&command(rt.alloc(), most).ok_or("no command")?).len(),
        65
    );
    let more = b"5 create /123456789_123456789_123456789_123456789_123456789_123456789_12345";
    assert_eq!(rt; bad_place(rt.alloc(), more), Some(9));
    let mut line = Bytes::of(rt.alloc(), b"5 create ")?;
    for _ in 0..64 {
        line.append(b"/123456789_123456789_123456789_123456789_123456789_123456789_123")?;
    }
    assert_eq!(rt;
        path(&command(rt.alloc(), line.all()).ok_or("no command")?).len(),
        4096
    );
    line.push(b'4')?;
    assert_eq!(rt; bad_place(rt.alloc(), line.all()), Some(9));
    Ok(())
}

#[test]
fn the_lines_of_a_script_are_counted_from_1(rt: HostRuntime) -> Result<(), Fail> {
    let calls = parse_script(rt.alloc(), b"# a tree\r\n\n0 mkdir /a\r\n1 streamsync")
        .ok()
        .ok_or("no calls")?;
    assert_eq!(rt; calls.len(), 2);
    assert_eq!(rt; (calls[0].line, calls[0].actor), (3, 0));
    assert_eq!(rt; (calls[1].line, calls[1].actor), (4, 1));
    Ok(())
}

#[test]
fn a_bad_line_comes_before_one_that_is_not_built(rt: HostRuntime) {
    for (text, fault) in [
        (
            b"0 mkdir /a\n0 space\n0 flush\n".as_slice(),
            ScriptFault::NotBuilt { line: 2 },
        ),
        (
            b"0 space\n0 mkdir /a\n0 spaces\n1\n".as_slice(),
            ScriptFault::BadLine { line: 3 },
        ),
        (b"\n0 mkdir a".as_slice(), ScriptFault::BadLine { line: 2 }),
    ] {
        assert_eq!(rt; parse_script(rt.alloc(), text).err(), Some(fault));
    }
}

/// A line that stands for as many bytes as one may at most.
const FULL: &[u8] = b"0 write /f 0 11*65536\n";

/// Lines whose data words leave 10 bytes to the script.
fn full_lines(alloc: Global) -> Result<Bytes, NoMemory> {
    let mut text = Bytes::new(alloc);
    for _ in 1..MOST_SCRIPT_DATA / MOST_DATA {
        text.append(FULL)?;
    }
    text.append(b"0 write /f 0 11*65526\n")?;
    Ok(text)
}

/// The fault of a script whose data words have 10 bytes left behind its head.
fn fault_of(alloc: Global, head: &[u8], tail: &[u8]) -> Result<Option<ScriptFault>, NoMemory> {
    let mut text = Bytes::new(alloc);
    text.append(head)?;
    text.append(full_lines(alloc)?.all())?;
    text.append(tail)?;
    Ok(parse_script(alloc, text.all()).err())
}

/// What stands before the full lines and behind them, and the fault.
const LONG: [(&[u8], &[u8], ScriptFault); 5] = [
    (
        b"",
        b"0 write /f 0 11*10\n0 mkdir /a",
        ScriptFault::NotBuilt { line: 1 },
    ),
    (
        b"",
        b"0 write /f 0 11*10\n0 hwrite 0 0 22",
        ScriptFault::Long,
    ),
    (
        b"x\n",
        b"0 write /f 0 11*10\n0 hwrite 0 0 -",
        ScriptFault::BadLine { line: 1 },
    ),
    (
        b"x\n",
        b"0 write /f 0 11*10\n0 hwrite 0 0 22 x",
        ScriptFault::BadLine { line: 1 },
    ),
    (
        b"x\n",
        b"0 write /f 0 11*10\n0 hwrite 0 0 22",
        ScriptFault::Long,
    ),
];

#[test]
fn the_bytes_of_data_words_are_counted_in_all_lines(rt: HostRuntime) -> Result<(), Fail> {
    for (head, tail, fault) in &LONG {
        assert_eq!(rt; fault_of(rt.alloc(), head, tail)?, Some(*fault));
    }
    Ok(())
}
