//! That a command which is written as a line is read again as that command: each line here is read, and what was read is
//! written anew.
use ccfs_base::{Bytes, Command, NoMemory, Path, Reply};
use itoa::Buffer;
use script_text::{Line, parse_data, parse_line, reply_text};
use std::alloc::Global;
use std::test::Fail;

/// Puts a number behind a label.
fn put_number(line: &mut Bytes, label: &[u8], n: u64) -> Result<(), NoMemory> {
    let mut buffer = Buffer::new();
    line.append(label)?;
    line.append(buffer.format(n).as_bytes())
}

/// The word that a reply prints for bytes.
fn word_of(alloc: Global, bytes: &Bytes) -> Result<Bytes, NoMemory> {
    let printed = reply_text(
        alloc,
        0,
        &Reply::Got {
            bytes: bytes.copy()?,
        },
    )?;
    let word = printed.all().strip_prefix(b"0 ok ").unwrap_or(b"?");
    Bytes::of(alloc, word.strip_suffix(b"\n").unwrap_or(b"?"))
}

/// Puts the words of a command with a path behind its name.
fn put_path(line: &mut Bytes, name: &[u8], path: &Path) -> Result<(), NoMemory> {
    line.append(name)?;
    line.append(path.all())
}

/// Puts a place and bytes.
fn put_bytes(alloc: Global, line: &mut Bytes, off: u64, bytes: &Bytes) -> Result<(), NoMemory> {
    put_number(line, b" ", off)?;
    line.append(b" ")?;
    line.append(word_of(alloc, bytes)?.all())
}

/// Puts the words of a command that has neither a path nor bytes.
fn put_short(line: &mut Bytes, command: &Command) -> Result<(), NoMemory> {
    match command {
        Command::HRead { handle, off, len } => {
            put_number(line, b" hread ", u64::from(*handle))?;
            put_number(line, b" ", *off)?;
            put_number(line, b" ", u64::from(*len))
        }
        Command::Close { handle } => put_number(line, b" close ", u64::from(*handle)),
        Command::Fsync { handle } => put_number(line, b" fsync ", u64::from(*handle)),
        Command::SetStream { stream, ignore } => {
            put_number(line, b" setstream ", u64::from(*stream))?;
            line.append(if *ignore { b" ignore".as_slice() } else { b"" })
        }
        Command::Space => line.append(b" space"),
        Command::StreamSync => line.append(b" streamsync"),
        Command::Sync => line.append(b" sync"),
        Command::Flush => line.append(b" flush"),
        _ => Ok(()),
    }
}

/// Puts the words of a command.
fn put_command(alloc: Global, line: &mut Bytes, command: &Command) -> Result<(), NoMemory> {
    match command {
        Command::Mkdir { path } => put_path(line, b" mkdir ", path),
        Command::Create { path } => put_path(line, b" create ", path),
        Command::Unlink { path } => put_path(line, b" unlink ", path),
        Command::Rmdir { path } => put_path(line, b" rmdir ", path),
        Command::OpenFile { path } => put_path(line, b" open ", path),
        Command::Stat { path } => put_path(line, b" stat ", path),
        Command::Rename { path, to } => {
            put_path(line, b" rename ", path)?;
            put_path(line, b" ", to)
        }
        Command::Write { path, off, bytes } => {
            put_path(line, b" write ", path)?;
            put_bytes(alloc, line, *off, bytes)
        }
        Command::HWrite { handle, off, bytes } => {
            put_number(line, b" hwrite ", u64::from(*handle))?;
            put_bytes(alloc, line, *off, bytes)
        }
        Command::Resize { path, len } => {
            put_path(line, b" resize ", path)?;
            put_number(line, b" ", *len)
        }
        Command::Read { path, off, len } => {
            put_path(line, b" read ", path)?;
            put_number(line, b" ", *off)?;
            put_number(line, b" ", u64::from(*len))
        }
        Command::List { path, skip } => {
            put_path(line, b" list ", path)?;
            put_number(line, b" ", u64::from(*skip))
        }
        _ => put_short(line, command),
    }
}

/// The line that asks for what a line asks for.
fn written_anew(alloc: Global, text: &[u8]) -> Result<Bytes, Fail> {
    let Ok(Line::Call { actor, command }) = parse_line(alloc, text) else {
        return Err("the line is no call".into());
    };
    let mut line = Bytes::new(alloc);
    put_number(&mut line, b"", u64::from(actor))?;
    put_command(alloc, &mut line, &command)?;
    Ok(line)
}

#[test]
fn a_call_that_is_written_is_read_again(rt: HostRuntime) -> Result<(), Fail> {
    for line in [
        b"0 mkdir /a".as_slice(),
        b"1 create /a/f",
        b"2 unlink /a/f",
        b"3 rmdir /a",
        b"4 open /a/f",
        b"5 stat /",
        b"6 rename /a /b/c",
        b"7 write /a 0 -",
        b"8 write /a 4294967295 01*9+0a0b",
        b"9 resize /a 4292608",
        b"10 read /a 7 4096",
        b"11 hwrite 255 0 ff*65536",
        b"12 hread 0 1 2",
        b"13 close 3",
        b"14 fsync 3",
        b"15 list /a 64",
        b"16 setstream 63",
        b"17 setstream 0 ignore",
        b"18 space",
        b"19 streamsync",
        b"20 sync",
        b"63 flush",
    ] {
        assert_eq!(rt; written_anew(rt.alloc(), line)?.all(), line);
    }
    Ok(())
}

#[test]
fn bytes_that_are_printed_are_read_again(rt: HostRuntime) -> Result<(), Fail> {
    for bytes in [
        b"".as_slice(),
        b"a",
        b"aaaaaaa",
        b"aaaaaaaa",
        b"aaaaaaaabbbbbbbbb",
        b"abcaaaaaaaaabc\0\0\0\0\0\0\0\0\xFF",
    ] {
        let word = word_of(rt.alloc(), &Bytes::of(rt.alloc(), bytes)?)?;
        let read = parse_data(rt.alloc(), word.all())?;
        assert!(rt; read.is_some_and(|read| read.all() == bytes));
    }
    Ok(())
}
