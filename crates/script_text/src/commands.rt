//! The commands that the words of a line ask for.
ghost use Rattle.ccfs_base.specs.Fits.{fits_command};
ghost use Rattle.script_text.specs.Grammar as grammar;
ghost use Rattle.script_text.specs.declared.reading.Unread.TheVariants.{At};
ghost use Rattle.std.specs.Prelude.{ℕ, ◌≡◌, ◌≤◌, Err, IfErr, IfOk, Ok, length, true};

use super::reading::{Unread, check_end, take_byte, take_data, take_number, take_path, take_verb};
use super::verbs::Verb;
use super::words::Words;
use ccfs_base::{Bytes, Command, Path};
use std::alloc::Global;

/// The greatest place in a file, length, or number of names that are left out.
const LAST_OFFSET: u32 = u32::MAX;

/// The greatest handle that a script may name.
const LAST_HANDLE: u8 = 255;

/// The most bytes that are read at once.
const MOST_READ: u32 = 4096;

/// The greatest stream.
const LAST_STREAM: u8 = 63;

/// The command that words ask for.
pub fn parse_command(alloc: Global, words: &mut Words<'_>) -> Result<Command, Unread>
    ensures ok { IfOk result (λ c. grammar.command_of words.old ≡ Ok c) }
    ensures fits { IfOk result (λ c. fits_command c ≡ true) }
    ensures at { IfErr result (λ fault. (place : ℕ) → fault ≡ At place → grammar.command_of words.old ≡ Err place) }
{
    let verb = take_verb(words)?;
    by_verb(alloc, verb, words)
}

// The command of that name that words ask for.
fn by_verb(alloc: Global, verb: Verb, words: &mut Words<'_>) -> Result<Command, Unread>
    ensures ok { IfOk result (λ c. grammar.by_verb verb words.old ≡ Ok c) }
    ensures fits { IfOk result (λ c. fits_command c ≡ true) }
    ensures at { IfErr result (λ fault. (place : ℕ) → fault ≡ At place → grammar.by_verb verb words.old ≡ Err place) }
{
    match verb {
        Verb::Mkdir => path_alone(alloc, words).map(|path| Command::Mkdir { path }),
        Verb::Create => path_alone(alloc, words).map(|path| Command::Create { path }),
        Verb::Unlink => path_alone(alloc, words).map(|path| Command::Unlink { path }),
        Verb::Rmdir => path_alone(alloc, words).map(|path| Command::Rmdir { path }),
        Verb::OpenFile => path_alone(alloc, words).map(|path| Command::OpenFile { path }),
        Verb::Stat => path_alone(alloc, words).map(|path| Command::Stat { path }),
        Verb::Write => write(alloc, words),
        Verb::Resize => resize(alloc, words),
        Verb::Read => read(alloc, words),
        Verb::Rename => rename(alloc, words),
        Verb::HWrite => handle_write(alloc, words),
        Verb::HRead => handle_read(words),
        Verb::Close => handle_alone(words).map(|handle| Command::Close { handle }),
        Verb::Fsync => handle_alone(words).map(|handle| Command::Fsync { handle }),
        Verb::List => list(alloc, words),
        Verb::SetStream => set_stream(words),
        Verb::Space => ended(Command::Space, words),
        Verb::StreamSync => ended(Command::StreamSync, words),
        Verb::Sync => ended(Command::Sync, words),
        Verb::Flush => ended(Command::Flush, words),
    }
}

// A command that no words follow.
fn ended(command: Command, words: &mut Words<'_>) -> Result<Command, Unread>
    ensures ok { IfOk result (λ c. grammar.ended command words.old ≡ Ok c) }
    ensures same { IfOk result (λ c. c ≡ command) }
    ensures at { IfErr result (λ fault. (place : ℕ) → fault ≡ At place → grammar.ended command words.old ≡ Err place) }
{
    check_end(words)?;
    Ok(command)
}

// A path alone.
fn path_alone(alloc: Global, words: &mut Words<'_>) -> Result<Path, Unread>
    ensures ok { IfOk result (λ path. grammar.path_alone words.old ≡ Ok path) }
    ensures at { IfErr result (λ fault. (place : ℕ) → fault ≡ At place → grammar.path_alone words.old ≡ Err place) }
{
    let path = take_path(alloc, words)?;
    check_end(words)?;
    Ok(path)
}

// A handle alone.
fn handle_alone(words: &mut Words<'_>) -> Result<u8, Unread>
    ensures ok { IfOk result (λ handle. grammar.handle_alone words.old ≡ Ok handle) }
    ensures at { IfErr result (λ fault. (place : ℕ) → fault ≡ At place → grammar.handle_alone words.old ≡ Err place) }
{
    let handle = take_byte(words, LAST_HANDLE)?;
    check_end(words)?;
    Ok(handle)
}

// A path and a number.
fn path_and_number(alloc: Global, words: &mut Words<'_>) -> Result<(Path, u32), Unread>
    ensures ok { IfOk result (λ what. grammar.path_and_number words.old ≡ Ok what) }
    ensures at { IfErr result (λ fault. (place : ℕ) → fault ≡ At place → grammar.path_and_number words.old ≡ Err place) }
{
    let path = take_path(alloc, words)?;
    let number = take_number(words, LAST_OFFSET)?;
    check_end(words)?;
    Ok((path, number))
}

// Where bytes go, and which they are.
fn place_and_bytes(alloc: Global, words: &mut Words<'_>) -> Result<(u32, Bytes), Unread>
    ensures ok { IfOk result (λ what. grammar.place_and_bytes words.old ≡ Ok what) }
    ensures few { IfOk result (λ what. length what.1 ≤ 65536) }
    ensures at { IfErr result (λ fault. (place : ℕ) → fault ≡ At place → grammar.place_and_bytes words.old ≡ Err place) }
{
    let off = take_number(words, LAST_OFFSET)?;
    let bytes = take_data(alloc, words)?;
    check_end(words)?;
    Ok((off, bytes))
}

// Where bytes come from, and how many they are.
fn place_and_count(words: &mut Words<'_>) -> Result<(u32, u32), Unread>
    ensures ok { IfOk result (λ what. grammar.place_and_count words.old ≡ Ok what) }
    ensures few { IfOk result (λ what. what.1 ≤ 4096) }
    ensures at { IfErr result (λ fault. (place : ℕ) → fault ≡ At place → grammar.place_and_count words.old ≡ Err place) }
{
    let off = take_number(words, LAST_OFFSET)?;
    let len = take_number(words, MOST_READ)?;
    check_end(words)?;
    Ok((off, len))
}

// A new length of a file.
fn resize(alloc: Global, words: &mut Words<'_>) -> Result<Command, Unread>
    ensures ok { IfOk result (λ c. grammar.resize_of words.old ≡ Ok c) }
    ensures fits { IfOk result (λ c. fits_command c ≡ true) }
    ensures at { IfErr result (λ fault. (place : ℕ) → fault ≡ At place → grammar.resize_of words.old ≡ Err place) }
{
    let (path, len) = path_and_number(alloc, words)?;
    Ok(Command::Resize {
        path,
        len: u64::from(len),
    })
}

// A list of a directory's entries.
fn list(alloc: Global, words: &mut Words<'_>) -> Result<Command, Unread>
    ensures ok { IfOk result (λ c. grammar.list_of words.old ≡ Ok c) }
    ensures fits { IfOk result (λ c. fits_command c ≡ true) }
    ensures at { IfErr result (λ fault. (place : ℕ) → fault ≡ At place → grammar.list_of words.old ≡ Err place) }
{
    let (path, skip) = path_and_number(alloc, words)?;
    Ok(Command::List { path, skip })
}

// A write by a path.
fn write(alloc: Global, words: &mut Words<'_>) -> Result<Command, Unread>
    ensures ok { IfOk result (λ c. grammar.write_of words.old ≡ Ok c) }
    ensures fits { IfOk result (λ c. fits_command c ≡ true) }
    ensures at { IfErr result (λ fault. (place : ℕ) → fault ≡ At place → grammar.write_of words.old ≡ Err place) }
{
    let path = take_path(alloc, words)?;
    let (off, bytes) = place_and_bytes(alloc, words)?;
    Ok(Command::Write {
        path,
        off: u64::from(off),
        bytes,
    })
}

// A read by a path.
fn read(alloc: Global, words: &mut Words<'_>) -> Result<Command, Unread>
    ensures ok { IfOk result (λ c. grammar.read_of words.old ≡ Ok c) }
    ensures fits { IfOk result (λ c. fits_command c ≡ true) }
    ensures at { IfErr result (λ fault. (place : ℕ) → fault ≡ At place → grammar.read_of words.old ≡ Err place) }
{
    let path = take_path(alloc, words)?;
    let (off, len) = place_and_count(words)?;
    Ok(Command::Read {
        path,
        off: u64::from(off),
        len,
    })
}

// A rename.
fn rename(alloc: Global, words: &mut Words<'_>) -> Result<Command, Unread>
    ensures ok { IfOk result (λ c. grammar.rename_of words.old ≡ Ok c) }
    ensures fits { IfOk result (λ c. fits_command c ≡ true) }
    ensures at { IfErr result (λ fault. (place : ℕ) → fault ≡ At place → grammar.rename_of words.old ≡ Err place) }
{
    let path = take_path(alloc, words)?;
    let to = take_path(alloc, words)?;
    check_end(words)?;
    Ok(Command::Rename { path, to })
}

// A write by a handle.
fn handle_write(alloc: Global, words: &mut Words<'_>) -> Result<Command, Unread>
    ensures ok { IfOk result (λ c. grammar.handle_write_of words.old ≡ Ok c) }
    ensures fits { IfOk result (λ c. fits_command c ≡ true) }
    ensures at { IfErr result (λ fault. (place : ℕ) → fault ≡ At place → grammar.handle_write_of words.old ≡ Err place) }
{
    let handle = take_byte(words, LAST_HANDLE)?;
    let (off, bytes) = place_and_bytes(alloc, words)?;
    Ok(Command::HWrite {
        handle,
        off: u64::from(off),
        bytes,
    })
}

// A read by a handle.
fn handle_read(words: &mut Words<'_>) -> Result<Command, Unread>
    ensures ok { IfOk result (λ c. grammar.handle_read_of words.old ≡ Ok c) }
    ensures fits { IfOk result (λ c. fits_command c ≡ true) }
    ensures at { IfErr result (λ fault. (place : ℕ) → fault ≡ At place → grammar.handle_read_of words.old ≡ Err place) }
{
    let handle = take_byte(words, LAST_HANDLE)?;
    let (off, len) = place_and_count(words)?;
    Ok(Command::HRead {
        handle,
        off: u64::from(off),
        len,
    })
}

// A stream, and `ignore` or nothing.
fn set_stream(words: &mut Words<'_>) -> Result<Command, Unread>
    ensures ok { IfOk result (λ c. grammar.set_stream_of words.old ≡ Ok c) }
    ensures fits { IfOk result (λ c. fits_command c ≡ true) }
    ensures at { IfErr result (λ fault. (place : ℕ) → fault ≡ At place → grammar.set_stream_of words.old ≡ Err place) }
{
    let stream = take_byte(words, LAST_STREAM)?;
    let ignore = ignore(words)?;
    Ok(Command::SetStream { stream, ignore })
}

// Whether `ignore` follows.
fn ignore(words: &mut Words<'_>) -> Result<bool, Unread>
    ensures ok { IfOk result (λ ignore. grammar.ignore_in words.old.words ≡ Ok ignore) }
    ensures at { IfErr result (λ fault. (place : ℕ) → fault ≡ At place → grammar.ignore_in words.old.words ≡ Err place) }
{
    let Some(word) = words.next_word() else {
        return Ok(false);
    };
    if word.bytes != b"ignore".as_slice() {
        return Err(Unread::At { place: word.place });
    }
    check_end(words)?;
    Ok(true)
}
