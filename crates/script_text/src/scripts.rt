//! Whole scripts.
ghost use Rattle.ccfs_base.specs.Fits.{fits_command};
ghost use Rattle.script_text.specs.Grammar.{meaning_of};
ghost use Rattle.script_text.specs.Lines.{lines_of};
ghost use Rattle.script_text.specs.declared.scripts.Call.{Call};
ghost use Rattle.script_text.specs.declared.scripts.ScriptFault.TheVariants.{Long, NoMemory};
ghost use Rattle.script_text.specs.Scripts.{HasFault, StopsAt, after_line, bytes_in, bytes_in_command, behind, bytes_in_line, calls_of, first_unbuilt, is_built, is_long};
ghost use Rattle.std.specs.Prelude.{ℕ, ◌≡◌, ◌+◌, ◌<◌, ◌≤◌, ◌⊎◌, All, IfErr, IfOk, List, None, Ok, OnOk, Result, false, length, nat_lt, true};

use super::grammar::{Line, LineFault, parse_line};
use super::lines::{count_lines, next_line};
use ccfs_base::Command;
use std::alloc::{AllocError, AllocFailed, Global};

/// The most bytes that a script has.
pub const MOST_BYTES: usize = 16_777_216;

/// The most lines that a script has.
pub const MOST_LINES: usize = 65_536;

/// The most bytes that the data words of a script stand for in all.
pub const MOST_SCRIPT_DATA: usize = 67_108_864;

/// A command of an actor in a script.
#[derive(Debug, Drop)]
pub struct Call {
    /// The number of its line, counted from 1.
    pub line: u32,
    /// From 0 to 63.
    pub actor: u8,
    /// What the actor does.
    pub command: Command,
}

/// Why a script has no calls, or not all are built.
#[derive(Clone, Copy, Debug, PartialEq, Eq, Drop)]
pub enum ScriptFault {
    /// It has more than `MOST_BYTES` bytes or `MOST_LINES` lines, or the data words of its lines of the grammar stand for more
    /// than `MOST_SCRIPT_DATA` bytes.
    Long,
    /// A line is outside the grammar. It is the first such line.
    BadLine {
        /// Its number, counted from 1.
        line: u32,
    },
    /// Each line is in the grammar, and the command of one isn't built. It is the first such line.
    NotBuilt {
        /// Its number, counted from 1.
        line: u32,
    },
    /// Memory was wanted.
    NoMemory,
}

impl From<AllocError> for ScriptFault {
    ghost use Rattle.script_text.specs.declared.scripts.ScriptFault.TheVariants.{NoMemory};

    ghost from_gives = { λ _ fault. fault ≡ NoMemory };

    fn from(_: AllocError) -> Self {
        ScriptFault::NoMemory
    }
}

impl<T: Drop> From<AllocFailed<T>> for ScriptFault {
    ghost use Rattle.script_text.specs.declared.scripts.ScriptFault.TheVariants.{NoMemory};

    ghost from_gives = { λ _ fault. fault ≡ NoMemory };

    fn from(_: AllocFailed<T>) -> Self {
        ScriptFault::NoMemory
    }
}

/// The calls of a script, in the order of its lines.
///
/// A script that isn't too long has either calls that are all built, or a first line that is outside the grammar, or else a
/// first that isn't built. So each fault but `NoMemory` comes exactly where its clause says, or `NoMemory` in its place; and a
/// script with too many bytes or lines is always answered `Long`.
pub fn parse_script(alloc: Global, text: &[u8]) -> Result<Vec<Call>, ScriptFault>
    ensures short { IfOk result (λ _. is_long text.now ≡ false) }
    ensures calls { IfOk result (λ calls. calls_of text.now ≡ Ok calls.items) }
    ensures built { IfOk result (λ calls. first_unbuilt calls.items ≡ None) }
    ensures actors { IfOk result (λ calls. All (λ call. call.actor < 64) calls.items) }
    ensures fits { IfOk result (λ calls. All (λ call. fits_command call.command ≡ true) calls.items) }
    ensures fault { IfErr result (HasFault text.now) }
{
    if text.len() > MOST_BYTES || count_lines(text) > MOST_LINES {
        return Err(ScriptFault::Long);
    }
    parse_lines(alloc, MOST_SCRIPT_DATA, text)
}

/// Whether a command is built.
pub fn is_built(command: &Command) -> bool
    ensures { result ≡ is_built command.now }
{
    match command {
        Command::Mkdir { .. }
        | Command::Create { .. }
        | Command::Unlink { .. }
        | Command::Rmdir { .. }
        | Command::Rename { .. }
        | Command::Stat { .. }
        | Command::List { .. }
        | Command::StreamSync
        | Command::Sync
        | Command::Flush => true,
        Command::SetStream { ignore, .. } => !*ignore,
        _ => false,
    }
}

// What the lines of a script that were read asked for.
#[derive(Drop)]
struct Reading {
    // The calls, up to the first line outside the grammar.
    calls: Vec<Call>,
    // The number of that line.
    bad: Option<u32>,
    // How many bytes the data words stand for in all.
    bytes: usize,
}

impl Reading {
    // Reads a line with its number. The data words may stand for so many bytes.
    fn take_line(
        &mut self,
        alloc: Global,
        most: usize,
        line: u32,
        text: &[u8],
    ) -> Result<(), ScriptFault>
        requires { self.old.bytes ≤ most }
        ensures calls { OnOk result ((more : Result (List Call) ℕ) → behind self.new.bad self.new.calls.items more ≡ behind self.old.bad self.old.calls.items (after_line line (meaning_of text.now) more)) }
        ensures bytes { OnOk result (self.new.bytes ≡ self.old.bytes + bytes_in_line (meaning_of text.now)) }
        ensures few { OnOk result (self.new.bytes ≤ most) }
        ensures actors { OnOk result (All (λ call. call.actor < 64) self.old.calls.items → All (λ call. call.actor < 64) self.new.calls.items) }
        ensures fits { OnOk result (All (λ call. fits_command call.command ≡ true) self.old.calls.items → All (λ call. fits_command call.command ≡ true) self.new.calls.items) }
        ensures fault { IfErr result (λ fault. (fault ≡ NoMemory) ⊎ ((fault ≡ Long) × (most < self.old.bytes + bytes_in_line (meaning_of text.now)))) }
    {
        let (actor, command) = match parse_line(alloc, text) {
            Ok(Line::Skip) => return Ok(()),
            Ok(Line::Call { actor, command }) => (actor, command),
            Err(LineFault::BadLine { .. }) => {
                self.bad = self.bad.or(Some(line));
                return Ok(());
            }
            Err(LineFault::NoMemory) => return Err(ScriptFault::NoMemory),
        };
        let bytes = bytes_in_command(&command);
        if bytes > most - self.bytes {
            return Err(ScriptFault::Long);
        }
        self.bytes += bytes;
        if self.bad.is_none() {
            self.calls.push(Call {
                line,
                actor,
                command,
            })?;
        }
        Ok(())
    }
}

/// The calls of a script with few lines, whose data words may stand for so many bytes.
pub(super) fn parse_lines(alloc: Global, most: usize, text: &[u8]) -> Result<Vec<Call>, ScriptFault>
    requires { length (lines_of text.now) ≤ 65536 }
    ensures short { IfOk result (λ _. nat_lt most (bytes_in (lines_of text.now)) ≡ false) }
    ensures calls { IfOk result (λ calls. calls_of text.now ≡ Ok calls.items) }
    ensures built { IfOk result (λ calls. first_unbuilt calls.items ≡ None) }
    ensures actors { IfOk result (λ calls. All (λ call. call.actor < 64) calls.items) }
    ensures fits { IfOk result (λ calls. All (λ call. fits_command call.command ≡ true) calls.items) }
    ensures fault { IfErr result (StopsAt most text.now) }
{
    let mut reading = Reading {
        calls: Vec::new(alloc),
        bad: None,
        bytes: 0,
    };
    let mut line = 1;
    let mut rest = text;
    while let Some((words, after)) = next_line(rest) {
        reading.take_line(alloc, most, line, words)?;
        line += 1;
        rest = after;
    }
    if let Some(line) = reading.bad {
        return Err(ScriptFault::BadLine { line });
    }
    match first_unbuilt(&reading.calls) {
        Some(line) => Err(ScriptFault::NotBuilt { line }),
        None => Ok(reading.calls),
    }
}

// How many bytes a command writes.
fn bytes_in_command(command: &Command) -> usize
    ensures { result ≡ bytes_in_command command.now }
{
    match command {
        Command::Write { bytes, .. } | Command::HWrite { bytes, .. } => bytes.len(),
        _ => 0,
    }
}

// The line of the first call whose command isn't built.
fn first_unbuilt(calls: &[Call]) -> Option<u32>
    ensures { result ≡ first_unbuilt calls.now }
{
    for call in calls {
        if !is_built(&call.command) {
            return Some(call.line);
        }
    }
    None
}
