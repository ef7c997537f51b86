//! Rows of a table, each a script with what it says, and their one runner.
use ccfs_base::{Bytes, Command, NoMemory, Reply};
use itoa::Buffer;
use plain_model::{History, Sizes};
use script_text::{Line, next_line, parse_line, reply_text, tree_text};
use std::alloc::Global;
use std::test::Fail;

/// A script, and the lines that it says: its replies, and the tree of the last cut that a reply told.
pub(crate) struct Row {
    /// What the row shows.
    pub(crate) name: &'static str,
    /// How many data blocks and inodes there are.
    pub(crate) sizes: (u32, u32),
    /// The lines of the script.
    pub(crate) script: &'static [Part],
    /// The lines that are said.
    pub(crate) says: &'static [Part],
}

/// A part of a text. In it `;` and a blank end a line.
pub(crate) enum Part {
    /// These words.
    Text(&'static str),
    /// These words so many times, with a number for each `@`.
    Turns {
        /// How many times.
        count: u64,
        /// The number of the first time.
        from: u64,
        /// How much greater it is each time.
        step: u64,
        /// The words.
        text: &'static str,
    },
}

/// The sizes of an image of 512 blocks and 32 inodes.
pub(crate) const SMALL: (u32, u32) = (246, 32);

/// The tree of an image in which nothing was synced, as a row says it.
pub(crate) const EMPTY: Part = Part::Text("batches 0; dir / entries 0 changes 0");

/// Puts words behind the text, with this number for each `@`.
fn append_words(out: &mut Bytes, text: &str, number: u64) -> Result<(), NoMemory> {
    let mut is_behind_end = false;
    for byte in text.as_bytes() {
        match *byte {
            b';' => out.push(b'\n')?,
            b'@' => out.append(Buffer::new().format(number).as_bytes())?,
            b' ' if is_behind_end => {}
            other => out.push(other)?,
        }
        is_behind_end = *byte == b';';
    }
    Ok(())
}

/// The text of parts. Its last line has an end.
fn text_of(alloc: Global, parts: &[Part]) -> Result<Bytes, NoMemory> {
    let mut out = Bytes::new(alloc);
    for part in parts {
        match part {
            Part::Text(text) => append_words(&mut out, text, 0)?,
            Part::Turns {
                count,
                from,
                step,
                text,
            } => {
                let mut number = *from;
                for _ in 0..*count {
                    append_words(&mut out, text, number)?;
                    number = number.wrapping_add(*step);
                }
            }
        }
    }
    out.push(b'\n')?;
    Ok(out)
}

/// The number of seals that the last sync form of a history told, or 0.
fn told(history: &History) -> u64 {
    let mut told = 0;
    for entry in history.entries() {
        if let Reply::Synced { seals } = &entry.reply {
            told = *seals;
        }
    }
    told
}

/// Puts the line of the last reply behind the text.
fn append_reply(alloc: Global, history: &History, out: &mut Bytes) -> Result<(), Fail> {
    let Some(entry) = history.entries().last() else {
        return Err("the history is empty".into());
    };
    let text = reply_text(alloc, entry.actor, &entry.reply)?;
    out.append(text.all())?;
    Ok(())
}

/// Puts the tree of the last cut that was told behind the text.
fn append_tree(alloc: Global, history: &History, out: &mut Bytes) -> Result<(), Fail> {
    let number = told(history);
    let picture = history.tree_at(number)?.picture(alloc)?;
    let text = tree_text(alloc, number, picture.all())?;
    out.append(text.all())?;
    Ok(())
}

/// The history with one call more.
fn played(history: History, actor: u8, command: &Command) -> Result<History, Fail> {
    if !history.may_call(actor, command) {
        return Err("the call may not be made".into());
    }
    Ok(history.call(actor, command)?)
}

/// The history with the call of a line, if it has one; its reply is put behind the text.
fn play_line(
    alloc: Global,
    history: History,
    line: &[u8],
    out: &mut Bytes,
) -> Result<History, Fail> {
    match parse_line(alloc, line)? {
        Line::Skip => Ok(history),
        Line::Call { actor, command } => {
            let history = played(history, actor, &command)?;
            append_reply(alloc, &history, out)?;
            Ok(history)
        }
    }
}

/// What the plain model says of a script on the root alone.
fn said(alloc: Global, sizes: (u32, u32), script: &[u8]) -> Result<Bytes, Fail> {
    let mut out = Bytes::new(alloc);
    let mut history = History::on_empty(alloc, Sizes::new(sizes.0, sizes.1))?;
    let mut rest = script;
    while let Some((line, behind)) = next_line(rest) {
        history = play_line(alloc, history, line, &mut out)?;
        rest = behind;
    }
    append_tree(alloc, &history, &mut out)?;
    Ok(out)
}

/// Whether the plain model says what a row says.
fn is_said(alloc: Global, row: &Row) -> Result<bool, Fail> {
    let script = text_of(alloc, row.script)?;
    let text = said(alloc, row.sizes, script.all())?;
    Ok(text.all() == text_of(alloc, row.says)?.all())
}

/// The test fails, with the row's name, where the plain model says something else of the script of a row.
pub(crate) fn play(alloc: Global, rows: &[Row]) -> Result<(), Fail> {
    for row in rows {
        if !is_said(alloc, row)? {
            return Err(row.name.into());
        }
    }
    Ok(())
}
