//! A script, run through the plain model and through the program.
use ccfs_base::{Bytes, MemSink, MemSource, NoMemory, Reply};
use ccfs_top::{Ended, shell};
use disk_model::MemDisk;
use plain_model::{History, Sizes};
use script_text::{parse_script, reply_text, tree_text};
use std::alloc::Global;
use std::test::Fail;

/// A call of the program with these words.
fn call(
    alloc: Global,
    texts: &[&str],
    disk: MemDisk,
    script: &[u8],
    out: &mut MemSink,
) -> Result<Ended<MemDisk>, NoMemory> {
    let mut words = Vec::new(alloc);
    for text in texts {
        words.push(String::from_str(alloc, text)?)?;
    }
    let mut source = MemSource::new(Bytes::of(alloc, script)?, None);
    Ok(shell(alloc, &words, disk, &mut source, out))
}

/// What the program writes for a script on a fresh image of 512 blocks and so many inodes.
fn written(alloc: Global, inodes: &str, script: &[u8]) -> Result<MemSink, Fail> {
    let mut out = MemSink::new(alloc, None);
    let disk = MemDisk::new(alloc, 0)?;
    let made = call(
        alloc,
        &["ccfs", "mkfs", "A", "512", inodes],
        disk,
        b"",
        &mut out,
    )?;
    let mut out = MemSink::new(alloc, None);
    let ended = call(
        alloc,
        &["ccfs", "run", "A", "S"],
        made.disk,
        script,
        &mut out,
    )?;
    if ended.status != 0 {
        return Err("the run didn't end with 0".into());
    }
    Ok(out)
}

/// The number in a reply that acknowledges a sync, or the number of before.
fn synced(before: u64, reply: &Reply) -> u64 {
    match reply {
        Reply::Synced { seals } => *seals,
        _ => before,
    }
}

/// What the plain model says of a script on the root alone, with these numbers of data blocks and inodes: the reply lines, and the
/// tree of the cut that is durable.
fn said(alloc: Global, sizes: Sizes, script: &[u8]) -> Result<Bytes, Fail> {
    let Ok(calls) = parse_script(alloc, script) else {
        return Err("the script isn't built".into());
    };
    let mut text = Bytes::new(alloc);
    let mut history = History::on_empty(alloc, sizes)?;
    let mut durable = 0;
    for call in calls.iter() {
        if !history.may_call(call.actor, &call.command) {
            return Err("the call may not be made".into());
        }
        history = history.call(call.actor, &call.command)?;
        let Some(entry) = history.entries().last() else {
            return Err("the history is empty".into());
        };
        text.append(reply_text(alloc, entry.actor, &entry.reply)?.all())?;
        durable = synced(durable, &entry.reply);
    }
    let picture = history.tree_at(durable)?.picture(alloc)?;
    text.append(tree_text(alloc, durable, picture.all())?.all())?;
    Ok(text)
}

/// The test fails where the model and the program don't write the same for a script on a fresh image of 512 blocks and 32 inodes.
pub(crate) fn is_same(alloc: Global, script: &[u8]) -> Result<(), Fail> {
    let out = written(alloc, "32", script)?;
    let text = said(alloc, Sizes::new(246, 32), script)?;
    if out.held() != text.all() {
        return Err("the model says otherwise".into());
    }
    Ok(())
}
