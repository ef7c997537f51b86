//! The lines of replies.
ghost use Rattle.script_text.specs.Texts.{answer_text, names_text, refusal_text, reply_line};
ghost use Rattle.std.specs.Prelude.{◌++◌, ◌≡◌, IfOk, OnOk};

use super::spelling::append_data;
use super::writing::{append_labeled, append_number, append_pair};
use ccfs_base::{Bytes, Name, NoMemory, Refusal, Reply};
use std::alloc::Global;

/// The line of a reply to an actor.
pub fn reply_text(alloc: Global, actor: u8, reply: &Reply) -> Result<Bytes, NoMemory>
    ensures { IfOk result (λ text. text ≡ reply_line actor reply.now) }
{
    let mut out = Bytes::new(alloc);
    append_number(&mut out, u64::from(actor))?;
    out.append(b" ")?;
    append_answer(&mut out, reply)?;
    out.append(b"\n")?;
    Ok(out)
}

// Puts what a command was answered behind the text.
fn append_answer(out: &mut Bytes, reply: &Reply) -> Result<(), NoMemory>
    ensures { OnOk result (out.new ≡ out.old ++ answer_text reply.now) }
{
    match reply {
        Reply::Done => out.append(b"ok"),
        Reply::Got { bytes } => {
            out.append(b"ok ")?;
            append_data(out, bytes.all())
        }
        Reply::Handle { number } => append_labeled(out, b"ok ", u64::from(*number)),
        Reply::StatDir { entries, changes } => {
            append_pair(
                out,
                (b"ok dir entries ", u64::from(*entries)),
                (b" changes ", *changes),
            )
        }
        Reply::StatFile { length, blocks } => {
            append_pair(
                out,
                (b"ok file length ", *length),
                (b" blocks ", u64::from(*blocks)),
            )
        }
        Reply::Listed { total, names } => {
            append_labeled(out, b"ok ", u64::from(*total))?;
            append_names(out, names.all())
        }
        Reply::Space { blocks, inodes } => {
            append_pair(
                out,
                (b"ok free blocks ", u64::from(*blocks)),
                (b" inodes ", u64::from(*inodes)),
            )
        }
        Reply::Synced { seals } => append_labeled(out, b"ok ", *seals),
        Reply::Refused(refusal) => {
            out.append(b"refused ")?;
            append_refusal(out, *refusal)
        }
    }
}

// Puts names behind the text, each behind a blank and with a slash behind a directory's.
fn append_names(out: &mut Bytes, names: &[(Name, bool)]) -> Result<(), NoMemory>
    ensures { OnOk result (out.new ≡ out.old ++ names_text names.now) }
{
    for (name, is_dir) in names {
        out.append(b" ")?;
        out.append(name.all())?;
        if *is_dir {
            out.append(b"/")?;
        }
    }
    Ok(())
}

// Puts why a command was refused behind the text.
fn append_refusal(out: &mut Bytes, refusal: Refusal) -> Result<(), NoMemory>
    ensures { OnOk result (out.new ≡ out.old ++ refusal_text refusal) }
{
    match refusal {
        Refusal::NoEntry => out.append(b"NoEntry"),
        Refusal::NotDir => out.append(b"NotDir"),
        Refusal::IsDir => out.append(b"IsDir"),
        Refusal::Exists => out.append(b"Exists"),
        Refusal::NotEmpty => out.append(b"NotEmpty"),
        Refusal::Root => out.append(b"Root"),
        Refusal::Loop => out.append(b"Loop"),
        Refusal::FileBig => out.append(b"FileBig"),
        Refusal::NoSpace { need, free } => {
            append_pair(
                out,
                (b"NoSpace need ", u64::from(need)),
                (b" free ", u64::from(free)),
            )
        }
        Refusal::NoInode => out.append(b"NoInode"),
        Refusal::BadHandle => out.append(b"BadHandle"),
        Refusal::HandlesFull => out.append(b"HandlesFull"),
    }
}
