//! The text of a tree.
ghost use Rattle.ccfs_base.specs.Names.{spelled};
ghost use Rattle.script_text.specs.Trees.{item_line, item_path, item_text, names_down, tree_lines};
ghost use Rattle.std.specs.Prelude.{◌++◌, ◌<◌, ◌≡◌, IfOk, OnOk, length};

use super::spelling::append_data;
use super::writing::append_labeled;
use ccfs_base::{Bytes, Name, NoMemory};
use std::alloc::Global;
use tree_model::{Item, ItemKind, Picture};

/// The text of a tree: a line with the number of the last batch, and a line for each item of its picture.
pub fn tree_text(alloc: Global, number: u64, picture: &[Item]) -> Result<Bytes, NoMemory>
    ensures { IfOk result (λ text. text ≡ tree_lines number picture.now) }
{
    let mut out = Bytes::new(alloc);
    append_labeled(&mut out, b"batches ", number)?;
    out.append(b"\n")?;
    let mut names: Vec<Name> = Vec::new(alloc);
    for item in picture {
        lead_down(&mut names, item)?;
        append_item(&mut out, names.as_slice(), &item.kind)?;
        out.append(b"\n")?;
    }
    Ok(out)
}

/// The line of the item at a place of a picture, counted from 0.
pub fn item_text(alloc: Global, picture: &Picture, place: u32) -> Result<Bytes, NoMemory>
    requires { place < length picture.now }
    ensures { IfOk result (λ text. text ≡ item_line picture.now place) }
{
    let (before, rest) = picture.all().split_at(place as usize);
    let mut names: Vec<Name> = Vec::new(alloc);
    for item in before {
        lead_down(&mut names, item)?;
    }
    let item = &rest[0];
    lead_down(&mut names, item)?;
    let mut out = Bytes::new(alloc);
    append_item(&mut out, names.as_slice(), &item.kind)?;
    out.append(b"\n")?;
    Ok(out)
}

// Makes the names down to the item before an item those down to that item.
fn lead_down(names: &mut Vec<Name>, item: &Item) -> Result<(), NoMemory>
    ensures { OnOk result (names.new.items ≡ names_down names.old.items item.now) }
{
    names.truncate(item.depth as usize);
    names.push(item.name)?;
    Ok(())
}

// Puts what stands at the end of these names behind the text.
fn append_item(out: &mut Bytes, names: &[Name], kind: &ItemKind) -> Result<(), NoMemory>
    ensures { OnOk result (out.new ≡ out.old ++ item_text names.now kind.now) }
{
    match kind {
        ItemKind::Dir { entries, changes } => {
            out.append(b"dir ")?;
            append_path(out, names)?;
            append_labeled(out, b" entries ", u64::from(*entries))?;
            append_labeled(out, b" changes ", *changes)
        }
        ItemKind::File { bytes } => {
            out.append(b"file ")?;
            append_path(out, names)?;
            append_labeled(out, b" length ", bytes.len() as u64)?;
            out.append(b" data ")?;
            append_data(out, bytes.all())
        }
    }
}

// Puts the text of a path behind the text, by the names that lead there, the root's first.
fn append_path(out: &mut Bytes, names: &[Name]) -> Result<(), NoMemory>
    ensures { OnOk result (out.new ≡ out.old ++ item_path names.now) }
{
    if names.len() < 2 {
        return out.append(b"/");
    }
    append_spelled(out, &names[1..])
}

// Puts names behind the text, with a slash before each.
fn append_spelled(out: &mut Bytes, names: &[Name]) -> Result<(), NoMemory>
    ensures { OnOk result (out.new ≡ out.old ++ spelled names.now) }
{
    for name in names {
        out.append(b"/")?;
        out.append(name.all())?;
    }
    Ok(())
}
