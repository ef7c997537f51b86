//! The checks that are made of each inode by itself: its record and its slot.
ghost use Rattle.std.specs.Prelude.{◌≡◌, ◌<◌, ◌&&◌, IfSome};
ghost use Rattle.image_model.specs.Files.{is_dir_at};
ghost use Rattle.image_model.specs.Lowest.{lowest};
ghost use Rattle.image_model.specs.Checks.{is_bad_attr, may_stand, is_bad_record, is_bad_slot};
ghost use Rattle.image_check.specs.Tables.{seen};

use super::table::{Table, is_dir_attr};
use image_model::Limits;
use inode_table::{Attr, Kind};

/// Whether the root and the orphan directory are used directories.
pub(crate) fn are_directories(table: &Table) -> bool
    ensures { result ≡ (is_dir_at (seen table.now) 0 && is_dir_at (seen table.now) 1) }
{
    table.is_dir_at(0) && table.is_dir_at(1)
}

/// Whether attributes are none, or those of a file that is too long.
fn is_bad_attr(longest: u64, attr: Option<Attr>) -> bool
    ensures { result ≡ is_bad_attr longest attr }
{
    match attr {
        Some(attr) => attr.kind == Kind::File && longest < attr.length,
        None => true,
    }
}

/// Whether a record is bad.
fn is_bad_record(limits: &Limits, table: &Table, inode: u32) -> bool
    requires { inode < table.now.used.count }
    ensures { result ≡ is_bad_record limits.now (seen table.now) inode }
{
    table.is_entry(inode) && is_bad_attr(limits.longest, table.attr(inode))
}

/// The lowest inode whose record is bad.
#[tactic(auto, using(image_model::proofs::Least::passed_by, image_model::proofs::Least::found_at))]
pub(crate) fn lowest_bad_record(limits: &Limits, table: &Table) -> Option<u32>
    ensures lowest { result ≡ lowest (is_bad_record limits.now (seen table.now)) table.now.used.count }
    ensures within { IfSome result (λ inode. inode < table.now.used.count) }
{
    for inode in 0..table.inodes() {
        if is_bad_record(limits, table, inode) {
            return Some(inode);
        }
    }
    None
}

/// Whether a slot may have this parent, of a directory or of a file.
fn may_stand(limits: &Limits, table: &Table, is_dir: bool, parent: u32) -> bool
    ensures { result ≡ may_stand limits.now (seen table.now) is_dir parent }
{
    table.is_dir_at(parent) && !(parent == 1 && (is_dir || !limits.orphans))
}

/// Whether a slot is bad.
fn is_bad_slot(limits: &Limits, table: &Table, inode: u32) -> bool
    requires { inode < table.now.used.count }
    ensures { result ≡ is_bad_slot limits.now (seen table.now) inode }
{
    if !table.is_entry(inode) {
        return false;
    }
    let is_dir = is_dir_attr(table.attr(inode));
    match table.slot(inode) {
        Some(slot) => !may_stand(limits, table, is_dir, slot.parent),
        None => true,
    }
}

/// The lowest inode whose slot is bad.
#[tactic(auto, using(image_model::proofs::Least::passed_by, image_model::proofs::Least::found_at))]
pub(crate) fn lowest_bad_slot(limits: &Limits, table: &Table) -> Option<u32>
    ensures lowest { result ≡ lowest (is_bad_slot limits.now (seen table.now)) table.now.used.count }
    ensures within { IfSome result (λ inode. inode < table.now.used.count) }
{
    for inode in 0..table.inodes() {
        if is_bad_slot(limits, table, inode) {
            return Some(inode);
        }
    }
    None
}
