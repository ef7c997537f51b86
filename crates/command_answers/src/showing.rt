//! What stat and list answer.
ghost use Rattle.std.specs.Prelude.{◌≡◌, ◌≤◌, IfOk, take, drop, map};
ghost use Rattle.std.specs.FinMap.{get};
ghost use Rattle.ccfs_base.specs.Limits.{blocks, file_max};
ghost use Rattle.tree_model.specs.Rows.{is_dir_at};
ghost use Rattle.tree_cuts.specs.Calls.{Sizes};
ghost use Rattle.history_model.specs.Answers as answers;
ghost use Rattle.command_answers.specs.Viewing.{told, left_alone, FilesFit};

use super::views::{Answered, View, refused, tells};
use ccfs_base::{FILE_MAX, Name, Names, NoMemory, Path, Refusal, Reply, blocks};
use std::alloc::Global;
use tree_model::{Body, Tree};

/// The most names of one listing.
const NAMES_MOST: usize = 64;

/// The count of changes of a directory. A file has none.
fn body_changes(body: &Body) -> u64
    ensures { result ≡ answers.body_changes body.now }
{
    match body {
        Body::Dir { changes } => *changes,
        Body::File { .. } => 0,
    }
}

/// How often the entries of a directory were changed.
fn changes(tree: &Tree, id: u32) -> u64
    ensures { result ≡ answers.row_changes (get tree.now id) }
{
    match tree.row(id) {
        Some(row) => body_changes(&row.body),
        None => 0,
    }
}

/// How many blocks a file takes, where it is as long as a file may be.
fn blocks_within(len: u64) -> u32
    ensures { len ≤ file_max → result ≡ blocks len }
{
    if len > FILE_MAX {
        return u32::MAX;
    }
    blocks(len)
}

/// At most so many of these, behind the first `skip`.
fn window(all: &[(Name, u32)], skip: u32, most: usize) -> &[(Name, u32)]
    ensures { result.now ≡ take most (drop skip all.now) }
{
    if skip as usize >= all.len() {
        return &all[..0];
    }
    let rest = &all[skip as usize..];
    &rest[..rest.len().min(most)]
}

/// These names, each with whether it is a directory's.
fn names(alloc: Global, tree: &Tree, entries: &[(Name, u32)]) -> Result<Names, NoMemory>
    ensures { IfOk result (λ names. names ≡ map (λ e. (e.0, is_dir_at tree.now e.1)) entries.now) }
{
    let mut names = Names::new(alloc);
    for (name, id) in entries {
        names.push((*name, tree.is_dir(*id)))?;
    }
    Ok(names)
}

impl<'a> View<'a> {
    /// Tells of what stands at a path.
    pub(crate) fn stat(&self, path: &Path) -> Answered
        ensures { (sizes : Sizes) → FilesFit self.now.tree.now → told result ≡ answers.at_path self.now.tree.now path.now (answers.stat sizes (left_alone self.now.tree.now)) }
    {
        match self.tree.resolve(path) {
            Ok(id) => self.stat_at(id),
            Err(cause) => refused(cause),
        }
    }

    /// The same of what stands at a serial.
    fn stat_at(&self, id: u32) -> Answered
        ensures { (sizes : Sizes) → FilesFit self.now.tree.now → told result ≡ answers.stat sizes (left_alone self.now.tree.now) id }
    {
        if self.tree.is_dir(id) {
            return tells(Reply::StatDir {
                entries: self.tree.entry_count(id),
                changes: changes(self.tree, id),
            });
        }
        let length = self.tree.length(id);
        tells(Reply::StatFile {
            length,
            blocks: blocks_within(length),
        })
    }

    /// Lists the directory at a path.
    pub(crate) fn list(&self, alloc: Global, path: &Path, skip: u32) -> Result<Answered, NoMemory>
        ensures { (sizes : Sizes) → IfOk result (λ a. told a ≡ answers.at_path self.now.tree.now path.now (answers.listing sizes (left_alone self.now.tree.now) skip)) }
    {
        match self.tree.resolve(path) {
            Ok(id) => self.list_at(alloc, skip, id),
            Err(cause) => Ok(refused(cause)),
        }
    }

    /// The same of what stands at a serial: a file; the number of entries, and at most 64 names behind the first `skip`.
    fn list_at(&self, alloc: Global, skip: u32, id: u32) -> Result<Answered, NoMemory>
        ensures { (sizes : Sizes) → IfOk result (λ a. told a ≡ answers.listing sizes (left_alone self.now.tree.now) skip id) }
    {
        if !self.tree.is_dir(id) {
            return Ok(refused(Refusal::NotDir));
        }
        let all = self.tree.list(alloc, id)?;
        let names = names(alloc, self.tree, window(&all, skip, NAMES_MOST))?;
        Ok(tells(Reply::Listed {
            total: self.tree.entry_count(id),
            names,
        }))
    }
}
