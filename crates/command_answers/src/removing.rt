//! What unlink and rmdir answer.
ghost use Rattle.std.specs.Prelude.{◌≡◌, false, not};
ghost use Rattle.ccfs_base.specs.declared.replies.Refusal.TheVariants as refusal_;
ghost use Rattle.tree_model.specs.declared.rows.Update.TheVariants as update_;
ghost use Rattle.tree_model.specs.Rows.{is_dir_at, place_of};
ghost use Rattle.tree_model.specs.Tests.{is_empty_at};
ghost use Rattle.tree_cuts.specs.Calls.{Sizes};
ghost use Rattle.history_model.specs.Answers as answers;
ghost use Rattle.command_answers.specs.Viewing.{told, left_alone};

use super::views::{Answered, View, does, is_root, refused};
use ccfs_base::{Path, Refusal};
use tree_model::Update;

impl<'a> View<'a> {
    /// Removes a file: the root; the walk; a directory.
    pub(crate) fn unlink(&self, path: &Path) -> Answered
        ensures { (sizes : Sizes) → told result ≡ answers.unlink sizes (left_alone self.now.tree.now) path.now }
    {
        if is_root(path) {
            return refused(Refusal::Root);
        }
        match self.tree.resolve(path) {
            Ok(id) => self.unlink_at(id),
            Err(cause) => refused(cause),
        }
    }

    /// The same of what stands at a serial.
    fn unlink_at(&self, id: u32) -> Answered
        ensures { told result ≡ answers.refuses (is_dir_at self.now.tree.now id) refusal_.IsDir (answers.at_place (place_of self.now.tree.now id) (λ dir name. answers.does (update_.Remove dir name id false))) }
    {
        if self.tree.is_dir(id) {
            return refused(Refusal::IsDir);
        }
        self.remove(id)
    }

    /// Removes a directory: the root; the walk; a file; entries.
    pub(crate) fn rmdir(&self, path: &Path) -> Answered
        ensures { (sizes : Sizes) → told result ≡ answers.rmdir sizes (left_alone self.now.tree.now) path.now }
    {
        if is_root(path) {
            return refused(Refusal::Root);
        }
        match self.tree.resolve(path) {
            Ok(id) => self.rmdir_at(id),
            Err(cause) => refused(cause),
        }
    }

    /// The same of what stands at a serial.
    fn rmdir_at(&self, id: u32) -> Answered
        ensures { told result ≡ answers.refuses (not (is_dir_at self.now.tree.now id)) refusal_.NotDir (answers.refuses (not (is_empty_at self.now.tree.now id)) refusal_.NotEmpty (answers.at_place (place_of self.now.tree.now id) (λ dir name. answers.does (update_.Remove dir name id false)))) }
    {
        if !self.tree.is_dir(id) {
            return refused(Refusal::NotDir);
        }
        if self.tree.entry_count(id) != 0 {
            return refused(Refusal::NotEmpty);
        }
        self.remove(id)
    }

    /// Removes a row from its place.
    fn remove(&self, id: u32) -> Answered
        ensures { told result ≡ answers.at_place (place_of self.now.tree.now id) (λ dir name. answers.does (update_.Remove dir name id false)) }
    {
        match self.tree.place(id) {
            Some((dir, name)) => does(Update::Remove {
                dir,
                name,
                id,
                stays: false,
            }),
            None => refused(Refusal::Root),
        }
    }
}
