//! What rename answers.
ghost use Rattle.std.specs.Prelude.{◌≡◌, ◌≢◌, [], false, Some};
ghost use Rattle.std.specs.FinMap.{len};
ghost use Rattle.ccfs_base.specs.declared.replies.Refusal.TheVariants as refusal_;
ghost use Rattle.tree_model.specs.declared.rows.Update.TheVariants as update_;
ghost use Rattle.tree_model.specs.Rows.{place_of};
ghost use Rattle.tree_model.specs.Tests.{is_above};
ghost use Rattle.tree_model.specs.Entries.{entry};
ghost use Rattle.tree_model.specs.Walk.{last_of};
ghost use Rattle.tree_cuts.specs.Calls.{Sizes};
ghost use Rattle.history_model.specs.Answers as answers;
ghost use Rattle.command_answers.specs.Viewing.{told, left_alone};

use super::views::{Answered, View, does, is_root, parent, refused, tells};
use ccfs_base::{Name, Path, Refusal, Reply};
use tree_model::Update;

impl<'a> View<'a> {
    /// Moves a row: a root; the walk of the first; the walk to the parent of the second; a directory that comes to itself
    /// or below itself.
    pub(crate) fn rename(&self, path: &Path, to: &Path) -> Answered
        ensures { (sizes : Sizes) → told result ≡ answers.rename sizes (left_alone self.now.tree.now) path.now to.now }
    {
        if is_root(path) || is_root(to) {
            return refused(Refusal::Root);
        }
        match self.tree.resolve(path) {
            Ok(id) => self.rename_at(id, to),
            Err(cause) => refused(cause),
        }
    }

    /// The same of a row.
    fn rename_at(&self, id: u32, to: &Path) -> Answered
        requires { to.now ≢ [] }
        ensures { (sizes : Sizes) → told result ≡ answers.at_parent self.now.tree.now to.now (λ to_dir. answers.refuses (is_above (len self.now.tree.now) self.now.tree.now id (Some to_dir)) refusal_.Loop
            (answers.move_to sizes (left_alone self.now.tree.now) id to_dir (last_of to.now) (entry self.now.tree.now to_dir (last_of to.now)))) }
    {
        match parent(self.tree, to) {
            Ok((to_dir, name)) => self.rename_into(id, to_dir, name),
            Err(cause) => refused(cause),
        }
    }

    /// The same into a directory.
    fn rename_into(&self, id: u32, to_dir: u32, to_name: Name) -> Answered
        ensures { (sizes : Sizes) → told result ≡ answers.refuses (is_above (len self.now.tree.now) self.now.tree.now id (Some to_dir)) refusal_.Loop
            (answers.move_to sizes (left_alone self.now.tree.now) id to_dir to_name (entry self.now.tree.now to_dir to_name)) }
    {
        if self.tree.is_above(id, to_dir, self.tree.len()) {
            return refused(Refusal::Loop);
        }
        match self.tree.entry(to_dir, &to_name) {
            Some(there) => self.move_over(id, to_dir, to_name, there),
            None => self.move_row(id, to_dir, to_name, self.tree.is_dir(id), None),
        }
    }

    /// Moves a row to an entry where another stands: itself, which is done; not two files.
    fn move_over(&self, id: u32, to_dir: u32, to_name: Name, there: u32) -> Answered
        ensures { (sizes : Sizes) → told result ≡ answers.move_to sizes (left_alone self.now.tree.now) id to_dir to_name (Some there) }
    {
        if there == id {
            return tells(Reply::Done);
        }
        if self.tree.is_dir(id) || self.tree.is_dir(there) {
            return refused(Refusal::Exists);
        }
        self.move_row(id, to_dir, to_name, false, Some(there))
    }

    /// The move of a row that stands somewhere.
    fn move_row(
        &self,
        id: u32,
        to_dir: u32,
        to_name: Name,
        is_dir: bool,
        replaced: Option<u32>,
    ) -> Answered
        ensures { told result ≡ answers.at_place (place_of self.now.tree.now id) (λ dir name. answers.does (update_.Move dir name to_dir to_name id is_dir replaced false)) }
    {
        match self.tree.place(id) {
            Some((dir, name)) => does(Update::Move {
                dir,
                name,
                to_dir,
                to_name,
                id,
                is_dir,
                replaced,
                stays: false,
            }),
            None => refused(Refusal::Root),
        }
    }
}
