//! What the commands on entries of directories answer.
ghost use Rattle.std.specs.Prelude.{◌≡◌, ◌≢◌, [], false, not};
ghost use Rattle.std.specs.FinMap.{len};
ghost use Rattle.ccfs_base.specs.declared.replies.Refusal.TheVariants as refusal_;
ghost use Rattle.tree_model.specs.declared.rows.Update.TheVariants as update_;
ghost use Rattle.tree_model.specs.Rows.{is_dir_at, place_of};
ghost use Rattle.tree_model.specs.Tests.{is_above, is_empty_at};
ghost use Rattle.tree_model.specs.Entries.{entry};
ghost use Rattle.tree_model.specs.Walk.{last_of};
ghost use Rattle.tree_cuts.specs.Calls as calls;
ghost use Rattle.history_model.specs.State.{is_open_on};
ghost use Rattle.history_model.specs.Answers as answers;

use super::answering::{Answer, does, is_root, refused, tells};
use super::finding::{is_open_on, is_open_without, lowest_free};
use super::keeping::State;
use ccfs_base::{Name, Path, Refusal, Reply};
use tree_model::Update;

impl State {
    /// Removes a file: the root; the walk; a directory.
    pub(crate) fn unlink(&self, path: &Path) -> Answer
        ensures { (sizes : calls.Sizes) → result ≡ answers.unlink sizes self.now path.now }
    {
        if is_root(path) {
            return refused(Refusal::Root);
        }
        match self.tree.resolve(path) {
            Ok(id) => self.unlink_at(id),
            Err(cause) => refused(cause),
        }
    }

    /// The same of what stands at a serial.
    fn unlink_at(&self, id: u32) -> Answer
        ensures { result ≡ answers.refuses (is_dir_at self.now.tree id) refusal_.IsDir (answers.at_place (place_of self.now.tree id) (λ dir name. answers.does (update_.Remove dir name id (is_open_on self.now.handles id)))) }
    {
        if self.tree.is_dir(id) {
            return refused(Refusal::IsDir);
        }
        match self.tree.place(id) {
            Some((dir, name)) => does(Update::Remove {
                dir,
                name,
                id,
                stays: is_open_on(&self.handles, id),
            }),
            None => refused(Refusal::Root),
        }
    }

    /// Removes a directory: the root; the walk; a file; entries.
    pub(crate) fn rmdir(&self, path: &Path) -> Answer
        ensures { (sizes : calls.Sizes) → result ≡ answers.rmdir sizes self.now path.now }
    {
        if is_root(path) {
            return refused(Refusal::Root);
        }
        match self.tree.resolve(path) {
            Ok(id) => self.rmdir_at(id),
            Err(cause) => refused(cause),
        }
    }

    /// The same of what stands at a serial.
    fn rmdir_at(&self, id: u32) -> Answer
        ensures { result ≡ answers.refuses (not (is_dir_at self.now.tree id)) refusal_.NotDir (answers.refuses (not (is_empty_at self.now.tree id)) refusal_.NotEmpty (answers.at_place (place_of self.now.tree id) (λ dir name. answers.does (update_.Remove dir name id false)))) }
    {
        if !self.tree.is_dir(id) {
            return refused(Refusal::NotDir);
        }
        if self.tree.entry_count(id) != 0 {
            return refused(Refusal::NotEmpty);
        }
        match self.tree.place(id) {
            Some((dir, name)) => does(Update::Remove {
                dir,
                name,
                id,
                stays: false,
            }),
            None => refused(Refusal::Root),
        }
    }

    /// Moves a row: a root; the walk of the first; the walk to the parent of the second; a directory that comes to itself
    /// or below itself.
    pub(crate) fn rename(&self, path: &Path, to: &Path) -> Answer
        ensures { (sizes : calls.Sizes) → result ≡ answers.rename sizes self.now path.now to.now }
    {
        if is_root(path) || is_root(to) {
            return refused(Refusal::Root);
        }
        match self.tree.resolve(path) {
            Ok(id) => self.rename_at(id, to),
            Err(cause) => refused(cause),
        }
    }

    /// The same of a row.
    fn rename_at(&self, id: u32, to: &Path) -> Answer
        requires { to.now ≢ [] }
        ensures { (sizes : calls.Sizes) → result ≡ answers.at_parent self.now.tree to.now (λ to_dir. answers.refuses (is_above (len self.now.tree) self.now.tree id (Some to_dir)) refusal_.Loop (answers.move_to sizes self.now id to_dir (last_of to.now) (entry self.now.tree to_dir (last_of to.now)))) }
    {
        match self.parent(to) {
            Ok((to_dir, name)) => self.rename_into(id, to_dir, name),
            Err(cause) => refused(cause),
        }
    }

    /// The same into a directory.
    fn rename_into(&self, id: u32, to_dir: u32, to_name: Name) -> Answer
        ensures { (sizes : calls.Sizes) → result ≡ answers.refuses (is_above (len self.now.tree) self.now.tree id (Some to_dir)) refusal_.Loop (answers.move_to sizes self.now id to_dir to_name (entry self.now.tree to_dir to_name)) }
    {
        if self.tree.is_above(id, to_dir, self.tree.len()) {
            return refused(Refusal::Loop);
        }
        match self.tree.entry(to_dir, &to_name) {
            Some(there) => self.move_over(id, to_dir, to_name, there),
            None => self.move_row(id, to_dir, to_name, self.tree.is_dir(id), None, false),
        }
    }

    /// Moves a row to an entry where another stands: itself, which is done; not two files.
    fn move_over(&self, id: u32, to_dir: u32, to_name: Name, there: u32) -> Answer
        ensures { (sizes : calls.Sizes) → result ≡ answers.move_to sizes self.now id to_dir to_name (Some there) }
    {
        if there == id {
            return tells(Reply::Done);
        }
        if self.tree.is_dir(id) || self.tree.is_dir(there) {
            return refused(Refusal::Exists);
        }
        let stays = is_open_on(&self.handles, there);
        self.move_row(id, to_dir, to_name, false, Some(there), stays)
    }

    /// The move of a row that stands somewhere.
    fn move_row(
        &self,
        id: u32,
        to_dir: u32,
        to_name: Name,
        is_dir: bool,
        replaced: Option<u32>,
        stays: bool,
    ) -> Answer
        ensures { result ≡ answers.at_place (place_of self.now.tree id) (λ dir name. answers.does (update_.Move dir name to_dir to_name id is_dir replaced stays)) }
    {
        match self.tree.place(id) {
            Some((dir, name)) => does(Update::Move {
                dir,
                name,
                to_dir,
                to_name,
                id,
                is_dir,
                replaced,
                stays,
            }),
            None => refused(Refusal::Root),
        }
    }

    /// Opens a file: a directory; all 16 handles are open.
    pub(crate) fn open_file(&self, actor: u8, id: u32) -> Answer
        ensures { (sizes : calls.Sizes) → result ≡ answers.open_file sizes self.now actor id }
    {
        if self.tree.is_dir(id) {
            return refused(Refusal::IsDir);
        }
        match lowest_free(&self.handles, actor, 0, 16) {
            Some(number) => tells(Reply::Handle { number }),
            None => refused(Refusal::HandlesFull),
        }
    }

    /// Closes a handle: a file without a name that no other handle is open on is released.
    pub(crate) fn close(&self, actor: u8, handle: u8, id: u32) -> Answer
        ensures { (sizes : calls.Sizes) → result ≡ answers.close sizes self.now actor handle id }
    {
        let is_last = self.tree.is_kind(id, false)
            && self.tree.place(id).is_none()
            && !is_open_without(&self.handles, actor, handle, id);
        if is_last {
            does(Update::Release { id })
        } else {
            tells(Reply::Done)
        }
    }
}
