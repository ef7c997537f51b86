//! What mkdir and create answer.
ghost use Rattle.std.specs.Prelude.{◌≡◌, ◌+◌, ◌-◌, nat_lt};
ghost use Rattle.std.specs.FinMap.{len};
ghost use Rattle.command_answers.specs.Viewing.{told, make_in, make_at};

use super::views::{Answered, View, does, is_root, parent, refused};
use ccfs_base::{Name, Path, Refusal};
use tree_model::Update;

impl<'a> View<'a> {
    /// Whether there is no inode for one more row: each row takes one, and one is set aside.
    fn no_inode(&self) -> bool
        ensures { result ≡ nat_lt (self.now.inodes - 1) (len self.now.tree.now + 1 + self.now.gave_rows) }
    {
        let most = u64::from(self.inodes.saturating_sub(1));
        most < self.tree.len() as u64 + 1 + u64::from(self.gave_rows)
    }

    /// Makes a directory or a file: the root is there already; the walk to the parent; an entry of that name; an inode.
    pub(crate) fn make(&self, path: &Path, is_dir: bool) -> Answered
        ensures { told result ≡ make_at self.now.tree.now self.now.next self.now.inodes self.now.gave_rows is_dir path.now }
    {
        if is_root(path) {
            return refused(Refusal::Exists);
        }
        match parent(self.tree, path) {
            Ok((dir, name)) => self.make_in(dir, name, is_dir),
            Err(cause) => refused(cause),
        }
    }

    /// The same in a directory.
    fn make_in(&self, dir: u32, name: Name, is_dir: bool) -> Answered
        ensures { told result ≡ make_in self.now.tree.now self.now.next self.now.inodes self.now.gave_rows is_dir dir name }
    {
        if self.tree.entry(dir, &name).is_some() {
            return refused(Refusal::Exists);
        }
        if self.no_inode() {
            return refused(Refusal::NoInode);
        }
        does(Update::Make {
            dir,
            name,
            id: self.next,
            is_dir,
        })
    }
}
