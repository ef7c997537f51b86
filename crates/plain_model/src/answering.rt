//! What each command answers.
ghost use Rattle.std.specs.Prelude.{◌≡◌, ◌≢◌, ◌≤◌, ◌<◌, ◌+◌, ◌-◌, ◌^◌, [], false, true, IfOk, IfErr, length, is_some, nat_lt};
ghost use Rattle.std.specs.FinMap as map;
ghost use Rattle.ccfs_base.specs.Limits.{blocks, file_max};
ghost use Rattle.ccfs_base.specs.declared.replies.Refusal.TheVariants as refusal_;
ghost use Rattle.tree_model.specs.declared.rows.Update.TheVariants as update_;
ghost use Rattle.tree_model.specs.Entries.{entry};
ghost use Rattle.tree_model.specs.Walk.{walk, parent_walk, last_of};
ghost use Rattle.tree_model.specs.Weights.{length_at, live};
ghost use Rattle.tree_cuts.specs.Calls.{unsealed_blocks, unsealed_rows};
ghost use Rattle.history_model.specs.Answers as answers;
ghost use Rattle.plain_model.specs.Bounds.{FilesFit};

use super::finding::{file_in, ignores_in, is_open_on, is_open_without, lowest_free, stream_in};
use super::keeping::{Sizes, State};
use super::sums::{blocks_of_others, rows_of_others, unsealed_blocks, unsealed_rows};
use ccfs_base::{Bytes, FILE_MAX, Name, NoMemory, Path, Refusal, Reply, blocks};
use tree_model::{Update, blocks_of};

/// A reply, and an update or none.
pub type Answer = (Reply, Option<Update>);

pub(crate) fn refused(cause: Refusal) -> Answer
    ensures { result ≡ answers.refused cause }
{
    (Reply::Refused(cause), None)
}

pub(crate) fn tells(reply: Reply) -> Answer
    ensures { result ≡ answers.tells reply }
{
    (reply, None)
}

pub(crate) fn does(update: Update) -> Answer
    ensures { result ≡ answers.does update }
{
    (Reply::Done, Some(update))
}

/// Whether a path is that of the root.
pub(crate) fn is_root(path: &Path) -> bool
    ensures root { result ≡ answers.is_root path.now }
    ensures other { result ≡ false → path.now ≢ [] }
{
    path.is_root()
}

impl State {
    /// The directory that the last name of a path is to stand in, and that name.
    pub(crate) fn parent(&self, path: &Path) -> Result<(u32, Name), Refusal>
        requires { path.now ≢ [] }
        ensures ok { IfOk result (λ p. (parent_walk self.now.tree path.now ≡ Ok p.0) × (last_of path.now ≡ p.1)) }
        ensures err { IfErr result (λ cause. parent_walk self.now.tree path.now ≡ Err cause) }
    {
        self.tree.resolve_parent(path)
    }

    /// The blocks that a file of the new length takes more than now.
    pub(crate) fn need(&self, id: u32, size: u64) -> u32
        requires { size ≤ file_max }
        ensures { result ≡ blocks size - blocks (length_at self.now.tree id) }
    {
        u64::from(blocks(size)).saturating_sub(blocks_of(self.tree.length(id))) as u32
    }

    /// The blocks that an update of a stream may take.
    pub(crate) fn free_for(&self, sizes: &Sizes, stream: u8) -> u32
        ensures { result ≡ answers.free_for sizes.now self.now stream }
    {
        let gave = blocks_of_others(&self.unsealed, stream);
        u128::from(sizes.data_blocks)
            .saturating_sub(self.tree.live())
            .saturating_sub(gave) as u32
    }

    /// An update that gives a file a new length, where there is room for it.
    pub(crate) fn with_space(
        &self,
        sizes: &Sizes,
        stream: u8,
        id: u32,
        size: u64,
        update: Update,
    ) -> Answer
        requires { size ≤ file_max }
        ensures { result ≡ answers.with_space sizes.now self.now stream id size update }
    {
        let need = self.need(id, size);
        let free = self.free_for(sizes, stream);
        if free < need {
            return refused(Refusal::NoSpace { need, free });
        }
        does(update)
    }

    /// Whether there is no inode for one more row.
    pub(crate) fn no_inode(&self, sizes: &Sizes, stream: u8) -> bool
        ensures { result ≡ answers.no_inode sizes.now self.now stream }
    {
        let most = u128::from(sizes.inodes.saturating_sub(1));
        let rows = self.tree.len() as u128 + 1;
        most < rows.saturating_add(rows_of_others(&self.unsealed, stream))
    }

    /// The blocks that are free to every stream.
    fn free_blocks(&self, sizes: &Sizes) -> u32
        ensures { result ≡ sizes.now.data_blocks - live self.now.tree - unsealed_blocks self.now.unsealed }
    {
        u128::from(sizes.data_blocks)
            .saturating_sub(self.tree.live())
            .saturating_sub(unsealed_blocks(&self.unsealed)) as u32
    }

    /// The inodes that are free to every stream.
    fn free_inodes(&self, sizes: &Sizes) -> u32
        ensures { result ≡ sizes.now.inodes - 1 - map.len self.now.tree - unsealed_rows self.now.unsealed }
    {
        u128::from(sizes.inodes.saturating_sub(1))
            .saturating_sub(self.tree.len() as u128)
            .saturating_sub(unsealed_rows(&self.unsealed)) as u32
    }

    /// The blocks and the inodes that are free to every stream.
    pub(crate) fn space(&self, sizes: &Sizes) -> Answer
        ensures { result ≡ answers.space sizes.now self.now }
    {
        tells(Reply::Space {
            blocks: self.free_blocks(sizes),
            inodes: self.free_inodes(sizes),
        })
    }

    /// Makes a directory or a file: the root is there already; the walk to the parent; an entry of that name; an inode.
    pub(crate) fn make(&self, sizes: &Sizes, stream: u8, is_dir: bool, path: &Path) -> Answer
        ensures { result ≡ answers.make sizes.now self.now stream is_dir path.now }
    {
        if is_root(path) {
            return refused(Refusal::Exists);
        }
        match self.parent(path) {
            Ok((dir, name)) => self.make_in(sizes, stream, is_dir, dir, name),
            Err(cause) => refused(cause),
        }
    }

    /// The same in a directory.
    fn make_in(&self, sizes: &Sizes, stream: u8, is_dir: bool, dir: u32, name: Name) -> Answer
        ensures { result ≡ answers.refuses (is_some (entry self.now.tree dir name)) refusal_.Exists
            (answers.refuses (answers.no_inode sizes.now self.now stream) refusal_.NoInode (answers.does (update_.Make dir name self.now.next is_dir))) }
    {
        if self.tree.entry(dir, &name).is_some() {
            return refused(Refusal::Exists);
        }
        if self.no_inode(sizes, stream) {
            return refused(Refusal::NoInode);
        }
        does(Update::Make {
            dir,
            name,
            id: self.next,
            is_dir,
        })
    }
}
