//! What the sync forms answer: the number of seals after them.
ghost use Rattle.std.specs.Prelude.{◌≡◌, ◌≤◌, ◌<◌, ◌+◌, ◌^◌, ◌∷◌, [], IfOk, length};
ghost use Rattle.std.specs.List.{filter};
ghost use Rattle.stream_cuts.specs.Forced.{is_open, streams};
ghost use Rattle.ccfs_base.specs.declared.replies.Reply.TheVariants as reply_;
ghost use Rattle.tree_cuts.specs.Calls as calls;
ghost use Rattle.history_model.specs.Answers as answers;

use super::answering::{Answer, tells};
use super::finding::ignores_in;
use super::keeping::State;
use super::seals::{changers, open_ones, streams_below};
use ccfs_base::{NoMemory, Reply};

/// The number of streams.
pub(crate) const STREAMS: u8 = 64;

impl State {
    /// The streams that a sync of a stream seals: that one, where it has an unsealed update.
    pub(crate) fn sealed_by_stream(&self, stream: u8) -> Result<Vec<u8>, NoMemory>
        ensures those { IfOk result (λ all. all.items ≡ filter (is_open self.now.unsealed) (stream ∷ [])) }
        ensures few { IfOk result (λ all. length all.items ≤ 64) }
    {
        open_ones(self.alloc, &self.unsealed, &[stream])
    }

    /// The streams that a sync of a file seals: those with an unsealed update that changes it.
    pub(crate) fn sealed_by_file(&self, id: u32) -> Result<Vec<u8>, NoMemory>
        ensures those { IfOk result (λ all. all.items ≡ filter (is_open self.now.unsealed) (calls.changers id self.now.unsealed)) }
        ensures few { IfOk result (λ all. length all.items ≤ 64) }
    {
        let all = streams_below(self.alloc, STREAMS)?;
        let those = changers(self.alloc, &self.unsealed, id, &all)?;
        open_ones(self.alloc, &self.unsealed, &those)
    }

    /// The streams that a sync of all seals: those with an unsealed update.
    pub(crate) fn sealed_by_all(&self) -> Result<Vec<u8>, NoMemory>
        ensures those { IfOk result (λ all. all.items ≡ filter (is_open self.now.unsealed) streams) }
        ensures few { IfOk result (λ all. length all.items ≤ 64) }
    {
        let all = streams_below(self.alloc, STREAMS)?;
        open_ones(self.alloc, &self.unsealed, &all)
    }

    /// The number of seals after so many more.
    fn synced(&self, more: &[u8]) -> Answer
        requires few { length more.now ≤ 64 }
        requires counted { self.now.seals + 64 < 2 ^ 64 }
        ensures { result ≡ answers.tells (reply_.Synced (self.now.seals + length more.now)) }
    {
        tells(Reply::Synced {
            seals: self.seals + more.len() as u64,
        })
    }

    /// A sync of a stream.
    pub(crate) fn stream_sync(&self, stream: u8) -> Result<Answer, NoMemory>
        requires { self.now.seals + 64 < 2 ^ 64 }
        ensures { IfOk result (λ a. (sizes : calls.Sizes) → a ≡ answers.synced sizes self.now (calls.SyncStream stream)) }
    {
        Ok(self.synced(&self.sealed_by_stream(stream)?))
    }

    /// A sync of a file.
    fn file_sync(&self, id: u32) -> Result<Answer, NoMemory>
        requires { self.now.seals + 64 < 2 ^ 64 }
        ensures { IfOk result (λ a. (sizes : calls.Sizes) → a ≡ answers.synced sizes self.now (calls.SyncFile id)) }
    {
        Ok(self.synced(&self.sealed_by_file(id)?))
    }

    /// A sync of all.
    pub(crate) fn all_sync(&self) -> Result<Answer, NoMemory>
        requires { self.now.seals + 64 < 2 ^ 64 }
        ensures { IfOk result (λ a. (sizes : calls.Sizes) → a ≡ answers.synced sizes self.now calls.SyncAll) }
    {
        Ok(self.synced(&self.sealed_by_all()?))
    }

    /// A flush, which seals nothing.
    pub(crate) fn flush(&self) -> Answer
        ensures { (sizes : calls.Sizes) → result ≡ answers.synced sizes self.now calls.Other }
    {
        tells(Reply::Synced { seals: self.seals })
    }

    /// A sync of an open file: the ignore flag, with which it is done.
    pub(crate) fn fsync(&self, actor: u8, id: u32) -> Result<Answer, NoMemory>
        requires { self.now.seals + 64 < 2 ^ 64 }
        ensures { IfOk result (λ a. (sizes : calls.Sizes) → a ≡ answers.fsync sizes self.now actor id) }
    {
        if ignores_in(&self.choices, actor) {
            return Ok(tells(Reply::Done));
        }
        self.file_sync(id)
    }
}
