//! What the commands on the bytes of files answer.
ghost use Rattle.std.specs.Prelude.{◌≡◌, ◌≢◌, ◌≤◌, ◌<◌, ◌+◌, ◌^◌, IfOk, length, take, drop, min, nat_lt};
ghost use Rattle.std.specs.FinMap.{get};
ghost use Rattle.ccfs_base.specs.Limits.{file_max};
ghost use Rattle.tree_model.specs.Weights.{bytes_at, length_at};
ghost use Rattle.tree_cuts.specs.Calls as calls;
ghost use Rattle.history_model.specs.Answers as answers;
ghost use Rattle.plain_model.specs.Bounds.{FilesFit};

use super::answering::{Answer, does, refused, tells};
use super::keeping::{Sizes, State};
use ccfs_base::{Bytes, FILE_MAX, NoMemory, Refusal, Reply, blocks};
use tree_model::{Body, Update};

/// Whether so many bytes from that place on end behind the greatest length of a file.
fn is_too_long(off: u64, len: usize) -> bool
    ensures { result ≡ nat_lt file_max (off + len) }
{
    let len = len as u64;
    len > FILE_MAX || off > FILE_MAX - len
}

/// The bytes of a file from one place on, at most so many.
fn piece(bytes: &[u8], off: u64, size: u32) -> &[u8]
    ensures { result.now ≡ take size (drop off bytes.now) }
{
    if off >= bytes.len() as u64 {
        return &[];
    }
    let rest = &bytes[off as usize..];
    &rest[..rest.len().min(size as usize)]
}

impl State {
    /// Writes into a file: a directory; no bytes, which is done; the greatest length; room.
    pub(crate) fn write(
        &self,
        sizes: &Sizes,
        stream: u8,
        off: u64,
        bytes: &Bytes,
        id: u32,
    ) -> Result<Answer, NoMemory>
        requires { FilesFit self.now.tree }
        ensures { IfOk result (λ a. a ≡ answers.write sizes.now self.now stream off bytes.now id) }
    {
        if self.tree.is_dir(id) {
            return Ok(refused(Refusal::IsDir));
        }
        if bytes.is_empty() {
            return Ok(tells(Reply::Done));
        }
        if is_too_long(off, bytes.len()) {
            return Ok(refused(Refusal::FileBig));
        }
        let size = self.tree.length(id).max(off + bytes.len() as u64);
        let update = Update::Write {
            id,
            off,
            bytes: bytes.copy()?,
        };
        Ok(self.with_space(sizes, stream, id, size, update))
    }

    /// Gives a file a length: a directory; the greatest length; the same length, which is done; room.
    pub(crate) fn resize(&self, sizes: &Sizes, stream: u8, size: u64, id: u32) -> Answer
        ensures { result ≡ answers.resize sizes.now self.now stream size id }
    {
        if self.tree.is_dir(id) {
            return refused(Refusal::IsDir);
        }
        if size > FILE_MAX {
            return refused(Refusal::FileBig);
        }
        if size == self.tree.length(id) {
            return tells(Reply::Done);
        }
        self.with_space(sizes, stream, id, size, Update::Resize { id, len: size })
    }

    /// Reads a file: a directory; the bytes, cut off at the end of the file.
    pub(crate) fn read(&self, off: u64, size: u32, id: u32) -> Result<Answer, NoMemory>
        ensures { IfOk result (λ a. (sizes : calls.Sizes) → a ≡ answers.read sizes self.now off size id) }
    {
        if self.tree.is_dir(id) {
            return Ok(refused(Refusal::IsDir));
        }
        let bytes = Bytes::of(self.alloc, piece(self.tree.bytes(id), off, size))?;
        Ok(tells(Reply::Got { bytes }))
    }

    /// Tells of what stands at a serial.
    pub(crate) fn stat(&self, id: u32) -> Answer
        requires { FilesFit self.now.tree }
        ensures { (sizes : calls.Sizes) → result ≡ answers.stat sizes self.now id }
    {
        if self.tree.is_dir(id) {
            return tells(Reply::StatDir {
                entries: self.tree.entry_count(id),
                changes: self.changes(id),
            });
        }
        let length = self.tree.length(id);
        tells(Reply::StatFile {
            length,
            blocks: blocks(length),
        })
    }

    /// How often the entries of a directory were changed.
    fn changes(&self, id: u32) -> u64
        ensures { result ≡ answers.row_changes (get self.now.tree id) }
    {
        match self.tree.row(id) {
            Some(row) => body_changes(&row.body),
            None => 0,
        }
    }
}

/// The count of changes of a directory. A file has none.
fn body_changes(body: &Body) -> u64
    ensures { result ≡ answers.body_changes body.now }
{
    match body {
        Body::Dir { changes } => *changes,
        Body::File { .. } => 0,
    }
}
