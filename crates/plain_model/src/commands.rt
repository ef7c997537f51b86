//! What the commands answer, each at its path or its handle.
ghost use Rattle.std.specs.Prelude.{◌≡◌, ◌<◌, ◌+◌, ◌^◌, IfOk};
ghost use Rattle.tree_cuts.specs.Calls as calls;
ghost use Rattle.history_model.specs.State.{file_in, stream_in};
ghost use Rattle.history_model.specs.Answers as answers;
ghost use Rattle.plain_model.specs.Bounds.{FilesFit};

use super::answering::{Answer, refused, tells};
use super::finding::{file_in, stream_in};
use super::keeping::{Sizes, State};
use ccfs_base::{Bytes, Command, NoMemory, Path, Refusal, Reply};

impl State {
    fn write_path(
        &self,
        sizes: &Sizes,
        stream: u8,
        path: &Path,
        off: u64,
        bytes: &Bytes,
    ) -> Result<Answer, NoMemory>
        requires { FilesFit self.now.tree }
        ensures { IfOk result (λ a. a ≡ answers.at_path self.now.tree path.now (answers.write sizes.now self.now stream off bytes.now)) }
    {
        match self.tree.resolve(path) {
            Ok(id) => self.write(sizes, stream, off, bytes, id),
            Err(cause) => Ok(refused(cause)),
        }
    }

    fn resize_path(&self, sizes: &Sizes, stream: u8, path: &Path, size: u64) -> Answer
        ensures { result ≡ answers.at_path self.now.tree path.now (answers.resize sizes.now self.now stream size) }
    {
        match self.tree.resolve(path) {
            Ok(id) => self.resize(sizes, stream, size, id),
            Err(cause) => refused(cause),
        }
    }

    fn read_path(&self, path: &Path, off: u64, size: u32) -> Result<Answer, NoMemory>
        ensures { IfOk result (λ a. (sizes : calls.Sizes) → a ≡ answers.at_path self.now.tree path.now (answers.read sizes self.now off size)) }
    {
        match self.tree.resolve(path) {
            Ok(id) => self.read(off, size, id),
            Err(cause) => Ok(refused(cause)),
        }
    }

    fn open_path(&self, actor: u8, path: &Path) -> Answer
        ensures { (sizes : calls.Sizes) → result ≡ answers.at_path self.now.tree path.now (answers.open_file sizes self.now actor) }
    {
        match self.tree.resolve(path) {
            Ok(id) => self.open_file(actor, id),
            Err(cause) => refused(cause),
        }
    }

    fn stat_path(&self, path: &Path) -> Answer
        requires { FilesFit self.now.tree }
        ensures { (sizes : calls.Sizes) → result ≡ answers.at_path self.now.tree path.now (answers.stat sizes self.now) }
    {
        match self.tree.resolve(path) {
            Ok(id) => self.stat(id),
            Err(cause) => refused(cause),
        }
    }

    fn list_path(&self, path: &Path, skip: u32) -> Result<Answer, NoMemory>
        ensures { IfOk result (λ a. (sizes : calls.Sizes) → a ≡ answers.at_path self.now.tree path.now (answers.listing sizes self.now skip)) }
    {
        match self.tree.resolve(path) {
            Ok(id) => self.listing(skip, id),
            Err(cause) => Ok(refused(cause)),
        }
    }

    fn write_handle(
        &self,
        sizes: &Sizes,
        actor: u8,
        handle: u8,
        off: u64,
        bytes: &Bytes,
    ) -> Result<Answer, NoMemory>
        requires { FilesFit self.now.tree }
        ensures { IfOk result (λ a. a ≡ answers.at_handle (file_in self.now.handles actor handle) (answers.write sizes.now self.now (stream_in self.now.choices actor) off bytes.now)) }
    {
        match file_in(&self.handles, actor, handle) {
            Some(id) => self.write(sizes, stream_in(&self.choices, actor), off, bytes, id),
            None => Ok(refused(Refusal::BadHandle)),
        }
    }

    fn read_handle(&self, actor: u8, handle: u8, off: u64, size: u32) -> Result<Answer, NoMemory>
        ensures { IfOk result (λ a. (sizes : calls.Sizes) → a ≡ answers.at_handle (file_in self.now.handles actor handle) (answers.read sizes self.now off size)) }
    {
        match file_in(&self.handles, actor, handle) {
            Some(id) => self.read(off, size, id),
            None => Ok(refused(Refusal::BadHandle)),
        }
    }

    fn close_handle(&self, actor: u8, handle: u8) -> Answer
        ensures { (sizes : calls.Sizes) → result ≡ answers.at_handle (file_in self.now.handles actor handle) (answers.close sizes self.now actor handle) }
    {
        match file_in(&self.handles, actor, handle) {
            Some(id) => self.close(actor, handle, id),
            None => refused(Refusal::BadHandle),
        }
    }

    fn fsync_handle(&self, actor: u8, handle: u8) -> Result<Answer, NoMemory>
        requires { self.now.seals + 64 < 2 ^ 64 }
        ensures { IfOk result (λ a. (sizes : calls.Sizes) → a ≡ answers.at_handle (file_in self.now.handles actor handle) (answers.fsync sizes self.now actor)) }
    {
        match file_in(&self.handles, actor, handle) {
            Some(id) => self.fsync(actor, id),
            None => Ok(refused(Refusal::BadHandle)),
        }
    }

    /// What an actor's command answers, and its update or none. It changes nothing.
    pub fn answer(&self, sizes: &Sizes, actor: u8, command: &Command) -> Result<Answer, NoMemory>
        requires files { FilesFit self.now.tree }
        requires counted { self.now.seals + 64 < 2 ^ 64 }
        ensures { IfOk result (λ a. a ≡ answers.answer sizes.now self.now actor command.now) }
    {
        let stream = stream_in(&self.choices, actor);
        match command {
            Command::Mkdir { path } => Ok(self.make(sizes, stream, true, path)),
            Command::Create { path } => Ok(self.make(sizes, stream, false, path)),
            Command::Write { path, off, bytes } => {
                self.write_path(sizes, stream, path, *off, bytes)
            }
            Command::Resize { path, len } => Ok(self.resize_path(sizes, stream, path, *len)),
            Command::Read { path, off, len } => self.read_path(path, *off, *len),
            Command::Unlink { path } => Ok(self.unlink(path)),
            Command::Rmdir { path } => Ok(self.rmdir(path)),
            Command::Rename { path, to } => Ok(self.rename(path, to)),
            Command::OpenFile { path } => Ok(self.open_path(actor, path)),
            Command::HWrite { handle, off, bytes } => {
                self.write_handle(sizes, actor, *handle, *off, bytes)
            }
            Command::HRead { handle, off, len } => self.read_handle(actor, *handle, *off, *len),
            Command::Close { handle } => Ok(self.close_handle(actor, *handle)),
            Command::Stat { path } => Ok(self.stat_path(path)),
            Command::List { path, skip } => self.list_path(path, *skip),
            Command::Space => Ok(self.space(sizes)),
            Command::SetStream { .. } => Ok(tells(Reply::Done)),
            Command::StreamSync => self.stream_sync(stream),
            Command::Fsync { handle } => self.fsync_handle(actor, *handle),
            Command::Sync => self.all_sync(),
            Command::Flush => Ok(self.flush()),
        }
    }
}
