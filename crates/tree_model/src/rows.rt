//! The rows of a tree, and the changes of one.
ghost use Rattle.std.specs.Prelude.{◌≡◌, ◌+◌, ◌<◌, ◌^◌, length, IfOk, OnOk, OnErr};
ghost use Rattle.ccfs_base.specs.Contents.{resized, written};
ghost use Rattle.tree_model.specs.Rows.{is_dir};
ghost use Rattle.tree_model.specs.Updates.{counted, refilled, new_body};

use ccfs_base::{Bytes, Command, Name, NoMemory, Reply};
use std::alloc::Global;

/// What a row is: a directory or a file.
#[derive(Debug, Drop)]
pub enum Body {
    /// A directory.
    Dir {
        /// How often its entries were changed, modulo 2^64.
        changes: u64,
    },
    /// A file.
    File {
        /// All of its bytes.
        bytes: Bytes,
    },
}

impl Body {
    /// That of a directory that was never changed, or of a file without bytes. It takes no memory.
    pub fn new(alloc: Global, is_dir: bool) -> Body
        ensures { result ≡ new_body is_dir }
    {
        if is_dir {
            Body::Dir { changes: 0 }
        } else {
            Body::File {
                bytes: Bytes::new(alloc),
            }
        }
    }

    /// Whether it is a directory's.
    pub fn is_dir(&self) -> bool
        ensures { result ≡ is_dir self.now }
    {
        matches!(self, Body::Dir { .. })
    }

    /// Adds 1 to a directory's count of changes, modulo 2^64. A file's body stays as it is.
    pub(crate) fn count(&mut self)
        ensures { self.new ≡ counted self.old }
    {
        if let Body::Dir { changes } = self {
            *changes = changes.wrapping_add(1);
        }
    }

    /// Cuts a file to this length in bytes, or fills it up with zeros. A directory's body stays as it is. Without memory
    /// all is as before.
    pub(crate) fn resize(&mut self, len: usize) -> Result<(), NoMemory>
        ensures ok { OnOk result (self.new ≡ refilled (resized len) self.old) }
        ensures err { OnErr result (self.new ≡ self.old) }
    {
        match self {
            Body::Dir { .. } => Ok(()),
            Body::File { bytes } => bytes.resize(len),
        }
    }

    /// Puts bytes at a place of a file. A directory's body stays as it is. Without memory all is as before.
    pub(crate) fn write_at(&mut self, off: usize, new: &[u8]) -> Result<(), NoMemory>
        requires { off + length new.now < 2 ^ 64 }
        ensures ok { OnOk result (self.new ≡ refilled (written off new.now) self.old) }
        ensures err { OnErr result (self.new ≡ self.old) }
    {
        match self {
            Body::Dir { .. } => Ok(()),
            Body::File { bytes } => bytes.write_at(off, new),
        }
    }

    /// The same body once more.
    pub fn copy(&self) -> Result<Body, NoMemory>
        ensures { IfOk result (λ body. body ≡ self.now) }
    {
        match self {
            Body::Dir { changes } => Ok(Body::Dir { changes: *changes }),
            Body::File { bytes } => Ok(Body::File {
                bytes: bytes.copy()?,
            }),
        }
    }
}

/// A row of a tree: a directory or a file, and where it stands.
#[derive(Debug, Drop)]
pub struct Row {
    /// The serial of the directory that it stands in. The root has none, and neither has a file without a name.
    pub parent: Option<u32>,
    /// Its name there. The root's is empty.
    pub name: Name,
    /// What it is.
    pub body: Body,
}

impl Row {
    /// The same row once more.
    pub fn copy(&self) -> Result<Row, NoMemory>
        ensures { IfOk result (λ row. row ≡ self.now) }
    {
        Ok(Row {
            parent: self.parent,
            name: self.name,
            body: self.body.copy()?,
        })
    }
}

/// A change of a tree. Rows are named by their serials; the root's is 0.
#[derive(Debug, Drop)]
pub enum Update {
    /// Puts a new row, an empty directory or file, into a directory, and counts a change of that directory.
    Make {
        /// The directory.
        dir: u32,
        /// The new row's name there.
        name: Name,
        /// The new row's serial.
        id: u32,
        /// Whether it is a directory (true) or a file.
        is_dir: bool,
    },
    /// Puts bytes into a file, over what stands there, and zeros in a gap before them.
    Write {
        /// The file.
        id: u32,
        /// The first byte's place in the file, in bytes from 0.
        off: u64,
        /// The bytes, at least one.
        bytes: Bytes,
    },
    /// Cuts a file off, or fills it up with zeros.
    Resize {
        /// The file.
        id: u32,
        /// The new length in bytes.
        len: u64,
    },
    /// Removes a file or an empty directory, and counts a change of the directory that it stood in.
    Remove {
        /// The directory that it stands in.
        dir: u32,
        /// Its name there.
        name: Name,
        /// Its serial.
        id: u32,
        /// Whether it is a file that is open, and so stays as a file without a name.
        stays: bool,
    },
    /// Moves a row to another place, and counts a change of the directory that it leaves and then one of the directory
    /// that it comes to.
    Move {
        /// The directory that it stands in.
        dir: u32,
        /// Its name there.
        name: Name,
        /// The directory that it comes to.
        to_dir: u32,
        /// Its name there.
        to_name: Name,
        /// Its serial.
        id: u32,
        /// Whether it is a directory (true) or a file.
        is_dir: bool,
        /// The file that stands at the new place, if there is one. It is removed.
        replaced: Option<u32>,
        /// Whether that file is open, and so stays as a file without a name.
        stays: bool,
    },
    /// Drops a file without a name.
    Release {
        /// The file.
        id: u32,
    },
}

impl Update {
    /// The same update once more.
    pub fn copy(&self) -> Result<Update, NoMemory>
        ensures { IfOk result (λ update. update ≡ self.now) }
    {
        Ok(match self {
            Update::Make {
                dir,
                name,
                id,
                is_dir,
            } => Update::Make {
                dir: *dir,
                name: *name,
                id: *id,
                is_dir: *is_dir,
            },
            Update::Write { id, off, bytes } => Update::Write {
                id: *id,
                off: *off,
                bytes: bytes.copy()?,
            },
            Update::Resize { id, len } => Update::Resize { id: *id, len: *len },
            Update::Remove {
                dir,
                name,
                id,
                stays,
            } => Update::Remove {
                dir: *dir,
                name: *name,
                id: *id,
                stays: *stays,
            },
            Update::Move {
                dir,
                name,
                to_dir,
                to_name,
                id,
                is_dir,
                replaced,
                stays,
            } => Update::Move {
                dir: *dir,
                name: *name,
                to_dir: *to_dir,
                to_name: *to_name,
                id: *id,
                is_dir: *is_dir,
                replaced: *replaced,
                stays: *stays,
            },
            Update::Release { id } => Update::Release { id: *id },
        })
    }
}

/// What a session says of one command: who gave it, in which stream, what it was answered and what it changed.
#[derive(Debug, Drop)]
pub struct Entry {
    /// The actor that gave the command.
    pub actor: u8,
    /// The actor's stream at that time.
    pub stream: u8,
    /// The command.
    pub command: Command,
    /// Its answer.
    pub reply: Reply,
    /// What it changed of the tree, if it changed anything.
    pub update: Option<Update>,
}

impl Entry {
    /// The same entry once more.
    pub fn copy(&self) -> Result<Entry, NoMemory>
        ensures { IfOk result (λ entry. entry ≡ self.now) }
    {
        let update = match &self.update {
            Some(update) => Some(update.copy()?),
            None => None,
        };
        Ok(Entry {
            actor: self.actor,
            stream: self.stream,
            command: self.command.copy()?,
            reply: self.reply.copy()?,
            update,
        })
    }
}
