//! The commands of the file system.
ghost use Rattle.std.specs.Prelude.{◌≡◌, IfOk};

use super::NoMemory;
use super::buffer::Bytes;
use super::paths::Path;
use super::streams::STREAMS;

/// A command of an actor.
#[derive(Clone, Debug, Drop)]
pub enum Command {
    /// Makes an empty directory.
    Mkdir {
        /// Where it is to stand.
        path: Path,
    },
    /// Makes an empty file.
    Create {
        /// Where it is to stand.
        path: Path,
    },
    /// Writes bytes into a file.
    Write {
        /// The file.
        path: Path,
        /// The first byte's place in the file.
        off: u64,
        /// At most 65,536 bytes.
        bytes: Bytes,
    },
    /// Cuts a file off, or lengthens it by zeros.
    Resize {
        /// The file.
        path: Path,
        /// The new length in bytes.
        len: u64,
    },
    /// Reads bytes of a file.
    Read {
        /// The file.
        path: Path,
        /// The first byte's place in the file.
        off: u64,
        /// How many bytes, at most 4,096.
        len: u32,
    },
    /// Removes a file.
    Unlink {
        /// The file.
        path: Path,
    },
    /// Removes an empty directory.
    Rmdir {
        /// The directory.
        path: Path,
    },
    /// Moves a file or a directory.
    Rename {
        /// What is moved.
        path: Path,
        /// Where it is to stand.
        to: Path,
    },
    /// Opens a file.
    OpenFile {
        /// The file.
        path: Path,
    },
    /// Writes bytes into an open file.
    HWrite {
        /// The actor's handle.
        handle: u8,
        /// The first byte's place in the file.
        off: u64,
        /// At most 65,536 bytes.
        bytes: Bytes,
    },
    /// Reads bytes of an open file.
    HRead {
        /// The actor's handle.
        handle: u8,
        /// The first byte's place in the file.
        off: u64,
        /// How many bytes, at most 4,096.
        len: u32,
    },
    /// Gives a handle up.
    Close {
        /// The actor's handle.
        handle: u8,
    },
    /// Asks what stands at a path.
    Stat {
        /// The file or directory.
        path: Path,
    },
    /// Asks for the entries of a directory.
    List {
        /// The directory.
        path: Path,
        /// How many names in byte order are left out first.
        skip: u32,
    },
    /// Asks how much room is left.
    Space,
    /// Sets the actor's stream.
    SetStream {
        /// At most 63.
        stream: u8,
        /// Whether fsync is ignored from now on.
        ignore: bool,
    },
    /// Makes the updates of the actor's stream durable.
    StreamSync,
    /// Makes the updates of an open file durable.
    Fsync {
        /// The actor's handle.
        handle: u8,
    },
    /// Makes all updates durable.
    Sync,
    /// Makes all sealed updates durable.
    Flush,
}

/// The most bytes that a command writes.
pub const WRITE_MOST: usize = 65536;

/// The most bytes that a command reads.
pub const READ_MOST: u32 = 4096;

impl Command {
    ghost use Rattle.ccfs_base.specs.Fits.{fits_command};

    /// Whether it keeps within the bounds: at most 65,536 bytes to write, at most 4,096 to read, and a stream of at
    /// most 63. Each call that takes a command has the condition that it fits.
    pub fn fits(&self) -> bool
        ensures { result ≡ fits_command self.now }
    {
        match self {
            Command::Write { bytes, .. } | Command::HWrite { bytes, .. } => bytes.len()
                <= WRITE_MOST,
            Command::Read { len, .. } | Command::HRead { len, .. } => *len <= READ_MOST,
            Command::SetStream { stream, .. } => *stream < STREAMS,
            _ => true,
        }
    }

    /// An equal command.
    pub fn copy(&self) -> Result<Command, NoMemory>
        ensures { IfOk result (λ command. command ≡ self.now) }
    {
        self.clone()
    }
}
