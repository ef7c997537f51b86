//! The checks of a volume.
ghost use Rattle.std.specs.Prelude.{◌≡◌};
ghost use Rattle.image_model.specs.Checks.{all_built, bare};

use ccfs_base::limits::FILE_MAX;

/// Why a volume stands for no tree: the check that fails. They stand in the order in which they are made.
#[derive(Clone, Copy, Debug, PartialEq, Eq, Drop)]
pub enum Check {
    /// The format isn't 1, or a batch is open and the batch number isn't that of the last open one.
    Format,
    /// Inode 0 or 1 isn't used, or isn't a directory.
    Root,
    /// A used inode is neither a directory nor a file, or is a file that is too long.
    Record,
    /// A used inode has no name, stands in no used directory, or is a directory in the orphan directory.
    Slot,
    /// A used inode has the parent and the name of a lower one.
    Twin,
    /// A used inode is neither below the root nor in the orphan directory.
    Ring,
    /// A pointer names no data block, or one that an earlier pointer names.
    Pointer,
    /// A data block is marked as used and no pointer names it, or the other way round.
    Bits,
    /// The count of free blocks or of free inodes isn't that of the clear bits.
    Counts,
}

/// What may be in a volume.
#[derive(Clone, Copy, Debug, PartialEq, Eq, Drop)]
pub struct Limits {
    /// The longest file, in bytes.
    pub longest: u64,
    /// Whether a file may stand in the orphan directory.
    pub orphans: bool,
}

impl Limits {
    /// Those of every volume: files up to the greatest length, with or without a name.
    pub fn all_built() -> Limits
        ensures { result ≡ all_built }
    {
        Limits {
            longest: FILE_MAX,
            orphans: true,
        }
    }

    /// Those until files have bytes and may stay open without a name: only empty files, all with names.
    pub fn bare() -> Limits
        ensures { result ≡ bare }
    {
        Limits {
            longest: 0,
            orphans: false,
        }
    }
}
