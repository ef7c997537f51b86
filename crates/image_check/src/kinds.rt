//! What is wrong with an image, and where.
ghost use Rattle.std.specs.Prelude.{◌≡◌, None, MatchResult};
ghost use Rattle.image_check.specs.Kinds.{kind_name, kind_of, Refuses};

use image_model::Check;
use std::alloc::{AllocError, AllocFailed};
use thiserror::Error;

/// Which check of an image fails. They stand in the order in which they are made.
#[derive(Clone, Copy, Debug, PartialEq, Eq, Drop)]
pub enum BadKind {
    /// The length isn't whole blocks, or isn't an image's.
    Size,
    /// A field of the superblock is wrong.
    Super,
    /// A batch that counts can't be read.
    Journal,
    /// The format isn't 1, or a batch is open and the batch number isn't that of the last open one.
    Format,
    /// Inode 0 or 1 isn't used, or isn't a directory.
    Root,
    /// A used inode is neither a directory nor a file, or is a file that is too long.
    Record,
    /// A used inode has no name, stands in no used directory, or is a directory in the orphan directory.
    Slot,
    /// A used inode has the parent and the name of a lower one.
    Twin,
    /// A used inode is neither below the root nor in the orphan directory.
    Ring,
    /// A pointer names no data block, or one that an earlier pointer names.
    Pointer,
    /// A data block is marked as used and no pointer names it, or the other way round.
    Bits,
    /// The count of free blocks or of free inodes isn't that of the clear bits.
    Counts,
}

impl BadKind {
    /// The kind of a check of the volume.
    pub fn of(check: Check) -> BadKind
        ensures { result ≡ kind_of check }
    {
        match check {
            Check::Format => BadKind::Format,
            Check::Root => BadKind::Root,
            Check::Record => BadKind::Record,
            Check::Slot => BadKind::Slot,
            Check::Twin => BadKind::Twin,
            Check::Ring => BadKind::Ring,
            Check::Pointer => BadKind::Pointer,
            Check::Bits => BadKind::Bits,
            Check::Counts => BadKind::Counts,
        }
    }

    /// The kind as it is spelled where it is printed.
    pub fn name(self) -> &'static [u8]
        ensures { result.now ≡ kind_name self }
    {
        match self {
            BadKind::Size => b"Size",
            BadKind::Super => b"Super",
            BadKind::Journal => b"Journal",
            BadKind::Format => b"Format",
            BadKind::Root => b"Root",
            BadKind::Record => b"Record",
            BadKind::Slot => b"Slot",
            BadKind::Twin => b"Twin",
            BadKind::Ring => b"Ring",
            BadKind::Pointer => b"Pointer",
            BadKind::Bits => b"Bits",
            BadKind::Counts => b"Counts",
        }
    }
}

/// The first check of an image that fails, and where.
#[derive(Clone, Copy, Debug, PartialEq, Eq, Drop, Error)]
#[error("bad image {kind:?} block {block}")]
pub struct BadImage {
    /// Which check fails.
    pub kind: BadKind,
    /// The block of the image.
    pub block: u32,
}

/// Why a volume isn't taken for a tree.
#[derive(Clone, Copy, Debug, PartialEq, Eq, Drop, Error)]
pub enum CheckFault {
    /// A check fails.
    #[error("{bad}")]
    Bad {
        /// The first check that fails.
        bad: BadImage,
    },
    /// Memory was wanting. It says nothing of the volume.
    #[error("no memory")]
    NoMemory,
}

impl From<AllocError> for CheckFault {
    ghost use Rattle.image_check.specs.declared.kinds.CheckFault.TheVariants.{NoMemory};

    ghost from_gives = { λ _ fault. fault ≡ NoMemory };

    fn from(_error: AllocError) -> CheckFault {
        CheckFault::NoMemory
    }
}

impl<T: Drop> From<AllocFailed<T>> for CheckFault {
    ghost use Rattle.image_check.specs.declared.kinds.CheckFault.TheVariants.{NoMemory};

    ghost from_gives = { λ _ fault. fault ≡ NoMemory };

    fn from(_error: AllocFailed<T>) -> CheckFault {
        CheckFault::NoMemory
    }
}

/// Tells a check that fails in this block, and nothing where there is none.
pub(crate) fn pass(check: Check, block: Option<u32>) -> Result<(), CheckFault>
    ensures { MatchResult result (λ _. block ≡ None) (λ fault. Refuses check block fault) }
{
    match block {
        Some(block) => Err(CheckFault::Bad {
            bad: BadImage {
                kind: BadKind::of(check),
                block,
            },
        }),
        None => Ok(()),
    }
}
