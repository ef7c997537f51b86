//! The map of a file behind a batch, before it is put in its place.
use super::maps::FileMap;

/// The map of one file behind a batch. A contract sees the inode, and the file's length and blocks.
#[derive(Drop)]
pub struct Next {
    /// The file.
    pub(crate) inode: u32,
    /// Its length and its blocks.
    pub(crate) file: FileMap,
}
