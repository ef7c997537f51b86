//! The pointers of files.

/// A pointer of a file: four bytes that name a block of the image.
#[derive(Clone, Copy, Debug, PartialEq, Eq, Drop)]
pub enum Pointer {
    /// That to a page.
    Page {
        /// The inode of the file.
        inode: u32,
        /// The page, counted from 0.
        page: u64,
    },
    /// That to the indirect block, which has the pointers of the pages from 24 on.
    ToIndirect {
        /// The inode of the file.
        inode: u32,
    },
}
