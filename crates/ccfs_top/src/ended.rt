//! How the top call ends.

/// How a call of the top ended. It hands the disk back.
#[derive(Drop)]
pub struct Ended<D> {
    /// The status of the program: 0 where all was done, 1 where a command of the script isn't built, 2 for words that ask for nothing,
    /// 3 for a line that is no command, 4 for a script that is too long, 5 for a fault of the source, 6 of the sink, 7 of the
    /// disk, 8 for an image that holds no tree, 9 for want of memory.
    pub status: u8,
    /// The batch number that was printed with the tree, else 0.
    pub batches: u64,
    /// The disk that was handed in.
    pub disk: D,
}
