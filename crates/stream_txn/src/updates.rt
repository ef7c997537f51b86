//! The updates that are not sealed.
use file_bodies::BodyOps;

/// How many streams there are.
pub const STREAMS: usize = 64;

/// An update that is not sealed, as far as its batch and the account of space need it.
#[derive(Drop)]
pub struct Unsealed {
    /// The stream that made it.
    pub stream: u8,
    /// What it weighs.
    pub weight: u32,
    /// How many blocks it gave up.
    pub gave_blocks: u32,
    /// How many rows it gave up.
    pub gave_rows: u32,
    /// What it changes in the contents of files.
    pub ops: BodyOps,
}
