// What a disk in memory remembers of its calls.

/// An operation that a disk in memory performed. `offset`, `size` and the length of `bytes` are in bytes.
#[derive(Drop)]
pub enum Operation {
    Write { offset: u64, bytes: Vec<u8> },
    Resize { size: u64 },
    Sync,
}
