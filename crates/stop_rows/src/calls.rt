//! Calls of the program on disks in memory.
use ccfs_base::{Bytes, MemSink, MemSource, NoMemory};
use ccfs_top::{Ended, shell};
use disk_model::MemDisk;
use std::alloc::Global;

/// Words, each of them a string.
pub(crate) fn words_of(alloc: Global, texts: &[&str]) -> Result<Vec<String>, NoMemory> {
    let mut words = Vec::new(alloc);
    for text in texts {
        words.push(String::from_str(alloc, text)?)?;
    }
    Ok(words)
}

/// A call with these words, whose script is read byte by byte.
pub(crate) fn call(
    alloc: Global,
    texts: &[&str],
    disk: MemDisk,
    script: &[u8],
    out: &mut MemSink,
) -> Result<Ended<MemDisk>, NoMemory> {
    let words = words_of(alloc, texts)?;
    let mut source = MemSource::in_pieces(Bytes::of(alloc, script)?, 1, None);
    Ok(shell(alloc, &words, disk, &mut source, out))
}

/// A run of a script on a disk, with a sink.
pub(crate) fn run(
    alloc: Global,
    disk: MemDisk,
    script: &[u8],
    out: &mut MemSink,
) -> Result<Ended<MemDisk>, NoMemory> {
    call(alloc, &["ccfs", "run", "A", "S"], disk, script, out)
}

/// The status of `tree` on a disk, and what it wrote.
pub(crate) fn print(alloc: Global, disk: MemDisk) -> Result<(u8, MemSink), NoMemory> {
    let mut out = MemSink::new(alloc, None);
    let ended = call(alloc, &["ccfs", "tree", "A"], disk, b"", &mut out)?;
    Ok((ended.status, out))
}

/// The image that `mkfs` makes with so many blocks and inodes, of an empty disk.
pub(crate) fn made(alloc: Global, blocks: &str, inodes: &str) -> Result<MemDisk, NoMemory> {
    let mut out = MemSink::new(alloc, None);
    let disk = MemDisk::new(alloc, 0)?;
    let words = ["ccfs", "mkfs", "A", blocks, inodes];
    let ended = call(alloc, &words, disk, b"", &mut out)?;
    ended.disk.image(alloc, 0)
}

/// The image that `mkfs A 512 32` makes of an empty disk.
pub(crate) fn fresh(alloc: Global) -> Result<MemDisk, NoMemory> {
    made(alloc, "512", "32")
}
