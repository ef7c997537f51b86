//! Rows of a table, each a number of runs on one image, and their one runner.
use super::calls::{made, print, run};
use super::texts::{Part, text_of};
use ccfs_base::MemSink;
use ccfs_top::Ended;
use disk_model::MemDisk;
use std::alloc::Global;
use std::test::Fail;

/// Runs, one after another, on an image that was just made.
pub(crate) struct Row {
    /// What the row shows.
    pub(crate) name: &'static str,
    /// How many blocks and inodes the image has.
    pub(crate) image: [&'static str; 2],
    /// The runs.
    pub(crate) runs: &'static [Run],
}

/// A run, and what it does.
pub(crate) struct Run {
    /// The script.
    pub(crate) script: &'static [Part],
    /// The status.
    pub(crate) status: u8,
    /// All that is written.
    pub(crate) says: &'static [Part],
    /// How many bytes are written to the disk, where the row tells it.
    pub(crate) written: Option<u64>,
}

/// The image of most rows.
pub(crate) const SMALL: [&str; 2] = ["512", "32"];

/// The tree of an image in which nothing was synced.
pub(crate) const EMPTY: Part = Part::Text("batches 0; dir / entries 0 changes 0;");

/// Whether an image that a run left prints the tree that it printed.
fn leaves_tree(alloc: Global, image: MemDisk, said: &[u8]) -> Result<bool, Fail> {
    let (status, text) = print(alloc, image)?;
    Ok(status == 0 && text.held().starts_with(b"batches ") && said.ends_with(text.held()))
}

/// Whether a run ended as it is told, as far as status, output and written bytes go.
fn ended_so(
    alloc: Global,
    told: &Run,
    ended: &Ended<MemDisk>,
    out: &MemSink,
) -> Result<bool, Fail> {
    let says = text_of(alloc, told.says)?;
    let bytes = told.written.unwrap_or(ended.disk.written());
    Ok(ended.status == told.status && out.held() == says.all() && ended.disk.written() == bytes)
}

/// Whether the disk is left as the status says: images print the tree, or it had no call.
fn left_so(alloc: Global, ended: &Ended<MemDisk>, out: &MemSink) -> Result<bool, Fail> {
    if ended.status != 0 {
        return Ok(ended.disk.calls() == 0);
    }
    for pick in 0..3 {
        if !leaves_tree(alloc, ended.disk.image(alloc, pick)?, out.held())? {
            return Ok(false);
        }
    }
    Ok(true)
}

/// The image that a run leaves. The test fails, with this name, where it ends otherwise than it is told.
fn play_run(alloc: Global, name: &'static str, disk: MemDisk, told: &Run) -> Result<MemDisk, Fail> {
    let script = text_of(alloc, told.script)?;
    let mut out = MemSink::in_pieces(alloc, 1, None);
    let ended = run(alloc, disk, script.all(), &mut out)?;
    if !ended_so(alloc, told, &ended, &out)? || !left_so(alloc, &ended, &out)? {
        return Err(name.into());
    }
    Ok(ended.disk.image(alloc, 0)?)
}

fn play_row(alloc: Global, row: &Row) -> Result<(), Fail> {
    let mut disk = made(alloc, row.image[0], row.image[1])?;
    for told in row.runs {
        disk = play_run(alloc, row.name, disk, told)?;
    }
    Ok(())
}

/// The test fails, with the row's name, where a run ends otherwise than its row says. A run that ends with 0 leaves images that print
/// its tree; one with another status leaves the disk without a call.
pub(crate) fn play(alloc: Global, rows: &[Row]) -> Result<(), Fail> {
    for row in rows {
        play_row(alloc, row)?;
    }
    Ok(())
}
