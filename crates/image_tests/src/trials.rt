//! What is done with a volume and seen of it, step by step.
ghost use Rattle.image_model.specs.Reading.{IsWhole};

use super::samples::{DEEP_SLOTS, Piece, RECORD_0};
use block_layout::Geometry;
use image_check::{BadImage, BadKind, CheckFault, Placed, check, first_bad};
use image_model::{Check, Limits, first_failure, row_at};
use std::alloc::Global;
use std::process::Abort;
use std::test::Fail;
use tree_model::{Body, Row};

/// A name or bytes.
pub(crate) type Text = &'static [u8];

/// A volume: how many inodes it has, the byte that it holds everywhere, and the pieces that are put on that.
pub(crate) type Start = (u32, u8, &'static [Piece]);

/// A serial, its inode, its directory's serial and its name, and of a directory the count of changes.
pub(crate) type Line = (u32, u32, Option<u32>, Text, Option<u64>);

/// What is done with a volume, or seen of it. The first number of a check is that of the last open batch, where one is open.
#[derive(Clone, Copy, Debug, Drop)]
pub(crate) enum Step {
    /// Bytes are put at a place.
    Put(usize, Text),
    /// Inodes 2 to 501 become directories, each of them in the one before it.
    Chain,
    /// The check that fails first by the model, under the limits of every volume.
    Model(Option<u64>, Option<(Check, u32)>),
    /// The same under the limits until files have bytes.
    Bare(Option<u64>, Option<(Check, u32)>),
    /// The check that fails first by the checker.
    Checked(Option<u64>, Option<(BadKind, u32)>),
    /// An inode, and the inode of its directory and its name, where it has a row.
    Row(u32, Option<(Option<u32>, Text)>),
    /// An inode, how many bytes its row has, a place among them, and those from there on.
    Bytes(u32, usize, usize, Text),
    /// The batch number of a volume that passes, how many rows it stands for, and what they are.
    Stands(Option<u64>, u64, usize, &'static [Line]),
}

/// Puts bytes at a place of a volume.
fn put(volume: &mut [u8], place: usize, bytes: &[u8]) {
    for k in 0..bytes.len() {
        let at = place.saturating_add(k);
        if at < volume.len() {
            volume[at] = bytes[k];
        }
    }
}

/// Puts the records and slots of 500 directories, each of them the only one in that before it.
fn put_chain(volume: &mut [u8]) {
    for inode in 2..502_u32 {
        let record = RECORD_0.saturating_add((inode as usize).saturating_mul(256));
        let slot = DEEP_SLOTS.saturating_add((inode as usize).saturating_mul(128));
        let parent = if inode == 2 { 0 } else { inode - 1 };
        let (low, high) = ((parent % 256) as u8, (parent / 256 % 256) as u8);
        put(volume, record, &[1]);
        put(volume, slot, &[low, high, 0, 0, 1, b'd']);
    }
}

/// Whether both calls of the checker tell this check with its block, or that none fails.
fn is_checked(
    alloc: Global,
    geometry: &Geometry,
    volume: &[u8],
    last: Option<u64>,
    wanted: Option<(BadKind, u32)>,
) -> Result<bool, Fail>
    requires { IsWhole geometry.now volume.now }
{
    let found = first_bad(alloc, geometry, volume, last)?;
    let fault = check(alloc, geometry, volume, last).err();
    Ok(match wanted {
        Some((kind, block)) => {
            let bad = BadImage { kind, block };
            found == Some(bad) && fault == Some(CheckFault::Bad { bad })
        }
        None => found.is_none() && fault.is_none(),
    })
}

/// Whether a row stands in this directory under this name, or there is none.
fn is_row(row: &Option<Row>, wanted: Option<(Option<u32>, Text)>) -> bool {
    match (row, wanted) {
        (Some(row), Some((parent, name))) => row.parent == parent && row.name.all() == name,
        (None, None) => true,
        _ => false,
    }
}

/// Whether a row is a file's of so many bytes, with these from this place on.
fn has_bytes(row: &Option<Row>, count: usize, place: usize, part: &[u8]) -> bool {
    match row {
        Some(
            Row {
                body: Body::File { bytes },
                ..
            },
        ) => {
            let behind = bytes.all().get(place..).unwrap_or(&[]);
            bytes.all().len() == count && behind.starts_with(part)
        }
        _ => false,
    }
}

/// Whether the body is a directory's with this count of changes, or an empty file's.
fn is_body(body: &Body, changes: Option<u64>) -> bool {
    match body {
        Body::Dir { changes: told } => changes == Some(*told),
        Body::File { bytes } => changes.is_none() && bytes.is_empty(),
    }
}

/// Whether a serial has the inode and the row of a line.
fn is_line(placed: &Placed, line: &Line) -> bool {
    let (serial, inode, parent, name, changes) = *line;
    match placed.tree.row(serial) {
        Some(row) => {
            placed.inodes.all().get(serial as usize) == Some(&inode)
                && row.parent == parent
                && row.name.all() == name
                && is_body(&row.body, changes)
        }
        None => false,
    }
}

/// Whether a volume stands for so many rows, and these among them.
fn stands_for(placed: &Placed, number: u64, count: usize, lines: &[Line]) -> Result<bool, Fail> {
    let copy = placed.inodes.copy()?;
    Ok(
        lines.iter().all(|line| is_line(placed, line))
            && placed.number == number
            && placed.tree.len() == count
            && placed.inodes.all().len() == count
            && placed.inodes.all() == copy.all()
            && placed.orphans.all().is_empty(),
    )
}

/// Whether a volume passes all checks and stands for these rows.
fn is_placed(
    alloc: Global,
    geometry: &Geometry,
    volume: &[u8],
    last: Option<u64>,
    wanted: (u64, usize, &[Line]),
) -> Result<bool, Fail>
    requires { IsWhole geometry.now volume.now }
{
    let (number, count, lines) = wanted;
    match check(alloc, geometry, volume, last) {
        Ok(placed) => stands_for(&placed, number, count, lines),
        Err(CheckFault::Bad { .. }) => Ok(false),
        Err(CheckFault::NoMemory) => Err(CheckFault::NoMemory.into()),
    }
}

/// Whether a volume is seen as the step says.
fn is_seen(alloc: Global, geometry: &Geometry, volume: &[u8], step: &Step) -> Result<bool, Fail> {
    if volume.len() as u64 != geometry.volume_bytes() {
        return Ok(false);
    }
    match *step {
        Step::Put(..) | Step::Chain => Ok(false),
        Step::Model(last, wanted) => {
            let limits = Limits::all_built();
            Ok(first_failure(alloc, &limits, last, geometry, volume)? == wanted)
        }
        Step::Bare(last, wanted) => {
            let limits = Limits::bare();
            Ok(first_failure(alloc, &limits, last, geometry, volume)? == wanted)
        }
        Step::Checked(last, wanted) => is_checked(alloc, geometry, volume, last, wanted),
        Step::Row(inode, wanted) => Ok(is_row(&row_at(alloc, geometry, volume, inode)?, wanted)),
        Step::Bytes(inode, count, place, part) => {
            let row = row_at(alloc, geometry, volume, inode)?;
            Ok(has_bytes(&row, count, place, part))
        }
        Step::Stands(last, number, count, lines) => {
            is_placed(alloc, geometry, volume, last, (number, count, lines))
        }
    }
}

/// Takes a step, and tells whether it goes as it says.
fn goes(alloc: Global, geometry: &Geometry, volume: &mut [u8], step: &Step) -> Result<bool, Fail> {
    match *step {
        Step::Put(place, bytes) => {
            put(volume, place, bytes);
            Ok(true)
        }
        Step::Chain => {
            put_chain(volume);
            Ok(true)
        }
        _ => is_seen(alloc, geometry, volume, step),
    }
}

/// Takes steps from a volume on.
pub(crate) fn run(
    rt: &impl Abort,
    alloc: Global,
    start: &Start,
    steps: &[Step],
) -> Result<(), Fail> {
    let (inodes, byte, pieces) = *start;
    let geometry = Geometry::of(512, inodes)?;
    let mut volume = vec![in alloc; byte; geometry.volume_bytes() as usize]?;
    for (place, bytes) in pieces {
        put(volume.as_mut_slice(), *place, bytes);
    }
    for step in steps {
        let well = goes(alloc, &geometry, volume.as_mut_slice(), step)?;
        assert!(rt; well, "at {step:?}");
    }
    Ok(())
}
