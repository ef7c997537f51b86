//! What no clause says: the ranges of batches, written out by hand. The volume has 512 blocks and 32 inodes, so that its metadata are
//! the first 24,576 bytes. The counter at byte 16 is 255, and all other bytes are 0.
ghost use Rattle.std.specs.Prelude.{IfOk};
ghost use Rattle.ccfs_base.specs.Records.{AreInside};

use batch_ranges::Metadata;
use batch_ranges::laws::{numbers_are_beside, ranges_put_records};
use block_layout::Geometry;
use ccfs_base::{Bytes, Rec, Recs};
use gate_journal::Batch;
use std::alloc::Global;
use std::process::Abort;
use std::test::Fail;

/// Where a range begins, and its bytes.
type Piece = (u64, &'static [u8]);

/// What a batch of one range, one add and one bit leaves, and its number 258.
const ONE_OF_EACH: [Piece; 4] = [
    (12288, &[7, 8, 9]),
    (16, &[0, 1, 0, 0, 0, 0, 0, 0]),
    (8192, &[8]),
    (0, &[2, 1, 0, 0, 0, 0, 0, 0]),
];

/// What a batch of two bits of one byte leaves, and its number 259.
const TWO_BITS: [Piece; 3] = [(8192, &[24]), (8192, &[16]), (0, &[3, 1, 0, 0, 0, 0, 0, 0])];

/// Which records a batch has.
#[derive(Clone, Copy, Debug, Drop)]
enum Records {
    /// One record of each kind.
    OneOfEach,
    /// A bit of a byte is set, and then another one cleared.
    TwoBits,
    /// No records.
    None,
}

/// A batch: its number, its records, the pieces that it leaves, how many bytes it takes, and the first bytes of the metadata with it.
type Row = (u64, Records, &'static [Piece], u64, [u8; 2]);

/// A batch has what its records leave, and then its number. The next one is over the metadata with the first.
const ONE_AFTER_ANOTHER: [Row; 2] = [
    (
        258,
        Records::OneOfEach,
        &ONE_OF_EACH,
        36 + (12 + 3) + 20 + 13,
        [2, 1],
    ),
    (259, Records::TwoBits, &TWO_BITS, 36 + 13 + 13, [3, 1]),
];

/// A batch of no records has its number alone.
const NUMBER_ALONE: [Row; 1] = [(
    258,
    Records::None,
    &[(0, &[2, 1, 0, 0, 0, 0, 0, 0])],
    36,
    [2, 1],
)];

/// The metadata of the volume, and nothing where its bytes aren't whole.
fn metadata(alloc: Global) -> Result<Option<Metadata>, Fail> {
    let geometry = Geometry::of(512, 32)?;
    let mut volume = vec![in alloc; 0; geometry.volume_bytes() as usize]?;
    if volume.len() as u64 != geometry.volume_bytes() || volume.len() < 17 {
        return Ok(None);
    }
    volume[16] = 255;
    Ok(Some(Metadata::of(alloc, &geometry, &volume)?))
}

/// One record of each kind.
fn one_of_each(alloc: Global) -> Result<Recs, Fail>
    ensures { IfOk result (AreInside 24576) }
{
    let mut recs = Recs::new(alloc);
    recs.push(Rec::Range {
        off: 12288,
        bytes: Bytes::of(alloc, &[7, 8, 9])?,
    })?;
    recs.push(Rec::Add { off: 16, by: 1 })?;
    recs.push(Rec::Bit {
        off: 8192,
        bit: 3,
        on: true,
    })?;
    Ok(recs)
}

/// A bit of a byte is set, and then another one cleared.
fn two_bits(alloc: Global) -> Result<Recs, Fail>
    ensures { IfOk result (AreInside 24576) }
{
    let mut recs = Recs::new(alloc);
    recs.push(Rec::Bit {
        off: 8192,
        bit: 4,
        on: true,
    })?;
    recs.push(Rec::Bit {
        off: 8192,
        bit: 3,
        on: false,
    })?;
    Ok(recs)
}

/// The records of a row.
fn recs_of(alloc: Global, records: Records) -> Result<Recs, Fail>
    ensures { IfOk result (AreInside 24576) }
{
    match records {
        Records::OneOfEach => one_of_each(alloc),
        Records::TwoBits => two_bits(alloc),
        Records::None => Ok(Recs::new(alloc)),
    }
}

/// Whether the ranges of a batch are these, in this order.
fn has_pieces(batch: &Batch, pieces: &[Piece]) -> bool {
    let ranges = batch.ranges.all();
    if ranges.len() != pieces.len() {
        return false;
    }
    for (range, (off, bytes)) in ranges.iter().zip(pieces.iter()) {
        if range.off != *off || range.bytes.all() != *bytes {
            return false;
        }
    }
    true
}

/// Makes batches, one after another, over the metadata of the volume.
fn run(rt: &impl Abort, alloc: Global, rows: &[Row]) -> Result<(), Fail> {
    let Some(mut metadata) = metadata(alloc)? else {
        return Err("the volume isn't whole".into());
    };
    for (number, records, pieces, len, first) in rows {
        assert!(rt; metadata.bytes().len() == 24576);
        let batch = metadata.batch(alloc, *number, &recs_of(alloc, *records)?)?;
        assert!(rt; has_pieces(&batch, pieces), "{records:?}");
        assert_eq!(rt; batch.encoded_len(), *len, "{records:?}");
        assert!(rt; metadata.bytes().len() == 24576);
        assert_eq!(rt; &metadata.bytes()[..2], first.as_slice(), "{records:?}");
    }
    Ok(())
}

#[test]
fn batches_have_what_their_records_leave_and_then_their_numbers(
    rt: HostRuntime,
) -> Result<(), Fail> {
    run(&rt, rt.alloc(), &ONE_AFTER_ANOTHER)?;
    run(&rt, rt.alloc(), &NUMBER_ALONE)
}

#[test]
fn the_laws_hold(_rt: HostRuntime) {
    ranges_put_records();
    numbers_are_beside();
}
