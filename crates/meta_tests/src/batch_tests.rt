//! What no clause says of unsealed updates and the queue of batches: that calls come through with ample memory, and what the
//! clauses mean at examples.
ghost use Rattle.std.specs.Prelude.{◌<◌};
ghost use Rattle.stream_txn.specs.Kept.{IsOpRoomKept};

use ccfs_base::{Rec, Recs};
use file_bodies::{BodyOp, BodyOps, Sealed};
use std::alloc::Global;
use std::process::Abort;
use std::test::Fail;
use stream_txn::Txns;

/// Files that are dropped, in their order.
type Drops = &'static [u32];

/// A batch: its stream, its number, its weight, how many records it has, and the files that it drops.
type Batch = (u8, u64, u32, usize, Drops);

/// What is done with the updates and batches, or seen of them. A stream comes first, where there is one.
#[derive(Debug, Drop)]
enum Step {
    /// Room is made for an update's operations, and it is added: its weight, the blocks and the rows that it gave up, and the
    /// files that it drops.
    Added(u8, u32, (u32, u32), Drops),
    /// A place is made for the next batch.
    Reserved(u8),
    /// The stream is sealed, which is open and has its place, with so many records.
    Sealed(u8, u64),
    /// Room is made for the operations of an update that weighs 20, the stream is sealed, and the update is added.
    AddedBehindSeal(u8, Drops),
    /// What a stream's updates weigh.
    Weight(u8, u32),
    /// The blocks that were given up without those of a stream.
    Blocks(Option<u8>, u32),
    /// The rows that were given up without those of a stream.
    Rows(Option<u8>, u32),
    /// Whether a stream has an update.
    IsOpen(u8, bool),
    /// Whether a stream has a place.
    IsReserved(u8, bool),
    /// The number of the last batch.
    Seals(u64),
    /// The batches, which are handed out.
    Taken(&'static [Batch]),
}

/// The operations that drop these files.
fn drops_of(alloc: Global, inodes: &[u32]) -> Result<BodyOps, Fail> {
    let mut ops = BodyOps::new(alloc);
    for inode in inodes {
        ops.push(BodyOp::Drop { inode: *inode })?;
    }
    Ok(ops)
}

/// So many records, each a raise.
fn raises(alloc: Global, count: u64) -> Result<Recs, Fail> {
    let mut recs = Recs::new(alloc);
    for _ in 0..count {
        recs.push(Rec::Add { off: 16, by: 1 })?;
    }
    Ok(recs)
}

/// Whether the operations are just the drops of these files, in this order.
fn are_drops(ops: &BodyOps, inodes: &[u32]) -> bool {
    ops.all().len() == inodes.len()
        && ops.all().iter().zip(inodes).all(|(op, inode)| match op {
            BodyOp::Drop { inode: dropped } => *dropped == *inode,
            BodyOp::Put { .. } | BodyOp::Grow { .. } | BodyOp::Shrink { .. } => false,
        })
}

/// Whether the batch is the wanted one.
fn is_batch(batch: &Sealed, want: &Batch) -> bool {
    let (stream, number, weight, recs, drops) = *want;
    batch.stream == stream
        && batch.number == number
        && batch.weight == weight
        && batch.recs.all().len() == recs
        && are_drops(&batch.ops, drops)
}

/// Whether the batches are these.
fn are_batches(batches: &[Sealed], wanted: &[Batch]) -> bool {
    batches.len() == wanted.len()
        && batches
            .iter()
            .zip(wanted)
            .all(|(batch, want)| is_batch(batch, want))
}

/// Adds an update behind making room for its operations. False where the sums have no room for it.
fn add(
    txns: &mut Txns,
    stream: u8,
    weight: u32,
    gave: (u32, u32),
    ops: BodyOps,
) -> Result<bool, Fail>
    requires { stream < 64 }
{
    let (gave_blocks, gave_rows) = gave;
    let weight_left = u32::MAX - txns.weight(stream);
    let blocks_left = u32::MAX - txns.gave_blocks(None);
    let rows_left = u32::MAX - txns.gave_rows(None);
    if weight <= weight_left && gave_blocks <= blocks_left && gave_rows <= rows_left {
        txns.reserve_ops(stream, ops.all().len())?;
        txns.add(stream, weight, gave_blocks, gave_rows, ops);
        return Ok(true);
    }
    Ok(false)
}

/// Seals a stream. False where nothing is unsealed there or its place is not reserved.
fn seal(txns: &mut Txns, stream: u8, recs: Recs) -> bool
    requires { stream < 64 }
    ensures room { IsOpRoomKept txns.old txns.new }
{
    if txns.is_open(stream) && txns.is_reserved(stream) {
        txns.seal(stream, recs);
        return true;
    }
    false
}

/// Makes room for the operations of an update, seals the stream, and adds the update. False where the sums have no room for it.
fn add_behind_a_seal(txns: &mut Txns, alloc: Global, stream: u8, ops: BodyOps) -> Result<bool, Fail>
    requires { stream < 64 }
{
    txns.reserve_ops(stream, ops.all().len())?;
    txns.reserve(stream)?;
    let sealed = seal(txns, stream, Recs::new(alloc));
    if txns.weight(stream) == 0 && txns.gave_blocks(None) == 0 && txns.gave_rows(None) == 0 {
        txns.add(stream, 20, 0, 0, ops);
        return Ok(sealed);
    }
    Ok(false)
}

/// Whether so many blocks were given up without those of the stream `but`.
fn gave_blocks(txns: &Txns, but: Option<u8>, want: u32) -> bool {
    match but {
        Some(stream) => stream < 64 && txns.gave_blocks(Some(stream)) == want,
        None => txns.gave_blocks(None) == want,
    }
}

/// Whether so many rows were given up without those of the stream `but`.
fn gave_rows(txns: &Txns, but: Option<u8>, want: u32) -> bool {
    match but {
        Some(stream) => stream < 64 && txns.gave_rows(Some(stream)) == want,
        None => txns.gave_rows(None) == want,
    }
}

/// Takes a step, and tells whether it goes as it says.
fn goes(alloc: Global, txns: &mut Txns, step: &Step) -> Result<bool, Fail> {
    match *step {
        Step::Added(stream, weight, gave, drops) if stream < 64 => {
            add(txns, stream, weight, gave, drops_of(alloc, drops)?)
        }
        Step::Reserved(stream) if stream < 64 => {
            txns.reserve(stream)?;
            Ok(true)
        }
        Step::Sealed(stream, count) if stream < 64 => Ok(seal(txns, stream, raises(alloc, count)?)),
        Step::AddedBehindSeal(stream, drops) if stream < 64 => {
            add_behind_a_seal(txns, alloc, stream, drops_of(alloc, drops)?)
        }
        Step::Weight(stream, want) => Ok(stream < 64 && txns.weight(stream) == want),
        Step::Blocks(but, want) => Ok(gave_blocks(txns, but, want)),
        Step::Rows(but, want) => Ok(gave_rows(txns, but, want)),
        Step::IsOpen(stream, want) => Ok(stream < 64 && txns.is_open(stream) == want),
        Step::IsReserved(stream, want) => Ok(stream < 64 && txns.is_reserved(stream) == want),
        Step::Seals(want) => Ok(txns.seals() == want),
        Step::Taken(wanted) => Ok(are_batches(&txns.take_sealed(), wanted)),
        _ => Ok(false),
    }
}

/// Takes steps.
fn take(rt: &impl Abort, alloc: Global, txns: &mut Txns, steps: &[Step]) -> Result<(), Fail> {
    for step in steps {
        assert!(rt; goes(alloc, txns, step)?, "at {step:?}");
    }
    Ok(())
}

/// Takes steps from no updates and no batches on.
fn run(rt: &impl Abort, alloc: Global, start: &[Step], steps: &[Step]) -> Result<(), Fail> {
    let mut txns = Txns::new(alloc);
    take(rt, alloc, &mut txns, start)?;
    take(rt, alloc, &mut txns, steps)
}

/// Nothing is there at first.
const FRESH: [Step; 8] = [
    Step::Weight(0, 0),
    Step::Weight(63, 0),
    Step::Blocks(None, 0),
    Step::Rows(Some(7), 0),
    Step::IsOpen(7, false),
    Step::IsReserved(7, false),
    Step::Seals(0),
    Step::Taken(&[]),
];

/// Three updates of two streams.
const THREE: [Step; 3] = [
    Step::Added(1, 10, (2, 1), &[5]),
    Step::Added(2, 20, (4, 0), &[6]),
    Step::Added(1, 30, (8, 1), &[7]),
];

/// Sums are by streams and over all.
const SUMS: [Step; 12] = [
    Step::Added(3, 0, (0, 0), &[]),
    Step::Weight(1, 40),
    Step::Weight(2, 20),
    Step::Weight(3, 0),
    Step::Blocks(None, 14),
    Step::Blocks(Some(1), 4),
    Step::Blocks(Some(2), 10),
    Step::Rows(None, 2),
    Step::Rows(Some(1), 0),
    Step::Rows(Some(2), 2),
    Step::IsOpen(3, true),
    Step::IsOpen(0, false),
];

/// A batch carries its stream's updates.
const CARRIED: [Step; 9] = [
    Step::Reserved(1),
    Step::Sealed(1, 1),
    Step::Weight(1, 0),
    Step::Weight(2, 20),
    Step::Blocks(None, 4),
    Step::Rows(None, 0),
    Step::IsOpen(2, true),
    Step::IsOpen(1, false),
    Step::Taken(&[(1, 1, 40, 1, &[5, 7])]),
];

/// Numbers go on across streams and hand outs.
const NUMBERED: [Step; 13] = [
    Step::Added(0, 7, (0, 0), &[]),
    Step::Reserved(0),
    Step::Added(1, 7, (0, 0), &[]),
    Step::Reserved(1),
    Step::Added(2, 7, (0, 0), &[]),
    Step::Reserved(2),
    Step::Sealed(2, 0),
    Step::Sealed(0, 0),
    Step::Taken(&[(2, 1, 7, 0, &[]), (0, 2, 7, 0, &[])]),
    Step::Sealed(1, 0),
    Step::Seals(3),
    Step::Taken(&[(1, 3, 7, 0, &[])]),
    Step::Taken(&[]),
];

/// Room for operations stands over a seal.
const OVER_A_SEAL: [Step; 6] = [
    Step::Added(1, 10, (2, 1), &[5]),
    Step::AddedBehindSeal(1, &[6, 7]),
    Step::Added(1, 30, (0, 0), &[8]),
    Step::Reserved(1),
    Step::Sealed(1, 0),
    Step::Taken(&[(1, 1, 10, 0, &[5]), (1, 2, 50, 0, &[6, 7, 8])]),
];

#[test]
fn batches_go_as_the_steps_say(rt: HostRuntime) -> Result<(), Fail> {
    for (start, steps) in [
        ([].as_slice(), FRESH.as_slice()),
        (THREE.as_slice(), SUMS.as_slice()),
        (THREE.as_slice(), CARRIED.as_slice()),
        ([].as_slice(), NUMBERED.as_slice()),
        ([].as_slice(), OVER_A_SEAL.as_slice()),
    ] {
        run(&rt, rt.alloc(), start, steps)?;
    }
    Ok(())
}

#[test]
fn places_stand_when_batches_are_handed_out(rt: HostRuntime) -> Result<(), Fail> {
    let alloc = rt.alloc();
    let mut txns = Txns::new(alloc);
    for stream in 0..64 {
        txns.reserve(stream)?;
        assert!(rt; add(&mut txns, stream, 1, (0, 0), BodyOps::new(alloc))?);
    }
    for stream in 0..64 {
        assert!(rt; seal(&mut txns, stream, Recs::new(alloc)));
        if stream == 20 {
            assert_eq!(rt; txns.take_sealed().len(), 21);
        }
    }
    assert_eq!(rt; txns.take_sealed().len(), 43);
    assert_eq!(rt; txns.seals(), 64);
    Ok(())
}
