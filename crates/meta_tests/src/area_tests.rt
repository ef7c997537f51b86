//! The metadata area at examples worked by hand: what streams log is put on the area, and handed out as each logged it.
ghost use Rattle.std.specs.Prelude.{◌<◌};

use ccfs_base::{Bytes, Rec};
use shared_meta::SharedMeta;
use std::alloc::Global;
use std::process::Abort;
use std::test::Fail;

/// Some bytes.
type Text = &'static [u8];

/// A record that a seal hands out. A place comes first.
#[derive(Debug, Drop)]
enum Want {
    /// These bytes are put.
    Range(u64, Text),
    /// The counter is raised by so much.
    Raise(u64, u64),
    /// The bit is set.
    Set(u64, u8),
}

/// What is done with the area, or seen of it. A stream comes first, and then a place.
#[derive(Debug, Drop)]
enum Step {
    /// The area as it stands.
    Now(Text),
    /// Bytes may be put, and are.
    Put(u8, u64, Text),
    /// A counter may be raised, and is.
    Add(u8, u64, i64),
    /// A bit may be set or cleared, and is.
    Flip(u8, u64, u8, bool),
    /// Whether so many bytes may be put.
    MayPut(u8, u64, u64, bool),
    /// Whether a counter may be raised.
    MayAdd(u8, u64, bool),
    /// Whether a bit may be set or cleared.
    MayFlip(u8, u64, u8, bool),
    /// The stream is sealed, and hands out these records.
    Seal(u8, &'static [Want]),
    /// Room is made for a put.
    PutRoom(u8, u64, Text),
    /// Room is made for a raise.
    AddRoom(u8, u64, i64),
    /// Room is made for a flip.
    FlipRoom(u8, u64, u8, bool),
    /// The room is emptied.
    Cleared,
    /// The room is emptied, room is made for a put, and the bytes are put.
    PutByRoom(u8, u64, Text),
    /// The room is emptied, room is made for the setting of a bit, the stream is sealed and hands out so many records, and the
    /// bit is set.
    SetBehindSeal(u8, u64, u8, usize),
}

/// Puts bytes. False where the area tells that this may not be done.
fn put(meta: &mut SharedMeta, stream: u8, off: u64, bytes: &[u8]) -> Result<bool, Fail> {
    if !meta.may_put(stream, off, bytes.len() as u64) {
        return Ok(false);
    }
    meta.put(stream, off, bytes)?;
    Ok(true)
}

/// Raises a counter. False where the area tells that this may not be done.
fn add(meta: &mut SharedMeta, stream: u8, off: u64, by: i64) -> Result<bool, Fail> {
    if !meta.may_add(stream, off) {
        return Ok(false);
    }
    meta.add(stream, off, by)?;
    Ok(true)
}

/// Sets or clears a bit. False where the area tells that this may not be done.
fn flip(meta: &mut SharedMeta, stream: u8, off: u64, bit: u8, on: bool) -> Result<bool, Fail> {
    if !meta.may_flip(stream, off, bit) {
        return Ok(false);
    }
    meta.flip(stream, off, bit, on)?;
    Ok(true)
}

/// Makes room for a put, and puts the bytes. With the room the put can't fail.
fn put_by_room(meta: &mut SharedMeta, stream: u8, off: u64, bytes: &[u8]) -> Result<bool, Fail>
    requires { stream < 64 }
{
    meta.clear_room();
    meta.put_room(stream, off, bytes)?;
    if !meta.may_put(stream, off, bytes.len() as u64) {
        return Ok(false);
    }
    meta.put(stream, off, bytes).unwrap();
    Ok(true)
}

/// Makes room for the setting of a bit, seals the stream, and sets the bit. The room stands over the seal: the flip can't fail.
fn set_behind_a_seal(
    meta: &mut SharedMeta,
    stream: u8,
    off: u64,
    bit: u8,
    handed: usize,
) -> Result<bool, Fail>
    requires { stream < 64 }
{
    meta.clear_room();
    meta.flip_room(stream, off, bit, true)?;
    meta.reserve(stream)?;
    let sealed = meta.seal(stream);
    if sealed.all().len() != handed || !meta.may_flip(stream, off, bit) {
        return Ok(false);
    }
    meta.flip(stream, off, bit, true).unwrap();
    Ok(true)
}

/// Whether a record is the wanted one.
fn is_wanted(rec: &Rec, want: &Want) -> bool {
    match (rec, want) {
        (Rec::Range { off, bytes }, Want::Range(at, new)) => *off == *at && bytes.all() == *new,
        (Rec::Add { off, by }, Want::Raise(at, more)) => *off == *at && *by == *more,
        (Rec::Bit { off, bit, on }, Want::Set(at, place)) => *off == *at && *bit == *place && *on,
        _ => false,
    }
}

/// Seals a stream behind making the place for it, and tells whether it hands out just these records, in this order.
fn hands_out(meta: &mut SharedMeta, stream: u8, wanted: &[Want]) -> Result<bool, Fail>
    requires { stream < 64 }
{
    meta.reserve(stream)?;
    let sealed = meta.seal(stream);
    let recs = sealed.all();
    Ok(
        recs.len() == wanted.len()
            && recs
                .iter()
                .zip(wanted)
                .all(|(rec, want)| is_wanted(rec, want)),
    )
}

/// Takes a step of the room or a seal, and tells whether it goes as it says.
fn goes_on(meta: &mut SharedMeta, step: &Step) -> Result<bool, Fail> {
    match *step {
        Step::Seal(stream, wanted) if stream < 64 => return hands_out(meta, stream, wanted),
        Step::PutRoom(stream, off, bytes) if stream < 64 => meta.put_room(stream, off, bytes)?,
        Step::AddRoom(stream, off, by) if stream < 64 => meta.add_room(stream, off, by)?,
        Step::FlipRoom(stream, off, bit, on) if stream < 64 => meta.flip_room(
            stream, off, bit, on,
        )?,
        Step::Cleared => meta.clear_room(),
        Step::PutByRoom(stream, off, bytes) if stream < 64 => {
            return put_by_room(meta, stream, off, bytes);
        }
        Step::SetBehindSeal(stream, off, bit, handed) if stream < 64 => {
            return set_behind_a_seal(meta, stream, off, bit, handed);
        }
        _ => return Ok(false),
    }
    Ok(true)
}

/// Takes a step, and tells whether it goes as it says.
fn goes(meta: &mut SharedMeta, step: &Step) -> Result<bool, Fail> {
    match *step {
        Step::Now(want) => Ok(meta.now() == want),
        Step::Put(stream, off, bytes) => put(meta, stream, off, bytes),
        Step::Add(stream, off, by) => add(meta, stream, off, by),
        Step::Flip(stream, off, bit, on) => flip(meta, stream, off, bit, on),
        Step::MayPut(stream, off, len, want) => Ok(meta.may_put(stream, off, len) == want),
        Step::MayAdd(stream, off, want) => Ok(meta.may_add(stream, off) == want),
        Step::MayFlip(stream, off, bit, want) => Ok(meta.may_flip(stream, off, bit) == want),
        _ => goes_on(meta, step),
    }
}

/// Takes steps.
fn take(rt: &impl Abort, meta: &mut SharedMeta, steps: &[Step]) -> Result<(), Fail> {
    for step in steps {
        assert!(rt; goes(meta, step)?, "at {step:?}");
    }
    Ok(())
}

/// Takes steps from an area with these bytes and no logs on.
fn run(
    rt: &impl Abort,
    alloc: Global,
    base: &[u8],
    start: &[Step],
    steps: &[Step],
) -> Result<(), Fail> {
    let mut meta = SharedMeta::of(Bytes::of(alloc, base)?);
    take(rt, &mut meta, start)?;
    take(rt, &mut meta, steps)
}

/// A put stands in the area.
const STANDS: [Step; 3] = [
    Step::Now(&[1, 2, 3, 4]),
    Step::Put(5, 1, &[8, 9]),
    Step::Now(&[1, 8, 9, 4]),
];

/// A lowered counter wraps.
const WRAPS: [Step; 2] = [
    Step::Add(5, 0, -1),
    Step::Now(&[255, 255, 255, 255, 255, 255, 255, 255, 7]),
];

/// Calls stay inside the area.
const INSIDE: [Step; 9] = [
    Step::MayPut(5, 7, 2, false),
    Step::MayPut(5, u64::MAX, 2, false),
    Step::MayPut(63, 8, 0, true),
    Step::MayPut(64, 0, 1, false),
    Step::MayAdd(5, 1, false),
    Step::MayFlip(5, 8, 0, false),
    Step::MayFlip(5, 7, 8, false),
    Step::Flip(5, 7, 7, true),
    Step::Now(&[0, 0, 0, 0, 0, 0, 0, 128]),
];

/// Streams 3 and 4 put bytes into one block and raise one counter.
const TWO: [Step; 5] = [
    Step::Put(3, 0, &[1, 2]),
    Step::Put(4, 2, &[7]),
    Step::Add(4, 4, 300),
    Step::Add(3, 4, 5),
    Step::Now(&[1, 2, 7, 0, 49, 1, 0, 0, 0, 0, 0, 0]),
];

/// The lower of the two streams is sealed first.
const LOWER: [Step; 8] = [
    Step::MayPut(4, 1, 1, false),
    Step::MayPut(5, 11, 1, false),
    Step::Seal(3, &[Want::Range(0, &[1, 2]), Want::Raise(4, 5)]),
    Step::Now(&[1, 2, 7, 0, 49, 1, 0, 0, 0, 0, 0, 0]),
    Step::MayPut(4, 1, 1, true),
    Step::Seal(4, &[Want::Range(2, &[7]), Want::Raise(4, 300)]),
    Step::Now(&[1, 2, 7, 0, 49, 1, 0, 0, 0, 0, 0, 0]),
    Step::MayPut(5, 0, 12, true),
];

/// The higher of the two streams is sealed first.
const HIGHER: [Step; 5] = [
    Step::Seal(4, &[Want::Range(2, &[7]), Want::Raise(4, 300)]),
    Step::Now(&[1, 2, 7, 0, 49, 1, 0, 0, 0, 0, 0, 0]),
    Step::MayPut(4, 1, 1, false),
    Step::Seal(3, &[Want::Range(0, &[1, 2]), Want::Raise(4, 5)]),
    Step::Now(&[1, 2, 7, 0, 49, 1, 0, 0, 0, 0, 0, 0]),
];

/// An add may follow a put over its counter.
const FOLLOWS: [Step; 7] = [
    Step::Put(5, 0, &[255, 0, 0, 0, 0, 0, 0, 9]),
    Step::MayAdd(6, 0, false),
    Step::Add(5, 0, 1),
    Step::Now(&[0, 1, 0, 0, 0, 0, 0, 9]),
    Step::MayPut(5, 7, 1, false),
    Step::Seal(
        5,
        &[
            Want::Range(0, &[255, 0, 0, 0, 0, 0, 0, 9]),
            Want::Raise(0, 1),
        ],
    ),
    Step::Now(&[0, 1, 0, 0, 0, 0, 0, 9]),
];

/// Eight streams flip the bits of one byte.
const EIGHT: [Step; 12] = [
    Step::Flip(0, 1, 0, true),
    Step::Flip(1, 1, 1, true),
    Step::Flip(2, 1, 2, true),
    Step::Flip(3, 1, 3, true),
    Step::Flip(4, 1, 4, false),
    Step::Flip(5, 1, 5, true),
    Step::Flip(6, 1, 6, true),
    Step::Flip(7, 1, 7, true),
    Step::Now(&[1, 239]),
    Step::MayFlip(8, 1, 3, false),
    Step::MayPut(8, 1, 1, false),
    Step::MayFlip(3, 1, 3, true),
];

/// A seal hands out what its stream logged.
const HANDED_OUT: [Step; 7] = [
    Step::Flip(5, 1, 2, true),
    Step::Put(6, 0, &[4]),
    Step::Seal(7, &[]),
    Step::Seal(6, &[Want::Range(0, &[4])]),
    Step::Seal(5, &[Want::Set(1, 2)]),
    Step::Now(&[4, 6]),
    Step::Seal(5, &[]),
];

/// Ranges are sealed before raises and flips.
const RANGES_FIRST: [Step; 5] = [
    Step::Add(1, 0, -1),
    Step::Put(1, 8, &[7, 8]),
    Step::Flip(1, 12, 3, true),
    Step::Now(&[
        255, 255, 255, 255, 255, 255, 255, 255, 7, 8, 0, 0, 8, 0, 0, 0,
    ]),
    Step::Seal(
        1,
        &[
            Want::Range(8, &[7, 8]),
            Want::Raise(0, u64::MAX),
            Want::Set(12, 3),
        ],
    ),
];

/// A room changes no byte.
const ROOM: [Step; 5] = [
    Step::PutRoom(5, 0, &[9]),
    Step::AddRoom(5, 2, 1),
    Step::FlipRoom(6, 1, 0, true),
    Step::Cleared,
    Step::Now(&[1, 2, 0, 0, 0, 0, 0, 0, 0, 0]),
];

/// A put uses its room.
const USED: [Step; 2] = [Step::PutByRoom(5, 1, &[9, 8]), Step::Now(&[1, 9, 8])];

/// A call whose room is lost takes memory.
const LOST: [Step; 4] = [
    Step::PutRoom(5, 1, &[9, 8]),
    Step::Flip(6, 0, 1, true),
    Step::Put(5, 1, &[9, 8]),
    Step::Now(&[3, 9, 8]),
];

/// A room stands over a seal.
const OVER_A_SEAL: [Step; 4] = [
    Step::Flip(5, 0, 1, true),
    Step::SetBehindSeal(5, 1, 2, 1),
    Step::Now(&[3, 6]),
    Step::Seal(5, &[Want::Set(1, 2)]),
];

#[test]
fn areas_go_as_the_steps_say(rt: HostRuntime) -> Result<(), Fail> {
    for (base, start, steps) in [
        ([1, 2, 3, 4].as_slice(), [].as_slice(), STANDS.as_slice()),
        (
            [0, 0, 0, 0, 0, 0, 0, 0, 7].as_slice(),
            [].as_slice(),
            WRAPS.as_slice(),
        ),
        ([0; 8].as_slice(), [].as_slice(), INSIDE.as_slice()),
        ([0; 12].as_slice(), TWO.as_slice(), LOWER.as_slice()),
        ([0; 12].as_slice(), TWO.as_slice(), HIGHER.as_slice()),
        ([0; 8].as_slice(), [].as_slice(), FOLLOWS.as_slice()),
        ([1, 0].as_slice(), [].as_slice(), EIGHT.as_slice()),
        ([1, 2].as_slice(), [].as_slice(), HANDED_OUT.as_slice()),
        ([0; 16].as_slice(), [].as_slice(), RANGES_FIRST.as_slice()),
        (
            [1, 2, 0, 0, 0, 0, 0, 0, 0, 0].as_slice(),
            [].as_slice(),
            ROOM.as_slice(),
        ),
        ([1, 2, 3].as_slice(), [].as_slice(), USED.as_slice()),
        ([1, 2, 3].as_slice(), [].as_slice(), LOST.as_slice()),
        ([1, 2].as_slice(), [].as_slice(), OVER_A_SEAL.as_slice()),
    ] {
        run(&rt, rt.alloc(), base, start, steps)?;
    }
    Ok(())
}
