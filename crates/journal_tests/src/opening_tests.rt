//! What no clause of opening says of the journal: that calls come through, and what the definitions mean on images written
//! by hand, by a reading of the format that shares no code with this crate.
use super::samples::{GATES, Part, RECORDS, VOLUME, VOLUME_SIZE, batches_bytes, image_of};
use super::trials::{bad_journal, look_at, one_record, refusal, refusal_of};
use atomic_volume::VolumeFault;
use ccfs_base::Bytes;
use std::alloc::Global;
use std::process::Abort;
use std::test::Fail;

/// An image with these parts opens to a volume that begins with `front` and ends with `end`, and has this last number.
fn assert_opens(
    rt: &impl Abort,
    alloc: Global,
    parts: &[Part<'_>],
    front: &[u8],
    end: u8,
    last: Option<u64>,
) -> Result<(), Fail> {
    let mut disk = image_of(alloc, parts)?;
    assert_eq!(rt; refusal(rt, alloc, &mut disk)?, None);
    let looked = look_at(alloc, &mut disk)?;
    assert_eq!(rt; looked.bytes.len() as u64, VOLUME_SIZE);
    assert_eq!(rt; looked.bytes.all().starts_with(front), true);
    assert_eq!(rt; looked.bytes.all().last(), Some(&end));
    assert_eq!(rt; looked.last, last);
    assert_eq!(rt; [looked.geometry.blocks, looked.geometry.inodes], [512, 32]);
    Ok(())
}

#[test]
fn a_volume_is_its_area_with_the_open_batches_put_on_it(rt: HostRuntime) -> Result<(), Fail> {
    let none: [Part<'_>; 3] = [
        (RECORDS[0], &[0xA5; 64]),
        (VOLUME - 1, &[0xFF, 1, 2]),
        (VOLUME + VOLUME_SIZE - 1, &[3]),
    ];
    assert_opens(&rt, rt.alloc(), &none, &[1, 2, 0], 3, None)?;
    let records = batches_bytes(
        rt.alloc(),
        &[
            (7, &[(2, &[1, 1, 1, 1]), (3, &[2, 2])]),
            (8, &[(4, &[3, 3]), (VOLUME_SIZE - 1, &[9])]),
        ],
    )?;
    let overlapping: [Part<'_>; 3] = [
        (GATES[0], &[0xA5, 0xA5]),
        (RECORDS[0], records.all()),
        (VOLUME, &[5; 8]),
    ];
    let front = [5, 5, 1, 2, 3, 3, 5, 5, 0];
    assert_opens(&rt, rt.alloc(), &overlapping, &front, 9, Some(8))
}

/// Three batches, of which the gates of half 0 count some, and all gates and two batches of half 1. The volume has this last
/// number and begins with these bytes.
fn assert_counted(
    rt: &impl Abort,
    alloc: Global,
    gates: &[u8],
    last: Option<u64>,
    bytes: &[u8],
) -> Result<(), Fail> {
    let first: [Part<'_>; 1] = [(0, &[1])];
    let second: [Part<'_>; 1] = [(1, &[2])];
    let third: [Part<'_>; 1] = [(2, &[3])];
    let records = batches_bytes(alloc, &[(7, &first), (8, &second), (9, &third)])?;
    let others = batches_bytes(alloc, &[(8, &second), (9, &third)])?;
    let parts: [Part<'_>; 4] = [
        (GATES[0], gates),
        (GATES[1], &[0xA5; 64]),
        (RECORDS[0], records.all()),
        (RECORDS[1], others.all()),
    ];
    assert_opens(rt, alloc, &parts, bytes, 0, last)
}

/// Two batches of these numbers, both open, are refused with this.
fn assert_numbers(
    rt: &impl Abort,
    alloc: Global,
    first: u64,
    second: u64,
    refused: Option<VolumeFault>,
) -> Result<(), Fail> {
    let records = batches_bytes(alloc, &[(first, &[(2, &[1])]), (second, &[(3, &[2])])])?;
    let parts: [Part<'_>; 2] = [(GATES[0], &[0xA5, 0xA5]), (RECORDS[0], records.all())];
    assert_eq!(rt; refusal_of(rt, alloc, &parts)?, refused, "{first} {second}");
    Ok(())
}

#[test]
fn batches_count_up_to_a_closed_gate_with_numbers_in_a_row(rt: HostRuntime) -> Result<(), Fail> {
    for (gates, last, bytes) in [
        ([0, 0xA5, 0xA5], None, [0, 0, 0]),
        ([0xA5, 0xA4, 0xA5], Some(7), [1, 0, 0]),
        ([0xA5, 0xA5, 0], Some(8), [1, 2, 0]),
        ([0xA5, 0xA5, 0xA5], Some(9), [1, 2, 3]),
    ] {
        assert_counted(&rt, rt.alloc(), &gates, last, &bytes)?;
    }
    for (first, second, refused) in [
        (u64::MAX, 0, None),
        (7, 8, None),
        (u64::MAX, 1, bad_journal(1, 4)),
        (7, 7, bad_journal(1, 4)),
        (7, 9, bad_journal(1, 4)),
        (7, 6, bad_journal(1, 4)),
    ] {
        assert_numbers(&rt, rt.alloc(), first, second, refused)?;
    }
    Ok(())
}

/// An open batch of these bytes is refused with this.
fn assert_batch(
    rt: &impl Abort,
    alloc: Global,
    batch: &[u8],
    refused: Option<VolumeFault>,
    case: [u8; 4],
) -> Result<(), Fail> {
    let parts: [Part<'_>; 2] = [(GATES[0], &[0xA5]), (RECORDS[0], batch)];
    assert_eq!(rt; refusal_of(rt, alloc, &parts)?, refused, "{case:?}");
    Ok(())
}

/// A batch with one range of so many bytes.
fn long_batch(alloc: Global, len: usize) -> Result<Bytes, Fail> {
    let bytes = vec![in alloc; 6; len]?;
    let ranges: [Part<'_>; 1] = [(1, &bytes)];
    Ok(batches_bytes(alloc, &[(7, &ranges)])?)
}

/// An image with these gates and a batch of so many bytes is refused with this.
fn assert_long(
    rt: &impl Abort,
    alloc: Global,
    gates: &[u8],
    len: usize,
    refused: Option<VolumeFault>,
) -> Result<(), Fail> {
    let records = long_batch(alloc, len)?;
    let parts: [Part<'_>; 2] = [(GATES[0], gates), (RECORDS[0], records.all())];
    assert_eq!(rt; refusal_of(rt, alloc, &parts)?, refused, "{len}");
    Ok(())
}

#[test]
fn each_way_to_break_the_format_is_refused_with_its_block(rt: HostRuntime) -> Result<(), Fail> {
    let end = VOLUME_SIZE.to_le_bytes();
    let last_byte = (VOLUME_SIZE - 1).to_le_bytes();
    let zero = [0; 8];
    for (count, records, off, len, refused) in [
        (14, 1, zero, 2, None),
        (13, 1, last_byte, 1, None),
        (0, 0, zero, 2, None),
        (13, 1, zero, 2, bad_journal(0, 4)),
        (15, 1, zero, 2, bad_journal(0, 4)),
        (14, 0, zero, 2, bad_journal(0, 4)),
        (14, 2, zero, 2, bad_journal(0, 4)),
        (26, 2, zero, 2, bad_journal(0, 4)),
        (11, 1, zero, 2, bad_journal(0, 4)),
        (0, 1, zero, 2, bad_journal(0, 4)),
        (12, 1, zero, 0, bad_journal(0, 4)),
        (13, 1, end, 1, bad_journal(0, 4)),
        (14, 1, last_byte, 2, bad_journal(0, 4)),
        (13, 1, [0xFF; 8], 1, bad_journal(0, 4)),
    ] {
        let batch = one_record(count, records, off, len, [3, 4]);
        let case = [count, records, off[0], len];
        assert_batch(&rt, rt.alloc(), &batch, refused, case)?;
    }
    for (len, block) in [
        (4067, 4),
        (4068, 5),
        (5000, 5),
        (524_250, 131),
        (524_259, 131),
        (524_260, 132),
    ] {
        assert_long(&rt, rt.alloc(), &[0xA5], len, None)?;
        assert_long(&rt, rt.alloc(), &[0xA5, 0xA5], len, bad_journal(1, block))?;
    }
    assert_long(&rt, rt.alloc(), &[0xA5], 524_261, bad_journal(0, 4))
}
