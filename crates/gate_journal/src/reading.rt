//! Batches read from the bytes of a record area.
ghost use Rattle.std.specs.Prelude.{◌≡◌, ◌≤◌, length, Some, None, MatchOption, MatchResult, IfOk};
ghost use Rattle.std.specs.List.{All};
ghost use Rattle.gate_journal.specs.Offsets.{records_size};
ghost use Rattle.gate_journal.specs.Batches.{Stands, range_bytes, may_follow, range_at, batch_at, numbered};
ghost use Rattle.gate_journal.specs.Reading.{TellsFilled, IsPut, IsRead, WhyUnread};

use super::batches::{Range, Ranges};
use byteorder::{ByteOrder, LittleEndian};
use ccfs_base::{Bytes, NoMemory};
use std::alloc::{AllocError, Global};

/// What batches one behind the other are together.
#[derive(Debug, Drop)]
pub struct ReadBatches {
    /// Their ranges, in order.
    pub ranges: Ranges,
    /// How many bytes they take.
    pub used: u32,
    /// The number of the last one.
    pub last: Option<u64>,
}

/// Why batches aren't read.
#[derive(Clone, Copy, Debug, PartialEq, Eq, Drop)]
pub enum ReadFault {
    /// Memory was wanting.
    NoMemory,
    /// A batch breaks the format.
    Broken {
        /// The first such, counted from 0.
        batch: u32,
        /// Where it begins, in bytes from the area's start.
        place: u32,
    },
}

impl From<AllocError> for ReadFault {
    ghost use Rattle.gate_journal.specs.declared.reading.ReadFault.TheVariants.{NoMemory};

    ghost from_gives = { λ _ fault. fault ≡ NoMemory };

    fn from(_error: AllocError) -> ReadFault {
        ReadFault::NoMemory
    }
}

/// Whether a batch with this number may stand behind one with that number, or in front where there is none.
pub fn may_follow(before: Option<u64>, number: u64) -> bool
    ensures { result ≡ may_follow before number }
{
    match before {
        None => true,
        Some(before) => number == before.wrapping_add(1),
    }
}

/// The offset and the bytes of the record in front of the bytes, and what follows it. `None` where no range that stands in
/// a volume of this size is there.
fn read_range(bytes: &[u8], size: u64) -> Option<(u64, &[u8], &[u8])>
    ensures { MatchOption result (range_at size bytes.now ≡ None) (λ read. range_at size bytes.now ≡ Some (record { off = read.0; bytes = read.1.now }, read.2.now)) }
{
    if bytes.len() < 12 {
        return None;
    }
    let off = LittleEndian::read_u64(bytes);
    let len = LittleEndian::read_u32(&bytes[8..]);
    let behind = &bytes[12..];
    if len == 0 || off > size || u64::from(len) > size - off || behind.len() < len as usize {
        return None;
    }
    let (body, rest) = behind.split_at(len as usize);
    Some((off, body, rest))
}

/// Puts the ranges of so many records last, and answers whether these fill the bytes.
fn read_records(
    alloc: Global,
    bytes: &[u8],
    records: u32,
    size: u64,
    ranges: &mut Ranges,
) -> Result<bool, NoMemory>
    ensures { IfOk result (TellsFilled size records bytes.now ranges.old ranges.new) }
{
    let mut rest = bytes;
    for _ in 0..records {
        let Some((off, body, behind)) = read_range(rest, size) else {
            return Ok(false);
        };
        ranges.push(Range {
            off,
            bytes: Bytes::of(alloc, body)?,
        })?;
        rest = behind;
    }
    Ok(rest.is_empty())
}

/// The number of the batch in front of the bytes, and what follows it; its ranges are put last. `None` where that batch
/// breaks the format, or its number may not stand behind that one.
fn read_batch<'a>(
    alloc: Global,
    bytes: &'a [u8],
    before: Option<u64>,
    size: u64,
    ranges: &mut Ranges,
) -> Result<Option<(u64, &'a [u8])>, NoMemory>
    ensures { IfOk result (λ read. MatchOption read (numbered before (batch_at size bytes.now) ≡ None) (λ found. IsPut size before bytes.now ranges.old ranges.new found.0 found.1.now)) }
{
    if bytes.len() < 16 {
        return Ok(None);
    }
    let number = LittleEndian::read_u64(bytes);
    let count = LittleEndian::read_u32(&bytes[8..]) as usize;
    let records = LittleEndian::read_u32(&bytes[12..]);
    let behind = &bytes[16..];
    if behind.len() < count || !may_follow(before, number) {
        return Ok(None);
    }
    let (body, rest) = behind.split_at(count);
    if read_records(alloc, body, records, size, ranges)? {
        Ok(Some((number, rest)))
    } else {
        Ok(None)
    }
}

/// Reads so many batches from the front of a record area, over a volume of this size in bytes.
///
/// Answers `Broken` with the first that breaks the format, and `NoMemory` where there is no memory for the ranges.
pub fn read_batches(
    alloc: Global,
    area: &[u8],
    count: u32,
    size: u64,
) -> Result<ReadBatches, ReadFault>
    requires { length area.now ≤ records_size }
    ensures read { MatchResult result (IsRead size count area.now) (WhyUnread size count area.now) }
    ensures stand { IfOk result (λ read. All (Stands size) read.ranges) }
    ensures bytes { IfOk result (λ read. range_bytes read.ranges ≤ read.used) }
{
    let mut ranges = Ranges::new(alloc);
    let mut last = None;
    let mut rest = area;
    for batch in 0..count {
        let Some((number, behind)) = read_batch(alloc, rest, last, size, &mut ranges)? else {
            let place = (area.len() - rest.len()) as u32;
            return Err(ReadFault::Broken { batch, place });
        };
        last = Some(number);
        rest = behind;
    }
    let used = (area.len() - rest.len()) as u32;
    Ok(ReadBatches { ranges, used, last })
}
