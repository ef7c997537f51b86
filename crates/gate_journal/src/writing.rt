//! Batches written as bytes.
ghost use Rattle.std.specs.Prelude.{◌≡◌, ◌<◌, ◌^◌, ◌++◌, length, vec_len, IfOk, OnOk};
ghost use Rattle.byteorder.specs.Endian.{little_bytes};
ghost use Rattle.gate_journal.specs.Batches.{record_bytes, records_bytes, batch_bytes};

use super::batches::{Batch, Range};
use byteorder::{ByteOrder, LittleEndian};
use ccfs_base::{Bytes, NoMemory};
use std::alloc::Global;

/// Puts a number last, in 4 bytes.
fn put_u32(out: &mut Bytes, number: u32) -> Result<(), NoMemory>
    ensures { OnOk result (out.new ≡ out.old ++ little_bytes 4 number) }
{
    let mut field = [0; 4];
    LittleEndian::write_u32(&mut field, number);
    out.append(&field)
}

/// Puts a number last, in 8 bytes.
fn put_u64(out: &mut Bytes, number: u64) -> Result<(), NoMemory>
    ensures { OnOk result (out.new ≡ out.old ++ little_bytes 8 number) }
{
    let mut field = [0; 8];
    LittleEndian::write_u64(&mut field, number);
    out.append(&field)
}

/// Puts a record last.
fn put_record(out: &mut Bytes, range: &Range) -> Result<(), NoMemory>
    requires { length range.now.bytes < 2 ^ 32 }
    ensures { OnOk result (out.new ≡ out.old ++ record_bytes range.now) }
{
    put_u64(out, range.off)?;
    put_u32(out, range.bytes.len() as u32)?;
    out.append(range.bytes.all())
}

/// The records of ranges, one behind the other.
fn write_records(alloc: Global, ranges: &[Range]) -> Result<Bytes, NoMemory>
    requires { length (records_bytes ranges.now) < 2 ^ 32 }
    ensures { IfOk result (λ bytes. bytes ≡ records_bytes ranges.now) }
{
    let mut out = Bytes::new(alloc);
    for range in ranges {
        put_record(&mut out, range)?;
    }
    Ok(out)
}

/// A batch as the bytes that stand in the record area: a header of 16 bytes and the records.
///
/// Answers `NoMemory` where there is no memory for its bytes, twice.
pub fn write_batch(alloc: Global, batch: &Batch) -> Result<Bytes, NoMemory>
    requires { length (records_bytes batch.now.ranges) < 2 ^ 32 }
    ensures { IfOk result (λ bytes. bytes ≡ batch_bytes batch.now) }
{
    let records = write_records(alloc, batch.ranges.all())?;
    let mut out = Bytes::new(alloc);
    put_u64(&mut out, batch.number)?;
    put_u32(&mut out, records.len() as u32)?;
    put_u32(&mut out, batch.ranges.len() as u32)?;
    out.append(records.all())?;
    Ok(out)
}
