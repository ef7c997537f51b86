//! The metadata of a volume, and the batches over it.
ghost use Rattle.std.specs.Prelude.{◌≡◌, ◌≤◌, ◌++◌, ℕ, ◌∷◌, [], length, IfOk, OnOk};
ghost use Rattle.std.specs.List.{All};
ghost use Rattle.ccfs_base.specs.Places.{IsInside};
ghost use Rattle.ccfs_base.specs.Records.{acts_at, recorded, all_recorded, AreInside};
ghost use Rattle.gate_journal.specs.Batches.{batch_bytes, Stands};
ghost use Rattle.image_model.specs.Reading.{IsWhole};
ghost use Rattle.image_model.specs.Volumes.{volume_of, metadata};
ghost use Rattle.batch_ranges.specs.Ranges.{off_of, size_of, range_at, left_by, ranges_by, number_record, metadata_after, batch_size, AreSome};

use block_layout::{BLOCK_SIZE, Geometry, VOLUME_START};
use byteorder::{ByteOrder, LittleEndian};
use ccfs_base::{Bytes, NoMemory, Rec, Recs};
use delta_log::apply_rec;
use gate_journal::{Batch, Range, Ranges};
use std::alloc::Global;
use std::marker::Model;

/// The blocks of a volume before its data blocks, as they are with all batches so far.
#[derive(Drop)]
pub struct Metadata {
    bytes: Vec<u8>,
}

impl Model for Metadata {
    ghost use Rattle.std.specs.Prelude.{List, ℕ};

    ghost Value = { List ℕ };

    ghost view = { λ a. a.bytes.items };
}

impl Metadata {
    /// The metadata of a volume. It is copied.
    pub fn of(alloc: Global, geometry: &Geometry, volume: &[u8]) -> Result<Metadata, NoMemory>
        requires { IsWhole geometry.now volume.now }
        ensures { IfOk result (λ all. all ≡ metadata (volume_of geometry.now volume.now)) }
    {
        let size = BLOCK_SIZE * (geometry.first_data - VOLUME_START);
        let bytes = Vec::from_slice(alloc, &volume[..size as usize])?;
        Ok(Metadata { bytes })
    }

    /// All bytes of it.
    pub fn bytes(&self) -> &[u8]
        ensures { result.now ≡ self.now }
    {
        self.bytes.as_slice()
    }

    /// The batch of records, with its number, over this metadata, which has them then. Where memory is wanting, it may have a part of
    /// them, and no batch may be made over it any more.
    pub fn batch(&mut self, alloc: Global, number: u64, records: &Recs) -> Result<Batch, NoMemory>
        requires inside { AreInside (length self.old) records.now }
        requires number { 8 ≤ length self.old }
        ensures number { IfOk result (λ batch. batch.number ≡ number) }
        ensures ranges { IfOk result (λ batch. batch.ranges ≡ ranges_by self.old records.now number) }
        ensures size { IfOk result (λ batch. length (batch_bytes batch) ≡ batch_size records.now) }
        ensures stands { AreSome records.now → IfOk result (λ batch. (size : ℕ) → length self.old ≤ size → All (Stands size) batch.ranges) }
        ensures left { OnOk result (self.new ≡ metadata_after self.old records.now number) }
    {
        let mut ranges = Ranges::new(alloc);
        self.put_all(alloc, records.all(), &mut ranges)?;
        let rec = number_record(alloc, number)?;
        self.put(alloc, &rec, &mut ranges)?;
        Ok(Batch { number, ranges })
    }

    /// Does to the metadata what records say, in their order, and puts what each leaves in its bytes last of some ranges.
    fn put_all(&mut self, alloc: Global, recs: &[Rec], ranges: &mut Ranges) -> Result<(), NoMemory>
        requires { AreInside (length self.old) recs.now }
        ensures metadata { OnOk result (self.new ≡ all_recorded self.old recs.now) }
        ensures ranges { OnOk result (ranges.new ≡ ranges.old ++ left_by self.old recs.now) }
    {
        for rec in recs {
            self.put(alloc, rec, ranges)?;
        }
        Ok(())
    }

    /// Does to the metadata what a record says, and puts what then stands in its bytes last of some ranges.
    fn put(&mut self, alloc: Global, rec: &Rec, ranges: &mut Ranges) -> Result<(), NoMemory>
        requires { IsInside (length self.old) (acts_at rec.now) }
        ensures metadata { self.new ≡ recorded self.old rec.now }
        ensures ranges { OnOk result (ranges.new ≡ ranges.old ++ range_at self.new rec.now ∷ []) }
    {
        apply_rec(self.bytes.as_mut_slice(), rec);
        let off = off_of(rec);
        let from = off as usize;
        let bytes = Bytes::of(alloc, &self.bytes[from..from + size_of(rec)])?;
        ranges.push(Range { off, bytes })
    }
}

/// The record that writes the batch number.
fn number_record(alloc: Global, number: u64) -> Result<Rec, NoMemory>
    ensures { IfOk result (λ rec. rec ≡ number_record number) }
{
    let mut spelled = [0; 8];
    LittleEndian::write_u64(&mut spelled, number);
    Ok(Rec::Range {
        off: 0,
        bytes: Bytes::of(alloc, &spelled)?,
    })
}

/// The first byte in which a record acts.
fn off_of(rec: &Rec) -> u64
    ensures { result ≡ off_of rec.now }
{
    match rec {
        Rec::Range { off, .. } => *off,
        Rec::Add { off, .. } => *off,
        Rec::Bit { off, .. } => *off,
    }
}

/// How many bytes a record acts in.
fn size_of(rec: &Rec) -> usize
    ensures { result ≡ size_of rec.now }
{
    match rec {
        Rec::Range { bytes, .. } => bytes.len(),
        Rec::Add { .. } => 8,
        Rec::Bit { .. } => 1,
    }
}
