//! The copy of the area as it stands, and records put on bytes.
ghost use Rattle.std.specs.Prelude.{◌≡◌, ◌≤◌, ◌+◌, [], true, length, is_some, None, slice_index_or, slice_set, ◌<◌, IsOk, OnOk, OnErr};
ghost use Rattle.ccfs_base.specs.declared.records.Rec.TheVariants as recs;
ghost use Rattle.ccfs_base.specs.Places.{IsInside};
ghost use Rattle.ccfs_base.specs.Records.{acts_at, recorded, all_recorded, AreInside};
ghost use Rattle.shared_meta.specs.Held.{stood, IsCopy};

use ccfs_base::{NoMemory, Rec, superimpose};
use delta_log::apply_rec;
use std::alloc::Global;
use std::mem;

/// Makes the copy of the base, where there is none. Without memory all is as before.
pub fn make_copy(alloc: Global, copy: &mut Option<Vec<u8>>, base: &[u8]) -> Result<(), NoMemory>
    ensures made { is_some copy.old ≡ true → IsOk result }
    ensures ok { OnOk result (IsCopy copy.new (stood copy.old base.now)) }
    ensures err { OnErr result (copy.new ≡ copy.old) }
{
    if copy.is_none() {
        *copy = Some(Vec::from_slice(alloc, base)?);
    }
    Ok(())
}

/// Puts bytes at a place of the copy.
pub fn put_bytes(copy: &mut Option<Vec<u8>>, off: u64, bytes: &[u8])
    requires made { is_some copy.old ≡ true }
    requires inside { off + length bytes.now ≤ length (stood copy.old []) }
    ensures { IsCopy copy.new (recorded (stood copy.old []) (recs.Range off bytes.now)) }
{
    if let Some(area) = copy {
        superimpose(area, off as usize, bytes);
    }
}

/// Does to the copy what a record says.
pub fn put_rec(copy: &mut Option<Vec<u8>>, rec: &Rec)
    requires made { is_some copy.old ≡ true }
    requires inside { IsInside (length (stood copy.old [])) (acts_at rec.now) }
    ensures { IsCopy copy.new (recorded (stood copy.old []) rec.now) }
{
    if let Some(area) = copy {
        apply_rec(area, rec);
    }
}

/// Does to the bytes what records say, in their order.
pub fn apply_all(bytes: &mut [u8], recs: &[Rec])
    requires { AreInside (length bytes.old) recs.now }
    ensures { bytes.new ≡ all_recorded bytes.old recs.now }
{
    for rec in recs {
        apply_rec(bytes, rec);
    }
}

/// Hands out the place of a stream, and leaves it none.
pub fn take_place(places: &mut [Option<Vec<Rec>>], stream: u8) -> Option<Vec<Rec>>
    requires { stream < length places.old }
    ensures taken { result ≡ slice_index_or places.old stream None }
    ensures left { places.new ≡ slice_set places.old stream None }
{
    mem::replace(&mut places[usize::from(stream)], None)
}
