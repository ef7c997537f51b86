//! Ranges put on the bytes of a volume.
ghost use Rattle.std.specs.Prelude.{◌≡◌, ◌+◌, ◌≤◌, length, take};
ghost use Rattle.std.specs.List.{All};
ghost use Rattle.disk_model.specs.Bytes.{patched};
ghost use Rattle.gate_journal.specs.Batches.{Stands};
ghost use Rattle.atomic_volume.specs.Opening.{put_on};

use gate_journal::Range;

/// Puts one range on the volume.
fn put_range(volume: &mut [u8], range: &Range)
    requires { Stands (length volume.old) range.now }
    ensures put { volume.new ≡ patched volume.old range.now.off range.now.bytes }
    ensures size { length volume.new ≡ length volume.old }
{
    let from = range.off as usize;
    let bytes = range.bytes.all();
    volume[from..from + bytes.len()].copy_from_slice(bytes);
}

/// Puts ranges on the volume, one after the other.
pub fn put_ranges(volume: &mut [u8], ranges: &[Range])
    requires { All (Stands (length volume.old)) ranges.now }
    ensures put { volume.new ≡ put_on volume.old ranges.now }
    ensures size { length volume.new ≡ length volume.old }
{
    for range in ranges {
        put_range(volume, range);
    }
}
