//! Places in bytes: what is put at one, and laws, each the contract of a function that changes nothing.
ghost use Rattle.std.specs.Prelude.{◌≡◌, ◌+◌, ◌≤◌, length};
ghost use Rattle.ccfs_base.specs.Places.{WrittenIsRead, OthersStay, LengthStays, put};

/// Puts bytes at a place, over what stands there.
pub fn superimpose(base: &mut [u8], off: usize, bytes: &[u8])
    requires { off + length bytes.now ≤ length base.old }
    ensures { base.new ≡ put base.old off bytes.now }
{
    base[off..off + bytes.len()].copy_from_slice(bytes);
}

/// What is written at a place of bytes is read there, and the number of bytes stays.
#[tactic(auto, using(crate::proofs::AtPlaces::written_is_read, crate::proofs::AtPlaces::length_stays))]
pub fn written_is_read()
    ensures read { WrittenIsRead }
    ensures length { LengthStays }
{}

/// A write leaves what stands at each place apart from its own.
#[tactic(auto, using(crate::proofs::AtPlaces::others_stay))]
pub fn others_stay()
    ensures { OthersStay }
{}
