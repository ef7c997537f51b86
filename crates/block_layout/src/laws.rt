//! What holds of superblocks: each law is the contract of a function that changes nothing.
ghost use Rattle.std.specs.Prelude.{◌≡◌, None};
ghost use Rattle.block_layout.specs.Super.{super_bytes, blocks_named, inodes_named, first_wrong};

use super::geometry::Geometry;

/// The superblock of a geometry has no wrong field, and names the geometry's blocks and inodes.
pub fn written_is_read(geometry: &Geometry)
    ensures right { first_wrong (super_bytes geometry.now.blocks geometry.now.inodes) ≡ None }
    ensures blocks { blocks_named (super_bytes geometry.now.blocks geometry.now.inodes) ≡ geometry.now.blocks }
    ensures inodes { inodes_named (super_bytes geometry.now.blocks geometry.now.inodes) ≡ geometry.now.inodes }
{}

/// Bytes of no wrong field are the superblock of the blocks and inodes that they name.
pub fn read_is_written(bytes: &[u8; 36])
    requires { first_wrong bytes.now ≡ None }
    ensures { bytes.now ≡ super_bytes (blocks_named bytes.now) (inodes_named bytes.now) }
{
    // No step, but with a call the proof knows that each of them is a byte.
    let _ = bytes.as_slice();
}

/// A geometry is known by its blocks and inodes.
pub fn sizes_tell_the_geometry(one: &Geometry, other: &Geometry)
    requires blocks { one.now.blocks ≡ other.now.blocks }
    requires inodes { one.now.inodes ≡ other.now.inodes }
    ensures { one.now ≡ other.now }
{}
