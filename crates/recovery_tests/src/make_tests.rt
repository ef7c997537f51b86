//! What no clause of making says: that calls come through, and which bytes a made image holds.
ghost use Rattle.std.specs.Prelude.{◌≡◌, ◌*◌, ◌^◌, ◌≤◌, IfOk};
ghost use Rattle.disk_model.specs.Memory.{known_of};

use atomic_volume::look;
use block_layout::Geometry;
use disk_model::{CallKind, Disk, FailPlan, MemDisk};
use recovery::{MakeFault, make};
use std::alloc::Global;
use std::test::Fail;

/// The superblock of an image of 512 blocks and 32 inodes.
const SUPERBLOCK: [u8; 36] = [
    0x43, 0x43, 0x46, 0x53, 0x4F, 0x57, 0x4E, 0x31, 1, 0, 0, 0, 0, 2, 0, 0, 0x20, 0, 0, 0, 4, 1, 0,
    0, 7, 1, 0, 0, 9, 1, 0, 0, 10, 1, 0, 0,
];

/// The counters of a fresh volume of 512 blocks and 32 inodes: the number 0, 246 free blocks, 30 free inodes, the format 1.
const COUNTERS: [u8; 28] = [
    0, 0, 0, 0, 0, 0, 0, 0, 246, 0, 0, 0, 0, 0, 0, 0, 30, 0, 0, 0, 0, 0, 0, 0, 1, 0, 0, 0,
];

/// What stood on a disk before.
const OLD: u8 = 0xEE;

/// All bytes of a disk.
fn contents(alloc: Global, disk: &mut MemDisk) -> Result<Vec<u8>, Fail> {
    let mut bytes = vec![in alloc; 0; disk.known_size() as usize]?;
    disk.read_at(0, &mut bytes)?;
    Ok(bytes)
}

/// A disk of so many old bytes.
fn old_disk(alloc: Global, bytes: u64) -> Result<MemDisk, Fail>
    requires { bytes ≤ 64 * 2 ^ 20 }
    ensures { IfOk result (λ disk. known_of disk ≡ bytes) }
{
    let mut disk = MemDisk::new(alloc, bytes)?;
    let old = vec![in alloc; OLD; bytes as usize]?;
    disk.write_at(0, &old)?;
    Ok(disk)
}

/// The byte at a place of the metadata of a fresh volume of 512 blocks and 32 inodes.
fn table_byte(place: usize) -> u8 {
    match place {
        0..28 => COUNTERS.get(place).copied().unwrap_or(0),
        // The bits of the root and the orphan directory.
        8192 => 3,
        // Their kinds: both are directories.
        12288 | 12544 => 1,
        _ => 0,
    }
}

/// The byte at a place of the image of 512 blocks and 32 inodes that is made where `old` bytes stood.
fn made_byte(place: usize, old: u8) -> u8 {
    match place / 4096 {
        0 => SUPERBLOCK.get(place).copied().unwrap_or(0),
        1..4 => 0,
        260..266 => table_byte(place.wrapping_sub(260 * 4096)),
        _ => old,
    }
}

/// The first place of such an image where another byte stands, if there is one.
fn wrong_place(bytes: &[u8], old: u8) -> Option<usize> {
    for (place, byte) in bytes.iter().enumerate() {
        if *byte != made_byte(place, old) {
            return Some(place);
        }
    }
    None
}

/// A disk of so many old bytes, of which a write of the first failed, so that it is in doubt.
fn doubtful_disk(alloc: Global, bytes: u64) -> Result<MemDisk, Fail>
    requires least { 1 ≤ bytes }
    requires most { bytes ≤ 64 * 2 ^ 20 }
{
    let mut disk = old_disk(alloc, bytes)?;
    disk.plan(FailPlan::One {
        kind: CallKind::Write,
        number: 1,
    });
    match disk.write_at(0, &[1]) {
        Ok(()) => Err("the write is done".into()),
        Err(_) => Ok(disk),
    }
}

#[test]
fn a_made_image_is_a_superblock_and_a_fresh_volume(rt: HostRuntime) -> Result<(), Fail> {
    for (disk, old) in [
        (MemDisk::new(rt.alloc(), 0)?, 0),
        (old_disk(rt.alloc(), 512 * 4096)?, OLD),
        (old_disk(rt.alloc(), 600 * 4096)?, OLD),
        (doubtful_disk(rt.alloc(), 600 * 4096)?, OLD),
    ] {
        let mut disk = disk;
        let before = [disk.calls(), disk.written()];
        make(rt.alloc(), &mut disk, &Geometry::of(512, 32)?)?;
        assert_eq!(rt; disk.calls().wrapping_sub(before[0]), 5);
        assert_eq!(rt; disk.written().wrapping_sub(before[1]), 4096 * 10);
        let mut stable = disk.image(rt.alloc(), 0)?;
        let bytes = contents(rt.alloc(), &mut stable)?;
        assert_eq!(rt; bytes.len(), 512 * 4096);
        assert_eq!(rt; wrong_place(&bytes, old), None);
    }
    let mut disk = old_disk(rt.alloc(), 4096)?;
    make(rt.alloc(), &mut disk, &Geometry::of(600, 64)?)?;
    let looked = look(rt.alloc(), &mut disk)?;
    assert_eq!(rt; looked.last, None);
    assert_eq!(rt; [looked.geometry.blocks, looked.geometry.inodes], [600, 64]);
    assert_eq!(rt; looked.bytes.len(), 340 * 4096);
    Ok(())
}

#[test]
fn a_failing_call_is_told(rt: HostRuntime) -> Result<(), Fail> {
    for call in [1, 2, 3, 4, 5] {
        let mut disk = old_disk(rt.alloc(), 4096)?;
        disk.plan(FailPlan::One {
            kind: CallKind::Any,
            number: call,
        });
        let made = make(rt.alloc(), &mut disk, &Geometry::of(512, 32)?);
        assert_eq!(rt; made.err(), Some(MakeFault::Device));
        assert_eq!(rt; [disk.calls(), disk.faults()], [call, 1]);
    }
    Ok(())
}
