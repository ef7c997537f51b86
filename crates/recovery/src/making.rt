//! Images that are made.
ghost use Rattle.std.specs.Prelude.{◌≡◌, ◌+◌, ◌-◌, ◌*◌, ◌^◌, ◌≤◌, false, vec_len, length, replicate, IfErr, OnOk, IfOk, IsErrOf};
ghost use Rattle.fault_counts.specs.Counts.{Rose, HasCause, RisesBy};
ghost use Rattle.disk_model.specs.Bytes.{patched};
ghost use Rattle.disk_model.specs.Moments.{Only};
ghost use Rattle.block_layout.specs.Sizes.{block_size, volume_start};
ghost use Rattle.image_model.specs.Fresh.{fresh_counters};
ghost use Rattle.recovery.specs.Fresh.{IsFresh, front_bytes, AreTables};
ghost use Rattle.recovery.specs.declared.fault.MakeFault.TheVariants.{Device, NoMemory};

use super::fault::MakeFault;
use block_layout::{BLOCK_SIZE, Geometry, VOLUME_START, encode_super, written_is_read};
use byteorder::{ByteOrder, LittleEndian};
use disk_model::{Disk, DiskFailed};
use inode_table::{Attr, Kind, encode_attr, record_offset};
use std::alloc::{AllocError, Global};

/// The blocks before the record areas: the superblock, the master byte and the gates of both halves.
const FRONT_BLOCKS: u32 = 4;

/// The format of volumes, as their counter blocks name it.
const FORMAT: u32 = 1;

/// Where the bits of inodes begin, in bytes from the volume's start.
const INODE_BITS: usize = 2 * BLOCK_SIZE as usize;

/// The bits of inodes 0 and 1: the root and the orphan directory.
const FIXED_INODES: u8 = 3;

/// So many bytes that begin with the superblock of these sizes. The rest is zeros.
fn prefix_of(alloc: Global, geometry: &Geometry, size: usize) -> Result<Vec<u8>, AllocError>
    requires { 36 ≤ size }
    ensures { IfOk result (λ front. front.items ≡ front_bytes geometry.now size) }
{
    let mut front = encode_super(geometry).to_vec(alloc)?;
    front.resize(size, 0)?;
    Ok(front)
}

/// The counters of a fresh volume: the number 0, all data blocks free, all inodes but two free, and the format.
fn fresh_counters(geometry: &Geometry) -> [u8; 28]
    ensures { result ≡ fresh_counters geometry.now.blocks geometry.now.inodes }
{
    let mut counters = [0; 28];
    LittleEndian::write_u64(&mut counters[8..], u64::from(geometry.data_blocks));
    LittleEndian::write_u64(&mut counters[16..], u64::from(geometry.inodes - 2));
    LittleEndian::write_u32(&mut counters[24..], FORMAT);
    counters
}

/// Puts new bytes on others from a place on.
fn put(bytes: &mut [u8], place: usize, new: &[u8])
    requires { place + length new.now ≤ length bytes.old }
    ensures put { bytes.new ≡ patched bytes.old place new.now }
    ensures size { length bytes.new ≡ length bytes.old }
{
    bytes[place..place + new.len()].copy_from_slice(new);
}

/// Puts the metadata of a fresh volume on zeros: the root and the orphan directory are there, and nothing else.
fn put_tables(tables: &mut [u8], geometry: &Geometry)
    requires { tables.old ≡ replicate (block_size * (geometry.now.first_data - volume_start)) 0 }
    ensures { AreTables geometry.now tables.new }
{
    put(tables, 0, &fresh_counters(geometry));
    put(tables, INODE_BITS, &[FIXED_INODES]);
    let fixed = encode_attr(&Attr {
        kind: Kind::Dir,
        length: 0,
        changes: 0,
    });
    put(tables, record_offset(0) as usize, &fixed);
    put(tables, record_offset(1) as usize, &fixed);
}

/// The blocks of a fresh volume before its data blocks: counters, bitmaps, inode table and slot table.
fn fresh_tables(alloc: Global, geometry: &Geometry) -> Result<Vec<u8>, AllocError>
    ensures { IfOk result (λ tables. AreTables geometry.now tables.items) }
{
    let size = BLOCK_SIZE * (geometry.first_data - VOLUME_START);
    let mut tables = vec![in alloc; 0; size as usize]?;
    put_tables(&mut tables, geometry);
    Ok(tables)
}

/// Sets the length of a disk and makes it stable, so that no doubt is left of what stands on it.
fn set_length<D: Disk>(disk: &mut D, bytes: u64) -> Result<(), DiskFailed>
    requires { bytes ≤ D.most }
    ensures known { OnOk result (D.known disk.new ≡ bytes) }
    ensures settled { D.tells → OnOk result (D.in_doubt disk.new ≡ false) }
    ensures cause { HasCause (D.faults disk.old) (D.faults disk.new) result }
    ensures steady { OnOk result (D.faults disk.new ≡ D.faults disk.old) }
    ensures count { D.written disk.new ≡ D.written disk.old }
{
    disk.set_size(bytes)?;
    disk.sync()
}

/// Makes a fresh image of these sizes: the root alone, with the number 0. What stood on the disk before is gone, but for what
/// its data blocks and record areas hold.
///
/// It sets the size and syncs, so that it may begin on a disk in doubt, too. Then it writes the blocks before the record areas
/// and those of the volume up to the data blocks, and syncs again.
/// `Device` comes only where the disk's faults rose, and `NoMemory` before any call on it.
pub fn make<D: Disk>(alloc: Global, disk: &mut D, geometry: &Geometry) -> Result<(), MakeFault>
    requires { 64 * 2 ^ 20 ≤ D.most }
    ensures fresh { D.tells → OnOk result (IsFresh geometry.now (D.seen disk.new)) }
    ensures stable { D.tells → OnOk result (Only (D.seen disk.new) (D.may_leave disk.new)) }
    ensures settled { D.tells → OnOk result (D.in_doubt disk.new ≡ false) }
    ensures known { OnOk result (D.known disk.new ≡ block_size * geometry.now.blocks) }
    ensures device { IfErr result (λ fault. fault ≡ Device → Rose (D.faults disk.old) (D.faults disk.new)) }
    ensures untouched { IfErr result (λ fault. fault ≡ NoMemory → disk.new ≡ disk.old) }
    ensures later { D.faults disk.old ≤ D.faults disk.new }
    ensures steady { (IsErrOf result Device → ⊥) → D.faults disk.new ≡ D.faults disk.old }
    ensures count { RisesBy (block_size * (4 + geometry.now.first_data - volume_start)) (D.written disk.old) (D.written disk.new) }
{
    let front = prefix_of(alloc, geometry, (FRONT_BLOCKS * BLOCK_SIZE) as usize)?;
    let tables = fresh_tables(alloc, geometry)?;
    // The law does nothing. It says that the superblock is right, and that it names these sizes.
    written_is_read(geometry);
    set_length(disk, geometry.bytes())?;
    disk.write_at(0, &front)?;
    disk.write_at(u64::from(VOLUME_START * BLOCK_SIZE), &tables)?;
    disk.sync()?;
    Ok(())
}
