//! Where the gates and the records of a half stand on the disk, in bytes.
ghost use Rattle.std.specs.Prelude.{◌≡◌, ◌≤◌};
ghost use Rattle.gate_journal.specs.Offsets.{gates_start, records_start};

/// How long a block of the disk is, in bytes.
pub const BLOCK_SIZE: u64 = 4096;

/// How many gates a half has.
pub const GATES: u32 = 4096;

/// How long the record area of a half is, in bytes.
pub const RECORDS_SIZE: u64 = 524_288;

/// Where the gates of a half begin, in bytes from the start of the disk.
pub fn gates_start(half: u8) -> u64
    requires { half ≤ 1 }
    ensures { result ≡ gates_start half }
{
    BLOCK_SIZE * (2 + u64::from(half))
}

/// Where the record area of a half begins, in bytes from the start of the disk.
pub fn records_start(half: u8) -> u64
    requires { half ≤ 1 }
    ensures { result ≡ records_start half }
{
    BLOCK_SIZE * (4 + 128 * u64::from(half))
}
