//! The limits of files and transactions, and what a file takes on the disk.
ghost use Rattle.std.specs.Prelude.{◌≡◌, ◌≤◌};
ghost use Rattle.ccfs_base.specs.Limits.{blocks, file_max};

/// The size of a page, in bytes. A block is as large.
const PAGE: u64 = 4096;

/// How many pages of a file its own record can point to. A longer file takes one more block for pointers.
const DIRECT_PAGES: u64 = 24;

/// The greatest length of a file, in bytes: 1,048 pages.
pub const FILE_MAX: u64 = 4_292_608;

/// The weight that the unsealed updates of a stream have together at most, in bytes: 256 KiB.
pub const TXN_LIMIT: u32 = 262_144;

/// How many blocks a file of that length in bytes takes: one for each page of 4,096 bytes that it has, the last one
/// perhaps in part, and one more where there are more than 24.
pub fn blocks(len: u64) -> u32
    requires { len ≤ file_max }
    ensures { result ≡ blocks len }
{
    let pages = len.div_ceil(PAGE);
    if pages > DIRECT_PAGES {
        pages as u32 + 1
    } else {
        pages as u32
    }
}
