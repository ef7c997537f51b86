//! What the blocks of a file are for, and their order.
ghost use Rattle.std.specs.Prelude.{◌≡◌, ◌<◌, ◌≤◌, ◌^◌};
ghost use Rattle.ccfs_base.specs.Limits as limits;
ghost use Rattle.block_maps.specs.Uses as uses;

use super::DIRECT_PAGES;

/// The size of a page, in bytes. A block is as large.
const PAGE: u64 = 4096;

/// How many pages a file of that length in bytes has, the last one perhaps in part.
pub fn pages(len: u64) -> u32
    requires { len ≤ limits.file_max }
    ensures { result ≡ limits.pages len }
{
    len.div_ceil(PAGE) as u32
}

/// How many blocks a file of so many pages has.
pub fn block_count(pages: u32) -> usize
    ensures { result ≡ uses.block_count pages }
{
    if pages > DIRECT_PAGES {
        pages as usize + 1
    } else {
        pages as usize
    }
}

/// How many new blocks a file needs whose length in bytes was once so small that it had `least` pages: those of its pages from there
/// on, and the indirect block where it had none at that time.
pub fn new_count(least: u32, len: u64) -> usize
    requires { len ≤ limits.file_max }
    ensures { result ≡ uses.new_count least len }
{
    block_count(pages(len)).saturating_sub(block_count(least))
}

/// The place of a page's block among the file's blocks, or of the indirect block where no page is given.
pub fn place_of(page: Option<u32>) -> usize
    ensures { result ≡ uses.place_of page }
{
    match page {
        None => DIRECT_PAGES as usize,
        Some(page) if page < DIRECT_PAGES => page as usize,
        Some(page) => page as usize + 1,
    }
}

/// The page whose block has a place among the file's blocks, and `None` for the place of the indirect block.
pub fn use_at(place: usize) -> Option<u32>
    requires { place < 2 ^ 32 }
    ensures { result ≡ uses.use_at place }
{
    let page = place as u32;
    if page < DIRECT_PAGES {
        Some(page)
    } else if page == DIRECT_PAGES {
        None
    } else {
        Some(page - 1)
    }
}
