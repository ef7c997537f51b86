//! The maps of all files.
ghost use Rattle.std.specs.Prelude.{◌≡◌, ◌<◌, ◌≤◌, ◌+◌, ◌*◌, length, replicate, slice_get, slice_set, slice_index, IfOk, OnOk, OnErr};
ghost use Rattle.std.specs.Int.{w32, to_le_bytes};
ghost use Rattle.ccfs_base.specs.Places.{put};
ghost use Rattle.block_maps.specs.Changes.{with_use, with_length, with_pages, next_file, ArePointers};
ghost use Rattle.block_maps.specs.Maps as spec;
ghost use Rattle.block_maps.specs.Maps.{placed_file};
ghost use Rattle.block_maps.specs.Plans.{blocks_of};
ghost use Rattle.block_maps.specs.Uses as uses;

use super::next::Next;
use super::plans::Gain;
use super::uses::{block_count, place_of};
use ccfs_base::NoMemory;
use std::alloc::Global;
use std::marker::Model;

/// One file: its length in bytes and its blocks, in the order of their uses.
#[derive(Drop)]
pub struct FileMap {
    len: u64,
    blocks: Vec<u32>,
}

impl Model for FileMap {
    ghost use Rattle.block_maps.specs.Maps.{Mapped};

    ghost Value = { Mapped };

    ghost view = { λ f. record { len = f.len; blocks = f.blocks.items } };
}

impl FileMap {
    /// A file of no bytes. It takes no memory.
    fn new(alloc: Global) -> FileMap
        ensures { result ≡ spec.no_file }
    {
        FileMap {
            len: 0,
            blocks: Vec::new(alloc),
        }
    }

    /// Sets the block at a place in the order of uses, the next place included. Without memory all is as before.
    fn set(&mut self, place: usize, block: u32) -> Result<(), NoMemory>
        requires { place ≤ length self.old.blocks }
        ensures ok { OnOk result (self.new ≡ spec.with_block self.old place block) }
        ensures err { OnErr result (self.new ≡ self.old) }
    {
        if place < self.blocks.len() {
            self.blocks[place] = block;
        } else {
            self.blocks.push(block)?;
        }
        Ok(())
    }

    /// The block at a place in the order of uses, and 0 where there is none.
    fn block(&self, place: usize) -> u32
        ensures { result ≡ slice_index self.now.blocks place }
    {
        self.blocks.get(place).copied().unwrap_or(0)
    }

    /// The file with this length and these new blocks, of which it keeps those of its first pages.
    fn placed(
        &self,
        alloc: Global,
        least: u32,
        len: u64,
        gained: &[Gain],
    ) -> Result<FileMap, NoMemory>
        ensures { IfOk result (λ file. file ≡ placed_file self.now least len (blocks_of gained.now)) }
    {
        let kept = block_count(least).min(self.blocks.len());
        let mut blocks = Vec::with_capacity(alloc, kept + gained.len())?;
        blocks.extend_from_slice(&self.blocks[..kept])?;
        for gain in gained {
            blocks.push(gain.block)?;
        }
        Ok(FileMap { len, blocks })
    }
}

/// The maps of all files, by inode. A contract sees the list of them.
#[derive(Drop)]
pub struct Maps {
    files: Vec<FileMap>,
}

impl Model for Maps {
    ghost use Rattle.std.specs.Prelude.{List, length, ◌<◌, ◌^◌};
    ghost use Rattle.block_maps.specs.Maps.{Mapped};

    ghost Value = { List Mapped };

    ghost view = { λ m. m.files.items };

    ghost invariant = { λ m. length m.files.items < 2 ^ 32 };
}

impl Maps {
    /// Files of no bytes at so many inodes.
    pub fn new(alloc: Global, inodes: u32) -> Result<Maps, NoMemory>
        ensures { IfOk result (λ maps. maps ≡ replicate inodes spec.no_file) }
    {
        let mut files = Vec::with_capacity(alloc, inodes as usize)?;
        for _inode in 0..inodes {
            files.push(FileMap::new(alloc))?;
        }
        Ok(Maps { files })
    }

    /// How many inodes there are.
    pub fn inodes(&self) -> u32
        ensures { result ≡ length self.now }
    {
        self.files.len() as u32
    }

    /// The block of a page of a file, or of its indirect block where no page is given. `None` exactly where the file has no such
    /// block.
    pub fn page(&self, inode: u32, page: Option<u32>) -> Option<u32>
        requires { inode < length self.now }
        ensures { result ≡ slice_get (spec.file_at self.now inode).blocks (uses.place_of page) }
    {
        self.files[inode as usize]
            .blocks
            .get(place_of(page))
            .copied()
    }

    /// Sets the block of a page of a file, or of its indirect block where no page is given. A file's blocks are set in the order of
    /// their uses, or anew. Without memory all is as before.
    pub fn set(&mut self, inode: u32, page: Option<u32>, block: u32) -> Result<(), NoMemory>
        requires inode { inode < length self.old }
        requires place { uses.place_of page ≤ length (spec.file_at self.old inode).blocks }
        ensures ok { OnOk result (self.new ≡ with_use self.old inode page block) }
        ensures err { OnErr result (self.new ≡ self.old) }
    {
        self.files[inode as usize].set(place_of(page), block)
    }

    /// The length of a file in bytes.
    pub fn length(&self, inode: u32) -> u64
        requires { inode < length self.now }
        ensures { result ≡ (spec.file_at self.now inode).len }
    {
        self.files[inode as usize].len
    }

    /// Sets the length of a file. Its blocks stay as they are. It takes no memory.
    pub fn set_length(&mut self, inode: u32, len: u64)
        requires { inode < length self.old }
        ensures { self.new ≡ with_length self.old inode len }
    {
        self.files[inode as usize].len = len;
    }

    /// Cuts a file to so many pages, and drops the indirect block where none of them needs it. Its length stays as it is. It takes
    /// no memory.
    pub fn cut(&mut self, inode: u32, pages: u32)
        requires { inode < length self.old }
        ensures { self.new ≡ with_pages self.old inode pages }
    {
        self.files[inode as usize]
            .blocks
            .truncate(block_count(pages));
    }

    /// The pointers of a file as its inode record has them: those to the blocks of pages 0 to 23 and to the indirect block, each of
    /// 4 bytes, the lowest first, and 0 where there is none.
    pub fn pointers(&self, inode: u32) -> [u8; 100]
        requires { inode < length self.now }
        ensures { ArePointers (spec.file_at self.now inode).blocks result }
    {
        let mut bytes = [0; 100];
        for place in 0..25 {
            put_pointer(&mut bytes, place, self.files[inode as usize].block(place));
        }
        bytes
    }

    /// The blocks of a file, in the order of their uses.
    pub fn blocks(&self, inode: u32) -> &[u32]
        requires { inode < length self.now }
        ensures { result.now ≡ (spec.file_at self.now inode).blocks }
    {
        self.files[inode as usize].blocks.as_slice()
    }

    /// The map of a file behind a batch: it keeps the blocks of its first `least` pages, gets those that it gained behind them, and
    /// has this length in bytes. The maps stay as they are, until `install` puts it in its place.
    pub fn next(
        &self,
        alloc: Global,
        inode: u32,
        least: u32,
        len: u64,
        gained: &[Gain],
    ) -> Result<Next, NoMemory>
        requires { inode < length self.now }
        ensures inode { IfOk result (λ next. next.inode ≡ inode) }
        ensures file { IfOk result (λ next. next.file ≡ next_file self.now inode least len gained.now) }
    {
        Ok(Next {
            inode,
            file: self.files[inode as usize].placed(alloc, least, len, gained)?,
        })
    }

    /// Puts the map of a file in its place that `next` made. All others stay as they are. It takes no memory.
    pub fn install(&mut self, next: Next)
        requires { next.inode < length self.old }
        ensures { self.new ≡ slice_set self.old next.inode next.file }
    {
        let Next { inode, file } = next;
        self.files[inode as usize] = file;
    }
}

/// Puts a pointer at a place among pointers.
fn put_pointer(bytes: &mut [u8], place: usize, block: u32)
    requires { 4 * place + 4 ≤ length bytes.old }
    ensures { bytes.new ≡ put bytes.old (4 * place) (to_le_bytes w32 block) }
{
    bytes[4 * place..4 * place + 4].copy_from_slice(&block.to_le_bytes());
}
