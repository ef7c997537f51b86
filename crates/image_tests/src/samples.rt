//! Volumes that were written by hand, as pieces at places. But for the deep chain all have 512 blocks and 32 inodes, so that the
//! records begin at byte 12,288 in block 263, the slots at byte 20,480 in block 265, and the data blocks with block 266 at byte
//! 24,576. There are 246 data blocks.

/// A place of a volume, and the bytes that stand there.
pub(crate) type Piece = (usize, &'static [u8]);

/// What an unused byte holds where the test wants to see that it isn't looked at.
pub(crate) const GARBAGE: u8 = 0xEE;

/// The batch number.
pub(crate) const NUMBER: usize = 0;

/// The count of free blocks.
pub(crate) const FREE_BLOCKS: usize = 8;

/// The count of free inodes.
pub(crate) const FREE_INODES: usize = 16;

/// The format.
pub(crate) const FORMAT: usize = 24;

/// The bits of data blocks.
pub(crate) const BLOCK_BITS: usize = 4096;

/// The bits of inodes.
pub(crate) const INODE_BITS: usize = 8192;

/// Record 0, the first.
pub(crate) const RECORD_0: usize = 12288;

/// Record 1.
pub(crate) const RECORD_1: usize = 12544;

/// Record 2.
pub(crate) const RECORD_2: usize = 12800;

/// Record 3.
pub(crate) const RECORD_3: usize = 13056;

/// Record 4.
pub(crate) const RECORD_4: usize = 13312;

/// Record 5.
const RECORD_5: usize = 13568;

/// Where in a record the length stands.
pub(crate) const LENGTH: usize = 8;

/// Where in a record the count of changes stands.
const CHANGES: usize = 16;

/// Where in a record the pointers begin.
pub(crate) const POINTERS: usize = 64;

/// Where in a record the pointer to the indirect block stands.
pub(crate) const INDIRECT: usize = 160;

/// Slot 2. Slots 0 and 1 are of no meaning.
pub(crate) const SLOT_2: usize = 20736;

/// Slot 3.
pub(crate) const SLOT_3: usize = 20864;

/// Slot 4.
pub(crate) const SLOT_4: usize = 20992;

/// Slot 5.
pub(crate) const SLOT_5: usize = 21120;

/// The first data block, 266.
pub(crate) const BLOCK_266: usize = 24576;

/// The data block 290.
pub(crate) const BLOCK_290: usize = 122_880;

/// No data block is used. The last byte has bits 240 to 245, and two that no block has.
const NO_BLOCKS: &[u8] = &[
    0, 0, 0, 0, 0, 0, 0, 0, 0, 0, 0, 0, 0, 0, 0, 0, 0, 0, 0, 0, 0, 0, 0, 0, 0, 0, 0, 0, 0, 0, 0xC0,
];

/// The root alone, never changed: 246 free blocks, 30 free inodes, the format 1.
pub(crate) const FRESH: [Piece; 7] = [
    (NUMBER, &[0, 0, 0, 0, 0, 0, 0, 0]),
    (FREE_BLOCKS, &[246, 0, 0, 0, 0, 0, 0, 0]),
    (FREE_INODES, &[30, 0, 0, 0, 0, 0, 0, 0]),
    (FORMAT, &[1, 0, 0, 0]),
    (INODE_BITS, &[3, 0, 0, 0]),
    (RECORD_0, &[1]),
    (RECORD_1, &[1]),
];

/// `/d` with one change, and in it `/d/f` of 5,000 bytes in blocks 266 and 267.
pub(crate) const PAGED: [Piece; 15] = [
    (NUMBER, &[7, 0, 0, 0, 0, 0, 0, 0]),
    (FREE_BLOCKS, &[244, 0, 0, 0, 0, 0, 0, 0]),
    (FREE_INODES, &[28, 0, 0, 0, 0, 0, 0, 0]),
    (FORMAT, &[1, 0, 0, 0]),
    (
        BLOCK_BITS,
        &[
            3, 0, 0, 0, 0, 0, 0, 0, 0, 0, 0, 0, 0, 0, 0, 0, 0, 0, 0, 0, 0, 0, 0, 0, 0, 0, 0, 0, 0,
            0, 0xC0,
        ],
    ),
    (INODE_BITS, &[15, 0, 0, 0]),
    (RECORD_0, &[1]),
    (RECORD_1, &[1]),
    (RECORD_2, &[1]),
    (RECORD_3, &[2]),
    (RECORD_3 + LENGTH, &[0x88, 0x13, 0, 0, 0, 0, 0, 0]),
    (RECORD_3 + POINTERS, &[10, 1, 0, 0]),
    (RECORD_3 + POINTERS + 4, &[11, 1, 0, 0]),
    (SLOT_2, &[0, 0, 0, 0, 1, b'd']),
    (SLOT_3, &[2, 0, 0, 0, 1, b'f']),
];

/// `/f` of 98,305 bytes: pages 0 to 23 in blocks 266 to 289, the indirect block 290, and page 24 in block 291.
pub(crate) const LONG: [Piece; 14] = [
    (NUMBER, &[0, 0, 0, 0, 0, 0, 0, 0]),
    (FREE_BLOCKS, &[220, 0, 0, 0, 0, 0, 0, 0]),
    (FREE_INODES, &[29, 0, 0, 0, 0, 0, 0, 0]),
    (FORMAT, &[1, 0, 0, 0]),
    (BLOCK_BITS, &[0xFF, 0xFF, 0xFF, 3]),
    (INODE_BITS, &[7, 0, 0, 0]),
    (RECORD_0, &[1]),
    (RECORD_1, &[1]),
    (RECORD_2, &[2]),
    (RECORD_2 + LENGTH, &[1, 0x80, 1, 0, 0, 0, 0, 0]),
    (
        RECORD_2 + POINTERS,
        &[
            10, 1, 0, 0, 11, 1, 0, 0, 12, 1, 0, 0, 13, 1, 0, 0, 14, 1, 0, 0, 15, 1, 0, 0, 16, 1, 0,
            0, 17, 1, 0, 0, 18, 1, 0, 0, 19, 1, 0, 0, 20, 1, 0, 0, 21, 1, 0, 0, 22, 1, 0, 0, 23, 1,
            0, 0, 24, 1, 0, 0, 25, 1, 0, 0, 26, 1, 0, 0, 27, 1, 0, 0, 28, 1, 0, 0, 29, 1, 0, 0, 30,
            1, 0, 0, 31, 1, 0, 0, 32, 1, 0, 0, 33, 1, 0, 0,
        ],
    ),
    (RECORD_2 + INDIRECT, &[34, 1, 0, 0]),
    (BLOCK_290, &[35, 1, 0, 0]),
    (SLOT_2, &[0, 0, 0, 0, 1, b'f']),
];

/// The directory `/d`, and in it the empty files `/d/f` and `/d/g`.
pub(crate) const EMPTY: [Piece; 17] = [
    (NUMBER, &[7, 0, 0, 0, 0, 0, 0, 0]),
    (FREE_BLOCKS, &[246, 0, 0, 0, 0, 0, 0, 0]),
    (FREE_INODES, &[27, 0, 0, 0, 0, 0, 0, 0]),
    (FORMAT, &[1, 0, 0, 0]),
    (BLOCK_BITS, NO_BLOCKS),
    (INODE_BITS, &[31, 0, 0, 0]),
    (RECORD_0, &[1]),
    (RECORD_1, &[1]),
    (RECORD_2, &[1]),
    (RECORD_3, &[2]),
    (RECORD_3 + LENGTH, &[0, 0, 0, 0, 0, 0, 0, 0]),
    (RECORD_4, &[2]),
    (RECORD_4 + LENGTH, &[0, 0, 0, 0, 0, 0, 0, 0]),
    (SLOT_2, &[0, 0, 0, 0, 1, b'd']),
    (SLOT_3, &[2, 0, 0, 0, 1, b'f']),
    (SLOT_4, &[2, 0, 0, 0, 1, b'g']),
    (SLOT_4 + 6, b"garbage"),
];

/// The directory `/a`, and in it the empty file `/a/f`. The root was changed once, and `/a` 258 times.
pub(crate) const SMALL: [Piece; 14] = [
    (NUMBER, &[3]),
    (FREE_BLOCKS, &[246]),
    (FREE_INODES, &[28]),
    (FORMAT, &[1]),
    (BLOCK_BITS, NO_BLOCKS),
    (INODE_BITS, &[15]),
    (RECORD_0, &[1]),
    (RECORD_0 + CHANGES, &[1]),
    (RECORD_1, &[1]),
    (RECORD_2, &[1]),
    (RECORD_2 + CHANGES, &[2, 1]),
    (RECORD_3, &[2]),
    (SLOT_2, &[0, 0, 0, 0, 1, b'a']),
    (SLOT_3, &[2, 0, 0, 0, 1, b'f']),
];

/// The directories `/b` and `/a` in inodes 2 and 3, and the empty file `/a/f` in inode 5. Inode 4 isn't used.
pub(crate) const MIXED: [Piece; 14] = [
    (FREE_BLOCKS, &[246]),
    (FREE_INODES, &[27]),
    (FORMAT, &[1]),
    (INODE_BITS, &[0x2F]),
    (RECORD_0, &[1]),
    (RECORD_0 + CHANGES, &[2]),
    (RECORD_1, &[1]),
    (RECORD_2, &[1]),
    (RECORD_3, &[1]),
    (RECORD_3 + CHANGES, &[1]),
    (RECORD_5, &[2]),
    (SLOT_2, &[0, 0, 0, 0, 1, b'b']),
    (SLOT_3, &[0, 0, 0, 0, 1, b'a']),
    (SLOT_5, &[3, 0, 0, 0, 1, b'f']),
];

/// The root alone of 512 blocks and 512 inodes, with inodes 2 to 501 used: the records are in blocks 263 to 294, the slots in
/// blocks 295 to 310, and 201 data blocks behind them. The slots begin at byte 143,360. `Step::Chain` gives the inodes their
/// records and slots.
pub(crate) const DEEP: [Piece; 7] = [
    (FREE_BLOCKS, &[201]),
    (FREE_INODES, &[10]),
    (FORMAT, &[1]),
    (INODE_BITS, &[0xFF; 62]),
    (INODE_BITS + 62, &[0x3F]),
    (RECORD_0, &[1]),
    (RECORD_1, &[1]),
];

/// Where the slots of the deep chain begin.
pub(crate) const DEEP_SLOTS: usize = 143_360;
