//! What the clauses of `block_layout` mean at sizes and superblocks that were worked out by hand.
use block_layout::{Geometry, SuperField, Which, decode_super, encode_super};
use std::test::Fail;

/// Blocks, inodes, the four places that follow of them, the bytes of the image and of its volume, and its superblock.
type Image = (u32, u32, [u32; 4], [u64; 2], [u8; 36]);

/// The superblock of 512 blocks and 32 inodes: the magic, then 1, 512, 32, 260, 263, 265 and 266.
const SMALLEST: [u8; 36] = [
    0x43, 0x43, 0x46, 0x53, 0x4f, 0x57, 0x4e, 0x31, 1, 0, 0, 0, 0, 2, 0, 0, 0x20, 0, 0, 0, 4, 1, 0,
    0, 7, 1, 0, 0, 9, 1, 0, 0, 0x0a, 1, 0, 0,
];

/// That of 16,384 blocks and 8,192 inodes: the magic, then 1, 16384, 8192, 260, 263, 775 and 1031.
const GREATEST: [u8; 36] = [
    0x43, 0x43, 0x46, 0x53, 0x4f, 0x57, 0x4e, 0x31, 1, 0, 0, 0, 0, 64, 0, 0, 0, 32, 0, 0, 4, 1, 0,
    0, 7, 1, 0, 0, 7, 3, 0, 0, 7, 4, 0, 0,
];

/// The smallest image and the greatest.
const IMAGES: [Image; 2] = [
    (
        512,
        32,
        [263, 265, 266, 246],
        [2_097_152, 1_032_192],
        SMALLEST,
    ),
    (
        16384,
        8192,
        [263, 775, 1031, 15353],
        [67_108_864, 66_043_904],
        GREATEST,
    ),
];

#[test]
fn images_have_these_places_and_superblocks(rt: HostRuntime) -> Result<(), Fail> {
    for (blocks, inodes, places, sizes, bytes) in IMAGES {
        let geometry = Geometry::of(blocks, inodes)?;
        assert_eq!(rt;
            [
                geometry.inode_table,
                geometry.slot_table,
                geometry.first_data,
                geometry.data_blocks
            ],
            places
        );
        assert_eq!(rt; [geometry.bytes(), geometry.volume_bytes()], sizes);
        assert_eq!(rt; encode_super(&geometry), bytes);
        assert_eq!(rt; decode_super(&bytes), Ok(geometry));
    }
    Ok(())
}

/// Blocks and inodes, and which of them is refused.
const SIZES: [(u32, u32, Option<Which>); 15] = [
    (511, 32, Some(Which::Blocks)),
    (511, 33, Some(Which::Blocks)),
    (512, 32, None),
    (512, 33, Some(Which::Inodes)),
    (16384, 32, None),
    (16385, 32, Some(Which::Blocks)),
    (16384, 0, Some(Which::Inodes)),
    (16384, 31, Some(Which::Inodes)),
    (16384, 33, Some(Which::Inodes)),
    (16384, 8192, None),
    (16384, 8224, Some(Which::Inodes)),
    (16384, 4294967264, Some(Which::Inodes)),
    // At least 64 data blocks are left.
    (512, 1952, None),
    (512, 1984, Some(Which::Inodes)),
    (513, 1984, None),
];

/// Which size is refused, and the number that it names.
fn refused(blocks: u32, inodes: u32) -> Option<(Which, u32)> {
    Geometry::of(blocks, inodes)
        .err()
        .map(|bad| (bad.which, bad.given))
}

#[test]
fn sizes_are_refused_or_not(rt: HostRuntime) {
    for (blocks, inodes, which) in SIZES {
        let wanted = match which {
            Some(Which::Blocks) => Some((Which::Blocks, blocks)),
            Some(Which::Inodes) => Some((Which::Inodes, inodes)),
            None => None,
        };
        assert_eq!(rt; refused(blocks, inodes), wanted, "at {blocks} {inodes}");
    }
}

/// Bytes put at places of the smallest image's superblock, and the first field that is wrong then.
const FIELDS: [(&'static [(usize, u8)], Option<SuperField>); 16] = [
    (&[], None),
    (&[(0, 0x63)], Some(SuperField::Magic)),
    (&[(7, 0x30)], Some(SuperField::Magic)),
    (&[(8, 2)], Some(SuperField::Version)),
    (&[(13, 1)], Some(SuperField::Blocks)),
    (&[(16, 0x21)], Some(SuperField::Inodes)),
    (&[(17, 8)], Some(SuperField::Inodes)),
    (&[(20, 3)], Some(SuperField::VolumeStart)),
    (&[(24, 6)], Some(SuperField::InodeTable)),
    (&[(28, 10)], Some(SuperField::SlotTable)),
    (&[(35, 1)], Some(SuperField::FirstData)),
    (&[(32, 0), (28, 0)], Some(SuperField::SlotTable)),
    (&[(20, 0), (16, 0)], Some(SuperField::Inodes)),
    (&[(13, 0), (16, 0)], Some(SuperField::Blocks)),
    (&[(11, 1), (3, 0)], Some(SuperField::Magic)),
    (&[(13, 3)], None),
];

/// The first wrong field of the smallest image's superblock with these bytes put at these places.
fn wrong_with(changes: &[(usize, u8)]) -> Option<SuperField> {
    let mut bytes = SMALLEST;
    for (place, byte) in changes {
        if *place < 36 {
            bytes[*place] = *byte;
        }
    }
    decode_super(&bytes).err().map(|bad| bad.field)
}

#[test]
fn the_first_wrong_field_is_named(rt: HostRuntime) {
    for (changes, field) in &FIELDS {
        assert_eq!(rt; wrong_with(changes), *field, "at {changes:?}");
    }
}
