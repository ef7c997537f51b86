//! What the clauses of `inode_table` mean at records that were worked out by hand.
use inode_table::{Attr, BadKind, Kind, decode_attr, encode_attr, record_block, record_offset};

/// A file of 4,292,608 bytes, which are 0x418000, and no changes.
const LONG_FILE: [u8; 24] = [
    2, 0, 0, 0, 0, 0, 0, 0, 0x00, 0x80, 0x41, 0, 0, 0, 0, 0, 0, 0, 0, 0, 0, 0, 0, 0,
];

/// A directory with 258 changes, and no length.
const CHANGED_DIR: [u8; 24] = [
    1, 0, 0, 0, 0, 0, 0, 0, 0, 0, 0, 0, 0, 0, 0, 0, 2, 1, 0, 0, 0, 0, 0, 0,
];

/// A directory with a length, which means nothing and is kept too.
const FULL_DIR: [u8; 24] = [
    1, 0, 0, 0, 0, 0, 0, 0, 0xff, 0xff, 0xff, 0xff, 0xff, 0xff, 0xff, 0xff, 8, 7, 6, 5, 4, 3, 2, 1,
];

/// A file with changes, which mean nothing and are kept too.
const FULL_FILE: [u8; 24] = [
    2, 0, 0, 0, 0, 0, 0, 0, 0xff, 0xff, 0xff, 0xff, 0xff, 0xff, 0xff, 0xff, 8, 7, 6, 5, 4, 3, 2, 1,
];

/// A kind, a length and changes, and the bytes of them.
const RECORDS: [(Kind, u64, u64, [u8; 24]); 4] = [
    (Kind::File, 4_292_608, 0, LONG_FILE),
    (Kind::Dir, 0, 258, CHANGED_DIR),
    (Kind::Dir, u64::MAX, 0x0102_0304_0506_0708, FULL_DIR),
    (Kind::File, u64::MAX, 0x0102_0304_0506_0708, FULL_FILE),
];

#[test]
fn attributes_have_these_bytes(rt: HostRuntime) {
    for (kind, length, changes, bytes) in RECORDS {
        let attr = Attr {
            kind,
            length,
            changes,
        };
        assert_eq!(rt; encode_attr(&attr), bytes);
        assert_eq!(rt; decode_attr(&bytes), Ok(attr));
    }
}

#[test]
fn of_the_first_8_bytes_the_kind_alone_is_looked_at(rt: HostRuntime) {
    let mut bytes = CHANGED_DIR;
    for place in 1..8 {
        bytes[place] = 0xff;
    }
    assert_eq!(rt; decode_attr(&bytes), decode_attr(&CHANGED_DIR));
    for given in [0, 3, 0x81, 0xff] {
        let mut bytes = LONG_FILE;
        bytes[0] = given;
        assert_eq!(rt; decode_attr(&bytes), Err(BadKind { given }));
    }
}

#[test]
fn sixteen_records_stand_in_a_block(rt: HostRuntime) {
    for (inode, block, place) in [
        (0, 263, 12_288),
        (1, 263, 12_544),
        (15, 263, 16_128),
        (16, 264, 16_384),
        (8191, 774, 2_109_184),
    ] {
        assert_eq!(rt; record_block(inode), block);
        assert_eq!(rt; record_offset(inode), place);
    }
    assert_eq!(rt; record_offset(u32::MAX), 1_099_511_639_808);
}
