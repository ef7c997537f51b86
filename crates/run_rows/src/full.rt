//! Runs that fill a half of the journal. A half has 524,288 bytes for records and 4,096 gates.
use super::playing::{Row, Run, play};
use super::texts::Part::{Text, Turns};
use std::test::Fail;

/// What a checkpoint writes beside the ranges: the gates of the other half and the master byte. An opening is one, too.
const SWITCH: u64 = 4_096 + 1;

/// The bytes of a batch of one made row with its gate, and of what its records put.
const BATCH: u64 = 16 + 170 + 20 + 1;

const PUT: u64 = 110 + 8;

const BY_BYTES: &[Row] = &[
    Row {
        // 2,545 batches of 206 bytes have 524,270, and one more has no room.
        name: "a half is full by its bytes",
        image: ["2048", "8192"],
        runs: &[Run {
            script: &[Turns {
                count: 2_546,
                from: 1_000,
                text: "0 create /@; 0 streamsync;",
            }],
            status: 0,
            says: &[
                Turns {
                    count: 2_546,
                    from: 1,
                    text: "0 ok; 0 ok @;",
                },
                Text("batches 2546; dir / entries 2546 changes 2546;"),
                Turns {
                    count: 2_546,
                    from: 1_000,
                    text: "file /@ length 0 data -;",
                },
            ],
            written: Some(SWITCH + 2_545 * BATCH + 2_545 * PUT + SWITCH + BATCH),
        }],
    },
    Row {
        // Seven batches with 3,082 rows have 524,192 bytes: one row more passes 524,288.
        name: "a half is full by large batches",
        image: ["2048", "8192"],
        runs: &[Run {
            script: &[
                Turns {
                    count: 3_072,
                    from: 1_000,
                    text: "0 create /@;",
                },
                Text("0 streamsync;"),
                Turns {
                    count: 10,
                    from: 4_072,
                    text: "0 create /@;",
                },
                Text("0 streamsync; 0 create /4082; 0 streamsync;"),
            ],
            status: 0,
            says: &[
                Turns {
                    count: 3_072,
                    from: 0,
                    text: "0 ok;",
                },
                Text("0 ok 6;"),
                Turns {
                    count: 10,
                    from: 0,
                    text: "0 ok;",
                },
                Text("0 ok 7; 0 ok; 0 ok 8; batches 8; dir / entries 3083 changes 3083;"),
                Turns {
                    count: 3_083,
                    from: 1_000,
                    text: "file /@ length 0 data -;",
                },
            ],
            written: Some(SWITCH + 524_192 + 7 + (3_082 * 110 + 7 * 8) + SWITCH + BATCH),
        }],
    },
];

const BY_GATES: &[Row] = &[Row {
    name: "a half is full by its gates",
    image: ["2048", "8192"],
    runs: &[
        Run {
            script: &[
                Turns {
                    count: 4_100,
                    from: 1_000,
                    text: "0 create /@;",
                },
                Text("0 sync;"),
            ],
            status: 0,
            says: &[
                Turns {
                    count: 4_100,
                    from: 0,
                    text: "0 ok;",
                },
                // A stream seals itself before its 513th row, its 1,025th and so on.
                Text("0 ok 9; batches 9; dir / entries 4100 changes 4100;"),
                Turns {
                    count: 4_100,
                    from: 1_000,
                    text: "file /@ length 0 data -;",
                },
            ],
            written: None,
        },
        Run {
            script: &[Turns {
                count: 4_097,
                from: 1_000,
                text: "0 unlink /@; 0 streamsync;",
            }],
            status: 0,
            says: &[
                Turns {
                    count: 4_097,
                    from: 1,
                    text: "0 ok; 0 ok @;",
                },
                Text("batches 4106; dir / entries 3 changes 8197;"),
                Turns {
                    count: 3,
                    from: 5_097,
                    text: "file /@ length 0 data -;",
                },
            ],
            written: None,
        },
    ],
}];

#[test]
fn a_half_that_is_full_by_bytes_is_left(rt: HostRuntime) -> Result<(), Fail> {
    play(rt.alloc(), BY_BYTES)
}

#[test]
fn a_half_that_is_full_by_gates_is_left(rt: HostRuntime) -> Result<(), Fail> {
    play(rt.alloc(), BY_GATES)
}
