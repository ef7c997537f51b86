//! Scripts of many lines.
use super::playing::{EMPTY, Row, Run, SMALL, play};
use super::texts::Part::{Text, Turns};
use std::test::Fail;

const ROWS: &[Row] = &[
    Row {
        name: "the inodes of the image bound its rows",
        image: SMALL,
        runs: &[Run {
            script: &[Turns {
                count: 31,
                from: 10,
                text: "0 create /@;",
            }],
            status: 0,
            says: &[
                Turns {
                    count: 30,
                    from: 0,
                    text: "0 ok;",
                },
                Text("0 refused NoInode; "),
                EMPTY,
            ],
            written: None,
        }],
    },
    Row {
        name: "the 513th row of a stream seals the rows before",
        image: ["512", "1024"],
        runs: &[Run {
            script: &[
                Turns {
                    count: 513,
                    from: 1000,
                    text: "0 create /@;",
                },
                Text("0 flush;"),
            ],
            status: 0,
            says: &[
                Turns {
                    count: 513,
                    from: 0,
                    text: "0 ok;",
                },
                Text("0 ok 1; batches 1; dir / entries 512 changes 512;"),
                Turns {
                    count: 512,
                    from: 1000,
                    text: "file /@ length 0 data -;",
                },
            ],
            written: None,
        }],
    },
    Row {
        // Thirty files take all inodes. Stream 1 removes one: nobody but it may make a row before its seal.
        name: "an inode is free for other streams once it is sealed",
        image: SMALL,
        runs: &[Run {
            script: &[
                Turns {
                    count: 30,
                    from: 10,
                    text: "0 create /@;",
                },
                Text("0 sync; 1 setstream 1; 1 unlink /10; 0 create /x; 1 streamsync; "),
                Text("0 create /x; 0 create /y; 0 sync;"),
            ],
            status: 0,
            says: &[
                Turns {
                    count: 30,
                    from: 0,
                    text: "0 ok;",
                },
                Text("0 ok 1; 1 ok; 1 ok; 0 refused NoInode; 1 ok 2; 0 ok; "),
                Text("0 refused NoInode; 0 ok 3; batches 3; dir / entries 30 changes 32;"),
                Turns {
                    count: 29,
                    from: 11,
                    text: "file /@ length 0 data -;",
                },
                Text("file /x length 0 data -;"),
            ],
            written: None,
        }],
    },
    Row {
        name: "a stream seals itself where its own rows take all inodes",
        image: SMALL,
        runs: &[Run {
            script: &[
                Turns {
                    count: 30,
                    from: 10,
                    text: "0 create /@;",
                },
                Text("0 unlink /10; 0 create /x; 0 streamsync;"),
            ],
            status: 0,
            says: &[
                Turns {
                    count: 30,
                    from: 0,
                    text: "0 ok;",
                },
                Text("0 ok; 0 ok; 0 ok 2; batches 2; dir / entries 30 changes 32;"),
                Turns {
                    count: 29,
                    from: 11,
                    text: "file /@ length 0 data -;",
                },
                Text("file /x length 0 data -;"),
            ],
            written: None,
        }],
    },
    Row {
        name: "a batch has the bytes of its records",
        image: ["512", "64"],
        runs: &[Run {
            script: &[
                Turns {
                    count: 16,
                    from: 100,
                    text: "0 create /@;",
                },
                Text("0 streamsync;"),
                Turns {
                    count: 16,
                    from: 116,
                    text: "0 create /@;",
                },
                Text("0 streamsync;"),
                Turns {
                    count: 16,
                    from: 132,
                    text: "0 create /@;",
                },
                Text("0 streamsync;"),
            ],
            status: 0,
            says: &[
                Turns {
                    count: 16,
                    from: 0,
                    text: "0 ok;",
                },
                Text("0 ok 1;"),
                Turns {
                    count: 16,
                    from: 0,
                    text: "0 ok;",
                },
                Text("0 ok 2;"),
                Turns {
                    count: 16,
                    from: 0,
                    text: "0 ok;",
                },
                Text("0 ok 3; batches 3; dir / entries 48 changes 48;"),
                Turns {
                    count: 48,
                    from: 100,
                    text: "file /@ length 0 data -;",
                },
            ],
            // Three batches of 16 rows: each a header of 16 bytes, 170 a row, 20 for the number, and a gate.
            written: Some(4_097 + 3 * (16 + 16 * 170 + 20 + 1)),
        }],
    },
];

#[test]
fn many_lines_write_what_rows_say(rt: HostRuntime) -> Result<(), Fail> {
    play(rt.alloc(), ROWS)
}
