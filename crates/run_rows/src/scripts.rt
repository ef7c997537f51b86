//! Scripts of several actors and streams, by their exact output.
use super::playing::{EMPTY, Row, Run, SMALL, play};
use super::texts::Part::Text;
use std::test::Fail;

const ROWS: &[Row] = &[
    Row {
        name: "an empty script",
        image: SMALL,
        runs: &[Run {
            script: &[],
            status: 0,
            says: &[EMPTY],
            written: Some(4_097),
        }],
    },
    Row {
        name: "what was not synced is in no tree",
        image: SMALL,
        runs: &[Run {
            script: &[Text("# no last end\r;\r;\t 007  mkdir /a \r;0 create /a/f")],
            status: 0,
            says: &[Text("7 ok; 0 ok; "), EMPTY],
            written: Some(4_097),
        }],
    },
    Row {
        name: "a synced tree is printed and opened again",
        image: SMALL,
        runs: &[
            Run {
                script: &[Text("0 mkdir /a; 0 create /a/f; 0 streamsync;")],
                status: 0,
                says: &[
                    Text("0 ok; 0 ok; 0 ok 1; "),
                    Text("batches 1; dir / entries 1 changes 1; dir /a entries 1 changes 1; "),
                    Text("file /a/f length 0 data -;"),
                ],
                written: None,
            },
            Run {
                script: &[
                    Text("3 mkdir /a; 3 create /b/c; 3 create /a/f/g; 3 streamsync; "),
                    Text("3 create /b; 3 streamsync;"),
                ],
                status: 0,
                says: &[
                    Text("3 refused Exists; 3 refused NoEntry; 3 refused NotDir; 3 ok 0; "),
                    Text("3 ok; 3 ok 1; "),
                    Text("batches 2; dir / entries 2 changes 2; dir /a entries 1 changes 1; "),
                    Text("file /a/f length 0 data -; file /b length 0 data -;"),
                ],
                written: None,
            },
        ],
    },
    Row {
        name: "one create and its sync write a batch and its gate",
        image: SMALL,
        runs: &[Run {
            script: &[Text("0 create /f; 0 streamsync;")],
            status: 0,
            says: &[
                Text("0 ok; 0 ok 1; "),
                Text("batches 1; dir / entries 1 changes 1; file /f length 0 data -;"),
            ],
            // A header of 16 bytes, the records of the row with 170, that of the batch number with 20, and a gate.
            written: Some(4_097 + 16 + 170 + 20 + 1),
        }],
    },
    Row {
        name: "a streamsync seals the stream of its actor alone",
        image: SMALL,
        runs: &[Run {
            script: &[Text(
                "1 setstream 1; 2 setstream 2; 1 create /x; 2 create /y; 2 streamsync;",
            )],
            status: 0,
            says: &[
                Text("1 ok; 2 ok; 1 ok; 2 ok; 2 ok 1; "),
                Text("batches 1; dir / entries 1 changes 1; file /y length 0 data -;"),
            ],
            written: None,
        }],
    },
    Row {
        name: "an update seals the streams that it meets",
        image: SMALL,
        runs: &[Run {
            script: &[Text(
                "1 setstream 1; 2 setstream 2; 1 mkdir /a; 2 create /a/f; 2 streamsync;",
            )],
            status: 0,
            says: &[
                Text("1 ok; 2 ok; 1 ok; 2 ok; 2 ok 2; "),
                Text("batches 2; dir / entries 1 changes 1; dir /a entries 1 changes 1; "),
                Text("file /a/f length 0 data -;"),
            ],
            written: None,
        }],
    },
    Row {
        name: "a flush writes what was sealed",
        image: SMALL,
        runs: &[Run {
            script: &[Text("1 setstream 1; 2 setstream 2; 1 mkdir /a; 2 create /a/f; 0 flush;")],
            status: 0,
            says: &[
                Text("1 ok; 2 ok; 1 ok; 2 ok; 0 ok 1; "),
                Text("batches 1; dir / entries 1 changes 1; dir /a entries 0 changes 0;"),
            ],
            written: None,
        }],
    },
    Row {
        name: "two moves of directories meet in the shape of the tree",
        image: SMALL,
        runs: &[Run {
            script: &[
                Text("0 mkdir /a; 0 mkdir /b; 0 mkdir /c; 0 mkdir /d; 0 streamsync; "),
                Text("1 setstream 1; 2 setstream 2; "),
                Text("1 rename /a /b/a; 2 rename /c /d/c; 2 streamsync;"),
            ],
            status: 0,
            says: &[
                Text("0 ok; 0 ok; 0 ok; 0 ok; 0 ok 1; 1 ok; 2 ok; 1 ok; 2 ok; 2 ok 3; "),
                Text("batches 3; dir / entries 2 changes 6; "),
                Text("dir /b entries 1 changes 1; dir /b/a entries 0 changes 0; "),
                Text("dir /d entries 1 changes 1; dir /d/c entries 0 changes 0;"),
            ],
            written: None,
        }],
    },
    Row {
        name: "a rename replaces a file and changes its directory twice",
        image: SMALL,
        runs: &[Run {
            script: &[
                Text("0 mkdir /a; 0 rename /a /a/b; 0 rename /a /a; 0 create /f; "),
                Text("0 create /g; 0 rename /f /g; 0 list / 0; 0 streamsync;"),
            ],
            status: 0,
            says: &[
                Text("0 ok; 0 refused Loop; 0 ok; 0 ok; 0 ok; 0 ok; 0 ok 2 a/ g; 0 ok 1; "),
                Text("batches 1; dir / entries 2 changes 5; dir /a entries 0 changes 0; "),
                Text("file /g length 0 data -;"),
            ],
            written: None,
        }],
    },
    Row {
        name: "each refusal comes where its check fails first",
        image: SMALL,
        runs: &[
            Run {
                script: &[
                    Text("0 mkdir /d; 0 create /d/f; 0 create /d; 0 rmdir /d; 0 unlink /d; "),
                    Text("0 rmdir /; 0 stat /x/y; 0 stat /d/f/y; 0 rmdir /d/f; "),
                    Text("0 rename /d /d/f/x;"),
                ],
                status: 0,
                says: &[
                    Text("0 ok; 0 ok; 0 refused Exists; 0 refused NotEmpty; 0 refused IsDir; "),
                    Text("0 refused Root; 0 refused NoEntry; 0 refused NotDir; "),
                    Text("0 refused NotDir; 0 refused NotDir; "),
                    EMPTY,
                ],
                written: None,
            },
            Run {
                script: &[
                    Text("0 mkdir /d; 0 create /f; 0 mkdir /; 0 create /f/x; 0 unlink /; "),
                    Text("0 unlink /x; 0 rename / /x; 0 rename /d /; 0 rename /x /y; "),
                    Text("0 rename /f /x/y; 0 rename /f /d; 0 rename /d /f; 0 list /f 0; "),
                    Text("0 list /x 0; 0 rmdir /x; 0 rename /d /d;"),
                ],
                status: 0,
                says: &[
                    Text("0 ok; 0 ok; 0 refused Exists; 0 refused NotDir; 0 refused Root; "),
                    Text("0 refused NoEntry; 0 refused Root; 0 refused Root; "),
                    Text("0 refused NoEntry; 0 refused NoEntry; 0 refused Exists; "),
                    Text("0 refused Exists; 0 refused NotDir; 0 refused NoEntry; "),
                    Text("0 refused NoEntry; 0 ok; "),
                    EMPTY,
                ],
                written: None,
            },
        ],
    },
    Row {
        name: "a sync seals all streams in order",
        image: SMALL,
        runs: &[Run {
            script: &[
                Text("5 setstream 5; 3 setstream 3; 5 create /x; 3 create /y; 0 create /z; "),
                Text("0 stat /; 0 flush; 0 sync; 5 sync;"),
            ],
            status: 0,
            says: &[
                Text("5 ok; 3 ok; 5 ok; 3 ok; 0 ok; 0 ok dir entries 3 changes 3; "),
                Text("0 ok 0; 0 ok 3; 5 ok 3; batches 3; dir / entries 3 changes 3; "),
                Text("file /x length 0 data -; file /y length 0 data -; "),
                Text("file /z length 0 data -;"),
            ],
            written: None,
        }],
    },
    Row {
        name: "a removed row stays while its stream is not synced",
        image: SMALL,
        runs: &[Run {
            script: &[
                Text("0 mkdir /a; 0 create /a/f; 0 sync; 1 setstream 1; 1 unlink /a/f; "),
                Text("1 rmdir /a; 0 stat /a; 0 streamsync;"),
            ],
            status: 0,
            says: &[
                Text("0 ok; 0 ok; 0 ok 1; 1 ok; 1 ok; 1 ok; 0 refused NoEntry; 0 ok 1; "),
                Text("batches 1; dir / entries 1 changes 1; dir /a entries 1 changes 1; "),
                Text("file /a/f length 0 data -;"),
            ],
            written: None,
        }],
    },
    Row {
        name: "a removed row is gone once its stream is synced",
        image: SMALL,
        runs: &[Run {
            script: &[
                Text("0 mkdir /a; 0 create /a/f; 0 sync; 1 setstream 1; 1 unlink /a/f; "),
                Text("1 rmdir /a; 1 streamsync;"),
            ],
            status: 0,
            says: &[
                Text("0 ok; 0 ok; 0 ok 1; 1 ok; 1 ok; 1 ok; 1 ok 2; "),
                Text("batches 2; dir / entries 0 changes 2;"),
            ],
            written: None,
        }],
    },
    Row {
        name: "a line that is no command is told before one that is not built",
        image: SMALL,
        runs: &[
            Run {
                script: &[Text("0 mkdir /a; 0 create a;")],
                status: 3,
                says: &[Text("script line 2 is not a command;")],
                written: Some(0),
            },
            Run {
                script: &[Text("0 unlink /a; 64 mkdir /a;")],
                status: 3,
                says: &[Text("script line 2 is not a command;")],
                written: Some(0),
            },
            Run {
                script: &[Text("0 write /a 0 00; 0 write /a 0 0; 0 mkdir a;")],
                status: 3,
                says: &[Text("script line 2 is not a command;")],
                written: Some(0),
            },
            Run {
                script: &[Text("0 mkdir /a; 0 write /a/f 0 11*65536+;")],
                status: 3,
                says: &[Text("script line 2 is not a command;")],
                written: Some(0),
            },
            Run {
                script: &[Text("0 mkdir /a; 0 write /a/f 0 11*65536; 0 sync;")],
                status: 1,
                says: &[Text("line 2 not built;")],
                written: Some(0),
            },
            Run {
                script: &[Text("0 setstream 1; 0 setstream 3 ignore;")],
                status: 1,
                says: &[Text("line 2 not built;")],
                written: Some(0),
            },
        ],
    },
];

#[test]
fn scripts_write_what_rows_say(rt: HostRuntime) -> Result<(), Fail> {
    play(rt.alloc(), ROWS)
}
