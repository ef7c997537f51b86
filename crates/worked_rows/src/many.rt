//! Scripts of many lines.
use super::playing::Part::{Text, Turns};
use super::playing::{EMPTY, Row, SMALL, play};
use std::test::Fail;

const ROWS: &[Row] = &[
    Row {
        name: "an editor beside a log, before its rename",
        sizes: SMALL,
        script: &[
            Text("0 mkdir /home; 0 create /home/doc; 0 write /home/doc 0 41*12000; "),
            Text("0 create /log; 0 sync; 1 setstream 1; 2 setstream 2; "),
            Text("1 create /home/doc.tmp; 1 write /home/doc.tmp 0 42*20000; "),
            Turns {
                count: 200,
                from: 0,
                step: 50,
                text: "2 write /log @ 4c*50; 2 streamsync; ",
            },
        ],
        says: &[
            Text("0 ok; 0 ok; 0 ok; 0 ok; 0 ok 1; 1 ok; 2 ok; 1 ok; 1 ok; "),
            Turns {
                count: 200,
                from: 2,
                step: 1,
                text: "2 ok; 2 ok @; ",
            },
            Text("batches 201; dir / entries 2 changes 2; dir /home entries 1 changes 1; "),
            Text("file /home/doc length 12000 data 41*12000; "),
            Text("file /log length 10000 data 4c*10000"),
        ],
    },
    Row {
        name: "an editor beside a log",
        sizes: SMALL,
        script: &[
            Text("0 mkdir /home; 0 create /home/doc; 0 write /home/doc 0 41*12000; "),
            Text("0 create /log; 0 sync; 1 setstream 1; 2 setstream 2; "),
            Text("1 create /home/doc.tmp; 1 write /home/doc.tmp 0 42*20000; "),
            Turns {
                count: 200,
                from: 0,
                step: 50,
                text: "2 write /log @ 4c*50; 2 streamsync; ",
            },
            Text("1 rename /home/doc.tmp /home/doc; 1 streamsync"),
        ],
        says: &[
            Text("0 ok; 0 ok; 0 ok; 0 ok; 0 ok 1; 1 ok; 2 ok; 1 ok; 1 ok; "),
            Turns {
                count: 200,
                from: 2,
                step: 1,
                text: "2 ok; 2 ok @; ",
            },
            Text("1 ok; 1 ok 202; "),
            Text("batches 202; dir / entries 2 changes 2; dir /home entries 1 changes 4; "),
            Text("file /home/doc length 20000 data 42*20000; "),
            Text("file /log length 10000 data 4c*10000"),
        ],
    },
    Row {
        name: "inodes and handles run out",
        sizes: SMALL,
        script: &[
            Turns {
                count: 31,
                from: 1,
                step: 1,
                text: "0 create /f@; ",
            },
            Turns {
                count: 17,
                from: 0,
                step: 0,
                text: "0 open /f1; ",
            },
        ],
        says: &[
            Turns {
                count: 30,
                from: 0,
                step: 0,
                text: "0 ok; ",
            },
            Text("0 refused NoInode; "),
            Turns {
                count: 16,
                from: 0,
                step: 1,
                text: "0 ok @; ",
            },
            Text("0 refused HandlesFull; "),
            EMPTY,
        ],
    },
    Row {
        name: "a list tells 64 names at most",
        sizes: (1782, 96),
        script: &[
            Turns {
                count: 65,
                from: 10,
                step: 1,
                text: "0 create /@; ",
            },
            Text("0 list / 0; 0 list / 1; 0 list / 64; 0 list / 65; 0 list / 4294967295"),
        ],
        says: &[
            Turns {
                count: 65,
                from: 0,
                step: 0,
                text: "0 ok; ",
            },
            Text("0 ok 65"),
            Turns {
                count: 64,
                from: 10,
                step: 1,
                text: " @",
            },
            Text("; 0 ok 65"),
            Turns {
                count: 64,
                from: 11,
                step: 1,
                text: " @",
            },
            Text("; 0 ok 65 74; 0 ok 65; 0 ok 65; "),
            EMPTY,
        ],
    },
];

#[test]
fn many_lines_are_played_as_rows_say(rt: HostRuntime) -> Result<(), Fail> {
    play(rt.alloc(), ROWS)
}
