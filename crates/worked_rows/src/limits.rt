//! Limits: the longest file, blocks that run out, and the heaviest transaction.
use super::playing::Part::Text;
use super::playing::{EMPTY, Row, SMALL, play};
use std::test::Fail;

const ROWS: &[Row] = &[
    Row {
        name: "the longest file takes 1,049 blocks",
        sizes: (1782, 32),
        script: &[
            Text("0 create /f; 0 resize /f 4292608; 0 stat /f; "),
            Text("0 write /f 4292608 00; 0 resize /f 4292609"),
        ],
        says: &[
            Text("0 ok; 0 ok; 0 ok file length 4292608 blocks 1049; "),
            Text("0 refused FileBig; 0 refused FileBig; "),
            EMPTY,
        ],
    },
    Row {
        name: "blocks that were given up are free to others once they are sealed",
        sizes: SMALL,
        script: &[
            Text("0 create /f; 0 create /g; 0 resize /f 1003520; 0 streamsync; 0 unlink /f; "),
            Text("1 setstream 1; 1 write /g 0 aa; 0 streamsync; 1 write /g 0 aa; 1 streamsync"),
        ],
        says: &[
            Text("0 ok; 0 ok; 0 ok; 0 ok 1; 0 ok; "),
            Text("1 ok; 1 refused NoSpace need 1 free 0; 0 ok 2; 1 ok; 1 ok 3; "),
            Text("batches 3; dir / entries 1 changes 3; file /g length 1 data aa"),
        ],
    },
    Row {
        name: "a stream that takes what it gave up is sealed first",
        sizes: SMALL,
        script: &[
            Text("0 create /f; 0 create /g; 0 resize /f 1003520; 0 streamsync; 0 unlink /f; "),
            Text("0 write /g 0 aa; 0 streamsync"),
        ],
        says: &[
            Text("0 ok; 0 ok; 0 ok; 0 ok 1; 0 ok; 0 ok; 0 ok 3; "),
            Text("batches 3; dir / entries 1 changes 3; file /g length 1 data aa"),
        ],
    },
    Row {
        name: "a transaction that would be too heavy is sealed first",
        sizes: SMALL,
        script: &[
            Text("0 create /f; 0 write /f 0 11*65536; 0 write /f 0 22*65536; "),
            Text("0 write /f 0 33*65536; 0 write /f 0 44*65536; 0 write /f 0 55*65536; "),
            Text("0 streamsync"),
        ],
        says: &[
            Text("0 ok; 0 ok; 0 ok; 0 ok; 0 ok; 0 ok; 0 ok 2; "),
            Text("batches 2; dir / entries 1 changes 1; file /f length 65536 data 55*65536"),
        ],
    },
];

#[test]
fn limits_are_kept_as_rows_say(rt: HostRuntime) -> Result<(), Fail> {
    play(rt.alloc(), ROWS)
}
