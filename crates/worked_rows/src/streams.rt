//! Streams, their seals, and what a cut has.
use super::playing::Part::Text;
use super::playing::{EMPTY, Row, SMALL, play};
use std::test::Fail;

const ROWS: &[Row] = &[
    Row {
        name: "no line",
        sizes: SMALL,
        script: &[],
        says: &[EMPTY],
    },
    Row {
        name: "what was not synced is in no cut",
        sizes: SMALL,
        script: &[Text("0 mkdir /a; 0 create /a/f")],
        says: &[Text("0 ok; 0 ok; "), EMPTY],
    },
    Row {
        name: "a synced stream is in its cut",
        sizes: SMALL,
        script: &[Text("0 mkdir /a; 0 create /a/f; 0 streamsync")],
        says: &[
            Text("0 ok; 0 ok; 0 ok 1; "),
            Text("batches 1; dir / entries 1 changes 1; dir /a entries 1 changes 1; "),
            Text("file /a/f length 0 data -"),
        ],
    },
    Row {
        name: "a stream without updates gives no seal",
        sizes: SMALL,
        script: &[Text("0 mkdir /a; 0 create /a/f; 0 streamsync; 0 streamsync")],
        says: &[
            Text("0 ok; 0 ok; 0 ok 1; 0 ok 1; "),
            Text("batches 1; dir / entries 1 changes 1; dir /a entries 1 changes 1; "),
            Text("file /a/f length 0 data -"),
        ],
    },
    Row {
        name: "a sync of one stream leaves the other",
        sizes: SMALL,
        script: &[Text("1 setstream 1; 2 setstream 2; 1 create /x; 2 create /y; 2 streamsync")],
        says: &[
            Text("1 ok; 2 ok; 1 ok; 2 ok; 2 ok 1; "),
            Text("batches 1; dir / entries 1 changes 1; file /y length 0 data -"),
        ],
    },
    Row {
        name: "an update seals the stream that it meets",
        sizes: SMALL,
        script: &[Text("1 setstream 1; 2 setstream 2; 1 mkdir /a; 2 create /a/f; 2 streamsync")],
        says: &[
            Text("1 ok; 2 ok; 1 ok; 2 ok; 2 ok 2; "),
            Text("batches 2; dir / entries 1 changes 1; dir /a entries 1 changes 1; "),
            Text("file /a/f length 0 data -"),
        ],
    },
    Row {
        name: "a flush tells that seal, and seals nothing itself",
        sizes: SMALL,
        script: &[Text("1 setstream 1; 2 setstream 2; 1 mkdir /a; 2 create /a/f; 0 flush")],
        says: &[
            Text("1 ok; 2 ok; 1 ok; 2 ok; 0 ok 1; "),
            Text("batches 1; dir / entries 1 changes 1; dir /a entries 0 changes 0"),
        ],
    },
    Row {
        name: "a flush and then the stream's sync",
        sizes: SMALL,
        script: &[
            Text("1 setstream 1; 2 setstream 2; 1 mkdir /a; 2 create /a/f; "),
            Text("0 flush; 2 streamsync"),
        ],
        says: &[
            Text("1 ok; 2 ok; 1 ok; 2 ok; 0 ok 1; 2 ok 2; "),
            Text("batches 2; dir / entries 1 changes 1; dir /a entries 1 changes 1; "),
            Text("file /a/f length 0 data -"),
        ],
    },
    Row {
        name: "writes of two streams are apart",
        sizes: SMALL,
        script: &[
            Text("0 create /p; 0 create /q; 0 sync; 1 setstream 1; 2 setstream 2; "),
            Text("1 write /p 0 aabb; 2 write /q 0 cc; 1 streamsync"),
        ],
        says: &[
            Text("0 ok; 0 ok; 0 ok 1; 1 ok; 2 ok; 1 ok; 2 ok; 1 ok 2; "),
            Text("batches 2; dir / entries 2 changes 2; "),
            Text("file /p length 2 data aabb; file /q length 0 data -"),
        ],
    },
    Row {
        name: "moves of directories to other parents meet",
        sizes: SMALL,
        script: &[
            Text("0 mkdir /a; 0 mkdir /b; 0 mkdir /c; 0 mkdir /d; 0 streamsync; "),
            Text("1 setstream 1; 2 setstream 2; "),
            Text("1 rename /a /b/a; 2 rename /c /d/c; 2 streamsync"),
        ],
        says: &[
            Text("0 ok; 0 ok; 0 ok; 0 ok; 0 ok 1; 1 ok; 2 ok; 1 ok; 2 ok; 2 ok 3; "),
            Text("batches 3; dir / entries 2 changes 6; "),
            Text("dir /b entries 1 changes 1; dir /b/a entries 0 changes 0; "),
            Text("dir /d entries 1 changes 1; dir /d/c entries 0 changes 0"),
        ],
    },
    Row {
        name: "an ignored fsync seals nothing",
        sizes: SMALL,
        script: &[Text("0 setstream 3 ignore; 0 create /f; 0 open /f; 0 fsync 0")],
        says: &[Text("0 ok; 0 ok; 0 ok 0; 0 ok; "), EMPTY],
    },
    Row {
        name: "a second setstream clears the flag",
        sizes: SMALL,
        script: &[
            Text("0 setstream 3 ignore; 0 create /f; 0 open /f; 0 fsync 0; "),
            Text("0 setstream 3; 0 fsync 0"),
        ],
        says: &[
            Text("0 ok; 0 ok; 0 ok 0; 0 ok; 0 ok; 0 ok 1; "),
            Text("batches 1; dir / entries 1 changes 1; file /f length 0 data -"),
        ],
    },
    Row {
        name: "an fsync seals the streams that changed its file",
        sizes: SMALL,
        script: &[Text("0 create /f; 1 setstream 1; 1 open /f; 1 fsync 0")],
        says: &[
            Text("0 ok; 1 ok; 1 ok 0; 1 ok 1; "),
            Text("batches 1; dir / entries 1 changes 1; file /f length 0 data -"),
        ],
    },
];

#[test]
fn streams_are_sealed_as_rows_say(rt: HostRuntime) -> Result<(), Fail> {
    play(rt.alloc(), ROWS)
}
