//! Paths, handles and bytes: what is refused and what is done.
use super::playing::Part::Text;
use super::playing::{EMPTY, Row, SMALL, play};
use std::test::Fail;

const ROWS: &[Row] = &[
    Row {
        name: "a write over bytes",
        sizes: SMALL,
        script: &[
            Text("0 create /f; 0 write /f 0 11*5000; 0 streamsync; "),
            Text("0 write /f 4090 22*10; 0 streamsync; 0 read /f 4085 20"),
        ],
        says: &[
            Text("0 ok; 0 ok; 0 ok 1; 0 ok; 0 ok 2; 0 ok 1111111111+22*10+1111111111; "),
            Text("batches 2; dir / entries 1 changes 1; "),
            Text("file /f length 5000 data 11*4090+22*10+11*900"),
        ],
    },
    Row {
        name: "a write past the end",
        sizes: SMALL,
        script: &[Text("0 create /f; 0 write /f 9000 ff; 0 stat /f; 0 streamsync")],
        says: &[
            Text("0 ok; 0 ok; 0 ok file length 9001 blocks 3; 0 ok 1; "),
            Text("batches 1; dir / entries 1 changes 1; file /f length 9001 data 00*9000+ff"),
        ],
    },
    Row {
        name: "a file is removed and another made",
        sizes: SMALL,
        script: &[
            Text("0 create /f; 0 write /f 0 11*4096; 0 streamsync; "),
            Text("0 write /f 0 22*4096; 0 streamsync; 0 unlink /f; 0 streamsync; "),
            Text("0 create /g; 0 write /g 0 33*4096; 0 streamsync"),
        ],
        says: &[
            Text("0 ok; 0 ok; 0 ok 1; 0 ok; 0 ok 2; 0 ok; 0 ok 3; 0 ok; 0 ok; 0 ok 4; "),
            Text("batches 4; dir / entries 1 changes 3; file /g length 4096 data 33*4096"),
        ],
    },
    Row {
        name: "a removed file is read by its handle",
        sizes: SMALL,
        script: &[
            Text("0 create /f; 0 write /f 0 abcd; 0 open /f; 0 unlink /f; 0 hread 0 0 10; "),
            Text("0 streamsync; 0 stat /f"),
        ],
        says: &[
            Text("0 ok; 0 ok; 0 ok 0; 0 ok; 0 ok abcd; 0 ok 1; 0 refused NoEntry; "),
            Text("batches 1; dir / entries 0 changes 2"),
        ],
    },
    Row {
        name: "a removed file goes when its handle is closed",
        sizes: SMALL,
        script: &[
            Text("0 create /f; 0 write /f 0 abcd; 0 open /f; 0 unlink /f; 0 hread 0 0 10; "),
            Text("0 streamsync; 0 stat /f; 0 close 0; 0 streamsync"),
        ],
        says: &[
            Text("0 ok; 0 ok; 0 ok 0; 0 ok; 0 ok abcd; 0 ok 1; 0 refused NoEntry; "),
            Text("0 ok; 0 ok 2; batches 2; dir / entries 0 changes 2"),
        ],
    },
    Row {
        name: "a removed file is written by its handle",
        sizes: SMALL,
        script: &[
            Text("0 create /f; 0 write /f 0 abcd; 0 open /f; 0 unlink /f; 0 hread 0 0 10; "),
            Text("0 streamsync; 0 stat /f; 0 hwrite 0 2 ef; 0 hread 0 1 10; "),
            Text("0 close 0; 0 streamsync; 0 space"),
        ],
        says: &[
            Text("0 ok; 0 ok; 0 ok 0; 0 ok; 0 ok abcd; 0 ok 1; 0 refused NoEntry; "),
            Text("0 ok; 0 ok cdef; 0 ok; 0 ok 2; 0 ok free blocks 246 inodes 30; "),
            Text("batches 2; dir / entries 0 changes 2"),
        ],
    },
    Row {
        name: "two handles on a removed file are closed one by one",
        sizes: SMALL,
        script: &[
            Text("0 create /f; 0 write /f 0 abcd; 0 open /f; 1 open /f; 0 unlink /f; "),
            Text("0 streamsync; 0 space; 0 close 0; 0 streamsync; 0 space; "),
            Text("1 hread 0 0 9; 1 close 0; 0 space; 0 streamsync; 0 space; 1 hread 0 0 9"),
        ],
        says: &[
            Text("0 ok; 0 ok; 0 ok 0; 1 ok 0; 0 ok; "),
            Text("0 ok 1; 0 ok free blocks 245 inodes 29; "),
            Text("0 ok; 0 ok 1; 0 ok free blocks 245 inodes 29; "),
            Text("1 ok abcd; 1 ok; 0 ok free blocks 245 inodes 29; "),
            Text("0 ok 2; 0 ok free blocks 246 inodes 30; 1 refused BadHandle; "),
            Text("batches 2; dir / entries 0 changes 2"),
        ],
    },
    Row {
        name: "renames stop at a ring and replace files",
        sizes: SMALL,
        script: &[
            Text("0 mkdir /a; 0 rename /a /a/b; 0 rename /a /a; 0 create /f; 0 create /g; "),
            Text("1 open /g; 0 rename /f /g; 1 hread 0 0 1; 0 list / 0; 0 streamsync"),
        ],
        says: &[
            Text("0 ok; 0 refused Loop; 0 ok; 0 ok; 0 ok; 1 ok 0; 0 ok; 1 ok -; "),
            Text("0 ok 2 a/ g; 0 ok 1; batches 1; dir / entries 2 changes 5; "),
            Text("dir /a entries 0 changes 0; file /g length 0 data -"),
        ],
    },
    Row {
        name: "a rename that replaces a file changes its directory twice",
        sizes: SMALL,
        script: &[
            Text("0 mkdir /a; 0 rename /a /a/b; 0 rename /a /a; 0 create /f; 0 create /g; "),
            Text("1 open /g; 0 rename /f /g; 1 hread 0 0 1; 0 list / 0; 0 stat /; "),
            Text("0 streamsync"),
        ],
        says: &[
            Text("0 ok; 0 refused Loop; 0 ok; 0 ok; 0 ok; 1 ok 0; 0 ok; 1 ok -; "),
            Text("0 ok 2 a/ g; 0 ok dir entries 2 changes 5; 0 ok 1; "),
            Text("batches 1; dir / entries 2 changes 5; "),
            Text("dir /a entries 0 changes 0; file /g length 0 data -"),
        ],
    },
    Row {
        name: "the first check that fails is the reply",
        sizes: SMALL,
        script: &[
            Text("0 mkdir /d; 0 create /d/f; 0 create /d; 0 rmdir /d; 0 unlink /d; 0 rmdir /; "),
            Text("0 stat /x/y; 0 stat /d/f/y; 0 rmdir /d/f; 0 close 3; 0 rename /d /d/f/x"),
        ],
        says: &[
            Text("0 ok; 0 ok; 0 refused Exists; 0 refused NotEmpty; 0 refused IsDir; "),
            Text("0 refused Root; 0 refused NoEntry; 0 refused NotDir; 0 refused NotDir; "),
            Text("0 refused BadHandle; 0 refused NotDir; "),
            EMPTY,
        ],
    },
    Row {
        name: "a directory is neither written, read, resized nor opened",
        sizes: SMALL,
        script: &[
            Text("0 mkdir /d; 0 write /d 0 aa; 0 write / 4292608 aa; 0 write /d 0 -; "),
            Text("0 read /d 0 1; 0 read / 0 0; 0 resize /d 1; 0 resize / 4292609; "),
            Text("0 open /d; 0 open /; 0 write /d/x 0 aa; 0 read /x/y 0 1"),
        ],
        says: &[
            Text("0 ok; 0 refused IsDir; 0 refused IsDir; 0 refused IsDir; "),
            Text("0 refused IsDir; 0 refused IsDir; 0 refused IsDir; 0 refused IsDir; "),
            Text("0 refused IsDir; 0 refused IsDir; 0 refused NoEntry; 0 refused NoEntry; "),
            EMPTY,
        ],
    },
    Row {
        name: "no bytes are written past the greatest length",
        sizes: SMALL,
        script: &[
            Text("0 create /f; 0 open /f; 0 streamsync; 0 write /f 4292609 -; "),
            Text("0 hwrite 0 4294967295 -; 0 streamsync; 0 stat /f; 0 write /f 4292608 00"),
        ],
        says: &[
            Text("0 ok; 0 ok 0; 0 ok 1; 0 ok; 0 ok; 0 ok 1; 0 ok file length 0 blocks 0; "),
            Text("0 refused FileBig; "),
            Text("batches 1; dir / entries 1 changes 1; file /f length 0 data -"),
        ],
    },
    Row {
        name: "a resize to the same length changes nothing",
        sizes: SMALL,
        script: &[
            Text("0 create /f; 0 write /f 0 11*5000; 0 streamsync; 0 resize /f 5000; "),
            Text("0 streamsync; 0 resize /f 4999; 0 resize /f 5001; 0 streamsync; "),
            Text("0 read /f 4990 20"),
        ],
        says: &[
            Text("0 ok; 0 ok; 0 ok 1; 0 ok; 0 ok 1; 0 ok; 0 ok; 0 ok 2; 0 ok 11*9+0000; "),
            Text("batches 2; dir / entries 1 changes 1; file /f length 5001 data 11*4999+0000"),
        ],
    },
    Row {
        name: "a handle that isn't open is refused",
        sizes: SMALL,
        script: &[
            Text("0 hread 0 0 1; 0 hwrite 0 0 aa; 0 hwrite 0 4292609 -; 0 fsync 0; "),
            Text("0 create /f; 1 open /f; 0 hread 0 0 1; 0 open /f; 0 close 0; "),
            Text("0 hread 0 0 1; 0 hwrite 0 0 -; 0 fsync 0; 0 setstream 2 ignore; "),
            Text("0 fsync 0; 0 close 0; 1 fsync 0"),
        ],
        says: &[
            Text("0 refused BadHandle; 0 refused BadHandle; 0 refused BadHandle; "),
            Text("0 refused BadHandle; 0 ok; 1 ok 0; 0 refused BadHandle; 0 ok 0; 0 ok; "),
            Text("0 refused BadHandle; 0 refused BadHandle; 0 refused BadHandle; 0 ok; "),
            Text("0 refused BadHandle; 0 refused BadHandle; 1 ok 1; "),
            Text("batches 1; dir / entries 1 changes 1; file /f length 0 data -"),
        ],
    },
];

#[test]
fn commands_answer_as_rows_say(rt: HostRuntime) -> Result<(), Fail> {
    play(rt.alloc(), ROWS)
}
