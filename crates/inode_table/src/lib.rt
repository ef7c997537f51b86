//! The attribute part of inode records, and where the records stand.
//!
//! Each inode has a record of 256 bytes in the inode table. The first 24 bytes tell whether it is a directory or a file,
//! how long the file is, and how many changes the directory has had. The pointers behind them aren't told here.
//!
//! The crate stands on the places of `block_layout`, on `byteorder` for numbers as bytes, and on `thiserror` for messages.
//! It promises that attributes are written as their definition says, that exactly the bytes with one of the two kinds are
//! read, and that what is read is what was written.
#![tactic(auto)]

mod attrs;
mod laws;
mod records;

pub use attrs::{Attr, BadKind, Kind, decode_attr, encode_attr};
pub use laws::{read_is_written, written_is_read};
pub use records::{RECORD_SIZE, record_block, record_offset};
