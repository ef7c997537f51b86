//! What an inode is, as its record tells it.
ghost use Rattle.std.specs.Prelude.{◌≡◌, ◌+◌, ◌≤◌, ◌++◌, take, drop, slice_index, MatchResult, IfErr, Some, None};
ghost use Rattle.byteorder.specs.Endian.{little_bytes};
ghost use Rattle.inode_table.specs.Attrs.{attr_bytes, attr_of, number_at};

use byteorder::{ByteOrder, LittleEndian};
use thiserror::Error;

/// What an inode is.
#[derive(Clone, Copy, Debug, PartialEq, Eq, Drop)]
pub enum Kind {
    /// A directory.
    Dir,
    /// A file.
    File,
}

/// The attributes of an inode.
#[derive(Clone, Copy, Debug, PartialEq, Eq, Drop)]
pub struct Attr {
    /// Whether it is a directory or a file.
    pub kind: Kind,
    /// The length of a file, in bytes. A directory's is kept as it is, and means nothing.
    pub length: u64,
    /// How many changes a directory has had. A file's are kept as they are, and mean nothing.
    pub changes: u64,
}

/// A first byte of a record that stands for no kind.
#[derive(Clone, Copy, Debug, PartialEq, Eq, Drop, Error)]
#[error("no inode is of kind {given}")]
pub struct BadKind {
    /// The byte that was given.
    pub given: u8,
}

/// Where in a record the length stands.
const LENGTH: usize = 8;

/// Where in a record the changes stand.
const CHANGES: usize = 16;

/// Writes a number at this place.
fn put_number(bytes: &mut [u8; 24], place: usize, number: u64)
    requires { place + 8 ≤ 24 }
    ensures { bytes.new ≡ take place bytes.old ++ (little_bytes 8 number ++ drop (place + 8) bytes.old) }
{
    LittleEndian::write_u64(&mut bytes[place..], number);
}

/// The number at this place.
fn number_at(bytes: &[u8; 24], place: usize) -> u64
    requires { place + 8 ≤ 24 }
    ensures { result ≡ number_at place bytes.now }
{
    LittleEndian::read_u64(&bytes[place..])
}

/// The first 24 bytes of a record with these attributes. The length of a directory and the changes of a file are
/// written as well, so that the same attributes are read again whatever they are.
pub fn encode_attr(attr: &Attr) -> [u8; 24]
    ensures { result ≡ attr_bytes attr.now }
{
    let mut bytes = [0; 24];
    bytes[0] = match attr.kind {
        Kind::Dir => 1,
        Kind::File => 2,
    };
    put_number(&mut bytes, LENGTH, attr.length);
    put_number(&mut bytes, CHANGES, attr.changes);
    bytes
}

/// The attributes that the first 24 bytes of a record tell. Bytes 1 to 7 aren't looked at. The length and the changes
/// are read whatever the kind is. Answers `BadKind` with the first byte exactly where it is neither 1 nor 2.
pub fn decode_attr(bytes: &[u8; 24]) -> Result<Attr, BadKind>
    ensures read { MatchResult result (λ attr. attr_of bytes.now ≡ Some attr) (λ _. attr_of bytes.now ≡ None) }
    ensures given { IfErr result (λ bad. bad.given ≡ slice_index bytes.now 0) }
{
    let kind = match bytes[0] {
        1 => Kind::Dir,
        2 => Kind::File,
        given => return Err(BadKind { given }),
    };
    Ok(Attr {
        kind,
        length: number_at(bytes, LENGTH),
        changes: number_at(bytes, CHANGES),
    })
}
