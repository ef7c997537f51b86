//! What holds of attributes as bytes: each law is the contract of a function that changes nothing.
ghost use Rattle.std.specs.Prelude.{◌≡◌, Some};
ghost use Rattle.inode_table.specs.Attrs.{attr_bytes, attr_of, IsBare};

use super::attrs::Attr;

/// What is read from the bytes of attributes is these attributes, whatever the kind is.
pub fn written_is_read(attr: &Attr)
    ensures { attr_of (attr_bytes attr.now) ≡ Some attr.now }
{
    // No steps, but with them the proof knows that both numbers are of 64 bits.
    let _length = attr.length;
    let _changes = attr.changes;
}

/// Bytes that tell attributes are the bytes of these attributes, where bytes 1 to 7 are zero.
pub fn read_is_written(bytes: &[u8; 24], attr: &Attr)
    requires read { attr_of bytes.now ≡ Some attr.now }
    requires bare { IsBare bytes.now }
    ensures { bytes.now ≡ attr_bytes attr.now }
{
    // No step, but with a call the proof knows that each of them is a byte.
    let _ = bytes.as_slice();
}
