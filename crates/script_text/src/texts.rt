//! The texts that are printed.
ghost use Rattle.script_text.specs.Texts.{bad_image_line, bad_line_line, disk_fault_line, made_line, memory_fault_line, not_built_line, script_fault_line, too_long_line, usage_line};
ghost use Rattle.std.specs.Prelude.{◌≡◌, IfOk};

use super::writing::append_labeled;
use ccfs_base::{Bytes, NoMemory};
use std::alloc::Global;

/// What the program says where its words are no command.
pub fn usage_text() -> &'static [u8]
    ensures { result.now ≡ usage_line }
{
    b"usage: ccfs mkfs IMAGE BLOCKS INODES | run IMAGE SCRIPT | race IMAGE SCRIPT | tree IMAGE | check IMAGE | demo IMAGE START COUNT | crash BLOCKS SCRIPT CALL PICK\n"
}

/// What the program says of a script with too many bytes or lines.
pub fn too_long_text() -> &'static [u8]
    ensures { result.now ≡ too_long_line }
{
    b"script too long\n"
}

/// What the program says where the script could not be read to its end.
pub fn script_fault_text() -> &'static [u8]
    ensures { result.now ≡ script_fault_line }
{
    b"fault: script\n"
}

/// What the program says where a call of the disk failed.
pub fn disk_fault_text() -> &'static [u8]
    ensures { result.now ≡ disk_fault_line }
{
    b"fault: disk\n"
}

/// What the program says where there was not enough memory.
pub fn memory_fault_text() -> &'static [u8]
    ensures { result.now ≡ memory_fault_line }
{
    b"fault: memory\n"
}

/// What the program says of a line of the script, counted from 1, that asks for what isn't built.
pub fn not_built_text(alloc: Global, line: u32) -> Result<Bytes, NoMemory>
    ensures { IfOk result (λ text. text ≡ not_built_line line) }
{
    let mut out = Bytes::new(alloc);
    append_labeled(&mut out, b"line ", u64::from(line))?;
    out.append(b" not built\n")?;
    Ok(out)
}

/// What the program says of a line of the script, counted from 1, that is outside the grammar.
pub fn bad_line_text(alloc: Global, line: u32) -> Result<Bytes, NoMemory>
    ensures { IfOk result (λ text. text ≡ bad_line_line line) }
{
    let mut out = Bytes::new(alloc);
    append_labeled(&mut out, b"script line ", u64::from(line))?;
    out.append(b" is not a command\n")?;
    Ok(out)
}

/// What the program says of an image that stands for no tree: the kind of the first check that fails as it is spelled, and
/// the block of the image that the check is about.
pub fn bad_image_text(alloc: Global, kind: &[u8], block: u32) -> Result<Bytes, NoMemory>
    ensures { IfOk result (λ text. text ≡ bad_image_line kind.now block) }
{
    let mut out = Bytes::new(alloc);
    out.append(b"bad image ")?;
    out.append(kind)?;
    append_labeled(&mut out, b" block ", u64::from(block))?;
    out.append(b"\n")?;
    Ok(out)
}

/// What the program says of an image that it made: how many blocks, inodes and data blocks it has.
pub fn made_text(
    alloc: Global,
    blocks: u32,
    inodes: u32,
    data_blocks: u32,
) -> Result<Bytes, NoMemory>
    ensures { IfOk result (λ text. text ≡ made_line blocks inodes data_blocks) }
{
    let mut out = Bytes::new(alloc);
    append_labeled(&mut out, b"made ", u64::from(blocks))?;
    append_labeled(&mut out, b" blocks ", u64::from(inodes))?;
    append_labeled(&mut out, b" inodes ", u64::from(data_blocks))?;
    out.append(b" data blocks\n")?;
    Ok(out)
}
