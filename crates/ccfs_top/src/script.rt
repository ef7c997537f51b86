//! The script, read and parsed whole.
ghost use Rattle.std.specs.Prelude.{◌≡◌, ◌⊎◌, ◌≤◌, ◌<◌, ◌++◌, ℕ, List, true, false, length, None, Ok, Err, IfOk, IsErrOf};
ghost use Rattle.std.specs.List.{All};
ghost use Rattle.ccfs_base.specs.Fits.{fits_command};
ghost use Rattle.fault_counts.specs.Counts.{Rose};
ghost use Rattle.script_text.specs.Scripts.{calls_of, first_unbuilt, is_long, IsFirstUnbuilt};
ghost use Rattle.ccfs_top.specs.Runs.{IsReady};
ghost use Rattle.ccfs_top.specs.Steady.{BySource, Unmoved};

use ccfs_base::Source;
use script_text::{Call, MOST_BYTES, ScriptFault, parse_script};
use std::alloc::Global;

/// How many bytes are asked for at once.
const PIECE: usize = 65_536;

/// Why there is nothing to perform.
#[derive(Clone, Copy, Debug, PartialEq, Eq, Drop)]
pub enum ScriptEnd {
    /// The source failed.
    Source,
    /// The script has more than 16,777,216 bytes or 65,536 lines, or its data words stand for too many bytes.
    Long,
    /// This line, the first such, isn't a command.
    BadLine { line: u32 },
    /// What this line asks for, the first such, isn't built.
    NotBuilt { line: u32 },
    /// There was no memory.
    NoMemory,
}

/// Reads the source to its end, or one byte past the most that a script may have: a longer one isn't read to its end.
fn read_script<S: Source>(alloc: Global, script: &mut S) -> Result<Vec<u8>, ScriptEnd>
    ensures whole { S.tells → IfOk result (λ text. (text.items ≡ S.left script.old) ⊎ ((16777216 < length text.items) × ((rest : List ℕ) × (S.left script.old ≡ text.items ++ rest)))) }
    ensures later { S.faults script.old ≤ S.faults script.new }
    ensures source { IsErrOf result ScriptEnd.Source → Rose (S.faults script.old) (S.faults script.new) }
    ensures source_steady { Unmoved (S.faults script.old) (S.faults script.new) (BySource result) }
    ensures not_long { IsErrOf result ScriptEnd.Long → ⊥ }
    ensures not_bad_line { (line : ℕ) → IsErrOf result (ScriptEnd.BadLine line) → ⊥ }
    ensures not_not_built { (line : ℕ) → IsErrOf result (ScriptEnd.NotBuilt line) → ⊥ }
{
    let mut text = Vec::new(alloc);
    let Ok(mut piece) = vec![in alloc; 0u8; PIECE] else {
        return Err(ScriptEnd::NoMemory);
    };
    while text.len() <= MOST_BYTES {
        let most = PIECE.min(MOST_BYTES + 1 - text.len());
        let part = &mut piece[..most];
        let Ok(count) = script.read(part) else {
            return Err(ScriptEnd::Source);
        };
        if count == 0 {
            return Ok(text);
        }
        if text.extend_from_slice(&part[..count]).is_err() {
            return Err(ScriptEnd::NoMemory);
        }
    }
    Ok(text)
}

/// The calls of the script that the source gives.
pub fn read_calls<S: Source>(alloc: Global, script: &mut S) -> Result<Vec<Call>, ScriptEnd>
    ensures ok { S.tells → IfOk result (λ calls. IsReady (S.left script.old) calls.items) }
    ensures built { IfOk result (λ calls. first_unbuilt calls.items ≡ None) }
    ensures actors { IfOk result (λ calls. All (λ call. call.actor < 64) calls.items) }
    ensures fits { IfOk result (λ calls. All (λ call. fits_command call.command ≡ true) calls.items) }
    ensures few { IfOk result (λ calls. length calls.items ≤ 65536) }
    ensures long { S.tells → IsErrOf result ScriptEnd.Long → is_long (S.left script.old) ≡ true }
    ensures bad_line { S.tells → (line : ℕ) → IsErrOf result (ScriptEnd.BadLine line) → (is_long (S.left script.old) ≡ false) × (calls_of (S.left script.old) ≡ Err line) }
    ensures not_built { S.tells → (line : ℕ) → IsErrOf result (ScriptEnd.NotBuilt line) → (is_long (S.left script.old) ≡ false) × IsFirstUnbuilt (S.left script.old) line }
    ensures later { S.faults script.old ≤ S.faults script.new }
    ensures source { IsErrOf result ScriptEnd.Source → Rose (S.faults script.old) (S.faults script.new) }
    ensures source_steady { Unmoved (S.faults script.old) (S.faults script.new) (BySource result) }
{
    let text = read_script(alloc, script)?;
    match parse_script(alloc, &text) {
        Ok(calls) => Ok(calls),
        Err(ScriptFault::Long) => Err(ScriptEnd::Long),
        Err(ScriptFault::BadLine { line }) => Err(ScriptEnd::BadLine { line }),
        Err(ScriptFault::NotBuilt { line }) => Err(ScriptEnd::NotBuilt { line }),
        Err(ScriptFault::NoMemory) => Err(ScriptEnd::NoMemory),
    }
}
