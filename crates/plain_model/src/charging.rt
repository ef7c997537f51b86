//! What updates weigh and give up.
ghost use Rattle.std.specs.Prelude.{◌≡◌, ◌≤◌, ◌+◌, ◌^◌};
ghost use Rattle.ccfs_base.specs.Limits.{rounded};
ghost use Rattle.tree_model.specs.Updates.{apply};
ghost use Rattle.tree_model.specs.Weights.{lower, landed, landed_by};
ghost use Rattle.tree_cuts.specs.Calls as calls;

use super::keeping::Charge;
use tree_model::{Tree, Update};

fn lower(a: u128, b: u128) -> u128
    ensures { result ≡ lower a b }
{
    if a <= b { a } else { b }
}

/// So many bytes rounded up to a page.
fn rounded(len: u64) -> u128
    ensures { result ≡ rounded len }
{
    (u128::from(len) + 4095) / 4096 * 4096
}

/// How many of the places from one to another lie below the end of the last page of a file of that length.
fn landed(len: u64, from: u128, to: u128) -> u128
    ensures landed { result ≡ landed len from to }
    ensures few { result ≤ to }
{
    let end = rounded(len);
    lower(to, end).saturating_sub(lower(from, end))
}

/// The bytes that an update puts below the end of its file's last page.
fn landed_by(tree: &Tree, update: &Update) -> u128
    ensures landed { result ≡ landed_by tree.now update.now }
    ensures few { result ≤ 2 ^ 66 }
{
    match update {
        Update::Write { id, off, bytes } => {
            let len = tree.length(*id);
            let off = u128::from(*off);
            landed(len, lower(off, u128::from(len)), off + bytes.len() as u128)
        }
        Update::Resize { id, len } => {
            let now = tree.length(*id);
            landed(now, u128::from(now), u128::from(*len))
        }
        _ => 0,
    }
}

/// What an update is charged, by the tree before it and after it.
pub(crate) fn charge(tree: &Tree, update: &Update, after: &Tree) -> Charge
    requires { after.now ≡ apply tree.now update.now }
    ensures { result ≡ calls.charge tree.now update.now }
{
    let before = tree.live();
    let live = after.live();
    let gave_blocks = before.saturating_sub(live);
    Charge {
        weight: 512 + landed_by(tree, update) + 32 * (live.saturating_sub(before) + gave_blocks),
        gave_blocks,
        gave_rows: tree.len().saturating_sub(after.len()) as u64,
    }
}
