//! What stands at a serial: its place, its bytes and its entries; and the blocks that all files take.
ghost use Rattle.std.specs.Prelude.{◌≡◌, ◌≤◌, ◌^◌, length, IfOk};
ghost use Rattle.ccfs_base.specs.Limits.{blocks};
ghost use Rattle.tree_model.specs.Rows.{place, place_of};
ghost use Rattle.tree_model.specs.Entries.{children};
ghost use Rattle.tree_model.specs.Weights.{body_bytes, bytes_at, length_at, live};
ghost use Rattle.std.specs.declared.option.Option.TheVariants.{Some};

use super::keeping::Tree;
use super::rows::{Body, Row};
use ccfs_base::{Name, NoMemory};
use std::alloc::Global;

/// How many blocks a file of any length in bytes takes.
pub fn blocks_of(len: u64) -> u64
    ensures blocks { result ≡ blocks len }
    ensures few { result ≤ 2 ^ 53 }
{
    let pages = len.div_ceil(4096);
    if pages > 24 { pages + 1 } else { pages }
}

impl Body {
    /// The bytes of a file. A directory has none.
    pub fn bytes(&self) -> &[u8]
        ensures { result.now ≡ body_bytes self.now }
    {
        match self {
            Body::Dir { .. } => &[],
            Body::File { bytes } => bytes.all(),
        }
    }
}

impl Row {
    /// Where it stands: the serial of its directory, and its name there.
    pub fn place(&self) -> Option<(u32, Name)>
        ensures { result ≡ place (Some self.now) }
    {
        match self.parent {
            Some(dir) => Some((dir, self.name)),
            None => None,
        }
    }
}

impl Tree {
    /// Where a row stands: the serial of its directory, and its name there.
    pub fn place(&self, id: u32) -> Option<(u32, Name)>
        ensures { result ≡ place_of self.now id }
    {
        match self.row(id) {
            Some(row) => row.place(),
            None => None,
        }
    }

    /// The bytes of a file. Any other row has none.
    pub fn bytes(&self, id: u32) -> &[u8]
        ensures { result.now ≡ bytes_at self.now id }
    {
        match self.row(id) {
            Some(row) => row.body.bytes(),
            None => &[],
        }
    }

    /// The length of a file in bytes.
    pub fn length(&self, id: u32) -> u64
        ensures { result ≡ length_at self.now id }
    {
        self.bytes(id).len() as u64
    }

    /// The names and serials of the entries of a directory, in byte order of the names.
    pub fn list(&self, alloc: Global, dir: u32) -> Result<Vec<(Name, u32)>, NoMemory>
        ensures { IfOk result (λ all. all.items ≡ children self.now dir) }
    {
        match self.node(dir) {
            Some(node) => node.list(alloc),
            None => Ok(Vec::new(alloc)),
        }
    }

    /// How many blocks all files take, also those without a name.
    pub fn live(&self) -> u128
        ensures sum { result ≡ live self.now }
        ensures few { result ≤ 2 ^ 85 }
    {
        self.nodes.live()
    }
}
