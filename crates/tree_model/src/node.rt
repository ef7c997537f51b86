//! A row with its entries.
ghost use Rattle.std.specs.Prelude.{◌≡◌, ◌+◌, ◌<◌, ◌≤◌, ◌^◌, ◌++◌, length, IfOk, OnOk, OnErr, reverse, map as map_list};
ghost use Rattle.std.specs.FinMap as map;
ghost use Rattle.ccfs_base.specs.Contents.{resized, written};
ghost use Rattle.ccfs_base.specs.Limits.{blocks};
ghost use Rattle.tree_model.specs.Weights.{body_bytes};
ghost use Rattle.tree_model.specs.Nodes.{entered, told, counted_node, placed_node, unplaced_node, refilled_node, with_entry, without_entry, index_of};
ghost use Rattle.tree_model.specs.Picture.{item_kind};

use super::asking::blocks_of;
use super::picturing::{Item, ItemKind};
use super::rows::{Body, Row};
use ccfs_base::{Name, NoMemory};
use std::alloc::{AllocError, Global};
use std::collections::BTreeMap;
use std::marker::Model;

/// A row, and the serials of its entries by their names. A contract sees it as the pair of them.
#[derive(Drop)]
pub struct Node {
    row: Row,
    entries: BTreeMap<Name, u32>,
}

impl Model for Node {
    ghost use Rattle.std.specs.Prelude.{ℕ};
    ghost use Rattle.std.specs.FinMap as map;
    ghost use Rattle.std.specs.Coded.{coded×, coded_list, coded_ℕ};
    ghost use Rattle.std.specs.Ordering.{nat_cmp};
    ghost use Rattle.std.specs.Cmp.Lexicographic.{slice_cmp};
    ghost use Rattle.tree_model.specs.declared.rows.Row.{Row};
    ghost use Rattle.tree_model.specs.contracts.rows.Row as of_row;

    ghost Value = { Row × map.FinMap (slice_cmp nat_cmp) ℕ };

    ghost coded = { coded× (of_row.the_row).coded (map.code (coded_list coded_ℕ) coded_ℕ) };

    ghost view = { λ a. (a.row, map.from_entries a.entries.entries) };
}

impl Node {
    /// A row without entries.
    pub fn new(alloc: Global, row: Row) -> Node
        ensures { result ≡ (row, map.empty) }
    {
        Node {
            row,
            entries: BTreeMap::new(alloc),
        }
    }

    /// The row.
    pub fn row(&self) -> &Row
        ensures { result.now ≡ self.now.0 }
    {
        &self.row
    }

    /// The serial of the entry of that name.
    pub fn entry(&self, name: &Name) -> Option<u32>
        ensures { result ≡ map.get self.now.1 name.now }
    {
        self.entries.get(name).copied()
    }

    /// How many entries there are.
    pub fn len(&self) -> usize
        ensures { result ≡ map.len self.now.1 }
    {
        self.entries.len()
    }

    /// What a picture shows of the row at that depth.
    pub fn item(&self, depth: u32) -> Result<Item, NoMemory>
        requires { map.len self.now.1 < 2 ^ 32 }
        ensures { IfOk result (λ item. item ≡ record { depth = depth; name = self.now.0.name; kind = item_kind (map.len self.now.1) self.now.0.body }) }
    {
        let kind = match &self.row.body {
            Body::Dir { changes } => ItemKind::Dir {
                entries: self.len() as u32,
                changes: *changes,
            },
            Body::File { bytes } => ItemKind::File {
                bytes: bytes.copy()?,
            },
        };
        Ok(Item {
            depth,
            name: self.row.name,
            kind,
        })
    }

    /// Puts the entries with that depth behind what is ahead, from the last name to the first.
    pub fn put_ahead(&self, depth: u32, ahead: &mut Vec<(u32, u32)>) -> Result<(), NoMemory>
        ensures { OnOk result (ahead.new.items ≡ ahead.old.items ++ reverse (map_list (λ e. (depth, e.1)) (map.entries self.now.1))) }
    {
        for (_, id) in self.entries.iter().rev() {
            ahead.push((depth, *id))?;
        }
        Ok(())
    }

    /// How many blocks a file takes; a directory takes none.
    pub fn blocks(&self) -> u64
        ensures blocks { result ≡ blocks (length (body_bytes self.now.0.body)) }
        ensures few { result ≤ 2 ^ 53 }
    {
        blocks_of(self.row.body.bytes().len() as u64)
    }

    /// Its entries in byte order of their names.
    pub fn list(&self, alloc: Global) -> Result<Vec<(Name, u32)>, NoMemory>
        ensures { IfOk result (λ all. all.items ≡ map.entries self.now.1) }
    {
        let mut all = Vec::new(alloc);
        for (name, id) in self.entries.iter() {
            all.push((*name, *id))?;
        }
        Ok(all)
    }

    /// Sets a directory's count of changes. A file stays as it is.
    pub fn recount(&mut self, count: u64)
        ensures { self.new ≡ told count self.old }
    {
        if let Body::Dir { changes } = &mut self.row.body {
            *changes = count;
        }
    }

    /// The same row and entries once more.
    pub fn copy(&self, alloc: Global) -> Result<Node, NoMemory>
        ensures { IfOk result (λ node. node ≡ self.now) }
    {
        let mut entries = BTreeMap::new(alloc);
        for (name, id) in self.entries.iter().rev() {
            put_entry(&mut entries, *name, *id)?;
        }
        Ok(Node {
            row: self.row.copy()?,
            entries,
        })
    }

    /// Adds 1 to a directory's count of changes, modulo 2^64. A file stays as it is.
    pub fn count(&mut self)
        ensures { self.new ≡ counted_node self.old }
    {
        self.row.body.count();
    }

    /// Gives the row a place.
    pub fn place(&mut self, dir: u32, name: Name)
        ensures { self.new ≡ placed_node dir name self.old }
    {
        self.row.parent = Some(dir);
        self.row.name = name;
    }

    /// Takes the row's place away.
    pub fn unplace(&mut self)
        ensures { self.new ≡ unplaced_node self.old }
    {
        self.row.parent = None;
        self.row.name = Name::empty();
    }

    /// Takes the entry of that name out, if there is one.
    pub fn drop_entry(&mut self, name: &Name)
        ensures { self.new ≡ without_entry name.now self.old }
    {
        self.entries.remove(name);
    }

    /// Puts an entry in, in the place of one of that name. Without memory all is as before.
    pub fn put_entry(&mut self, name: Name, id: u32) -> Result<(), NoMemory>
        ensures ok { OnOk result (self.new ≡ with_entry name id self.old) }
        ensures err { OnErr result (self.new ≡ self.old) }
    {
        put_entry(&mut self.entries, name, id)
    }

    /// Cuts a file to this length in bytes, or fills it up with zeros. Without memory all is as before.
    pub fn resize(&mut self, len: usize) -> Result<(), NoMemory>
        ensures ok { OnOk result (self.new ≡ refilled_node (resized len) self.old) }
        ensures err { OnErr result (self.new ≡ self.old) }
    {
        self.row.body.resize(len)
    }

    /// Puts bytes at a place of a file. Without memory all is as before.
    pub fn write_at(&mut self, off: usize, bytes: &[u8]) -> Result<(), NoMemory>
        requires { off + length bytes.now < 2 ^ 64 }
        ensures ok { OnOk result (self.new ≡ refilled_node (written off bytes.now) self.old) }
        ensures err { OnErr result (self.new ≡ self.old) }
    {
        self.row.body.write_at(off, bytes)
    }

    /// Puts an entry in, and counts a change. Without memory all is as before.
    pub fn enter(&mut self, name: Name, id: u32) -> Result<(), NoMemory>
        ensures ok { OnOk result (self.new ≡ entered name id self.old) }
        ensures err { OnErr result (self.new ≡ self.old) }
    {
        put_entry(&mut self.entries, name, id)?;
        self.row.body.count();
        Ok(())
    }
}

/// Puts an entry into an index. Without memory all is as before.
fn put_entry(entries: &mut BTreeMap<Name, u32>, name: Name, id: u32) -> Result<(), NoMemory>
    ensures ok { OnOk result (index_of entries.new.entries ≡ map.insert (index_of entries.old.entries) name id) }
    ensures err { OnErr result (entries.new.entries ≡ entries.old.entries) }
{
    match entries.insert(name, id) {
        Ok(_) => Ok(()),
        Err(_) => Err(AllocError),
    }
}
