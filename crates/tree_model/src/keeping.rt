//! A tree as it is kept: each row with its entries, by serial.
ghost use Rattle.std.specs.Prelude.{◌≡◌, ◌^◌, ◌<◌, IfOk, IfSome, IfNone, length, []};
ghost use Rattle.std.specs.FinMap as map;
ghost use Rattle.std.specs.Option.{option_copied};
ghost use Rattle.tree_model.specs.Rows.{IsTree, is_dir_at, alone};
ghost use Rattle.tree_model.specs.Entries.{entry, children};
ghost use Rattle.tree_model.specs.Picture.{node_of};
ghost use Rattle.tree_model.specs.Updates.{recount};

use super::node::Node;
use super::nodes::Nodes;
use super::rows::{Body, Row};
use ccfs_base::{Name, NoMemory};
use std::alloc::Global;
use std::marker::Model;

/// The serial of the root.
pub const ROOT: u32 = 0;

/// A tree of files. A contract sees it as its rows by their serials; there are fewer than 2^32 of them.
#[derive(Drop)]
pub struct Tree {
    pub(crate) alloc: Global,
    pub(crate) nodes: Nodes,
}

impl Model for Tree {
    ghost use Rattle.std.specs.FinMap as map;
    ghost use Rattle.std.specs.Coded.{coded_ℕ};
    ghost use Rattle.std.specs.Ordering.{nat_cmp};
    ghost use Rattle.tree_model.specs.declared.rows.Row.{Row};
    ghost use Rattle.tree_model.specs.contracts.rows.Row as of_row;
    ghost use Rattle.tree_model.specs.Nodes.{rows_in, AreIndexed};

    ghost Value = { map.FinMap nat_cmp Row };

    ghost coded = { map.code coded_ℕ (of_row.the_row).coded };

    ghost view = { λ a. rows_in a.nodes };

    ghost invariant = { λ a. AreIndexed a.nodes };
}

impl Tree {
    /// The root alone, never changed.
    pub fn root_alone(alloc: Global) -> Result<Tree, NoMemory>
        ensures { IfOk result (λ tree. tree ≡ alone 0) }
    {
        Tree::with_root(alloc, 0)
    }

    /// The root alone, with this count of changes.
    pub fn with_root(alloc: Global, changes: u64) -> Result<Tree, NoMemory>
        ensures { IfOk result (λ tree. tree ≡ alone changes) }
    {
        let row = Row {
            parent: None,
            name: Name::empty(),
            body: Body::Dir { changes },
        };
        let mut nodes = Nodes::new(alloc);
        nodes.put(ROOT, Node::new(alloc, row))?;
        Ok(Tree { alloc, nodes })
    }

    /// A law: the rows of a `Tree` are a tree, whatever was done to it.
    pub fn is_a_tree(&self)
        ensures { IsTree self.now }
    {
        let _ = &self.nodes;
    }

    /// How many rows there are.
    pub fn len(&self) -> usize
        ensures rows { result ≡ map.len self.now }
        ensures few { result < 2 ^ 32 }
    {
        self.nodes.len()
    }

    /// The row of that serial.
    pub fn row(&self, id: u32) -> Option<&Row>
        ensures { option_copied result ≡ map.get self.now id }
    {
        match self.nodes.get(id) {
            Some(node) => Some(node.row()),
            None => None,
        }
    }

    /// Whether the row of that serial is there and is a directory.
    pub fn is_dir(&self, id: u32) -> bool
        ensures { result ≡ is_dir_at self.now id }
    {
        match self.row(id) {
            Some(row) => row.body.is_dir(),
            None => false,
        }
    }

    /// The serial of the entry of that name in a directory.
    pub fn entry(&self, dir: u32, name: &Name) -> Option<u32>
        ensures { result ≡ entry self.now dir name.now }
    {
        match self.nodes.get(dir) {
            Some(node) => node.entry(name),
            None => None,
        }
    }

    /// The row of that serial with its entries.
    pub(crate) fn node(&self, id: u32) -> Option<&Node>
        ensures node { option_copied result ≡ node_of self.now id }
        ensures none { IfNone result (children self.now id ≡ []) }
        ensures few { IfSome result (λ node. map.len node.now.1 < 2 ^ 32) }
    {
        self.nodes.get(id)
    }

    /// How many entries a directory has.
    pub fn entry_count(&self, dir: u32) -> u32
        ensures { result ≡ length (children self.now dir) }
    {
        match self.nodes.get(dir) {
            Some(node) => node.len() as u32,
            None => 0,
        }
    }

    /// Sets a directory's count of changes. Where the row is a file or isn't there, all is as before.
    pub fn with_changes(&mut self, id: u32, changes: u64)
        ensures { self.new ≡ recount self.old id changes }
    {
        self.nodes.recount(id, changes);
    }

    /// The same tree once more.
    pub fn copy(&self, alloc: Global) -> Result<Tree, NoMemory>
        ensures { IfOk result (λ tree. tree ≡ self.now) }
    {
        Ok(Tree {
            alloc,
            nodes: self.nodes.copy(alloc)?,
        })
    }
}
