//! Rows with their entries, by serial.
ghost use Rattle.std.specs.Prelude.{◌≡◌, ◌+◌, ◌<◌, ◌≤◌, ◌^◌, length, IfOk, OnOk, OnErr};
ghost use Rattle.std.specs.declared.option.Option.TheVariants.{None};
ghost use Rattle.std.specs.FinMap as map;
ghost use Rattle.std.specs.Option.{option_copied};
ghost use Rattle.std.specs.List.{sum_by};
ghost use Rattle.ccfs_base.specs.Contents.{resized, written};
ghost use Rattle.ccfs_base.specs.Limits.{blocks};
ghost use Rattle.tree_model.specs.Weights.{body_bytes};
ghost use Rattle.tree_model.specs.Nodes.{entered, told, counted_node, placed_node, unplaced_node, refilled_node, with_entry, without_entry, left_in, left_over, on_node};

use super::node::Node;
use ccfs_base::{Name, NoMemory};
use std::alloc::{AllocError, Global};
use std::collections::BTreeMap;
use std::marker::Model;

/// Nodes by their serials. A contract sees them as a finite map.
#[derive(Drop)]
pub struct Nodes {
    nodes: BTreeMap<u32, Node>,
}

impl Model for Nodes {
    ghost use Rattle.std.specs.Prelude.{ℕ};
    ghost use Rattle.std.specs.FinMap as map;
    ghost use Rattle.std.specs.Coded.{coded×, coded_list, coded_ℕ};
    ghost use Rattle.std.specs.Ordering.{nat_cmp};
    ghost use Rattle.std.specs.Cmp.Lexicographic.{slice_cmp};
    ghost use Rattle.tree_model.specs.declared.rows.Row.{Row};
    ghost use Rattle.tree_model.specs.contracts.rows.Row as of_row;

    ghost Value = { map.FinMap nat_cmp (Row × map.FinMap (slice_cmp nat_cmp) ℕ) };

    ghost coded = { map.code coded_ℕ (coded× (of_row.the_row).coded (map.code (coded_list coded_ℕ) coded_ℕ)) };

    ghost view = { λ a. map.from_entries a.nodes.entries };
}

impl Nodes {
    /// No nodes. It takes no memory.
    pub fn new(alloc: Global) -> Nodes
        ensures { result ≡ map.empty }
    {
        Nodes {
            nodes: BTreeMap::new(alloc),
        }
    }

    /// How many nodes there are.
    pub fn len(&self) -> usize
        ensures { result ≡ map.len self.now }
    {
        self.nodes.len()
    }

    /// The node of that serial.
    pub fn get(&self, id: u32) -> Option<&Node>
        ensures { option_copied result ≡ map.get self.now id }
    {
        self.nodes.get(&id)
    }

    /// Puts a node in, in the place of one that has its serial. Without memory all is as before.
    pub fn put(&mut self, id: u32, node: Node) -> Result<(), NoMemory>
        ensures ok { OnOk result (self.new ≡ map.insert self.old id node) }
        ensures err { OnErr result (self.new ≡ self.old) }
    {
        match self.nodes.insert(id, node) {
            Ok(_) => Ok(()),
            Err(_) => Err(AllocError),
        }
    }

    /// Takes the node of that serial out.
    pub fn take_out(&mut self, id: u32)
        ensures { self.new ≡ map.remove self.old id }
    {
        self.nodes.remove(&id);
    }

    /// Puts an entry into a node, and counts a change of it. Without memory all is as before.
    pub fn enter(&mut self, dir: u32, name: Name, id: u32) -> Result<(), NoMemory>
        ensures ok { OnOk result (self.new ≡ on_node (entered name id) self.old dir) }
        ensures err { OnErr result (self.new ≡ self.old) }
    {
        match self.nodes.get_mut(&dir) {
            Some(node) => node.enter(name, id),
            None => Ok(()),
        }
    }

    /// Puts a node in at a free serial, and an entry of that name into the node `dir`. Without memory all is as before.
    pub fn put_below(&mut self, dir: u32, name: Name, id: u32, node: Node) -> Result<(), NoMemory>
        requires { map.get self.old id ≡ None }
        ensures ok { OnOk result (self.new ≡ on_node (entered name id) (map.insert self.old id node) dir) }
        ensures err { OnErr result (self.new ≡ self.old) }
    {
        self.put(id, node)?;
        match self.enter(dir, name, id) {
            Ok(()) => Ok(()),
            Err(failed) => {
                self.take_out(id);
                Err(failed)
            }
        }
    }

    /// Counts a change of the node, if it is a directory.
    pub fn count(&mut self, id: u32)
        ensures { self.new ≡ on_node counted_node self.old id }
    {
        if let Some(node) = self.nodes.get_mut(&id) {
            node.count();
        }
    }

    /// Gives the node's row a place.
    pub fn place(&mut self, id: u32, dir: u32, name: Name)
        ensures { self.new ≡ on_node (placed_node dir name) self.old id }
    {
        if let Some(node) = self.nodes.get_mut(&id) {
            node.place(dir, name);
        }
    }

    /// Takes the place of the node's row away.
    pub fn unplace(&mut self, id: u32)
        ensures { self.new ≡ on_node unplaced_node self.old id }
    {
        if let Some(node) = self.nodes.get_mut(&id) {
            node.unplace();
        }
    }

    /// Leaves of a removed node what is to stay: a file without a name, or nothing.
    pub fn leave(&mut self, id: u32, stays: bool)
        ensures { self.new ≡ left_in stays self.old id }
    {
        if stays {
            self.unplace(id);
        } else {
            self.take_out(id);
        }
    }

    /// The same of a node that is replaced, if there is one.
    pub fn leave_replaced(&mut self, replaced: Option<u32>, stays: bool)
        ensures { self.new ≡ left_over stays self.old replaced }
    {
        if let Some(id) = replaced {
            self.leave(id, stays);
        }
    }

    /// Takes an entry out of the node `dir`, if it is there.
    pub fn drop_entry(&mut self, dir: u32, name: &Name)
        ensures { self.new ≡ on_node (without_entry name.now) self.old dir }
    {
        if let Some(node) = self.nodes.get_mut(&dir) {
            node.drop_entry(name);
        }
    }

    /// Puts an entry into the node `dir`. Without memory all is as before.
    pub fn put_entry(&mut self, dir: u32, name: Name, id: u32) -> Result<(), NoMemory>
        ensures ok { OnOk result (self.new ≡ on_node (with_entry name id) self.old dir) }
        ensures err { OnErr result (self.new ≡ self.old) }
    {
        match self.nodes.get_mut(&dir) {
            Some(node) => node.put_entry(name, id),
            None => Ok(()),
        }
    }

    /// Cuts the file to this length in bytes, or fills it up with zeros. Without memory all is as before.
    pub fn resize(&mut self, id: u32, len: usize) -> Result<(), NoMemory>
        ensures ok { OnOk result (self.new ≡ on_node (refilled_node (resized len)) self.old id) }
        ensures err { OnErr result (self.new ≡ self.old) }
    {
        match self.nodes.get_mut(&id) {
            Some(node) => node.resize(len),
            None => Ok(()),
        }
    }

    /// Puts bytes at a place of the file. Without memory all is as before.
    pub fn write_at(&mut self, id: u32, off: usize, bytes: &[u8]) -> Result<(), NoMemory>
        requires { off + length bytes.now < 2 ^ 64 }
        ensures ok { OnOk result (self.new ≡ on_node (refilled_node (written off bytes.now)) self.old id) }
        ensures err { OnErr result (self.new ≡ self.old) }
    {
        match self.nodes.get_mut(&id) {
            Some(node) => node.write_at(off, bytes),
            None => Ok(()),
        }
    }

    /// Sets the count of changes of the node, if it is a directory.
    pub fn recount(&mut self, id: u32, count: u64)
        ensures { self.new ≡ on_node (told count) self.old id }
    {
        if let Some(node) = self.nodes.get_mut(&id) {
            node.recount(count);
        }
    }

    /// How many blocks all files take.
    pub fn live(&self) -> u128
        requires { map.len self.now < 2 ^ 32 }
        ensures sum { result ≡ sum_by (λ e. blocks (length (body_bytes e.1.0.body))) (map.entries self.now) }
        ensures few { result ≤ 2 ^ 85 }
    {
        let mut all: u128 = 0;
        for (_, node) in self.nodes.iter() {
            all += u128::from(node.blocks());
        }
        all
    }

    /// The same nodes once more.
    pub fn copy(&self, alloc: Global) -> Result<Nodes, NoMemory>
        ensures { IfOk result (λ nodes. nodes ≡ self.now) }
    {
        let mut nodes = Nodes::new(alloc);
        for (id, node) in self.nodes.iter().rev() {
            nodes.put(*id, node.copy(alloc)?)?;
        }
        Ok(nodes)
    }
}
