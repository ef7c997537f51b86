//! Pictures of trees.
ghost use Rattle.std.specs.Prelude.{◌≡◌, [], ◌∷◌, ◌++◌, IfOk, OnOk, OnErr, reverse};
ghost use Rattle.std.specs.FinMap.{get};
ghost use Rattle.tree_model.specs.Picture.{head, below, picture};

use super::keeping::{ROOT, Tree};
use ccfs_base::{Bytes, Name, NoMemory};
use std::alloc::Global;
use std::marker::Model;

/// What an item of a picture shows of a row.
#[derive(Debug, Drop)]
pub enum ItemKind {
    /// A directory.
    Dir {
        /// How many entries it has.
        entries: u32,
        /// How often its entries were changed, modulo 2^64.
        changes: u64,
    },
    /// A file.
    File {
        /// All of its bytes.
        bytes: Bytes,
    },
}

/// What a picture shows of one row.
#[derive(Debug, Drop)]
pub struct Item {
    /// How many levels it is below the root, which has 0.
    pub depth: u32,
    /// Its name in its directory. The root's is empty.
    pub name: Name,
    /// What it is.
    pub kind: ItemKind,
}

impl Item {
    /// The same item once more.
    pub fn copy(&self) -> Result<Item, NoMemory>
        ensures { IfOk result (λ item. item ≡ self.now) }
    {
        let kind = match &self.kind {
            ItemKind::Dir { entries, changes } => ItemKind::Dir {
                entries: *entries,
                changes: *changes,
            },
            ItemKind::File { bytes } => ItemKind::File {
                bytes: bytes.copy()?,
            },
        };
        Ok(Item {
            depth: self.depth,
            name: self.name,
            kind,
        })
    }
}

/// The items of a tree, each directory before its entries, and these in byte order of their names. A contract sees
/// the list of them.
#[derive(Debug, Drop)]
pub struct Picture {
    kept: Vec<Item>,
}

impl Model for Picture {
    ghost use Rattle.std.specs.Prelude.{List};
    ghost use Rattle.tree_model.specs.declared.picturing.Item.{Item};

    ghost Value = { List Item };

    ghost view = { λ a. a.kept.items };
}

impl Picture {
    /// No items. It takes no memory.
    pub fn new(alloc: Global) -> Picture
        ensures { result ≡ [] }
    {
        Picture {
            kept: Vec::new(alloc),
        }
    }

    /// Puts an item last. Without memory all is as before.
    pub fn push(&mut self, item: Item) -> Result<(), NoMemory>
        ensures ok { OnOk result (self.new ≡ self.old ++ item ∷ []) }
        ensures err { OnErr result (self.new ≡ self.old) }
    {
        self.kept.push(item)?;
        Ok(())
    }

    /// All of its items.
    pub fn all(&self) -> &[Item]
        ensures { result.now ≡ self.now }
    {
        self.kept.as_slice()
    }

    /// The same picture once more.
    pub fn copy(&self, alloc: Global) -> Result<Picture, NoMemory>
        ensures { IfOk result (λ picture. picture ≡ self.now) }
    {
        let mut copy = Picture::new(alloc);
        for item in self.all() {
            copy.push(item.copy()?)?;
        }
        Ok(copy)
    }
}

impl Tree {
    /// The picture of the tree.
    pub fn picture(&self, alloc: Global) -> Result<Picture, NoMemory>
        ensures { IfOk result (λ items. items ≡ picture self.now) }
    {
        let levels = self.len() as u32;
        let mut out = Picture::new(alloc);
        // Depths and serials still to be shown, the next one last.
        let mut ahead: Vec<(u32, u32)> = Vec::new(alloc);
        ahead.push((0, ROOT))?;
        while let Some((depth, id)) = ahead.pop() {
            self.show(levels, depth, id, &mut ahead, &mut out)?;
        }
        Ok(out)
    }

    /// Shows one row, and puts its entries ahead, if it is less deep than told.
    fn show(
        &self,
        levels: u32,
        depth: u32,
        id: u32,
        ahead: &mut Vec<(u32, u32)>,
        out: &mut Picture,
    ) -> Result<(), NoMemory>
        ensures shown { OnOk result (out.new ≡ out.old ++ head self.now depth id (get self.now id)) }
        ensures ahead { OnOk result (ahead.new.items ≡ ahead.old.items ++ reverse (below levels self.now depth id)) }
    {
        if let Some(node) = self.node(id) {
            out.push(node.item(depth)?)?;
            if depth < levels {
                node.put_ahead(depth + 1, ahead)?;
            }
        }
        Ok(())
    }
}
