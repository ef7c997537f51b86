//! Updates of a tree: whether they apply, and what they do.
ghost use Rattle.std.specs.Prelude.{◌≡◌, ◌+◌, IsTrue, OnOk, OnErr, nat_le};
ghost use Rattle.std.specs.FinMap as map;
ghost use Rattle.std.specs.declared.option.Option.TheVariants.{Some};
ghost use Rattle.ccfs_base.specs.Limits.{file_max};
ghost use Rattle.tree_model.specs.Rows.{parent_of, kind_of, is_kind};
ghost use Rattle.tree_model.specs.Updates.{apply};
ghost use Rattle.tree_model.specs.Tests.{applies, is_above, is_it, may_replace};
ghost use Rattle.tree_model.specs.declared.rows.Update.TheVariants as update_;

use super::keeping::Tree;
use super::node::Node;
use super::rows::{Body, Row, Update};
use ccfs_base::{Bytes, FILE_MAX, Name, NoMemory};
use std::alloc::AllocError;

/// Whether so many bytes from that place on end within the greatest length of a file.
fn fits_file(off: u64, len: usize) -> bool
    ensures { result ≡ nat_le (off + len) file_max }
{
    let len = len as u64;
    len <= FILE_MAX && off <= FILE_MAX - len
}

impl Tree {
    /// Whether the row of that serial is there and is a directory (for `is_dir` true) or a file.
    pub fn is_kind(&self, id: u32, is_dir: bool) -> bool
        ensures { result ≡ is_kind (kind_of self.now id) is_dir }
    {
        match self.row(id) {
            Some(row) => row.body.is_dir() == is_dir,
            None => false,
        }
    }

    /// The serial of the directory that a row stands in.
    fn parent(&self, id: u32) -> Option<u32>
        ensures { result ≡ parent_of self.now id }
    {
        match self.row(id) {
            Some(row) => row.parent,
            None => None,
        }
    }

    /// Whether `id` is `from` or above it, at most that many steps up.
    pub fn is_above(&self, id: u32, from: u32, steps: usize) -> bool
        ensures { result ≡ is_above steps self.now id (Some from) }
    {
        let mut at = from;
        let mut left = steps;
        while left > 0 {
            if at == id {
                return true;
            }
            match self.parent(at) {
                Some(parent) => at = parent,
                None => return false,
            }
            left -= 1;
        }
        at == id
    }

    /// Whether a row may come to that entry, in the place of this file or of none.
    fn may_replace(&self, dir: u32, name: &Name, is_dir: bool, replaced: Option<u32>) -> bool
        ensures { result ≡ may_replace self.now dir name.now is_dir replaced }
    {
        match replaced {
            Some(file) => self.entry(dir, name) == Some(file)
                && self.is_kind(file, false)
                && !is_dir,
            None => self.entry(dir, name).is_none(),
        }
    }

    /// Whether an update applies.
    pub fn applies(&self, update: &Update) -> bool
        ensures { result ≡ applies self.now update.now }
    {
        match update {
            Update::Make {
                dir,
                name,
                id,
                is_dir: _,
            } => self.is_dir(*dir) && self.entry(*dir, name).is_none() && self.row(*id).is_none(),
            Update::Write { id, off, bytes } => {
                self.is_kind(*id, false) && !bytes.is_empty() && fits_file(*off, bytes.len())
            }
            Update::Resize { id, len } => self.is_kind(*id, false) && *len <= FILE_MAX,
            Update::Remove {
                dir,
                name,
                id,
                stays,
            } => {
                self.entry(*dir, name) == Some(*id)
                    && (!self.is_dir(*id) || self.entry_count(*id) == 0 && !*stays)
            }
            Update::Move {
                dir,
                name,
                to_dir,
                to_name,
                id,
                is_dir,
                replaced,
                stays: _,
            } => {
                self.entry(*dir, name) == Some(*id)
                    && self.is_kind(*id, *is_dir)
                    && self.is_dir(*to_dir)
                    && *replaced != Some(*id)
                    && self.may_replace(*to_dir, to_name, *is_dir, *replaced)
                    && !self.is_above(*id, *to_dir, self.len())
            }
            Update::Release { id } => self.is_kind(*id, false) && self.parent(*id).is_none(),
        }
    }

    /// Makes an update. Without memory, or where a row is to be made and there are 2^32 - 1 rows already, all is as before.
    pub fn apply(&mut self, update: &Update) -> Result<(), NoMemory>
        requires { IsTrue (applies self.old update.now) }
        ensures ok { OnOk result (self.new ≡ apply self.old update.now) }
        ensures err { OnErr result (self.new ≡ self.old) }
    {
        match update {
            Update::Make {
                dir,
                name,
                id,
                is_dir,
            } => self.make(*dir, *name, *id, *is_dir),
            Update::Write { id, off, bytes } => self.write(*id, *off, bytes),
            Update::Resize { id, len } => self.resize(*id, *len),
            Update::Remove {
                dir,
                name,
                id,
                stays,
            } => {
                self.remove(*dir, *name, *id, *stays);
                Ok(())
            }
            Update::Move {
                dir,
                name,
                to_dir,
                to_name,
                id,
                is_dir,
                replaced,
                stays,
            } => self.move_row(
                *dir, name, *to_dir, to_name, *id, *is_dir, *replaced, *stays,
            ),
            Update::Release { id } => {
                self.release(*id);
                Ok(())
            }
        }
    }

    /// Puts a new row in.
    fn make(&mut self, dir: u32, name: Name, id: u32, is_dir: bool) -> Result<(), NoMemory>
        requires { IsTrue (applies self.old (update_.Make dir name id is_dir)) }
        ensures ok { OnOk result (self.new ≡ apply self.old (update_.Make dir name id is_dir)) }
        ensures err { OnErr result (self.new ≡ self.old) }
    {
        if self.nodes.len() >= u32::MAX as usize {
            return Err(AllocError);
        }
        let row = Row {
            parent: Some(dir),
            name,
            body: Body::new(self.alloc, is_dir),
        };
        self.nodes
            .put_below(dir, name, id, Node::new(self.alloc, row))
    }

    fn write(&mut self, id: u32, off: u64, bytes: &Bytes) -> Result<(), NoMemory>
        requires { IsTrue (applies self.old (update_.Write id off bytes.now)) }
        ensures ok { OnOk result (self.new ≡ apply self.old (update_.Write id off bytes.now)) }
        ensures err { OnErr result (self.new ≡ self.old) }
    {
        self.nodes.write_at(id, off as usize, bytes.all())
    }

    fn resize(&mut self, id: u32, len: u64) -> Result<(), NoMemory>
        requires { IsTrue (applies self.old (update_.Resize id len)) }
        ensures ok { OnOk result (self.new ≡ apply self.old (update_.Resize id len)) }
        ensures err { OnErr result (self.new ≡ self.old) }
    {
        self.nodes.resize(id, len as usize)
    }

    fn remove(&mut self, dir: u32, name: Name, id: u32, stays: bool)
        requires { IsTrue (applies self.old (update_.Remove dir name id stays)) }
        ensures { self.new ≡ apply self.old (update_.Remove dir name id stays) }
    {
        self.nodes.drop_entry(dir, &name);
        self.nodes.leave(id, stays);
        self.nodes.count(dir);
    }

    /// The new entry is put in first, since that alone may fail.
    fn move_row(
        &mut self,
        dir: u32,
        name: &Name,
        to_dir: u32,
        to_name: &Name,
        id: u32,
        is_dir: bool,
        replaced: Option<u32>,
        stays: bool,
    ) -> Result<(), NoMemory>
        requires { IsTrue (applies self.old (update_.Move dir name.now to_dir to_name.now id is_dir replaced stays)) }
        ensures ok { OnOk result (self.new ≡ apply self.old (update_.Move dir name.now to_dir to_name.now id is_dir replaced stays)) }
        ensures err { OnErr result (self.new ≡ self.old) }
    {
        self.nodes.put_entry(to_dir, *to_name, id)?;
        self.nodes.drop_entry(dir, name);
        self.nodes.leave_replaced(replaced, stays);
        self.nodes.place(id, to_dir, *to_name);
        self.nodes.count(dir);
        self.nodes.count(to_dir);
        Ok(())
    }

    fn release(&mut self, id: u32)
        requires { IsTrue (applies self.old (update_.Release id)) }
        ensures { self.new ≡ apply self.old (update_.Release id) }
    {
        self.nodes.take_out(id);
    }
}
