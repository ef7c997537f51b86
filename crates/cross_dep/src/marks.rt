//! The marks of one stream.
ghost use Rattle.std.specs.Prelude.{◌≡◌, ◌<◌, ◌≤◌, ◌+◌, ◌||◌, [], length, IfOk, OnOk, IfErr};
ghost use Rattle.std.specs.List.{list_any};
ghost use Rattle.tree_model.specs.declared.keys.Key.{Key};
ghost use Rattle.tree_model.specs.Keys.{clash};
ghost use Rattle.cross_dep.specs.Kept.{IsMarked};
ghost use Rattle.cross_dep.specs.Order.{IsAt, IsGapFor};

use super::places::{is_changed, place_of, with_changed};
use ccfs_base::NoMemory;
use std::alloc::Global;
use std::marker::Model;
use tree_model::{Key, Update, key_slots};

/// The keys that a stream's unsealed updates have, each once, told as changed where one of the updates changes it.
#[derive(Drop)]
pub struct Marks {
    // In the order of what they are of.
    keys: Vec<Key>,
}

impl Model for Marks {
    ghost use Rattle.std.specs.Prelude.{vec_capacity};
    ghost use Rattle.cross_dep.specs.Kept.{Held};
    ghost use Rattle.cross_dep.specs.Order.{Rises};

    ghost Value = { Held };

    ghost view = { λ a. record { keys = a.keys.items; places = vec_capacity a.keys } };

    ghost invariant = { λ a. Rises a.keys.items };
}

impl Marks {
    /// No marks. It takes no memory.
    pub fn new(alloc: Global) -> Marks
        ensures { result.keys ≡ [] }
    {
        Marks {
            keys: Vec::new(alloc),
        }
    }

    /// Whether one of the marks clashes with the key. It takes no memory.
    pub fn clashes(&self, key: &Key) -> bool
        ensures { result ≡ list_any (clash key.now) self.now.keys }
    {
        match self.search(key) {
            Ok(at) => is_changed(key) || is_changed(&self.keys[at]),
            Err(_) => false,
        }
    }

    /// Makes places for so many more marks. Without memory all is as before.
    pub fn reserve(&mut self, more: usize) -> Result<(), NoMemory>
        ensures keys { self.new.keys ≡ self.old.keys }
        ensures places { self.old.places ≤ self.new.places }
        ensures ok { OnOk result (length self.old.keys + more ≤ self.new.places) }
    {
        self.keys.reserve(more)
    }

    /// Marks the keys of an update. It takes no memory.
    pub fn mark_all(&mut self, update: &Update)
        requires { length self.old.keys + 6 ≤ self.old.places }
        ensures keys { IsMarked self.old.keys update.now self.new.keys }
        ensures places { self.old.places ≤ self.new.places }
    {
        for slot in &key_slots(update) {
            if let Some(key) = slot {
                self.mark(key);
            }
        }
    }

    /// Drops all marks. Their memory stays.
    pub fn clear(&mut self)
        ensures keys { self.new.keys ≡ [] }
        ensures places { self.new.places ≡ self.old.places }
    {
        self.keys.clear();
    }

    /// Marks a key.
    fn mark(&mut self, key: &Key)
        requires { length self.old.keys < self.old.places }
        ensures tells { (other : Key) → list_any (clash other) self.new.keys ≡ (list_any (clash other) self.old.keys || clash other key.now) }
        ensures few { length self.new.keys ≤ length self.old.keys + 1 }
        ensures places { self.old.places ≤ self.new.places }
    {
        match self.search(key) {
            Ok(at) => self.keys[at] = with_changed(&self.keys[at], is_changed(key)),
            Err(at) => self.keys.insert(at, *key).unwrap(),
        }
    }

    /// Where the mark of what the key is of stands, or where it would go.
    fn search(&self, key: &Key) -> Result<usize, usize>
        ensures found { IfOk result (IsAt self.now.keys key.now) }
        ensures absent { IfErr result (IsGapFor self.now.keys key.now) }
    {
        let place = place_of(key);
        self.keys
            .binary_search_by_key(&place, |mark| place_of(mark))
    }
}
