//! The keys of an update, and which updates meet.
ghost use Rattle.std.specs.Prelude.{◌≡◌, true, false, IfOk};
ghost use Rattle.std.specs.List.{filter_map, list_any};
ghost use Rattle.std.specs.Option.{option_to_list};
ghost use Rattle.tree_model.specs.Keys.{clash, keys_of, meets, replaced_key, shape_key};
ghost use Rattle.tree_model.specs.Laws.{is_changed_node, changes_node};

use super::rows::Update;
use ccfs_base::{Name, NoMemory};
use std::alloc::Global;

/// What an update changes, or needs and leaves as it is.
#[derive(Clone, Copy, Debug, PartialEq, Eq, Drop)]
pub enum Key {
    /// An entry of a directory, whether it is there or not.
    Entry {
        /// The directory's serial.
        dir: u32,
        /// The name.
        name: Name,
        /// Whether the update changes it.
        changed: bool,
    },
    /// A row.
    Node {
        /// Its serial.
        id: u32,
        /// Whether the update changes it.
        changed: bool,
    },
    /// Which directory stands below which. It is always changed.
    Shape,
}

impl Key {
    fn entry(dir: u32, name: &Name) -> Key
        ensures { result ≡ Key.Entry dir name.now true }
    {
        Key::Entry {
            dir,
            name: *name,
            changed: true,
        }
    }

    fn changed(id: u32) -> Key
        ensures { result ≡ Key.Node id true }
    {
        Key::Node { id, changed: true }
    }

    fn needed(id: u32) -> Key
        ensures { result ≡ Key.Node id false }
    {
        Key::Node { id, changed: false }
    }

    /// Whether it is the same key as another, which at least one of the two changes.
    fn clashes(&self, other: &Key) -> bool
        ensures { result ≡ clash self.now other.now }
    {
        match (self, other) {
            (
                Key::Entry { dir, name, changed },
                Key::Entry {
                    dir: to_dir,
                    name: to_name,
                    changed: too,
                },
            ) => *dir == *to_dir && *name == *to_name && (*changed || *too),
            (
                Key::Node { id, changed },
                Key::Node {
                    id: other_id,
                    changed: too,
                },
            ) => *id == *other_id && (*changed || *too),
            (Key::Shape, Key::Shape) => true,
            _ => false,
        }
    }
}

/// The keys of an update, in their order, with none between them where a move replaces no file or no directory gets
/// another parent. It takes no memory.
pub fn key_slots(update: &Update) -> [Option<Key>; 6]
    ensures { filter_map (λ slot. slot) result ≡ keys_of update.now }
{
    match update {
        Update::Make { dir, name, id, .. } | Update::Remove { dir, name, id, .. } => [
            Some(Key::entry(*dir, name)),
            Some(Key::changed(*id)),
            Some(Key::needed(*dir)),
            None,
            None,
            None,
        ],
        Update::Write { id, .. } | Update::Resize { id, .. } | Update::Release { id } => {
            [Some(Key::changed(*id)), None, None, None, None, None]
        }
        Update::Move {
            dir,
            name,
            to_dir,
            to_name,
            is_dir,
            replaced,
            ..
        } => [
            Some(Key::entry(*dir, name)),
            Some(Key::entry(*to_dir, to_name)),
            Some(Key::needed(*dir)),
            Some(Key::needed(*to_dir)),
            replaced_key(*replaced),
            shape_key(*is_dir && *dir != *to_dir),
        ],
    }
}

/// The key of the file that a move replaces.
fn replaced_key(replaced: Option<u32>) -> Option<Key>
    ensures { option_to_list result ≡ replaced_key replaced }
{
    match replaced {
        Some(file) => Some(Key::changed(file)),
        None => None,
    }
}

/// The key of the shape of the tree, where a directory gets another parent.
fn shape_key(changed: bool) -> Option<Key>
    ensures { option_to_list result ≡ shape_key changed }
{
    if changed { Some(Key::Shape) } else { None }
}

/// The keys of an update: what it changes, and what it needs and leaves as it is.
pub fn keys_of(alloc: Global, update: &Update) -> Result<Vec<Key>, NoMemory>
    ensures { IfOk result (λ keys. keys.items ≡ keys_of update.now) }
{
    let mut keys = Vec::new(alloc);
    for slot in &key_slots(update) {
        if let Some(key) = slot {
            keys.push(*key)?;
        }
    }
    Ok(keys)
}

/// Whether one of the keys in the slots clashes with this one.
fn any_clashes(slots: &[Option<Key>], key: &Key) -> bool
    ensures { result ≡ list_any (clash key.now) (filter_map (λ slot. slot) slots.now) }
{
    for slot in slots {
        if let Some(other) = slot {
            if key.clashes(other) {
                return true;
            }
        }
    }
    false
}

/// Whether it is the key of that row, and is changed.
fn is_changed_node(key: &Key, row: u32) -> bool
    ensures { result ≡ is_changed_node row key.now }
{
    match key {
        Key::Node { id, changed } => *id == row && *changed,
        _ => false,
    }
}

/// Whether one of the keys in the slots is that of the row, and is changed.
fn any_changes_node(slots: &[Option<Key>], row: u32) -> bool
    ensures { result ≡ list_any (is_changed_node row) (filter_map (λ slot. slot) slots.now) }
{
    for slot in slots {
        if let Some(key) = slot {
            if is_changed_node(key, row) {
                return true;
            }
        }
    }
    false
}

/// Whether an update changes a row as such, and not only an entry that names it. It takes no memory.
pub fn changes_node(update: &Update, row: u32) -> bool
    ensures { result ≡ changes_node row update.now }
{
    any_changes_node(&key_slots(update), row)
}

/// Whether two updates meet: they share a key that at least one of them changes. It takes no memory.
pub fn meets(a: &Update, b: &Update) -> bool
    ensures { result ≡ meets a.now b.now }
{
    let of_b = key_slots(b);
    for slot in &key_slots(a) {
        if let Some(key) = slot {
            if any_clashes(&of_b, key) {
                return true;
            }
        }
    }
    false
}
