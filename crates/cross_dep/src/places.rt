//! What a key is of, in an order.
ghost use Rattle.std.specs.Prelude.{◌≡◌};
ghost use Rattle.cross_dep.specs.Marked.{is_changed, place_of, with_changed};

use ccfs_base::Name;
use tree_model::Key;

/// What a key is of, whether an update changes it or not.
#[derive(Clone, Copy, PartialEq, Eq, PartialOrd, Ord, Drop)]
pub enum Place {
    /// An entry of a directory: the directory's serial, and the name.
    Entry(u32, Name),
    /// A row, by its serial.
    Node(u32),
    /// Which directory stands below which.
    Shape,
}

/// What the key is of.
pub fn place_of(key: &Key) -> Place
    ensures { result ≡ place_of key.now }
{
    match key {
        Key::Entry { dir, name, .. } => Place::Entry(*dir, *name),
        Key::Node { id, .. } => Place::Node(*id),
        Key::Shape => Place::Shape,
    }
}

/// Whether the key is told as changed.
pub fn is_changed(key: &Key) -> bool
    ensures { result ≡ is_changed key.now }
{
    match key {
        Key::Entry { changed, .. } | Key::Node { changed, .. } => *changed,
        Key::Shape => true,
    }
}

/// The key, told as changed where it was, or where `more` says so.
pub fn with_changed(key: &Key, more: bool) -> Key
    ensures { result ≡ with_changed key.now more }
{
    match key {
        Key::Entry { dir, name, changed } => Key::Entry {
            dir: *dir,
            name: *name,
            changed: *changed || more,
        },
        Key::Node { id, changed } => Key::Node {
            id: *id,
            changed: *changed || more,
        },
        Key::Shape => Key::Shape,
    }
}
