//! Paths: `/`, or a slash and a name once or more, in at most 4,096 bytes.
ghost use Rattle.std.specs.Prelude.{◌≡◌, ◌↔◌, ◌<◌, ◌≤◌, ◌==◌, ℕ, List, [], ◌∷◌, length, true, Some, None, IsTrue, IfOk, IfErr, IfNone, IfSome, OnSome};
ghost use Rattle.std.specs.List.{position_or_len};
ghost use Rattle.ccfs_base.specs.Names.{is_path, path_of, path_text, names_in, component_place, bad_path_place};
ghost use Rattle.ccfs_base.specs.Paths.{IsSpelled, is_slashed, first_component, behind_component};

use super::NoMemory;
use super::naming::{Name, spells_name};
use std::alloc::Global;
use std::marker::Model;
use thiserror::Error;

/// The most bytes that the text of a path has.
pub const PATH_MOST: usize = 4096;

/// A path, kept as its text. A contract sees it as the list of its names.
#[derive(Debug, Drop)]
pub struct Path {
    text: Vec<u8>,
}

impl Model for Path {
    ghost use Rattle.std.specs.Prelude.{ℕ, List};

    ghost Value = { List (List ℕ) };

    ghost use Rattle.ccfs_base.specs.Names.{names_in};
    ghost use Rattle.ccfs_base.specs.Paths.{IsPathText};

    ghost view = { λ p. names_in p.text.items };

    ghost invariant = { λ p. IsPathText p.text.items };
}

/// Why there is no path of a text.
#[derive(Clone, Copy, Debug, PartialEq, Eq, Drop, Error)]
pub enum PathFault {
    /// The text is no path. The place is 4,096 where the text is longer than that, else 0 where it doesn't begin with
    /// a slash, else the start of the first component that is no name.
    #[error("no path, at byte {place}")]
    BadPath {
        /// An index in bytes.
        place: u32,
    },
    /// Memory was wanted.
    #[error("no memory")]
    NoMemory,
}

/// The names of a path that are still to come, first to last. It takes no memory.
#[derive(Debug, Drop)]
pub struct PathNames<'a> {
    rest: &'a [u8],
}

impl<'a> Model for PathNames<'a> {
    ghost use Rattle.std.specs.Prelude.{ℕ, List};

    ghost Value = { List (List ℕ) };

    ghost use Rattle.ccfs_base.specs.Names.{names_in};
    ghost use Rattle.ccfs_base.specs.Paths.{IsSpelled};

    ghost view = { λ p. names_in p.rest.now };

    ghost invariant = { λ p. IsSpelled p.rest.now };
}

impl<'a> PathNames<'a> {
    /// The next name, taken from those still to come, or None where none is left.
    pub fn next_name(&mut self) -> Option<Name>
        ensures some { IfSome result (λ name. self.old ≡ name ∷ self.new) }
        ensures none { IfNone result ((self.old ≡ []) × (self.new ≡ [])) }
        ensures shorter { OnSome result (length self.new < length self.old) }
    {
        if self.rest.is_empty() {
            return None;
        }
        let (component, more) = cut_component(self.rest);
        let name = Name::parse(component).ok();
        self.rest = more;
        name
    }
}

/// How many bytes stand before the first slash, or all where there is none.
fn component_length(text: &[u8]) -> usize
    ensures length { result ≡ position_or_len (λ b. b == 47) text.now }
    ensures within { result ≤ length text.now }
{
    for (place, byte) in text.iter().enumerate() {
        if *byte == b'/' {
            return place;
        }
    }
    text.len()
}

/// The component behind the first byte, which is a slash, and what stands behind that.
fn cut_component(rest: &[u8]) -> (&[u8], &[u8])
    requires { 0 < length rest.now }
    ensures first { result.0.now ≡ first_component rest.now }
    ensures more { result.1.now ≡ behind_component rest.now }
{
    let after = &rest[1..];
    after.split_at(component_length(after))
}

/// The start of the first component that is no name, in a text that begins with a slash.
fn bad_component(text: &[u8]) -> Option<u32>
    requires few { length text.now ≤ 4096 }
    requires slash { IsTrue (is_slashed text.now) }
    ensures none { IfNone result (IsSpelled text.now) }
    ensures some { IfSome result (λ place. (IsSpelled text.now → ⊥) × (place ≡ component_place text.now)) }
{
    let mut rest = text;
    while !rest.is_empty() {
        let (component, more) = cut_component(rest);
        if !spells_name(component) {
            return Some((text.len() - rest.len() + 1) as u32);
        }
        rest = more;
    }
    None
}

/// Where a text fails to be a path, or None where it is one.
fn bad_place(text: &[u8]) -> Option<u32>
    ensures none { IfNone result (path_of text.now ≡ Some (names_in text.now)) }
    ensures some { IfSome result (λ place. (path_of text.now ≡ None) × (place ≡ bad_path_place text.now)) }
{
    if text.len() > PATH_MOST {
        return Some(PATH_MOST as u32);
    }
    if text.is_empty() || text[0] != b'/' {
        return Some(0);
    }
    if text.len() == 1 {
        return None;
    }
    bad_component(text)
}

impl Path {
    ghost use Rattle.ccfs_base.specs.Parsed.{Parsed};

    /// The path that a text spells. `BadPath` comes exactly where it spells none, `NoMemory` only where it spells one.
    pub fn parse(alloc: Global, text: &[u8]) -> Result<Path, PathFault>
        ensures { Parsed text.now result }
    {
        if let Some(place) = bad_place(text) {
            return Err(PathFault::BadPath { place });
        }
        match Vec::from_slice(alloc, text) {
            Ok(text) => Ok(Path { text }),
            Err(_) => Err(PathFault::NoMemory),
        }
    }

    /// Its text.
    pub fn all(&self) -> &[u8]
        ensures value { result.now ≡ path_text self.now }
        ensures path { IsTrue (is_path self.now) }
    {
        self.text.as_slice()
    }

    /// The same path once more.
    pub fn copy(&self) -> Result<Path, NoMemory>
        ensures { IfOk result (λ path. path ≡ self.now) }
    {
        Ok(Path {
            text: self.text.clone()?,
        })
    }

    /// Whether it is `/`.
    pub fn is_root(&self) -> bool
        ensures root { IsTrue result ↔ (self.now ≡ []) }
        ensures path { IsTrue (is_path self.now) }
    {
        self.text.len() == 1
    }

    /// Its names, first to last.
    pub fn names(&self) -> PathNames<'_>
        ensures { result ≡ self.now }
    {
        let text = self.text.as_slice();
        PathNames {
            rest: if text.len() == 1 { &text[1..] } else { text },
        }
    }
}

impl Clone for Path {
    ghost is_clone = { λ first second. second ≡ first };

    fn clone(&self) -> Result<Path, NoMemory> {
        self.copy()
    }
}

/// A law: names that make a path are read back from their text.
pub fn path_is_read_back()
    ensures { (ns : List (List ℕ)) → IsTrue (is_path ns) → path_of (path_text ns) ≡ Some ns }
{}
