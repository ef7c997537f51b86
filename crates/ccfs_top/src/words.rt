//! The words of the command line.
ghost use Rattle.std.specs.Prelude.{◌≡◌, None, Some, slice_get, MatchOption};
ghost use Rattle.ccfs_top.specs.Asked.{is_row, number_in, IsNoSize, asked_of, asked_by};

use block_layout::Geometry;
use script_text::number;

/// What the words ask for.
#[derive(Clone, Copy, Debug, PartialEq, Eq, Drop)]
pub enum Row {
    /// An image of these sizes is made.
    Mkfs { geometry: Geometry },
    /// A script is run.
    Run,
    /// A tree is printed.
    Tree,
}

/// Whether there are so many words, of which the second is this one.
fn is_row(words: &[String], count: usize, name: &str) -> bool
    ensures { result ≡ is_row count name.now words.now }
{
    match words.get(1) {
        Some(word) => words.len() == count && word.as_str() == name,
        None => false,
    }
}

/// The number that the word at a place spells, where it is a size.
fn size_at(words: &[String], place: usize) -> Option<u32>
    ensures { MatchOption result (IsNoSize (number_in (slice_get words.now place))) (λ size. number_in (slice_get words.now place) ≡ Some size) }
{
    let word = words.get(place)?;
    u32::try_from(number(word.as_bytes())?).ok()
}

/// What the words ask for: nothing where they match no row, or no image has the sizes that they name.
pub fn row_of(words: &[String]) -> Option<Row>
    ensures { MatchOption result (asked_by words.now ≡ None) (λ row. asked_by words.now ≡ Some (asked_of row)) }
{
    if is_row(words, 3, "tree") {
        return Some(Row::Tree);
    }
    if is_row(words, 4, "run") {
        return Some(Row::Run);
    }
    if !is_row(words, 5, "mkfs") {
        return None;
    }
    let geometry = Geometry::of(size_at(words, 3)?, size_at(words, 4)?).ok()?;
    Some(Row::Mkfs { geometry })
}
