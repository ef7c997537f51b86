//! What holds of fields, checks and trees: each law is the contract of a function that changes nothing.
ghost use Rattle.image_model.specs.Laws.{FieldsAreApart, LowestIsLowest, RowsAreThose, FreshVolumesStand, FieldsTell, RootedIsBelowTheRoot, CarryingHasTwoHalves, BareIsNoMore, BareHasNoPointers};
ghost use Rattle.image_model.specs.Volumes.{volume_of};

use block_layout::Geometry;

/// Two fields of a volume are apart, or are one.
#[tactic(auto, using(crate::proofs::Apart::fields_are_apart))]
pub fn fields_are_apart()
    ensures { FieldsAreApart }
{}

/// The lowest number that passes a test is told as such, and none is told exactly where none passes.
#[tactic(auto, using(crate::proofs::Least::lowest_is_lowest))]
pub fn lowest_is_lowest()
    ensures { LowestIsLowest }
{}

/// The rows of the numbers below a bound are just those.
#[tactic(auto, using(crate::proofs::RowsBelow::rows_are_those))]
pub fn rows_are_those()
    ensures { RowsAreThose }
{}

/// A fresh volume passes all checks, has the number 0, and stands for the root alone.
pub fn fresh_volumes_stand()
    ensures { FreshVolumesStand }
{}

/// What the metadata of a volume tells is told by its fields alone.
pub fn fields_tell(geometry: &Geometry, bytes: &[u8])
    ensures { FieldsTell (volume_of geometry.now bytes.now) }
{}

/// An inode is told to be below the root exactly where its chain of parents comes to the root, in any number of steps.
pub fn rooted_is_below_the_root()
    ensures { RootedIsBelowTheRoot }
{}

/// A whole volume carries a tree exactly where its metadata does so with some contents of files, and its blocks hold these.
pub fn carrying_has_two_halves()
    ensures { CarryingHasTwoHalves }
{}

/// Until files have bytes and may stay open without a name, what passes the checks is what passes them as they are, and
/// has no such file.
pub fn bare_is_no_more()
    ensures { BareIsNoMore }
{}

/// Until files have bytes there are no pointers, once the records are right: so each data block has to be marked as free.
pub fn bare_has_no_pointers()
    ensures { BareHasNoPointers }
{}
