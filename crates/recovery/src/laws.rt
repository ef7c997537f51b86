//! What holds of what images recover to: each law is the contract of a function that changes nothing.
ghost use Rattle.recovery.specs.Bad.{BadRecoverToNothing, NothingIsBad};
ghost use Rattle.recovery.specs.Recovering.{ForNowIsNoMore, CarriedTreesAreShown, HomeHoldsTheSame, MovedRecoverTheSame};

/// What an image recovers to until files have bytes and may stay open without a name, it recovers to.
pub fn for_now_is_no_more()
    ensures { ForNowIsNoMore }
{}

/// A volume that carries a tree shows its picture, whatever the serials.
pub fn carried_trees_are_shown()
    ensures { CarriedTreesAreShown }
{}

/// An image whose batches are moved home recovers to the same number and the same tree, and passes the same checks.
pub fn moved_images_recover_the_same()
    ensures held { HomeHoldsTheSame }
    ensures recovered { MovedRecoverTheSame }
{}

/// An image is bad, or it recovers to a number and a tree, and never both: of the kinds that are told, just the images that recover
/// to nothing are bad.
pub fn images_are_bad_or_recover()
    ensures never_both { BadRecoverToNothing }
    ensures one_of_both { NothingIsBad }
{}
