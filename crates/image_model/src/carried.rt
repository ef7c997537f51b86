//! What the records of updates carry from one tree to the next: each law is the contract of a function that changes nothing.
ghost use Rattle.image_model.specs.ChangeLaws.{UpdatesAreCarried};
ghost use Rattle.image_model.specs.CarriedLaws.{UpdatesLeaveTheRest, FreeSerialsMayChange};

/// The records of an update, put on a volume whose metadata carries the tree before it, give one whose metadata carries the tree
/// after it.
pub fn updates_are_carried()
    ensures { UpdatesAreCarried }
{}

/// The records of an update leave the volume as long as it was, and what it tells beside inodes as it was.
pub fn updates_leave_the_rest()
    ensures { UpdatesLeaveTheRest }
{}

/// A tree is carried under each list that has the same inodes for the serials that have rows.
pub fn free_serials_may_change()
    ensures { FreeSerialsMayChange }
{}
