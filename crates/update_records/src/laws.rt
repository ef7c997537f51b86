//! What the records of batches carry: each law is the contract of a function that changes nothing.
ghost use Rattle.update_records.specs.BatchLaws.{BatchesAreCarried};
ghost use Rattle.update_records.specs.CutLaws.{CutsAreCarried};

/// The records of updates that follow each other, put on a volume whose metadata carries the tree before them, give one whose
/// metadata carries the tree after all of them, and leave what it tells beside inodes as it was.
pub fn batches_are_carried()
    ensures { BatchesAreCarried }
{}

/// The records of the batch between two cuts of a run take a volume whose metadata carries the tree of the one to one whose
/// metadata carries that of the other.
pub fn cuts_are_carried()
    ensures { CutsAreCarried }
{}
