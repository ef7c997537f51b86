//! What the ranges of a batch do to a volume: each law is the contract of a function that changes nothing.
ghost use Rattle.batch_ranges.specs.Laws.{RangesPutRecords, NumbersAreBeside};

/// The ranges of a batch leave what its records leave.
pub fn ranges_put_records()
    ensures { RangesPutRecords }
{}

/// A batch number leaves what a volume carries.
pub fn numbers_are_beside()
    ensures { NumbersAreBeside }
{}
