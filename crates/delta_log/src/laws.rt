//! What holds of records: each law is the contract of a function that changes nothing.
ghost use Rattle.delta_log.specs.Laws.{RecordsCommute, LengthStays, LogsCommute, SortedIsAlike, ReplayedTwice};

/// A record keeps the number of bytes.
#[tactic(auto, using(crate::proofs::Records::recorded_length))]
pub fn length_stays()
    ensures { LengthStays }
{}

/// Two records that don't disturb each other may be put on bytes in either order: they act on different bytes, raise one
/// counter, or set or clear different bits.
#[tactic(auto, using(crate::proofs::Records::records_comm))]
pub fn records_commute()
    ensures { RecordsCommute }
{}

/// Two logs of which no record of the one disturbs a record of the other may be put on bytes in either order.
#[tactic(auto, using(crate::proofs::Records::logs_comm))]
pub fn logs_commute()
    ensures { LogsCommute }
{}

/// The ranges of a log and then its raises and flips do what the log does in its order, where no range disturbs a raise or a
/// flip before it.
#[tactic(auto, using(crate::proofs::Sorted::sorted_alike))]
pub fn sorted_is_alike()
    ensures { SortedIsAlike }
{}

/// Ranges that are put on bytes twice leave what they leave when put on once.
#[tactic(auto, using(crate::proofs::Twice::replayed_twice))]
pub fn replayed_twice()
    ensures { ReplayedTwice }
{}
