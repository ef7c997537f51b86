//! What holds of the logs of streams over one base: each law is the contract of a function that changes nothing.
ghost use Rattle.shared_meta.specs.Laws.{AnyOrder, CallsAreRecorded, SealsKeep, RangeFirstGrows};

/// The logs of the streams leave the same on the base in whatever order of the streams.
#[tactic(auto, using(crate::proofs::AreaLaws::any_order))]
pub fn any_order()
    ensures { AnyOrder }
{}

/// A call that may be made puts its record on the area as it stands.
#[tactic(auto, using(crate::proofs::AreaLaws::calls_are_recorded))]
pub fn calls_are_recorded()
    ensures { CallsAreRecorded }
{}

/// A seal leaves the area as it stands.
pub fn seals_keep()
    ensures { SealsKeep }
{}

/// What a stream has logged, in the order of its calls, is such that its ranges may go first: with `sorted_is_alike` of
/// `delta_log` what `seal` hands out does what the stream's records do in their order.
#[tactic(auto, using(crate::proofs::RangeFirst::range_first_grows))]
pub fn range_first_grows()
    ensures { RangeFirstGrows }
{}
