//! Two values that threads take in turns.
//!
//! The front value stands for a history: a list of entries, each the call of one caller. The back
//! value writes batches, which the front hands over to it, and has heard of a beginning of the
//! history. A thread steps with a seat, and a seat holds each turn alone. Two counts can be read
//! without a turn: the number of entries, and the number of batches that are written.
//!
//! The crate promises that each value that is taken goes on from all that the seat has seen, that
//! what one caller entered stands in the history once, in its order and as its own, and that no
//! number that was read is ever undone. It stands on `atomic_table`. No clause says that a thread
//! that waits for a turn gets it: such a thread yields some times, then sleeps, and is woken when
//! the turn is given back.
#![tactic(auto)]

mod back;
mod front;
mod naming;
mod plays;
mod seats;
mod turns;
mod view;
mod waits;

pub use naming::{Counted, EntryOf, Naming, Written};
pub use turns::{NewFault, TurnSeat, Turns};
pub use view::{BackPhase, Ended, Firsts, FrontPhase, Place, TurnRule, View, Who};
