//! Calls that wait by the words of a delay: whether one is ready, seen from its cells, and which of those that were parked
//! have become ready (delayed goals: Naish 1985; Carlsson 1987).
#![tactic(auto)]

ghost use Rattle.cb_ready.specs.Laws.{AcceptedHaveFewWords};

mod asks;
mod delayed;
mod parked;

pub use asks::{Asks, take_woken};
pub use delayed::{is_delayed, is_ready};
pub use parked::Parked;

/// In the program of an accepted file, also with the names of a query, no name has more delay words than arguments.
pub fn words_are_few()
    ensures { AcceptedHaveFewWords }
{}
