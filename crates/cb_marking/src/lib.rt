//! The sorts of the variables and equations of a rule or query: the least marking.
#![tactic(auto)]

mod goals;
mod links;
mod marking;
mod terms;
mod walk;

pub use links::Stop;
pub use marking::{Marking, mark_query, mark_rule};
