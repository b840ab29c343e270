//! The names that rules and queries ask for, each with its number of arguments, by number.
#![tactic(auto)]

mod clauses;
mod terms;

pub use clauses::clause_names;
pub use terms::add_goals;
