//! The rules of a file as clauses: the checks of each in their order, and what its head and body stand for.
#![tactic(auto)]

mod adding;
mod bodies;

pub use adding::{Given, rules};
pub use bodies::body_goals;
