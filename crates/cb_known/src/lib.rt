//! Which names the goals of a file's rules may have: those of its clauses, those with declared sorts, and those of
//! its modules.
#![tactic(auto)]

mod facts;
mod goals;
mod modules;

pub use facts::{is_fact, is_taken};
pub use goals::has_unknown;
pub use modules::{Modules, first_atom};
