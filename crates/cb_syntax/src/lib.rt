//! Clauses and queries from text.
#![tactic(auto)]

mod lines;
mod pieces;
mod read;
mod texts;
mod token_list;

pub use texts::{ReadError, read_clauses, read_queries};
