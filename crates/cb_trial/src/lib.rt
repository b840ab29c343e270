//! What several trials share: operations on diagrams that first test whether their nodes are there, texts with escapes,
//! texts of expressions, and lines of text.
#![tactic(auto)]

pub mod checked;
pub mod escaped;
pub mod exprs;
pub mod text;
