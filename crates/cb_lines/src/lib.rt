//! The words of the command line, the lines that are printed, and how a run ends.
#![tactic(auto)]

pub mod ended;
pub mod lines;
pub mod refusals;
pub mod words;
