//! Written terms and goals as trees and goals whose places have their sorts, with numbers in place of names.
#![tactic(auto)]

mod exprs;
mod goals;
mod numbers;
mod skipped;
mod trees;

pub use goals::goal;
pub use numbers::Numbers;
pub use trees::{arguments, head_number};
