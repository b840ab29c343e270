//! The comparison of modules with specifications and with one another, by shared diagrams.
#![tactic(auto)]

use sqlite_items::Items;

mod circuits;
mod comparison;
mod differences;
mod expressions;
mod least;
mod modules;
mod nodes;
mod ordered;
mod pins;
mod places;
mod sequence;
mod unfolding;

pub use modules::{VerifyError, same, unfold, verify};

/// The verdict of a comparison.
#[derive(Debug, Drop)]
pub enum Verdict {
    /// The two sides agree on every input.
    Verified,
    /// They differ: the least input at which they do, 0 before 1 and the first bit weighing most; the least output
    /// that differs there, counted from 1; and its bits on the two sides.
    Differs {
        input: Items<bool>,
        output: u32,
        got: bool,
        wanted: bool,
    },
}
