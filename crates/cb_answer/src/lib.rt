//! The line of an answer.
#![tactic(auto)]

mod pieces;
mod telling;

use cb_heap::Ref;
pub use pieces::{Told, line};
pub use telling::answer;

/// What a line tells.
#[derive(Clone, Copy, Drop)]
pub enum Item<'a> {
    /// A printed variable: its name, and the cell of its value.
    Var(&'a [u8], Ref),
    /// A goal that waits: the name of its predicate, and the cells of its arguments.
    Waiting(&'a [u8], &'a [Ref]),
}
