//! Names by number, lent from the text: constants and variables by their bytes, predicates and compounds by their
//! bytes and their number of arguments.
#![tactic(auto)]

mod names;
mod signs;
mod table;

pub use names::Names;
pub use signs::Signs;
pub use table::Table;
