//! The module and specification facts of a file in their form, with numbers in place of the names of nets.
#![tactic(auto)]

mod expressions;
mod instances;
mod modules;
mod nets;
mod terms;

pub use expressions::{RawSpec, read_spec};
pub use modules::{RawModule, read_module};
