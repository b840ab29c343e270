//! Modules by plain numbers, and the circuit that such a module is when it is flattened.
#![tactic(auto)]

mod netlist;
mod walk;

pub use netlist::{Netlist, Part};
pub use walk::flatten;
