//! The circuits of a file: its module and specification facts, checked by the rules of circuits.
#![tactic(auto)]

mod checks;
mod circuits;
mod drivers;
mod marks;
mod netlists;
mod owners;
mod reading;

pub use circuits::Circuits;
pub use reading::{CircError, read_circuits};
