//! The directives of a file: which constants there are, which arguments have which sorts, and which goals wait or are
//! demons.
#![tactic(auto)]

mod declarations;
mod fault;
mod file;
mod reserved;
mod terms;
mod words;

pub use declarations::Declarations;
pub use fault::LoadError;
pub use file::{declare, heads};
pub use reserved::{is_circuit, is_fail, is_module, is_spec, is_true};
pub use terms::{atom, named};
