//! What trials write: texts, numbers and values, and texts that are made from a form.
#![tactic(auto)]

pub mod forms;
pub mod texts;
