//! Lines of text.

use std::alloc::Global;
use std::test::Fail;

/// Appends a text.
pub fn push(out: &mut Vec<u8>, text: &str) -> Result<(), Fail> {
    out.extend_from_slice(text.as_bytes())?;
    Ok(())
}

/// Appends a whole number.
pub fn push_number(alloc: Global, out: &mut Vec<u8>, number: i64) -> Result<(), Fail> {
    let text = format!(in alloc; "{number}")?;
    push(out, text.as_str())
}
