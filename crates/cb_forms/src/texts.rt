//! Texts, numbers and values.

use cb_trial::escaped::plain;
use cb_trial::text::push;
use std::alloc::Global;
use std::fmt::Debug;
use std::io::Write;
use std::test::Fail;

/// Appends a text and a number behind it.
pub fn push_numbered(out: &mut Vec<u8>, text: &str, number: u32) -> Result<(), Fail> {
    push(out, text)?;
    write!(out, "{number}")?;
    Ok(())
}

/// Appends a value as its derived text is.
pub fn push_debug<T: Debug>(alloc: Global, out: &mut Vec<u8>, value: &T) -> Result<(), Fail> {
    let text = format!(in alloc; "{value:?}")?;
    push(out, text.as_str())
}

/// Appends the bytes of a text with escapes.
pub fn push_plain(alloc: Global, out: &mut Vec<u8>, text: &str) -> Result<(), Fail> {
    let bytes = plain(alloc, text)?;
    let pushed = out.extend_from_slice(bytes.as_slice());
    drop(bytes);
    pushed?;
    Ok(())
}
