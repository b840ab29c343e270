//! Texts that are made from a form.

use cb_trial::text::{push, push_number};
use std::alloc::Global;
use std::test::Fail;

/// Appends what a form says with a word and a number: its parts stand between `|`. A part that begins with `>` is written
/// for each number below this one, one with `<` for the same from the last on, one with `;` as with `>` and a comma between
/// each two, and any other part once, for this number.
pub fn push_form(
    alloc: Global,
    out: &mut Vec<u8>,
    form: &str,
    word: &str,
    number: u32,
) -> Result<(), Fail> {
    for part in form.split('|') {
        push_part(alloc, out, part.as_bytes(), word, number)?;
    }
    Ok(())
}

// Appends a part.
fn push_part(
    alloc: Global,
    out: &mut Vec<u8>,
    part: &[u8],
    word: &str,
    number: u32,
) -> Result<(), Fail> {
    match part {
        [b'>', form @ ..] => push_on(alloc, out, form, word, number),
        [b'<', form @ ..] => push_back(alloc, out, form, word, number),
        [b';', form @ ..] => push_joined(alloc, out, form, word, number),
        _ => push_filled(alloc, out, part, word, number),
    }
}

// Appends a part for each number below one.
fn push_on(
    alloc: Global,
    out: &mut Vec<u8>,
    part: &[u8],
    word: &str,
    count: u32,
) -> Result<(), Fail> {
    for number in 0..count {
        push_filled(alloc, out, part, word, number)?;
    }
    Ok(())
}

// The same, the last number first.
fn push_back(
    alloc: Global,
    out: &mut Vec<u8>,
    part: &[u8],
    word: &str,
    count: u32,
) -> Result<(), Fail> {
    for number in (0..count).rev() {
        push_filled(alloc, out, part, word, number)?;
    }
    Ok(())
}

// The same, the first number first, with a comma between each two.
fn push_joined(
    alloc: Global,
    out: &mut Vec<u8>,
    part: &[u8],
    word: &str,
    count: u32,
) -> Result<(), Fail> {
    for number in 0..count {
        push(out, if number > 0 { "," } else { "" })?;
        push_filled(alloc, out, part, word, number)?;
    }
    Ok(())
}

// Appends a part once: `@` is the number in it, `^` the next one, and `$` the word.
fn push_filled(
    alloc: Global,
    out: &mut Vec<u8>,
    part: &[u8],
    word: &str,
    number: u32,
) -> Result<(), Fail> {
    for byte in part {
        match *byte {
            b'@' => push_number(alloc, out, i64::from(number))?,
            b'^' => push_number(alloc, out, i64::from(number) + 1)?,
            b'$' => push(out, word)?,
            other => out.push(other)?,
        }
    }
    Ok(())
}
