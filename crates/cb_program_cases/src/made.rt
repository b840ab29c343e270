//! Texts too long for a line.

use crate::told::{self, What};
use crate::{tell_unread, tokens};
use cb_forms::forms::push_form;
use cb_syntax::read_clauses;
use cb_trial::text::{push, push_number};
use std::alloc::Global;
use std::test::Fail;

/// Writes what a text that is made from the words of a line says.
pub fn tell(alloc: Global, word: &str, rest: &str, out: &mut Vec<u8>) -> Result<(), Fail> {
    let (first, more) = rest.split_once(' ').unwrap_or((rest, ""));
    let times = first.parse::<u32>().unwrap_or(0);
    match word {
        "spaces" => tell_spaces(alloc, times, out),
        "constants" => tell_constants(alloc, times, out),
        "nested" => tell_nested(alloc, times, more, out),
        _ => Ok(()),
    }
}

// Writes the tokens of so many spaces.
fn tell_spaces(alloc: Global, times: u32, out: &mut Vec<u8>) -> Result<(), Fail> {
    if times > 4_194_304 {
        return Ok(());
    }
    let text = vec![in alloc; b' '; times as usize]?;
    let told = tell_tokens(alloc, text.as_slice(), out);
    drop(text);
    told
}

// Writes the tokens of a text.
fn tell_tokens(alloc: Global, text: &[u8], out: &mut Vec<u8>) -> Result<(), Fail> {
    if text.len() > 4_194_304 {
        return Ok(());
    }
    tokens::tell(alloc, text, out)
}

// Writes how many constants a directive with so many declares and the last, or its refusal.
fn tell_constants(alloc: Global, times: u32, out: &mut Vec<u8>) -> Result<(), Fail> {
    let mut text = Vec::new(alloc);
    let told = match push_form(
        alloc,
        &mut text,
        ":- constants c0|>, c^|.",
        "",
        times.saturating_sub(1),
    ) {
        Ok(()) => tell_declared(alloc, text.as_slice(), out),
        Err(failed) => Err(failed),
    };
    drop(text);
    told
}

// The same of a file.
fn tell_declared(alloc: Global, text: &[u8], out: &mut Vec<u8>) -> Result<(), Fail> {
    if text.len() > 4_194_304 {
        return Ok(());
    }
    told::tell(alloc, text, What::Constants, out)
}

// Writes how many clauses a fact has whose argument stands in so many brackets, or its refusal: the text before the
// argument, the argument and the text behind it are words.
fn tell_nested(alloc: Global, times: u32, words: &str, out: &mut Vec<u8>) -> Result<(), Fail> {
    let mut text = Vec::new(alloc);
    let told = match push_nested(&mut text, times, words) {
        Ok(()) => tell_read(alloc, text.as_slice(), out),
        Err(failed) => Err(failed),
    };
    drop(text);
    told
}

// Writes how many clauses a text has, or its refusal.
fn tell_read(alloc: Global, text: &[u8], out: &mut Vec<u8>) -> Result<(), Fail> {
    if text.len() > 4_194_304 {
        return Ok(());
    }
    match read_clauses(alloc, text) {
        Ok(clauses) => {
            let told = push_count(alloc, out, clauses.len());
            drop(clauses);
            told
        }
        Err(error) => tell_unread(alloc, &error, out),
    }
}

// Appends how many clauses there are.
fn push_count(alloc: Global, out: &mut Vec<u8>, count: usize) -> Result<(), Fail> {
    push_number(alloc, out, i64::try_from(count).unwrap_or(0))?;
    push(out, " clauses\n")
}

// `p(` and the first word so many times, the second, and the third so many times; in the second `;` is a new line.
fn push_nested(text: &mut Vec<u8>, times: u32, words: &str) -> Result<(), Fail> {
    let (open, more) = words.split_once(' ').unwrap_or((words, ""));
    let (inside, close) = more.split_once(' ').unwrap_or((more, ""));
    push(text, "p(")?;
    push_times(text, open, times)?;
    for byte in inside.as_bytes() {
        text.push(if *byte == b';' { b'\n' } else { *byte })?;
    }
    push_times(text, close, times)?;
    push(text, ").")
}

// A text so many times.
fn push_times(out: &mut Vec<u8>, text: &str, times: u32) -> Result<(), Fail> {
    for _ in 0..times {
        push(out, text)?;
    }
    Ok(())
}
