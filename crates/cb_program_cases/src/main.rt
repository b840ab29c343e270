//! Texts that are read, files that are loaded and queries over them: each line of `cases.txt` has a word and a text, and
//! what is found there is written as a line or several. `stdout` was worked out by hand from the grammar and the rules of
//! the language.
#![tactic(auto)]

mod forms;
mod made;
mod tokens;
mod told;
mod trees;

use cb_directives::LoadError;
use cb_forms::texts::{push_debug, push_plain};
use cb_syntax::ReadError;
use cb_trial::escaped;
use cb_trial::text::push;
use std::alloc::Global;
use std::io::Write;
use std::test::Fail;
use std::{fs, io};
use told::What;

fn main(rt: HostRuntime) -> Result<(), Fail> {
    let mut out = Vec::new(rt.alloc());
    let told = tell_cases(rt, &mut out);
    let ended = finish(rt, told, out.as_slice());
    drop(out);
    ended
}

// Prints what was told, if all was.
fn finish(rt: HostRuntime, told: Result<(), Fail>, out: &[u8]) -> Result<(), Fail> {
    told?;
    io::writer(&rt).write_all(out)?;
    Ok(())
}

// Writes what the lines of the cases ask for.
fn tell_cases(rt: HostRuntime, out: &mut Vec<u8>) -> Result<(), Fail> {
    let cases = fs::read_to_string(&rt, "cases.txt")?;
    let mut file = Vec::new(rt.alloc());
    let told = tell_lines(rt.alloc(), cases.as_str(), &mut file, out);
    drop(file);
    drop(cases);
    told
}

// Writes what lines ask for. The text of a line with the word `program` is kept for the lines with `ask` behind it.
fn tell_lines(
    alloc: Global,
    cases: &str,
    file: &mut Vec<u8>,
    out: &mut Vec<u8>,
) -> Result<(), Fail> {
    for line in cases.lines() {
        tell(alloc, line, file, out)?;
    }
    Ok(())
}

// Writes what a line asks for.
fn tell(alloc: Global, line: &str, file: &mut Vec<u8>, out: &mut Vec<u8>) -> Result<(), Fail> {
    let Some((word, rest)) = line.split_once(' ') else {
        return Ok(());
    };
    if word == "program" {
        file.clear();
        push_plain(alloc, file, rest)?;
    }
    let source = escaped::plain(alloc, rest)?;
    let told = tell_source(
        alloc,
        (word, rest),
        (source.as_slice(), file.as_slice()),
        out,
    );
    drop(source);
    told
}

// Writes what a line with a word asks of its text, or of the text that was kept before it.
fn tell_source(
    alloc: Global,
    line: (&str, &str),
    texts: (&[u8], &[u8]),
    out: &mut Vec<u8>,
) -> Result<(), Fail> {
    let (word, rest) = line;
    let (source, file) = texts;
    if source.len() > 4_194_304 || file.len() > 4_194_304 {
        return Ok(());
    }
    match word {
        "tokens" => tokens::tell(alloc, source, out),
        "clauses" => forms::tell_clauses(alloc, source, out),
        "queries" => forms::tell_queries(alloc, source, out),
        "load" => told::tell(alloc, source, What::Count, out),
        "program" => told::tell(alloc, source, What::Program, out),
        "ask" => told::tell(alloc, file, What::Query(source), out),
        _ => made::tell(alloc, word, rest, out),
    }
}

// Writes why a text is refused.
fn tell_unread(alloc: Global, error: &ReadError, out: &mut Vec<u8>) -> Result<(), Fail> {
    push_debug(alloc, out, error)?;
    push(out, "\n")
}

// Writes why a program or a query is refused.
fn tell_unloaded(alloc: Global, error: &LoadError, out: &mut Vec<u8>) -> Result<(), Fail> {
    push_debug(alloc, out, error)?;
    push(out, "\n")
}
