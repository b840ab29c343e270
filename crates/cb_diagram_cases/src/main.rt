//! Diagrams, the operations on them, their products and their texts, and run-time terms, tried from outside. A line of
//! `cases.txt` begins with how many nodes a store may hold; the words behind it work on a stack of its nodes, and what they
//! tell is written as a line. The words of a line of `terms.txt` work on a stack of cells,
//! and those of a line of `states.txt` on one of cells over Boolean variables. `stdout` was worked out by hand.
#![tactic(auto)]

mod desk;
mod making;
mod shown;
mod state_desk;
mod state_making;
mod state_seen;
mod states;
mod telling;
mod term_desk;
mod term_equal;
mod term_making;
mod terms;

use cb_ops::Ops;
use cb_trial::checked::end;
use cb_trial::text::push;
use desk::Desk;
use std::alloc::Global;
use std::io::Write;
use std::test::Fail;
use std::{fs, io};

fn main(rt: HostRuntime) -> Result<(), Fail> {
    let cases = fs::read_to_string(&rt, "cases.txt")?;
    let mut out = Vec::new(rt.alloc());
    for line in cases.lines() {
        tell(rt.alloc(), line, &mut out)?;
    }
    let cells = fs::read_to_string(&rt, "terms.txt")?;
    for line in cells.lines() {
        terms::tell(rt.alloc(), line, &mut out)?;
    }
    let states = fs::read_to_string(&rt, "states.txt")?;
    for line in states.lines() {
        states::tell(rt.alloc(), line, &mut out)?;
    }
    io::writer(&rt).write_all(&out)?;
    Ok(())
}

// Writes what a line asks for.
fn tell(alloc: Global, line: &str, out: &mut Vec<u8>) -> Result<(), Fail> {
    let Some((first, rest)) = line.split_once(": ") else {
        return Ok(());
    };
    match first {
        "name" => shown::tell_name(alloc, rest, out)?,
        "number" => shown::tell_number(alloc, rest, out)?,
        "value" => shown::tell_value(alloc, out)?,
        _ => tell_words(alloc, first.parse().unwrap_or(0), rest, out)?,
    }
    push(out, "\n")
}

// Writes what the words tell that work on a store for so many nodes.
fn tell_words(alloc: Global, budget: usize, words: &str, out: &mut Vec<u8>) -> Result<(), Fail> {
    let mut ops = Ops::new(alloc, budget)?;
    let told = work(alloc, &mut ops, words, out);
    end(ops);
    told
}

// Lets the words work on a store, one after another.
fn work(alloc: Global, ops: &mut Ops, words: &str, out: &mut Vec<u8>) -> Result<(), Fail> {
    let mut desk = Desk::new(alloc, ops);
    push(out, "=")?;
    for word in words.split(' ') {
        desk.take(alloc, ops, word, out)?;
    }
    Ok(())
}
