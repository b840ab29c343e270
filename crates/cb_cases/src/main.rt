//! Objects in memory and the adapters over those of the system, and the store of Boolean variables: each line of `cases.txt`
//! has a word and what is asked, and what comes of it is written as a line. `stdout` was worked out by hand.
#![tactic(auto)]

mod forms;
mod full;
mod joined;
mod outputs;
mod outside;
mod products;
mod setup;
mod solutions;
mod systems;
mod together;
mod trails;
mod undone;

use cb_trial::text::push;
use setup::said;
use std::alloc::Global;
use std::io::Write;
use std::test::Fail;
use std::{fs, io};

fn main(rt: HostRuntime) -> Result<(), Fail> {
    let cases = fs::read_to_string(&rt, "cases.txt")?;
    let mut out = Vec::new(rt.alloc());
    for line in cases.lines() {
        tell(rt, line, &mut out)?;
    }
    io::writer(&rt).write_all(&out)?;
    Ok(())
}

// Writes what a line asks for.
fn tell(rt: HostRuntime, line: &str, out: &mut Vec<u8>) -> Result<(), Fail> {
    let (word, rest) = line.split_once(' ').unwrap_or((line, ""));
    match word {
        "output" => outputs::tell(rt, rest, out)?,
        "store" => {
            let (what, more) = rest.split_once(' ').unwrap_or((rest, ""));
            tell_store(rt.alloc(), what, more, out)?;
        }
        _ => outside::tell(rt, word, rest, out)?,
    }
    push(out, "\n")
}

// Writes what a line asks of a store of Boolean variables.
fn tell_store(alloc: Global, what: &str, more: &str, out: &mut Vec<u8>) -> Result<(), Fail> {
    let number = more.parse().unwrap_or(0);
    match what {
        "chain" => full::tell_chain(alloc, number, out),
        "budgets" => full::tell_budgets(alloc, number, out),
        "joined" => joined::tell(alloc, number, out),
        "system" => systems::tell(alloc, more, out),
        "together" => together::tell(alloc, out),
        "form" => forms::tell(alloc, more, out),
        "product" => push(out, said(products::tried(alloc, more))),
        "solution" => push(out, said(solutions::tried(alloc, more))),
        "list" => push(out, said(trails::tried(alloc, more))),
        "undo" => push(out, said(undone::try_undo(alloc))),
        _ => push(out, said(joined::try_twice(alloc))),
    }
}
