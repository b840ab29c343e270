//! The kinds of gates, orders, facts of circuits that are read, and circuits that are flattened: each line of `cases.txt`
//! has a word and a text or numbers, and what is found there is written as a line or several. `stdout` was worked out by
//! hand from the rules of circuits.
#![tactic(auto)]

mod gates;
mod levels;
mod made;
mod orders;
mod raw;
mod told;
mod unfolded;

use cb_trial::escaped::plain;
use std::alloc::Global;
use std::io::Write;
use std::test::Fail;
use std::{fs, io};

fn main(rt: HostRuntime) -> Result<(), Fail> {
    let cases = fs::read_to_string(&rt, "cases.txt")?;
    let mut out = Vec::new(rt.alloc());
    for line in cases.lines() {
        tell(rt.alloc(), line, &mut out)?;
    }
    io::writer(&rt).write_all(&out)?;
    Ok(())
}

// Writes what a line asks for.
fn tell(alloc: Global, line: &str, out: &mut Vec<u8>) -> Result<(), Fail> {
    let Some((word, rest)) = line.split_once(' ') else {
        return Ok(());
    };
    match word {
        "kind" => gates::tell_kind(rest, out),
        "values" => {
            let (name, ins) = rest.split_once(' ').unwrap_or((rest, ""));
            gates::tell_values(name, ins.parse().unwrap_or(9), out)
        }
        "lists" => orders::tell_lists(alloc, rest, out),
        "order" => orders::tell_order(alloc, rest, out),
        "on" | "back" | "round" => {
            orders::tell_chain(alloc, word, rest.parse().unwrap_or(0), out)
        }
        "least" => {
            let (products, text) = rest.split_once(' ').unwrap_or((rest, ""));
            levels::tell_least(alloc, products, text.as_bytes(), out)
        }
        _ => tell_text(alloc, word, rest, out),
    }
}

// Writes what a line asks for whose word is about a text.
fn tell_text(alloc: Global, word: &str, rest: &str, out: &mut Vec<u8>) -> Result<(), Fail> {
    match word {
        "heads" => raw::tell_heads(alloc, plain(alloc, rest)?.as_slice(), out),
        "facts" => told::tell_facts(alloc, plain(alloc, rest)?.as_slice(), out),
        "flat" => told::tell_flat(alloc, plain(alloc, rest)?.as_slice(), out),
        "levels" => levels::tell_levels(alloc, plain(alloc, rest)?.as_slice(), out),
        "unfold" => unfolded::tell_unfolded(alloc, plain(alloc, rest)?.as_slice(), out),
        _ => {
            let source = made::text(alloc, word, rest.parse().unwrap_or(0))?;
            told::tell_last(alloc, source.as_bytes(), out)
        }
    }
}
