//! Texts that are made.

use std::alloc::Global;
use std::fmt::Write;
use std::test::Fail;

// The text of a word and a number: `gates` makes twenty modules each of which has twice the gates of the one before, and
// one that has so many gates; `wires` makes so many modules each of which uses the one before twice and has no gate;
// `chain` makes a module of so many gates, each of which takes the output of the one behind it.
pub(crate) fn text(alloc: Global, word: &str, number: u32) -> Result<String, Fail> {
    let mut text = String::new(alloc);
    if word == "gates" {
        gates(&mut text, number)?;
    }
    if word == "wires" {
        wires(&mut text, number)?;
    }
    if word == "chain" {
        chain(&mut text, number)?;
    }
    Ok(text)
}

fn gates(text: &mut String, number: u32) -> Result<(), Fail> {
    writeln!(text, "module(m0,[A],[Y],[not([A],[Y])]).")?;
    for k in 0..19 {
        let next = k + 1;
        writeln!(
            text,
            "module(m{next},[A],[Y],[m{k}([A],[X]),m{k}([X],[Y])])."
        )?;
    }
    write!(text, "module(top,[A],[],[")?;
    let mut left = number;
    let mut some = false;
    for k in 0..20 {
        if left % 2 == 1 {
            if some {
                write!(text, ",")?;
            }
            write!(text, "m{k}([A],[Y{k}])")?;
            some = true;
        }
        left /= 2;
    }
    writeln!(text, "]).")?;
    Ok(())
}

fn wires(text: &mut String, number: u32) -> Result<(), Fail> {
    writeln!(text, "module(w0,[A],[A],[]).")?;
    for k in 0..number.min(1000) {
        let next = k + 1;
        writeln!(
            text,
            "module(w{next},[A],[Y],[w{k}([X],[Y]),w{k}([A],[X])])."
        )?;
    }
    Ok(())
}

fn chain(text: &mut String, number: u32) -> Result<(), Fail> {
    let count = number.min(100_000);
    write!(text, "module(c,[N{count}],[N0],[")?;
    for k in 0..count {
        let next = k + 1;
        if k > 0 {
            write!(text, ",")?;
        }
        write!(text, "not([N{next}],[N{k}])")?;
    }
    writeln!(text, "]).")?;
    Ok(())
}
