//! Whole runs of the top call over objects in memory. The lines of `cases.txt` say which file `F` and which input there are
//! and which of their calls fail; a line with the words of a command runs it. What it prints, its status and how much of
//! the input it left are written. `stdout` was worked out by hand from the rules of the language.
#![tactic(auto)]

mod circuits;
mod deep;
mod session;

use session::Session;
use std::alloc::Global;
use std::io::Write;
use std::test::Fail;
use std::{fs, io};

fn main(rt: HostRuntime) -> Result<(), Fail> {
    let mut session = Session::new(rt.alloc());
    let told = take_cases(rt, &mut session);
    let ended = finish(rt, told, session.out.as_slice());
    drop(session);
    ended
}

// Prints what the runs printed, if all lines were taken.
fn finish(rt: HostRuntime, told: Result<(), Fail>, out: &[u8]) -> Result<(), Fail> {
    told?;
    io::writer(&rt).write_all(out)?;
    Ok(())
}

// Takes the lines of the cases.
fn take_cases(rt: HostRuntime, session: &mut Session) -> Result<(), Fail> {
    let cases = fs::read_to_string(&rt, "cases.txt")?;
    let told = take_lines(rt.alloc(), session, cases.as_str());
    drop(cases);
    told
}

// Takes lines, one after another.
fn take_lines(alloc: Global, session: &mut Session, cases: &str) -> Result<(), Fail> {
    for line in cases.lines() {
        session.take(alloc, line)?;
    }
    Ok(())
}
