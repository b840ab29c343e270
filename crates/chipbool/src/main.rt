//! The program: it gives the words, the files, the input and the output of the system to the top call, and ends with
//! its status.
#![tactic(auto)]

use cb_host::{HostFiles, HostInput, HostOutput};
use cb_top::{Outcome, Side, chipbool};
use std::process::ExitCode;
use std::{env, io};

fn main(rt: HostRuntime) -> ExitCode {
    let outcome = match words(&rt) {
        Ok(words) => {
            let mut files = HostFiles::new(&rt);
            let mut input = HostInput::new(rt.stdin());
            let mut out = HostOutput::new(io::writer(&rt));
            chipbool(
                rt.alloc(),
                words.as_slice(),
                &mut files,
                &mut input,
                &mut out,
            )
        }
        Err(error) => without_words(&error),
    };
    ExitCode::from(outcome.status())
}

// The words after the program's name.
fn words(rt: &HostRuntime) -> io::Result<Vec<String>> {
    let mut words = Vec::new(rt.alloc());
    for word in env::args(rt)?.skip(1) {
        words.push(word)?;
    }
    Ok(words)
}

// The outcome where the system doesn't give the words.
fn without_words(error: &io::Error) -> Outcome {
    match error.kind() {
        io::ErrorKind::OutOfMemory => Outcome::Memory,
        _ => Outcome::Fault(Side::Input),
    }
}
