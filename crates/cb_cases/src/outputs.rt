//! Outputs of the system.

use crate::outside::push_write;
use cb_host::{HostOutput, Sink};
use cb_trial::text::push;
use std::io::{Read, Write};
use std::test::Fail;
use std::{fs, io};

/// Writes what comes of a line's word: an output whose reader ends, one that is full, or one that takes nothing.
pub fn tell(rt: HostRuntime, word: &str, out: &mut Vec<u8>) -> Result<(), Fail> {
    match word {
        "pipe" => tell_pipe(rt, out),
        "full" => tell_full(rt, out),
        _ => tell_nothing(out),
    }
}

// Writes `abc` to a pipe, tells what its reader reads, ends the reader, and writes again.
fn tell_pipe(rt: HostRuntime, out: &mut Vec<u8>) -> Result<(), Fail> {
    let (mut reader, writer) = io::pipe(&rt)?;
    let mut output = HostOutput::new(writer);
    let told = tell_passed(&mut output, &mut reader, out);
    drop(reader);
    told?;
    push_write(&mut output, b"abc", out)
}

// Writes `abc`, and tells what the reader reads.
fn tell_passed<S: Sink, R: Read>(
    output: &mut S,
    reader: &mut R,
    out: &mut Vec<u8>,
) -> Result<(), Fail> {
    push_write(output, b"abc", out)?;
    push_read(reader, out)
}

// Reads once, and tells what the buffer holds then.
fn push_read<R: Read>(reader: &mut R, out: &mut Vec<u8>) -> Result<(), Fail> {
    let mut buffer = [b'.'; 4];
    let count = reader.read(&mut buffer)?;
    push(out, if count == 3 { " three '" } else { " '" })?;
    out.extend_from_slice(&buffer)?;
    push(out, "' ")
}

// Writes `abc` to a device that is full.
fn tell_full(rt: HostRuntime, out: &mut Vec<u8>) -> Result<(), Fail> {
    let mut full = HostOutput::new(fs::create(&rt, "/dev/full")?);
    let told = push_write(&mut full, b"abc", out);
    drop(full);
    told
}

// A writer that takes nothing.
#[derive(Drop)]
struct Nothing;

impl Write for Nothing {
    fn write(&mut self, _buf: &[u8]) -> io::Result<usize> {
        Ok(0)
    }

    fn flush(&mut self) -> io::Result<()> {
        Ok(())
    }
}

// Writes an empty piece and then `abc` to an output that takes nothing.
fn tell_nothing(out: &mut Vec<u8>) -> Result<(), Fail> {
    let mut nothing = HostOutput::new(Nothing);
    push(
        out,
        if nothing.write(b"") == Ok(0) {
            "none "
        } else {
            "other "
        },
    )?;
    push_write(&mut nothing, b"abc", out)
}
