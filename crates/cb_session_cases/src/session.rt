//! Runs one after another, with the file, the input and the failing calls that were set before them.

use crate::circuits::{push_adder, push_comparator, push_row, push_tower};
use crate::deep::{push_chain, push_constants, push_product};
use cb_forms::texts::{push_numbered, push_plain};
use cb_host::{Load, MemFiles, MemSink, MemSource, read_within};
use cb_top::chipbool;
use cb_trial::text::push;
use std::alloc::Global;
use std::test::Fail;

/// What is set for the next runs, and what was written so far.
#[derive(Drop)]
pub struct Session {
    file: Vec<u8>,
    input: Vec<u8>,
    // The number of the read that fails, and of the write that does; 0 for none.
    read: u64,
    write: u64,
    /// What the runs printed, with their statuses.
    pub out: Vec<u8>,
}

impl Session {
    /// No file, no input, no failing call.
    pub fn new(alloc: Global) -> Session {
        Session {
            file: Vec::new(alloc),
            input: Vec::new(alloc),
            read: 0,
            write: 0,
            out: Vec::new(alloc),
        }
    }

    /// Takes one line: a word, and what it is about.
    pub fn take(&mut self, alloc: Global, line: &str) -> Result<(), Fail> {
        let (word, rest) = line.split_once(' ').unwrap_or((line, ""));
        match word {
            "failing_read" => {
                self.read = number(rest);
                Ok(())
            }
            "failing_write" => {
                self.write = number(rest);
                Ok(())
            }
            "words" => self.run(alloc, rest),
            "long_words" => self.run_long(alloc, rest),
            "each_write" => self.run_with_each_write(alloc, rest),
            _ => self.set(alloc, word, rest),
        }
    }

    // Sets the file or the input; another word says nothing.
    fn set(&mut self, alloc: Global, word: &str, rest: &str) -> Result<(), Fail> {
        if word.starts_with("file") {
            self.file.clear();
            return push_file(alloc, &mut self.file, word, rest);
        }
        if word.starts_with("input") {
            self.input.clear();
            return push_input(alloc, &mut self.input, word, rest);
        }
        Ok(())
    }

    // Runs words, and writes what they print, their status and how many bytes of the input are left.
    fn run(&mut self, alloc: Global, line: &str) -> Result<(), Fail> {
        let mut out = MemSink::new(alloc, 20_000, 7, [self.write].to_vec(alloc)?)?;
        let told = self.run_into(alloc, line, &mut out);
        drop(out);
        told
    }

    // The same over a sink.
    fn run_into(&mut self, alloc: Global, line: &str, out: &mut MemSink) -> Result<(), Fail> {
        let mut input = source(alloc, self.input.as_slice(), [self.read].as_slice())?;
        let status = status_of(alloc, line, self.file.as_slice(), &mut input, out);
        let rest = rest_of(alloc, &mut input);
        drop(input);
        let status = status?;
        self.out.extend_from_slice(out.written())?;
        push_numbered(&mut self.out, "status ", u32::from(status))?;
        push_numbered(&mut self.out, ", left ", rest)?;
        push(&mut self.out, "\n")
    }

    // Runs words, and writes the first 40 bytes of what they print, how many bytes that is, and their status.
    fn run_long(&mut self, alloc: Global, line: &str) -> Result<(), Fail> {
        let mut out = MemSink::new(alloc, 2_000_000, 100_000, Vec::new(alloc))?;
        let told = self.run_long_into(alloc, line, &mut out);
        drop(out);
        told
    }

    // The same over a sink.
    fn run_long_into(&mut self, alloc: Global, line: &str, out: &mut MemSink) -> Result<(), Fail> {
        let status = self.status(alloc, line, out)?;
        let printed = out.written();
        let length = printed.len();
        self.out.extend_from_slice(&printed[..length.min(40)])?;
        push_numbered(
            &mut self.out,
            "|",
            u32::try_from(length).unwrap_or(u32::MAX),
        )?;
        push_numbered(&mut self.out, " bytes, status ", u32::from(status))?;
        push(&mut self.out, "\n")
    }

    // Runs words over a sink that takes a byte a call, with the first write failing, the second, and so on until the run
    // makes no such write; writes what each run printed, as a line of its own, and the statuses of the runs.
    fn run_with_each_write(&mut self, alloc: Global, line: &str) -> Result<(), Fail> {
        for k in 1..1000 {
            if self.run_with_write(alloc, line, k)? != 4 {
                break;
            }
        }
        Ok(())
    }

    // The same with the write of one number failing; the status.
    fn run_with_write(&mut self, alloc: Global, line: &str, k: u64) -> Result<u8, Fail> {
        let mut out = MemSink::new(alloc, 1000, 1, [k].to_vec(alloc)?)?;
        let status = self.run_short_into(alloc, line, &mut out);
        drop(out);
        status
    }

    // The same over a sink.
    fn run_short_into(&mut self, alloc: Global, line: &str, out: &mut MemSink) -> Result<u8, Fail> {
        let status = self.status(alloc, line, out)?;
        self.out.extend_from_slice(out.written())?;
        push_numbered(&mut self.out, "|", u32::from(status))?;
        push(&mut self.out, "\n")?;
        Ok(status)
    }

    // The status of a run over the file and the input, none of whose reads fails.
    fn status(&self, alloc: Global, line: &str, out: &mut MemSink) -> Result<u8, Fail> {
        let mut input = source(alloc, self.input.as_slice(), [].as_slice())?;
        let status = status_of(alloc, line, self.file.as_slice(), &mut input, out);
        drop(input);
        status
    }
}

// A source of these bytes, whose calls with these numbers fail.
fn source(alloc: Global, bytes: &[u8], failing: &[u64]) -> Result<MemSource, Fail> {
    let failing = failing.to_vec(alloc)?;
    let bytes = bytes.to_vec(alloc)?;
    Ok(MemSource::new(bytes, 1000, failing))
}

// The status of a run whose file `F` has these bytes.
fn status_of(
    alloc: Global,
    line: &str,
    file: &[u8],
    input: &mut MemSource,
    out: &mut MemSink,
) -> Result<u8, Fail> {
    let mut words = Vec::new(alloc);
    let status = match push_words(alloc, line, &mut words) {
        Ok(()) => status_over(alloc, words.as_slice(), file, input, out),
        Err(error) => Err(error),
    };
    drop(words);
    status
}

// Appends the words of a line.
fn push_words(alloc: Global, line: &str, words: &mut Vec<String>) -> Result<(), Fail> {
    for word in line.split_whitespace() {
        words.push(String::from_str(alloc, word)?)?;
    }
    Ok(())
}

// The status of a run of these words.
fn status_over(
    alloc: Global,
    words: &[String],
    file: &[u8],
    input: &mut MemSource,
    out: &mut MemSink,
) -> Result<u8, Fail> {
    let mut files = files(alloc, file)?;
    let outcome = chipbool(alloc, words, &mut files, input, out);
    drop(files);
    Ok(outcome.status())
}

// The files of a run: `F` with these bytes.
fn files(alloc: Global, file: &[u8]) -> Result<MemFiles, Fail> {
    let mut list = Vec::new(alloc);
    match push_file_entry(alloc, &mut list, file) {
        Ok(()) => Ok(MemFiles::new(list, Vec::new(alloc))),
        Err(failed) => {
            drop(list);
            Err(failed)
        }
    }
}

// Appends the entry of the file `F`.
fn push_file_entry(
    alloc: Global,
    list: &mut Vec<(String, Vec<u8>)>,
    file: &[u8],
) -> Result<(), Fail> {
    let name = String::from_str(alloc, "F")?;
    let bytes = Vec::from_slice(alloc, file)?;
    list.push((name, bytes))?;
    Ok(())
}

// How many bytes are left of an input, one of whose calls may still fail.
fn rest_of(alloc: Global, input: &mut MemSource) -> u32 {
    let mut rest = Vec::new(alloc);
    if read_within(input, &mut rest, 4_294_967_295) == Load::Failed {
        read_within(input, &mut rest, 4_294_967_295);
    }
    let count = u32::try_from(rest.len()).unwrap_or(u32::MAX);
    drop(rest);
    count
}

// Appends the input that a word makes of the words behind it: as it stands there, so many spaces, or a query for a product
// of so many constants.
fn push_input(alloc: Global, input: &mut Vec<u8>, word: &str, rest: &str) -> Result<(), Fail> {
    match word {
        "input" => push_plain(alloc, input, rest),
        "input_of_spaces" => push_spaces(input, count(rest)),
        "input_of_product" => push_product(alloc, input, count(rest)),
        _ => Ok(()),
    }
}

// Appends the file that a word makes of the words behind it: as it stands there, so many spaces, so many constants, a tower
// of so many modules, or a circuit.
fn push_file(alloc: Global, file: &mut Vec<u8>, word: &str, rest: &str) -> Result<(), Fail> {
    match word {
        "file" => push_plain(alloc, file, rest),
        "file_of_spaces" => push_spaces(file, count(rest)),
        "file_of_constants" => push_constants(alloc, file, count(rest)),
        "file_of_tower" => push_tower(alloc, file, count(rest)),
        _ => push_circuit(alloc, file, word, rest),
    }
}

// Appends the file of a circuit: of a chain of gates with the gate, how many inputs, and `right` or `wrong`; of a comparator
// with how many bits, and `right` or `wrong`; of an adder with how many bits, the bit whose carry takes A, and the one whose
// carry takes B; of a row of gates against 0 with the gate, how many inputs, and `turned` where the ports run the other way.
fn push_circuit(alloc: Global, file: &mut Vec<u8>, word: &str, rest: &str) -> Result<(), Fail> {
    let (first, more) = rest.split_once(' ').unwrap_or((rest, ""));
    let (second, third) = more.split_once(' ').unwrap_or((more, ""));
    match word {
        "file_of_chain" => push_chain(alloc, file, first, count(second), third == "right"),
        "file_of_comparator" => push_comparator(alloc, file, count(first), second == "right"),
        "file_of_adder" => push_adder(alloc, file, count(first), (count(second), count(third))),
        "file_of_row" => push_row(alloc, file, first, count(second), third == "turned"),
        _ => Ok(()),
    }
}

// Appends so many spaces.
fn push_spaces(bytes: &mut Vec<u8>, count: u32) -> Result<(), Fail> {
    for _ in 0..count {
        bytes.push(b' ')?;
    }
    Ok(())
}

fn count(text: &str) -> u32 {
    text.parse().unwrap_or(0)
}

fn number(text: &str) -> u64 {
    text.parse().unwrap_or(0)
}
