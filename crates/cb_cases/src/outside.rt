//! Files, sources and sinks: those in memory, and the adapters over the system's.

ghost use Rattle.std.specs.Prelude.{◌<◌, length};

use cb_host::{
    Failed, Files, HostFiles, HostInput, Load, MemFiles, MemSink, MemSource, Sink, Source,
    SureFiles, SureSink, SureSource, read_within, write_all,
};
use cb_trial::text::{push, push_number};
use std::alloc::Global;
use std::fs;
use std::test::Fail;

/// Writes what comes of a line's words: which object is made, and what is asked of it.
pub fn tell(rt: HostRuntime, word: &str, rest: &str, out: &mut Vec<u8>) -> Result<(), Fail> {
    let alloc = rt.alloc();
    let (first, more) = rest.split_once(' ').unwrap_or((rest, ""));
    match word {
        "mem_files" => tell_mem_files(alloc, first, more, out),
        "sure_files" => tell_sure_files(alloc, rest, out),
        "system_files" => tell_loads(alloc, &mut HostFiles::new(rt), rest, out),
        "long_file" => tell_long(rt, first, more, out),
        "mem_source" => tell_mem_source(alloc, first, more, out),
        "sure_source" => tell_sure_source(alloc, rest, out),
        "input" => tell_input(rt, first, more, out),
        "within" => tell_within(alloc, first, more, out),
        "mem_sink" => tell_mem_sink(alloc, first, more, out),
        "sure_sink" => tell_sure_sink(alloc, first, more, out),
        _ => Ok(()),
    }
}

// The number of a word, 0 where it is none.
fn number(word: &str) -> u32 {
    word.parse().unwrap_or(0)
}

// Three entries, of which `a` has two: its first counts.
fn push_entries(alloc: Global, list: &mut Vec<(String, Vec<u8>)>) -> Result<(), Fail> {
    for (name, text) in [("a", "abc"), ("b", ""), ("a", "x")] {
        let name = String::from_str(alloc, name)?;
        let bytes = Vec::from_slice(alloc, text.as_bytes())?;
        list.push((name, bytes))?;
    }
    Ok(())
}

// The same as a list.
fn entries(alloc: Global) -> Result<Vec<(String, Vec<u8>)>, Fail> {
    let mut list = Vec::new(alloc);
    match push_entries(alloc, &mut list) {
        Ok(()) => Ok(list),
        Err(failed) => {
            drop(list);
            Err(failed)
        }
    }
}

// Files in memory of which one load fails.
fn tell_mem_files(
    alloc: Global,
    failing: &str,
    loads: &str,
    out: &mut Vec<u8>,
) -> Result<(), Fail> {
    let failing = [u64::from(number(failing))].to_vec(alloc)?;
    let list = entries(alloc)?;
    let mut files = MemFiles::new(list, failing);
    let told = tell_loads(alloc, &mut files, loads, out);
    drop(files);
    told
}

// Files in memory of which no load fails.
fn tell_sure_files(alloc: Global, loads: &str, out: &mut Vec<u8>) -> Result<(), Fail> {
    let mut files = SureFiles::new(entries(alloc)?);
    let told = tell_loads(alloc, &mut files, loads, out);
    drop(files);
    told
}

// Loads files, each a name, `@` and a limit, one after another.
fn tell_loads<F: Files>(
    alloc: Global,
    files: &mut F,
    loads: &str,
    out: &mut Vec<u8>,
) -> Result<(), Fail> {
    for word in loads.split_whitespace() {
        let (name, limit) = word.split_once('@').unwrap_or((word, ""));
        tell_load(alloc, files, name, number(limit), out)?;
    }
    Ok(())
}

// Loads a file, and writes how that ended and what the buffer holds.
fn tell_load<F: Files>(
    alloc: Global,
    files: &mut F,
    name: &str,
    limit: u32,
    out: &mut Vec<u8>,
) -> Result<(), Fail> {
    let mut into = Vec::new(alloc);
    let load = files.load(name, &mut into, u64::from(limit));
    let told = push_load(load, into.as_slice(), out);
    drop(into);
    told
}

// Appends how a load ended, and bytes.
fn push_load(load: Load, bytes: &[u8], out: &mut Vec<u8>) -> Result<(), Fail> {
    let word = match load {
        Load::Done => "done",
        Load::Long => "long",
        Load::Failed => "failed",
        Load::Memory => "memory",
    };
    push(out, word)?;
    push_bytes(bytes, out)
}

// Appends bytes in quotes.
fn push_bytes(bytes: &[u8], out: &mut Vec<u8>) -> Result<(), Fail> {
    push(out, " '")?;
    out.extend_from_slice(bytes)?;
    push(out, "' ")
}

// Loads a file of the system up to some limits; writes how each load ended, how many bytes the buffer holds, and whether
// these are the first of the file.
fn tell_long(rt: HostRuntime, name: &str, limits: &str, out: &mut Vec<u8>) -> Result<(), Fail> {
    let text = fs::read_to_string(&rt, name)?;
    let mut files = HostFiles::new(rt);
    for word in limits.split_whitespace() {
        tell_front(
            rt.alloc(),
            &mut files,
            name,
            number(word),
            text.as_bytes(),
            out,
        )?;
    }
    Ok(())
}

// The same up to one limit.
fn tell_front<F: Files>(
    alloc: Global,
    files: &mut F,
    name: &str,
    limit: u32,
    all: &[u8],
    out: &mut Vec<u8>,
) -> Result<(), Fail> {
    let mut into = Vec::new(alloc);
    let load = files.load(name, &mut into, u64::from(limit));
    let is_front = all.starts_with(into.as_slice());
    let count = into.len();
    drop(into);
    push_load(load, if is_front { b"first" } else { b"other" }, out)?;
    push_number(alloc, out, i64::try_from(count).unwrap_or(0))?;
    push(out, " ")
}

// A source in memory of the bytes `abcde`, which gives so many a call, and one of whose calls fails.
fn source(alloc: Global, step: u32, failing: u32) -> Result<MemSource, Fail> {
    let failing = [u64::from(failing)].to_vec(alloc)?;
    let bytes = b"abcde".to_vec(alloc)?;
    Ok(MemSource::new(bytes, step.max(1) as usize, failing))
}

// Reads from a source in memory: how many bytes a call gives, which call fails, and how many calls there are.
fn tell_mem_source(alloc: Global, step: &str, more: &str, out: &mut Vec<u8>) -> Result<(), Fail> {
    let (failing, times) = more.split_once(' ').unwrap_or((more, ""));
    let mut source = source(alloc, number(step), number(failing))?;
    let told = tell_reads(alloc, &mut source, &mut [b'.'; 3], number(times), out);
    drop(source);
    told
}

// Reads from a source in memory that gives all that there is room for.
fn tell_sure_source(alloc: Global, times: &str, out: &mut Vec<u8>) -> Result<(), Fail> {
    let mut source = SureSource::new(b"abcde".to_vec(alloc)?);
    let told = tell_reads(alloc, &mut source, &mut [b'.'; 3], number(times), out);
    drop(source);
    told
}

// Reads from a file or a folder of the system as an input.
fn tell_input(rt: HostRuntime, name: &str, times: &str, out: &mut Vec<u8>) -> Result<(), Fail> {
    let mut input = HostInput::new(fs::open(&rt, name)?);
    let told = tell_reads(rt.alloc(), &mut input, &mut [b'.'; 2], number(times), out);
    drop(input);
    told
}

// Reads so many times into one buffer, and writes what each read answers and what the buffer holds then.
fn tell_reads<S: Source>(
    alloc: Global,
    source: &mut S,
    buffer: &mut [u8],
    times: u32,
    out: &mut Vec<u8>,
) -> Result<(), Fail>
    requires room { 0 < length buffer.old }
{
    for _ in 0..times {
        match source.read(buffer) {
            Ok(count) => push_number(alloc, out, i64::try_from(count).unwrap_or(-1))?,
            Err(Failed) => push(out, "failed")?,
        }
        push_bytes(buffer, out)?;
    }
    Ok(())
}

// Reads a source in memory, which gives two bytes a call, to its end or past a limit; which call fails.
fn tell_within(alloc: Global, limit: &str, failing: &str, out: &mut Vec<u8>) -> Result<(), Fail> {
    let mut source = source(alloc, 2, number(failing))?;
    let mut into = Vec::new(alloc);
    let load = read_within(&mut source, &mut into, u64::from(number(limit)));
    drop(source);
    let told = push_load(load, into.as_slice(), out);
    drop(into);
    told
}

// Writes `abcde` and then nothing to a sink in memory: its room, how many bytes a call takes, and which call fails.
fn tell_mem_sink(alloc: Global, room: &str, more: &str, out: &mut Vec<u8>) -> Result<(), Fail> {
    let (step, failing) = more.split_once(' ').unwrap_or((more, ""));
    let failing = [u64::from(number(failing))].to_vec(alloc)?;
    let mut sink = MemSink::new(
        alloc,
        number(room) as usize,
        number(step).max(1) as usize,
        failing,
    )?;
    let told = tell_written(&mut sink, out);
    drop(sink);
    told
}

// The same to a sink that is lent.
fn tell_written(sink: &mut MemSink, out: &mut Vec<u8>) -> Result<(), Fail> {
    push_write(sink, b"abcde", out)?;
    push_bytes(sink.written(), out)?;
    push_write(sink, b"", out)
}

// Writes a piece, and tells whether all of it was written.
pub fn push_write<S: Sink>(sink: &mut S, piece: &[u8], out: &mut Vec<u8>) -> Result<(), Fail> {
    match write_all(sink, piece) {
        Ok(()) => push(out, "done"),
        Err(Failed) => push(out, "failed"),
    }
}

// Writes words to a sink in memory that takes all; how many bytes it keeps.
fn tell_sure_sink(alloc: Global, room: &str, words: &str, out: &mut Vec<u8>) -> Result<(), Fail> {
    let mut sink = SureSink::new(alloc, number(room) as usize)?;
    let told = tell_kept(&mut sink, words, out);
    drop(sink);
    told
}

// The same to a sink that is lent.
fn tell_kept(sink: &mut SureSink, words: &str, out: &mut Vec<u8>) -> Result<(), Fail> {
    for word in words.split(' ') {
        push_write(sink, word.as_bytes(), out)?;
        push_bytes(sink.written(), out)?;
    }
    Ok(())
}
