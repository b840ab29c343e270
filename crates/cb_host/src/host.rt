//! Files, input and output of the system, over std's. Nothing is known of the bytes that these give or take: what stands
//! here is the part of the program that its proofs trust.

ghost use Rattle.std.specs.Prelude.{◌≡◌, ◌<◌, ◌≤◌, [], None, length, drop, is_err, if◌then◌else◌, IfOk, IfSome, OnErr};
ghost use Rattle.std.specs.Io.KnownBytes.{ReadConsumes};
ghost use Rattle.cb_host.specs.Host.{HasLength, Loads, is_failed};
ghost use Rattle.cb_host.specs.Fakes.{next_number};

use crate::{Failed, Files, Load, Sink, Source};
use std::io::{Read, Write};
use std::marker::Model;
use std::{fs, rt};

// How many bytes one read asks the system for at most.
const CHUNK: usize = 8192;

/// Files of the system, opened by their names. Where one can't be opened or read, as a folder, the load fails.
#[derive(Drop)]
pub struct HostFiles<R> {
    runtime: R,
    faults: u64,
}

impl<R> Model for HostFiles<R> {
    ghost use Rattle.std.specs.Prelude.{ℕ};

    ghost Value = { ℕ };

    ghost view = { λ s. s.faults };
}

impl<R: rt::Files> HostFiles<R> {
    /// The files of this runtime, with no faults so far.
    pub fn new(runtime: R) -> HostFiles<R>
        ensures { result ≡ 0 }
    {
        HostFiles { runtime, faults: 0 }
    }
}

// Reads to the end, or to one byte past the limit.
fn read_front<R: Read>(reader: &mut R, into: &mut Vec<u8>, limit: usize) -> Load
    requires empty { into.old.items ≡ [] }
    requires limit { limit ≤ 4294967295 }
    ensures length { HasLength limit result into.new.items }
    ensures bytes { IfSome (R.remaining reader.old) (λ bytes. Loads bytes limit result into.new.items) }
{
    let mut chunk = [0; CHUNK];
    while into.len() <= limit {
        let most = CHUNK.min(limit + 1 - into.len());
        let Ok(n) = reader.read(&mut chunk[..most]) else {
            into.clear();
            return Load::Failed;
        };
        if n == 0 {
            return Load::Done;
        }
        if into.extend_from_slice(&chunk[..n]).is_err() {
            into.clear();
            return Load::Memory;
        }
    }
    Load::Long
}

impl<R: rt::Files> Files for HostFiles<R> {
    ghost list = { λ _. None };

    ghost faults = { λ s. s };

    fn load(&mut self, name: &str, into: &mut Vec<u8>, limit: u64) -> Load
        requires empty { into.old.items ≡ [] }
        requires limit { limit ≤ 4294967295 }
        ensures length { HasLength limit result into.new.items }
        ensures counted { self.new ≡ (if is_failed result then next_number self.old else self.old) }
        ensures count { self.old ≤ self.new }
    {
        let load = match fs::open(&self.runtime, name) {
            Ok(mut file) => read_front(&mut file, into, limit as usize),
            Err(_) => Load::Failed,
        };
        if load == Load::Failed {
            self.faults = self.faults.saturating_add(1);
        }
        load
    }
}

// Reads once. The reader may write past the bytes that it gives, so it gets a buffer of its own.
fn read_some<R: Read>(reader: &mut R, buf: &mut [u8]) -> Result<usize, Failed>
    requires room { 0 < length buf.old }
    ensures within { IfOk result (λ n. n ≤ length buf.old) }
    ensures bytes { ReadConsumes (R.remaining reader.old) (R.remaining reader.new) result buf.new }
    ensures rest { IfOk result (λ n. drop n buf.new ≡ drop n buf.old) }
    ensures buffer_kept { OnErr result (buf.new ≡ buf.old) }
{
    let mut chunk = [0; CHUNK];
    let most = CHUNK.min(buf.len());
    let Ok(n) = reader.read(&mut chunk[..most]) else {
        return Err(Failed);
    };
    buf[..n].copy_from_slice(&chunk[..n]);
    Ok(n)
}

/// The input of the system, or another of std's readers.
#[derive(Drop)]
pub struct HostInput<R> {
    reader: R,
    faults: u64,
}

impl<R> Model for HostInput<R> {
    ghost use Rattle.std.specs.Prelude.{ℕ};

    ghost Value = { ℕ };

    ghost view = { λ s. s.faults };
}

impl<R: Read> HostInput<R> {
    /// What this reader gives from now on, with no faults so far.
    pub fn new(reader: R) -> HostInput<R>
        ensures { result ≡ 0 }
    {
        HostInput { reader, faults: 0 }
    }
}

impl<R: Read> Source for HostInput<R> {
    ghost left = { λ _. None };

    ghost faults = { λ s. s };

    fn read(&mut self, buf: &mut [u8]) -> Result<usize, Failed>
        requires room { 0 < length buf.old }
        ensures within { IfOk result (λ n. n ≤ length buf.old) }
        ensures rest { IfOk result (λ n. drop n buf.new ≡ drop n buf.old) }
        ensures buffer_kept { OnErr result (buf.new ≡ buf.old) }
        ensures counted { self.new ≡ (if is_err result then next_number self.old else self.old) }
        ensures count { self.old ≤ self.new }
    {
        let result = read_some(&mut self.reader, buf);
        if result.is_err() {
            self.faults = self.faults.saturating_add(1);
        }
        result
    }
}

/// The output of the system, or another of std's writers. It keeps no bytes back.
#[derive(Drop)]
pub struct HostOutput<W> {
    writer: W,
    faults: u64,
}

impl<W> Model for HostOutput<W> {
    ghost use Rattle.std.specs.Prelude.{ℕ};

    ghost Value = { ℕ };

    ghost view = { λ s. s.faults };
}

impl<W: Write> HostOutput<W> {
    /// This writer, with no faults so far.
    pub fn new(writer: W) -> HostOutput<W>
        ensures { result ≡ 0 }
    {
        HostOutput { writer, faults: 0 }
    }
}

impl<W: Write> Sink for HostOutput<W> {
    ghost written = { λ _. None };

    ghost faults = { λ s. s };

    fn write(&mut self, piece: &[u8]) -> Result<usize, Failed>
        ensures within { IfOk result (λ n. n ≤ length piece.now) }
        ensures some { IfOk result (λ n. 0 < length piece.now → 0 < n) }
        ensures counted { self.new ≡ (if is_err result then next_number self.old else self.old) }
        ensures count { self.old ≤ self.new }
    {
        match self.writer.write(piece) {
            Ok(n) if n > 0 || piece.is_empty() => Ok(n),
            _ => {
                self.faults = self.faults.saturating_add(1);
                Err(Failed)
            }
        }
    }
}
