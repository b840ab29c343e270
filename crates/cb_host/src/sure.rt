//! Files, a source and a sink in memory that never fail.

ghost use Rattle.std.specs.Prelude.{◌≡◌, ◌<◌, ◌≤◌, List, [], Some, Ok, true, false, min, length, take, drop, IfOk};
ghost use Rattle.cb_model.specs.Outside.{Wrote, bytes_named};
ghost use Rattle.cb_host.specs.Host.{Loads, HasLength, Reads, is_failed};
ghost use Rattle.cb_host.specs.Fakes.{Keeping, entries_of, told_of, after_piece};

use crate::memory::{bytes_of, fill, give};
use crate::{Failed, Files, Load, Sink, Source};
use std::alloc::{AllocError, Global};
use std::marker::Model;

/// Files in memory: names with bytes, of which the first of a name counts. No load fails; a name that no file has is an
/// empty file.
#[derive(Drop)]
pub struct SureFiles {
    list: Vec<(String, Vec<u8>)>,
}

impl Model for SureFiles {
    ghost use Rattle.std.specs.Prelude.{List};
    ghost use Rattle.cb_model.specs.Text.{Text};
    ghost use Rattle.cb_host.specs.Fakes.{entries_of};

    ghost Value = { List (Text × Text) };

    ghost view = { λ s. entries_of s.list.items };
}

impl SureFiles {
    /// These files.
    pub fn new(list: Vec<(String, Vec<u8>)>) -> SureFiles
        ensures { result ≡ entries_of list.items }
    {
        SureFiles { list }
    }
}

impl Files for SureFiles {
    ghost list = { λ s. Some s };

    ghost faults = { λ _. 0 };

    fn load(&mut self, name: &str, into: &mut Vec<u8>, limit: u64) -> Load
        requires empty { into.old.items ≡ [] }
        requires limit { limit ≤ 4294967295 }
        ensures never { is_failed result ≡ false }
        ensures bytes { Loads (bytes_named self.old name.now) limit result into.new.items }
        ensures length { HasLength limit result into.new.items }
        ensures same { self.new ≡ self.old }
    {
        match bytes_of(&self.list, name) {
            Some(bytes) => fill(bytes, into, limit),
            None => Load::Done,
        }
    }
}

/// A source in memory, which never fails and gives all that the buffer has room for.
#[derive(Drop)]
pub struct SureSource {
    bytes: Vec<u8>,
    at: usize,
}

impl Model for SureSource {
    ghost use Rattle.std.specs.Prelude.{◌≤◌, length, drop};
    ghost use Rattle.cb_model.specs.Text.{Text};

    ghost Value = { Text };

    ghost view = { λ s. drop s.at s.bytes.items };

    ghost invariant = { λ s. s.at ≤ length s.bytes.items };
}

impl SureSource {
    /// A source of these bytes.
    pub fn new(bytes: Vec<u8>) -> SureSource
        ensures { result ≡ bytes.items }
    {
        SureSource { bytes, at: 0 }
    }
}

impl Source for SureSource {
    ghost left = { λ s. Some s };

    ghost faults = { λ _. 0 };

    fn read(&mut self, buf: &mut [u8]) -> Result<usize, Failed>
        requires room { 0 < length buf.old }
        ensures gives { result ≡ Ok (min (length buf.old) (length self.old)) }
        ensures bytes { IfOk result (λ n. Reads self.old (Some self.new) buf.new n) }
        ensures rest { IfOk result (λ n. drop n buf.new ≡ drop n buf.old) }
        ensures after { IfOk result (λ n. self.new ≡ drop n self.old) }
    {
        let n = give(&self.bytes[self.at..], buf, buf.len());
        self.at += n;
        Ok(n)
    }
}

/// A sink in memory, which takes all its room at construction and never fails. It keeps the first bytes that it has room
/// for and lets the rest go.
#[derive(Drop)]
pub struct SureSink {
    bytes: Vec<u8>,
    room: usize,
    whole: bool,
}

impl Model for SureSink {
    ghost use Rattle.std.specs.Prelude.{◌≤◌, length, vec_capacity};
    ghost use Rattle.cb_host.specs.Fakes.{Keeping};

    ghost Value = { Keeping };

    ghost view = { λ s. record { kept = s.bytes.items; room = s.room; whole = s.whole } };

    ghost invariant = { λ s. (length s.bytes.items ≤ s.room) × (s.room ≤ vec_capacity s.bytes) };
}

impl SureSink {
    /// A sink with nothing written, which keeps this many bytes.
    pub fn new(alloc: Global, room: usize) -> Result<SureSink, AllocError>
        ensures { IfOk result (λ s. s ≡ record { kept = []; room = room; whole = true }) }
    {
        let bytes = Vec::with_capacity(alloc, room)?;
        Ok(SureSink {
            bytes,
            room,
            whole: true,
        })
    }

    /// What was kept: the first bytes of all that was written.
    pub fn written(&self) -> &[u8]
        ensures { result.now ≡ self.now.kept }
    {
        self.bytes.as_slice()
    }
}

impl Sink for SureSink {
    ghost written = { told_of };

    ghost faults = { λ _. 0 };

    fn write(&mut self, piece: &[u8]) -> Result<usize, Failed>
        ensures all { result ≡ Ok (length piece.now) }
        ensures bytes { Wrote (told_of self.old) (told_of self.new) (take (length piece.now) piece.now) }
        ensures after { self.new ≡ after_piece self.old piece.now }
    {
        let left = self.room - self.bytes.len();
        self.whole = self.whole && piece.len() <= left;
        let n = left.min(piece.len());
        self.bytes.extend_from_slice(&piece[..n]).unwrap();
        Ok(piece.len())
    }
}
