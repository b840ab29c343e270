//! Files, a source and a sink in memory, whose calls fail where they are told to.

ghost use Rattle.std.specs.Prelude.{◌≡◌, ◌<◌, ◌≤◌, ◌++◌, List, [], false, Some, min, length, take, drop, is_some, is_err, IfOk, IfSome, IfNone, OnErr};
ghost use Rattle.cb_model.specs.Outside.{bytes_named};
ghost use Rattle.cb_host.specs.Host.{Loads, HasLength, Reads, is_failed};
ghost use Rattle.cb_host.specs.Fakes.{Loading, Reading, Writing, read_fails, read_gives, next_number, is_listed, entries_of, load_fails, after_load, write_fails, write_takes};

use crate::{Failed, Files, Load, Sink, Source};
use std::alloc::{AllocError, Global};
use std::marker::Model;

/// The bytes of the first file with this name.
pub(crate) fn bytes_of<'l>(files: &'l [(String, Vec<u8>)], name: &str) -> Option<&'l [u8]>
    ensures listed { is_some result ≡ is_listed (entries_of files.now) name.now }
    ensures bytes { IfSome result (λ b. b.now ≡ bytes_named (entries_of files.now) name.now) }
    ensures unlisted { IfNone result (bytes_named (entries_of files.now) name.now ≡ []) }
{
    for (listed, bytes) in files {
        if listed.as_str() == name {
            return Some(bytes.as_slice());
        }
    }
    None
}

/// Puts a file's bytes, or one more of them than the limit, into an empty buffer.
pub(crate) fn fill(bytes: &[u8], into: &mut Vec<u8>, limit: u64) -> Load
    requires empty { into.old.items ≡ [] }
    requires limit { limit ≤ 4294967295 }
    ensures bytes { Loads bytes.now limit result into.new.items }
    ensures length { HasLength limit result into.new.items }
    ensures never { is_failed result ≡ false }
{
    let limit = limit as usize;
    if bytes.len() <= limit {
        return match into.extend_from_slice(bytes) {
            Ok(()) => Load::Done,
            Err(_) => Load::Memory,
        };
    }
    match into.extend_from_slice(&bytes[..limit + 1]) {
        Ok(()) => Load::Long,
        Err(_) => Load::Memory,
    }
}

/// Copies the first bytes into the front of a buffer, at most `step` of them, and answers how many.
pub(crate) fn give(bytes: &[u8], buf: &mut [u8], step: usize) -> usize
    requires room { 0 < length buf.old }
    requires step { 0 < step }
    ensures count { result ≡ min (min (length buf.old) step) (length bytes.now) }
    ensures bytes { Reads bytes.now (Some (drop result bytes.now)) buf.new result }
    ensures rest { drop result buf.new ≡ drop result buf.old }
{
    let n = buf.len().min(step).min(bytes.len());
    buf[..n].copy_from_slice(&bytes[..n]);
    n
}

/// Files in memory: names with bytes, of which the first of a name counts. A load fails where its number, from 1, is
/// among those that are to fail, and where no file has the name.
#[derive(Drop)]
pub struct MemFiles {
    list: Vec<(String, Vec<u8>)>,
    failing: Vec<u64>,
    calls: u64,
    faults: u64,
}

impl Model for MemFiles {
    ghost use Rattle.cb_host.specs.Fakes.{Loading, entries_of};

    ghost Value = { Loading };

    ghost view = { λ s. record { list = entries_of s.list.items; failing = s.failing.items; calls = s.calls; faults = s.faults } };
}

impl MemFiles {
    /// These files, none of which was loaded yet.
    pub fn new(list: Vec<(String, Vec<u8>)>, failing: Vec<u64>) -> MemFiles
        ensures { result ≡ record { list = entries_of list.items; failing = failing.items; calls = 0; faults = 0 } }
    {
        MemFiles {
            list,
            failing,
            calls: 0,
            faults: 0,
        }
    }
}

impl Files for MemFiles {
    ghost list = { λ s. Some s.list };

    ghost faults = { λ s. s.faults };

    fn load(&mut self, name: &str, into: &mut Vec<u8>, limit: u64) -> Load
        requires empty { into.old.items ≡ [] }
        requires limit { limit ≤ 4294967295 }
        ensures fails { is_failed result ≡ load_fails self.old name.now }
        ensures bytes { Loads (bytes_named self.old.list name.now) limit result into.new.items }
        ensures length { HasLength limit result into.new.items }
        ensures count { self.old.faults ≤ self.new.faults }
        ensures after { self.new ≡ after_load self.old name.now }
    {
        self.calls = self.calls.saturating_add(1);
        let found = bytes_of(&self.list, name);
        let Some(bytes) = found else {
            self.faults = self.faults.saturating_add(1);
            return Load::Failed;
        };
        if self.failing.contains(&self.calls) {
            self.faults = self.faults.saturating_add(1);
            return Load::Failed;
        }
        fill(bytes, into, limit)
    }
}

/// A source in memory, whose calls give at most `step` bytes each. A call fails where its number, from 1, is among those
/// that are to fail.
#[derive(Drop)]
pub struct MemSource {
    bytes: Vec<u8>,
    at: usize,
    step: usize,
    failing: Vec<u64>,
    calls: u64,
    faults: u64,
}

impl Model for MemSource {
    ghost use Rattle.std.specs.Prelude.{◌≤◌, ◌<◌, length, drop};
    ghost use Rattle.cb_host.specs.Fakes.{Reading};

    ghost Value = { Reading };

    ghost view = { λ s. record { left = drop s.at s.bytes.items; step = s.step; failing = s.failing.items; calls = s.calls; faults = s.faults } };

    ghost invariant = { λ s. (s.at ≤ length s.bytes.items) × (0 < s.step) };
}

impl MemSource {
    /// A source of these bytes, which gives `step` of them a call, at least 1.
    pub fn new(bytes: Vec<u8>, step: usize, failing: Vec<u64>) -> MemSource
        requires { 0 < step }
        ensures { result ≡ record { left = bytes.items; step = step; failing = failing.items; calls = 0; faults = 0 } }
    {
        MemSource {
            bytes,
            at: 0,
            step,
            failing,
            calls: 0,
            faults: 0,
        }
    }
}

impl Source for MemSource {
    ghost left = { λ s. Some s.left };

    ghost faults = { λ s. s.faults };

    fn read(&mut self, buf: &mut [u8]) -> Result<usize, Failed>
        requires room { 0 < length buf.old }
        ensures fails { is_err result ≡ read_fails self.old }
        ensures gives { IfOk result (λ n. n ≡ read_gives self.old (length buf.old)) }
        ensures bytes { IfOk result (λ n. Reads self.old.left (Some self.new.left) buf.new n) }
        ensures rest { IfOk result (λ n. drop n buf.new ≡ drop n buf.old) }
        ensures buffer_kept { OnErr result (buf.new ≡ buf.old) }
        ensures count { self.old.faults ≤ self.new.faults }
        ensures after { IfOk result (λ n. self.new ≡ record self.old { left = drop n self.old.left; calls = next_number self.old.calls }) }
        ensures refused { OnErr result (self.new ≡ record self.old { calls = next_number self.old.calls; faults = next_number self.old.faults }) }
    {
        self.calls = self.calls.saturating_add(1);
        if self.failing.contains(&self.calls) {
            self.faults = self.faults.saturating_add(1);
            return Err(Failed);
        }
        let n = give(&self.bytes[self.at..], buf, self.step);
        self.at += n;
        Ok(n)
    }
}

/// A sink in memory, which takes all its room at construction. A call takes at most `step` bytes, and no more than the
/// room left. It fails where its number, from 1, is among those that are to fail, and where a piece that isn't empty
/// finds no room left.
#[derive(Drop)]
pub struct MemSink {
    bytes: Vec<u8>,
    room: usize,
    step: usize,
    failing: Vec<u64>,
    calls: u64,
    faults: u64,
}

impl Model for MemSink {
    ghost use Rattle.std.specs.Prelude.{◌≤◌, ◌<◌, length, vec_capacity};
    ghost use Rattle.cb_host.specs.Fakes.{Writing};

    ghost Value = { Writing };

    ghost view = { λ s. record { written = s.bytes.items; room = s.room; step = s.step; failing = s.failing.items; calls = s.calls; faults = s.faults } };

    ghost invariant = { λ s. (length s.bytes.items ≤ s.room) × (s.room ≤ vec_capacity s.bytes) × (0 < s.step) };
}

impl MemSink {
    /// A sink with nothing written, which takes `step` bytes a call, at least 1.
    pub fn new(
        alloc: Global,
        room: usize,
        step: usize,
        failing: Vec<u64>,
    ) -> Result<MemSink, AllocError>
        requires { 0 < step }
        ensures { IfOk result (λ s. s ≡ record { written = []; room = room; step = step; failing = failing.items; calls = 0; faults = 0 }) }
    {
        let bytes = Vec::with_capacity(alloc, room)?;
        Ok(MemSink {
            bytes,
            room,
            step,
            failing,
            calls: 0,
            faults: 0,
        })
    }

    /// What was written.
    pub fn written(&self) -> &[u8]
        ensures { result.now ≡ self.now.written }
    {
        self.bytes.as_slice()
    }
}

impl Sink for MemSink {
    ghost written = { λ s. Some s.written };

    ghost faults = { λ s. s.faults };

    fn write(&mut self, piece: &[u8]) -> Result<usize, Failed>
        ensures fails { is_err result ≡ write_fails self.old (length piece.now) }
        ensures takes { IfOk result (λ n. n ≡ write_takes self.old (length piece.now)) }
        ensures some { IfOk result (λ n. 0 < length piece.now → 0 < n) }
        ensures count { self.old.faults ≤ self.new.faults }
        ensures after { IfOk result (λ n. self.new ≡ record self.old { written = self.old.written ++ take n piece.now; calls = next_number self.old.calls }) }
        ensures refused { OnErr result (self.new ≡ record self.old { calls = next_number self.old.calls; faults = next_number self.old.faults }) }
    {
        self.calls = self.calls.saturating_add(1);
        let left = self.room - self.bytes.len();
        if self.failing.contains(&self.calls) || (!piece.is_empty() && left == 0) {
            self.faults = self.faults.saturating_add(1);
            return Err(Failed);
        }
        let n = piece.len().min(self.step).min(left);
        self.bytes.extend_from_slice(&piece[..n]).unwrap();
        Ok(n)
    }
}
