//! The outside: files, a source and a sink, each with a count of its faults.
#![tactic(auto)]

ghost use Rattle.std.specs.Prelude.{◌≡◌, ℕ, ◌<◌, ◌≤◌, false, List, [], length, take, drop, Option, IfOk, OnOk, OnErr};
ghost use Rattle.cb_model.specs.Outside.{Rose, Wrote, bytes_named};
ghost use Rattle.cb_host.specs.Host.{IfTold, HasLength, Loads, Reads, ReadsAll, is_failed};

pub use host::{HostFiles, HostInput, HostOutput};
pub use memory::{MemFiles, MemSink, MemSource};
pub use sure::{SureFiles, SureSink, SureSource};
use thiserror::Error;

mod host;
mod memory;
mod sure;

/// A read or a write failed.
#[derive(Clone, Copy, PartialEq, Eq, Debug, Error)]
#[error("a read or a write failed")]
pub struct Failed;

/// How a file was loaded.
#[derive(Clone, Copy, PartialEq, Eq, Debug)]
pub enum Load {
    /// The buffer holds the whole file.
    Done,
    /// The file is longer than the limit; the buffer holds one byte more than the limit.
    Long,
    /// The file couldn't be read; the buffer is empty.
    Failed,
    /// No memory for the bytes; the buffer is empty.
    Memory,
}

/// Where files are loaded from by name.
pub trait Files {
    // the names with their bytes, where they are told; the first entry of a name counts
    ghost list: { Self → Option (List (List ℕ × List ℕ)) };

    // how many faults came so far, up to the greatest `u64`
    ghost faults: { Self → ℕ };

    /// Loads a file into an empty buffer, at most one byte more than the limit, which is at most 4,294,967,295.
    fn load(&mut self, name: &str, into: &mut Vec<u8>, limit: u64) -> Load
        requires empty { into.old.items ≡ [] }
        requires limit { limit ≤ 4294967295 }
        ensures list { list self.new ≡ list self.old }
        ensures bytes { IfTold (list self.old) (λ files. Loads (bytes_named files name.now) limit result into.new.items) }
        ensures length { HasLength limit result into.new.items }
        ensures count { faults self.old ≤ faults self.new }
        ensures kept { is_failed result ≡ false → faults self.new ≡ faults self.old }
        ensures failed { result ≡ Load.Failed → Rose (faults self.old) (faults self.new) };
}

/// Where bytes are read from.
pub trait Source {
    // the bytes that are left, where they are told
    ghost left: { Self → Option (List ℕ) };

    // how many faults came so far, up to the greatest `u64`
    ghost faults: { Self → ℕ };

    /// Reads the next bytes into the front of a buffer that isn't empty, and answers how many; 0 at the end alone.
    fn read(&mut self, buf: &mut [u8]) -> Result<usize, Failed>
        requires room { 0 < length buf.old }
        ensures within { IfOk result (λ n. n ≤ length buf.old) }
        ensures bytes { IfOk result (λ n. IfTold (left self.old) (λ bytes. Reads bytes (left self.new) buf.new n)) }
        ensures rest { IfOk result (λ n. drop n buf.new ≡ drop n buf.old) }
        ensures none_taken { OnErr result (left self.new ≡ left self.old) }
        ensures buffer_kept { OnErr result (buf.new ≡ buf.old) }
        ensures count { faults self.old ≤ faults self.new }
        ensures kept { OnOk result (faults self.new ≡ faults self.old) }
        ensures failed { OnErr result (Rose (faults self.old) (faults self.new)) };
}

/// Where bytes are written to.
pub trait Sink {
    // the bytes that were written, where they are told
    ghost written: { Self → Option (List ℕ) };

    // how many faults came so far, up to the greatest `u64`
    ghost faults: { Self → ℕ };

    /// Writes the first bytes of a piece, and answers how many; none of an empty piece alone.
    fn write(&mut self, piece: &[u8]) -> Result<usize, Failed>
        ensures within { IfOk result (λ n. n ≤ length piece.now) }
        ensures some { IfOk result (λ n. 0 < length piece.now → 0 < n) }
        ensures bytes { IfOk result (λ n. Wrote (written self.old) (written self.new) (take n piece.now)) }
        ensures nothing { OnErr result (Wrote (written self.old) (written self.new) []) }
        ensures count { faults self.old ≤ faults self.new }
        ensures kept { OnOk result (faults self.new ≡ faults self.old) }
        ensures failed { OnErr result (Rose (faults self.old) (faults self.new)) };
}

/// Writes a whole piece, by as many calls as the sink takes for it. After a failure a front of the piece was written. It
/// takes no memory.
pub fn write_all<S: Sink>(out: &mut S, piece: &[u8]) -> Result<(), Failed>
    ensures whole { OnOk result (Wrote (S.written out.old) (S.written out.new) piece.now) }
    ensures front { OnErr result ((n : ℕ) × ((n ≤ length piece.now) × Wrote (S.written out.old) (S.written out.new) (take n piece.now))) }
    ensures count { S.faults out.old ≤ S.faults out.new }
    ensures kept { OnOk result (S.faults out.new ≡ S.faults out.old) }
    ensures failed { OnErr result (Rose (S.faults out.old) (S.faults out.new)) }
{
    let mut at = 0;
    while at < piece.len() {
        at += out.write(&piece[at..])?;
    }
    Ok(())
}

// How many bytes are asked of a source at most at a time.
const PIECE: usize = 8192;

/// Reads a source to its end into an empty buffer, or to one byte past the limit, which is at most 4,294,967,295. The
/// buffer is empty after a failed read and where there is no memory for the bytes.
pub fn read_within<I: Source>(source: &mut I, into: &mut Vec<u8>, limit: u64) -> Load
    requires empty { into.old.items ≡ [] }
    requires limit { limit ≤ 4294967295 }
    ensures bytes { IfTold (I.left source.old) (λ bytes. ReadsAll bytes limit result (I.left source.new) into.new.items) }
    ensures length { HasLength limit result into.new.items }
    ensures count { I.faults source.old ≤ I.faults source.new }
    ensures kept { is_failed result ≡ false → I.faults source.new ≡ I.faults source.old }
    ensures failed { result ≡ Load.Failed → Rose (I.faults source.old) (I.faults source.new) }
{
    let limit = limit as usize;
    let mut piece = [0; PIECE];
    while into.len() <= limit {
        let most = PIECE.min(limit + 1 - into.len());
        let Ok(n) = source.read(&mut piece[..most]) else {
            into.clear();
            return Load::Failed;
        };
        if n == 0 {
            return Load::Done;
        }
        let Ok(()) = into.extend_from_slice(&piece[..n]) else {
            into.clear();
            return Load::Memory;
        };
    }
    Load::Long
}
