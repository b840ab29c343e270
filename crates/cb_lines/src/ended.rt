//! How a run ends, and how its text is written.

ghost use Rattle.std.specs.Prelude.{◌≡◌};
ghost use Rattle.cb_model.specs.Faults.{Counted};
ghost use Rattle.cb_lines.specs.Ends.{IsDecided, Finishes, EndTold, line_bytes};

use cb_host::{Sink, write_all};
use cb_model::{Outcome, Side};

/// A line with its end: one of a few, or one that was made.
#[derive(Drop)]
pub enum Line {
    /// A line that is always the same.
    Fixed(&'static [u8]),
    /// A line that was made, with all its memory.
    Made(Vec<u8>),
}

impl Line {
    /// Its bytes.
    pub fn bytes(&self) -> &[u8]
        ensures { result.now ≡ line_bytes self.now }
    {
        match self {
            Line::Fixed(bytes) => bytes,
            Line::Made(bytes) => bytes.as_slice(),
        }
    }
}

/// How a run ended before the work of its command began.
#[derive(Drop)]
pub enum Ended {
    /// Something is refused: the line that is printed, and the number of the refusal.
    Refused(Line, u8),
    /// The file couldn't be loaded.
    FileFailed,
    /// Memory was wanting.
    Memory,
}

impl Ended {
    /// Writes the line of a refusal, and gives the outcome.
    pub fn tell<O: Sink>(&self, out: &mut O) -> Outcome
        ensures told { EndTold self.now (O.written out.old) (O.written out.new) result }
        ensures faults { Counted (result ≡ Outcome.Fault Side.Output) (O.faults out.old) (O.faults out.new) }
    {
        match self {
            Ended::Refused(line, number) => finish(out, line.bytes(), Outcome::Refused(*number)),
            Ended::FileFailed => Outcome::Fault(Side::File),
            Ended::Memory => Outcome::Memory,
        }
    }
}

/// Writes a whole text; the outcome that goes with it stands unless that fails. It takes no memory.
pub fn finish<O: Sink>(out: &mut O, text: &[u8], outcome: Outcome) -> Outcome
    requires { IsDecided outcome }
    ensures written { Finishes (O.written out.old) (O.written out.new) text.now outcome result }
    ensures faults { Counted (result ≡ Outcome.Fault Side.Output) (O.faults out.old) (O.faults out.new) }
{
    match write_all(out, text) {
        Ok(()) => outcome,
        Err(_) => Outcome::Fault(Side::Output),
    }
}
