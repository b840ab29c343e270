//! Lines with their outcomes.

ghost use Rattle.std.specs.Prelude.{◌≡◌, ◌∷◌, []};
ghost use Rattle.cb_model.specs.Faults.{Counted};
ghost use Rattle.cb_lines.specs.Ends.{IsDecided, Finishes, line_bytes};
ghost use Rattle.cb_lines.specs.declared.lines.TheConstants.{STOPPED_NODES, NO_MODULE, NO_SPEC, PORTS_DIFFER};

use cb_host::Sink;
use cb_lines::ended::{Line, finish};
use cb_lines::lines;
use cb_model::{Outcome, Side};

/// What is to be written, and the outcome that goes with it.
#[derive(Drop)]
pub(crate) struct Answer {
    pub line: Line,
    pub outcome: Outcome,
}

impl Answer {
    /// The answer where the budget of nodes was reached.
    pub(crate) fn stopped() -> Answer
        ensures line { line_bytes result.line ≡ STOPPED_NODES.now }
        ensures outcome { result.outcome ≡ Outcome.Stopped }
    {
        Answer {
            line: Line::Fixed(lines::STOPPED_NODES),
            outcome: Outcome::Stopped,
        }
    }

    /// The answer where there is no module of a name.
    pub(crate) fn no_module() -> Answer
        ensures line { line_bytes result.line ≡ NO_MODULE.now }
        ensures outcome { result.outcome ≡ Outcome.Refused 16 }
    {
        Answer {
            line: Line::Fixed(lines::NO_MODULE),
            outcome: Outcome::Refused(16),
        }
    }

    /// The answer where there is no specification of a module's name.
    pub(crate) fn no_spec() -> Answer
        ensures line { line_bytes result.line ≡ NO_SPEC.now }
        ensures outcome { result.outcome ≡ Outcome.Refused 17 }
    {
        Answer {
            line: Line::Fixed(lines::NO_SPEC),
            outcome: Outcome::Refused(17),
        }
    }

    /// The answer where the two sides have different numbers of ports.
    pub(crate) fn ports_differ() -> Answer
        ensures line { line_bytes result.line ≡ PORTS_DIFFER.now }
        ensures outcome { result.outcome ≡ Outcome.Refused 18 }
    {
        Answer {
            line: Line::Fixed(lines::PORTS_DIFFER),
            outcome: Outcome::Refused(18),
        }
    }

    /// Writes the line; the outcome stands unless that fails.
    pub(crate) fn write<O: Sink>(&self, out: &mut O) -> Outcome
        requires { IsDecided self.now.outcome }
        ensures written { Finishes (O.written out.old) (O.written out.new) (line_bytes self.now.line) self.now.outcome result }
        ensures faults { Counted (result ≡ Outcome.Fault Side.Output) (O.faults out.old) (O.faults out.new) }
    {
        finish(out, self.line.bytes(), self.outcome)
    }
}
