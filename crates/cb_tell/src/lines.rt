//! The last line of a query.

ghost use Rattle.std.specs.Prelude.{◌≡◌, [], ◌∷◌};
ghost use Rattle.cb_model.specs.Text.{lines_text};
ghost use Rattle.cb_model.specs.Faults.{Counted};
ghost use Rattle.cb_tell.specs.Told.{OutputFailed};
ghost use Rattle.cb_tell.specs.Telling.{LastTells, ended_text, stop_text};

use crate::Turn;
use cb_host::{Sink, write_all};
use cb_model::{Outcome, Side};
use cb_solve::Budget;

/// The line of a stop, with its end.
pub(crate) fn stop_line(budget: Budget) -> &'static [u8]
    ensures { result.now ≡ lines_text (stop_text budget ∷ []) }
{
    match budget {
        Budget::Resolutions => b"stopped: resolutions\n",
        Budget::Variables => b"stopped: variables\n",
        Budget::Equations => b"stopped: equations\n",
        Budget::Nodes => b"stopped: nodes\n",
    }
}

/// The line behind the last answer, with its end; where there is no answer, another.
pub(crate) fn ended_line(none: bool) -> &'static [u8]
    ensures { result.now ≡ lines_text (ended_text none ∷ []) }
{
    if none { b"no\n" } else { b"end\n" }
}

/// Writes the last line. It takes no memory.
pub(crate) fn finish<O: Sink>(out: &mut O, line: &[u8], stop: bool) -> Result<Turn, Outcome>
    ensures told { LastTells line.now stop (O.written out.old) (O.written out.new) result }
    ensures faults { Counted (OutputFailed result) (O.faults out.old) (O.faults out.new) }
{
    match write_all(out, line) {
        Ok(()) => Ok(Turn::Ended(stop)),
        Err(_) => Err(Outcome::Fault(Side::Output)),
    }
}
