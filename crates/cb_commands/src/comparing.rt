//! The commands that compare modules.

ghost use Rattle.std.specs.Prelude.{◌≡◌, [], map, length, IfOk};
ghost use Rattle.cb_model.specs.Circuits.{flat_named, flats};
ghost use Rattle.cb_model.specs.Faults.{Counted};
ghost use Rattle.cb_model.specs.Output.{module_named};
ghost use Rattle.cb_model.specs.Text.{shown_name};
ghost use Rattle.cb_lines.specs.Ends.{Tells, line_bytes};
ghost use Rattle.cb_lines.specs.Words.{nodes_view};
ghost use Rattle.cb_accept.specs.File.{holds, IsAccepted};
ghost use Rattle.cb_commands.specs.Says.{VerifyOver, SameOver};
ghost use Rattle.cb_commands.specs.Answers.{Says, VerdictSays, ComparisonSays, FitsPorts, ports_of};

use crate::answer::Answer;
use cb_accept::Accepted;
use cb_circ::Circuits;
use cb_dd::Stop;
use cb_host::Sink;
use cb_lines::ended::Line;
use cb_lines::lines::{self, Pair};
use cb_lines::words::Nodes;
use cb_model::{Outcome, Side};
use cb_verify::{Verdict, VerifyError};
use std::alloc::{AllocError, Global};

/// `verify`: compares a module of an accepted file with its specification, on a store of so many nodes.
pub fn verify<O: Sink>(
    alloc: Global,
    file: &Accepted<'_>,
    name: &[u8],
    nodes: Nodes,
    out: &mut O,
) -> Outcome
    requires { IsAccepted file.now }
    ensures says { Tells (VerifyOver (holds file.now) name.now (nodes_view nodes)) (O.written out.old) (O.written out.new) result }
    ensures faults { Counted (result ≡ Outcome.Fault Side.Output) (O.faults out.old) (O.faults out.new) }
{
    match verified(alloc, file, name, nodes) {
        Ok(answer) => answer.write(out),
        Err(_) => Outcome::Memory,
    }
}

/// `same`: compares two modules of an accepted file, on a store of so many nodes.
pub fn same<O: Sink>(
    alloc: Global,
    file: &Accepted<'_>,
    one: &[u8],
    two: &[u8],
    nodes: Nodes,
    out: &mut O,
) -> Outcome
    requires { IsAccepted file.now }
    ensures says { Tells (SameOver (holds file.now) one.now two.now (nodes_view nodes)) (O.written out.old) (O.written out.new) result }
    ensures faults { Counted (result ≡ Outcome.Fault Side.Output) (O.faults out.old) (O.faults out.new) }
{
    match compared(alloc, file, one, two, nodes) {
        Ok(answer) => answer.write(out),
        Err(_) => Outcome::Memory,
    }
}

// What `verify` says.
pub(crate) fn verified(
    alloc: Global,
    file: &Accepted<'_>,
    name: &[u8],
    nodes: Nodes,
) -> Result<Answer, AllocError>
    ensures { IfOk result (Says (VerifyOver (holds file.now) name.now (nodes_view nodes))) }
{
    let circuits = &file.circuits;
    let verdict = cb_verify::verify(alloc, circuits, name, nodes.budget());
    answer(alloc, circuits, name, Pair::Specified(name), &verdict)
}

// What `same` says.
fn compared(
    alloc: Global,
    file: &Accepted<'_>,
    one: &[u8],
    two: &[u8],
    nodes: Nodes,
) -> Result<Answer, AllocError>
    ensures { IfOk result (Says (SameOver (holds file.now) one.now two.now (nodes_view nodes))) }
{
    let circuits = &file.circuits;
    let verdict = cb_verify::same(alloc, circuits, one, two, nodes.budget());
    answer(alloc, circuits, one, Pair::Modules(one, two), &verdict)
}

// The answer of a comparison of a pair whose first module has the name.
fn answer(
    alloc: Global,
    circuits: &Circuits<'_>,
    name: &[u8],
    pair: Pair<'_>,
    compared: &Result<Verdict, VerifyError>,
) -> Result<Answer, AllocError>
    requires { IfOk compared.now (FitsPorts (flat_named circuits.now.flats name.now).inputs) }
    ensures { IfOk result (λ a. ComparisonSays pair.entry (ports_of (module_named circuits.now name.now)) compared.now (line_bytes a.line) a.outcome) }
{
    match compared {
        Ok(verdict) => {
            let ports = ports(alloc, circuits, name)?;
            verdict_answer(alloc, pair, ports.as_slice(), verdict)
        }
        Err(VerifyError::NoModule) => Ok(Answer::no_module()),
        Err(VerifyError::NoSpec) => Ok(Answer::no_spec()),
        Err(VerifyError::Shape) => Ok(Answer::ports_differ()),
        Err(VerifyError::Stop(Stop::Nodes)) => Ok(Answer::stopped()),
        Err(VerifyError::Stop(Stop::Memory)) => Err(AllocError),
    }
}

// The inputs of the module of a name, as they are printed.
fn ports<'s>(
    alloc: Global,
    circuits: &Circuits<'s>,
    name: &[u8],
) -> Result<Vec<&'s [u8]>, AllocError>
    ensures names { IfOk result (λ v. map (λ p. p.now) v.items ≡ map shown_name (ports_of (module_named circuits.now name.now))) }
    ensures flats { circuits.now.flats ≡ flats [] circuits.now.modules }
{
    let mut ports = Vec::new(alloc);
    let Some(m) = circuits.find(name) else {
        return Ok(ports);
    };
    for k in 0..circuits.inputs(m) {
        ports.push(circuits.input_name(m, k))?;
    }
    Ok(ports)
}

// The answer of a verdict.
fn verdict_answer(
    alloc: Global,
    pair: Pair<'_>,
    ports: &[&[u8]],
    verdict: &Verdict,
) -> Result<Answer, AllocError>
    requires { FitsPorts (length ports.now) verdict.now }
    ensures { IfOk result (λ a. VerdictSays pair.entry (map (λ p. p.now) ports.now) verdict.now (line_bytes a.line) a.outcome) }
{
    match verdict {
        Verdict::Verified => {
            let line = lines::agrees_line(alloc, pair)?;
            Ok(Answer {
                line: Line::Made(line),
                outcome: Outcome::Done,
            })
        }
        Verdict::Differs {
            input,
            output,
            got,
            wanted,
        } => {
            let line = lines::differs_line(
                alloc,
                pair,
                ports,
                input.as_slice(),
                *output,
                *got,
                *wanted,
            )?;
            Ok(Answer {
                line: Line::Made(line),
                outcome: Outcome::Differs,
            })
        }
    }
}
