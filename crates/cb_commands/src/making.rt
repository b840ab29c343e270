//! The command that generates a circuit.

ghost use Rattle.std.specs.Prelude.{◌≡◌, ℕ, ◌≤◌, [], IfOk};
ghost use Rattle.cb_model.specs.Adder.{adder_text};
ghost use Rattle.cb_model.specs.Faults.{Counted};
ghost use Rattle.cb_adder.specs.Adders.{HasAdder};
ghost use Rattle.cb_lines.specs.Ends.{Tells};
ghost use Rattle.cb_lines.specs.Words.{nodes_view};
ghost use Rattle.cb_accept.specs.File.{holds, IsAccepted};
ghost use Rattle.cb_commands.specs.Says.{MakeOver, MakeSays};
ghost use Rattle.cb_commands.specs.Answers.{Says, TellsSize};

use crate::answer::Answer;
use crate::comparing::verified;
use cb_accept::{Accepted, accept, end};
use cb_adder::adders_hold;
use cb_circ::Circuits;
use cb_gen::adder_text;
use cb_host::Sink;
use cb_lines::ended::Line;
use cb_lines::lines;
use cb_lines::words::Nodes;
use cb_model::{Outcome, Side};
use std::alloc::{AllocError, Global};

/// `make`: generates the text of an adder of so many bits, reads it as any file, compares the adder with its specification
/// on a store of so many nodes, and tells how large it is.
pub fn make<O: Sink>(alloc: Global, bits: u32, nodes: Nodes, out: &mut O) -> Outcome
    requires { (1 ≤ bits) × (bits ≤ 64) }
    ensures says { Tells (MakeSays bits (nodes_view nodes)) (O.written out.old) (O.written out.new) result }
    ensures faults { Counted (result ≡ Outcome.Fault Side.Output) (O.faults out.old) (O.faults out.new) }
{
    match made(alloc, bits, nodes) {
        Ok(answer) => answer.write(out),
        Err(_) => Outcome::Memory,
    }
}

// What `make` says. Its text is accepted, so that it ends early only for want of memory.
fn made(alloc: Global, bits: u32, nodes: Nodes) -> Result<Answer, AllocError>
    requires { (1 ≤ bits) × (bits ≤ 64) }
    ensures { IfOk result (Says (MakeSays bits (nodes_view nodes))) }
{
    adders_hold();
    let text = adder_text(alloc, bits)?;
    match accept(alloc, text.as_slice()) {
        Ok(file) => {
            let answer = of_adder(alloc, &file, nodes);
            end(file);
            answer
        }
        Err(_) => Err(AllocError),
    }
}

// What `make` says over the text that it generated.
fn of_adder(alloc: Global, file: &Accepted<'_>, nodes: Nodes) -> Result<Answer, AllocError>
    requires { IsAccepted file.now }
    ensures { (n : ℕ) → 1 ≤ n → n ≤ 64 → file.now.text.now ≡ adder_text n → IfOk result (Says (MakeOver (holds file.now) n (nodes_view nodes))) }
{
    adders_hold();
    let answer = verified(alloc, file, b"adder", nodes)?;
    match answer.outcome {
        Outcome::Done => summary(alloc, &file.circuits),
        _ => Ok(answer),
    }
}

// The line of an adder that is right: its inputs, outputs and gates.
fn summary(alloc: Global, circuits: &Circuits<'_>) -> Result<Answer, AllocError>
    ensures { (n : ℕ) → HasAdder n circuits.now → IfOk result (TellsSize n) }
{
    let Some(m) = circuits.find(b"adder") else {
        return Err(AllocError);
    };
    let line = lines::adder_line(
        alloc,
        circuits.inputs(m),
        circuits.outputs(m),
        circuits.gates(m),
    )?;
    Ok(Answer {
        line: Line::Made(line),
        outcome: Outcome::Done,
    })
}
