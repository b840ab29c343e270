//! What is told of the facts of a text.

ghost use Rattle.std.specs.Prelude.{◌<◌, length, map};
ghost use Rattle.cb_model.specs.Forms.{clause_form};
ghost use Rattle.cb_model.specs.Written.{AreClauses};

use cb_circ::{CircError, Circuits, read_circuits};
use cb_model::{Circuit, Gate, RawClause};
use cb_syntax::read_clauses;
use std::alloc::Global;
use std::io::Write;
use std::test::Fail;

/// Writes the modules of a text, or why its facts are refused.
pub(crate) fn tell_facts(alloc: Global, text: &[u8], out: &mut Vec<u8>) -> Result<(), Fail> {
    if text.len() > 4_194_304 {
        return Ok(());
    }
    let clauses = read_clauses(alloc, text)?;
    let told = tell_clauses(alloc, clauses.as_slice(), out);
    drop(clauses);
    told
}

// The same of clauses.
fn tell_clauses(alloc: Global, clauses: &[RawClause<'_>], out: &mut Vec<u8>) -> Result<(), Fail>
    requires { AreClauses 4194304 (map clause_form clauses.now) }
{
    match read_circuits(alloc, clauses) {
        Ok(circuits) => {
            let told = push_modules(&circuits, out);
            drop(circuits);
            told
        }
        Err(error) => refuse(error, out),
    }
}

// Writes why facts are refused.
fn refuse(error: CircError, out: &mut Vec<u8>) -> Result<(), Fail> {
    writeln!(out, "{error}")?;
    Ok(())
}

// Writes modules.
fn push_modules(circuits: &Circuits<'_>, out: &mut Vec<u8>) -> Result<(), Fail> {
    for m in 0..circuits.modules() {
        tell_module(circuits, m, out)?;
    }
    writeln!(out, "end")?;
    Ok(())
}

// A module: its inputs, its number of outputs and its number of gates.
fn tell_module(circuits: &Circuits<'_>, m: u32, out: &mut Vec<u8>) -> Result<(), Fail>
    requires { m < length circuits.now.modules }
{
    out.extend_from_slice(b"inputs")?;
    for k in 0..circuits.inputs(m) {
        out.extend_from_slice(b" ")?;
        out.extend_from_slice(circuits.input_name(m, k))?;
    }
    let outputs = circuits.outputs(m);
    let gates = circuits.gates(m);
    writeln!(out, ", outputs {outputs}, gates {gates}")?;
    Ok(())
}

/// Writes how many modules a text has, and how many gates and nets its last one has when it is flattened; or why its
/// facts are refused.
pub(crate) fn tell_last(alloc: Global, text: &[u8], out: &mut Vec<u8>) -> Result<(), Fail> {
    if let Some((count, circuit)) = last_of(alloc, text, out)? {
        let gates = circuit.gates.len();
        let nets = circuit.nets;
        drop(circuit);
        writeln!(out, "{count} modules, gates {gates}, nets {nets}")?;
    }
    Ok(())
}

/// Writes the circuit of the last module of a text when it is flattened, or why its facts are refused.
pub(crate) fn tell_flat(alloc: Global, text: &[u8], out: &mut Vec<u8>) -> Result<(), Fail> {
    if let Some((_, circuit)) = last_of(alloc, text, out)? {
        let told = tell_circuit(&circuit, out);
        drop(circuit);
        return told;
    }
    Ok(())
}

/// How many modules a text has, and the circuit of the last one when it is flattened; where there is none, it writes why
/// the facts are refused.
pub(crate) fn last_of(
    alloc: Global,
    text: &[u8],
    out: &mut Vec<u8>,
) -> Result<Option<(u32, Circuit)>, Fail> {
    if text.len() > 4_194_304 {
        return Ok(None);
    }
    let clauses = read_clauses(alloc, text)?;
    let found = last_in(alloc, clauses.as_slice(), out);
    drop(clauses);
    found
}

// The same of clauses.
fn last_in(
    alloc: Global,
    clauses: &[RawClause<'_>],
    out: &mut Vec<u8>,
) -> Result<Option<(u32, Circuit)>, Fail>
    requires { AreClauses 4194304 (map clause_form clauses.now) }
{
    match read_circuits(alloc, clauses) {
        Ok(circuits) => {
            let found = last(alloc, &circuits);
            drop(circuits);
            found
        }
        Err(error) => {
            refuse(error, out)?;
            Ok(None)
        }
    }
}

// The same of circuits.
fn last(alloc: Global, circuits: &Circuits<'_>) -> Result<Option<(u32, Circuit)>, Fail> {
    let count = circuits.modules();
    if count == 0 {
        return Ok(None);
    }
    Ok(Some((count, circuits.flat(alloc, count - 1)?)))
}

// A circuit: its numbers of inputs and nets, the nets of its outputs, and its gates.
fn tell_circuit(circuit: &Circuit, out: &mut Vec<u8>) -> Result<(), Fail> {
    let inputs = circuit.inputs;
    let nets = circuit.nets;
    write!(out, "inputs {inputs}, nets {nets}, outputs")?;
    for net in circuit.outputs.as_slice() {
        write!(out, " {net}")?;
    }
    writeln!(out)?;
    for gate in circuit.gates.as_slice() {
        tell_gate(gate, out)?;
    }
    Ok(())
}

// A gate: its kind, the nets that it takes, and the net that it drives.
fn tell_gate(gate: &Gate, out: &mut Vec<u8>) -> Result<(), Fail> {
    let kind = gate.kind;
    write!(out, "{kind:?}")?;
    for net in gate.ins.as_slice() {
        write!(out, " {net}")?;
    }
    let net = gate.out;
    writeln!(out, " > {net}")?;
    Ok(())
}
