//! The nodes of a module's outputs.

ghost use Rattle.std.specs.Prelude.{◌≡◌, ◌<◌, length, map};
ghost use Rattle.cb_model.specs.Forms.{clause_form};
ghost use Rattle.cb_model.specs.Written.{AreClauses};
ghost use Rattle.cb_circ.specs.At.{flat_at};

use cb_circ::{Circuits, read_circuits};
use cb_dd::Node;
use cb_model::RawClause;
use cb_ops::Ops;
use cb_syntax::read_clauses;
use cb_trial::checked::{bit, end, is_here, restrict};
use cb_verify::unfold;
use std::alloc::Global;
use std::io::Write;
use std::test::Fail;

// The outputs of the last module of a text, where that has two inputs, over the first two levels: of each output the bits
// where these are 0 and 0, 0 and 1, 1 and 0, 1 and 1.
pub(crate) fn tell_unfolded(alloc: Global, text: &[u8], out: &mut Vec<u8>) -> Result<(), Fail> {
    if text.len() > 4_194_304 {
        return Ok(());
    }
    let clauses = read_clauses(alloc, text)?;
    let told = tell_clauses(alloc, clauses.as_slice(), out);
    drop(clauses);
    told
}

// The same of clauses.
fn tell_clauses(alloc: Global, clauses: &[RawClause<'_>], out: &mut Vec<u8>) -> Result<(), Fail>
    requires { AreClauses 4194304 (map clause_form clauses.now) }
{
    let circuits = read_circuits(alloc, clauses)?;
    let told = tell_last(alloc, &circuits, out);
    drop(circuits);
    told
}

// The same of circuits.
fn tell_last(alloc: Global, circuits: &Circuits<'_>, out: &mut Vec<u8>) -> Result<(), Fail> {
    let count = circuits.modules();
    if count == 0 {
        return Ok(());
    }
    let circuit = circuits.flat(alloc, count - 1)?;
    let inputs = circuit.inputs;
    drop(circuit);
    if inputs == 2 {
        return tell_of_two(alloc, circuits, count - 1, out);
    }
    Ok(())
}

// The outputs of a module of two inputs.
fn tell_of_two(
    alloc: Global,
    circuits: &Circuits<'_>,
    m: u32,
    out: &mut Vec<u8>,
) -> Result<(), Fail>
    requires module { m < length circuits.now.modules }
    requires inputs { (flat_at circuits.now m).inputs ≡ 2 }
{
    let mut ops = Ops::new(alloc, 1000)?;
    let told = tell_over(alloc, circuits, m, &mut ops, out);
    end(ops);
    told
}

// The same in a store of nodes.
fn tell_over(
    alloc: Global,
    circuits: &Circuits<'_>,
    m: u32,
    ops: &mut Ops,
    out: &mut Vec<u8>,
) -> Result<(), Fail>
    requires module { m < length circuits.now.modules }
    requires inputs { (flat_at circuits.now m).inputs ≡ 2 }
{
    let first = bit(ops, 0)?;
    let second = bit(ops, 1)?;
    if is_here(ops, first) && is_here(ops, second) {
        let nodes = unfold(alloc, circuits, m, &[first, second], ops)?;
        for node in nodes.as_slice() {
            tell_node(ops, *node, out)?;
        }
    }
    Ok(())
}

// The bits of a node at the first two levels.
fn tell_node(ops: &mut Ops, node: Node, out: &mut Vec<u8>) -> Result<(), Fail> {
    for first in [false, true] {
        let side = restrict(ops, node, 0, first)?;
        for second in [false, true] {
            let bit = restrict(ops, side, 1, second)?;
            let text = if bit == Node::ONE {
                "1"
            } else if bit == Node::ZERO {
                "0"
            } else {
                "?"
            };
            write!(out, "{text}")?;
        }
    }
    writeln!(out)?;
    Ok(())
}
