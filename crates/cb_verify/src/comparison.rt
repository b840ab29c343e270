ghost use Rattle.std.specs.Prelude.{◌≡◌, ◌≢◌, ◌+◌, ◌-◌, ◌*◌, ◌^◌, ◌<◌, ◌≤◌, Err, IfOk, length};
ghost use Rattle.cb_model.specs.Bits.{Bits};
ghost use Rattle.cb_model.specs.Circuits.{Flat};
ghost use Rattle.cb_model.specs.Room.{circuit_pins, room_v};
ghost use Rattle.cb_ops.specs.Ops.{Grows};
ghost use Rattle.cb_verify.specs.Nodes.{Adds, AreNodes, node_bits};
ghost use Rattle.cb_verify.specs.Order.{IsFlattened};
ghost use Rattle.cb_verify.specs.Verdict.{IsRight};
ghost use Rattle.cb_verify.specs.Wanted.{Wants, FitsInputs, outputs_of, size_of};

use crate::Verdict;
use crate::circuits::literals_at;
use crate::expressions::expressions;
use crate::least::verdict;
use crate::places::Places;
use crate::unfolding::unfold_circuit;
use cb_dd::{Node, Stop};
use cb_model::{Circuit, Expr};
use cb_ops::Ops;
use std::alloc::Global;

/// What is wanted of the outputs of a circuit.
#[derive(Clone, Copy)]
pub(crate) enum Wanted<'a> {
    /// The values of expressions over its inputs.
    Spec(&'a [Expr]),
    /// The outputs of a second circuit at the same inputs.
    Second(&'a Circuit),
}

/// The nodes of what is wanted, over the nodes of the inputs.
fn wanted_nodes(
    alloc: Global,
    ops: &mut Ops,
    wanted: Wanted<'_>,
    inputs: &[Node],
) -> Result<Vec<Node>, Stop>
    requires nodes { AreNodes ops.old.triples inputs.now }
    requires fits { FitsInputs wanted (length inputs.now) }
    ensures nodes { IfOk result (λ ns. AreNodes ops.new.triples ns.items) }
    ensures values { IfOk result (λ ns. (a : Bits) → Wants wanted.entry (node_bits ops.old.triples inputs.now a) (node_bits ops.new.triples ns.items a)) }
    ensures grows { Grows ops.old ops.new }
    ensures room { Adds ops.old ops.new (size_of wanted.entry) inputs.now }
    ensures full { result ≡ Err Stop.Nodes → length ops.new.triples ≡ ops.new.budget }
{
    match wanted {
        Wanted::Spec(exprs) => expressions(alloc, ops, inputs, exprs),
        Wanted::Second(circuit) => unfold_circuit(alloc, ops, circuit, inputs),
    }
}

/// The comparison of a circuit with what is wanted of it, in a store of nodes.
fn decide(
    alloc: Global,
    ops: &mut Ops,
    circuit: &Circuit,
    wanted: Wanted<'_>,
) -> Result<Verdict, Stop>
    requires flattened { (f : Flat) × IsFlattened f circuit.now }
    requires fits { FitsInputs wanted circuit.now.inputs }
    requires as_many { outputs_of wanted ≡ length circuit.now.outputs }
    ensures verdict { IfOk result (IsRight circuit.now (Wants wanted.entry)) }
    ensures grows { Grows ops.old ops.new }
    ensures room { length ops.new.triples ≤ length ops.old.triples + circuit.now.inputs + (circuit_pins circuit.now + size_of wanted.entry + length circuit.now.outputs) * (2 * 2 ^ circuit.now.inputs) }
    ensures full { result ≡ Err Stop.Nodes → length ops.new.triples ≡ ops.new.budget }
{
    let Ok(places) = Places::of(alloc, circuit) else {
        return Err(Stop::Memory);
    };
    let inputs = literals_at(alloc, ops, places.levels.as_slice())?;
    let nodes = inputs.as_slice();
    let got = unfold_circuit(alloc, ops, circuit, nodes)?;
    let values = wanted_nodes(alloc, ops, wanted, nodes)?;
    let verdict = verdict(alloc, ops, &places, got.as_slice(), values.as_slice())?;
    Ok(verdict)
}

/// Lets a store of nodes go.
fn end(_ops: Ops) {}

/// The comparison of a circuit with what is wanted of it, with at most `budget` nodes.
pub(crate) fn compared(
    alloc: Global,
    circuit: &Circuit,
    wanted: Wanted<'_>,
    budget: usize,
) -> Result<Verdict, Stop>
    requires flattened { (f : Flat) × IsFlattened f circuit.now }
    requires fits { FitsInputs wanted circuit.now.inputs }
    requires as_many { outputs_of wanted ≡ length circuit.now.outputs }
    ensures verdict { IfOk result (IsRight circuit.now (Wants wanted.entry)) }
    ensures nodes { result ≡ Err Stop.Nodes → budget < room_v (circuit_pins circuit.now + size_of wanted.entry) 0 (length circuit.now.outputs) circuit.now.inputs }
    ensures unbounded { result ≡ Err Stop.Nodes → budget ≢ 2 ^ 64 - 1 }
{
    let Ok(mut ops) = Ops::new(alloc, budget) else {
        return Err(Stop::Memory);
    };
    let verdict = decide(alloc, &mut ops, circuit, wanted);
    // What the store promises of its number of nodes holds here too, after a stop.
    let _count = ops.count();
    end(ops);
    verdict
}
