ghost use Rattle.std.specs.Prelude.{◌≡◌, Err, IfOk, length};
ghost use Rattle.cb_model.specs.Bits.{Bits};
ghost use Rattle.cb_model.specs.Circuits.{Flat, Outputs};
ghost use Rattle.cb_model.specs.Room.{circuit_pins};
ghost use Rattle.cb_model.specs.Outside.{Rose};
ghost use Rattle.cb_ops.specs.Ops.{Grows};
ghost use Rattle.cb_verify.specs.Nodes.{Adds, AreNodes, node_bits};
ghost use Rattle.cb_verify.specs.Order.{IsFlattened};

use crate::circuits::nodes_at;
use crate::ordered::ordered_nodes;
use crate::sequence::gate_order;
use cb_dd::{Node, Stop};
use cb_model::Circuit;
use cb_ops::Ops;
use std::alloc::Global;

/// The nodes of a circuit's outputs over those of its inputs.
pub fn unfold_circuit(
    alloc: Global,
    ops: &mut Ops,
    circuit: &Circuit,
    inputs: &[Node],
) -> Result<Vec<Node>, Stop>
    requires flattened { (f : Flat) × IsFlattened f circuit.now }
    requires nodes { AreNodes ops.old.triples inputs.now }
    requires as_many { length inputs.now ≡ circuit.now.inputs }
    ensures nodes { IfOk result (λ ns. AreNodes ops.new.triples ns.items) }
    ensures outputs { IfOk result (λ ns. (a : Bits) → Outputs circuit.now (node_bits ops.old.triples inputs.now a) (node_bits ops.new.triples ns.items a)) }
    ensures grows { Grows ops.old ops.new }
    ensures room { Adds ops.old ops.new (circuit_pins circuit.now) inputs.now }
    ensures full { result ≡ Err Stop.Nodes → length ops.new.triples ≡ ops.new.budget }
    ensures rose { result ≡ Err Stop.Nodes → Rose ops.old.fulls ops.new.fulls }
{
    let Ok(order) = gate_order(alloc, circuit) else {
        return Err(Stop::Memory);
    };
    let nodes = ordered_nodes(alloc, ops, circuit, order.as_slice(), inputs)?;
    let outputs = nodes_at(alloc, nodes.as_slice(), circuit.outputs.as_slice())?;
    Ok(outputs)
}
