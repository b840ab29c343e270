ghost use Rattle.std.specs.Prelude.{ℕ, ◌++◌, ◌+◌, ◌*◌, ◌^◌, ◌<◌, ◌≤◌, ◌≡◌, ◌≢◌, true, replicate, Err, Bool, List, IfOk, map, length};
ghost use Rattle.cb_model.specs.Bits.{Bits, Each};
ghost use Rattle.cb_model.specs.Circuits.{pins_of, gate_value, Consistent};
ghost use Rattle.cb_model.specs.Outside.{Rose};
ghost use Rattle.cb_dd.specs.Diagram.{IsNode, function_of};
ghost use Rattle.cb_ops.specs.Ops.{Grows};
ghost use Rattle.cb_verify.specs.Nodes.{Adds, AreNodes, DependOn, node_at, node_bits};
ghost use Rattle.cb_verify.specs.Order.{CanEvaluate, pins_in};

use crate::pins::gate_over;
use cb_dd::{Node, Stop};
use cb_model::{Circuit, Gate};
use cb_ops::Ops;
use std::alloc::Global;

/// The nodes of a circuit's inputs, and room for those of its gates.
fn with_room(alloc: Global, inputs: &[Node], gates: usize) -> Result<Vec<Node>, Stop>
    ensures nodes { IfOk result (λ ns. ns.items ≡ inputs.now ++ replicate gates (record { 0 = 0 })) }
    ensures memory { result ≢ Err Stop.Nodes }
{
    let mut nodes = Vec::new(alloc);
    for node in inputs {
        let Ok(_) = nodes.push(*node) else {
            return Err(Stop::Memory);
        };
    }
    for _ in 0..gates {
        let Ok(_) = nodes.push(Node::ZERO) else {
            return Err(Stop::Memory);
        };
    }
    Ok(nodes)
}

/// The node of a gate over the nodes of the nets.
fn gate_node(ops: &mut Ops, part: &Gate, nodes: &[Node]) -> Result<Node, Stop>
    requires nodes { AreNodes ops.old.triples nodes.now }
    requires within { Each (λ k. k < length nodes.now) part.now.ins }
    requires number { pins_of part.now.kind (length part.now.ins) ≡ true }
    ensures is_node { IfOk result (λ n. IsNode ops.new.triples n.0) }
    ensures function { IfOk result (λ n. (a : Bits) → function_of ops.new.triples n.0 a ≡ gate_value part.now.kind (node_bits ops.old.triples (map (node_at nodes.now) part.now.ins) a)) }
    ensures grows { Grows ops.old ops.new }
    ensures room { Adds ops.old ops.new (length part.now.ins) (map (node_at nodes.now) part.now.ins) }
    ensures full { result ≡ Err Stop.Nodes → length ops.new.triples ≡ ops.new.budget }
    ensures rose { result ≡ Err Stop.Nodes → Rose ops.old.fulls ops.new.fulls }
{
    gate_over(ops, part.kind, nodes, part.ins.as_slice())
}

/// The nodes of all nets of a circuit over those of its inputs, gate by gate in an order in which each gate comes
/// after those whose outputs it takes.
pub fn ordered_nodes(
    alloc: Global,
    ops: &mut Ops,
    circuit: &Circuit,
    order: &[u32],
    inputs: &[Node],
) -> Result<Vec<Node>, Stop>
    requires inputs { AreNodes ops.old.triples inputs.now }
    requires as_many { length inputs.now ≡ circuit.now.inputs }
    requires order { CanEvaluate circuit.now order.now }
    ensures nodes { IfOk result (λ ns. AreNodes ops.new.triples ns.items) }
    ensures nets { IfOk result (λ ns. (a : Bits) (v : List Bool) → Consistent circuit.now (node_bits ops.old.triples inputs.now a) v → node_bits ops.new.triples ns.items a ≡ v) }
    ensures grows { Grows ops.old ops.new }
    ensures room { (ls : List ℕ) → DependOn ops.old.triples inputs.now ls → length ops.new.triples ≤ length ops.old.triples + pins_in circuit.now order.now * (2 * 2 ^ length ls) }
    ensures full { result ≡ Err Stop.Nodes → length ops.new.triples ≡ ops.new.budget }
    ensures rose { result ≡ Err Stop.Nodes → Rose ops.old.fulls ops.new.fulls }
{
    let mut nodes = with_room(alloc, inputs, circuit.gates.len())?;
    for k in order {
        let node = gate_node(ops, &circuit.gates.as_slice()[*k as usize], &nodes)?;
        let net = circuit.inputs as usize + *k as usize;
        nodes[net] = node;
    }
    Ok(nodes)
}
