ghost use Rattle.std.specs.Prelude.{◌≡◌, ◌-◌, ◌<◌, ◌≤◌, Err, IfOk, map, length, not, true};
ghost use Rattle.cb_model.specs.Bits.{Bits, Each};
ghost use Rattle.cb_model.specs.Circuits.{pins_of, gate_value};
ghost use Rattle.cb_model.specs.Outside.{Rose};
ghost use Rattle.cb_dd.specs.Diagram.{IsNode, function_of};
ghost use Rattle.cb_ops.specs.Ops.{Grows};
ghost use Rattle.cb_verify.specs.Nodes.{Adds, AreNodes, node_at, node_bits, chain_value};

use crate::nodes::{Operator, apply, none};
use cb_dd::{Node, Stop};
use cb_model::GateKind;
use cb_ops::Ops;

/// The node of a chain over the nodes of nets.
fn chain_over(ops: &mut Ops, operator: Operator, nodes: &[Node], pins: &[u32]) -> Result<Node, Stop>
    requires nodes { AreNodes ops.old.triples nodes.now }
    requires within { Each (λ k. k < length nodes.now) pins.now }
    ensures is_node { IfOk result (λ n. IsNode ops.new.triples n.0) }
    ensures function { IfOk result (λ n. (a : Bits) → function_of ops.new.triples n.0 a ≡ chain_value operator (node_bits ops.old.triples (map (node_at nodes.now) pins.now) a)) }
    ensures grows { Grows ops.old ops.new }
    ensures room { Adds ops.old ops.new (length pins.now - 1) (map (node_at nodes.now) pins.now) }
    ensures full { result ≡ Err Stop.Nodes → length ops.new.triples ≡ ops.new.budget }
    ensures rose { result ≡ Err Stop.Nodes → Rose ops.old.fulls ops.new.fulls }
{
    let Some((first, rest)) = pins.split_first() else {
        return Ok(none(operator));
    };
    let mut node = nodes[*first as usize];
    for pin in rest {
        node = apply(ops, operator, node, nodes[*pin as usize])?;
    }
    Ok(node)
}

/// The complement of the node of a chain over the nodes of nets.
fn not_chain_over(
    ops: &mut Ops,
    operator: Operator,
    nodes: &[Node],
    pins: &[u32],
) -> Result<Node, Stop>
    requires nodes { AreNodes ops.old.triples nodes.now }
    requires within { Each (λ k. k < length nodes.now) pins.now }
    requires some { 1 ≤ length pins.now }
    ensures is_node { IfOk result (λ n. IsNode ops.new.triples n.0) }
    ensures function { IfOk result (λ n. (a : Bits) → function_of ops.new.triples n.0 a ≡ not (chain_value operator (node_bits ops.old.triples (map (node_at nodes.now) pins.now) a))) }
    ensures grows { Grows ops.old ops.new }
    ensures room { Adds ops.old ops.new (length pins.now) (map (node_at nodes.now) pins.now) }
    ensures full { result ≡ Err Stop.Nodes → length ops.new.triples ≡ ops.new.budget }
    ensures rose { result ≡ Err Stop.Nodes → Rose ops.old.fulls ops.new.fulls }
{
    let node = chain_over(ops, operator, nodes, pins)?;
    ops.not(node)
}

/// The node of a gate over the nodes of the nets that its pins take.
#[tactic(auto, using(crate::proofs::Kept::constants))]
pub fn gate_over(ops: &mut Ops, kind: GateKind, nodes: &[Node], pins: &[u32]) -> Result<Node, Stop>
    requires nodes { AreNodes ops.old.triples nodes.now }
    requires within { Each (λ k. k < length nodes.now) pins.now }
    requires number { pins_of kind (length pins.now) ≡ true }
    ensures is_node { IfOk result (λ n. IsNode ops.new.triples n.0) }
    ensures function { IfOk result (λ n. (a : Bits) → function_of ops.new.triples n.0 a ≡ gate_value kind (node_bits ops.old.triples (map (node_at nodes.now) pins.now) a)) }
    ensures grows { Grows ops.old ops.new }
    ensures room { Adds ops.old ops.new (length pins.now) (map (node_at nodes.now) pins.now) }
    ensures full { result ≡ Err Stop.Nodes → length ops.new.triples ≡ ops.new.budget }
    ensures rose { result ≡ Err Stop.Nodes → Rose ops.old.fulls ops.new.fulls }
{
    match kind {
        GateKind::Zero => Ok(Node::ZERO),
        GateKind::One => Ok(Node::ONE),
        GateKind::Buf => Ok(nodes[pins[0] as usize]),
        GateKind::Not => ops.not(nodes[pins[0] as usize]),
        GateKind::And => chain_over(ops, Operator::And, nodes, pins),
        GateKind::Or => chain_over(ops, Operator::Or, nodes, pins),
        GateKind::Xor => chain_over(ops, Operator::Xor, nodes, pins),
        GateKind::Nand => not_chain_over(ops, Operator::And, nodes, pins),
        GateKind::Nor => not_chain_over(ops, Operator::Or, nodes, pins),
        GateKind::Xnor => not_chain_over(ops, Operator::Xor, nodes, pins),
        GateKind::Mux => ops.ite(
            nodes[pins[0] as usize],
            nodes[pins[2] as usize],
            nodes[pins[1] as usize],
        ),
    }
}
