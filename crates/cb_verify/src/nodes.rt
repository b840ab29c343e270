ghost use Rattle.std.specs.Prelude.{◌≡◌, ◌-◌, ◌<◌, Bool, List, IsTrue, IfOk, [], ◌∷◌, length, true, false};
ghost use Rattle.cb_model.specs.Bits.{Bits};
ghost use Rattle.cb_model.specs.Circuits.{pins_of, gate_value};
ghost use Rattle.cb_model.specs.Outside.{Rose};
ghost use Rattle.cb_dd.specs.declared.Triple.{Triple};
ghost use Rattle.cb_dd.specs.Diagram.{IsNode, function_of};
ghost use Rattle.cb_ops.specs.Ops.{Grows};
ghost use Rattle.cb_verify.specs.Nodes.{Adds, AreNodes, node_bits, operator_value, chain_value};

use cb_dd::{Node, Stop};
use cb_model::GateKind;
use cb_ops::Ops;

/// An operator of chains.
#[derive(Clone, Copy)]
pub enum Operator {
    And,
    Or,
    Xor,
}

/// The node of an operator on two nodes.
pub fn apply(ops: &mut Ops, operator: Operator, f: Node, g: Node) -> Result<Node, Stop>
    requires f { IsNode ops.old.triples f.0 }
    requires g { IsNode ops.old.triples g.0 }
    ensures is_node { IfOk result (λ n. IsNode ops.new.triples n.0) }
    ensures function { IfOk result (λ n. (a : Bits) → function_of ops.new.triples n.0 a ≡ operator_value operator (function_of ops.old.triples f.0 a) (function_of ops.old.triples g.0 a)) }
    ensures grows { Grows ops.old ops.new }
    ensures room { Adds ops.old ops.new 1 (f ∷ g ∷ []) }
    ensures full { result ≡ Err Stop.Nodes → length ops.new.triples ≡ ops.new.budget }
    ensures rose { result ≡ Err Stop.Nodes → Rose ops.old.fulls ops.new.fulls }
{
    match operator {
        Operator::And => ops.and(f, g),
        Operator::Or => ops.or(f, g),
        Operator::Xor => ops.xor(f, g),
    }
}

/// The node of a chain of no operand.
#[tactic(auto, using(crate::proofs::Kept::constants))]
pub fn none(operator: Operator) -> Node
    ensures constant { result.0 < 2 }
    ensures function { (ts : List Triple) (a : Bits) → function_of ts result.0 a ≡ chain_value operator [] }
{
    match operator {
        Operator::And => Node::ONE,
        Operator::Or => Node::ZERO,
        Operator::Xor => Node::ZERO,
    }
}

/// The node of a chain of operands.
pub fn chain(ops: &mut Ops, operator: Operator, nodes: &[Node]) -> Result<Node, Stop>
    requires nodes { AreNodes ops.old.triples nodes.now }
    ensures is_node { IfOk result (λ n. IsNode ops.new.triples n.0) }
    ensures function { IfOk result (λ n. (a : Bits) → function_of ops.new.triples n.0 a ≡ chain_value operator (node_bits ops.old.triples nodes.now a)) }
    ensures grows { Grows ops.old ops.new }
    ensures room { Adds ops.old ops.new (length nodes.now - 1) nodes.now }
    ensures full { result ≡ Err Stop.Nodes → length ops.new.triples ≡ ops.new.budget }
    ensures rose { result ≡ Err Stop.Nodes → Rose ops.old.fulls ops.new.fulls }
{
    let Some((first, rest)) = nodes.split_first() else {
        return Ok(none(operator));
    };
    let mut node = *first;
    for next in rest {
        node = apply(ops, operator, node, *next)?;
    }
    Ok(node)
}

/// The node of a gate, over the nodes of its pins.
#[tactic(auto, using(crate::proofs::Kept::constants))]
pub fn gate(ops: &mut Ops, kind: GateKind, pins: &[Node]) -> Result<Node, Stop>
    requires pins { AreNodes ops.old.triples pins.now }
    requires number { pins_of kind (length pins.now) ≡ true }
    ensures is_node { IfOk result (λ n. IsNode ops.new.triples n.0) }
    ensures function { IfOk result (λ n. (a : Bits) → function_of ops.new.triples n.0 a ≡ gate_value kind (node_bits ops.old.triples pins.now a)) }
    ensures grows { Grows ops.old ops.new }
    ensures room { Adds ops.old ops.new (length pins.now) pins.now }
    ensures full { result ≡ Err Stop.Nodes → length ops.new.triples ≡ ops.new.budget }
    ensures rose { result ≡ Err Stop.Nodes → Rose ops.old.fulls ops.new.fulls }
{
    match kind {
        GateKind::Zero => Ok(Node::ZERO),
        GateKind::One => Ok(Node::ONE),
        GateKind::Buf => Ok(pins[0]),
        GateKind::Not => ops.not(pins[0]),
        GateKind::And => chain(ops, Operator::And, pins),
        GateKind::Or => chain(ops, Operator::Or, pins),
        GateKind::Xor => chain(ops, Operator::Xor, pins),
        GateKind::Nand => {
            let all = chain(ops, Operator::And, pins)?;
            ops.not(all)
        }
        GateKind::Nor => {
            let some = chain(ops, Operator::Or, pins)?;
            ops.not(some)
        }
        GateKind::Xnor => {
            let odd = chain(ops, Operator::Xor, pins)?;
            ops.not(odd)
        }
        GateKind::Mux => ops.ite(pins[0], pins[2], pins[1]),
    }
}
