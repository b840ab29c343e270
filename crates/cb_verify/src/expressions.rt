ghost use Rattle.std.specs.Prelude.{◌≡◌, ◌+◌, ◌-◌, Bool, List, [], IfOk, map, length, sum, true};
ghost use Rattle.cb_model.specs.Bits.{Bits, all_of, bits_of};
ghost use Rattle.cb_model.specs.Values.{expr_value, in_scope};
ghost use Rattle.cb_model.specs.Room.{expr_size};
ghost use Rattle.cb_dd.specs.Diagram.{IsNode, function_of};
ghost use Rattle.cb_ops.specs.Ops.{Grows};
ghost use Rattle.cb_verify.specs.Nodes.{Adds, AreNodes, chain_value, node_bits};

use crate::nodes::{Operator, apply, none};
use cb_dd::{Node, Stop};
use cb_model::Expr;
use cb_ops::Ops;
use std::alloc::Global;

/// The node of an expression over the nodes of its inputs.
#[cycle(halves)]
#[tactic(auto, using(crate::proofs::Kept::constants))]
fn expression(ops: &mut Ops, inputs: &[Node], e: &Expr) -> Result<Node, Stop>
    requires inputs { AreNodes ops.old.triples inputs.now }
    requires scope { in_scope 0 (length inputs.now) e.now ≡ true }
    ensures is_node { IfOk result (λ n. IsNode ops.new.triples n.0) }
    ensures function { IfOk result (λ n. (a : Bits) → function_of ops.new.triples n.0 a ≡ expr_value (bits_of []) (bits_of (node_bits ops.old.triples inputs.now a)) e.now) }
    ensures grows { Grows ops.old ops.new }
    ensures room { Adds ops.old ops.new (expr_size e.now) inputs.now }
    ensures full { result ≡ Err Stop.Nodes → length ops.new.triples ≡ ops.new.budget }
{
    match e {
        Expr::Zero => Ok(Node::ZERO),
        Expr::One => Ok(Node::ONE),
        Expr::Const(_) => unreachable!(),
        Expr::Var(n) => Ok(inputs[*n as usize]),
        Expr::Not(x) => {
            let node = expression(ops, inputs, x.get())?;
            ops.not(node)
        }
        Expr::And(xs) => operands(ops, Operator::And, inputs, xs.as_slice()),
        Expr::Xor(xs) => operands(ops, Operator::Xor, inputs, xs.as_slice()),
        Expr::Or(xs) => operands(ops, Operator::Or, inputs, xs.as_slice()),
    }
}

/// The node of a chain of operands: of its first half and of the second, each by halves again, so that a long chain takes
/// little more time than its diagram has nodes, whichever order its inputs have.
#[cycle(halves)]
fn operands(ops: &mut Ops, operator: Operator, inputs: &[Node], xs: &[Expr]) -> Result<Node, Stop>
    requires inputs { AreNodes ops.old.triples inputs.now }
    requires scope { all_of (map (in_scope 0 (length inputs.now)) xs.now) ≡ true }
    ensures is_node { IfOk result (λ n. IsNode ops.new.triples n.0) }
    ensures function { IfOk result (λ n. (a : Bits) → function_of ops.new.triples n.0 a ≡ chain_value operator (map (expr_value (bits_of []) (bits_of (node_bits ops.old.triples inputs.now a))) xs.now)) }
    ensures grows { Grows ops.old ops.new }
    ensures room { Adds ops.old ops.new (sum (map expr_size xs.now) + (length xs.now - 1)) inputs.now }
    ensures full { result ≡ Err Stop.Nodes → length ops.new.triples ≡ ops.new.budget }
{
    match xs {
        [] => Ok(none(operator)),
        [x] => expression(ops, inputs, x),
        _ => {
            let half = xs.len() / 2;
            let left = operands(ops, operator, inputs, &xs[..half])?;
            let right = operands(ops, operator, inputs, &xs[half..])?;
            apply(ops, operator, left, right)
        }
    }
}

/// The nodes of expressions over the nodes of their inputs.
pub fn expressions(
    alloc: Global,
    ops: &mut Ops,
    inputs: &[Node],
    wanted: &[Expr],
) -> Result<Vec<Node>, Stop>
    requires inputs { AreNodes ops.old.triples inputs.now }
    requires scope { all_of (map (in_scope 0 (length inputs.now)) wanted.now) ≡ true }
    ensures nodes { IfOk result (λ ns. AreNodes ops.new.triples ns.items) }
    ensures functions { IfOk result (λ ns. (a : Bits) → node_bits ops.new.triples ns.items a ≡ map (expr_value (bits_of []) (bits_of (node_bits ops.old.triples inputs.now a))) wanted.now) }
    ensures grows { Grows ops.old ops.new }
    ensures room { Adds ops.old ops.new (sum (map expr_size wanted.now)) inputs.now }
    ensures full { result ≡ Err Stop.Nodes → length ops.new.triples ≡ ops.new.budget }
{
    let mut nodes = Vec::new(alloc);
    for one in wanted {
        let node = expression(ops, inputs, one)?;
        let Ok(_) = nodes.push(node) else {
            return Err(Stop::Memory);
        };
    }
    Ok(nodes)
}
