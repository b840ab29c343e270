//! The node of an expression over the slots of its variables.

ghost use Rattle.std.specs.Prelude.{◌≡◌, ◌+◌, ◌-◌, ◌<◌, ◌≤◌, List, [], ◌∷◌, IfOk, OnErr, map, sum, length, Err};
ghost use Rattle.cb_model.specs.Bits.{Bits};
ghost use Rattle.cb_dd.specs.declared.Triple.{Triple};
ghost use Rattle.cb_model.specs.Room.{expr_size};
ghost use Rattle.cb_dd.specs.Diagram.{IsNode, function_of, fulls_after};
ghost use Rattle.cb_ops.specs.Ops.{Grows, StandsFor, Room};
ghost use Rattle.cb_elim.specs.Store.{AreThere};
ghost use Rattle.cb_elim.specs.Expression.{ChainRoom, ExprRoom, IsApplied, IsBitOf, IsChainOf, IsValueOf, chain_value};

use crate::Slot;
use cb_dd::{Node, Stop};
use cb_model::Expr;
use cb_ops::Ops;

/// A connective of any number of operands.
#[derive(Clone, Copy)]
enum Operator {
    And,
    Or,
    Xor,
}

/// The node of the connective of two nodes.
fn apply(ops: &mut Ops, operator: Operator, f: Node, g: Node) -> Result<Node, Stop>
    requires f { IsNode ops.old.triples f.0 }
    requires g { IsNode ops.old.triples g.0 }
    ensures is_node { IfOk result (λ n. IsNode ops.new.triples n.0) }
    ensures function { IfOk result (λ n. IsApplied ops.old.triples ops.new.triples operator f.0 g.0 n.0) }
    ensures grows { Grows ops.old ops.new }
    ensures room { Room (f.0 ∷ g.0 ∷ []) 2 ops.old ops.new }
    ensures full { result ≡ Err Stop.Nodes → length ops.new.triples ≡ ops.new.budget }
    ensures fulls { ops.new.fulls ≡ fulls_after ops.old.fulls result }
{
    match operator {
        Operator::And => ops.and(f, g),
        Operator::Or => ops.or(f, g),
        Operator::Xor => ops.xor(f, g),
    }
}

/// The node of the connective of no operand.
#[tactic(auto, using(crate::proofs::Expressions::constants))]
fn none(operator: Operator) -> Node
    ensures constant { result.0 < 2 }
    ensures function { (ts : List Triple) (a : Bits) → function_of ts result.0 a ≡ chain_value operator [] }
{
    match operator {
        Operator::And => Node::ONE,
        Operator::Or => Node::ZERO,
        Operator::Xor => Node::ZERO,
    }
}

/// The node of a variable: the value of its slot, and 0 where it has none.
fn variable(ops: &Ops, slots: &[Node], vars: &[Option<Slot>], n: u32) -> Node
    requires { AreThere ops.now.triples slots.now }
    ensures is_node { IsNode ops.now.triples result.0 }
    ensures function { IsBitOf ops.now.triples slots.now vars.now n result.0 }
{
    let at = n as usize;
    if vars.len() <= at {
        return Node::ZERO;
    }
    let Some(slot) = vars[at] else {
        return Node::ZERO;
    };
    if slots.len() <= slot.0 {
        return Node::ZERO;
    }
    slots[slot.0]
}

/// The node of the bit at a level.
fn literal(ops: &mut Ops, level: u32) -> Result<Node, Stop>
    ensures is_node { IfOk result (λ n. IsNode ops.new.triples n.0) }
    ensures function { IfOk result (λ n. StandsFor ops.new.triples n.0 (λ a. a level)) }
    ensures grows { Grows ops.old ops.new }
    ensures one { length ops.new.triples ≤ length ops.old.triples + 1 }
    ensures full { result ≡ Err Stop.Nodes → length ops.new.triples ≡ ops.new.budget }
    ensures fulls { ops.new.fulls ≡ fulls_after ops.old.fulls result }
{
    let n = ops.node(level, Node::ZERO, Node::ONE)?;
    Ok(n)
}

/// The node of an expression.
#[cycle(expressions)]
#[tactic(auto, using(crate::proofs::Expressions::constants))]
pub(crate) fn expression(
    ops: &mut Ops,
    slots: &[Node],
    vars: &[Option<Slot>],
    e: &Expr,
) -> Result<Node, Stop>
    requires { AreThere ops.old.triples slots.now }
    ensures is_node { IfOk result (λ n. IsNode ops.new.triples n.0) }
    ensures function { IfOk result (λ n. IsValueOf ops.old.triples ops.new.triples slots.now vars.now e.now n.0) }
    ensures grows { Grows ops.old ops.new }
    ensures room { ExprRoom slots.now (length vars.now) e.now ops.old ops.new }
    ensures some { OnErr result (0 < expr_size e.now) }
    ensures full { result ≡ Err Stop.Nodes → length ops.new.triples ≡ ops.new.budget }
    ensures fulls { ops.new.fulls ≡ fulls_after ops.old.fulls result }
{
    match e {
        Expr::Zero => Ok(Node::ZERO),
        Expr::One => Ok(Node::ONE),
        Expr::Const(k) => {
            let n = literal(ops, *k)?;
            Ok(n)
        }
        Expr::Var(n) => Ok(variable(ops, slots, vars, *n)),
        Expr::Not(x) => {
            let node = expression(ops, slots, vars, x.get())?;
            ops.not(node)
        }
        Expr::And(xs) => operands(ops, Operator::And, slots, vars, xs.as_slice()),
        Expr::Xor(xs) => operands(ops, Operator::Xor, slots, vars, xs.as_slice()),
        Expr::Or(xs) => operands(ops, Operator::Or, slots, vars, xs.as_slice()),
    }
}

/// The node of a connective of expressions: of the first half and of the second, so that a long chain is put together from
/// parts of one length.
#[cycle(expressions)]
fn operands(
    ops: &mut Ops,
    operator: Operator,
    slots: &[Node],
    vars: &[Option<Slot>],
    xs: &[Expr],
) -> Result<Node, Stop>
    requires { AreThere ops.old.triples slots.now }
    ensures is_node { IfOk result (λ n. IsNode ops.new.triples n.0) }
    ensures function { IfOk result (λ n. IsChainOf ops.old.triples ops.new.triples slots.now vars.now operator xs.now n.0) }
    ensures grows { Grows ops.old ops.new }
    ensures room { ChainRoom slots.now (length vars.now) xs.now ops.old ops.new }
    ensures some { OnErr result (0 < sum (map expr_size xs.now) + (length xs.now - 1)) }
    ensures full { result ≡ Err Stop.Nodes → length ops.new.triples ≡ ops.new.budget }
    ensures fulls { ops.new.fulls ≡ fulls_after ops.old.fulls result }
{
    match xs {
        [] => Ok(none(operator)),
        [x] => expression(ops, slots, vars, x),
        _ => {
            let half = xs.len() / 2;
            let left = operands(ops, operator, slots, vars, &xs[..half])?;
            let right = operands(ops, operator, slots, vars, &xs[half..])?;
            apply(ops, operator, left, right)
        }
    }
}
