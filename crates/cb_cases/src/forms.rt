//! Answers worked out by hand.

ghost use Rattle.std.specs.Prelude.{◌≡◌, ◌<◌, length, true, IfOk};
ghost use Rattle.cb_model.specs.Bits.{Each};
ghost use Rattle.cb_model.specs.Values.{in_scope};
ghost use Rattle.cb_elim.specs.Store.{IsStore};

use crate::setup::{end, said, with_variables};
use cb_dd::{Node, Stop};
use cb_elim::{Slot, Store};
use cb_model::Expr;
use cb_ops::Ops;
use cb_project::{Projected, general};
use cb_trial::checked::parts;
use cb_trial::text::push;
use sqlite_items::Items;
use std::alloc::{AllocError, Global};
use std::io::Write;
use std::test::Fail;

// The first variable, turned where the constant is 1.
fn turned(alloc: Global) -> Result<Expr, AllocError>
    ensures { IfOk result (λ e. in_scope 1 2 e ≡ true) }
{
    let mut operands = Items::new(alloc);
    operands.push(Expr::Var(0))?;
    operands.push(Expr::Const(0))?;
    Ok(Expr::Xor(operands))
}

// The first variable times the constant.
fn product(alloc: Global) -> Result<Expr, AllocError>
    ensures { IfOk result (λ e. in_scope 1 2 e ≡ true) }
{
    let mut factors = Items::new(alloc);
    factors.push(Expr::Var(0))?;
    factors.push(Expr::Const(0))?;
    Ok(Expr::And(factors))
}

// One of both variables.
fn either(alloc: Global) -> Result<Expr, AllocError>
    ensures { IfOk result (λ e. in_scope 1 2 e ≡ true) }
{
    let mut operands = Items::new(alloc);
    operands.push(Expr::Var(0))?;
    operands.push(Expr::Var(1))?;
    Ok(Expr::Or(operands))
}

// Adds the equation of two expressions over two variables.
fn equate(store: &mut Store, f: &Expr, g: &Expr) -> Result<bool, Stop>
    requires store { IsStore store.old }
    requires constants { store.old.constants ≡ 1 }
    requires drawn { store.old.drawn ≡ 3 }
    requires slots { length store.old.slots ≡ 2 }
    requires left { in_scope 1 2 f.now ≡ true }
    requires right { in_scope 1 2 g.now ≡ true }
    ensures drawn { store.new.drawn ≡ 3 }
    ensures slots { length store.new.slots ≡ 2 }
    ensures store { IsStore store.new }
{
    let vars = [Some(Slot(0)), Some(Slot(1))];
    let left = store.expr(f, &vars)?;
    let right = store.expr(g, &vars)?;
    store.unify(left, right)
}

// An answer: the level of its first parameter, and of each of its two nodes the values under the eight assignments of the
// constant and the two parameters, of which the first is all 0 and the second parameter changes fastest.
#[derive(Clone, Copy)]
struct Answer {
    first: u32,
    tables: (u8, u8),
}

// The node's value where the constant, the parameter of level 3 and that of level 4 have these bits.
fn value(ops: &Ops, node: Node, bits: (bool, bool, bool)) -> bool {
    let mut here = node;
    for _ in 0..3 {
        if let Some((level, low, high)) = parts(ops, here) {
            let bit = match level {
                0 => bits.0,
                3 => bits.1,
                _ => bits.2,
            };
            here = if bit { high } else { low };
        }
    }
    here == Node::ONE
}

// The node's values under all assignments, the first in the highest bit.
fn table(ops: &Ops, node: Node) -> u8 {
    let mut table = 0u8;
    for row in 0..8u32 {
        if value(ops, node, (row / 4 == 1, row / 2 % 2 == 1, row % 2 == 1)) {
            table |= 128 >> row;
        }
    }
    table
}

// Lets an answer go.
fn end_form(_form: Projected) {}

// The answer for the leaves, after an equation; one of level 0 where it has no solution.
fn answered(
    alloc: Global,
    store: &mut Store,
    sides: (&Expr, &Expr),
    leaves: &[Slot; 2],
) -> Result<Answer, Stop>
    requires store { IsStore store.old }
    requires constants { store.old.constants ≡ 1 }
    requires drawn { store.old.drawn ≡ 3 }
    requires slots { length store.old.slots ≡ 2 }
    requires left { in_scope 1 2 sides.0.now ≡ true }
    requires right { in_scope 1 2 sides.1.now ≡ true }
    requires leaves { Each (λ s. s.0 < 2) leaves.now }
{
    let solved = equate(store, sides.0, sides.1)?;
    let form = general(alloc, store, leaves)?;
    let first = if solved { form.first } else { 0 };
    let tables = match form.nodes.as_slice() {
        [f, g] => (table(store.read(), *f), table(store.read(), *g)),
        _ => (0, 0),
    };
    end_form(form);
    Ok(Answer { first, tables })
}

// The same in a store of its own.
fn try_form(alloc: Global, sides: (&Expr, &Expr), leaves: &[Slot; 2]) -> Result<Answer, Stop>
    requires left { in_scope 1 2 sides.0.now ≡ true }
    requires right { in_scope 1 2 sides.1.now ≡ true }
    requires leaves { Each (λ s. s.0 < 2) leaves.now }
{
    let mut store = with_variables(alloc, 100, 2)?;
    let answer = answered(alloc, &mut store, sides, leaves);
    end(store);
    answer
}

// Writes an answer.
fn push_answer(answer: Result<Answer, Stop>, out: &mut Vec<u8>) -> Result<(), Fail> {
    match answer {
        Ok(answer) => {
            let (f, g) = answer.tables;
            write!(out, " {}: {f:08b} {g:08b}", answer.first)?;
            Ok(())
        }
        Err(stop) => push(out, said(Err(stop))),
    }
}

// Writes the answers for both orders of the variables. In the order of the levels the values are the form as they stand;
// in the other the form is found leaf by leaf.
fn tell_orders(alloc: Global, f: &Expr, g: &Expr, out: &mut Vec<u8>) -> Result<(), Fail>
    requires left { in_scope 1 2 f.now ≡ true }
    requires right { in_scope 1 2 g.now ≡ true }
{
    push_answer(try_form(alloc, (f, g), &[Slot(0), Slot(1)]), out)?;
    push_answer(try_form(alloc, (f, g), &[Slot(1), Slot(0)]), out)
}

/// Writes the answers after an equation: that the product of the first variable and the constant is the constant, that the
/// second variable is the first one, turned where the constant is 1, or that one of both variables is 1 exactly where the
/// constant is; for another word, whether a variable without a slot is 0.
pub(crate) fn tell(alloc: Global, what: &str, out: &mut Vec<u8>) -> Result<(), Fail> {
    match what {
        "half" => {
            let times = product(alloc)?;
            let told = tell_orders(alloc, &times, &Expr::Const(0), out);
            drop(times);
            told
        }
        "turned" => {
            let other = turned(alloc)?;
            let told = tell_orders(alloc, &other, &Expr::Var(1), out);
            drop(other);
            told
        }
        "either" => {
            let both = either(alloc)?;
            let told = tell_orders(alloc, &both, &Expr::Const(0), out);
            drop(both);
            told
        }
        _ => push(out, said(try_absent(alloc))),
    }
}

// A variable that has no slot is 0.
fn try_absent(alloc: Global) -> Result<bool, Stop> {
    let mut store = with_variables(alloc, 100, 1)?;
    let absent = is_zero(&mut store);
    end(store);
    absent
}

// The node of a variable without a slot is 0, and the node of a variable with one is its value.
fn is_zero(store: &mut Store) -> Result<bool, Stop>
    requires store { IsStore store.old }
    requires slots { length store.old.slots ≡ 1 }
{
    let x = store.value(Slot(0));
    let vars = [None, Some(Slot(0))];
    let absent = store.expr(&Expr::Var(0), &vars)?;
    let there = store.expr(&Expr::Var(1), &vars)?;
    Ok(absent == Node::ZERO && there == x)
}
