//! Equations one after another.

ghost use Rattle.std.specs.Prelude.{◌≡◌, ◌<◌, length, true};
ghost use Rattle.cb_model.specs.Values.{in_scope};
ghost use Rattle.cb_elim.specs.Store.{IsStore};

use crate::products::equate_expressions;
use crate::setup::{end, said, with_variables};
use cb_dd::{Node, Stop};
use cb_elim::{Slot, Store};
use cb_model::Expr;
use cb_trial::text::push;
use std::alloc::Global;
use std::test::Fail;

// The variable is the constant, and then it is the second expression: whether both equations are solved.
fn equate_both(store: &mut Store, second: &Expr) -> Result<bool, Stop>
    requires store { IsStore store.old }
    requires constants { store.old.constants ≡ 1 }
    requires slots { length store.old.slots ≡ 1 }
    requires second { in_scope store.old.constants 1 second.now ≡ true }
    ensures slots { length store.new.slots ≡ 1 }
    ensures store { IsStore store.new }
{
    let vars = [Some(Slot(0))];
    if !equate_expressions(store, &Expr::Var(0), &Expr::Const(0), &vars)? {
        return Ok(false);
    }
    equate_expressions(store, &Expr::Var(0), second, &vars)
}

// Whether the slot has the bit of the level.
fn has_bit(store: &Store, slot: usize, level: u32) -> bool
    requires store { IsStore store.now }
    requires slot { slot < length store.now.slots }
{
    store.read().parts(store.value(Slot(slot))) == Some((level, Node::ZERO, Node::ONE))
}

// Both equations in a store of their own: whether the variable is the constant behind them, and whether both are solved.
fn try_both(alloc: Global, second: &Expr) -> Result<(bool, bool), Stop>
    requires { in_scope 1 1 second.now ≡ true }
{
    let mut store = with_variables(alloc, 100, 1)?;
    let solved = equate_both(&mut store, second);
    let constant = has_bit(&store, 0, 0);
    end(store);
    Ok((constant, solved?))
}

// Without equations: whether both variables are free.
fn try_none(alloc: Global) -> Result<bool, Stop> {
    let store = with_variables(alloc, 100, 2)?;
    let free = has_bit(&store, 0, 1) && has_bit(&store, 1, 2);
    end(store);
    Ok(free)
}

// Whether no variable can be drawn without a node.
fn try_no_nodes(alloc: Global) -> Result<bool, Stop> {
    let store = with_variables(alloc, 0, 1)?;
    end(store);
    Ok(true)
}

// Appends whether the variable is the constant, and whether both equations are solved.
fn push_both(alloc: Global, second: &Expr, out: &mut Vec<u8>) -> Result<(), Fail>
    requires { in_scope 1 1 second.now ≡ true }
{
    match try_both(alloc, second) {
        Ok((constant, solved)) => {
            push(out, said(Ok(constant)))?;
            push(out, said(Ok(solved)))
        }
        Err(stop) => push(out, said(Err(stop))),
    }
}

/// Writes what comes of a system: that of a second expression, none, or one without nodes. An equation that isn't solved
/// leaves the one before it.
pub(crate) fn tell(alloc: Global, what: &str, out: &mut Vec<u8>) -> Result<(), Fail> {
    match what {
        "const" => push_both(alloc, &Expr::Const(0), out),
        "one" => push_both(alloc, &Expr::One, out),
        "none" => push(out, said(try_none(alloc))),
        _ => push(out, said(try_no_nodes(alloc))),
    }
}
