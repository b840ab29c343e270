//! A product of a variable and the constant.

ghost use Rattle.std.specs.Prelude.{◌≡◌, length, true, IfOk};
ghost use Rattle.cb_model.specs.Values.{in_scope};
ghost use Rattle.cb_elim.specs.Store.{IsStore};
ghost use Rattle.cb_elim.specs.Moments.{KeepsMoments};

use crate::setup::{end, with_variables};
use crate::undone::{are_rewritten, is_taken_back};
use cb_dd::{Node, Stop};
use cb_elim::{Slot, Store};
use cb_model::Expr;
use sqlite_items::Items;
use std::alloc::{AllocError, Global};

// The variable times the constant.
fn product(alloc: Global) -> Result<Expr, AllocError>
    ensures { IfOk result (λ e. in_scope 1 1 e ≡ true) }
{
    let mut factors = Items::new(alloc);
    factors.push(Expr::Var(0))?;
    factors.push(Expr::Const(0))?;
    Ok(Expr::And(factors))
}

// Adds the equation of two expressions over these variables.
pub(crate) fn equate_expressions(
    store: &mut Store,
    f: &Expr,
    g: &Expr,
    vars: &[Option<Slot>],
) -> Result<bool, Stop>
    requires store { IsStore store.old }
    requires left { in_scope store.old.constants (length vars.now) f.now ≡ true }
    requires right { in_scope store.old.constants (length vars.now) g.now ≡ true }
    ensures constants { store.new.constants ≡ store.old.constants }
    ensures slots { length store.new.slots ≡ length store.old.slots }
    ensures moments { KeepsMoments store.old store.new }
    ensures store { IsStore store.new }
{
    let left = store.expr(f, vars)?;
    let right = store.expr(g, vars)?;
    store.unify(left, right)
}

// The variable is 1 where the constant is, and free where it is 0. Then it is taken back, and the variable is free.
fn is_the_constant(store: &mut Store, product: &Expr) -> Result<bool, Stop>
    requires store { IsStore store.old }
    requires constants { store.old.constants ≡ 1 }
    requires slots { length store.old.slots ≡ 1 }
    requires product { in_scope store.old.constants 1 product.now ≡ true }
{
    let free = store.value(Slot(0));
    let start = store.mark();
    let solved = equate_expressions(store, product, &Expr::Const(0), &[Some(Slot(0))])?;
    let value = store.value(Slot(0));
    let parts = store.read().parts(value);
    let listed = are_rewritten(store, start, &[0]);
    store.undo(start);
    let back = store.value(Slot(0));
    let none = are_rewritten(store, start, &[]);
    let half = parts == Some((0, free, Node::ONE));
    Ok(solved && half && listed && back == free && none)
}

// Where the constant is 0 the product isn't 1. The store is as before: the first try has made the product's nodes.
fn is_refused(store: &mut Store, product: &Expr) -> Result<bool, Stop>
    requires store { IsStore store.old }
    requires constants { store.old.constants ≡ 1 }
    requires slots { length store.old.slots ≡ 1 }
    requires product { in_scope store.old.constants 1 product.now ≡ true }
{
    let free = store.value(Slot(0));
    let start = store.mark();
    let solved = equate_expressions(store, product, &Expr::One, &[Some(Slot(0))])?;
    let nodes = store.read().count();
    let again = equate_expressions(store, product, &Expr::One, &[Some(Slot(0))])?;
    let still = store.read().count();
    let value = store.value(Slot(0));
    let none = are_rewritten(store, start, &[]);
    Ok(!solved && !again && none && still == nodes && value == free)
}

// A slot with the product, in a store with one slot.
fn hold_product(store: &mut Store, product: &Expr) -> Result<Slot, Stop>
    requires store { IsStore store.old }
    requires constants { store.old.constants ≡ 1 }
    requires slots { length store.old.slots ≡ 1 }
    requires product { in_scope store.old.constants 1 product.now ≡ true }
    ensures constants { store.new.constants ≡ 1 }
    ensures slots { IfOk result (λ s. length store.new.slots ≡ 2) }
    ensures store { IsStore store.new }
{
    let vars = [Some(Slot(0))];
    let node = store.expr(product, &vars)?;
    store.hold(node).map_err(|_| Stop::Memory)
}

// The product is the constant where the variable is: its slot is rewritten, and restored.
fn is_held(store: &mut Store, product: &Expr) -> Result<bool, Stop>
    requires store { IsStore store.old }
    requires constants { store.old.constants ≡ 1 }
    requires slots { length store.old.slots ≡ 1 }
    requires product { in_scope store.old.constants 1 product.now ≡ true }
{
    let held = hold_product(store, product)?;
    let a = store.constant(0)?;
    let back = is_taken_back(store, 0, a)?;
    Ok(held == Slot(1) && back)
}

// What is tried with the product.
#[derive(Clone, Copy)]
enum Try {
    IsTheConstant,
    IsRefused,
    IsHeld,
}

// Tries it in a store of its own, with one variable.
fn try_with(alloc: Global, product: &Expr, what: Try) -> Result<bool, Stop>
    requires { in_scope 1 1 product.now ≡ true }
{
    let mut store = with_variables(alloc, 100, 1)?;
    let holds = match what {
        Try::IsTheConstant => is_the_constant(&mut store, product),
        Try::IsRefused => is_refused(&mut store, product),
        Try::IsHeld => is_held(&mut store, product),
    };
    end(store);
    holds
}

// Tries it with the product of the variable and the constant.
fn with_product(alloc: Global, what: Try) -> Result<bool, Stop> {
    let Ok(times) = product(alloc) else {
        return Err(Stop::Memory);
    };
    let holds = try_with(alloc, &times, what);
    drop(times);
    holds
}

/// Tries one thing: whether the product can be the constant, is refused as 1, or is held in a slot; or what is known of a
/// variable and of a constant.
pub(crate) fn tried(alloc: Global, what: &str) -> Result<bool, Stop> {
    match what {
        "is_the_constant" => with_product(alloc, Try::IsTheConstant),
        "is_refused" => with_product(alloc, Try::IsRefused),
        "is_held" => with_product(alloc, Try::IsHeld),
        _ => try_known(alloc),
    }
}

// A variable is known once it is the constant; neither is one bit.
fn are_known(store: &mut Store) -> Result<bool, Stop>
    requires store { IsStore store.old }
    requires constants { store.old.constants ≡ 1 }
    requires slots { length store.old.slots ≡ 1 }
{
    let a = store.constant(0)?;
    let x = store.value(Slot(0));
    let Ok(variable) = store.known(x) else {
        return Err(Stop::Memory);
    };
    let Ok(constant) = store.known(a) else {
        return Err(Stop::Memory);
    };
    let bits = (store.is_const(x), store.is_const(a));
    let zero = store.is_const(Node::ZERO) == Some(false);
    let one = store.is_const(Node::ONE) == Some(true);
    Ok(!variable && constant && bits == (None, None) && zero && one)
}

// The same in a store of its own.
fn try_known(alloc: Global) -> Result<bool, Stop> {
    let mut store = with_variables(alloc, 100, 1)?;
    let known = are_known(&mut store);
    end(store);
    known
}
