//! New cells of a state.

ghost use Rattle.std.specs.Prelude.{◌≡◌, ◌<◌, ◌↔◌, length, true, IsTrue, IfOk, IfSome, Some};
ghost use Rattle.cb_model.specs.Bits.{Each};
ghost use Rattle.cb_model.specs.Values.{tree_in_scope};
ghost use Rattle.cb_unify.specs.State.{IsState};

use cb_dd::Stop;
use cb_heap::Ref;
use cb_model::{Expr, Sort, Tree};
use cb_unify::{Frame, State};
use sqlite_items::{Boxed, Items};
use std::alloc::{AllocError, Global};

/// Whether the cell is there.
pub fn is_here(state: &State, r: Ref) -> bool
    ensures { IsTrue result ↔ r.0 < length state.now.heap.cells }
{
    r.0 < state.heap().len()
}

/// Two new variables of these sorts, whose frame has both.
fn opened(state: &mut State, first: Sort, second: Sort) -> Result<Frame, Stop>
    requires state { IsState state.old }
    ensures frame { IfOk result (λ f. (length f ≡ 2) × Each (λ r. r < length state.new.heap.cells) f) }
    ensures state { IsState state.new }
{
    if state.store_ref().drawn() > 4_000_000_000 {
        return Err(Stop::Memory);
    }
    state.fresh(&[first, second])
}

/// A new variable of this sort.
pub fn unknown(state: &mut State, sort: Sort) -> Result<Ref, Stop>
    requires state { IsState state.old }
    ensures state { IsState state.new }
{
    let frame = opened(state, sort, Sort::Term)?;
    let r = frame.get(0);
    drop(frame);
    Ok(r)
}

/// The cell of a word over two cells, with the tree that `tree` gives: new variables are made equal to the cells first.
/// The first cell where it can't be.
pub fn made(
    alloc: Global,
    state: &mut State,
    word: (&str, u32),
    cells: (Ref, Ref),
) -> Result<Ref, Stop>
    requires state { IsState state.old }
    ensures state { IsState state.new }
{
    let (first, second) = sorts(word.0);
    let frame = opened(state, first, second)?;
    let r = built(alloc, state, word, cells, &frame);
    drop(frame);
    r
}

// The same with a frame that is lent.
fn built(
    alloc: Global,
    state: &mut State,
    word: (&str, u32),
    cells: (Ref, Ref),
    frame: &Frame,
) -> Result<Ref, Stop>
    requires state { IsState state.old }
    requires frame { (length frame.now ≡ 2) × Each (λ r. r < length state.old.heap.cells) frame.now }
    ensures state { IsState state.new }
{
    let (first, second) = cells;
    if !is_here(state, first) || !is_here(state, second) || state.store_ref().constants() != 2 {
        return Ok(first);
    }
    let (x, y) = (frame.get(0), frame.get(1));
    if !is_here(state, x) || !is_here(state, y) {
        return Ok(first);
    }
    if !state.solve(&[(x, first), (y, second)])? {
        return Ok(first);
    }
    let Ok(tree) = tree(alloc, word.0, word.1) else {
        return Err(Stop::Memory);
    };
    let r = state.build(&tree, frame);
    drop(tree);
    r
}

// The sorts of the two variables in the tree of a word.
fn sorts(word: &str) -> (Sort, Sort) {
    match word {
        "cons" => (Sort::Bool, Sort::Bus),
        "not" | "and" | "xor" | "bits" => (Sort::Bool, Sort::Bool),
        _ => (Sort::Term, Sort::Term),
    }
}

// The tree of a word over two variables.
fn tree(alloc: Global, word: &str, number: u32) -> Result<Tree, AllocError>
    ensures { IfOk result (λ x. tree_in_scope 2 2 x ≡ true) }
{
    match word {
        "cons" => {
            let mut head = Items::new(alloc);
            head.push(Expr::Var(0))?;
            Ok(Tree::Bus(head, Some(1)))
        }
        "not" => Ok(Tree::Leaf(Expr::Not(Boxed::new(alloc, Expr::Var(0))?))),
        "and" => joined(alloc, false),
        "xor" => joined(alloc, true),
        "one" => {
            let mut args = Items::new(alloc);
            args.push(Tree::Var(0))?;
            Ok(Tree::Node(number, args))
        }
        "bits" => {
            let mut args = Items::new(alloc);
            args.push(Tree::Leaf(Expr::Var(0)))?;
            args.push(Tree::Leaf(Expr::Var(1)))?;
            Ok(Tree::Node(number, args))
        }
        _ => {
            let mut args = Items::new(alloc);
            args.push(Tree::Var(0))?;
            args.push(Tree::Var(1))?;
            Ok(Tree::Node(number, args))
        }
    }
}

// The product of both variables, or whether one alone is 1.
fn joined(alloc: Global, one_alone: bool) -> Result<Tree, AllocError>
    ensures { IfOk result (λ x. tree_in_scope 2 2 x ≡ true) }
{
    let mut operands = Items::new(alloc);
    operands.push(Expr::Var(0))?;
    operands.push(Expr::Var(1))?;
    if one_alone {
        return Ok(Tree::Leaf(Expr::Xor(operands)));
    }
    Ok(Tree::Leaf(Expr::And(operands)))
}

/// The cell of a word that stands for itself: a truth value, the constant of a number, the empty bus, an integer, or a name
/// without arguments.
pub fn known(alloc: Global, state: &mut State, word: &str, number: u32) -> Result<Ref, Stop>
    requires state { IsState state.old }
    ensures state { IsState state.new }
{
    let frame = opened(state, Sort::Term, Sort::Term)?;
    let r = written(alloc, state, word, number, &frame);
    drop(frame);
    r
}

// The same with a frame that is lent.
fn written(
    alloc: Global,
    state: &mut State,
    word: &str,
    number: u32,
    frame: &Frame,
) -> Result<Ref, Stop>
    requires state { IsState state.old }
    requires frame { (length frame.now ≡ 2) × Each (λ r. r < length state.old.heap.cells) frame.now }
    ensures state { IsState state.new }
{
    if state.store_ref().constants() != 2 {
        return Err(Stop::Memory);
    }
    let tree = known_tree(alloc, word, number);
    let r = state.build(&tree, frame);
    drop(tree);
    r
}

// The tree of a word that stands for itself.
fn known_tree(alloc: Global, word: &str, number: u32) -> Tree
    ensures { tree_in_scope 2 2 result ≡ true }
{
    match word {
        "false" => Tree::Leaf(Expr::Zero),
        "true" => Tree::Leaf(Expr::One),
        "const" if number < 2 => Tree::Leaf(Expr::Const(number)),
        "nil" => Tree::Bus(Items::new(alloc), None),
        "int" => Tree::Int(i64::from(number)),
        _ => Tree::Node(number, Items::new(alloc)),
    }
}

/// The cell under so many compounds of one argument.
pub fn deep(alloc: Global, state: &mut State, bottom: Ref, count: u32) -> Result<Ref, Stop>
    requires state { IsState state.old }
    ensures state { IsState state.new }
{
    let mut top = bottom;
    for _ in 0..count {
        top = made(alloc, state, ("one", 1), (top, top))?;
    }
    Ok(top)
}

/// So many compounds, each of the one before it twice.
pub fn doubled(alloc: Global, state: &mut State, bottom: Ref, count: u32) -> Result<Ref, Stop>
    requires state { IsState state.old }
    ensures state { IsState state.new }
{
    let mut top = bottom;
    for _ in 0..count {
        top = made(alloc, state, ("two", 2), (top, top))?;
    }
    Ok(top)
}

/// A bus that begins with so many times the element.
pub fn listed(
    alloc: Global,
    state: &mut State,
    head: Ref,
    tail: Ref,
    count: u32,
) -> Result<Ref, Stop>
    requires state { IsState state.old }
    ensures state { IsState state.new }
{
    let mut bus = tail;
    for _ in 0..count {
        bus = made(alloc, state, ("cons", 0), (head, bus))?;
    }
    Ok(bus)
}

/// The last of so many term variables, each made equal to the one before it, and one more.
pub fn chained(state: &mut State, count: u32) -> Result<Ref, Stop>
    requires state { IsState state.old }
    ensures state { IsState state.new }
{
    let mut last = unknown(state, Sort::Term)?;
    for _ in 0..count {
        let next = unknown(state, Sort::Term)?;
        if is_here(state, last) && is_here(state, next) {
            state.solve(&[(last, next)])?;
        }
        last = next;
    }
    Ok(last)
}
