//! The list of what is pending while trees are written, in place of a recursion over their depth.

ghost use Rattle.std.specs.Prelude.{◌≡◌, ℕ, ◌+◌, ◌<◌, ◌≤◌, true, List, [], ◌∷◌, ◌++◌, length, map, take, drop, sum_by, Ok, Err, IfOk, OnOk, OnErr};
ghost use Rattle.cb_model.specs.declared.Tree.TheVariants as tree;
ghost use Rattle.cb_model.specs.Bits.{Each, all_of};
ghost use Rattle.cb_model.specs.Room.{tree_size};
ghost use Rattle.cb_model.specs.Values.{tree_in_scope};
ghost use Rattle.cb_dd.specs.declared.Stop.TheVariants as Stop;
ghost use Rattle.cb_solution.specs.Solution.{has_refused};
ghost use Rattle.cb_unify.specs.State.{IsState};
ghost use Rattle.cb_unify.specs.Moments.{KeepsMoments};
ghost use Rattle.cb_unify.specs.Trees.{AreTreesOf, HaveSlots, IsCompoundOf, IsTreeOf, StopsAt, WritesAtMost};
ghost use Rattle.cb_unify.specs.Works.{Close, Whole, AreOpen, GoesOn, IsClosedWith, IsInScope, IsOpen, IsSimple, Writes, last_first, work_of, work_size, work_steps, works, written};

use crate::build::{bus_cell, truth};
use crate::{Frame, State};
use cb_dd::Stop;
use cb_elim::Slot;
use cb_heap::{Cell, Ref};
use cb_model::Tree;
use std::alloc::AllocError;

/// What is still to be written.
#[derive(Clone, Copy, Drop)]
pub(crate) enum Pending<'a> {
    /// A tree.
    Tree(&'a Tree),
    /// A compound of this name, whose arguments are in the cells from this place on.
    Node(u32, usize),
}

// The trees are pending, the first as the first.
fn push_trees<'a>(trees: &'a [Tree], pending: &mut Vec<Pending<'a>>) -> Result<(), AllocError>
    ensures { OnOk result (works pending.new.items ≡ works pending.old.items ++ last_first trees.now) }
{
    let mut k = trees.len();
    while 0 < k {
        k -= 1;
        pending.push(Pending::Tree(&trees[k]))?;
    }
    Ok(())
}

// A compound is pending, after its arguments; the cells of these come from this place on.
fn push_compound<'a>(
    name: u32,
    args: &'a [Tree],
    start: usize,
    pending: &mut Vec<Pending<'a>>,
) -> Result<(), AllocError>
    ensures { OnOk result (works pending.new.items ≡ works pending.old.items ++ Close name start ∷ [] ++ last_first args.now) }
{
    pending.push(Pending::Node(name, start))?;
    push_trees(args, pending)
}

// The compound of the cells from a place on, whose cell takes their place.
fn close(state: &mut State, name: u32, start: usize, cells: &mut Vec<Ref>) -> Result<(), AllocError>
    requires state { IsState state.old }
    requires there { Each (λ r. r.0 < length state.old.heap.cells) cells.old.items }
    requires start { start ≤ length cells.old.items }
    ensures closed { OnOk result (IsClosedWith state.old state.new name start cells.old.items cells.new.items) }
    ensures nodes { state.new.store.nodes ≡ state.old.store.nodes }
    ensures moments { KeepsMoments state.old state.new }
    ensures state { IsState state.new }
{
    let r = state.make(name, &cells[start..])?;
    cells.truncate(start);
    cells.push(r)?;
    Ok(())
}

// The cell of a tree that is no compound. After a refusal cells, slots and nodes may be there.
fn simple_cell(
    state: &mut State,
    tree: &Tree,
    frame: &Frame,
    slots: &mut Vec<Option<Slot>>,
) -> Result<Ref, Stop>
    requires state { IsState state.old }
    requires frame { Each (λ r. r < length state.old.heap.cells) frame.now }
    requires slots { HaveSlots state.old frame.now slots.old.items }
    requires scope { tree_in_scope state.old.store.constants (length frame.now) tree.now ≡ true }
    requires simple { IsSimple tree.now }
    ensures tree { IfOk result (λ r. IsTreeOf state.old state.new frame.now tree.now r.0) }
    ensures slots { OnOk result (HaveSlots state.new frame.now slots.new.items) }
    ensures room { WritesAtMost state.old.store state.new.store (tree_size tree.now) }
    ensures cause { StopsAt result state.old.store state.new.store (tree_size tree.now) }
    ensures fulls { state.new.store.nodes.fulls ≡ has_refused state.old.store.nodes.fulls result }
    ensures risen { state.old.store.nodes.fulls ≤ state.new.store.nodes.fulls }
    ensures moments { KeepsMoments state.old state.new }
    ensures state { IsState state.new }
{
    match tree {
        Tree::Leaf(e) => truth(state, e, frame, slots),
        Tree::Bus(es, tail) => bus_cell(state, es.as_slice(), *tail, frame, slots),
        Tree::Var(n) => Ok(frame.get(*n)),
        Tree::Int(value) => match state.put(Cell::Int(*value)) {
            Ok(r) => Ok(r),
            Err(_) => Err(Stop::Memory),
        },
        Tree::Node(..) => unreachable!(),
    }
}

// Begins a tree: a compound's parts are pending then, any other tree has its cell.
fn begin<'a>(
    state: &mut State,
    tree: &'a Tree,
    frame: &Frame,
    slots: &mut Vec<Option<Slot>>,
    pending: &mut Vec<Pending<'a>>,
    cells: &mut Vec<Ref>,
) -> Result<(), Stop>
    requires state { IsState state.old }
    requires frame { Each (λ r. r < length state.old.heap.cells) frame.now }
    requires slots { HaveSlots state.old frame.now slots.old.items }
    requires scope { tree_in_scope state.old.store.constants (length frame.now) tree.now ≡ true }
    ensures slots { OnOk result (HaveSlots state.new frame.now slots.new.items) }
    ensures goes { OnOk result (GoesOn state.old state.new frame.now (works pending.old.items ++ Whole tree.now ∷ []) (works pending.new.items) cells.old.items cells.new.items) }
    ensures falls { OnOk result (sum_by work_steps (works pending.new.items) < sum_by work_steps (works pending.old.items) + work_steps (Whole tree.now)) }
    ensures spent { Writes result state.old.store state.new.store (tree_size tree.now) }
    ensures moments { KeepsMoments state.old state.new }
    ensures state { IsState state.new }
{
    if let Tree::Node(name, args) = tree {
        return match push_compound(*name, args.as_slice(), cells.len(), pending) {
            Ok(()) => Ok(()),
            Err(_) => Err(Stop::Memory),
        };
    }
    let r = simple_cell(state, tree, frame, slots)?;
    match cells.push(r) {
        Ok(()) => Ok(()),
        Err(_) => Err(Stop::Memory),
    }
}

// Writes a part of what was pending.
fn step<'a>(
    state: &mut State,
    next: Pending<'a>,
    frame: &Frame,
    slots: &mut Vec<Option<Slot>>,
    pending: &mut Vec<Pending<'a>>,
    cells: &mut Vec<Ref>,
) -> Result<(), Stop>
    requires state { IsState state.old }
    requires frame { Each (λ r. r < length state.old.heap.cells) frame.now }
    requires slots { HaveSlots state.old frame.now slots.old.items }
    requires there { Each (λ r. r.0 < length state.old.heap.cells) cells.old.items }
    requires scope { IsInScope state.old.store.constants (length frame.now) (work_of next) }
    requires start { IsOpen (work_of next) (length cells.old.items) }
    ensures slots { OnOk result (HaveSlots state.new frame.now slots.new.items) }
    ensures goes { OnOk result (GoesOn state.old state.new frame.now (works pending.old.items ++ work_of next.entry ∷ []) (works pending.new.items) cells.old.items cells.new.items) }
    ensures falls { OnOk result (sum_by work_steps (works pending.new.items) < sum_by work_steps (works pending.old.items) + work_steps (work_of next.entry)) }
    ensures spent { Writes result state.old.store state.new.store (work_size (work_of next.entry)) }
    ensures moments { KeepsMoments state.old state.new }
    ensures state { IsState state.new }
{
    match next {
        Pending::Tree(tree) => begin(state, tree, frame, slots, pending, cells),
        Pending::Node(name, start) => match close(state, name, start, cells) {
            Ok(()) => Ok(()),
            Err(_) => Err(Stop::Memory),
        },
    }
}

// Writes all that is pending, which comes to one tree, and answers its cell. After a refusal cells, slots and nodes may
// be there.
fn write<'a>(state: &mut State, frame: &Frame, pending: &mut Vec<Pending<'a>>) -> Result<Ref, Stop>
    requires state { IsState state.old }
    requires frame { Each (λ r. r < length state.old.heap.cells) frame.now }
    requires one { length (written (works pending.old.items) []) ≡ 1 }
    requires starts { AreOpen (works pending.old.items) [] }
    requires scope { Each (IsInScope state.old.store.constants (length frame.now)) (works pending.old.items) }
    ensures tree { IfOk result (λ r. AreTreesOf state.old state.new frame.now (written (works pending.old.items) []) (r ∷ [])) }
    ensures spent { Writes result state.old.store state.new.store (sum_by tree_size (written (works pending.old.items) [])) }
    ensures moments { KeepsMoments state.old state.new }
    ensures state { IsState state.new }
{
    let mut slots = Vec::new(*state.made.allocator());
    let mut cells = Vec::new(*state.made.allocator());
    'parts: while let Some(next) = pending.pop() {
        step(state, next, frame, &mut slots, pending, &mut cells)?;
    }
    Ok(cells[0])
}

/// The cell of a tree. After a refusal cells, slots and nodes may be there.
pub(crate) fn tree_cell(state: &mut State, tree: &Tree, frame: &Frame) -> Result<Ref, Stop>
    requires state { IsState state.old }
    requires frame { Each (λ r. r < length state.old.heap.cells) frame.now }
    requires scope { tree_in_scope state.old.store.constants (length frame.now) tree.now ≡ true }
    ensures tree { IfOk result (λ r. IsTreeOf state.old state.new frame.now tree.now r.0) }
    ensures spent { Writes result state.old.store state.new.store (tree_size tree.now) }
    ensures moments { KeepsMoments state.old state.new }
    ensures state { IsState state.new }
{
    let mut pending = Vec::new(*state.made.allocator());
    match pending.push(Pending::Tree(tree)) {
        Ok(()) => write(state, frame, &mut pending),
        Err(_) => Err(Stop::Memory),
    }
}

/// The cell of a compound. After a refusal cells, slots and nodes may be there.
pub(crate) fn compound_cell(
    state: &mut State,
    name: u32,
    args: &[Tree],
    frame: &Frame,
) -> Result<Ref, Stop>
    requires state { IsState state.old }
    requires frame { Each (λ r. r < length state.old.heap.cells) frame.now }
    requires scope { all_of (map (tree_in_scope state.old.store.constants (length frame.now)) args.now) ≡ true }
    ensures tree { IfOk result (λ r. IsTreeOf state.old state.new frame.now (tree.Node name args.now) r.0) }
    ensures spent { Writes result state.old.store state.new.store (tree_size (tree.Node name args.now)) }
    ensures moments { KeepsMoments state.old state.new }
    ensures state { IsState state.new }
{
    let mut pending = Vec::new(*state.made.allocator());
    match push_compound(name, args, 0, &mut pending) {
        Ok(()) => write(state, frame, &mut pending),
        Err(_) => Err(Stop::Memory),
    }
}
