//! Written trees as cells.

ghost use Rattle.std.specs.Prelude.{◌≡◌, ℕ, ◌+◌, ◌*◌, ◌<◌, ◌≤◌, ◌^◌, true, List, [], length, map, Option, Ok, Err, IfOk, OnOk, OnErr};
ghost use Rattle.std.specs.List.{list_all};
ghost use Rattle.cb_model.specs.declared.Tree.TheVariants as tree;
ghost use Rattle.cb_model.specs.Bits.{Each, all_of};
ghost use Rattle.cb_model.specs.Room.{expr_size, tree_size};
ghost use Rattle.cb_model.specs.Values.{in_scope, tree_in_scope};
ghost use Rattle.cb_dd.specs.declared.Stop.TheVariants as Stop;
ghost use Rattle.cb_solution.specs.Solution.{has_refused};
ghost use Rattle.cb_elim.specs.Unified.{HasCause};
ghost use Rattle.cb_unify.specs.State.{IsAsBefore, IsState};
ghost use Rattle.cb_unify.specs.Moments.{KeepsMoments};
ghost use Rattle.cb_unify.specs.Growth.{AddsNodes, AddsSlots, IsExtended, StopsBy};
ghost use Rattle.cb_unify.specs.Trees.{HasCompound, HaveSlots, IsCompoundOf, IsNodeOf, IsTreeOf, IsWritten, StopsAt, WritesAtMost, bit_places, build_most};

use crate::writing::{compound_cell, tree_cell};
use crate::{Frame, State};
use cb_dd::{Node, Stop};
use cb_elim::{Slot, values_depend_on_live_levels};
use cb_heap::{Cell, Ref};
use cb_model::{Expr, Tree};
use std::alloc::AllocError;

impl State {
    /// The cell of a written tree, whose variables are those of the frame: wherever these have values, it has the value
    /// of the tree. A variable's cell is its own; shared parts of the tree are not looked for. After a refusal the state
    /// is as before, but for its count of refusals for nodes. `Stop::Nodes` comes where the budget is too small for the
    /// expressions in the tree, and `Stop::Memory` where there is no memory.
    pub fn build(&mut self, tree: &Tree, frame: &Frame) -> Result<Ref, Stop>
        requires state { IsState self.old }
        requires frame { Each (λ r. r < length self.old.heap.cells) frame.now }
        requires scope { tree_in_scope self.old.store.constants (length frame.now) tree.now ≡ true }
        ensures written { IfOk result (λ r. IsWritten self.old self.new frame.now tree.now r.0) }
        ensures compound { IfOk result (λ r. HasCompound self.new tree.now r.0) }
        ensures extended { OnOk result (IsExtended self.old self.new) }
        ensures count { OnOk result (AddsSlots self.old self.new (bit_places tree.now)) }
        ensures as_before { OnErr result (IsAsBefore self.old self.new) }
        ensures room { AddsNodes self.old.store self.new.store (build_most self.old.store tree.now) }
        ensures cause { StopsBy result self.old.store self.new.store (build_most self.old.store tree.now) }
        ensures fulls { self.new.store.nodes.fulls ≡ has_refused self.old.store.nodes.fulls result }
        ensures moments { KeepsMoments self.old self.new }
        ensures state { IsState self.new }
    {
        let before = self.mark();
        match tree_cell(self, tree, frame) {
            Ok(r) => Ok(r),
            Err(stop) => {
                self.undo(before);
                Err(stop)
            }
        }
    }

    /// The cell of a compound of written trees, as `build` would make it of the compound.
    pub fn compound(&mut self, name: u32, args: &[Tree], frame: &Frame) -> Result<Ref, Stop>
        requires state { IsState self.old }
        requires frame { Each (λ r. r < length self.old.heap.cells) frame.now }
        requires scope { tree_in_scope self.old.store.constants (length frame.now) (tree.Node name args.now) ≡ true }
        ensures written { IfOk result (λ r. IsWritten self.old self.new frame.now (tree.Node name args.now) r.0) }
        ensures compound { IfOk result (λ r. HasCompound self.new (tree.Node name args.now) r.0) }
        ensures extended { OnOk result (IsExtended self.old self.new) }
        ensures count { OnOk result (AddsSlots self.old self.new (bit_places (tree.Node name args.now))) }
        ensures as_before { OnErr result (IsAsBefore self.old self.new) }
        ensures room { length self.new.store.nodes.triples ≤ length self.old.store.nodes.triples + build_most self.old.store (tree.Node name args.now) }
        ensures cause { result ≡ Err Stop.Nodes → HasCause self.old.store self.new.store (build_most self.old.store (tree.Node name args.now)) }
        ensures fulls { self.new.store.nodes.fulls ≡ has_refused self.old.store.nodes.fulls result }
        ensures moments { KeepsMoments self.old self.new }
        ensures state { IsState self.new }
    {
        let before = self.mark();
        match compound_cell(self, name, args, frame) {
            Ok(r) => Ok(r),
            Err(stop) => {
                self.undo(before);
                Err(stop)
            }
        }
    }

    // The node of an expression over these slots. After a refusal only the count of refusals may have risen.
    fn node_of(&mut self, e: &Expr, slots: &[Option<Slot>]) -> Result<Node, Stop>
        requires state { IsState self.old }
        requires scope { in_scope self.old.store.constants (length slots.now) e.now ≡ true }
        ensures node { IfOk result (λ n. IsNodeOf self.old self.new slots.now e.now n.0) }
        ensures room { WritesAtMost self.old.store self.new.store (expr_size e.now) }
        ensures cause { StopsAt result self.old.store self.new.store (expr_size e.now) }
        ensures fulls { self.new.store.nodes.fulls ≡ has_refused self.old.store.nodes.fulls result }
        ensures risen { self.old.store.nodes.fulls ≤ self.new.store.nodes.fulls }
        ensures moments { KeepsMoments self.old self.new }
        ensures state { IsState self.new }
    {
        values_depend_on_live_levels();
        self.store.expr(e, slots)
    }

    // A compound of these cells.
    pub(crate) fn make(&mut self, name: u32, args: &[Ref]) -> Result<Ref, AllocError>
        requires state { IsState self.old }
        requires there { Each (λ r. r.0 < length self.old.heap.cells) args.now }
        ensures made { IfOk result (λ r. IsCompoundOf self.old self.new name args.now r.0) }
        ensures refused { OnErr result (self.new ≡ self.old) }
    {
        let r = self.heap.add_node(name, args)?;
        Ok(r)
    }

    // The slots of a frame's variables, behind those that are there; a variable that is no truth value has none.
    fn find_slots(&self, frame: &Frame, slots: &mut Vec<Option<Slot>>) -> Result<(), AllocError>
        requires state { IsState self.now }
        requires frame { Each (λ r. r < length self.now.heap.cells) frame.now }
        requires slots { HaveSlots self.now frame.now slots.old.items }
        ensures slots { OnOk result (HaveSlots self.now frame.now slots.new.items) }
        ensures all { OnOk result (length slots.new.items ≡ length frame.now) }
    {
        'slots: while slots.len() < frame.len() {
            slots.push(self.slot(frame.cell(slots.len())))?;
        }
        Ok(())
    }
}

/// A bus, the last element first.
pub(crate) fn bus_cell(
    state: &mut State,
    es: &[Expr],
    tail: Option<u32>,
    frame: &Frame,
    slots: &mut Vec<Option<Slot>>,
) -> Result<Ref, Stop>
    requires state { IsState state.old }
    requires frame { Each (λ r. r < length state.old.heap.cells) frame.now }
    requires slots { HaveSlots state.old frame.now slots.old.items }
    requires scope { tree_in_scope state.old.store.constants (length frame.now) (tree.Bus es.now tail) ≡ true }
    ensures tree { IfOk result (λ r. IsTreeOf state.old state.new frame.now (tree.Bus es.now tail) r.0) }
    ensures slots { OnOk result (HaveSlots state.new frame.now slots.new.items) }
    ensures room { WritesAtMost state.old.store state.new.store (tree_size (tree.Bus es.now tail)) }
    ensures cause { StopsAt result state.old.store state.new.store (tree_size (tree.Bus es.now tail)) }
    ensures fulls { state.new.store.nodes.fulls ≡ has_refused state.old.store.nodes.fulls result }
    ensures risen { state.old.store.nodes.fulls ≤ state.new.store.nodes.fulls }
    ensures moments { KeepsMoments state.old state.new }
    ensures state { IsState state.new }
{
    let mut at = end_cell(state, tail, frame)?;
    let mut k = es.len();
    while 0 < k {
        k -= 1;
        let head = truth(state, &es[k], frame, slots)?;
        let Ok(r) = state.put(Cell::BusCons(head, at)) else {
            return Err(Stop::Memory);
        };
        at = r;
    }
    Ok(at)
}

// What a bus ends in.
fn end_cell(state: &mut State, tail: Option<u32>, frame: &Frame) -> Result<Ref, Stop>
    requires state { IsState state.old }
    requires frame { Each (λ r. r < length state.old.heap.cells) frame.now }
    requires scope { tree_in_scope state.old.store.constants (length frame.now) (tree.Bus [] tail) ≡ true }
    ensures tree { IfOk result (λ r. IsTreeOf state.old state.new frame.now (tree.Bus [] tail) r.0) }
    ensures nodes { state.new.store.nodes ≡ state.old.store.nodes }
    ensures stop { result ≡ Err Stop.Nodes → ⊥ }
    ensures moments { KeepsMoments state.old state.new }
    ensures state { IsState state.new }
{
    match tail {
        Some(n) => Ok(frame.get(n)),
        None => match state.put(Cell::BusNil) {
            Ok(r) => Ok(r),
            Err(_) => Err(Stop::Memory),
        },
    }
}

/// A truth value: a variable's own cell, else a leaf with the expression's node.
pub(crate) fn truth(
    state: &mut State,
    e: &Expr,
    frame: &Frame,
    slots: &mut Vec<Option<Slot>>,
) -> Result<Ref, Stop>
    requires state { IsState state.old }
    requires frame { Each (λ r. r < length state.old.heap.cells) frame.now }
    requires slots { HaveSlots state.old frame.now slots.old.items }
    requires scope { in_scope state.old.store.constants (length frame.now) e.now ≡ true }
    ensures tree { IfOk result (λ r. IsTreeOf state.old state.new frame.now (tree.Leaf e.now) r.0) }
    ensures slots { OnOk result (HaveSlots state.new frame.now slots.new.items) }
    ensures room { WritesAtMost state.old.store state.new.store (expr_size e.now) }
    ensures cause { StopsAt result state.old.store state.new.store (expr_size e.now) }
    ensures fulls { state.new.store.nodes.fulls ≡ has_refused state.old.store.nodes.fulls result }
    ensures risen { state.old.store.nodes.fulls ≤ state.new.store.nodes.fulls }
    ensures moments { KeepsMoments state.old state.new }
    ensures state { IsState state.new }
{
    if let Expr::Var(n) = e {
        return Ok(frame.get(*n));
    }
    let Ok(()) = state.find_slots(frame, slots) else {
        return Err(Stop::Memory);
    };
    let node = state.node_of(e, slots)?;
    match state.leaf(node) {
        Ok(r) => Ok(r),
        Err(_) => Err(Stop::Memory),
    }
}
