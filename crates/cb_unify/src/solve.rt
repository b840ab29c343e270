//! Unification of terms over Boolean variables as one step.

ghost use Rattle.std.specs.Prelude.{◌≡◌, ℕ, ◌+◌, ◌<◌, ◌≤◌, [], List, length, map, true, false, Ok, Err, IfOk};
ghost use Rattle.cb_dd.specs.declared.Stop.TheVariants as Stop;
ghost use Rattle.cb_heap.specs.Heap.{IsHeap};
ghost use Rattle.cb_elim.specs.Moments.{KeepsMoments as KeepsBools};
ghost use Rattle.cb_elim.specs.Pairs.{AreSlots};
ghost use Rattle.cb_elim.specs.Store.{IsAsBefore as IsStoreBefore, IsStore, view_of};
ghost use Rattle.cb_elim.specs.Unified.{HasCause, OnlyValues};
ghost use Rattle.cb_elim.proofs.Together.{nodes_of};
ghost use Rattle.cb_join.specs.Cycle.{IsClosed};
ghost use Rattle.cb_solution.specs.Solution.{has_refused};
ghost use Rattle.cb_unify.specs.Growth.{AddsNodes, StopsBy};
ghost use Rattle.cb_unify.specs.Moments.{KeepsMoments};
ghost use Rattle.cb_unify.specs.Solve.{AreCells, CantBeSolved, IsAttempted, IsKept, NoBits, OnlyRewritten, SolvesPairs, Spends, cells_of, pairs_most, seen_of, solve_most};
ghost use Rattle.cb_unify.specs.State.{HasNone, IsAsBefore, IsSolved, IsState};

use crate::State;
use cb_dd::{Node, Stop};
use cb_elim::{Slot, Store, values_depend_on_live_levels};
use cb_heap::{Heap, HeapMark, Ref};
use cb_join::{Owed, Search, is_finite, join};
use std::alloc::{AllocError, Global};

impl State {
    /// Adds the equations between cells as one step, and says whether they can be solved with those before: `Ok(false)`
    /// comes where two values differ in form, where a value would stand below itself, or where at some assignment the
    /// Boolean equations that are left have no solution together. After `Ok(false)` and after a stop the state is as
    /// before, but for its count of refusals for nodes. `Stop::Nodes` comes where the budget is too small, and
    /// `Stop::Memory` where there is no memory.
    ///
    /// Values of cells are made one without an occurs check (Huet 1976), cycles are looked for once, and all pairs of
    /// slots are solved as one equation (Boole 1854).
    pub fn solve(&mut self, pairs: &[(Ref, Ref)]) -> Result<bool, Stop>
        requires state { IsState self.old }
        requires there { AreCells self.old.heap pairs.now }
        ensures solved { result ≡ Ok true → IsSolved self.old self.new (cells_of pairs.now) }
        ensures none { result ≡ Ok false → HasNone self.old (cells_of pairs.now) }
        ensures rewritten { result ≡ Ok true → OnlyRewritten self.old self.new }
        ensures as_before { (result ≡ Ok true → ⊥) → IsAsBefore self.old self.new }
        ensures room { AddsNodes self.old.store self.new.store (solve_most self.old.store) }
        ensures nodes { result ≡ Err Stop.Nodes → HasCause self.old.store self.new.store (solve_most self.old.store) }
        ensures fulls { self.new.store.nodes.fulls ≡ has_refused self.old.store.nodes.fulls result }
        ensures moments { KeepsMoments self.old self.new }
        ensures state { IsState self.new }
    {
        let alloc = *self.made.allocator();
        let before = self.heap.mark();
        let solved = attempt(
            alloc,
            &mut self.heap,
            &mut self.store,
            &mut self.search,
            self.settled,
            pairs,
        );
        match solved {
            Ok(true) => {
                self.settled = self.heap.len();
                Ok(true)
            }
            Ok(false) => {
                self.heap.undo(before);
                Ok(false)
            }
            Err(stop) => {
                self.heap.undo(before);
                Err(stop)
            }
        }
    }
}

// Adds the equations. Where the answer isn't `Ok(true)`, cells may be left rewritten.
fn attempt(
    alloc: Global,
    heap: &mut Heap,
    store: &mut Store,
    search: &mut Search,
    settled: usize,
    pairs: &[(Ref, Ref)],
) -> Result<bool, Stop>
    requires state { IsState (seen_of heap.old store.old []) }
    requires settled { IsClosed settled heap.old.cells }
    requires there { AreCells heap.old pairs.now }
    ensures solved { result ≡ Ok true → IsAttempted heap.old store.old heap.new store.new (cells_of pairs.now) }
    ensures none { result ≡ Ok false → CantBeSolved heap.old store.old (cells_of pairs.now) }
    ensures as_before { (result ≡ Ok true → ⊥) → IsStoreBefore store.old store.new }
    ensures spends { Spends result store.old store.new (solve_most store.old) }
    ensures kept { IsKept heap.old store.old heap.new store.new }
    ensures heap { IsHeap heap.new }
    ensures store { IsStore store.new }
{
    let since = heap.mark();
    let Ok(mut owed) = owed_of(alloc, pairs) else {
        return Err(Stop::Memory);
    };
    match join(heap, &mut owed) {
        Ok(true) => {}
        Ok(false) => return Ok(false),
        Err(_) => return Err(Stop::Memory),
    }
    match is_finite(heap, search, since, settled) {
        Ok(true) => {}
        Ok(false) => return Ok(false),
        Err(_) => return Err(Stop::Memory),
    }
    unify_slots(alloc, store, &owed.leaves)
}

// The pairs, owed.
fn owed_of(alloc: Global, pairs: &[(Ref, Ref)]) -> Result<Owed, AllocError>
    ensures pending { IfOk result (λ o. o.pending.items ≡ cells_of pairs.now) }
    ensures leaves { IfOk result (λ o. o.leaves.items ≡ []) }
{
    let mut pending = Vec::new(alloc);
    for (l, r) in pairs {
        pending.push((l.0, r.0))?;
    }
    Ok(Owed {
        pending,
        leaves: Vec::new(alloc),
    })
}

// Makes the slots of each pair equal, all at once.
fn unify_slots(alloc: Global, store: &mut Store, pairs: &[(usize, usize)]) -> Result<bool, Stop>
    requires store { IsStore store.old }
    requires slots { AreSlots store.old pairs.now }
    ensures solved { result ≡ Ok true → SolvesPairs (view_of store.old) (view_of store.new) pairs.now }
    ensures none { result ≡ Ok false → NoBits (view_of store.old) pairs.now }
    ensures values { result ≡ Ok true → OnlyValues store.old store.new }
    ensures as_before { (result ≡ Ok true → ⊥) → IsStoreBefore store.old store.new }
    ensures room { AddsNodes store.old store.new (pairs_most store.old pairs.now) }
    ensures nodes { StopsBy result store.old store.new (pairs_most store.old pairs.now) }
    ensures fulls { store.new.nodes.fulls ≡ has_refused store.old.nodes.fulls result }
    ensures moments { KeepsBools store.old store.new }
    ensures store { IsStore store.new }
{
    values_depend_on_live_levels();
    let Ok(nodes) = slot_nodes(alloc, store, pairs) else {
        return Err(Stop::Memory);
    };
    store.unify_all(&nodes)
}

// The nodes of the slots' values.
fn slot_nodes(
    alloc: Global,
    store: &Store,
    pairs: &[(usize, usize)],
) -> Result<Vec<(Node, Node)>, AllocError>
    requires store { IsStore store.now }
    requires slots { AreSlots store.now pairs.now }
    ensures { IfOk result (λ v. v.items ≡ map (nodes_of store.now.slots) pairs.now) }
{
    let mut nodes = Vec::new(alloc);
    for (x, y) in pairs {
        nodes.push((store.value(Slot(*x)), store.value(Slot(*y))))?;
    }
    Ok(nodes)
}
