//! New variables.

ghost use Rattle.std.specs.Prelude.{◌≡◌, ◌+◌, ◌<◌, ◌≤◌, ◌^◌, [], ◌∷◌, length, slice_get, Some, Ok, Err, IfOk, OnOk, OnErr};
ghost use Rattle.cb_model.specs.Program.{bools};
ghost use Rattle.cb_model.specs.Values.{Sorts};
ghost use Rattle.cb_solution.specs.Solution.{has_refused};
ghost use Rattle.cb_elim.specs.Store.{IsAsBefore as IsBoolAsBefore, IsStore};
ghost use Rattle.cb_elim.specs.Unified.{HasCause};
ghost use Rattle.cb_elim.specs.Moments.{KeepsMoments as KeepsBools};
ghost use Rattle.cb_unify.specs.State.{FitsTable, IsAsBefore, IsState};
ghost use Rattle.cb_unify.specs.Moments.{KeepsMoments};
ghost use Rattle.cb_unify.specs.Growth.{AddsVariables, AreMade, IsOpened, IsUnknown};

use crate::State;
use cb_dd::Stop;
use cb_elim::Store;
use cb_heap::{Cell, Ref};
use cb_model::Sort;
use std::marker::Model;

/// The variables of a clause, each by its cell, in order of their numbers.
#[derive(Drop)]
pub struct Frame {
    cells: Vec<usize>,
}

impl Model for Frame {
    ghost use Rattle.std.specs.Prelude.{List, ℕ};

    ghost Value = { List ℕ };

    ghost view = { λ f. f.cells.items };
}

impl Frame {
    /// The cell of variable k.
    pub fn get(&self, k: u32) -> Ref
        requires { k < length self.now }
        ensures { slice_get self.now k ≡ Some result.0 }
    {
        Ref(self.cells[k as usize])
    }

    // The cell of a variable.
    pub(crate) fn cell(&self, k: usize) -> Ref
        requires { k < length self.now }
        ensures { slice_get self.now k ≡ Some result.0 }
    {
        Ref(self.cells[k])
    }

    // The number of variables.
    pub(crate) fn len(&self) -> usize
        ensures { result ≡ length self.now }
    {
        self.cells.len()
    }
}

impl State {
    /// New variables of these sorts, of which nothing is known: a Boolean one draws a level and a slot. After a refusal
    /// the state is as before, but for its count of refusals for nodes.
    pub fn fresh(&mut self, sorts: &[Sort]) -> Result<Frame, Stop>
        requires state { IsState self.old }
        requires levels { self.old.store.drawn + bools sorts.now < 2 ^ 32 }
        ensures opens { IfOk result (λ f. IsOpened self.old self.new sorts.now f) }
        ensures count { OnOk result (AddsVariables self.old self.new (bools sorts.now)) }
        ensures fits { OnOk result ((t : Sorts) → FitsTable t self.old → FitsTable t self.new) }
        ensures as_before { OnErr result (IsAsBefore self.old self.new) }
        ensures room { length self.new.store.nodes.triples ≤ length self.old.store.nodes.triples + bools sorts.now }
        ensures cause { result ≡ Err Stop.Nodes → HasCause self.old.store self.new.store (bools sorts.now) }
        ensures fulls { self.new.store.nodes.fulls ≡ has_refused self.old.store.nodes.fulls result }
        ensures moments { KeepsMoments self.old self.new }
        ensures state { IsState self.new }
    {
        let before = self.mark();
        match variables(self, sorts) {
            Ok(frame) => Ok(frame),
            Err(stop) => {
                self.undo(before);
                Err(stop)
            }
        }
    }

    // A new variable of this sort, by its cell. After a refusal its slot or its cell may be there.
    fn variable(&mut self, sort: Sort) -> Result<usize, Stop>
        requires state { IsState self.old }
        requires level { self.old.store.drawn + bools (sort ∷ []) < 2 ^ 32 }
        ensures made { IfOk result (λ r. AreMade self.old self.new (sort ∷ []) (r ∷ [])) }
        ensures room { length self.new.store.nodes.triples ≤ length self.old.store.nodes.triples + bools (sort ∷ []) }
        ensures cause { result ≡ Err Stop.Nodes → HasCause self.old.store self.new.store (bools (sort ∷ [])) }
        ensures fulls { self.new.store.nodes.fulls ≡ has_refused self.old.store.nodes.fulls result }
        ensures risen { self.old.store.nodes.fulls ≤ self.new.store.nodes.fulls }
        ensures moments { KeepsMoments self.old self.new }
        ensures state { IsState self.new }
    {
        let cell = unknown(&mut self.store, sort)?;
        let Ok(r) = self.heap.add(cell) else {
            return Err(Stop::Memory);
        };
        if self.made.push(r.0).is_err() {
            return Err(Stop::Memory);
        }
        Ok(r.0)
    }
}

// New variables of these sorts. After a refusal some of them may be there.
fn variables(state: &mut State, sorts: &[Sort]) -> Result<Frame, Stop>
    requires state { IsState state.old }
    requires levels { state.old.store.drawn + bools sorts.now < 2 ^ 32 }
    ensures made { IfOk result (λ f. AreMade state.old state.new sorts.now f) }
    ensures room { length state.new.store.nodes.triples ≤ length state.old.store.nodes.triples + bools sorts.now }
    ensures cause { result ≡ Err Stop.Nodes → HasCause state.old.store state.new.store (bools sorts.now) }
    ensures fulls { state.new.store.nodes.fulls ≡ has_refused state.old.store.nodes.fulls result }
    ensures risen { state.old.store.nodes.fulls ≤ state.new.store.nodes.fulls }
    ensures moments { KeepsMoments state.old state.new }
    ensures state { IsState state.new }
{
    let mut cells = Vec::new(*state.made.allocator());
    for sort in sorts {
        let cell = state.variable(*sort)?;
        let Ok(()) = cells.push(cell) else {
            return Err(Stop::Memory);
        };
    }
    Ok(Frame { cells })
}

// The cell of a new variable of this sort; a Boolean one gets a slot.
fn unknown(store: &mut Store, sort: Sort) -> Result<Cell, Stop>
    requires store { IsStore store.old }
    requires level { store.old.drawn + bools (sort ∷ []) < 2 ^ 32 }
    ensures unknown { IfOk result (λ c. IsUnknown store.old store.new sort c) }
    ensures as_before { OnErr result (IsBoolAsBefore store.old store.new) }
    ensures room { length store.new.nodes.triples ≤ length store.old.nodes.triples + bools (sort ∷ []) }
    ensures cause { result ≡ Err Stop.Nodes → HasCause store.old store.new (bools (sort ∷ [])) }
    ensures fulls { store.new.nodes.fulls ≡ has_refused store.old.nodes.fulls result }
    ensures moments { KeepsBools store.old store.new }
    ensures store { IsStore store.new }
{
    match sort {
        Sort::Bool => {
            let slot = store.variable()?;
            Ok(Cell::Leaf(slot.0))
        }
        Sort::Bus => Ok(Cell::BusVar),
        Sort::Term => Ok(Cell::TermVar),
    }
}
