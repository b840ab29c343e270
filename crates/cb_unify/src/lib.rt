//! Run-time terms over Boolean variables: variables of the three sorts, trees as cells, and the way back.
#![tactic(auto)]

ghost use Rattle.std.specs.Prelude.{◌≡◌, ◌≢◌, ℕ, ◌+◌, ◌<◌, ◌≤◌, ◌^◌, ◌↔◌, [], ◌∷◌, ◌++◌, length, map, slice_get, Some, None, Ok, Err, IfOk, IfSome, OnOk, OnErr};
ghost use Rattle.std.specs.Borrow.{sem};
ghost use Rattle.cb_model.specs.Bits.{Bits, Each};
ghost use Rattle.cb_model.specs.Values.{Bit, Sorts};
ghost use Rattle.cb_model.specs.declared.Sort.TheVariants as sort;
ghost use Rattle.cb_boole.specs.View.{point};
ghost use Rattle.cb_dd.specs.Diagram.{function_of};
ghost use Rattle.cb_elim.specs.Store.{IsArgument, view_of};
ghost use Rattle.cb_heap.specs.Reading.{Reading};
ghost use Rattle.cb_unify.specs.State.{Seen, FitsTable, HasValue, IsState, no_state, node_bit, with_fulls};
ghost use Rattle.cb_unify.specs.Moments.{Moment, IsMoment, KeepsMoments, moment_of, reverted};
ghost use Rattle.cb_unify.specs.Growth.{HasSlot};
ghost use Rattle.cb_unify.specs.Lending.{LendsOps, LendsStore};
ghost use Rattle.cb_unify.specs.Laws.{OpsAreLent, PlacesAreFew, StoreIsLent};
ghost use Rattle.cb_unify.specs.Instance.{SolutionsAreInstances, ValuesAreInstances};

mod build;
mod bus;
mod fresh;
mod holds;
mod solve;
mod writing;

use cb_dd::Node;
use cb_elim::{Slot, Store, StoreMark};
use cb_heap::{Cell, Heap, HeapMark, Ref};
use cb_join::Search;
use cb_ops::Ops;
pub use fresh::Frame;
use std::alloc::{AllocError, Global};
use std::marker::Model;

/// Terms, the store of the Boolean variables in them, and the variables that were made, each by its cell.
#[derive(Drop)]
pub struct State {
    store: Store,
    heap: Heap,
    made: Vec<usize>,
    // What the search for cycles uses, and a number of cells of which none names a later one.
    search: Search,
    settled: usize,
}

impl Model for State {
    ghost use Rattle.cb_unify.specs.State.{Seen};
    ghost use Rattle.cb_unify.specs.Solve.{IsSettled};

    ghost Value = { Seen };

    ghost view = { λ s. record { heap = s.heap; store = s.store; made = s.made.items } };

    ghost invariant = { λ s. IsSettled s.settled s.heap.cells };
}

/// A moment of a state, to which `undo` goes back.
#[derive(Clone, Copy)]
pub struct StateMark {
    store: StoreMark,
    heap: HeapMark,
    made: usize,
}

impl Model for StateMark {
    ghost use Rattle.cb_unify.specs.Moments.{Moment};

    ghost Value = { Moment };

    ghost view = { λ m. record { heap = m.heap; store = m.store; made = m.made } };

    ghost inverse = { λ m. record { store = m.store; heap = m.heap; made = m.made } };
}

impl State {
    /// No terms and no variables, over these constants and at most `budget` nodes.
    pub fn new(alloc: Global, constants: u32, budget: usize) -> Result<State, AllocError>
        ensures new { IfOk result (λ s. s ≡ no_state constants budget) }
        ensures state { IfOk result (λ s. IsState s) }
    {
        let store = Store::new(alloc, constants, budget)?;
        Ok(State {
            store,
            heap: Heap::new(alloc),
            made: Vec::new(alloc),
            search: Search::new(alloc),
            settled: 0,
        })
    }

    /// The moment, to which a later `undo` can return. It takes no memory.
    pub fn mark(&self) -> StateMark
        requires { IsState self.now }
        ensures moment { result ≡ moment_of self.now }
        ensures is_moment { IsMoment result self.now }
        ensures now { reverted result self.now ≡ self.now }
    {
        StateMark {
            store: self.store.mark(),
            heap: self.heap.mark(),
            made: self.made.len(),
        }
    }

    /// Goes back to a moment: terms, variables and values are what they were. It takes no memory.
    pub fn undo(&mut self, to: StateMark)
        requires state { IsState self.old }
        requires moment { IsMoment to self.old }
        ensures reverted { self.new ≡ reverted to self.old }
        ensures back { (s : Seen) → IsState s → to ≡ moment_of s → KeepsMoments s self.old → self.new ≡ with_fulls self.old.store.nodes.fulls s }
        ensures moments { (s : Seen) → IsState s → to ≡ moment_of s → KeepsMoments s self.old → KeepsMoments s self.new }
        ensures state { IsState self.new }
    {
        self.heap.undo(to.heap);
        self.store.undo(to.store);
        self.made.truncate(to.made);
        self.settled = self.heap.len();
    }

    /// The store of the Boolean variables. Who borrows it leaves the constants, the budget, the free levels with their
    /// variables, the slots with their values and the nodes, each in its place, and lets the count of refusals not fall;
    /// levels, slots and nodes may be added.
    pub fn store(&mut self) -> &mut Store
        ensures* writes_back { sem 𝓛 (LendsStore self.entry result) }
        ensures value { result.now ≡ self.old.store }
    {
        &mut self.store
    }

    /// The store of the Boolean variables, for reading.
    pub fn store_ref(&self) -> &Store
        ensures { result.now ≡ self.now.store }
    {
        &self.store
    }

    /// The operations on diagrams. Who borrows them owes what the store's own loan of them asks for.
    pub fn ops(&mut self) -> &mut Ops
        ensures* writes_back { sem 𝓛 (LendsOps self.entry result) }
        ensures value { result.now ≡ self.old.store.nodes }
    {
        self.store.ops()
    }

    /// The terms.
    pub fn heap(&self) -> &Heap
        ensures { result.now ≡ self.now.heap }
    {
        &self.heap
    }

    /// The node of a truth value's cell.
    pub fn node(&self, r: Ref) -> Node
        requires state { IsState self.now }
        requires sort { slice_get self.now.heap.sorts r.0 ≡ Some sort.Bool }
        requires fits { (t : Sorts) × FitsTable t self.now }
        ensures value { HasValue self.now r.0 (λ a w. Bit (node_bit self.now a w result.0)) }
        ensures argument { IsArgument self.now.store result.0 }
    {
        let Some(slot) = self.slot(r) else {
            unreachable!()
        };
        self.store.value(slot)
    }

    // The slot of a truth value's cell.
    fn slot(&self, r: Ref) -> Option<Slot>
        requires state { IsState self.now }
        requires there { r.0 < length self.now.heap.cells }
        ensures slot { IfSome result (λ x. HasSlot self.now r.0 x.0) }
        ensures some { (t : Sorts) → FitsTable t self.now → slice_get self.now.heap.sorts r.0 ≡ Some sort.Bool → result ≢ None }
    {
        let end = self.heap.last(r);
        match self.heap.cell(end) {
            Cell::Leaf(slot) => Some(Slot(slot)),
            _ => None,
        }
    }
}

/// What is left of a loan is a state with the moments and the values that it had: what who borrows the store or its
/// operations owes, and gets.
pub fn loans_are_safe()
    ensures store { StoreIsLent }
    ensures ops { OpsAreLent }
{}

/// A tree that `build` writes takes no more slots than it has operators and leaves: what a bound on the slots of a branch
/// rests on.
pub fn trees_have_few_places()
    ensures { PlacesAreFew }
{}

/// Every solution in the algebra, also over a longer list of constants, is an instance of the slots and cells: each free
/// level is given the table of its variable, each unbound cell its value in the solution.
pub fn solutions_are_instances()
    ensures values { ValuesAreInstances }
    ensures solutions { SolutionsAreInstances }
{}
