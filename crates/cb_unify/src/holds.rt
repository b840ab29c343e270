//! The words of a delay, of a cell.

ghost use Rattle.std.specs.Prelude.{◌≡◌, ◌↔◌, ℕ, ◌<◌, Bool, length, IfOk, IsTrue};
ghost use Rattle.cb_model.specs.Bits.{Bits};
ghost use Rattle.cb_model.specs.Values.{Sorts};
ghost use Rattle.cb_dd.specs.Diagram.{IsNode, function_of};
ghost use Rattle.cb_elim.specs.Store.{IsStore};
ghost use Rattle.cb_heap.specs.declared.Stored.TheVariants as stored;
ghost use Rattle.cb_heap.specs.Heap.{IsHeap};
ghost use Rattle.cb_heap.specs.Reading.{IsUnbound};
ghost use Rattle.cb_join.specs.Joins.{SlotsBelow};
ghost use Rattle.cb_unify.specs.State.{FitsTable, IsState};
ghost use Rattle.cb_unify.specs.Delays.{AreSettled, HoldsAt, IsSettledBit, Settles};

use crate::State;
use cb_dd::Node;
use cb_elim::{Slot, Store};
use cb_heap::{Heap, Ref, Stored};
use cb_model::When;
use indexmap::IndexSet;
use std::alloc::{AllocError, Global};

impl State {
    /// Whether the word of a delay holds of the cell's value, over all values that belong to the state: `Any` always,
    /// `Known` where it is one at each assignment of the constants, `Fixed` where it is one over all assignments, and
    /// `Nonvar` where its outermost form is one.
    pub fn holds(&self, when: When, r: Ref) -> Result<bool, AllocError>
        requires state { IsState self.now }
        requires there { r.0 < length self.now.heap.cells }
        ensures { (t : Sorts) → FitsTable t self.now → IfOk result (λ b. IsTrue b ↔ HoldsAt t self.now when r.0) }
    {
        match when {
            When::Any => Ok(true),
            When::Nonvar => Ok(!is_unbound(self.heap.stored(self.heap.last(r)))),
            _ => are_settled(*self.made.allocator(), &self.heap, &self.store, when, r),
        }
    }
}

// Whether it is an unbound variable.
fn is_unbound(cell: Stored) -> bool
    ensures { IsTrue result ↔ IsUnbound cell }
{
    match cell {
        Stored::BusVar => true,
        Stored::TermVar => true,
        _ => false,
    }
}

// Whether each cell below this one settles, and it itself. Each is looked at once, and the first that doesn't ends it.
fn are_settled(
    alloc: Global,
    heap: &Heap,
    store: &Store,
    when: When,
    r: Ref,
) -> Result<bool, AllocError>
    requires heap { IsHeap heap.now }
    requires there { r.0 < length heap.now.cells }
    requires store { IsStore store.now }
    requires slots { SlotsBelow (length store.now.slots) heap.now.cells }
    ensures { IfOk result (λ b. IsTrue b ↔ AreSettled store.now when heap.now.cells r.0) }
{
    let _count = heap.len();
    let mut met = IndexSet::new(alloc);
    met.insert(r.0)?;
    let mut done = 0;
    'cells: while let Some(at) = met.get_index(done).copied() {
        match settles(store, when, heap.stored(Ref(at))) {
            Ok(true) => {}
            Ok(false) => return Ok(false),
            Err(failed) => return Err(failed),
        }
        heap.meet(Ref(at), &mut met)?;
        done += 1;
    }
    Ok(true)
}

// Whether what stands in a cell settles.
fn settles(store: &Store, when: When, cell: Stored) -> Result<bool, AllocError>
    requires store { IsStore store.now }
    requires slot { (x : ℕ) → cell ≡ stored.Leaf x → x < length store.now.slots }
    ensures { IfOk result (λ b. IsTrue b ↔ Settles store.now when cell) }
{
    match cell {
        Stored::Leaf(slot) => is_settled(store, when, store.value(Slot(slot))),
        Stored::BusVar => Ok(false),
        Stored::TermVar => Ok(false),
        _ => Ok(true),
    }
}

// Whether a truth value is settled.
fn is_settled(store: &Store, when: When, value: Node) -> Result<bool, AllocError>
    requires { IsNode store.now.nodes.triples value.0 }
    ensures { IfOk result (λ b. IsTrue b ↔ IsSettledBit store.now.constants when (function_of store.now.nodes.triples value.0)) }
{
    match when {
        When::Known => store.known(value),
        When::Fixed => Ok(is_constant(store, value)),
        _ => Ok(true),
    }
}

// Whether it is one at all points.
fn is_constant(store: &Store, value: Node) -> bool
    requires { IsNode store.now.nodes.triples value.0 }
    ensures { IsTrue result ↔ ((b : Bool) × ((p : Bits) → function_of store.now.nodes.triples value.0 p ≡ b)) }
{
    store.is_const(value).is_some()
}
