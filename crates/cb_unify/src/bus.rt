//! New cells of which something is known, and buses of truth values.

ghost use Rattle.std.specs.Prelude.{◌≡◌, length, map, slice_get, Some, IfOk, OnOk, OnErr};
ghost use Rattle.cb_model.specs.Bits.{Each};
ghost use Rattle.cb_model.specs.Values.{Bit, Sorts, Word};
ghost use Rattle.cb_model.specs.declared.Sort.TheVariants as sort;
ghost use Rattle.cb_elim.specs.Store.{IsArgument};
ghost use Rattle.cb_heap.specs.Heap.{IsAddable};
ghost use Rattle.cb_unify.specs.State.{FitsTable, HasValue, IsState, node_bit};
ghost use Rattle.cb_unify.specs.Moments.{KeepsMoments};
ghost use Rattle.cb_unify.specs.Growth.{AddsSlots, IsBusOf, IsExtended, IsLeafOf, IsNoLeaf, IsPlaced, IsPut};

use crate::State;
use cb_dd::Node;
use cb_heap::{Cell, Ref};
use std::alloc::AllocError;

impl State {
    /// A closed bus whose elements have the functions of these nodes, in order. It makes no node. After a refusal the
    /// state is as before.
    pub fn bus(&mut self, nodes: &[Node]) -> Result<Ref, AllocError>
        requires state { IsState self.old }
        requires arguments { Each (λ n. IsArgument self.old.store n.0) nodes.now }
        ensures value { IfOk result (λ r. HasValue self.new r.0 (λ a w. Word (map (λ n. node_bit self.new a w n.0) nodes.now))) }
        ensures extended { OnOk result (IsExtended self.old self.new) }
        ensures placed { IfOk result (λ r. IsPlaced self.old self.new sort.Bus r.0) }
        ensures count { OnOk result (AddsSlots self.old self.new (length nodes.now)) }
        ensures nodes { self.new.store.nodes ≡ self.old.store.nodes }
        ensures refused { OnErr result (self.new ≡ self.old) }
        ensures moments { KeepsMoments self.old self.new }
        ensures state { IsState self.new }
    {
        let before = self.mark();
        match elements(self, nodes) {
            Ok(r) => Ok(r),
            Err(failed) => {
                self.undo(before);
                Err(failed)
            }
        }
    }

    // A cell with the truth value of this node. After a refusal its slot may be there.
    pub(crate) fn leaf(&mut self, f: Node) -> Result<Ref, AllocError>
        requires state { IsState self.old }
        requires argument { IsArgument self.old.store f.0 }
        ensures leaf { IfOk result (λ r. IsLeafOf self.old self.new f.0 r.0) }
        ensures nodes { self.new.store.nodes ≡ self.old.store.nodes }
        ensures moments { KeepsMoments self.old self.new }
        ensures state { IsState self.new }
    {
        let slot = self.store.hold(f)?;
        let r = self.heap.add(Cell::Leaf(slot.0))?;
        Ok(r)
    }

    // A cell that is no leaf.
    pub(crate) fn put(&mut self, cell: Cell) -> Result<Ref, AllocError>
        requires state { IsState self.old }
        requires addable { IsAddable (length self.old.heap.cells) cell }
        requires apart { IsNoLeaf cell }
        ensures put { IfOk result (λ r. IsPut self.old self.new cell r.0) }
        ensures refused { OnErr result (self.new ≡ self.old) }
    {
        let r = self.heap.add(cell)?;
        Ok(r)
    }
}

// The bus of these nodes, the last element first. After a refusal some of its elements may be there.
fn elements(state: &mut State, nodes: &[Node]) -> Result<Ref, AllocError>
    requires state { IsState state.old }
    requires arguments { Each (λ n. IsArgument state.old.store n.0) nodes.now }
    ensures bus { IfOk result (λ r. IsBusOf state.old state.new nodes.now r.0) }
    ensures nodes { state.new.store.nodes ≡ state.old.store.nodes }
    ensures moments { KeepsMoments state.old state.new }
    ensures state { IsState state.new }
{
    let mut at = state.put(Cell::BusNil)?;
    let mut k = nodes.len();
    while 0 < k {
        k -= 1;
        let head = state.leaf(nodes[k])?;
        at = state.put(Cell::BusCons(head, at))?;
    }
    Ok(at)
}
