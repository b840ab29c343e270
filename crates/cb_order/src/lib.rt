//! An order of items in which each comes after those that it needs, or that there is none (A. B. Kahn, Topological
//! Sorting of Large Networks, 1962).
#![tactic(auto)]

ghost use Rattle.std.specs.Prelude.{◌≡◌, ℕ, ◌<◌, [], ◌∷◌, List, length, slice_get, slice_set, Some, MatchOption, ◌^◌, true, false, ◌≤◌, Contains, IfOk, IfSome, IfNone, OnOk};
ghost use Rattle.cb_model.specs.Order.{IsGraph, IsOrder, HasCycle};
ghost use Rattle.cb_order.specs.Sorting.{IsShaped, IsSorting, IsNext, state_of, is_placed};
ghost use Rattle.cb_order.specs.declared.Wait.{Wait};

use cb_lists::Lists;
use std::alloc::{AllocError, Global};
use std::collections::BTreeSet;
use std::mem;

/// An item that waits for one of its needs, by the place of the need; all needs before it are placed.
#[derive(Clone, Copy)]
struct Wait {
    item: u32,
    at: usize,
}

/// What was found so far: the items in order, which items are in it, the items that wait for each item, and those
/// that can come next.
#[derive(Drop)]
struct Sorting {
    order: Vec<u32>,
    placed: Vec<bool>,
    waiting: Vec<Vec<Wait>>,
    ready: BTreeSet<u32>,
}

impl Sorting {
    fn new(alloc: Global, count: usize) -> Result<Sorting, AllocError>
        ensures sorting { IfOk result (λ s. (g : List (List ℕ)) → length g ≡ count → IsSorting g 0 [] (state_of s)) }
        ensures none { IfOk result (λ s. s.ready.keys ≡ []) }
    {
        let mut waiting = Vec::new(alloc);
        for _ in 0..count {
            waiting.push(Vec::new(alloc))?;
        }
        Ok(Sorting {
            order: Vec::new(alloc),
            placed: vec![in alloc; false; count]?,
            waiting,
            ready: BTreeSet::new(alloc),
        })
    }

    /// Looks at the needs of an item from a place on: it waits for the first that isn't placed, or is ready.
    fn look(&mut self, graph: &Lists, wait: Wait) -> Result<(), AllocError>
        requires items { IsGraph graph.now }
        requires shape { IsShaped graph.now (state_of self.old) }
        requires item { wait.item < length graph.now }
        ensures shape { OnOk result (IsShaped graph.now (state_of self.new)) }
        ensures placed { OnOk result (self.new.placed.items ≡ self.old.placed.items) }
        ensures sorting { OnOk result ((seen : ℕ) (late : List Wait) → IsSorting graph.now seen (wait ∷ late) (state_of self.old) → IsSorting graph.now seen late (state_of self.new)) }
    {
        if self.placed[wait.item as usize] {
            return Ok(());
        }
        let list = graph.list(wait.item as usize);
        let Some(at) = self.first_missing(list, wait.at) else {
            self.ready.insert(wait.item)?;
            return Ok(());
        };
        let item = wait.item;
        let need = list[at] as usize;
        self.waiting[need].push(Wait { item, at })?;
        Ok(())
    }

    /// The place of the first need from a place on that isn't placed, if there is one.
    fn first_missing(&self, list: &[u32], from: usize) -> Option<usize>
        requires items { (n : ℕ) → Contains list.now n → n < length self.now.placed.items }
        ensures found { IfSome result (λ at. (n : ℕ) → slice_get list.now at ≡ Some n → is_placed self.now.placed.items n ≡ false) }
        ensures within { IfSome result (λ at. at < length list.now) }
        ensures before { IfSome result (λ at. (k n : ℕ) → from ≤ k → k < at → slice_get list.now k ≡ Some n → is_placed self.now.placed.items n ≡ true) }
        ensures none { IfNone result ((k n : ℕ) → from ≤ k → slice_get list.now k ≡ Some n → is_placed self.now.placed.items n ≡ true) }
    {
        for at in from..list.len() {
            if !self.placed[list[at] as usize] {
                return Some(at);
            }
        }
        None
    }

    /// Places the item that comes next, and looks at those that waited for it.
    fn place(&mut self, alloc: Global, graph: &Lists, item: u32) -> Result<(), AllocError>
        requires items { IsGraph graph.now }
        requires next { (seen : ℕ) × IsNext graph.now seen item (state_of self.old) }
        ensures placed { OnOk result (self.new.placed.items ≡ slice_set self.old.placed.items item true) }
        ensures sorting { OnOk result ((seen : ℕ) → IsNext graph.now seen item (state_of self.old) → IsSorting graph.now seen [] (state_of self.new)) }
    {
        self.order.push(item)?;
        self.placed[item as usize] = true;
        let woken = mem::replace(&mut self.waiting[item as usize], Vec::new(alloc));
        for wait in &woken {
            self.look(graph, *wait)?;
        }
        Ok(())
    }

    /// Places what is ready, the least first, and what becomes ready by that.
    fn settle(&mut self, alloc: Global, graph: &Lists) -> Result<(), AllocError>
        requires items { IsGraph graph.now }
        requires sorting { (seen : ℕ) × IsSorting graph.now seen [] (state_of self.old) }
        ensures sorting { OnOk result ((seen : ℕ) → IsSorting graph.now seen [] (state_of self.old) → IsSorting graph.now seen [] (state_of self.new)) }
        ensures none { OnOk result (self.new.ready.keys ≡ []) }
    {
        while let Some(item) = self.ready.pop_first() {
            self.place(alloc, graph, item)?;
        }
        Ok(())
    }
}

/// The items in an order in which each comes after those that it needs, and of those that could come next the least
/// comes; `None` exactly where some items need one another in a round.
pub fn order(alloc: Global, graph: &Lists) -> Result<Option<Vec<u32>>, AllocError>
    requires items { IsGraph graph.now }
    requires small { length graph.now ≤ 2 ^ 32 }
    ensures order { IfOk result (λ o. MatchOption o (HasCycle graph.now) (λ v. IsOrder graph.now v.items)) }
    ensures none { IfOk result (λ o. IfSome o (λ v. HasCycle graph.now → ⊥)) }
{
    let mut sorting = Sorting::new(alloc, graph.len())?;
    for item in 0..graph.len() {
        let wait = Wait {
            item: item as u32,
            at: 0,
        };
        sorting.look(graph, wait)?;
        sorting.settle(alloc, graph)?;
    }
    let Sorting { order, placed, .. } = sorting;
    if placed.contains(&false) {
        return Ok(None);
    }
    Ok(Some(order))
}
