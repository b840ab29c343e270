//! Cells of run-time terms that are made one, with all that this makes equal; and whether a cell then leads back to
//! itself. Nothing here recurses over the depth of a term, and what is shared is met once.
#![tactic(auto)]

ghost use Rattle.std.specs.Prelude.{◌≡◌, ◌⊎◌, ◌↔◌, ℕ, ◌+◌, ◌<◌, ◌≤◌, ◌^◌, [], ◌∷◌, ◌++◌, length, slice_get, true, false, Some, Ok, IfOk, OnOk, IsTrue};
ghost use Rattle.cb_heap.specs.Reading.{IsUnbound, side_by_side};
ghost use Rattle.cb_heap.specs.Heap.{IsHeap};
ghost use Rattle.cb_heap.specs.Links.{LeadsTo, chain};
ghost use Rattle.cb_heap.specs.Moments.{KeepsMoments};
ghost use Rattle.cb_join.specs.Cycle.{IsLinkTo};
ghost use Rattle.cb_join.specs.Joins.{Alike, AreJoined, Clashes, IsEnd, IsEndOf, IsShortened, IsWithin, LeavesStay, MadeOne, NoneJoin, owed_leaves, owed_most, owed_pairs, relinked};

mod cycle;

use cb_heap::{Heap, Ref, Stored};
use cb_model::Sort;
pub use cycle::{Search, is_finite};
use std::alloc::AllocError;

/// What is still to be made equal: pairs of cells, each by its number, and pairs of slots that are to have one bit.
#[derive(Drop)]
pub struct Owed {
    pub pending: Vec<(usize, usize)>,
    pub leaves: Vec<(usize, usize)>,
}

/// Makes the two cells of each pending pair one, and of each pair that this brings, or finds that they can't all be.
/// The pairs of slots that are to have one bit are added to the leaves. A variable is bound without an occurs check. No
/// pair of values is met twice: once they are made one, the younger cell leads to the older (Huet 1976).
///
/// After a refusal, and where they can't be made one, cells may be left rewritten, and the pending pairs aren't all
/// there any more.
pub fn join(heap: &mut Heap, owed: &mut Owed) -> Result<bool, AllocError>
    requires heap { IsHeap heap.old }
    requires within { IsWithin heap.old.cells owed.old.pending.items }
    ensures joined { result ≡ Ok true → AreJoined heap.old owed.old heap.new owed.new }
    ensures clashes { result ≡ Ok false → NoneJoin heap.old owed.old }
    ensures keeps { result ≡ Ok true → LeavesStay heap.old owed.old heap.new owed.new }
    ensures sorts { heap.new.sorts ≡ heap.old.sorts }
    ensures moments { KeepsMoments heap.old heap.new }
    ensures heap { IsHeap heap.new }
{
    'pairs: while let Some((l, r)) = owed.pending.pop() {
        if !join_pair(heap, l, r, owed)? {
            return Ok(false);
        }
    }
    Ok(true)
}

// Makes the values of cells l and r one, or finds that they can't be.
fn join_pair(heap: &mut Heap, l: usize, r: usize, owed: &mut Owed) -> Result<bool, AllocError>
    requires heap { IsHeap heap.old }
    requires within { IsWithin heap.old.cells owed.old.pending.items }
    requires there { (l < length heap.old.cells) × (r < length heap.old.cells) }
    ensures equated { result ≡ Ok true → MadeOne heap.old owed.old l r heap.new owed.new }
    ensures clashes { result ≡ Ok false → Clashes heap.old.sorts heap.old.cells l r }
    ensures sorts { heap.new.sorts ≡ heap.old.sorts }
    ensures moments { KeepsMoments heap.old heap.new }
    ensures heap { IsHeap heap.new }
{
    let l = end_of(heap, l)?;
    let r = end_of(heap, r)?;
    if l == r {
        return Ok(true);
    }
    let (l, r) = ordered(l, r);
    equate(heap, l, r, owed)
}

// The cell past all links. The links on the way lead there from then on, so that no long way is gone twice (path
// compression, Hopcroft and Ullman 1973).
fn end_of(heap: &mut Heap, from: usize) -> Result<usize, AllocError>
    requires heap { IsHeap heap.old }
    requires from { from < length heap.old.cells }
    ensures end { IfOk result (λ e. IsEndOf heap.old.sorts heap.old.cells heap.new.cells from e) }
    ensures shortened { OnOk result (IsShortened heap.old.sorts heap.old.cells heap.new.cells) }
    ensures sorts { heap.new.sorts ≡ heap.old.sorts }
    ensures moments { KeepsMoments heap.old heap.new }
    ensures heap { IsHeap heap.new }
{
    let end = heap.last(Ref(from));
    let mut at = from;
    'links: while let Some(to) = far_link(heap, at, end) {
        relink(heap, at, to, end)?;
        at = to.0;
    }
    Ok(end.0)
}

// Where a cell leads, if it is a link to another cell than this one.
fn far_link(heap: &Heap, at: usize, end: Ref) -> Option<Ref>
    requires { at < length heap.now.cells }
    ensures { (to : Ref) → result ≡ Some to → IsLinkTo heap.now.cells at to }
{
    match heap.link(Ref(at)) {
        Some(to) => { if to.0 == end.0 { None } else { Some(to) } }
        None => None,
    }
}

// Leads a link to the end of its way.
fn relink(heap: &mut Heap, at: usize, to: Ref, end: Ref) -> Result<(), AllocError>
    requires heap { IsHeap heap.old }
    requires link { IsLinkTo heap.old.cells at to }
    requires leads { LeadsTo heap.old.cells to.0 end.0 }
    requires end { IsEnd heap.old.cells end.0 }
    requires there { at < length heap.old.cells }
    ensures shortened { OnOk result (IsShortened heap.old.sorts heap.old.cells heap.new.cells) }
    ensures leads { OnOk result (LeadsTo heap.new.cells to.0 end.0) }
    ensures less { OnOk result (chain heap.new.cells to.0 < chain heap.old.cells at) }
    ensures sorts { heap.new.sorts ≡ heap.old.sorts }
    ensures moments { KeepsMoments heap.old heap.new }
    ensures heap { IsHeap heap.new }
{
    let link = heap.stored(Ref(at));
    heap.rewrite(Ref(at), relinked(link, end))?;
    Ok(())
}

// The link, led to another cell.
fn relinked(link: Stored, to: Ref) -> Stored
    ensures { result ≡ relinked link to }
{
    match link {
        Stored::Same(_) => Stored::Same(to),
        _ => Stored::Bound(to),
    }
}

// The two in order.
fn ordered(a: usize, b: usize) -> (usize, usize)
    ensures same { (result ≡ (a, b)) ⊎ (result ≡ (b, a)) }
    ensures older { (a ≡ b → ⊥) → result.0 < result.1 }
{
    if a < b { (a, b) } else { (b, a) }
}

// Makes two cells one, l the older, or finds that they can't be. A variable is bound; of two values the younger cell
// leads to the older, and what is left to be equal is owed.
fn equate(heap: &mut Heap, l: usize, r: usize, owed: &mut Owed) -> Result<bool, AllocError>
    requires heap { IsHeap heap.old }
    requires within { IsWithin heap.old.cells owed.old.pending.items }
    requires there { (l < length heap.old.cells) × (r < length heap.old.cells) }
    requires ends { IsEnd heap.old.cells l × IsEnd heap.old.cells r }
    requires older { l < r }
    ensures equated { result ≡ Ok true → MadeOne heap.old owed.old l r heap.new owed.new }
    ensures clashes { result ≡ Ok false → Clashes heap.old.sorts heap.old.cells l r }
    ensures sorts { heap.new.sorts ≡ heap.old.sorts }
    ensures moments { KeepsMoments heap.old heap.new }
    ensures heap { IsHeap heap.new }
{
    let _count = heap.len();
    if !same_sort(heap.sort(Ref(l)), heap.sort(Ref(r))) {
        return Ok(false);
    }
    let a = heap.stored(Ref(l));
    let b = heap.stored(Ref(r));
    if is_unbound(b) {
        heap.rewrite(Ref(r), Stored::Bound(Ref(l)))?;
        return Ok(true);
    }
    if is_unbound(a) {
        heap.rewrite(Ref(l), Stored::Bound(Ref(r)))?;
        return Ok(true);
    }
    if !alike(a, b) {
        return Ok(false);
    }
    heap.rewrite(Ref(r), Stored::Same(Ref(l)))?;
    owe(owed, l, r, a, b)?;
    Ok(true)
}

// Whether the two are one sort.
fn same_sort(a: Sort, b: Sort) -> bool
    ensures { IsTrue result ↔ (a ≡ b) }
{
    match (a, b) {
        (Sort::Bool, Sort::Bool) => true,
        (Sort::Bus, Sort::Bus) => true,
        (Sort::Term, Sort::Term) => true,
        _ => false,
    }
}

// Whether nothing is known of the cell's value.
fn is_unbound(cell: Stored) -> bool
    ensures { IsTrue result ↔ IsUnbound cell }
{
    match cell {
        Stored::BusVar => true,
        Stored::TermVar => true,
        _ => false,
    }
}

// Whether the two say the same of the outermost form of a value.
fn alike(a: Stored, b: Stored) -> bool
    ensures { IsTrue result ↔ Alike a b }
{
    match (a, b) {
        (Stored::Leaf(_), Stored::Leaf(_)) => true,
        (Stored::BusNil, Stored::BusNil) => true,
        (Stored::BusCons(_, _), Stored::BusCons(_, _)) => true,
        (Stored::Int(i), Stored::Int(j)) => i == j,
        (Stored::Node(n, k), Stored::Node(m, j)) => n == m && k == j,
        _ => false,
    }
}

// Adds what is left to be equal when cells l and r, which stood for a and b, are one.
fn owe(owed: &mut Owed, l: usize, r: usize, a: Stored, b: Stored) -> Result<(), AllocError>
    requires alike { Alike a b }
    requires below { (l + owed_most a < 2 ^ 64) × (r + owed_most a < 2 ^ 64) }
    ensures pending { OnOk result (owed.new.pending.items ≡ owed.old.pending.items ++ owed_pairs l r a b) }
    ensures leaves { OnOk result (owed.new.leaves.items ≡ owed.old.leaves.items ++ owed_leaves a b) }
{
    match (a, b) {
        (Stored::Leaf(s), Stored::Leaf(z)) => owed.leaves.push((s, z))?,
        (Stored::BusCons(h, x), Stored::BusCons(i, y)) => {
            owed.pending.push((h.0, i.0))?;
            owed.pending.push((x.0, y.0))?;
        }
        (Stored::Node(_, k), _) => owe_each(&mut owed.pending, l + 1, r + 1, k)?,
        _ => {}
    }
    Ok(())
}

// Adds the pairs of the cells from i on with those from j on, k of them.
fn owe_each(
    pending: &mut Vec<(usize, usize)>,
    i: usize,
    j: usize,
    k: usize,
) -> Result<(), AllocError>
    requires { (i + k < 2 ^ 64) × (j + k < 2 ^ 64) }
    ensures { OnOk result (pending.new.items ≡ pending.old.items ++ side_by_side i j k) }
{
    for n in 0..k {
        pending.push((i + n, j + n))?;
    }
    Ok(())
}
