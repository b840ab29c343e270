//! Run-time terms: cells that name cells, so that what is equal stands once. Variables are bound in place, and what
//! stood there is kept to be taken back (the trail of Warren's abstract machine, 1983).
#![tactic(auto)]

ghost use Rattle.std.specs.Prelude.{◌≡◌, ℕ, ◌+◌, ◌<◌, ◌≤◌, ◌^◌, ◌↔◌, [], ◌∷◌, ◌++◌, length, map, take, drop, true, false, slice_get, slice_set, nat_eq, Some, IfOk, OnOk, OnErr, IsTrue, Contains};
ghost use Rattle.std.specs.Option.{option_map};
ghost use Rattle.cb_model.specs.Bits.{Each};
ghost use Rattle.cb_heap.specs.Reading.{IsUnbound};
ghost use Rattle.std.specs.List.{IsDistinct};
ghost use Rattle.cb_heap.specs.Finite.{AllFinite, IsChild, Names};
ghost use Rattle.cb_heap.specs.Below.{IsBelow, Meets};
ghost use Rattle.cb_heap.specs.Links.{IsLast, IsLinked, link_of};
ghost use Rattle.cb_heap.specs.Heap.{Terms, IsAddable, IsBound, IsHeap, IsUnboundAt, no_terms, shown_as, sort_of, stored_as, with_cell, with_node, with_rewritten};
ghost use Rattle.cb_heap.specs.Moments.{Moment, IsMoment, KeepsMoments, changes_since, moment_of, reverted, rewritten_since, stored_since, undone};
ghost use Rattle.cb_heap.specs.Laws.{BelowSame, DifferSomewhere, HasReading, OneBelow, TwoForms};

mod below;
mod made;

use below::{is_below, meet};
use cb_model::Sort;
use cb_trail::Trail;
use indexmap::IndexSet;
use made::{push_node, sort, stored};
use std::alloc::{AllocError, Global};
use std::marker::Model;

/// A cell of a heap, by its number.
#[derive(Clone, Copy, PartialEq, Eq, Debug)]
pub struct Ref(pub usize);

/// What a cell says of its value.
#[derive(Clone, Copy, PartialEq, Eq, Debug)]
pub enum Cell {
    /// A truth value: that of a slot, by its number.
    Leaf(usize),
    /// A bus of which nothing is known.
    BusVar,
    /// The bus without elements.
    BusNil,
    /// A bus: its first element, and the bus of the others.
    BusCons(Ref, Ref),
    /// A term of which nothing is known.
    TermVar,
    Int(i64),
    /// A compound: its name and the number of its arguments, which stand in the cells that follow.
    Node(u32, usize),
    /// The value of another cell.
    Bound(Ref),
}

/// What is stored in a cell: a variable that was bound is told from a value that became another cell's.
#[derive(Clone, Copy, PartialEq, Eq, Debug)]
pub enum Stored {
    Leaf(usize),
    BusVar,
    BusNil,
    BusCons(Ref, Ref),
    TermVar,
    Int(i64),
    Node(u32, usize),
    /// A variable that was bound, or an argument: the value of another cell.
    Bound(Ref),
    /// A value that is known to be that of an older cell, where a value stands too (Huet 1976).
    Same(Ref),
}

/// A cell that was rewritten, and what stood there.
#[derive(Clone, Copy, PartialEq, Eq, Debug)]
pub struct Change {
    pub cell: usize,
    pub old: Stored,
}

/// Terms as cells, each with its sort. The cells that a cell names are there before it or, as arguments, right behind it.
#[derive(Drop)]
pub struct Heap {
    cells: Vec<Stored>,
    sorts: Vec<Sort>,
    trail: Trail<Change>,
}

impl Model for Heap {
    ghost use Rattle.cb_heap.specs.Heap.{Terms};

    ghost Value = { Terms };

    ghost view = { λ h. record { cells = h.cells.items; sorts = h.sorts.items; trail = h.trail } };
}

/// A moment of a heap, to which `undo` goes back.
#[derive(Clone, Copy)]
pub struct HeapMark {
    cells: usize,
    trail: u64,
}

impl Model for HeapMark {
    ghost use Rattle.cb_heap.specs.Moments.{Moment};

    ghost Value = { Moment };

    ghost view = { λ m. record { cells = m.cells; trail = m.trail } };

    ghost inverse = { λ m. record { cells = m.cells; trail = m.trail } };
}

impl Heap {
    /// No cells yet. It takes no memory.
    pub fn new(alloc: Global) -> Heap
        ensures new { result ≡ no_terms }
        ensures heap { IsHeap result }
    {
        Heap {
            cells: Vec::new(alloc),
            sorts: Vec::new(alloc),
            trail: Trail::new(alloc),
        }
    }

    /// Adds a cell that is neither a compound nor bound. After a refusal the heap is as before.
    pub fn add(&mut self, cell: Cell) -> Result<Ref, AllocError>
        requires heap { IsHeap self.old }
        requires addable { IsAddable (length self.old.cells) cell }
        ensures added { IfOk result (λ r. (r.0 ≡ length self.old.cells) × (self.new ≡ with_cell self.old cell)) }
        ensures refused { OnErr result (self.new ≡ self.old) }
        ensures finite { AllFinite self.old.cells → AllFinite self.new.cells }
        ensures moments { KeepsMoments self.old self.new }
        ensures heap { IsHeap self.new }
    {
        let at = self.cells.len();
        self.sorts.push(sort(cell))?;
        if self.cells.push(stored(cell)).is_err() {
            self.sorts.pop();
            return Err(AllocError);
        }
        Ok(Ref(at))
    }

    /// Adds a compound with this name and these arguments. After a refusal the heap is as before.
    pub fn add_node(&mut self, name: u32, args: &[Ref]) -> Result<Ref, AllocError>
        requires heap { IsHeap self.old }
        requires there { Each (λ r. r.0 < length self.old.cells) args.now }
        ensures added { IfOk result (λ r. (r.0 ≡ length self.old.cells) × (self.new ≡ with_node self.old name args.now)) }
        ensures refused { OnErr result (self.new ≡ self.old) }
        ensures finite { AllFinite self.old.cells → AllFinite self.new.cells }
        ensures moments { KeepsMoments self.old self.new }
        ensures heap { IsHeap self.new }
    {
        let at = self.cells.len();
        let sorts = self.sorts.len();
        match push_node(&mut self.cells, &mut self.sorts, name, args) {
            Ok(()) => Ok(Ref(at)),
            Err(failed) => {
                self.cells.truncate(at);
                self.sorts.truncate(sorts);
                Err(failed)
            }
        }
    }

    /// What stands in the cell.
    pub fn cell(&self, r: Ref) -> Cell
        requires { r.0 < length self.now.cells }
        ensures { Some result ≡ option_map shown_as (slice_get self.now.cells r.0) }
    {
        shown(self.cells[r.0])
    }

    /// The sort of the cell's value.
    pub fn sort(&self, r: Ref) -> Sort
        requires { r.0 < length self.now.sorts }
        ensures { slice_get self.now.sorts r.0 ≡ Some result }
    {
        self.sorts[r.0]
    }

    /// The number of cells.
    pub fn len(&self) -> usize
        ensures number { result ≡ length self.now.cells }
        ensures small { result < 2 ^ 63 }
    {
        self.cells.len()
    }

    /// The k-th argument, from 0, of a compound that stands in the cell, or stood there before it was bound.
    pub fn arg(&self, r: Ref, k: usize) -> Ref
        requires { r.0 + 1 + k < length self.now.cells }
        ensures { result.0 ≡ r.0 + 1 + k }
    {
        let _count = self.cells.len();
        Ref(r.0 + 1 + k)
    }

    /// The cell past all bindings.
    pub fn last(&self, r: Ref) -> Ref
        requires heap { IsHeap self.now }
        requires there { r.0 < length self.now.cells }
        ensures { IsLast self.now.cells r.0 result.0 }
    {
        last_of(&self.cells, r)
    }

    /// Whether the variable is the place, or stands below it. Each cell below the place is looked at once, however
    /// often it is named.
    pub fn occurs(&self, var: Ref, place: Ref) -> Result<bool, AllocError>
        requires heap { IsHeap self.now }
        requires there { place.0 < length self.now.cells }
        ensures { IfOk result (λ b. IsTrue b ↔ IsBelow self.now.cells place.0 var.0) }
    {
        is_below(*self.cells.allocator(), &self.cells, place.0, var.0)
    }

    /// Binds a variable, so that its value is that of the other cell. Of two unbound variables the younger leads to the
    /// older. After a refusal the heap is as before.
    pub fn bind(&mut self, var: Ref, to: Ref) -> Result<(), AllocError>
        requires heap { IsHeap self.old }
        requires unbound { IsUnboundAt self.old.cells var.0 }
        requires there { to.0 < length self.old.cells }
        requires sorts { slice_get self.old.sorts var.0 ≡ slice_get self.old.sorts to.0 }
        requires apart { IsBelow self.old.cells to.0 var.0 → ⊥ }
        ensures bound { OnOk result (IsBound self.old self.new var.0 to.0) }
        ensures refused { OnErr result (self.new ≡ self.old) }
        ensures moments { KeepsMoments self.old self.new }
        ensures heap { IsHeap self.new }
    {
        let end = last_of(&self.cells, to);
        if is_younger_variable(&self.cells, end.0, var.0) {
            rewrite(&mut self.cells, &mut self.trail, end.0, Stored::Bound(var))?;
        } else {
            rewrite(&mut self.cells, &mut self.trail, var.0, Stored::Bound(end))?;
        }
        Ok(())
    }

    /// Adds the cells that the cell names behind those that were met before, each once. A search that starts with one
    /// cell and looks at what was met in turn meets all cells below it, each once.
    pub fn meet(&self, r: Ref, met: &mut IndexSet<usize>) -> Result<(), AllocError>
        requires heap { IsHeap self.now }
        requires there { r.0 < length self.now.cells }
        requires unique { IsDistinct nat_eq met.old.keys }
        ensures meets { OnOk result (Meets (λ j. IsChild self.now.cells r.0 j) met.old.keys met.new.keys) }
    {
        let _count = self.len();
        meet(self.stored(r), r.0, met)?;
        Ok(())
    }

    /// Where the cell leads, if it is a variable that was bound, an argument, or a value that became another cell's.
    pub fn link(&self, r: Ref) -> Option<Ref>
        requires { r.0 < length self.now.cells }
        ensures { (c : Stored) → slice_get self.now.cells r.0 ≡ Some c → result ≡ link_of c }
    {
        link(self.cells[r.0])
    }

    /// What is stored in the cell.
    pub fn stored(&self, r: Ref) -> Stored
        requires { r.0 < length self.now.cells }
        ensures { slice_get self.now.cells r.0 ≡ Some result }
    {
        self.cells[r.0]
    }

    /// Writes a cell, and keeps what stood there. For unification, which makes many cells one before it looks for
    /// cycles: nothing is said of values. After a refusal the heap is as before.
    pub fn rewrite(&mut self, r: Ref, new: Stored) -> Result<(), AllocError>
        requires heap { IsHeap self.old }
        requires there { r.0 < length self.old.cells }
        requires linked { IsLinked (slice_set self.old.cells r.0 new) }
        ensures rewritten { OnOk result ((c : Stored) → slice_get self.old.cells r.0 ≡ Some c → self.new ≡ with_rewritten self.old r.0 c new) }
        ensures refused { OnErr result (self.new ≡ self.old) }
        ensures moments { KeepsMoments self.old self.new }
        ensures heap { IsHeap self.new }
    {
        rewrite(&mut self.cells, &mut self.trail, r.0, new)?;
        Ok(())
    }

    /// The k-th, from 0, of the cells that were bound since the moment and that no undo has taken back, in order of
    /// binding; a value that became another cell's counts as bound, and so does a bound cell that was led to the end of
    /// its links. `None` past the last. It takes no memory.
    pub fn bound(&self, since: HeapMark, k: u64) -> Option<Ref>
        requires { IsMoment since self.now }
        ensures listed { option_map (λ r. r.0) result ≡ slice_get (rewritten_since since self.now) k }
        ensures whole { (r : ℕ) → (stored_since since self.now r ≡ slice_get self.now.cells r → ⊥) → Contains (rewritten_since since self.now) r }
    {
        match self.change(since, k) {
            Some(change) => Some(Ref(change.cell)),
            None => None,
        }
    }

    /// The same cell with what stood in it until it was bound that time. It takes no memory.
    pub fn change(&self, since: HeapMark, k: u64) -> Option<Change>
        requires { IsMoment since self.now }
        ensures { result ≡ slice_get (changes_since since self.now) k }
    {
        let made = self.trail.mark() - since.trail;
        if made <= k {
            return None;
        }
        match self.trail.get(since.trail + k) {
            Some(change) => Some(*change),
            None => None,
        }
    }

    /// How many cells were bound since the moment and not taken back, as `bound` lists them. It takes no memory.
    pub fn count_bound(&self, since: HeapMark) -> u64
        requires { IsMoment since self.now }
        ensures { result ≡ length (rewritten_since since self.now) }
    {
        self.trail.mark() - since.trail
    }

    /// The moment, to which a later `undo` can return. It takes no memory.
    pub fn mark(&self) -> HeapMark
        requires { IsHeap self.now }
        ensures moment { result ≡ moment_of self.now }
        ensures is_moment { IsMoment result self.now }
        ensures now { reverted result self.now ≡ self.now }
    {
        HeapMark {
            cells: self.cells.len(),
            trail: self.trail.mark(),
        }
    }

    /// Goes back to a moment: the cells are those that were there, and what stood in them. It takes no memory.
    pub fn undo(&mut self, to: HeapMark)
        requires heap { IsHeap self.old }
        requires moment { IsMoment to self.old }
        ensures reverted { self.new ≡ reverted to self.old }
        ensures back { (t : Terms) → IsHeap t → to ≡ moment_of t → KeepsMoments t self.old → self.new ≡ t }
        ensures moments { (t : Terms) → IsHeap t → to ≡ moment_of t → KeepsMoments t self.old → KeepsMoments t self.new }
        ensures heap { IsHeap self.new }
    {
        take_back(&mut self.cells, &mut self.trail, to.trail);
        self.cells.truncate(to.cells);
        self.sorts.truncate(to.cells);
    }
}

// What is shown of a cell.
fn shown(cell: Stored) -> Cell
    ensures { result ≡ shown_as cell }
{
    match cell {
        Stored::Leaf(slot) => Cell::Leaf(slot),
        Stored::BusVar => Cell::BusVar,
        Stored::BusNil => Cell::BusNil,
        Stored::BusCons(head, tail) => Cell::BusCons(head, tail),
        Stored::TermVar => Cell::TermVar,
        Stored::Int(value) => Cell::Int(value),
        Stored::Node(name, count) => Cell::Node(name, count),
        Stored::Bound(to) => Cell::Bound(to),
        Stored::Same(to) => Cell::Bound(to),
    }
}

// Where a cell leads, if it is a link.
fn link(cell: Stored) -> Option<Ref>
    ensures { result ≡ link_of cell }
{
    match cell {
        Stored::Bound(to) => Some(to),
        Stored::Same(to) => Some(to),
        _ => None,
    }
}

// The cell past all links.
fn last_of(cells: &[Stored], r: Ref) -> Ref
    requires linked { IsLinked cells.now }
    requires cell { r.0 < length cells.now }
    ensures { IsLast cells.now r.0 result.0 }
{
    let mut at = r.0;
    'links: while let Some(to) = link(cells[at]) {
        at = to.0;
    }
    Ref(at)
}

// Whether nothing is known of the cell's value.
fn is_unbound(cell: Stored) -> bool
    ensures { IsTrue result ↔ IsUnbound cell }
{
    match cell {
        Stored::BusVar => true,
        Stored::TermVar => true,
        _ => false,
    }
}

// Whether the cell is an unbound variable that is younger than the other cell.
fn is_younger_variable(cells: &[Stored], at: usize, other: usize) -> bool
    requires { at < length cells.now }
    ensures yes { result ≡ true → (other < at) × IsUnboundAt cells.now at }
    ensures no { result ≡ false → other < at → IsUnboundAt cells.now at → ⊥ }
{
    if at <= other {
        return false;
    }
    is_unbound(cells[at])
}

// Writes a cell, and keeps what stood there.
fn rewrite(
    cells: &mut [Stored],
    trail: &mut Trail<Change>,
    at: usize,
    new: Stored,
) -> Result<(), AllocError>
    requires { at < length cells.old }
    ensures cells { OnOk result (cells.new ≡ slice_set cells.old at new) }
    ensures trail { OnOk result ((c : Stored) → slice_get cells.old at ≡ Some c → trail.new ≡ trail.old ++ record { cell = at; old = c } ∷ []) }
    ensures same { OnErr result ((cells.new ≡ cells.old) × (trail.new ≡ trail.old)) }
{
    let old = cells[at];
    match trail.push(Change { cell: at, old }) {
        Ok(()) => {
            cells[at] = new;
            Ok(())
        }
        Err(_) => Err(AllocError),
    }
}

// Takes back the rewritten cells past the mark, the newest first.
fn take_back(cells: &mut [Stored], trail: &mut Trail<Change>, to: u64)
    requires mark { to ≤ length trail.old }
    requires within { Each (λ c. c.cell < length cells.old) trail.old }
    ensures trail { trail.new ≡ take to trail.old }
    ensures cells { cells.new ≡ undone (drop to trail.old) cells.old }
{
    'back: while let Some(change) = trail.undo_next(to) {
        cells[change.cell] = change.old;
    }
}

/// What a heap without cycles means. Whatever bits the slots and whatever values of their sorts the unbound cells have,
/// every cell has a value, and one only; a cell's value determines those of the cells below it. So nothing is known of
/// an unbound cell, not even its outermost form, and it isn't known to be equal to another.
pub fn cells_have_values()
    ensures has_reading { HasReading }
    ensures one_below { OneBelow }
    ensures below_same { BelowSame }
    ensures two_forms { TwoForms }
    ensures differ_somewhere { DifferSomewhere }
{}
