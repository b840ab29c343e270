//! Whether a cell leads back to itself.

ghost use Rattle.std.specs.Prelude.{◌≡◌, ◌⊎◌, ℕ, ◌+◌, ◌<◌, ◌≤◌, ◌^◌, [], ◌∷◌, ◌++◌, length, slice_get, true, false, Some, None, Ok, OnOk, take};
ghost use Rattle.cb_heap.specs.Finite.{AllFinite, IsFinite};
ghost use Rattle.cb_heap.specs.Heap.{IsHeap};
ghost use Rattle.cb_heap.specs.Links.{LeadsTo, link_of};
ghost use Rattle.cb_heap.specs.Moments.{IsMoment, changes_since, reverted};
ghost use Rattle.cb_heap.specs.declared.Change.{Change};
ghost use Rattle.cb_join.specs.Cycle.{AreNew, HasNoReading, IsClosed, IsDone, IsDoneOrEnd, IsIdle, IsLinkTo, IsNoted, IsSearch, MoreDone, RootsEnd, StaysMet, Steps, child_of};
ghost use Rattle.cb_join.specs.Joins.{KeepsEnds};
ghost use Rattle.cb_join.specs.declared.cycle.Mark.TheVariants as mark;

use cb_heap::{Heap, HeapMark, Ref, Stored};
use std::alloc::{AllocError, Global};
use std::marker::Model;

// How far the search for a cycle is with a cell.
#[derive(Clone, Copy)]
enum Mark {
    // Not met yet.
    New,
    // On the way down.
    Open,
    // Every way down from it ends.
    Done,
}

// A cell on the way down, and how many of the cells that it names are done.
#[derive(Clone, Copy)]
struct Frame {
    cell: usize,
    next: usize,
}

// The marks of the cells, the cells that were met, and the way down to the cell that is looked at.
#[derive(Drop)]
struct Work {
    marks: Vec<Mark>,
    met: Vec<usize>,
    way: Vec<Frame>,
}

/// The room that searches for cycles use again and again. Between two searches it holds nothing of a heap.
#[derive(Drop)]
pub struct Search {
    work: Work,
}

impl Model for Search {
    ghost use Rattle.cb_join.specs.Cycle.{IsClean};

    ghost Value = { Unit {0} };

    ghost view = { λ s. tt };

    ghost invariant = { λ s. IsClean s.work };
}

impl Search {
    /// No room yet. It takes no memory.
    pub fn new(alloc: Global) -> Search {
        Search {
            work: Work {
                marks: Vec::new(alloc),
                met: Vec::new(alloc),
                way: Vec::new(alloc),
            },
        }
    }
}

/// Whether no cell leads back to itself, where none did at a moment since which cells were rewritten and none was
/// added. Cells before `settled` named none behind it then: unless one of them was rewritten, no way from a later cell
/// into them comes back, so the search doesn't go there. A link that was led to the end of its way is no new way down, so
/// the search doesn't begin there: with short ways to long terms it costs what is new, not what it leads to.
///
/// It meets each cell once, links as well, depth first (Tarjan 1972), with a list in place of recursion.
pub fn is_finite(
    heap: &Heap,
    search: &mut Search,
    since: HeapMark,
    settled: usize,
) -> Result<bool, AllocError>
    requires heap { IsHeap heap.now }
    requires since { IsMoment since heap.now }
    requires none_added { since.cells ≡ length heap.now.cells }
    requires before { AllFinite (reverted since heap.now).cells }
    requires settled { IsClosed settled (reverted since heap.now).cells }
    requires ends { KeepsEnds (reverted since heap.now).cells heap.now.cells }
    ensures finite { result ≡ Ok true → AllFinite heap.now.cells }
    ensures cycle { result ≡ Ok false → HasNoReading heap.now.cells }
{
    let found = rewritten_end(heap, &mut search.work, since, settled);
    clear(&mut search.work);
    found
}

// Searches from the rewritten cells where no link stood: first from those that are settled, to wherever they lead; then
// from all, and what is settled is done.
fn rewritten_end(
    heap: &Heap,
    work: &mut Work,
    since: HeapMark,
    settled: usize,
) -> Result<bool, AllocError>
    requires heap { IsHeap heap.now }
    requires since { IsMoment since heap.now }
    requires none_added { since.cells ≡ length heap.now.cells }
    requires before { AllFinite (reverted since heap.now).cells }
    requires settled { IsClosed settled (reverted since heap.now).cells }
    requires ends { KeepsEnds (reverted since heap.now).cells heap.now.cells }
    requires new { AreNew work.old.marks.items }
    requires empty { (work.old.met.items ≡ []) × (work.old.way.items ≡ []) }
    ensures finite { result ≡ Ok true → AllFinite heap.now.cells }
    ensures cycle { result ≡ Ok false → HasNoReading heap.now.cells }
    ensures noted { IsNoted work.new.marks.items work.new.met.items }
{
    let count = heap.len();
    extend(work, count)?;
    if !roots_end(heap, 0, work, since, settled)? {
        return Ok(false);
    }
    roots_end(heap, settled, work, since, count)
}

// Adds new marks, until there is one for each of so many cells.
fn extend(work: &mut Work, count: usize) -> Result<(), AllocError>
    requires new { AreNew work.old.marks.items }
    ensures number { OnOk result (count ≤ length work.new.marks.items) }
    ensures new { AreNew work.new.marks.items }
    ensures met { work.new.met.items ≡ work.old.met.items }
    ensures way { work.new.way.items ≡ work.old.way.items }
{
    'marks: while work.marks.len() < count {
        work.marks.push(Mark::New)?;
    }
    Ok(())
}

// Forgets what was met.
fn clear(work: &mut Work)
    requires noted { IsNoted work.old.marks.items work.old.met.items }
    ensures new { AreNew work.new.marks.items }
    ensures met { work.new.met.items ≡ [] }
    ensures way { work.new.way.items ≡ [] }
{
    'met: while let Some(at) = work.met.pop() {
        work.marks[at] = Mark::New;
    }
    work.way.clear();
}

// Whether every way down ends from the cells that have numbers below `below` and were rewritten since the moment, where
// no link stood until then; those below the floor are done.
fn roots_end(
    heap: &Heap,
    floor: usize,
    work: &mut Work,
    since: HeapMark,
    below: usize,
) -> Result<bool, AllocError>
    requires heap { IsHeap heap.now }
    requires since { IsMoment since heap.now }
    requires idle { IsIdle heap.now.cells floor work.old }
    ensures ends { result ≡ Ok true → RootsEnd heap.now since below }
    ensures cycle { result ≡ Ok false → HasNoReading heap.now.cells }
    ensures noted { IsNoted work.new.marks.items work.new.met.items }
    ensures idle { result ≡ Ok true → IsIdle heap.now.cells floor work.new }
{
    for k in 0..heap.count_bound(since) {
        if !root_ends(heap, floor, work, new_link(heap, since, k), below)? {
            return Ok(false);
        }
    }
    Ok(true)
}

// The k-th of the cells that were rewritten since the moment, if no link stood there until then.
fn new_link(heap: &Heap, since: HeapMark, k: u64) -> Option<Ref>
    requires heap { IsHeap heap.now }
    requires since { IsMoment since heap.now }
    ensures there { (r : Ref) → result ≡ Some r → r.0 < length heap.now.cells }
    ensures new { (c : Change) → slice_get (changes_since since heap.now) k ≡ Some c → link_of c.old ≡ None → result ≡ Some (record { 0 = c.cell }) }
{
    match heap.change(since, k) {
        Some(change) => {
            match change.old {
                Stored::Bound(_) => None,
                Stored::Same(_) => None,
                _ => Some(Ref(change.cell)),
            }
        }
        None => None,
    }
}

// Whether every way down from the cell ends, if there is one and its number is below `below`.
fn root_ends(
    heap: &Heap,
    floor: usize,
    work: &mut Work,
    root: Option<Ref>,
    below: usize,
) -> Result<bool, AllocError>
    requires heap { IsHeap heap.now }
    requires there { (r : Ref) → root ≡ Some r → r.0 < length heap.now.cells }
    requires idle { IsIdle heap.now.cells floor work.old }
    ensures ends { result ≡ Ok true → (r : Ref) → root ≡ Some r → r.0 < below → IsFinite heap.now.cells r.0 }
    ensures cycle { result ≡ Ok false → HasNoReading heap.now.cells }
    ensures noted { IsNoted work.new.marks.items work.new.met.items }
    ensures idle { result ≡ Ok true → IsIdle heap.now.cells floor work.new }
{
    match root {
        Some(r) => {
            if r.0 < below {
                from_root(heap, floor, work, r)
            } else {
                Ok(true)
            }
        }
        None => Ok(true),
    }
}

// Goes down from a cell, where that wasn't done yet; then the links from it are done as well.
fn from_root(heap: &Heap, floor: usize, work: &mut Work, root: Ref) -> Result<bool, AllocError>
    requires heap { IsHeap heap.now }
    requires root { root.0 < length heap.now.cells }
    requires idle { IsIdle heap.now.cells floor work.old }
    ensures finite { result ≡ Ok true → IsFinite heap.now.cells root.0 }
    ensures cycle { result ≡ Ok false → HasNoReading heap.now.cells }
    ensures noted { IsNoted work.new.marks.items work.new.met.items }
    ensures idle { result ≡ Ok true → IsIdle heap.now.cells floor work.new }
{
    let end = follow(heap, floor, &work.marks, root.0);
    if !end_ends(heap, floor, work, end)? {
        return Ok(false);
    }
    mark_links(heap, floor, work, root.0)?;
    Ok(true)
}

// Goes down from a cell where no link stands, unless it is done.
fn end_ends(heap: &Heap, floor: usize, work: &mut Work, end: usize) -> Result<bool, AllocError>
    requires heap { IsHeap heap.now }
    requires end { IsDoneOrEnd heap.now.cells work.old.marks.items floor end }
    requires idle { IsIdle heap.now.cells floor work.old }
    ensures finite { result ≡ Ok true → IsFinite heap.now.cells end }
    ensures cycle { result ≡ Ok false → HasNoReading heap.now.cells }
    ensures noted { IsNoted work.new.marks.items work.new.met.items }
    ensures idle { result ≡ Ok true → IsIdle heap.now.cells floor work.new }
{
    let _count = heap.len();
    match mark_of(&work.marks, floor, end) {
        Mark::New => {
            work.met.push(end)?;
            work.marks[end] = Mark::Open;
            work.way.push(Frame { cell: end, next: 0 })?;
            descend(heap, floor, work)
        }
        _ => Ok(true),
    }
}

// The cell past the links from a cell, or the first on the way there that is done.
fn follow(heap: &Heap, floor: usize, marks: &[Mark], from: usize) -> usize
    requires heap { IsHeap heap.now }
    requires from { from < length heap.now.cells }
    requires number { length heap.now.cells ≤ length marks.now }
    ensures leads { LeadsTo heap.now.cells from result }
    ensures stops { IsDoneOrEnd heap.now.cells marks.now floor result }
{
    let mut at = from;
    'links: while let Some(to) = open_link(heap, floor, marks, at) {
        at = to.0;
    }
    at
}

// Marks the links from a cell as done, up to the first that is; every way down from the cell ends.
fn mark_links(heap: &Heap, floor: usize, work: &mut Work, from: usize) -> Result<(), AllocError>
    requires heap { IsHeap heap.now }
    requires from { from < length heap.now.cells }
    requires finite { IsFinite heap.now.cells from }
    requires number { length heap.now.cells ≤ length work.old.marks.items }
    requires noted { IsNoted work.old.marks.items work.old.met.items }
    ensures done { OnOk result (MoreDone heap.now.cells work.old.marks.items work.new.marks.items) }
    ensures number { length work.new.marks.items ≡ length work.old.marks.items }
    ensures noted { IsNoted work.new.marks.items work.new.met.items }
    ensures way { work.new.way.items ≡ work.old.way.items }
{
    let mut at = from;
    'links: while let Some(to) = open_link(heap, floor, &work.marks, at) {
        work.met.push(at)?;
        work.marks[at] = Mark::Done;
        at = to.0;
    }
    Ok(())
}

// Where a cell leads, if it is a link that isn't done.
fn open_link(heap: &Heap, floor: usize, marks: &[Mark], at: usize) -> Option<Ref>
    requires there { at < length heap.now.cells }
    requires number { length heap.now.cells ≤ length marks.now }
    ensures link { (to : Ref) → result ≡ Some to → IsLinkTo heap.now.cells at to }
    ensures stops { result ≡ None → IsDoneOrEnd heap.now.cells marks.now floor at }
{
    match mark_of(marks, floor, at) {
        Mark::Done => None,
        _ => heap.link(Ref(at)),
    }
}

// Goes down until all is done, or until a cell leads back to itself.
fn descend(heap: &Heap, floor: usize, work: &mut Work) -> Result<bool, AllocError>
    requires heap { IsHeap heap.now }
    requires search { IsSearch heap.now.cells floor work.old work.old.way.items }
    ensures stays { result ≡ Ok true → StaysMet work.old.marks.items work.new.marks.items }
    ensures cycle { result ≡ Ok false → HasNoReading heap.now.cells }
    ensures noted { IsNoted work.new.marks.items work.new.met.items }
    ensures idle { result ≡ Ok true → IsIdle heap.now.cells floor work.new }
{
    let _count = heap.len();
    'way: while let Some(frame) = work.way.pop() {
        if !go_on(heap, floor, work, frame)? {
            return Ok(false);
        }
    }
    Ok(true)
}

// One step from the last cell on the way, which was taken off: it is done, or the next cell that it names is; or that
// one is met for the first time, or leads back.
fn go_on(heap: &Heap, floor: usize, work: &mut Work, frame: Frame) -> Result<bool, AllocError>
    requires heap { IsHeap heap.now }
    requires search { IsSearch heap.now.cells floor work.old (work.old.way.items ++ frame ∷ []) }
    requires there { frame.cell < length heap.now.cells }
    requires next { frame.next < 2 ^ 63 }
    ensures goes { result ≡ Ok true → Steps heap.now.cells work.old frame work.new }
    ensures cycle { result ≡ Ok false → HasNoReading heap.now.cells }
    ensures number { length work.new.marks.items ≡ length work.old.marks.items }
    ensures noted { IsNoted work.new.marks.items work.new.met.items }
{
    let _count = heap.len();
    let at = frame.cell;
    let Some(to) = child(heap.stored(Ref(at)), at, frame.next) else {
        work.marks[at] = Mark::Done;
        return Ok(true);
    };
    let end = follow(heap, floor, &work.marks, to);
    match mark_of(&work.marks, floor, end) {
        Mark::Done => {
            mark_links(heap, floor, work, to)?;
            work.way.push(Frame {
                cell: at,
                next: frame.next + 1,
            })?;
        }
        Mark::Open => return Ok(false),
        Mark::New => {
            work.met.push(end)?;
            work.marks[end] = Mark::Open;
            work.way.push(frame)?;
            work.way.push(Frame { cell: end, next: 0 })?;
        }
    }
    Ok(true)
}

// The mark of a cell; those below the floor are done.
fn mark_of(marks: &[Mark], floor: usize, at: usize) -> Mark
    requires there { at < length marks.now }
    ensures done { result ≡ mark.Done → IsDone marks.now floor at }
    ensures low { at < floor → result ≡ mark.Done }
    ensures other { (result ≡ mark.Done → ⊥) → slice_get marks.now at ≡ Some result }
{
    if at < floor { Mark::Done } else { marks[at] }
}

// The k-th cell that a cell names, from 0, where no link stands there.
fn child(cell: Stored, at: usize, k: usize) -> Option<usize>
    requires { at + k + 1 < 2 ^ 64 }
    ensures { result ≡ child_of at cell k }
{
    match cell {
        Stored::BusCons(head, tail) => {
            if k == 0 {
                Some(head.0)
            } else if k == 1 {
                Some(tail.0)
            } else {
                None
            }
        }
        Stored::Node(_, count) => { if k < count { Some(at + 1 + k) } else { None } }
        _ => None,
    }
}
