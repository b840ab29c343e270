//! The walk over terms in cells, with a list of what is pending in place of a recursion over their depth.

ghost use Rattle.std.specs.Prelude.{◌≡◌, ℕ, ◌+◌, ◌<◌, ◌≤◌, ◌||◌, nat_eq, nat_lt, List, [], ◌∷◌, length, drop, Option, OnOk};
ghost use Rattle.std.specs.List.{position_or_len};
ghost use Rattle.indexmap.specs.IndexSet.{insert_key};
ghost use Rattle.cb_laws.proofs.OpenTrees.{Plain, Plains};
ghost use Rattle.cb_heap.specs.Heap.{IsHeap};
ghost use Rattle.cb_shape.specs.declared.Root.{Root};
ghost use Rattle.cb_shape.specs.declared.Token.TheVariants as token;
ghost use Rattle.cb_shape.specs.Terms.{AreCells, AreRoots, AreTerms, IsBus, IsLeaf, IsTerm, how_many};
ghost use Rattle.cb_shape.specs.Walk.{Adds, Begins, IsWork, Tail, Rest, Roots, Steps, TellsGoal, TellsName, Work};

use crate::{MOST_LEAVES, MOST_PLACES, Root, Token};
use cb_heap::{Heap, Ref, Stored};
use indexmap::IndexSet;
use std::alloc::{AllocError, Global};

/// What is still to be told.
#[derive(Clone, Copy, Drop)]
pub(crate) enum Pending<'a> {
    /// The term of a cell.
    Cell(Ref),
    /// The arguments that stand from this cell on, so many, behind the first.
    Rest(usize, usize),
    /// The arguments of a goal in these cells, behind the first.
    Arguments(&'a [Ref]),
    /// What stands behind the first element of a bus: the bus of this cell.
    Tail(Ref),
    /// The roots from this place on.
    Roots(usize),
}

/// What was told so far: the tokens, the slots of the leaves, the cells of the open places, and how many places.
#[derive(Drop)]
pub(crate) struct Walk {
    pub(crate) tokens: Vec<Token>,
    pub(crate) slots: Vec<usize>,
    opens: IndexSet<usize>,
    pub(crate) places: usize,
}

impl Walk {
    /// Nothing was told yet. It takes no memory.
    pub(crate) fn new(alloc: Global) -> Walk
        ensures tokens { result.tokens.items ≡ [] }
        ensures slots { result.slots.items ≡ [] }
        ensures opens { result.opens.keys ≡ [] }
        ensures places { result.places ≡ 0 }
    {
        Walk {
            tokens: Vec::new(alloc),
            slots: Vec::new(alloc),
            opens: IndexSet::new(alloc),
            places: 0,
        }
    }

    /// Whether what was told is past the limits of an answer.
    pub(crate) fn is_wide(&self) -> bool
        ensures { result ≡ (nat_lt 65536 self.now.places || nat_lt 4096 (length self.now.slots.items)) }
    {
        self.places > MOST_PLACES || self.slots.len() > MOST_LEAVES
    }
}

// A place that is told by one token, which has no number.
fn put_place(walk: &mut Walk, token: Token) -> Result<(), AllocError>
    requires few { walk.old.places ≤ 65536 }
    ensures { OnOk result (Adds walk.old walk.new (token ∷ []) [] walk.old.opens.keys 1) }
{
    walk.tokens.push(token)?;
    walk.places += 1;
    Ok(())
}

// A leaf, which has the next number.
fn put_leaf(walk: &mut Walk, slot: usize) -> Result<(), AllocError>
    requires few { walk.old.places ≤ 65536 }
    ensures { OnOk result (Adds walk.old walk.new (token.Leaf (length walk.old.slots.items) ∷ []) (slot ∷ []) walk.old.opens.keys 1) }
{
    walk.tokens.push(Token::Leaf(walk.slots.len()))?;
    walk.slots.push(slot)?;
    walk.places += 1;
    Ok(())
}

// An open place: by its number where it was met before, else by the next one.
fn put_open(walk: &mut Walk, cell: Ref) -> Result<(), AllocError>
    requires few { walk.old.places ≤ 65536 }
    ensures { OnOk result (Adds walk.old walk.new (token.Open (position_or_len (nat_eq cell.0) walk.old.opens.keys) ∷ []) [] (insert_key nat_eq walk.old.opens.keys cell.0) 1) }
{
    let (number, _) = walk.opens.insert_full(cell.0)?;
    walk.tokens.push(Token::Open(number))?;
    walk.places += 1;
    Ok(())
}

// The slot of a leaf.
fn slot_of(heap: &Heap, r: Ref) -> usize
    requires heap { IsHeap heap.now }
    requires leaf { (s : ℕ) × IsLeaf heap.now.cells r.0 s }
    ensures { (s : ℕ) → IsLeaf heap.now.cells r.0 s → result ≡ s }
{
    let Stored::Leaf(slot) = heap.stored(heap.last(r)) else {
        unreachable!()
    };
    slot
}

// Tells a name; its arguments are pending, and what stands behind it.
fn tell_name(
    heap: &Heap,
    at: Ref,
    name: u32,
    count: usize,
    walk: &mut Walk,
    pending: &mut Vec<Pending<'_>>,
) -> Result<(), AllocError>
    requires few { walk.old.places ≤ 65536 }
    requires there { at.0 + count < length heap.now.cells }
    ensures { OnOk result (TellsName at.0 name count walk.old walk.new pending.old.items pending.new.items) }
{
    let _cells = heap.len();
    put_place(walk, Token::Name(name))?;
    if count > 0 {
        let first = heap.arg(at, 0);
        walk.tokens.push(Token::LeftParen)?;
        pending.push(Pending::Rest(first.0 + 1, count - 1))?;
        pending.push(Pending::Cell(first))?;
    }
    Ok(())
}

// Tells the front of a cell's term.
fn tell_cell(
    heap: &Heap,
    r: Ref,
    walk: &mut Walk,
    pending: &mut Vec<Pending<'_>>,
) -> Result<(), AllocError>
    requires heap { IsHeap heap.now }
    requires term { (p : Plain) × IsTerm heap.now.cells r.0 p }
    requires few { walk.old.places ≤ 65536 }
    ensures { OnOk result ((roots : List Root) (p : Plain) → IsTerm heap.now.cells r.0 p → Begins heap.now.cells roots p walk.old walk.new pending.old.items pending.new.items) }
{
    let end = heap.last(r);
    match heap.stored(end) {
        Stored::Leaf(slot) => put_leaf(walk, slot),
        Stored::BusVar => put_open(walk, end),
        Stored::BusNil => {
            walk.tokens.push(Token::LeftBracket)?;
            put_place(walk, Token::RightBracket)
        }
        Stored::BusCons(head, tail) => {
            walk.tokens.push(Token::LeftBracket)?;
            put_leaf(walk, slot_of(heap, head))?;
            pending.push(Pending::Tail(tail))?;
            Ok(())
        }
        Stored::TermVar => put_open(walk, end),
        Stored::Int(value) => put_place(walk, Token::Int(value)),
        Stored::Node(name, count) => tell_name(heap, end, name, count, walk, pending),
        Stored::Bound(_) | Stored::Same(_) => unreachable!(),
    }
}

// Tells the next element of a bus, or its end.
fn tell_tail(
    heap: &Heap,
    r: Ref,
    walk: &mut Walk,
    pending: &mut Vec<Pending<'_>>,
) -> Result<(), AllocError>
    requires heap { IsHeap heap.now }
    requires bus { (ss : List ℕ) × (t : Option ℕ) × IsBus heap.now.cells r.0 ss t }
    requires few { walk.old.places ≤ 65536 }
    ensures { OnOk result ((roots : List Root) (ss : List ℕ) (t : Option ℕ) → IsBus heap.now.cells r.0 ss t → Steps heap.now.cells roots (Tail ss t) walk.old walk.new pending.old.items pending.new.items) }
{
    let end = heap.last(r);
    match heap.stored(end) {
        Stored::BusNil => put_place(walk, Token::RightBracket),
        Stored::BusVar => {
            walk.tokens.push(Token::Bar)?;
            put_open(walk, end)?;
            walk.tokens.push(Token::RightBracket)?;
            Ok(())
        }
        Stored::BusCons(head, tail) => {
            walk.tokens.push(Token::Comma)?;
            put_leaf(walk, slot_of(heap, head))?;
            pending.push(Pending::Tail(tail))?;
            Ok(())
        }
        _ => unreachable!(),
    }
}

// Tells the front of the next argument, or the end of the arguments.
fn tell_rest(
    heap: &Heap,
    at: usize,
    count: usize,
    walk: &mut Walk,
    pending: &mut Vec<Pending<'_>>,
) -> Result<(), AllocError>
    requires heap { IsHeap heap.now }
    requires terms { (ps : Plains) × (count ≡ how_many ps) × AreTerms heap.now.cells at ps }
    requires few { walk.old.places ≤ 65536 }
    ensures { OnOk result ((roots : List Root) (ps : Plains) → count ≡ how_many ps → AreTerms heap.now.cells at ps → Steps heap.now.cells roots (Rest ps) walk.old walk.new pending.old.items pending.new.items) }
{
    if count == 0 {
        walk.tokens.push(Token::RightParen)?;
        return Ok(());
    }
    let _cells = heap.len();
    walk.tokens.push(Token::Comma)?;
    pending.push(Pending::Rest(at + 1, count - 1))?;
    tell_cell(heap, Ref(at), walk, pending)
}

// Tells the front of the next argument of a goal, or the end of its arguments.
fn tell_arguments<'a>(
    heap: &Heap,
    args: &'a [Ref],
    walk: &mut Walk,
    pending: &mut Vec<Pending<'a>>,
) -> Result<(), AllocError>
    requires heap { IsHeap heap.now }
    requires terms { (ps : Plains) × AreCells heap.now.cells args.now ps }
    requires few { walk.old.places ≤ 65536 }
    ensures { OnOk result ((roots : List Root) (ps : Plains) → AreCells heap.now.cells args.now ps → Steps heap.now.cells roots (Rest ps) walk.old walk.new pending.old.items pending.new.items) }
{
    let Some((first, rest)) = args.split_first() else {
        walk.tokens.push(Token::RightParen)?;
        return Ok(());
    };
    walk.tokens.push(Token::Comma)?;
    pending.push(Pending::Arguments(rest))?;
    tell_cell(heap, *first, walk, pending)
}

// Tells a goal without its name, which counts as a place; its arguments are pending, and what stands behind it.
fn tell_goal<'a>(
    args: &'a [Ref],
    walk: &mut Walk,
    pending: &mut Vec<Pending<'a>>,
) -> Result<(), AllocError>
    requires few { walk.old.places ≤ 65536 }
    ensures { OnOk result (TellsGoal args.now walk.old walk.new pending.old.items pending.new.items) }
{
    walk.places += 1;
    let Some((first, rest)) = args.split_first() else {
        return Ok(());
    };
    walk.tokens.push(Token::LeftParen)?;
    pending.push(Pending::Arguments(rest))?;
    pending.push(Pending::Cell(*first))?;
    Ok(())
}

// Tells the front of the next root, or nothing where there is none.
fn tell_root<'a>(
    heap: &Heap,
    roots: &[Root<'a>],
    at: usize,
    walk: &mut Walk,
    pending: &mut Vec<Pending<'a>>,
) -> Result<(), AllocError>
    requires heap { IsHeap heap.now }
    requires terms { (ps : Plains) × (at ≤ length roots.now) × AreRoots heap.now.cells (drop at roots.now) ps }
    requires few { walk.old.places ≤ 65536 }
    ensures { OnOk result ((ps : Plains) → at ≤ length roots.now → AreRoots heap.now.cells (drop at roots.now) ps → Steps heap.now.cells roots.now (Roots at (drop at roots.now) ps) walk.old walk.new pending.old.items pending.new.items) }
{
    if at == roots.len() {
        return Ok(());
    }
    walk.tokens.push(Token::Term(at))?;
    pending.push(Pending::Roots(at + 1))?;
    match roots[at] {
        Root::Term(r) => tell_cell(heap, r, walk, pending),
        Root::Goal(args) => tell_goal(args, walk, pending),
    }
}

/// Tells the front of what is pending; the rest of it goes behind what is pending.
pub(crate) fn step<'a>(
    heap: &Heap,
    roots: &[Root<'a>],
    next: Pending<'a>,
    walk: &mut Walk,
    pending: &mut Vec<Pending<'a>>,
) -> Result<(), AllocError>
    requires heap { IsHeap heap.now }
    requires work { (w : Work) × IsWork heap.now.cells roots.now next w }
    requires few { walk.old.places ≤ 65536 }
    ensures { OnOk result ((w : Work) → IsWork heap.now.cells roots.now next.entry w → Steps heap.now.cells roots.now w walk.old walk.new pending.old.items pending.new.items) }
{
    match next {
        Pending::Cell(r) => tell_cell(heap, r, walk, pending),
        Pending::Rest(at, count) => tell_rest(heap, at, count, walk, pending),
        Pending::Arguments(args) => tell_arguments(heap, args, walk, pending),
        Pending::Tail(r) => tell_tail(heap, r, walk, pending),
        Pending::Roots(at) => tell_root(heap, roots, at, walk, pending),
    }
}
