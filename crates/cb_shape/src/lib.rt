//! What an answer shows of run-time terms: the pieces of their text in order of print, with the leaves and the open places
//! numbered.
#![tactic(auto)]

ghost use Rattle.std.specs.Prelude.{IfOk};
ghost use Rattle.cb_laws.proofs.OpenTrees.{Plains};
ghost use Rattle.cb_heap.specs.Heap.{IsHeap};
ghost use Rattle.cb_shape.specs.Laws.{CellsAreTerms, TermsHaveValues};
ghost use Rattle.cb_shape.specs.Shapes.{ShapeFromPoints};
ghost use Rattle.cb_shape.specs.Terms.{AreRoots};
ghost use Rattle.cb_shape.specs.Text.{PiecesAreTheLine};
ghost use Rattle.cb_shape.specs.Tokens.{Shows};

mod walk;

use cb_heap::{Heap, Ref};
use std::alloc::{AllocError, Global};
use walk::{Pending, Walk, step};

/// The most places of an answer that is printed; one of more is `(wide)`.
pub const MOST_PLACES: usize = 65_536;

/// The most leaves of an answer that is printed; one of more is `(wide)`.
pub const MOST_LEAVES: usize = 4096;

/// What an answer shows: a term, or a goal.
#[derive(Clone, Copy, Drop)]
pub enum Root<'a> {
    /// The term of a cell.
    Term(Ref),
    /// A goal, by the cells of its arguments. Its name is left to the caller, and counts as a place.
    Goal(&'a [Ref]),
}

/// A piece of the text of an answer's terms.
#[derive(Clone, Copy, PartialEq, Eq, Debug)]
pub enum Token {
    /// Here the root of this number begins, counted from 0: its term, or the name of its goal.
    Term(usize),
    /// A truth value: the leaf of this number, counted from 0 in order of print.
    Leaf(usize),
    /// An unbound variable by its number, counted from 0 in order of first appearance.
    Open(usize),
    Int(i64),
    /// A name within a term, by its number.
    Name(u32),
    LeftParen,
    RightParen,
    LeftBracket,
    RightBracket,
    Bar,
    Comma,
}

/// What an answer shows of its roots: the pieces of their text, and the slots of the leaves in order of print.
#[derive(Drop)]
pub struct Printed {
    pub tokens: Vec<Token>,
    pub slots: Vec<usize>,
}

/// The shape of these terms and goals, with leaves and open places numbered through all of them. `None` where they have more
/// than 65,536 places or more than 4,096 leaves; then the walk ended at the first place too many, however large they are.
pub fn shape(alloc: Global, heap: &Heap, roots: &[Root<'_>]) -> Result<Option<Printed>, AllocError>
    requires heap { IsHeap heap.now }
    requires terms { (ps : Plains) × AreRoots heap.now.cells roots.now ps }
    ensures { IfOk result (λ x. (ps : Plains) → AreRoots heap.now.cells roots.now ps → Shows roots.now ps x) }
{
    let mut walk = Walk::new(alloc);
    let mut pending = Vec::new(alloc);
    pending.push(Pending::Roots(0))?;
    'steps: while let Some(next) = pending.pop() {
        step(heap, roots, next, &mut walk, &mut pending)?;
        if walk.is_wide() {
            return Ok(None);
        }
    }
    Ok(Some(Printed {
        tokens: walk.tokens,
        slots: walk.slots,
    }))
}

/// The terms that a state has for what an answer prints, renumbered, are the answer's shape.
pub fn shape_from_points()
    ensures { ShapeFromPoints }
{}

/// In a heap without cycles, whose cells fit a table of sorts, all cells are terms.
pub fn cells_are_terms()
    ensures { CellsAreTerms }
{}

/// At values that the cells can have together, each cell has the value of its term.
pub fn terms_have_values()
    ensures { TermsHaveValues }
{}

/// The pieces of an answer, one after another, are the line of its shape.
pub fn pieces_are_the_line()
    ensures { PiecesAreTheLine }
{}
