//! Elimination of one level.

ghost use Rattle.std.specs.Prelude.{IfOk};
ghost use Rattle.cb_dd.specs.Diagram.{IsNode};

use cb_dd::{Node, Stop};
use cb_ops::Ops;
use cb_solution::solution;
use cb_trial::checked::end;
use std::alloc::Global;

// The equation `x * a = a` leaves x, at level 1, free where a is 0, and has 1 for it where a is 1.
fn is_solved(alloc: Global, ops: &mut Ops, a: Node, x: Node) -> Result<bool, Stop>
    requires a { IsNode ops.old.triples a.0 }
    requires x { IsNode ops.old.triples x.0 }
{
    let other = ops.not(x)?;
    let equation = ops.and(a, other)?;
    let found = solution(alloc, ops, equation, &[1])?;
    let Some(images) = found else {
        return Ok(false);
    };
    if images.len() != 1 {
        return Ok(false);
    }
    let (level, image) = images[0];
    let _count = ops.count();
    Ok(level == 1 && image.0 < ops.count() + 2 && ops.parts(image) == Some((0, x, Node::ONE)))
}

// The equation `x * a = 1` has no solution where a is 0.
fn is_unsolvable(alloc: Global, ops: &mut Ops, a: Node, x: Node) -> Result<bool, Stop>
    requires a { IsNode ops.old.triples a.0 }
    requires x { IsNode ops.old.triples x.0 }
{
    let both = ops.and(a, x)?;
    let equation = ops.not(both)?;
    let found = solution(alloc, ops, equation, &[1])?;
    Ok(found.is_none())
}

// What is tried.
#[derive(Clone, Copy)]
enum Try {
    IsSolved,
    IsUnsolvable,
}

// Tries it with the bits at levels 0 and 1.
fn try_in(alloc: Global, ops: &mut Ops, what: Try) -> Result<bool, Stop> {
    let a = ops.node(0, Node::ZERO, Node::ONE)?;
    let x = ops.node(1, Node::ZERO, Node::ONE)?;
    match what {
        Try::IsSolved => is_solved(alloc, ops, a, x),
        Try::IsUnsolvable => is_unsolvable(alloc, ops, a, x),
    }
}

// Tries it in a store of its own.
fn holds(alloc: Global, what: Try) -> Result<bool, Stop> {
    let Ok(mut ops) = Ops::new(alloc, 100) else {
        return Err(Stop::Memory);
    };
    let answer = try_in(alloc, &mut ops, what);
    end(ops);
    answer
}

/// Tries one thing in a store of its own.
pub(crate) fn tried(alloc: Global, what: &str) -> Result<bool, Stop> {
    match what {
        "solved" => holds(alloc, Try::IsSolved),
        _ => holds(alloc, Try::IsUnsolvable),
    }
}
