//! The most general solution of an equation, by images of levels.

ghost use Rattle.std.specs.Prelude.{◌≡◌, length, Err, IfOk, IfSome, IfNone};
ghost use Rattle.cb_dd.specs.Diagram.{IsNode, function_of};
ghost use Rattle.cb_ops.specs.Ops.{Grows};
ghost use Rattle.cb_solution.specs.Solution.{has_refused};
ghost use Rattle.cb_elim.specs.Equation.{AreGeneral, HasNoSolution, IsElimination, SidesRoom};

use cb_dd::{Node, Stop};
use cb_ops::Ops;
use cb_solution::solution;
use std::alloc::{AllocError, Global};

/// The levels on which the node depends, but for the constants, the greatest first.
fn free_levels(alloc: Global, ops: &Ops, f: Node, constants: u32) -> Result<Vec<u32>, AllocError>
    requires { IsNode ops.now.triples f.0 }
    ensures { IfOk result (λ levels. IsElimination constants (function_of ops.now.triples f.0) levels.items) }
{
    let support = ops.support(f)?;
    let levels = support
        .iter()
        .rev()
        .copied()
        .filter(|level| constants <= *level)
        .collect(alloc)?;
    Ok(levels)
}

/// The most general solution of f = g for the levels that are no constants, as images of levels; `None` where it has no
/// solution.
pub(crate) fn most_general(
    alloc: Global,
    ops: &mut Ops,
    constants: u32,
    f: Node,
    g: Node,
) -> Result<Option<Vec<(u32, Node)>>, Stop>
    requires f { IsNode ops.old.triples f.0 }
    requires g { IsNode ops.old.triples g.0 }
    ensures found { IfOk result (λ r. IfSome r (λ images. AreGeneral ops.old.triples ops.new.triples constants f.0 g.0 images.items)) }
    ensures none { IfOk result (λ r. IfNone r (HasNoSolution ops.old.triples constants f.0 g.0)) }
    ensures grows { Grows ops.old ops.new }
    ensures room { SidesRoom f.0 g.0 ops.old ops.new }
    ensures full { result ≡ Err Stop.Nodes → length ops.new.triples ≡ ops.new.budget }
    ensures fulls { ops.new.fulls ≡ has_refused ops.old.fulls result }
{
    let equation = ops.xor(f, g)?;
    let Ok(levels) = free_levels(alloc, ops, equation, constants) else {
        return Err(Stop::Memory);
    };
    let found = solution(alloc, ops, equation, &levels)?;
    Ok(found)
}
