//! Elimination of levels on decision diagrams, and the solution of an equation for them (Boole 1854).
#![tactic(auto)]

ghost use Rattle.std.specs.Prelude.{◌≡◌, ◌*◌, ◌<◌, [], ◌∷◌, length, map, None, Ok, Err, IfOk, IfSome, IfNone};
ghost use Rattle.std.specs.List.Sorted.{IsStrictlyIncreasing};
ghost use Rattle.cb_dd.specs.Diagram.{IsNode, function_of, fulls_after};
ghost use Rattle.cb_ops.specs.Ops.{Grows, StandsFor, Room};
ghost use Rattle.cb_ops.specs.Substitute.{AreNodes, image_of};
ghost use Rattle.cb_ops.specs.Composed.{AreLower};
ghost use Rattle.cb_boole.specs.Elimination.{Function, both};
ghost use Rattle.cb_solution.specs.Solution.{AreRests, IsFalling, IsImage, IsSolution, HasRest, ImageRoom, RestsRoom, SolutionRoom, has_refused};
ghost use Rattle.cb_solution.specs.Parts.{AreParts, AreStages, Solves, StagesRoom};

mod parts;

use cb_dd::{Node, Stop};
use cb_ops::Ops;
pub use parts::solution_of_parts;
use std::alloc::Global;

/// The node that is 1 where the node is with both bits at the level.
pub fn both_sides(ops: &mut Ops, f: Node, level: u32) -> Result<Node, Stop>
    requires { IsNode ops.old.triples f.0 }
    ensures is_node { IfOk result (λ n. IsNode ops.new.triples n.0) }
    ensures function { IfOk result (λ n. StandsFor ops.new.triples n.0 (both level (function_of ops.old.triples f.0))) }
    ensures grows { Grows ops.old ops.new }
    ensures room { Room (f.0 ∷ []) 3 ops.old ops.new }
    ensures full { result ≡ Err Stop.Nodes → length ops.new.triples ≡ ops.new.budget }
    ensures fulls { ops.new.fulls ≡ fulls_after ops.old.fulls result }
{
    let low = ops.restrict(f, level, false)?;
    let high = ops.restrict(f, level, true)?;
    let n = ops.and(low, high)?;
    Ok(n)
}

// What the solution puts at a level: its own bit, turned where f is 1, with the images of the lower levels put in.
fn image(ops: &mut Ops, f: Node, level: u32, images: &[(u32, Node)]) -> Result<Node, Stop>
    requires f { IsNode ops.old.triples f.0 }
    requires images { AreNodes ops.old.triples images.now }
    requires rise { IsStrictlyIncreasing (map (λ p. p.0) images.now) }
    requires lower { AreLower ops.old.triples images.now }
    requires fresh { image_of images.now level ≡ None }
    ensures is_node { IfOk result (λ n. IsNode ops.new.triples n.0) }
    ensures function { IfOk result (λ n. IsImage ops.old.triples ops.new.triples f.0 level images.now n.0) }
    ensures grows { Grows ops.old ops.new }
    ensures room { ImageRoom f.0 level images.now ops.old ops.new }
    ensures full { result ≡ Err Stop.Nodes → length ops.new.triples ≡ ops.new.budget }
    ensures fulls { ops.new.fulls ≡ fulls_after ops.old.fulls result }
{
    let own = ops.node(level, Node::ZERO, Node::ONE)?;
    let turned = ops.xor(f, own)?;
    let n = ops.compose_all(turned, images)?;
    Ok(n)
}

// What is left of f as the levels are eliminated one after another, until nothing is or no level follows: node k before
// level k is eliminated, and what is left in the end.
fn rests(alloc: Global, ops: &mut Ops, f: Node, levels: &[u32]) -> Result<(Vec<Node>, Node), Stop>
    requires f { IsNode ops.old.triples f.0 }
    ensures rests { IfOk result (λ r. AreRests ops.new.triples f.0 levels.now r.0.items r.1.0) }
    ensures grows { Grows ops.old ops.new }
    ensures room { RestsRoom f.0 levels.now ops.old ops.new }
    ensures full { result ≡ Err Stop.Nodes → length ops.new.triples ≡ ops.new.budget }
    ensures fulls { ops.new.fulls ≡ has_refused ops.old.fulls result }
{
    let mut nodes = Vec::new(alloc);
    let mut left = f;
    for level in levels {
        if left.0 == 0 {
            return Ok((nodes, left));
        }
        nodes.push(left).map_err(|_| Stop::Memory)?;
        left = both_sides(ops, left, *level)?;
    }
    Ok((nodes, left))
}

// The images of the levels that were eliminated, the least level first, where nothing is left in the end.
pub(crate) fn images(
    alloc: Global,
    ops: &mut Ops,
    levels: &[u32],
    nodes: &[Node],
) -> Result<Vec<(u32, Node)>, Stop>
    requires nodes { AreParts ops.old.triples nodes.now }
    requires stages { (f : Function) × AreStages ops.old.triples f levels.now nodes.now }
    requires fall { IsFalling levels.now }
    ensures solved { IfOk result (λ images. (f : Function) → AreStages ops.old.triples f levels.now nodes.now → Solves ops.new.triples f levels.now images.items) }
    ensures grows { Grows ops.old ops.new }
    ensures room { StagesRoom nodes.now levels.now ops.old ops.new }
    ensures full { result ≡ Err Stop.Nodes → length ops.new.triples ≡ ops.new.budget }
    ensures fulls { ops.new.fulls ≡ has_refused ops.old.fulls result }
{
    let mut images = Vec::new(alloc);
    for k in (0..nodes.len()).rev() {
        if nodes[k].0 != 0 {
            let level = levels[k];
            let node = image(ops, nodes[k], level, &images)?;
            images.push((level, node)).map_err(|_| Stop::Memory)?;
        }
    }
    Ok(images)
}

/// The solution of f = 0 for these levels, which fall: for each its image, a node over the other levels of f and the
/// levels' own bits as parameters, the least level first; to be put in all at once. A level that keeps its own bit may
/// have none. `None` where elimination of the levels leaves something.
pub fn solution(
    alloc: Global,
    ops: &mut Ops,
    f: Node,
    levels: &[u32],
) -> Result<Option<Vec<(u32, Node)>>, Stop>
    requires f { IsNode ops.old.triples f.0 }
    requires fall { IsFalling levels.now }
    ensures solved { IfOk result (λ r. IfSome r (λ images. IsSolution ops.old.triples ops.new.triples f.0 levels.now images.items)) }
    ensures none { IfOk result (λ r. IfNone r (HasRest ops.old.triples f.0 levels.now)) }
    ensures grows { Grows ops.old ops.new }
    ensures room { SolutionRoom f.0 levels.now ops.old ops.new }
    ensures full { result ≡ Err Stop.Nodes → length ops.new.triples ≡ ops.new.budget }
    ensures fulls { ops.new.fulls ≡ has_refused ops.old.fulls result }
{
    let (nodes, left) = rests(alloc, ops, f, levels)?;
    if left.0 != 0 {
        let _count = ops.count();
        return Ok(None);
    }
    let images = images(alloc, ops, levels, &nodes)?;
    Ok(Some(images))
}
