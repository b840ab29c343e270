//! Elimination over a list of parts, nodes that are all to be 0: each level is eliminated from those parts alone that depend
//! on it (bucket elimination, Dechter 1999).

ghost use Rattle.std.specs.Prelude.{◌≡◌, true, false, length, Err, IfOk, IfSome, IfNone};
ghost use Rattle.cb_dd.specs.Diagram.{IsNode};
ghost use Rattle.cb_ops.specs.Ops.{Grows};
ghost use Rattle.cb_solution.specs.Solution.{IsFalling, has_refused};
ghost use Rattle.cb_solution.specs.Parts.{AreAbsent, AreEliminated, AreParts, ArePlaces, AreSpread, HasLeft, IsFreeOf, IsLastOf, IsOut, IsPlace, IsPlaced, PartsRoom, PlacedRoom, Solves, StepsRoom, some_one};

use crate::{both_sides, images};
use cb_dd::{Node, Stop};
use cb_ops::Ops;
use indexmap::IndexSet;
use std::alloc::{AllocError, Global};

/// The solution of "each part is 0" for these levels, which fall: for each its image, as `solution` gives it. `None` where
/// elimination of the levels leaves something.
pub fn solution_of_parts(
    alloc: Global,
    ops: &mut Ops,
    parts: &[Node],
    levels: &IndexSet<u32>,
) -> Result<Option<Vec<(u32, Node)>>, Stop>
    requires parts { AreParts ops.old.triples parts.now }
    requires fall { IsFalling levels.now.keys }
    ensures solved { IfOk result (λ r. IfSome r (λ images. Solves ops.new.triples (some_one ops.old.triples parts.now) levels.now.keys images.items)) }
    ensures none { IfOk result (λ r. IfNone r (HasLeft (some_one ops.old.triples parts.now) levels.now.keys)) }
    ensures grows { Grows ops.old ops.new }
    ensures room { PartsRoom parts.now levels.now.keys ops.old ops.new }
    ensures full { result ≡ Err Stop.Nodes → length ops.new.triples ≡ ops.new.budget }
    ensures fulls { ops.new.fulls ≡ has_refused ops.old.fulls result }
{
    let Some(mut nodes) = spread(alloc, ops, levels, parts)? else {
        return Ok(None);
    };
    if !eliminate(ops, levels, &mut nodes)? {
        return Ok(None);
    }
    let images = images(alloc, ops, levels.as_slice(), &nodes)?;
    Ok(Some(images))
}

// For each level the node that is 1 where some part is of which it is the greatest level. `None` where some part, other than
// 0, has none of the levels.
fn spread(
    alloc: Global,
    ops: &mut Ops,
    levels: &IndexSet<u32>,
    parts: &[Node],
) -> Result<Option<Vec<Node>>, Stop>
    requires parts { AreParts ops.old.triples parts.now }
    requires fall { IsFalling levels.now.keys }
    ensures spread { IfOk result (λ r. IfSome r (λ nodes. AreSpread ops.old ops.new levels.now.keys parts.now nodes.items)) }
    ensures none { IfOk result (λ r. IfNone r (HasLeft (some_one ops.old.triples parts.now) levels.now.keys)) }
    ensures grows { Grows ops.old ops.new }
    ensures room { StepsRoom parts.now (length parts.now) 1 ops.old ops.new }
    ensures full { result ≡ Err Stop.Nodes → length ops.new.triples ≡ ops.new.budget }
    ensures fulls { ops.new.fulls ≡ has_refused ops.old.fulls result }
{
    let mut nodes = Vec::new(alloc);
    let Ok(()) = nodes.resize(levels.len(), Node::ZERO) else {
        return Err(Stop::Memory);
    };
    for part in parts {
        if !add(ops, levels, &mut nodes, *part)? {
            return Ok(None);
        }
    }
    Ok(Some(nodes))
}

// Eliminates the levels one after another, each from its own node, and adds what is left to the node of its greatest level:
// then each node is a stage. False where something is left that has none of the levels.
fn eliminate(ops: &mut Ops, levels: &IndexSet<u32>, nodes: &mut [Node]) -> Result<bool, Stop>
    requires places { ArePlaces ops.old.triples levels.now.keys nodes.old }
    requires fall { IsFalling levels.now.keys }
    ensures eliminated { result ≡ Ok true → AreEliminated ops.old ops.new levels.now.keys nodes.old nodes.new }
    ensures none { result ≡ Ok false → HasLeft (some_one ops.old.triples nodes.old) levels.now.keys }
    ensures grows { Grows ops.old ops.new }
    ensures room { StepsRoom nodes.old (length levels.now.keys) 4 ops.old ops.new }
    ensures full { result ≡ Err Stop.Nodes → length ops.new.triples ≡ ops.new.budget }
    ensures fulls { ops.new.fulls ≡ has_refused ops.old.fulls result }
{
    for k in 0..nodes.len() {
        let left = both_sides(ops, nodes[k], levels.as_slice()[k])?;
        if !add(ops, levels, nodes, left)? {
            return Ok(false);
        }
    }
    Ok(true)
}

// Adds a part to the node of its greatest level. False where it has none of the levels and isn't 0.
fn add(ops: &mut Ops, levels: &IndexSet<u32>, nodes: &mut [Node], f: Node) -> Result<bool, Stop>
    requires f { IsNode ops.old.triples f.0 }
    requires places { ArePlaces ops.old.triples levels.now.keys nodes.old }
    requires fall { IsFalling levels.now.keys }
    ensures placed { result ≡ Ok true → IsPlaced ops.old ops.new levels.now.keys f.0 nodes.old nodes.new }
    ensures out { result ≡ Ok false → IsOut ops.old.triples f.0 levels.now.keys }
    ensures grows { Grows ops.old ops.new }
    ensures room { PlacedRoom f.0 nodes.old ops.old ops.new }
    ensures full { result ≡ Err Stop.Nodes → length ops.new.triples ≡ ops.new.budget }
    ensures fulls { ops.new.fulls ≡ has_refused ops.old.fulls result }
{
    let _count = ops.count();
    let Ok(found) = place(ops, levels, f) else {
        return Err(Stop::Memory);
    };
    let Some(k) = found else {
        return Ok(f.0 == 0);
    };
    let n = ops.or(nodes[k], f)?;
    nodes[k] = n;
    Ok(true)
}

// The place of the greatest of the levels on which the node depends, if it depends on one.
fn place(ops: &Ops, levels: &IndexSet<u32>, f: Node) -> Result<Option<usize>, AllocError>
    requires f { IsNode ops.now.triples f.0 }
    requires fall { IsFalling levels.now.keys }
    ensures found { IfOk result (λ r. IfSome r (λ k. IsPlace ops.now.triples f.0 levels.now.keys k)) }
    ensures none { IfOk result (λ r. IfNone r (IsFreeOf ops.now.triples f.0 levels.now.keys (length levels.now.keys))) }
{
    let support = ops.support(f)?;
    Ok(last_of(levels, support.as_slice()))
}

// The place of the last of these numbers that is one of the levels.
fn last_of(levels: &IndexSet<u32>, support: &[u32]) -> Option<usize>
    ensures last { IfSome result (λ at. IsLastOf support.now levels.now.keys at) }
    ensures none { IfNone result (AreAbsent support.now levels.now.keys 0) }
{
    for k in (0..support.len()).rev() {
        if let Some(at) = levels.get_index_of(&support[k]) {
            return Some(at);
        }
    }
    None
}
