//! The parametric form of leaves on decision diagrams, leaf by leaf.

ghost use Rattle.std.specs.Prelude.{◌≡◌, ◌+◌, ◌-◌, ◌<◌, ◌≤◌, ◌^◌, ◌&&◌, map, reverse, length, nat_lt, nat_le, Ok, Err, IfOk};
ghost use Rattle.std.specs.List.{filter};
ghost use Rattle.std.specs.List.Sorted.{IsStrictlyIncreasing};
ghost use Rattle.cb_model.specs.Outside.{Rose};
ghost use Rattle.cb_dd.specs.Diagram.{IsNode, function_of};
ghost use Rattle.cb_ops.specs.Ops.{Grows, StandsFor};
ghost use Rattle.cb_ops.specs.Substitute.{AreNodes};
ghost use Rattle.cb_ops.specs.Composed.{AreLower};
ghost use Rattle.cb_boole.specs.Elimination.{DependsOnly, rest};
ghost use Rattle.cb_solution.specs.Solution.{IsFalling};
ghost use Rattle.cb_project.specs.Leaves.{functions_of, AllNodes, AllBelow, IsFormOf, AreInner, RestRoom, PickRoom, IsLeaf, IsPicked, IsReplaced, LeafRoom, ArePutIn, PutRoom, ReplacedRoom, IsStep, StepRoom, ParametricRoom};

use cb_dd::{Node, Stop};
use cb_ops::Ops;
use cb_solution::{both_sides, solution};
use std::alloc::{AllocError, Global};

// A leaf's node, and the images of the levels that make the leaf equal to it, the least level first.
#[derive(Drop)]
struct Leaf {
    node: Node,
    images: Vec<(u32, Node)>,
}

// The levels from one number on and below another, in the other order.
fn between(alloc: Global, levels: &[u32], from: u32, to: u32) -> Result<Vec<u32>, AllocError>
    ensures { IfOk result (λ v. v.items ≡ filter (λ l. nat_le from l && nat_lt l to) (reverse levels.now)) }
{
    levels
        .iter()
        .rev()
        .copied()
        .filter(|l| from <= *l && *l < to)
        .collect(alloc)
}

// The levels on which the node depends, but for the constants and the parameters, falling.
fn inner_levels(
    alloc: Global,
    ops: &Ops,
    f: Node,
    constants: u32,
    first: u32,
) -> Result<Vec<u32>, AllocError>
    requires { IsNode ops.now.triples f.0 }
    ensures fall { IfOk result (λ v. IsFalling v.items) }
    ensures inner { IfOk result (λ v. AreInner ops.now.triples f.0 constants first v.items) }
{
    let support = ops.support(f)?;
    let levels = between(alloc, support.as_slice(), constants, first)?;
    Ok(levels)
}

// What is left of the node when the levels are eliminated, one after another.
fn eliminate(ops: &mut Ops, f: Node, levels: &[u32]) -> Result<Node, Stop>
    requires { IsNode ops.old.triples f.0 }
    ensures is_node { IfOk result (λ n. IsNode ops.new.triples n.0) }
    ensures function { IfOk result (λ n. StandsFor ops.new.triples n.0 (rest levels.now (function_of ops.old.triples f.0))) }
    ensures grows { Grows ops.old ops.new }
    ensures room { RestRoom f.0 (length levels.now) ops.old ops.new }
    ensures full { result ≡ Err Stop.Nodes → length ops.new.triples ≡ ops.new.budget }
    ensures rose { result ≡ Err Stop.Nodes → Rose ops.old.fulls ops.new.fulls }
{
    let mut left = f;
    for level in levels {
        left = both_sides(ops, left, *level)?;
    }
    Ok(left)
}

// The parameter where some bits of the levels give the node that bit, else the other bit.
fn pick(ops: &mut Ops, f: Node, levels: &[u32], parameter: u32) -> Result<Node, Stop>
    requires { IsNode ops.old.triples f.0 }
    ensures is_node { IfOk result (λ n. IsNode ops.new.triples n.0) }
    ensures function { IfOk result (λ n. IsPicked ops.old.triples ops.new.triples levels.now parameter f.0 n.0) }
    ensures grows { Grows ops.old ops.new }
    ensures room { PickRoom f.0 parameter (length levels.now) ops.old ops.new }
    ensures full { result ≡ Err Stop.Nodes → length ops.new.triples ≡ ops.new.budget }
    ensures rose { result ≡ Err Stop.Nodes → Rose ops.old.fulls ops.new.fulls }
{
    let always = eliminate(ops, f, levels)?;
    let other = ops.not(f)?;
    let never = eliminate(ops, other, levels)?;
    let sometimes = ops.not(never)?;
    let own = ops.node(parameter, Node::ZERO, Node::ONE)?;
    let n = ops.ite(own, sometimes, always)?;
    Ok(n)
}

// The leaf of a node whose levels from `first` on are parameters, the last of them below `parameter`.
fn leaf_of(
    alloc: Global,
    ops: &mut Ops,
    f: Node,
    constants: u32,
    first: u32,
    parameter: u32,
) -> Result<Leaf, Stop>
    requires node { IsNode ops.old.triples f.0 }
    requires constants { constants ≤ first }
    requires first { first ≤ parameter }
    requires below { DependsOnly (λ k. k < parameter) (function_of ops.old.triples f.0) }
    ensures leaf { IfOk result (λ l. IsLeaf ops.old.triples ops.new.triples constants first (parameter - first) f.0 l.node.0 l.images.items) }
    ensures grows { Grows ops.old ops.new }
    ensures room { LeafRoom f.0 parameter ops.old ops.new }
    ensures full { result ≡ Err Stop.Nodes → length ops.new.triples ≡ ops.new.budget }
    ensures rose { result ≡ Err Stop.Nodes → Rose ops.old.fulls ops.new.fulls }
{
    let Ok(levels) = inner_levels(alloc, ops, f, constants, first) else {
        return Err(Stop::Memory);
    };
    let node = pick(ops, f, &levels, parameter)?;
    let misses = ops.xor(f, node)?;
    let found = solution(alloc, ops, misses, &levels)?;
    match found {
        Some(images) => Ok(Leaf { node, images }),
        None => unreachable!(),
    }
}

/// How nodes are put in the place of levels.
#[derive(Clone, Copy)]
pub enum Way {
    /// All at once, in one walk: for bits in the place of bits.
    AtOnce,
    /// One level after another, where no node depends on a greater level that is replaced.
    OneByOne,
}

// The node with the levels' images put in.
fn replaced(ops: &mut Ops, value: Node, images: &[(u32, Node)], way: Way) -> Result<Node, Stop>
    requires value { IsNode ops.old.triples value.0 }
    requires images { AreNodes ops.old.triples images.now }
    requires rise { IsStrictlyIncreasing (map (λ i. i.0) images.now) }
    requires lower { way ≡ Way.OneByOne → AreLower ops.old.triples images.now }
    ensures is_node { IfOk result (λ n. IsNode ops.new.triples n.0) }
    ensures function { IfOk result (λ n. IsReplaced ops.old.triples ops.new.triples images.now value.0 n.0) }
    ensures grows { Grows ops.old ops.new }
    ensures room { ReplacedRoom value.0 images.now ops.old ops.new }
    ensures full { result ≡ Err Stop.Nodes → length ops.new.triples ≡ ops.new.budget }
    ensures rose { result ≡ Err Stop.Nodes → Rose ops.old.fulls ops.new.fulls }
{
    match way {
        Way::AtOnce => ops.substitute(value, images),
        Way::OneByOne => ops.compose_all(value, images),
    }
}

/// The nodes with the levels' images put in.
pub fn put_in(
    alloc: Global,
    ops: &mut Ops,
    values: &[Node],
    images: &[(u32, Node)],
    way: Way,
) -> Result<Vec<Node>, Stop>
    requires values { AllNodes ops.old.triples values.now }
    requires images { AreNodes ops.old.triples images.now }
    requires rise { IsStrictlyIncreasing (map (λ i. i.0) images.now) }
    requires lower { way ≡ Way.OneByOne → AreLower ops.old.triples images.now }
    ensures put_in { IfOk result (λ v. ArePutIn ops.old.triples ops.new.triples images.now values.now v.items) }
    ensures grows { Grows ops.old ops.new }
    ensures room { PutRoom values.now images.now ops.old ops.new }
    ensures full { result ≡ Err Stop.Nodes → length ops.new.triples ≡ ops.new.budget }
    ensures rose { result ≡ Err Stop.Nodes → Rose ops.old.fulls ops.new.fulls }
{
    let mut nodes = Vec::new(alloc);
    for value in values {
        let node = replaced(ops, *value, images, way)?;
        let Ok(_) = nodes.push(node) else {
            return Err(Stop::Memory);
        };
    }
    Ok(nodes)
}

// The node of one leaf, and those that follow with the leaf's solution put in.
fn step(
    alloc: Global,
    ops: &mut Ops,
    f: Node,
    later: &[Node],
    constants: u32,
    first: u32,
    parameter: u32,
) -> Result<(Node, Vec<Node>), Stop>
    requires node { IsNode ops.old.triples f.0 }
    requires nodes { AllNodes ops.old.triples later.now }
    requires constants { constants ≤ first }
    requires first { first ≤ parameter }
    requires below { DependsOnly (λ k. k < parameter) (function_of ops.old.triples f.0) }
    ensures step { IfOk result (λ r. IsStep ops.old.triples ops.new.triples constants first (parameter - first) f.0 later.now r.0.0 r.1.items) }
    ensures grows { Grows ops.old ops.new }
    ensures room { StepRoom f.0 parameter later.now ops.old ops.new }
    ensures full { result ≡ Err Stop.Nodes → length ops.new.triples ≡ ops.new.budget }
    ensures rose { result ≡ Err Stop.Nodes → Rose ops.old.fulls ops.new.fulls }
{
    let found = leaf_of(alloc, ops, f, constants, first, parameter)?;
    let next = put_in(alloc, ops, later, &found.images, Way::OneByOne)?;
    Ok((found.node, next))
}

/// The parametric form of the leaves whose values are these nodes: a node for each, in order, over the constants and
/// over the parameters up to its own, which have the levels from `first` on.
///
/// Leaf by leaf: its node is the parameter where the values allow that after the leaves before, else the other bit;
/// then Boole's solution (1854) of "the leaf is its node", for the levels between constants and parameters, is put into
/// the leaves that follow.
pub fn leaf_nodes(
    alloc: Global,
    ops: &mut Ops,
    values: &[Node],
    constants: u32,
    first: u32,
) -> Result<Vec<Node>, Stop>
    requires nodes { AllNodes ops.old.triples values.now }
    requires constants { constants ≤ first }
    requires levels { first + length values.now ≤ 2 ^ 32 }
    requires below { AllBelow first (functions_of ops.old.triples values.now) }
    ensures form { IfOk result (λ v. IsFormOf ops.old.triples ops.new.triples constants first values.now v.items) }
    ensures grows { Grows ops.old ops.new }
    ensures room { ParametricRoom values.now ops.old ops.new }
    ensures full { result ≡ Err Stop.Nodes → length ops.new.triples ≡ ops.new.budget }
    ensures rose { result ≡ Err Stop.Nodes → Rose ops.old.fulls ops.new.fulls }
{
    let Ok(mut left) = Vec::from_slice(alloc, values) else {
        return Err(Stop::Memory);
    };
    let mut nodes = Vec::new(alloc);
    for i in 0..values.len() {
        let parameter = first + i as u32;
        let (node, next) = step(alloc, ops, left[0], &left[1..], constants, first, parameter)?;
        let Ok(_) = nodes.push(node) else {
            return Err(Stop::Memory);
        };
        left = next;
    }
    Ok(nodes)
}
