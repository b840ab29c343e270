ghost use Rattle.std.specs.Prelude.{◌≡◌, ℕ, ◌+◌, ◌-◌, ◌^◌, ◌<◌, ◌≤◌, length, get_or, Some};
ghost use Rattle.cb_dd.specs.declared.Node.{Node};
ghost use Rattle.cb_dd.specs.Diagram.{IsNode, parts_of};
ghost use Rattle.cb_least.specs.Beginning.{AreBits, AreMarks, AreNexts, HasOnes, IsReach};

use cb_dd::Node;
use cb_ops::Ops;

/// The first bits of an input, as far as they are found: those of the inputs below `next`. The others are 0.
/// `order` has the input of each level.
#[derive(Clone, Copy)]
pub struct Prefix<'a> {
    pub order: &'a [u32],
    pub bits: &'a [bool],
    pub next: usize,
}

/// The input of a level, or a number above all inputs where the level has none.
fn input_at(order: &[u32], level: u32) -> usize
    ensures input { result ≡ get_or order.now level (length order.now) }
    ensures small { result < 2 ^ 64 - 1 }
{
    match order.get(level as usize) {
        Some(input) => *input as usize,
        None => order.len(),
    }
}

/// How far the bits reach at a node, by how far they reach at its children.
fn reach(ops: &Ops, n: Node, prefix: &Prefix<'_>, reaches: &[usize]) -> usize
    requires node { IsNode ops.now.triples n.0 }
    requires inner { 2 ≤ n.0 }
    requires bits { AreBits prefix.now.order.now prefix.now.bits.now prefix.now.next }
    requires within { n.0 ≤ length reaches.now }
    requires children { (level : ℕ) (lo hi : Node) → parts_of ops.now.triples n.0 ≡ Some (level, lo, hi) → IsReach ops.now.triples prefix.now.order.now prefix.now.bits.now prefix.now.next lo.0 (get_or reaches.now lo.0 0) × IsReach ops.now.triples prefix.now.order.now prefix.now.bits.now prefix.now.next hi.0 (get_or reaches.now hi.0 0) }
    ensures { IsReach ops.now.triples prefix.now.order.now prefix.now.bits.now prefix.now.next n.0 result }
{
    let _count = ops.count();
    let Some((level, lo, hi)) = ops.parts(n) else {
        return 0;
    };
    let input = input_at(prefix.order, level);
    if input >= prefix.next {
        return reaches[lo.0].max(reaches[hi.0].min(input + 1));
    }
    if prefix.bits[input] {
        reaches[hi.0]
    } else {
        reaches[lo.0]
    }
}

/// How far the bits reach at the root: one more than the greatest number of first bits, these and then zeros, with which
/// an input begins at which the diagram is 1; 0 where there is none. Children have lower numbers than their node.
pub fn reach_of_root(
    ops: &Ops,
    root: Node,
    marks: &[bool],
    nexts: &[usize],
    prefix: &Prefix<'_>,
    reaches: &mut [usize],
) -> usize
    requires node { IsNode ops.now.triples root.0 }
    requires some { 1 ≤ root.0 }
    requires marks { AreMarks ops.now.triples root.0 1 marks.now }
    requires nexts { AreNexts marks.now nexts.now }
    requires bits { AreBits prefix.now.order.now prefix.now.bits.now prefix.now.next }
    requires room { length reaches.old ≡ root.0 + 1 }
    ensures { IsReach ops.now.triples prefix.now.order.now prefix.now.bits.now prefix.now.next root.0 result }
{
    let _count = ops.count();
    reaches[0] = 0;
    reaches[1] = prefix.order.len() + 1;
    let mut at = 2;
    while at <= root.0 {
        if marks[at] {
            let found = reach(ops, Node(at), prefix, reaches);
            reaches[at] = found;
        }
        at = nexts[at];
    }
    reaches[root.0]
}

/// How many of the inputs from `next` to `upto` have 1 at least where a node is 1, by how many have it where its children
/// are.
fn ones(ops: &Ops, n: Node, prefix: &Prefix<'_>, upto: usize, counts: &[usize]) -> usize
    requires node { IsNode ops.now.triples n.0 }
    requires inner { 2 ≤ n.0 }
    requires bits { AreBits prefix.now.order.now prefix.now.bits.now prefix.now.next }
    requires within { n.0 ≤ length counts.now }
    requires children { (level : ℕ) (lo hi : Node) → parts_of ops.now.triples n.0 ≡ Some (level, lo, hi) → HasOnes ops.now.triples prefix.now.order.now prefix.now.bits.now prefix.now.next upto lo.0 (get_or counts.now lo.0 0) × HasOnes ops.now.triples prefix.now.order.now prefix.now.bits.now prefix.now.next upto hi.0 (get_or counts.now hi.0 0) }
    requires upto { upto ≤ length prefix.now.order.now }
    ensures { HasOnes ops.now.triples prefix.now.order.now prefix.now.bits.now prefix.now.next upto n.0 result }
{
    let _count = ops.count();
    let Some((level, lo, hi)) = ops.parts(n) else {
        return 0;
    };
    let input = input_at(prefix.order, level);
    if input < prefix.next {
        return if prefix.bits[input] {
            counts[hi.0]
        } else {
            counts[lo.0]
        };
    }
    if input < upto {
        return counts[lo.0].min(counts[hi.0].saturating_add(1));
    }
    counts[lo.0].min(counts[hi.0])
}

/// How many of the inputs from `next` to `upto` have 1 at least where the diagram is 1 and its input begins with the bits.
pub fn ones_of_root(
    ops: &Ops,
    root: Node,
    marks: &[bool],
    nexts: &[usize],
    prefix: &Prefix<'_>,
    upto: usize,
    counts: &mut [usize],
) -> usize
    requires node { IsNode ops.now.triples root.0 }
    requires some { 1 ≤ root.0 }
    requires marks { AreMarks ops.now.triples root.0 1 marks.now }
    requires nexts { AreNexts marks.now nexts.now }
    requires bits { AreBits prefix.now.order.now prefix.now.bits.now prefix.now.next }
    requires upto { upto ≤ length prefix.now.order.now }
    requires room { length counts.old ≡ root.0 + 1 }
    ensures { HasOnes ops.now.triples prefix.now.order.now prefix.now.bits.now prefix.now.next upto root.0 result }
{
    let _count = ops.count();
    counts[0] = prefix.order.len();
    counts[1] = 0;
    let mut at = 2;
    while at <= root.0 {
        if marks[at] {
            let found = ones(ops, Node(at), prefix, upto, counts);
            counts[at] = found;
        }
        at = nexts[at];
    }
    counts[root.0]
}
