//! The least input at which a diagram is 1, where the inputs have levels in any order.
#![tactic(auto)]

mod marks;
mod passes;

ghost use Rattle.std.specs.Prelude.{◌≡◌, ◌≢◌, ◌↔◌, ◌⊎◌, ℕ, ◌+◌, ◌-◌, ◌^◌, ◌<◌, ◌≤◌, List, length, get_or, true, false, Some, IsNone, IfOk, IfSome};
ghost use Rattle.cb_dd.specs.Diagram.{IsNode};
ghost use Rattle.cb_ops.specs.Ops.{DependsOn, IsLeastTrue};
ghost use Rattle.cb_levels.specs.Inverse.{IsInverse};
ghost use Rattle.cb_least.specs.Beginning.{AreFound, AreOnes, AreBits, IsSearch};

use crate::marks::{nexts, reached};
use crate::passes::{Prefix, ones_of_root, reach_of_root};
use cb_dd::Node;
use cb_ops::Ops;
use std::alloc::{AllocError, Global};

/// A diagram with the marks of its nodes and the next mark behind each, and the input of each level.
#[derive(Clone, Copy)]
struct Search<'a> {
    ops: &'a Ops,
    root: Node,
    marks: &'a [bool],
    nexts: &'a [usize],
    order: &'a [u32],
}

/// Gives these inputs 1.
fn fill(bits: &mut [bool], from: usize, upto: usize)
    requires from { from ≤ upto }
    requires upto { upto ≤ length bits.old }
    ensures inside { (i : ℕ) → from ≤ i → i < upto → get_or bits.new i false ≡ true }
    ensures below { (i : ℕ) → i < from → get_or bits.new i false ≡ get_or bits.old i false }
    ensures above { (i : ℕ) → upto ≤ i → get_or bits.new i false ≡ get_or bits.old i false }
{
    for input in from..upto {
        bits[input] = true;
    }
}

impl Search<'_> {
    /// Whether the inputs from `next` to `upto` have 1 wherever the diagram is 1 and its input begins with the bits; it
    /// may answer no where they do.
    fn are_ones(&self, bits: &[bool], next: usize, upto: usize, counts: &mut [usize]) -> bool
        requires search { IsSearch self.now.ops.now.triples self.now.root.0 self.now.marks.now self.now.nexts.now self.now.order.now }
        requires bits { AreBits self.now.order.now bits.now next }
        requires from { next ≤ upto }
        requires upto { upto ≤ length self.now.order.now }
        requires room { length counts.old ≡ self.now.root.0 + 1 }
        ensures { result ≡ true → AreOnes self.now.ops.now.triples self.now.order.now bits.now next upto self.now.root.0 }
    {
        let prefix = Prefix {
            order: self.order,
            bits,
            next,
        };
        let count = ones_of_root(
            self.ops, self.root, self.marks, self.nexts, &prefix, upto, counts,
        );
        upto - next <= count
    }

    /// Gives 1 to so many inputs from `next` on, where they have 1 wherever the diagram is 1; answers the next input.
    fn ones_within(
        &self,
        next: usize,
        width: usize,
        bits: &mut [bool],
        counts: &mut [usize],
    ) -> usize
        requires search { IsSearch self.now.ops.now.triples self.now.root.0 self.now.marks.now self.now.nexts.now self.now.order.now }
        requires found { AreFound self.now.ops.now.triples self.now.order.now bits.old next self.now.root.0 }
        requires room { length counts.old ≡ self.now.root.0 + 1 }
        ensures found { AreFound self.now.ops.now.triples self.now.order.now bits.new result self.now.root.0 }
        ensures on { next ≤ result }
    {
        if width > self.order.len() - next {
            return next;
        }
        let upto = next + width;
        if !self.are_ones(bits, next, upto, counts) {
            return next;
        }
        fill(bits, next, upto);
        upto
    }

    /// Goes on over the inputs from `next` on that have 1 wherever the diagram is 1, by runs of twice the length after each
    /// other; answers the next input, and the length of the run that was too long.
    fn widen(&self, next: usize, bits: &mut [bool], counts: &mut [usize]) -> (usize, usize)
        requires search { IsSearch self.now.ops.now.triples self.now.root.0 self.now.marks.now self.now.nexts.now self.now.order.now }
        requires found { AreFound self.now.ops.now.triples self.now.order.now bits.old next self.now.root.0 }
        requires room { length counts.old ≡ self.now.root.0 + 1 }
        ensures found { AreFound self.now.ops.now.triples self.now.order.now bits.new result.0 self.now.root.0 }
        ensures on { next ≤ result.0 }
    {
        let mut at = next;
        let mut width: usize = 1;
        for _ in 0..usize::BITS {
            let upto = self.ones_within(at, width, bits, counts);
            if upto == at {
                return (at, width);
            }
            at = upto;
            width = width.saturating_mul(2);
        }
        (at, width)
    }

    /// Goes on over the inputs from `next` on that have 1 wherever the diagram is 1, by runs of twice the length after each
    /// other, and then of half the length; answers the next input.
    fn ones_from(&self, next: usize, bits: &mut [bool], counts: &mut [usize]) -> usize
        requires search { IsSearch self.now.ops.now.triples self.now.root.0 self.now.marks.now self.now.nexts.now self.now.order.now }
        requires found { AreFound self.now.ops.now.triples self.now.order.now bits.old next self.now.root.0 }
        requires room { length counts.old ≡ self.now.root.0 + 1 }
        ensures found { AreFound self.now.ops.now.triples self.now.order.now bits.new result self.now.root.0 }
        ensures on { next ≤ result }
    {
        let (first, long) = self.widen(next, bits, counts);
        let mut at = first;
        let mut width = long / 2;
        while width > 0 {
            at = self.ones_within(at, width, bits, counts);
            width /= 2;
        }
        at
    }

    /// Finds the bits of the least input at which the diagram is 1.
    fn find(&self, bits: &mut [bool], counts: &mut [usize])
        requires search { IsSearch self.now.ops.now.triples self.now.root.0 self.now.marks.now self.now.nexts.now self.now.order.now }
        requires found { AreFound self.now.ops.now.triples self.now.order.now bits.old 0 self.now.root.0 }
        requires room { length counts.old ≡ self.now.root.0 + 1 }
        ensures { (levels : List ℕ) → IsInverse self.now.order.now levels → DependsOn self.now.ops.now.triples self.now.root.0 levels → IsLeastTrue self.now.ops.now.triples self.now.root.0 levels bits.new }
    {
        let mut next = 0;
        while next < self.order.len() {
            let prefix = Prefix {
                order: self.order,
                bits,
                next,
            };
            let reach = reach_of_root(self.ops, self.root, self.marks, self.nexts, &prefix, counts);
            if reach > self.order.len() {
                return;
            }
            bits[reach - 1] = true;
            next = self.ones_from(reach, bits, counts);
        }
    }
}

/// The least input at which a node is 1, where 0 comes before 1 and the first bit weighs most; `None` for the node
/// that is 0 everywhere. `order` has the input of each level. A pass over the diagram finds the next 1 of the input, and
/// some more the inputs behind it that have 1 wherever the diagram is 1: the time is that of a pass for each run of zeros,
/// and of about two for each binary digit of the length of each run of ones.
pub fn least_input(
    alloc: Global,
    ops: &Ops,
    f: Node,
    order: &[u32],
) -> Result<Option<Vec<bool>>, AllocError>
    requires node { IsNode ops.now.triples f.0 }
    requires order { (levels : List ℕ) × IsInverse order.now levels }
    ensures none { IfOk result (λ o. IsNone o ↔ (f.0 ≡ 0)) }
    ensures least { IfOk result (λ o. IfSome o (λ v. (levels : List ℕ) → IsInverse order.now levels → DependsOn ops.now.triples f.0 levels → IsLeastTrue ops.now.triples f.0 levels v.items)) }
{
    let _count = ops.count();
    if f.0 == 0 {
        return Ok(None);
    }
    let marks = reached(alloc, ops, f)?;
    let nexts = nexts(alloc, &marks)?;
    let mut counts = vec![in alloc; 0; f.0 + 1]?;
    let mut bits = vec![in alloc; false; order.len()]?;
    let search = Search {
        ops,
        root: f,
        marks: &marks,
        nexts: &nexts,
        order,
    };
    search.find(&mut bits, &mut counts);
    Ok(Some(bits))
}
