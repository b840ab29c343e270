//! The products of a node of a diagram: the ways from it to 1, one after another.
#![tactic(auto)]

ghost use Rattle.std.specs.Prelude.{◌≡◌, ◌≢◌, ℕ, suc, ◌+◌, ◌*◌, ◌<◌, ◌≤◌, ◌^◌, ◌↔◌, [], ◌∷◌, List, length, Some, None, Ok, IfOk, IsTrue, IsFalse, OnOk, vec_capacity, min, max};
ghost use Rattle.std.specs.List.Sorted.{IsStrictlyIncreasing};
ghost use Rattle.cb_model.specs.Bits.{Bits};
ghost use Rattle.cb_model.specs.Answers.{paths};
ghost use Rattle.cb_dd.specs.Diagram.{IsNode, function_of, level_of};
ghost use Rattle.cb_ops.specs.Ops.{DependsOn};
ghost use Rattle.cb_paths.specs.Walk.{Walk, IsWalk, after, to_come};
ghost use Rattle.cb_paths.specs.Products.{products_of};
ghost use Rattle.cb_paths.specs.Counted.{IsCount, AreCapped, AreEntries, through, above};
ghost use Rattle.cb_dd.specs.declared.Triple.{Triple};

use cb_dd::Node;
use cb_ops::Ops;
use std::alloc::{AllocError, Global};
use std::collections::BTreeMap;
use std::marker::Model;

/// The products of a node that are still to come, in order. A product is a way from the node to 1: its levels rise,
/// each with the bit that it takes there, and a level that doesn't matter is left out. At each level the products
/// with 0 come before those with 1.
#[derive(Drop)]
pub struct Paths<'a> {
    ops: &'a Ops,
    // The product that was given last.
    literals: Vec<(u32, bool)>,
    // For each literal the node at its other side, where that is still to come, else 0.
    others: Vec<Node>,
    // The node from which the literals go on, or 0.
    from: Node,
}

impl<'a> Model for Paths<'a> {
    ghost use Rattle.std.specs.Prelude.{min, vec_capacity};
    ghost use Rattle.cb_paths.specs.Walk.{Walk, IsWalk, to_come};

    ghost Value = { Walk };

    ghost view = { λ p. record { product = p.literals.items; to_come = to_come p.ops.now.triples p.literals.items p.others.items p.from.0 } };

    ghost invariant = { λ p. IsWalk p.ops.now.triples (min (vec_capacity p.literals) (vec_capacity p.others)) p.literals.items p.others.items p.from.0 };
}

impl<'a> Paths<'a> {
    ghost use Rattle.std.specs.Prelude.{⊤};
    ghost use Rattle.std.specs.Borrow.{sem, follows_so};
    ghost use Rattle.cb_paths.specs.contracts.Paths.{the_row};
    ghost use mathlib.Core.Option.{none};
    ghost use mir.Syntax.{named};
    ghost use Rattle.cb_paths.specs.Gives.{Gives};

    /// The products of the node, of which none was given yet. All the memory that they need is taken here.
    pub fn new(alloc: Global, ops: &'a Ops, f: Node) -> Result<Paths<'a>, AllocError>
        requires { IsNode ops.now.triples f.0 }
        ensures products { IfOk result (λ p. (env : Bits) (levels : List ℕ) → IsStrictlyIncreasing levels
            → DependsOn ops.now.triples f.0 levels
            → p.to_come ≡ paths (function_of ops.now.triples f.0) env levels) }
    {
        let _count = ops.count();
        let levels = ops.support(f)?;
        let literals = Vec::with_capacity(alloc, levels.len())?;
        let others = Vec::with_capacity(alloc, levels.len())?;
        Ok(Paths {
            ops,
            literals,
            others,
            from: f,
        })
    }

    /// The next product, if there is one: its levels, rising, with their bits. It takes no memory.
    pub fn next(&mut self) -> Option<&[(u32, bool)]>
        ensures* gives { sem 𝓛 (follows_so (the_row (record { mir = named 1; lft = [] })) (the_row (record { mir = named 1; lft = [] })) self.entry.ghost_name none (λ _ _. ⊤)
            (λ v. Gives self.old v result)) }
    {
        if self.advance() {
            return Some(self.product());
        }
        None
    }

    /// Goes to the next product; whether there is one. It takes no memory.
    pub fn advance(&mut self) -> bool
        ensures some { IsTrue result → self.old.to_come ≡ self.new.product ∷ self.new.to_come }
        ensures none { IsFalse result → (self.old.to_come ≡ []) × (self.new.to_come ≡ []) }
    {
        let from = turn(self.from, &mut self.literals, &mut self.others);
        self.from = Node::ZERO;
        if from.0 == 0 {
            return false;
        }
        descend(self.ops, from, &mut self.literals, &mut self.others);
        true
    }

    /// The product that was given last: its levels, rising, with their bits.
    pub fn product(&self) -> &[(u32, bool)]
        ensures { result.now ≡ self.now.product }
    {
        self.literals.as_slice()
    }
}

/// How many products the node has, or `None` where they are more than `most`. It visits each node once, and writes no
/// product.
pub fn count(alloc: Global, ops: &Ops, f: Node, most: u32) -> Result<Option<u32>, AllocError>
    requires { IsNode ops.now.triples f.0 }
    ensures counted { IfOk result (λ n. (env : Bits) (levels : List ℕ) → IsStrictlyIncreasing levels
        → DependsOn ops.now.triples f.0 levels
        → IsCount (length (paths (function_of ops.now.triples f.0) env levels)) most n) }
{
    let _count = ops.count();
    let n = products(alloc, ops, f, most as u64 + 1)?;
    if n > most as u64 {
        return Ok(None);
    }
    Ok(Some(n as u32))
}

// How many products the node has, or the limit where they are as many or more. It goes over the nodes from the greatest
// number down, so that all ways to a node are there before its children are reached.
fn products(alloc: Global, ops: &Ops, f: Node, limit: u64) -> Result<u64, AllocError>
    requires node { IsNode ops.now.triples f.0 }
    requires some { 0 < limit }
    requires small { limit ≤ 2 ^ 32 }
    ensures counted { IfOk result (λ n. n ≡ min (length (products_of ops.now.triples f.0)) limit) }
{
    let _count = ops.count();
    let mut ways = BTreeMap::new(alloc);
    let mut found = 0u64;
    ways.insert(f.0, 1)?;
    'pass: while let Some((n, times)) = ways.pop_last() {
        match ops.parts(Node(n)) {
            Some((_, lo, hi)) => {
                add(&mut ways, lo.0, times, limit)?;
                add(&mut ways, hi.0, times, limit)?;
            }
            None => found = (found + times * (n as u64)).min(limit),
        }
    }
    Ok(found)
}

// Adds so many ways to a node, up to the limit.
fn add(ways: &mut BTreeMap<usize, u64>, n: usize, times: u64, limit: u64) -> Result<(), AllocError>
    requires small { limit ≤ 2 ^ 32 }
    requires times { times ≤ limit }
    requires capped { AreCapped limit ways.old.entries }
    ensures through { OnOk result ((ts : List Triple) (more : ℕ) → min (more + through ts ways.new.entries) limit
        ≡ min (more + (through ts ways.old.entries + times * length (products_of ts n))) limit) }
    ensures nodes { OnOk result ((ts : List Triple) → AreEntries ts ways.old.entries → IsNode ts n → AreEntries ts ways.new.entries) }
    ensures capped { OnOk result (AreCapped limit ways.new.entries) }
    ensures above { OnOk result (above ways.new.entries ≤ max (suc n) (above ways.old.entries)) }
{
    let before = ways.get(&n).copied().unwrap_or(0);
    ways.insert(n, (before + times).min(limit))?;
    Ok(())
}

// The node from which the next product goes on: the given one, or where it is 0 the other side of the last literal at
// whose other side something is to come. That literal is turned, and those after it are taken away. It is 0 where
// nothing is to come.
fn turn(from: Node, literals: &mut Vec<(u32, bool)>, others: &mut Vec<Node>) -> Node
    requires { length literals.old.items ≡ length others.old.items }
    ensures come { (ts : List Triple) → to_come ts literals.old.items others.old.items from.0
        ≡ to_come ts literals.new.items others.new.items result.0 }
    ensures walk { (ts : List Triple) (room : ℕ) → IsWalk ts room literals.old.items others.old.items from.0
        → IsWalk ts room literals.new.items others.new.items result.0 }
    ensures none { result.0 ≡ 0 → (literals.new.items ≡ []) × (others.new.items ≡ []) }
    ensures literals_room { vec_capacity literals.new ≡ vec_capacity literals.old }
    ensures others_room { vec_capacity others.new ≡ vec_capacity others.old }
{
    if from.0 != 0 {
        return from;
    }
    while let Some(i) = others.len().checked_sub(1) {
        let other = others[i];
        if other.0 != 0 {
            literals[i] = (literals[i].0, true);
            others[i] = Node::ZERO;
            return other;
        }
        others.truncate(i);
        literals.truncate(i);
    }
    Node::ZERO
}

// Adds the literals of the first way from the node to 1.
fn descend(ops: &Ops, from: Node, literals: &mut Vec<(u32, bool)>, others: &mut Vec<Node>)
    requires walk { IsWalk ops.now.triples (min (vec_capacity literals.old) (vec_capacity others.old)) literals.old.items others.old.items from.0 }
    requires some { from.0 ≢ 0 }
    ensures come { to_come ops.now.triples literals.old.items others.old.items from.0
        ≡ literals.new.items ∷ after ops.now.triples literals.new.items others.new.items }
    ensures walk { IsWalk ops.now.triples (min (vec_capacity literals.new) (vec_capacity others.new)) literals.new.items others.new.items 0 }
{
    let _count = ops.count();
    let mut n = from;
    while let Some((level, lo, hi)) = ops.parts(n) {
        let (bit, other, next) = if lo.0 == 0 {
            (true, Node::ZERO, hi)
        } else {
            (false, hi, lo)
        };
        n = next;
        let _ = literals.push((level, bit));
        let _ = others.push(other);
    }
}
