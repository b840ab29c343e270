//! Operations on shared decision diagrams, with a memo of answers (Brace, Rudell and Bryant 1990).
#![tactic(auto)]

ghost use Rattle.std.specs.Prelude.{◌≡◌, ◌≢◌, ◌⊎◌, ◌+◌, ◌-◌, ◌<◌, ◌≤◌, ◌^◌, [], length, take, Some, Ok, Err, IfOk, OnErr, IfSome, IfNone, if◌then◌else◌};
ghost use Rattle.cb_model.specs.Bits.{Bits};
ghost use Rattle.cb_dd.specs.Diagram.{Store, IsDiagram, IsCanonical, IsNode, IsChild, IsFull, HasParts, Holds, function_of, level_of, fulls_after, parts_of, triple};
ghost use Rattle.cb_ops.specs.Ops.{Grows};

mod calls;
mod least_true;
mod levels;
mod memos;
mod replace;
mod sides;
mod walk;

use crate::memos::{Call, Pair};
use cb_dd::{Dd, DdMark, Node, Stop};
use indexmap::IndexMap;
use smallvec::SmallVec;
use std::alloc::{AllocError, Global};
use std::marker::Model;

/// Levels, rising; up to 16 of them take no memory.
pub type Levels = SmallVec<u32, 16>;

/// A store of nodes, with a memo of the answers of operations on them.
///
/// After a stop all older nodes keep their functions, and nodes that were made on the way may stay until a cut.
#[derive(Drop)]
pub struct Ops {
    dd: Dd,
    memo: IndexMap<Call, u32>,
    pairs: IndexMap<Pair, u32>,
    // The answers that were found before these.
    old_memo: IndexMap<Call, u32>,
    old_pairs: IndexMap<Pair, u32>,
    // Above the numbers of all nodes that the memos name.
    bound: usize,
}

impl Model for Ops {
    ghost use Rattle.cb_dd.specs.Diagram.{Store};

    ghost Value = { Store };

    ghost use Rattle.cb_ops.specs.Call.{IsMemo};
    ghost use Rattle.cb_ops.specs.Pair.{IsPairs};

    ghost view = { λ o. o.dd };

    ghost invariant = { λ o. IsMemo o.memo o.bound o.dd.triples × IsPairs o.pairs o.bound o.dd.triples × IsMemo o.old_memo o.bound o.dd.triples × IsPairs o.old_pairs o.bound o.dd.triples };
}

impl Ops {
    /// A store with no nodes but the constants, that will hold at most `budget` others.
    pub fn new(alloc: Global, budget: usize) -> Result<Ops, AllocError>
        ensures empty { IfOk result (λ o. o ≡ record { budget = budget; triples = []; fulls = 0 }) }
    {
        let dd = Dd::new(alloc, budget)?;
        let _count = dd.count();
        Ok(Ops {
            dd,
            memo: IndexMap::new(alloc),
            pairs: IndexMap::new(alloc),
            old_memo: IndexMap::new(alloc),
            old_pairs: IndexMap::new(alloc),
            bound: 2,
        })
    }

    /// How many nodes there are, the constants left out.
    pub fn count(&self) -> usize
        ensures count { result ≡ length self.now.triples }
        ensures within { result ≤ self.now.budget }
        ensures small { result < 2 ^ 63 }
        ensures diagram { IsDiagram self.now.triples }
        ensures canonical { IsCanonical self.now.triples }
        ensures unbounded { self.now.budget ≡ 2 ^ 64 - 1 → self.now.fulls ≡ 0 }
    {
        self.dd.count()
    }

    /// The level of a node, its child where the bit at that level is 0, and its child where it is 1. The constants
    /// have no parts.
    pub fn parts(&self, n: Node) -> Option<(u32, Node, Node)>
        requires { IsNode self.now.triples n.0 }
        ensures parts { result ≡ parts_of self.now.triples n.0 }
        ensures inner { IfSome result (λ p. HasParts self.now.triples n.0 p.0 p.1.0 p.2.0) }
        ensures constant { IfNone result (level_of self.now.triples n.0 ≡ 2 ^ 32 × ((n.0 ≡ 0) ⊎ (n.0 ≡ 1))) }
        ensures canonical { IsCanonical self.now.triples }
    {
        self.dd.parts(n)
    }

    /// The node that is `lo` where the bit at the level is 0, and `hi` where it is 1: `lo` itself where the two are
    /// equal, else the one node with these parts. It is made where it isn't there yet.
    ///
    /// The store stays as it was after a refusal, but for its count of refusals for nodes.
    pub fn node(&mut self, level: u32, lo: Node, hi: Node) -> Result<Node, Stop>
        requires lo_child { IsChild self.old.triples level lo.0 }
        requires hi_child { IsChild self.old.triples level hi.0 }
        ensures same { lo ≡ hi → (result ≡ Ok lo) × (self.new ≡ self.old) }
        ensures held { Holds self.old.triples (triple level lo.0 hi.0) → self.new.triples ≡ self.old.triples }
        ensures made { IfOk result (λ n. lo ≢ hi → parts_of self.new.triples n.0 ≡ Some (level, lo, hi)) }
        ensures function { IfOk result (λ n. (a : Bits) → function_of self.new.triples n.0 a
            ≡ (if a level then function_of self.old.triples hi.0 a
            else function_of self.old.triples lo.0 a)) }
        ensures is_node { IfOk result (λ n. IsNode self.new.triples n.0) }
        ensures above { IfOk result (λ n. level ≤ level_of self.new.triples n.0) }
        ensures grows { Grows self.old self.new }
        ensures one { length self.new.triples ≤ length self.old.triples + 1 }
        ensures refused { OnErr result (self.new.triples ≡ self.old.triples) }

        // `Nodes` comes exactly where the sides differ, the triple is new and the store is full; want of memory
        // may come in its place.
        ensures nodes { result ≡ Err Stop.Nodes → IsFull self.old level lo.0 hi.0 }
        ensures full { IsFull self.old level lo.0 hi.0 → (result ≡ Err Stop.Nodes) ⊎ (result ≡ Err Stop.Memory) }
        ensures unbounded { self.old.budget ≡ 2 ^ 64 - 1 → result ≢ Err Stop.Nodes }
        ensures fulls { self.new.fulls ≡ fulls_after self.old.fulls result }
        ensures diagram { IsDiagram self.new.triples }
        ensures canonical { IsCanonical self.new.triples }
    {
        self.dd.node(level, lo, hi)
    }

    /// The moment, to which a later cut can return.
    pub fn mark(&self) -> DdMark
        ensures { result ≡ length self.now.triples }
    {
        self.dd.mark()
    }

    /// Takes away all nodes made since the mark. The count of refusals for nodes stays.
    pub fn cut(&mut self, to: DdMark)
        requires { to ≤ length self.old.triples }
        ensures triples { self.new.triples ≡ take to self.old.triples }
        ensures budget { self.new.budget ≡ self.old.budget }
        ensures fulls { self.new.fulls ≡ self.old.fulls }
        ensures diagram { IsDiagram self.new.triples }
        ensures canonical { IsCanonical self.new.triples }
    {
        let _count = self.count();
        if self.bound <= to.count() + 2 {
            self.dd.cut(to);
            return;
        }
        let alloc = *self.memo.allocator();
        self.memo = IndexMap::new(alloc);
        self.pairs = IndexMap::new(alloc);
        self.old_memo = IndexMap::new(alloc);
        self.old_pairs = IndexMap::new(alloc);
        self.bound = 2;
        self.dd.cut(to);
    }
}
