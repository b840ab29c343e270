//! Shared nodes of reduced ordered binary decision diagrams (Bryant 1986), kept in one unique table
//! (Brace, Rudell and Bryant 1990).
#![tactic(auto)]

ghost use Rattle.std.proofs.Common.{rules};
ghost use Rattle.std.specs.Cmp.Rules.{hashing};
ghost use Rattle.std.specs.Hash as fed;
ghost use Rattle.std.specs.Prelude.{ℕ, Bool, ◌⊎◌, Some, None, Ok, Err, if◌then◌else◌, OnErr, slice_get, IfSome, IfNone, ◌≡◌, ◌≢◌, ◌+◌, ◌*◌, ◌-◌, ◌<◌, ◌≤◌, ◌^◌, ◌↔◌, [], ◌∷◌, ◌++◌, length, take, IfOk, OnOk};
ghost use Rattle.cb_model.specs.Bits.{Bits};
ghost use Rattle.cb_dd.specs.Diagram.{Store, IsDiagram, IsCanonical, IsNode, IsChild, HasParts, IsFull, Extends, Holds, function_of, level_of, fulls_after, triple, parts_of};

use indexmap::IndexSet;
use std::alloc::{AllocError, Global};
use std::hash::{Hash, Hasher};
use std::marker::Model;
use thiserror::Error;

/// Up to how many nodes the table grows by four, so that few nodes of a small store are placed anew; a larger table
/// grows by two.
const SMALL_TABLE: usize = 36_864;

/// For how many nodes a table has room when it first grows.
const FIRST_ROOM: usize = 144;

/// A node of a store, by its number: 0 and 1 are the constants, and the others count up in the order in which
/// they were made. It belongs to the store that made it, until a cut takes it away.
#[derive(Clone, Copy, PartialEq, Eq, Hash, Debug)]
pub struct Node(pub usize);

impl Node {
    /// The function that is 0 everywhere.
    pub const ZERO: Node = Node(0);
    /// The function that is 1 everywhere.
    pub const ONE: Node = Node(1);
}

/// The level of a node and the numbers of its children: `lo` where the bit at the level is 0, `hi` where it is 1.
#[derive(Clone, Copy, PartialEq, Eq, Debug)]
pub struct Triple {
    pub level: u32,
    pub lo: u32,
    pub hi: u32,
}

// All numbers are hashed at once.
impl Hash for Triple {
    ghost hash_input = { λ t. fed.u128 (t.level * 18446744073709551616 + (t.lo * 4294967296 + t.hi)) };

    ghost respects_eq = { Prim.search (hashing, rules) };

    fn hash<H: Hasher>(&self, state: &mut H) {
        let children = self.lo as u128 * 4_294_967_296 + self.hi as u128;
        state.write_u128(self.level as u128 * 18_446_744_073_709_551_616 + children);
    }
}

/// Why no node was made.
#[derive(Clone, Copy, PartialEq, Eq, Debug, Drop, Error)]
pub enum Stop {
    /// The store has as many nodes as its budget allows.
    #[error("the budget of nodes is used up")]
    Nodes,
    /// There was no memory left.
    #[error("out of memory")]
    Memory,
}

/// A store of nodes, in which no two nodes have one function. It holds at most as many nodes as its budget, the
/// constants left out.
#[derive(Drop)]
pub struct Dd {
    table: IndexSet<Triple>,
    budget: usize,
    fulls: u64,
}

impl Model for Dd {
    ghost use Rattle.std.specs.Prelude.{◌≡◌, ◌^◌, ◌-◌, ◌≤◌, ◌+◌, length, drop, take};
    ghost use Rattle.cb_dd.specs.Diagram.{Store, IsDiagram};
    ghost use Rattle.cb_dd.specs.Table.{IsTable};

    ghost Value = { Store };

    ghost view = { λ d. record { budget = d.budget; triples = drop 2 d.table.keys; fulls = d.fulls } };

    ghost invariant = { λ d. IsTable d.table.keys d.budget d.fulls };
}

/// A moment of a store, by how many nodes it had then.
#[derive(Clone, Copy)]
pub struct DdMark {
    count: usize,
}

impl Model for DdMark {
    ghost use Rattle.std.specs.Prelude.{ℕ};

    ghost Value = { ℕ };

    ghost view = { λ m. m.count };

    ghost inverse = { λ n. record { count = n } };
}

impl DdMark {
    /// How many nodes there were, the constants left out.
    pub fn count(&self) -> usize
        ensures { result ≡ self.now }
    {
        self.count
    }
}

impl Dd {
    /// A store with no nodes but the constants, that will hold at most `budget` others.
    pub fn new(alloc: Global, budget: usize) -> Result<Dd, AllocError>
        ensures empty { IfOk result (λ d. d ≡ record { budget = budget; triples = []; fulls = 0 }) }
    {
        let mut table = IndexSet::new(alloc);
        table.insert(Triple {
            level: 0,
            lo: 0,
            hi: 0,
        })?;
        table.insert(Triple {
            level: 0,
            lo: 1,
            hi: 1,
        })?;
        Ok(Dd {
            table,
            budget,
            fulls: 0,
        })
    }

    /// How many nodes there are, the constants left out.
    pub fn count(&self) -> usize
        ensures count { result ≡ length self.now.triples }
        ensures within { result ≤ self.now.budget }
        ensures small { result < 2 ^ 63 }
        ensures diagram { IsDiagram self.now.triples }
        ensures canonical { IsCanonical self.now.triples }
        ensures unbounded { self.now.budget ≡ 2 ^ 64 - 1 → self.now.fulls ≡ 0 }
    {
        self.table.len() - 2
    }

    /// The level of a node, its child where the bit at that level is 0, and its child where it is 1. The constants
    /// have no parts.
    pub fn parts(&self, n: Node) -> Option<(u32, Node, Node)>
        requires { IsNode self.now.triples n.0 }
        ensures parts { result ≡ parts_of self.now.triples n.0 }
        ensures inner { IfSome result (λ p. HasParts self.now.triples n.0 p.0 p.1.0 p.2.0) }
        ensures constant { IfNone result (level_of self.now.triples n.0 ≡ 2 ^ 32 × ((n.0 ≡ 0) ⊎ (n.0 ≡ 1))) }
        ensures canonical { IsCanonical self.now.triples }
    {
        let _count = self.count();
        if n.0 < 2 {
            return None;
        }
        let triple = self.table.get_index(n.0)?;
        Some((
            triple.level,
            Node(triple.lo as usize),
            Node(triple.hi as usize),
        ))
    }

    /// The node that is `lo` where the bit at the level is 0, and `hi` where it is 1: `lo` itself where the two are
    /// equal, else the one node with these parts. It is made where it isn't there yet.
    ///
    /// The store stays as it was after a refusal, but for its count of refusals for nodes.
    pub fn node(&mut self, level: u32, lo: Node, hi: Node) -> Result<Node, Stop>
        requires lo_child { IsChild self.old.triples level lo.0 }
        requires hi_child { IsChild self.old.triples level hi.0 }
        ensures same { lo ≡ hi → (result ≡ Ok lo) × (self.new ≡ self.old) }
        ensures held { Holds self.old.triples (triple level lo.0 hi.0) → self.new.triples ≡ self.old.triples }
        ensures made { IfOk result (λ n. lo ≢ hi → parts_of self.new.triples n.0 ≡ Some (level, lo, hi)) }
        ensures function { IfOk result (λ n. (a : Bits) → function_of self.new.triples n.0 a
            ≡ (if a level then function_of self.old.triples hi.0 a
            else function_of self.old.triples lo.0 a)) }
        ensures is_node { IfOk result (λ n. IsNode self.new.triples n.0) }
        ensures above { IfOk result (λ n. level ≤ level_of self.new.triples n.0) }
        ensures extends { Extends 1 self.old self.new }
        ensures refused { OnErr result (self.new.triples ≡ self.old.triples) }

        // `Nodes` comes exactly where the sides differ, the triple is new and the store is full; want of memory
        // may come in its place.
        ensures nodes { result ≡ Err Stop.Nodes → IsFull self.old level lo.0 hi.0 }
        ensures full { IsFull self.old level lo.0 hi.0 → (result ≡ Err Stop.Nodes) ⊎ (result ≡ Err Stop.Memory) }
        ensures unbounded { self.old.budget ≡ 2 ^ 64 - 1 → result ≢ Err Stop.Nodes }
        ensures fulls { self.new.fulls ≡ fulls_after self.old.fulls result }
        ensures diagram { IsDiagram self.new.triples }
        ensures canonical { IsCanonical self.new.triples }
    {
        let count = self.count();
        if lo.0 == hi.0 {
            return Ok(lo);
        }
        let Ok(low) = u32::try_from(lo.0) else {
            return Err(Stop::Memory);
        };
        let Ok(high) = u32::try_from(hi.0) else {
            return Err(Stop::Memory);
        };
        let triple = Triple {
            level,
            lo: low,
            hi: high,
        };
        if count < self.budget {
            let Ok(index) = find_or_add(&mut self.table, triple) else {
                return Err(Stop::Memory);
            };
            return Ok(Node(index));
        }
        let Some(index) = find(&self.table, triple) else {
            self.fulls = self.fulls.saturating_add(1);
            return Err(Stop::Nodes);
        };
        Ok(Node(index))
    }

    /// The moment, to which a later cut can return.
    pub fn mark(&self) -> DdMark
        ensures { result ≡ length self.now.triples }
    {
        DdMark {
            count: self.table.len() - 2,
        }
    }

    /// Takes away all nodes made since the mark. The count of refusals for nodes stays.
    pub fn cut(&mut self, to: DdMark)
        requires { to ≤ length self.old.triples }
        ensures triples { self.new.triples ≡ take to self.old.triples }
        ensures budget { self.new.budget ≡ self.old.budget }
        ensures fulls { self.new.fulls ≡ self.old.fulls }
        ensures diagram { IsDiagram self.new.triples }
        ensures canonical { IsCanonical self.new.triples }
    {
        let count = self.count();
        prove!(to.count <= count);
        self.table.truncate(to.count + 2);
    }
}

// The place of a triple in a table.
fn find(table: &IndexSet<Triple>, triple: Triple) -> Option<usize>
    ensures found { IfSome result (λ i. slice_get table.now.keys i ≡ Some triple) }
    ensures absent { result ≡ None → Holds table.now.keys triple → ⊥ }
{
    table.get_index_of(&triple)
}

// The place of a triple, which is added where it is not there.
fn find_or_add(table: &mut IndexSet<Triple>, triple: Triple) -> Result<usize, AllocError>
    ensures found { IfOk result (λ i. slice_get table.new.keys i ≡ Some triple) }
    ensures grows { OnOk result ((table.new.keys ≡ table.old.keys)
        ⊎ (Holds table.old.keys triple → ⊥) × (table.new.keys ≡ table.old.keys ++ triple ∷ [])) }
    ensures refused { OnErr result (table.new.keys ≡ table.old.keys) }
    ensures absent { OnErr result (Holds table.old.keys triple → ⊥) }
{
    make_room(table);
    match table.insert_full(triple) {
        Ok((index, _)) => Ok(index),
        Err(_) => Err(AllocError),
    }
}

// Gives a small table that is full four times its room, where there is memory.
fn make_room(table: &mut IndexSet<Triple>)
    ensures { table.new.keys ≡ table.old.keys }
{
    let len = table.len();
    if len < SMALL_TABLE && len == table.capacity() {
        let _ = table.reserve((4 * len).max(FIRST_ROOM) - len);
    }
}
