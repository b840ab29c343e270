// Levels replaced by nodes.
ghost use Rattle.std.specs.Prelude.{◌≡◌, ◌≢◌, ◌+◌, ◌-◌, ◌*◌, ◌<◌, ◌≤◌, ◌^◌, [], ◌∷◌, List, ℕ, length, map, Ok, Err, IfOk, OnOk, IsTrue, None, Some, true, if◌then◌else◌};
ghost use Rattle.std.specs.List.Sorted.{IsStrictlyIncreasing};
ghost use Rattle.cb_model.specs.Bits.{Bits, put};
ghost use Rattle.cb_dd.specs.Diagram.{IsDiagram, IsNode, function_of, fulls_after};
ghost use Rattle.cb_ops.specs.Ops.{Grows, StandsFor, Room, HasCause};
ghost use Rattle.cb_ops.specs.Substitute.{AreNodes, AllSubstituted, SubstituteCause, SubstituteRoom, IsJoined, JoinRoom, image_of, substituted};
ghost use Rattle.cb_ops.specs.Composed.{AreLower, ComposedRoom, ComposedCause, LevelRoom, is_replaced};
ghost use Rattle.cb_ops.specs.Makes.{Makes, MakesNode};
ghost use Rattle.cb_ops.specs.Walk.{AllMade, IsMadeSide, IsVisit, WentDown, WentUp, PutRoom, images_of, side_of, fulls_after_step};

use crate::Ops;
use crate::walk::{Rest, Step, Visit, recall_in, remember};
use cb_dd::{Node, Stop};
use indexmap::IndexMap;

impl Ops {
    /// The node with the level replaced by g: it has for each assignment the bit that f has where the bit at the level is
    /// that of g.
    ///
    /// Composition of Bryant (1986): the choice by g between the two cofactors. Levels whose nodes depend on none of the
    /// greater levels of a list are replaced all at once by one such call after another, the least level first.
    pub fn compose(&mut self, f: Node, level: u32, g: Node) -> Result<Node, Stop>
        requires f { IsNode self.old.triples f.0 }
        requires g { IsNode self.old.triples g.0 }
        ensures function { IfOk result (λ n. StandsFor self.new.triples n.0 (λ a.
            function_of self.old.triples f.0
            (put level (function_of self.old.triples g.0 a) a))) }
        ensures made { Makes (f.0 ∷ g.0 ∷ []) 3 self.old self.new result }
    {
        let low = self.restrict(f, level, false)?;
        let high = self.restrict(f, level, true)?;
        let n = self.ite(g, high, low)?;
        Ok(n)
    }

    /// The node with each level of the list replaced by its node, all at once, where no node of the list depends on a
    /// greater level of the list.
    ///
    /// It composes at one level after another, the least first, and only where the node depends on the level. `substitute`
    /// takes any list, and may take far longer: it puts a node in once for each path to the level.
    pub fn compose_all(&mut self, f: Node, list: &[(u32, Node)]) -> Result<Node, Stop>
        requires f { IsNode self.old.triples f.0 }
        requires nodes { AreNodes self.old.triples list.now }
        requires rise { IsStrictlyIncreasing (map (λ p. p.0) list.now) }
        requires lower { AreLower self.old.triples list.now }
        ensures function { IfOk result (λ n. StandsFor self.new.triples n.0 (λ a.
            function_of self.old.triples f.0
            (substituted self.old.triples list.now a))) }
        ensures made { MakesNode self.old self.new result }
        ensures room { ComposedRoom f.0 list.now self.old self.new }
        ensures nodes { result ≡ Err Stop.Nodes → ComposedCause f.0 list.now self.old self.new }
    {
        let _count = self.count();
        let Ok(levels) = self.support(f) else {
            return Err(Stop::Memory);
        };
        let mut n = f;
        for level in levels.as_slice() {
            n = self.compose_at(n, *level, list)?;
        }
        Ok(n)
    }

    // The node with the level replaced, where the list has a node for it.
    fn compose_at(&mut self, f: Node, level: u32, list: &[(u32, Node)]) -> Result<Node, Stop>
        requires f { IsNode self.old.triples f.0 }
        requires nodes { AreNodes self.old.triples list.now }
        requires rise { IsStrictlyIncreasing (map (λ p. p.0) list.now) }
        ensures is_node { IfOk result (λ n. IsNode self.new.triples n.0) }
        ensures function { IfOk result (λ n. StandsFor self.new.triples n.0 (λ a.
            function_of self.old.triples f.0
            (put level (substituted self.old.triples list.now a level) a))) }
        ensures grows { Grows self.old self.new }
        ensures room { LevelRoom f.0 level list.now self.old self.new }
        ensures replaced { result ≡ Err Stop.Nodes → is_replaced list.now level ≡ true }
        ensures full { result ≡ Err Stop.Nodes → length self.new.triples ≡ self.new.budget }
        ensures unbounded { self.old.budget ≡ 2 ^ 64 - 1 → result ≢ Err Stop.Nodes }
        ensures fulls { self.new.fulls ≡ fulls_after self.old.fulls result }
        ensures diagram { IsDiagram self.new.triples }
    {
        let _count = self.count();
        let Some(g) = replacing(list, level) else {
            return Ok(f);
        };
        self.compose(f, level, g)
    }

    /// The node with each level of the list replaced by its node, all at once. It is the node itself where all its
    /// levels are greater than the last one of the list.
    pub fn substitute(&mut self, f: Node, list: &[(u32, Node)]) -> Result<Node, Stop>
        requires f { IsNode self.old.triples f.0 }
        requires nodes { AreNodes self.old.triples list.now }
        requires rise { IsStrictlyIncreasing (map (λ p. p.0) list.now) }
        ensures function { IfOk result (λ n. StandsFor self.new.triples n.0 (λ a.
            function_of self.old.triples f.0
            (substituted self.old.triples list.now a))) }
        ensures made { MakesNode self.old self.new result }
        ensures room { SubstituteRoom f.0 list.now self.old self.new }
        ensures nodes { result ≡ Err Stop.Nodes → SubstituteCause f.0 list.now self.old self.new }
    {
        let mut done = IndexMap::new(*self.memo.allocator());
        let n = self.substitute_in(f, list, &mut done)?;
        Ok(n)
    }

    /// The same, with a memo that serves several nodes: the nodes for which it is done, each with its answer.
    pub fn substitute_in(
        &mut self,
        f: Node,
        list: &[(u32, Node)],
        done: &mut IndexMap<Node, Node>,
    ) -> Result<Node, Stop>
        requires f { IsNode self.old.triples f.0 }
        requires nodes { AreNodes self.old.triples list.now }
        requires rise { IsStrictlyIncreasing (map (λ p. p.0) list.now) }
        requires done { AllSubstituted done.old self.old.triples list.now }
        ensures function { IfOk result (λ n. StandsFor self.new.triples n.0 (λ a.
            function_of self.old.triples f.0
            (substituted self.old.triples list.now a))) }
        ensures made { MakesNode self.old self.new result }
        ensures room { SubstituteRoom f.0 list.now self.old self.new }
        ensures nodes { result ≡ Err Stop.Nodes → SubstituteCause f.0 list.now self.old self.new }
        ensures done { AllSubstituted done.new self.new.triples list.now }
    {
        let _count = self.count();
        let mut waiting = Vec::new(*self.memo.allocator());
        let mut step = Step::Down(f);
        loop {
            match step {
                Step::Down(n) => {
                    step = self.visit(&mut waiting, done, n, list)?;
                }
                Step::Up(r) => {
                    let Some(top) = waiting.pop() else {
                        return Ok(r);
                    };
                    step = self.put_in(&mut waiting, done, top, r, list)?;
                }
            }
        }
    }

    // Answers a node, or puts it on the list and goes on with its side with the bit 0.
    fn visit(
        &self,
        waiting: &mut Vec<Visit>,
        done: &IndexMap<Node, Node>,
        n: Node,
        list: &[(u32, Node)],
    ) -> Result<Step, Stop>
        requires node { IsNode self.now.triples n.0 }
        requires rise { IsStrictlyIncreasing (map (λ p. p.0) list.now) }
        requires done { AllMade (images_of list.now) done.now self.now.triples }
        ensures down { IfOk result (WentDown (images_of list.now) (2 ^ 32) self.now.triples waiting.old.items waiting.new.items n) }
        ensures memory { result ≢ Err Stop.Nodes }
    {
        let _count = self.count();
        let Some((at, lo, hi)) = self.parts(n) else {
            return Ok(Step::Up(n));
        };
        if are_below(list, at) {
            return Ok(Step::Up(n));
        }
        if let Some(r) = recall_in(done, n) {
            return Ok(Step::Up(r));
        }
        let visit = Visit {
            node: n,
            level: at,
            rest: Rest::High(hi),
        };
        let Ok(_) = waiting.push(visit) else {
            return Err(Stop::Memory);
        };
        Ok(Step::Down(lo))
    }

    // Hands an answer to the node that waits for it: its other side comes next, or it has its own answer.
    fn put_in(
        &mut self,
        waiting: &mut Vec<Visit>,
        done: &mut IndexMap<Node, Node>,
        top: Visit,
        r: Node,
        list: &[(u32, Node)],
    ) -> Result<Step, Stop>
        requires visit { IsVisit (images_of list.now) (2 ^ 32) self.old.triples top }
        requires side { IsMadeSide (images_of list.now) self.old.triples top.node.0 top.level (side_of top.rest) r.0 }
        requires nodes { AreNodes self.old.triples list.now }
        requires rise { IsStrictlyIncreasing (map (λ p. p.0) list.now) }
        requires done { AllMade (images_of list.now) done.old self.old.triples }
        ensures up { IfOk result (WentUp (images_of list.now) (2 ^ 32) self.new.triples waiting.old.items waiting.new.items top) }
        ensures done { AllMade (images_of list.now) done.new self.new.triples }
        ensures grows { Grows self.old self.new }
        ensures room { PutRoom top list.now self.old self.new }
        ensures full { result ≡ Err Stop.Nodes → length self.new.triples ≡ self.new.budget }
        ensures unbounded { self.old.budget ≡ 2 ^ 64 - 1 → result ≢ Err Stop.Nodes }
        ensures fulls { self.new.fulls ≡ fulls_after_step self.old.fulls result }
        ensures diagram { IsDiagram self.new.triples }
    {
        let _count = self.count();
        match top.rest {
            Rest::High(high) => {
                let visit = Visit {
                    rest: Rest::Low(r),
                    ..top
                };
                let Ok(_) = waiting.push(visit) else {
                    return Err(Stop::Memory);
                };
                Ok(Step::Down(high))
            }
            Rest::Low(low) => {
                let n = self.choose(top.level, low, r, list)?;
                remember(done, top.node, n);
                Ok(Step::Up(n))
            }
        }
    }

    // The node that is `high` where what replaces the level is 1, and `low` where it is 0.
    fn choose(
        &mut self,
        level: u32,
        low: Node,
        high: Node,
        list: &[(u32, Node)],
    ) -> Result<Node, Stop>
        requires low { IsNode self.old.triples low.0 }
        requires high { IsNode self.old.triples high.0 }
        requires nodes { AreNodes self.old.triples list.now }
        requires rise { IsStrictlyIncreasing (map (λ p. p.0) list.now) }
        ensures is_node { IfOk result (λ n. IsNode self.new.triples n.0) }
        ensures function { IfOk result (λ n. IsJoined self.old.triples self.new.triples level low.0 high.0 list.now n.0) }
        ensures grows { Grows self.old self.new }
        ensures room { JoinRoom level low.0 high.0 list.now self.old self.new }
        ensures full { result ≡ Err Stop.Nodes → length self.new.triples ≡ self.new.budget }
        ensures unbounded { self.old.budget ≡ 2 ^ 64 - 1 → result ≢ Err Stop.Nodes }
        ensures fulls { self.new.fulls ≡ fulls_after self.old.fulls result }
        ensures diagram { IsDiagram self.new.triples }
    {
        let _count = self.count();
        let Some(choice) = replacing(list, level) else {
            return self.join(level, low, high);
        };
        self.ite(choice, high, low)
    }

    // The node that is `high` where the bit at the level is 1, and `low` where it is 0.
    fn join(&mut self, level: u32, low: Node, high: Node) -> Result<Node, Stop>
        requires low { IsNode self.old.triples low.0 }
        requires high { IsNode self.old.triples high.0 }
        ensures is_node { IfOk result (λ n. IsNode self.new.triples n.0) }
        ensures function { IfOk result (λ n. IsJoined self.old.triples self.new.triples level low.0 high.0 [] n.0) }
        ensures grows { Grows self.old self.new }
        ensures room { JoinRoom level low.0 high.0 [] self.old self.new }
        ensures full { result ≡ Err Stop.Nodes → length self.new.triples ≡ self.new.budget }
        ensures unbounded { self.old.budget ≡ 2 ^ 64 - 1 → result ≢ Err Stop.Nodes }
        ensures fulls { self.new.fulls ≡ fulls_after self.old.fulls result }
        ensures diagram { IsDiagram self.new.triples }
    {
        let _count = self.count();
        let at = level as u64;
        if at < self.level(low) && at < self.level(high) {
            return self.node(level, low, high);
        }
        let own = self.node(level, Node::ZERO, Node::ONE)?;
        self.ite(own, high, low)
    }
}

// The node that replaces the level, if one does.
fn replacing(list: &[(u32, Node)], level: u32) -> Option<Node>
    requires { IsStrictlyIncreasing (map (λ p. p.0) list.now) }
    ensures { result ≡ image_of list.now level }
{
    let i = list.partition_point(|entry| entry.0 < level);
    let entry = list.get(i)?;
    if entry.0 == level {
        return Some(entry.1);
    }
    None
}

// Whether all levels of the list are less than this one.
fn are_below(list: &[(u32, Node)], level: u32) -> bool
    requires { IsStrictlyIncreasing (map (λ p. p.0) list.now) }
    ensures { IsTrue result → (l : ℕ) → level ≤ l → image_of list.now l ≡ None }
{
    match list.last() {
        Some(entry) => entry.0 < level,
        None => true,
    }
}
