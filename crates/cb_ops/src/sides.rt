// The two sides of a level, joined: cofactors, and quantification over the level.
ghost use Rattle.std.specs.Prelude.{◌≡◌, ◌≢◌, ◌&&◌, ◌||◌, ◌+◌, ◌-◌, ◌<◌, ◌≤◌, ◌^◌, [], ◌∷◌, length, Ok, Err, IfOk, OnOk, false, true};
ghost use Rattle.cb_model.specs.Bits.{put};
ghost use Rattle.cb_dd.specs.Diagram.{IsDiagram, IsNode, function_of, fulls_after};
ghost use Rattle.cb_ops.specs.Ops.{Grows, StandsFor, Room, HasCause};
ghost use Rattle.cb_ops.specs.Makes.{Makes};
ghost use Rattle.cb_ops.specs.Walk.{AllMade, IsMadeSide, IsVisit, IsStill, WentDown, WentUp, joined, joins, side_of, sides_of, fulls_after_step};

use crate::Ops;
use crate::walk::{Rest, Step, Visit, recall_in, remember};
use cb_dd::{Node, Stop};
use indexmap::IndexMap;

// What becomes of the two sides of a level: one of them, or what is 1 where either or where both are.
#[derive(Clone, Copy)]
pub(crate) enum Sides {
    Low,
    High,
    Either,
    Both,
}

impl Ops {
    /// The node with that bit at the level: a cofactor.
    pub fn restrict(&mut self, f: Node, level: u32, bit: bool) -> Result<Node, Stop>
        requires { IsNode self.old.triples f.0 }
        ensures function { IfOk result (λ n. StandsFor self.new.triples n.0 (λ a.
            function_of self.old.triples f.0 (put level bit a))) }
        ensures made { Makes (f.0 ∷ []) 1 self.old self.new result }
    {
        if bit {
            return self.join_sides(f, level, Sides::High);
        }
        self.join_sides(f, level, Sides::Low)
    }

    /// The node that is 1 where the node is for some bit at the level.
    pub fn exists(&mut self, f: Node, level: u32) -> Result<Node, Stop>
        requires { IsNode self.old.triples f.0 }
        ensures function { IfOk result (λ n. StandsFor self.new.triples n.0 (λ a.
            function_of self.old.triples f.0 (put level false a)
            || function_of self.old.triples f.0 (put level true a))) }
        ensures made { Makes (f.0 ∷ []) 3 self.old self.new result }
    {
        self.join_sides(f, level, Sides::Either)
    }

    /// The node that is 1 where the node is for both bits at the level.
    pub fn for_all(&mut self, f: Node, level: u32) -> Result<Node, Stop>
        requires { IsNode self.old.triples f.0 }
        ensures function { IfOk result (λ n. StandsFor self.new.triples n.0 (λ a.
            function_of self.old.triples f.0 (put level false a)
            && function_of self.old.triples f.0 (put level true a))) }
        ensures made { Makes (f.0 ∷ []) 1 self.old self.new result }
    {
        self.join_sides(f, level, Sides::Both)
    }

    // The two sides of the level, joined, by one walk.
    fn join_sides(&mut self, f: Node, level: u32, sides: Sides) -> Result<Node, Stop>
        requires node { IsNode self.old.triples f.0 }
        ensures is_node { IfOk result (λ n. IsNode self.new.triples n.0) }
        ensures function { IfOk result (λ n. StandsFor self.new.triples n.0
            (sides_of level sides self.old.triples f.0)) }
        ensures grows { Grows self.old self.new }
        ensures room { Room (f.0 ∷ []) 1 self.old self.new }
        ensures full { result ≡ Err Stop.Nodes → length self.new.triples ≡ self.new.budget }
        ensures nodes { result ≡ Err Stop.Nodes → HasCause (f.0 ∷ []) 1 self.old self.new }
        ensures unbounded { self.old.budget ≡ 2 ^ 64 - 1 → result ≢ Err Stop.Nodes }
        ensures fulls { self.new.fulls ≡ fulls_after self.old.fulls result }
        ensures diagram { IsDiagram self.new.triples }
    {
        let _count = self.count();
        let alloc = *self.memo.allocator();
        let mut done = IndexMap::new(alloc);
        let mut waiting = Vec::new(alloc);
        let mut step = Step::Down(f);
        loop {
            match step {
                Step::Down(n) => {
                    step = self.enter(&mut waiting, &done, n, level, sides)?;
                }
                Step::Up(r) => {
                    let Some(top) = waiting.pop() else {
                        return Ok(r);
                    };
                    step = self.leave(&mut waiting, &mut done, top, r, level, sides)?;
                }
            }
        }
    }

    // Answers a node, or puts it on the list and goes on with its side with the bit 0.
    fn enter(
        &mut self,
        waiting: &mut Vec<Visit>,
        done: &IndexMap<Node, Node>,
        n: Node,
        level: u32,
        sides: Sides,
    ) -> Result<Step, Stop>
        requires node { IsNode self.old.triples n.0 }
        requires done { AllMade (sides_of level sides) done.now self.old.triples }
        ensures down { IfOk result (WentDown (sides_of level sides) level self.new.triples waiting.old.items waiting.new.items n) }
        ensures still { IfOk result (IsStill self.old self.new) }
        ensures grows { Grows self.old self.new }
        ensures room { Room (n.0 ∷ []) 1 self.old self.new }
        ensures full { result ≡ Err Stop.Nodes → length self.new.triples ≡ self.new.budget }
        ensures unbounded { self.old.budget ≡ 2 ^ 64 - 1 → result ≢ Err Stop.Nodes }
        ensures fulls { self.new.fulls ≡ fulls_after_step self.old.fulls result }
        ensures diagram { IsDiagram self.new.triples }
    {
        let _count = self.count();
        let Some((at, lo, hi)) = self.parts(n) else {
            return Ok(Step::Up(n));
        };
        if level < at {
            return Ok(Step::Up(n));
        }
        if level == at {
            let r = self.meet(lo, hi, sides)?;
            return Ok(Step::Up(r));
        }
        if let Some(r) = recall_in(done, n) {
            return Ok(Step::Up(r));
        }
        let visit = Visit {
            node: n,
            level: at,
            rest: Rest::High(hi),
        };
        let Ok(_) = waiting.push(visit) else {
            return Err(Stop::Memory);
        };
        Ok(Step::Down(lo))
    }

    // Hands an answer to the node that waits for it: its other side comes next, or it has its own answer. The level
    // and the sides say in the contract what the walk makes of a node.
    fn leave(
        &mut self,
        waiting: &mut Vec<Visit>,
        done: &mut IndexMap<Node, Node>,
        top: Visit,
        r: Node,
        level: u32,
        sides: Sides,
    ) -> Result<Step, Stop>
        requires visit { IsVisit (sides_of level sides) level self.old.triples top }
        requires side { IsMadeSide (sides_of level sides) self.old.triples top.node.0 top.level (side_of top.rest) r.0 }
        requires done { AllMade (sides_of level sides) done.old self.old.triples }
        ensures up { IfOk result (WentUp (sides_of level sides) level self.new.triples waiting.old.items waiting.new.items top) }
        ensures done { OnOk result (AllMade (sides_of level sides) done.new self.new.triples) }
        ensures grows { Grows self.old self.new }
        ensures one { length self.new.triples ≤ length self.old.triples + joins top.rest }
        ensures full { result ≡ Err Stop.Nodes → length self.new.triples ≡ self.new.budget }
        ensures unbounded { self.old.budget ≡ 2 ^ 64 - 1 → result ≢ Err Stop.Nodes }
        ensures fulls { self.new.fulls ≡ fulls_after_step self.old.fulls result }
        ensures diagram { IsDiagram self.new.triples }
    {
        let _count = self.count();
        let _walk = (level, sides);
        match top.rest {
            Rest::High(high) => {
                let visit = Visit {
                    rest: Rest::Low(r),
                    ..top
                };
                let Ok(_) = waiting.push(visit) else {
                    return Err(Stop::Memory);
                };
                Ok(Step::Down(high))
            }
            Rest::Low(low) => {
                let n = self.node(top.level, low, r)?;
                remember(done, top.node, n);
                Ok(Step::Up(n))
            }
        }
    }

    // The two sides, joined.
    fn meet(&mut self, low: Node, high: Node, sides: Sides) -> Result<Node, Stop>
        requires low { IsNode self.old.triples low.0 }
        requires high { IsNode self.old.triples high.0 }
        ensures is_node { IfOk result (λ n. IsNode self.new.triples n.0) }
        ensures function { IfOk result (λ n. StandsFor self.new.triples n.0 (λ a.
            joined sides (function_of self.old.triples low.0 a) (function_of self.old.triples high.0 a))) }
        ensures grows { Grows self.old self.new }
        ensures room { Room (low.0 ∷ high.0 ∷ []) 1 self.old self.new }
        ensures full { result ≡ Err Stop.Nodes → length self.new.triples ≡ self.new.budget }
        ensures unbounded { self.old.budget ≡ 2 ^ 64 - 1 → result ≢ Err Stop.Nodes }
        ensures fulls { self.new.fulls ≡ fulls_after self.old.fulls result }
        ensures diagram { IsDiagram self.new.triples }
    {
        let _count = self.count();
        match sides {
            Sides::Low => Ok(low),
            Sides::High => Ok(high),
            Sides::Either => self.or(low, high),
            Sides::Both => self.and(low, high),
        }
    }
}
