// `ite` and `xor`, with a list of the calls that wait for the answers of their cofactors; the connectives by them.
ghost use Rattle.std.specs.Prelude.{◌≡◌, ◌≢◌, ◌⊎◌, not, ◌&&◌, ◌||◌, ◌+◌, ◌-◌, ◌<◌, ◌≤◌, ◌^◌, [], ◌∷◌, length, min, Err, OnErr, IfOk, IfSome, IfNone, true, false};
ghost use Rattle.cb_model.specs.Bits.{xor};
ghost use Rattle.cb_dd.specs.Diagram.{IsDiagram, IsNode, function_of, level_of, fulls_after};
ghost use Rattle.cb_ops.specs.Ops.{Grows, StandsFor, IsIte, IsXor, IsCofactor, Room, HasCause};
ghost use Rattle.cb_ops.specs.Makes.{Makes};
ghost use Rattle.cb_ops.specs.Waiting.{AreCalled, Asked, AskedHigh, Resumed, Waits, IsHalf, IsAnswered, IsOpen, IsPart, IsValue, bit_of, level_of_call, fulls_after_turn};

use crate::Ops;
use crate::memos::{else_side, then_side};
use cb_dd::{Node, Stop};

// For how many waiting calls a list has room at first: as many as an allocator gives at once.
const FIRST_PENDING: usize = 12;

// What a call asks for.
#[derive(Clone, Copy)]
pub(crate) enum Operation {
    Ite,
    Xor,
}

// A call: of `ite`, with the choice, what it is where the choice is 1, and what it is where the choice is 0; or of
// `xor`, with its two nodes and the constant 0.
#[derive(Clone, Copy)]
pub(crate) struct Choice {
    pub(crate) operation: Operation,
    pub(crate) f: Node,
    pub(crate) g: Node,
    pub(crate) h: Node,
}

// A call that waits for the answer of a cofactor.
#[derive(Clone, Copy)]
pub(crate) struct Pending {
    pub(crate) call: Choice,
    pub(crate) level: u32,
    pub(crate) left: Left,
}

// What a waiting call still has to do or has done already.
#[derive(Clone, Copy)]
pub(crate) enum Left {
    // It waits for the cofactor with the bit 0, and has to ask for this one with the bit 1.
    High(Choice),
    // It waits for the cofactor with the bit 1, and this is the answer of that with the bit 0.
    Low(Node),
}

// What comes next: a call, or its answer.
#[derive(Clone, Copy)]
pub(crate) enum Turn {
    Ask(Choice),
    Answer(Node),
}

impl Ops {
    /// The node that is g where f is 1, and h where f is 0.
    ///
    /// Operator `ite` of Brace, Rudell and Bryant (1990). Calls that wait for the answers of their cofactors stand in a
    /// list.
    pub fn ite(&mut self, f: Node, g: Node, h: Node) -> Result<Node, Stop>
        requires f { IsNode self.old.triples f.0 }
        requires g { IsNode self.old.triples g.0 }
        requires h { IsNode self.old.triples h.0 }
        ensures function { IfOk result (λ n. IsIte self.old.triples self.new.triples f.0 g.0 h.0 n.0) }
        ensures made { Makes (f.0 ∷ g.0 ∷ h.0 ∷ []) 1 self.old self.new result }
    {
        self.run(Choice {
            operation: Operation::Ite,
            f,
            g,
            h,
        })
    }

    // The answer of a call.
    fn run(&mut self, call: Choice) -> Result<Node, Stop>
        requires call { AreCalled self.old.triples call }
        ensures is_node { IfOk result (λ n. IsNode self.new.triples n.0) }
        ensures function { IfOk result (λ n. IsValue self.old.triples self.new.triples call n.0) }
        ensures grows { Grows self.old self.new }
        ensures room { Room (call.f.0 ∷ call.g.0 ∷ call.h.0 ∷ []) 1 self.old self.new }
        ensures full { result ≡ Err Stop.Nodes → length self.new.triples ≡ self.new.budget }
        ensures nodes { result ≡ Err Stop.Nodes → HasCause (call.f.0 ∷ call.g.0 ∷ call.h.0 ∷ []) 1 self.old self.new }
        ensures unbounded { self.old.budget ≡ 2 ^ 64 - 1 → result ≢ Err Stop.Nodes }
        ensures fulls { self.new.fulls ≡ fulls_after self.old.fulls result }
        ensures diagram { IsDiagram self.new.triples }
    {
        let _count = self.count();
        if let Some(r) = self.known(call) {
            return Ok(r);
        }
        let Ok(mut pending) = Vec::with_capacity(*self.memo.allocator(), FIRST_PENDING) else {
            return Err(Stop::Memory);
        };
        let mut turn = Turn::Ask(call);
        loop {
            match turn {
                Turn::Ask(call) => {
                    turn = self.ask(&mut pending, call)?;
                }
                Turn::Answer(r) => {
                    let Some(top) = pending.pop() else {
                        return Ok(r);
                    };
                    turn = self.resume(&mut pending, top, r)?;
                }
            }
        }
    }

    // Goes on with a call that isn't known: to its cofactor with the bit 0, or, where that is known, to the other one.
    fn ask(&mut self, pending: &mut Vec<Pending>, call: Choice) -> Result<Turn, Stop>
        requires call { AreCalled self.old.triples call }
        requires open { IsOpen call }
        ensures asked { IfOk result (Asked self.old self.new pending.old.items pending.new.items call) }
        ensures grows { Grows self.old self.new }
        ensures refused { OnErr result (self.new.triples ≡ self.old.triples) }
        ensures full { result ≡ Err Stop.Nodes → length self.new.triples ≡ self.new.budget }
        ensures unbounded { self.old.budget ≡ 2 ^ 64 - 1 → result ≢ Err Stop.Nodes }
        ensures fulls { self.new.fulls ≡ fulls_after_turn self.old.fulls result }
        ensures diagram { IsDiagram self.new.triples }
    {
        let _count = self.count();
        let level = self.least_level(call);
        let (low, high) = self.sides(call, level);
        if let Some(lo) = self.known(low) {
            return self.ask_high(pending, call, level as u32, lo, high);
        }
        let waiting = Pending {
            call,
            level: level as u32,
            left: Left::High(high),
        };
        let Ok(_) = pending.push(waiting) else {
            return Err(Stop::Memory);
        };
        Ok(Turn::Ask(low))
    }

    // Hands an answer to the call that waits for it: it goes on to its other cofactor, or has its own answer.
    fn resume(&mut self, pending: &mut Vec<Pending>, top: Pending, r: Node) -> Result<Turn, Stop>
        requires waits { Waits self.old.triples top }
        requires half { IsHalf self.old.triples top.level (bit_of top.left) top.call r.0 }
        ensures resumed { IfOk result (Resumed self.old self.new pending.old.items pending.new.items top) }
        ensures grows { Grows self.old self.new }
        ensures refused { OnErr result (self.new.triples ≡ self.old.triples) }
        ensures full { result ≡ Err Stop.Nodes → length self.new.triples ≡ self.new.budget }
        ensures unbounded { self.old.budget ≡ 2 ^ 64 - 1 → result ≢ Err Stop.Nodes }
        ensures fulls { self.new.fulls ≡ fulls_after_turn self.old.fulls result }
        ensures diagram { IsDiagram self.new.triples }
    {
        let _count = self.count();
        match top.left {
            Left::High(high) => self.ask_high(pending, top.call, top.level, r, high),
            Left::Low(lo) => {
                let n = self.close(top.call, top.level, lo, r)?;
                Ok(Turn::Answer(n))
            }
        }
    }

    // Goes on with a call whose cofactor with the bit 0 is answered: to the other one, or to its own answer where that
    // is known too.
    #[inline(always)]
    fn ask_high(
        &mut self,
        pending: &mut Vec<Pending>,
        call: Choice,
        level: u32,
        lo: Node,
        high: Choice,
    ) -> Result<Turn, Stop>
        requires waits { Waits self.old.triples (record { call = call; level = level; left = Left.Low lo }) }
        requires high { IsPart self.old.triples level true call high }
        ensures asked { IfOk result (AskedHigh self.old self.new pending.old.items pending.new.items call) }
        ensures grows { Grows self.old self.new }
        ensures refused { OnErr result (self.new.triples ≡ self.old.triples) }
        ensures full { result ≡ Err Stop.Nodes → length self.new.triples ≡ self.new.budget }
        ensures unbounded { self.old.budget ≡ 2 ^ 64 - 1 → result ≢ Err Stop.Nodes }
        ensures fulls { self.new.fulls ≡ fulls_after_turn self.old.fulls result }
        ensures diagram { IsDiagram self.new.triples }
    {
        let _count = self.count();
        if let Some(hi) = self.known(high) {
            let n = self.close(call, level, lo, hi)?;
            return Ok(Turn::Answer(n));
        }
        let waiting = Pending {
            call,
            level,
            left: Left::Low(lo),
        };
        let Ok(_) = pending.push(waiting) else {
            return Err(Stop::Memory);
        };
        Ok(Turn::Ask(high))
    }

    // The answer of a call, from the answers of its two cofactors.
    #[inline(always)]
    fn close(&mut self, call: Choice, level: u32, lo: Node, hi: Node) -> Result<Node, Stop>
        requires call { AreCalled self.old.triples call }
        requires lo { IsHalf self.old.triples level false call lo.0 }
        requires hi { IsHalf self.old.triples level true call hi.0 }
        ensures answered { IfOk result (λ n. IsAnswered self.new.triples call n.0) }
        ensures one { length self.new.triples ≤ length self.old.triples + 1 }
        ensures grows { Grows self.old self.new }
        ensures refused { OnErr result (self.new.triples ≡ self.old.triples) }
        ensures full { result ≡ Err Stop.Nodes → length self.new.triples ≡ self.new.budget }
        ensures unbounded { self.old.budget ≡ 2 ^ 64 - 1 → result ≢ Err Stop.Nodes }
        ensures fulls { self.new.fulls ≡ fulls_after self.old.fulls result }
        ensures diagram { IsDiagram self.new.triples }
    {
        let _count = self.count();
        let n = self.node(level, lo, hi)?;
        self.keep(call, n);
        Ok(n)
    }

    /// The node that is 1 where f is 0.
    pub fn not(&mut self, f: Node) -> Result<Node, Stop>
        requires { IsNode self.old.triples f.0 }
        ensures function { IfOk result (λ n. StandsFor self.new.triples n.0 (λ a.
            not (function_of self.old.triples f.0 a))) }
        ensures made { Makes (f.0 ∷ []) 1 self.old self.new result }
    {
        self.ite(f, Node::ZERO, Node::ONE)
    }

    /// The node that is 1 where both are.
    pub fn and(&mut self, f: Node, g: Node) -> Result<Node, Stop>
        requires f { IsNode self.old.triples f.0 }
        requires g { IsNode self.old.triples g.0 }
        ensures function { IfOk result (λ n. StandsFor self.new.triples n.0 (λ a.
            function_of self.old.triples f.0 a && function_of self.old.triples g.0 a)) }
        ensures made { Makes (f.0 ∷ g.0 ∷ []) 1 self.old self.new result }
    {
        self.ite(f, g, Node::ZERO)
    }

    /// The node that is 1 where one at least is.
    pub fn or(&mut self, f: Node, g: Node) -> Result<Node, Stop>
        requires f { IsNode self.old.triples f.0 }
        requires g { IsNode self.old.triples g.0 }
        ensures function { IfOk result (λ n. StandsFor self.new.triples n.0 (λ a.
            function_of self.old.triples f.0 a || function_of self.old.triples g.0 a)) }
        ensures made { Makes (f.0 ∷ g.0 ∷ []) 1 self.old self.new result }
    {
        self.ite(f, Node::ONE, g)
    }

    /// The node that is 1 where exactly one is.
    pub fn xor(&mut self, f: Node, g: Node) -> Result<Node, Stop>
        requires f { IsNode self.old.triples f.0 }
        requires g { IsNode self.old.triples g.0 }
        ensures function { IfOk result (λ n. StandsFor self.new.triples n.0 (λ a.
            xor (function_of self.old.triples f.0 a) (function_of self.old.triples g.0 a))) }
        ensures made { Makes (f.0 ∷ g.0 ∷ []) 2 self.old self.new result }
    {
        self.run(Choice {
            operation: Operation::Xor,
            f,
            g,
            h: Node::ZERO,
        })
    }

    // The level of a node, above all levels for the constants.
    pub(crate) fn level(&self, n: Node) -> u64
        requires { IsNode self.now.triples n.0 }
        ensures level { result ≡ level_of self.now.triples n.0 }
        ensures inner { 2 ≤ n.0 → result < 2 ^ 32 }
    {
        match self.dd.parts(n) {
            Some((level, _, _)) => level as u64,
            None => 1 << 32,
        }
    }

    // A node's functions with the two bits at a level that is at most the node's.
    fn cofactors(&self, n: Node, level: u64) -> (Node, Node)
        requires node { IsNode self.now.triples n.0 }
        requires level { level ≤ level_of self.now.triples n.0 }
        requires small { level < 2 ^ 32 }
        ensures lo { IsCofactor self.now.triples n.0 level false result.0.0 }
        ensures hi { IsCofactor self.now.triples n.0 level true result.1.0 }
    {
        let _count = self.count();
        match self.dd.parts(n) {
            Some((at, lo, hi)) if at as u64 == level => (lo, hi),
            _ => (n, n),
        }
    }

    // The call with the two bits at a level that is at most those of its nodes.
    fn sides(&self, call: Choice, level: u64) -> (Choice, Choice)
        requires call { AreCalled self.now.triples call }
        requires level { level ≤ level_of_call self.now.triples call }
        requires small { level < 2 ^ 32 }
        ensures low { IsPart self.now.triples level false call result.0 }
        ensures high { IsPart self.now.triples level true call result.1 }
    {
        let operation = call.operation;
        let (f0, f1) = self.cofactors(call.f, level);
        let (g0, g1) = self.cofactors(call.g, level);
        let (h0, h1) = self.cofactors(call.h, level);
        let low = Choice {
            operation,
            f: f0,
            g: g0,
            h: h0,
        };
        let high = Choice {
            operation,
            f: f1,
            g: g1,
            h: h1,
        };
        (low, high)
    }

    // The least level on which the nodes of a call depend.
    fn least_level(&self, call: Choice) -> u64
        requires call { AreCalled self.now.triples call }
        requires inner { (2 ≤ call.f.0) ⊎ (2 ≤ call.g.0) }
        ensures least { result ≡ level_of_call self.now.triples call }
        ensures small { result < 2 ^ 32 }
    {
        self.level(call.f)
            .min(self.level(call.g))
            .min(self.level(call.h))
    }

    // The answer of a call that needs no work.
    #[inline(always)]
    fn known(&self, call: Choice) -> Option<Node>
        requires call { AreCalled self.now.triples call }
        ensures answered { IfSome result (λ r. IsAnswered self.now.triples call r.0) }
        ensures inner { IfNone result ((2 ≤ call.f.0) ⊎ (2 ≤ call.g.0)) }
    {
        match call.operation {
            Operation::Ite => self.known_ite(call.f, call.g, call.h),
            Operation::Xor => self.known_xor(call.f, call.g),
        }
    }

    // Keeps the answer of a call, where it fits.
    fn keep(&mut self, call: Choice, r: Node)
        requires call { AreCalled self.old.triples call }
        requires answered { IsAnswered self.old.triples call r.0 }
        ensures same { self.new ≡ self.old }
    {
        match call.operation {
            Operation::Ite => self.note(call.f, call.g, call.h, r),
            Operation::Xor => self.note_pair(call.f, call.g, r),
        }
    }

    // The answer of a call of `xor` that needs no work: the nodes are the same, one is 0, or it was made before.
    fn known_xor(&self, f: Node, g: Node) -> Option<Node>
        requires f { IsNode self.now.triples f.0 }
        requires g { IsNode self.now.triples g.0 }
        ensures node { IfSome result (λ r. IsNode self.now.triples r.0) }
        ensures xor { IfSome result (λ r. IsXor self.now.triples self.now.triples f.0 g.0 r.0) }
        ensures inner { IfNone result ((2 ≤ f.0) ⊎ (2 ≤ g.0)) }
    {
        let _count = self.count();
        if f.0 == g.0 {
            return Some(Node::ZERO);
        }
        if f.0 == 0 {
            return Some(g);
        }
        if g.0 == 0 {
            return Some(f);
        }
        self.recall_pair(f, g)
    }

    // The answer of a call of `ite` that needs no work: the choice or the two sides are plain, or it was made before.
    fn known_ite(&self, f: Node, g: Node, h: Node) -> Option<Node>
        requires f { IsNode self.now.triples f.0 }
        requires g { IsNode self.now.triples g.0 }
        requires h { IsNode self.now.triples h.0 }
        ensures node { IfSome result (λ r. IsNode self.now.triples r.0) }
        ensures ite { IfSome result (λ r. IsIte self.now.triples self.now.triples f.0 g.0 h.0 r.0) }
        ensures inner { IfNone result (2 ≤ f.0) }
    {
        if f.0 == 1 {
            return Some(g);
        }
        if f.0 == 0 {
            return Some(h);
        }
        if g.0 == h.0 {
            return Some(g);
        }
        let then_side = then_side(f, g);
        let else_side = else_side(f, h);
        if then_side.0 == 1 && else_side.0 == 0 {
            return Some(f);
        }
        self.recall(f, g, h)
    }
}
