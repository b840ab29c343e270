//! Boolean variables over shared decision diagrams: equations are solved by Boole's elimination (1854), with the most
//! general solution in its reproductive form (Löwenheim 1908; Büttner and Simonis 1987).
#![tactic(auto)]

ghost use Rattle.std.specs.Prelude.{◌≡◌, ℕ, Bool, true, false, ◌+◌, ◌-◌, ◌*◌, ◌<◌, ◌≤◌, ◌^◌, ◌↔◌, length, map, take, drop, slice_index_or, slice_get, Some, None, Ok, Err, IfOk, OnOk, OnErr, IsTrue, EachIndex, Contains, slice_index};
ghost use Rattle.std.specs.List.Sorted.{IsStrictlyIncreasing};
ghost use Rattle.cb_model.specs.Bits.{Bits, Each};
ghost use Rattle.cb_dd.specs.Diagram.{Store as Nodes, IsNode, function_of, fulls_after};
ghost use Rattle.cb_ops.specs.Ops.{Grows, StandsFor};
ghost use Rattle.cb_ops.specs.Substitute.{AreNodes};
ghost use Rattle.cb_ops.specs.Composed.{AreLower};
ghost use Rattle.std.specs.Option.{option_map};
ghost use Rattle.cb_solution.specs.Solution.{has_refused};
ghost use Rattle.cb_elim.specs.Store.{Seen, AddsNode, HasOneValue, HasSameBits, HasSameRange, IsArgument, IsAsBefore, IsHeld, IsNewVariable, IsOfConstants, IsStore, KeepsArguments, OnlyNodes, empty, value_in, view_of, with_nodes};
ghost use Rattle.cb_model.specs.Values.{in_scope};
ghost use Rattle.std.specs.Borrow.{sem};
ghost use Rattle.cb_elim.specs.Lending.{LendsOps};
ghost use Rattle.cb_elim.specs.Laws.{MayBeChosen, MayBeDecided, NoneIsRefuted, RangeGrows, SolvedIsSolvable, live_levels};
ghost use Rattle.cb_elim.specs.Expression.{AreLevels, ExprCause, ExprRoom, HasValueOf};
ghost use Rattle.cb_elim.specs.Equation.{AreMoved, GeneralRoom, MovedRoom};
ghost use Rattle.cb_ops.specs.Support.{IsListed};
ghost use Rattle.cb_elim.specs.Unified.{AreApart, HasCause, IsMostGeneral, IsReproductive, IsUnified, OnlyValues, UnifyCause};
ghost use Rattle.cb_elim.specs.Moments.{Moment, GivesBack, HasChanged, IsMoment, KeepsMoments, StillKeeps, moment_of, reverted, rewritten_since, undone};

mod equation;
mod expression;
mod pairs;
mod parts;
mod watch;

use cb_dd::{DdMark, Node, Stop};
use cb_model::Expr;
use cb_ops::Ops;
use cb_trail::{Trail, Uses};
use equation::most_general;
use expression::expression;
use std::alloc::{AllocError, Global};
use std::marker::Model;
use watch::{dependents, note, rewrite, watch};

/// A slot of a store, by its number. A variable's number is that of its slot.
#[derive(Clone, Copy, PartialEq, Eq, Debug)]
pub struct Slot(pub usize);

/// A free level, and the slot of the variable that it stands for.
#[derive(Clone, Copy, PartialEq, Eq, Debug)]
pub struct Free {
    pub level: u32,
    pub slot: usize,
}

/// A slot that was rewritten, and the value that it had.
#[derive(Clone, Copy, PartialEq, Eq, Debug)]
pub struct Change {
    pub slot: usize,
    pub value: Node,
}

/// Constants, free levels and slots; each slot has a value over the constants and the free levels. Constant k has
/// level k. A variable draws one level, which stands for it for good: after an equation that eliminates the level,
/// the level is the parameter of the variable's most general value.
#[derive(Drop)]
pub struct Store {
    ops: Ops,
    constants: u32,
    drawn: u32,
    free: Vec<Free>,
    slots: Vec<Node>,
    trail: Trail<Change>,
    // Which slots may depend on which free level, if the operations were not lent since it was noted.
    uses: Uses,
    lent: bool,
}

impl Model for Store {
    ghost use Rattle.cb_elim.specs.Store.{Seen};
    ghost use Rattle.cb_elim.specs.Watch.{IsWatched};

    ghost Value = { Seen };

    ghost view = { λ s. record { constants = s.constants; drawn = s.drawn; free = s.free.items; slots = s.slots.items; trail = s.trail; nodes = s.ops } };

    ghost invariant = { λ s. IsWatched s.lent s.ops.triples s.constants s.slots.items s.trail s.uses };
}

/// A moment of a store, to which `undo` goes back.
#[derive(Clone, Copy)]
pub struct StoreMark {
    nodes: DdMark,
    drawn: u32,
    free: usize,
    slots: usize,
    trail: u64,
}

impl Model for StoreMark {
    ghost use Rattle.cb_elim.specs.Moments.{Moment};

    ghost Value = { Moment };

    ghost view = { λ m. record { nodes = m.nodes; drawn = m.drawn; free = m.free; slots = m.slots; trail = m.trail } };

    ghost inverse = { λ m. record { nodes = m.nodes; drawn = m.drawn; free = m.free; slots = m.slots; trail = m.trail } };
}

impl Store {
    /// A store with these constants, without variables, that will hold at most `budget` nodes.
    pub fn new(alloc: Global, constants: u32, budget: usize) -> Result<Store, AllocError>
        ensures new { IfOk result (λ s. s ≡ empty constants budget) }
        ensures store { IfOk result (λ s. IsStore s) }
    {
        let ops = Ops::new(alloc, budget)?;
        Ok(Store {
            ops,
            constants,
            drawn: constants,
            free: Vec::new(alloc),
            slots: Vec::new(alloc),
            trail: Trail::new(alloc),
            uses: Uses::new(alloc),
            lent: false,
        })
    }

    /// The number of constants.
    pub fn constants(&self) -> u32
        ensures { result ≡ self.now.constants }
    {
        self.constants
    }

    /// The number of levels drawn, the constants included: the next level.
    pub fn drawn(&self) -> u32
        ensures { result ≡ self.now.drawn }
    {
        self.drawn
    }

    /// The free levels with their variables, in the order of making.
    pub fn free(&self) -> &[Free]
        ensures { result.now ≡ self.now.free }
    {
        &self.free
    }

    /// The operations, for reading.
    pub fn read(&self) -> &Ops
        ensures { result.now ≡ self.now.nodes }
    {
        &self.ops
    }

    /// The operations. Who borrows them leaves the budget and the nodes that stood at lending, each in its place, and
    /// lets the count of refusals not fall: then the store is one again, and each moment is kept.
    pub fn ops(&mut self) -> &mut Ops
        ensures* writes_back { sem 𝓛 (LendsOps self.entry result) }
        ensures value { result.now ≡ self.old.nodes }
    {
        self.lent = true;
        &mut self.ops
    }

    /// The value of a slot.
    pub fn value(&self, s: Slot) -> Node
        requires store { IsStore self.now }
        requires slot { s.0 < length self.now.slots }
        ensures value { result ≡ slice_index_or self.now.slots s.0 result }
        ensures function { function_of self.now.nodes.triples result.0 ≡ value_in self.now.nodes.triples self.now.slots s.0 }
        ensures argument { IsArgument self.now result.0 }
    {
        self.slots[s.0]
    }

    /// The node of a constant.
    ///
    /// After a stop the store is as before, but for its count of refusals for nodes.
    pub fn constant(&mut self, k: u32) -> Result<Node, Stop>
        requires store { IsStore self.old }
        requires constant { k < self.old.constants }
        ensures function { IfOk result (λ n. StandsFor self.new.nodes.triples n.0 (λ p. p k)) }
        ensures argument { IfOk result (λ n. IsArgument self.new n.0) }
        ensures only_nodes { OnlyNodes self.old self.new }
        ensures as_before { OnErr result (IsAsBefore self.old self.new) }
        ensures moments { KeepsMoments self.old self.new }
        ensures store { IsStore self.new }
        ensures one { length self.new.nodes.triples ≤ length self.old.nodes.triples + 1 }
        ensures nodes { result ≡ Err Stop.Nodes → length self.new.nodes.triples ≡ self.new.nodes.budget }
        ensures cause { result ≡ Err Stop.Nodes → HasCause self.old self.new 1 }
        ensures fulls { self.new.nodes.fulls ≡ fulls_after self.old.nodes.fulls result }
    {
        let n = self.ops.node(k, Node::ZERO, Node::ONE)?;
        Ok(n)
    }

    /// The node of an expression. A variable has the value of its slot; one that has none counts as 0.
    ///
    /// After a stop the store is as before, but for its count of refusals for nodes.
    pub fn expr(&mut self, e: &Expr, vars: &[Option<Slot>]) -> Result<Node, Stop>
        requires store { IsStore self.old }
        requires scope { in_scope self.old.constants (length vars.now) e.now ≡ true }
        ensures function { IfOk result (λ n. HasValueOf self.old self.new vars.now e.now n.0) }
        ensures argument { IfOk result (λ n. IsArgument self.new n.0) }
        ensures only_nodes { OnlyNodes self.old self.new }
        ensures as_before { OnErr result (IsAsBefore self.old self.new) }
        ensures moments { KeepsMoments self.old self.new }
        ensures store { IsStore self.new }
        ensures room { ExprRoom self.old.slots (length vars.now) e.now self.old.nodes self.new.nodes }
        ensures cause { result ≡ Err Stop.Nodes → ExprCause self.old self.new e.now }
        ensures fulls { self.new.nodes.fulls ≡ fulls_after self.old.nodes.fulls result }
    {
        let before = self.ops.mark();
        match expression(&mut self.ops, &self.slots, vars, e) {
            Ok(n) => Ok(n),
            Err(stop) => {
                self.ops.cut(before);
                Err(stop)
            }
        }
    }

    /// A slot with this value.
    pub fn hold(&mut self, f: Node) -> Result<Slot, AllocError>
        requires store { IsStore self.old }
        requires argument { IsArgument self.old f.0 }
        ensures held { IfOk result (λ s. IsHeld self.old self.new f s.0) }
        ensures refused { OnErr result (self.new ≡ self.old) }
        ensures range { OnOk result (HasSameRange (view_of self.old) (view_of self.new)) }
        ensures stays { OnOk result (AddsNode self.old self.new f.0) }
        ensures arguments { OnOk result (KeepsArguments self.old self.new) }
        ensures moments { KeepsMoments self.old self.new }
        ensures store { IsStore self.new }
    {
        let slot = self.slots.len();
        note(
            &self.ops,
            self.constants,
            &mut self.uses,
            Node::ZERO,
            f,
            slot,
            0,
        )?;
        self.slots.push(f)?;
        Ok(Slot(slot))
    }

    /// The moment, to which a later `undo` can return. It takes no memory.
    pub fn mark(&self) -> StoreMark
        requires { IsStore self.now }
        ensures moment { result ≡ moment_of self.now }
        ensures is_moment { IsMoment result self.now }
        ensures now { reverted result self.now ≡ self.now }
    {
        StoreMark {
            nodes: self.ops.mark(),
            drawn: self.drawn,
            free: self.free.len(),
            slots: self.slots.len(),
            trail: self.trail.mark(),
        }
    }

    /// Goes back to a moment: levels, slots and their values, and nodes are what they were. It takes no memory.
    pub fn undo(&mut self, to: StoreMark)
        requires store { IsStore self.old }
        requires moment { IsMoment to self.old }
        ensures reverted { self.new ≡ reverted to self.old }
        ensures back { GivesBack to self.old self.new }
        ensures moments { StillKeeps to self.old self.new }
        ensures store { IsStore self.new }
    {
        restore(&mut self.trail, &mut self.slots, to.trail);
        self.slots.truncate(to.slots);
        self.free.truncate(to.free);
        self.drawn = to.drawn;
        self.ops.cut(to.nodes);
        self.uses.cut(to.slots, to.trail);
    }

    /// The k-th, from 0, of the slots that equations rewrote since the moment and no undo has taken back, in order of
    /// rewriting; a slot may be there more than once. `None` past the last. It takes no memory.
    pub fn rewritten(&self, since: StoreMark, k: u64) -> Option<Slot>
        requires { IsMoment since self.now }
        ensures listed { option_map (λ s. s.0) result ≡ slice_get (rewritten_since since self.now) k }
        ensures whole { (x : ℕ) → HasChanged since self.now x → Contains (rewritten_since since self.now) x }
    {
        let made = self.trail.mark() - since.trail;
        if made <= k {
            return None;
        }
        match self.trail.get(since.trail + k) {
            Some(change) => Some(Slot(change.slot)),
            None => None,
        }
    }

    /// Whether the node depends on no free level.
    pub fn known(&self, f: Node) -> Result<bool, AllocError>
        requires { IsNode self.now.nodes.triples f.0 }
        ensures { IfOk result (λ b. IsTrue b ↔ IsOfConstants self.now f.0) }
    {
        let support = self.ops.support(f)?;
        let known = are_below(support.as_slice(), self.constants);
        Ok(known)
    }

    /// The bit of a constant node; `None` where the node isn't constant. It takes no memory.
    pub fn is_const(&self, f: Node) -> Option<bool>
        requires { IsNode self.now.nodes.triples f.0 }
        ensures { (b : Bool) → (result ≡ Some b) ↔ ((p : Bits) → function_of self.now.nodes.triples f.0 p ≡ b) }
    {
        let _count = self.ops.count();
        match f.0 {
            0 => Some(false),
            1 => Some(true),
            _ => None,
        }
    }

    /// Draws so many levels that stand for no variable, and gives the first. They are drawn until an undo.
    pub fn draw(&mut self, count: u32) -> u32
        requires store { IsStore self.old }
        requires levels { self.old.drawn + count < 2 ^ 32 }
        ensures first { result ≡ self.old.drawn }
        ensures drawn { self.new ≡ record self.old { drawn = self.old.drawn + count } }
        ensures arguments { KeepsArguments self.old self.new }
        ensures moments { KeepsMoments self.old self.new }
        ensures store { IsStore self.new }
    {
        let first = self.drawn;
        self.drawn = first + count;
        first
    }

    /// A fresh free variable, in the next slot, at the next level.
    ///
    /// After a refusal the store is as before, but for its count of refusals for nodes.
    pub fn variable(&mut self) -> Result<Slot, Stop>
        requires store { IsStore self.old }
        requires level { self.old.drawn + 1 < 2 ^ 32 }
        ensures slot { IfOk result (λ s. IsNewVariable self.old self.new s.0) }
        ensures as_before { OnErr result (IsAsBefore self.old self.new) }
        ensures moments { KeepsMoments self.old self.new }
        ensures store { IsStore self.new }
        ensures one { length self.new.nodes.triples ≤ length self.old.nodes.triples + 1 }
        ensures fulls { self.new.nodes.fulls ≡ has_refused self.old.nodes.fulls result }
        ensures nodes { result ≡ Err Stop.Nodes → self.old.nodes.budget ≡ length self.old.nodes.triples }
        ensures cause { result ≡ Err Stop.Nodes → HasCause self.old self.new 1 }
    {
        let before = self.ops.mark();
        let level = self.drawn;
        let slot = self.slots.len();
        let node = self.ops.node(level, Node::ZERO, Node::ONE)?;
        let Ok(()) = note(
            &self.ops,
            self.constants,
            &mut self.uses,
            Node::ZERO,
            node,
            slot,
            0,
        ) else {
            self.ops.cut(before);
            return Err(Stop::Memory);
        };
        if self.slots.push(node).is_err() {
            self.ops.cut(before);
            return Err(Stop::Memory);
        }
        if self.free.push(Free { level, slot }).is_err() {
            self.slots.truncate(slot);
            self.ops.cut(before);
            return Err(Stop::Memory);
        }
        self.drawn = level + 1;
        Ok(Slot(slot))
    }

    /// Adds the equation f = g, and says whether it can be solved with those before. Then the slots' values are the
    /// most general ones again. After `Ok(false)` and after a stop the store is as before, but for its count of refusals
    /// for nodes.
    ///
    /// Elimination (Boole 1854) of the free levels on which the equation depends, the greatest first.
    pub fn unify(&mut self, f: Node, g: Node) -> Result<bool, Stop>
        requires store { IsStore self.old }
        requires f { IsArgument self.old f.0 }
        requires g { IsArgument self.old g.0 }
        ensures unified { result ≡ Ok true → IsUnified self.old self.new f.0 g.0 }
        ensures none { result ≡ Ok false → AreApart self.old f.0 g.0 }
        ensures as_before { (result ≡ Ok true → ⊥) → IsAsBefore self.old self.new }
        ensures same_node { f ≡ g → (result ≡ Ok true) × (self.new ≡ self.old) }
        ensures room { GeneralRoom self.old.slots f.0 g.0 self.old.nodes self.new.nodes }
        ensures nodes { result ≡ Err Stop.Nodes → UnifyCause self.old self.new f.0 g.0 }
        ensures fulls { self.new.nodes.fulls ≡ has_refused self.old.nodes.fulls result }
        ensures moments { KeepsMoments self.old self.new }
        ensures store { IsStore self.new }
    {
        if f.0 == g.0 {
            return Ok(true);
        }
        let before = self.ops.mark();
        match self.solve(f, g) {
            Ok(true) => Ok(true),
            Ok(false) => {
                self.ops.cut(before);
                Ok(false)
            }
            Err(stop) => {
                self.ops.cut(before);
                Err(stop)
            }
        }
    }

    // The same; but where it doesn't answer `Ok(true)`, new nodes may be left.
    fn solve(&mut self, f: Node, g: Node) -> Result<bool, Stop>
        requires store { IsStore self.old }
        requires f { IsArgument self.old f.0 }
        requires g { IsArgument self.old g.0 }
        ensures unified { result ≡ Ok true → IsUnified self.old self.new f.0 g.0 }
        ensures none { result ≡ Ok false → AreApart self.old f.0 g.0 }
        ensures store { result ≡ Ok true → IsStore self.new }
        ensures only_nodes { (result ≡ Ok true → ⊥) → OnlyNodes self.old self.new }
        ensures room { GeneralRoom self.old.slots f.0 g.0 self.old.nodes self.new.nodes }
        ensures full { result ≡ Err Stop.Nodes → length self.new.nodes.triples ≡ self.new.nodes.budget }
        ensures fulls { self.new.nodes.fulls ≡ has_refused self.old.nodes.fulls result }
    {
        let alloc = *self.slots.allocator();
        let found = most_general(alloc, &mut self.ops, self.constants, f, g)?;
        let Some(images) = found else {
            return Ok(false);
        };
        self.put_in(&images)?;
        Ok(true)
    }

    // Puts the images into the values of all slots. After a stop the slots and the trail are as before.
    fn put_in(&mut self, images: &[(u32, Node)]) -> Result<(), Stop>
        requires store { IsStore self.old }
        requires nodes { AreNodes self.old.nodes.triples images.now }
        requires rise { IsStrictlyIncreasing (map (λ p. p.0) images.now) }
        requires lower { AreLower self.old.nodes.triples images.now }
        requires free { (l : ℕ) → IsListed (map (λ i. i.0) images.now) l → self.old.constants ≤ l }
        ensures moved { OnOk result (AreMoved self.old.nodes.triples self.new.nodes.triples images.now self.old.slots self.new.slots) }
        ensures values { OnOk result (OnlyValues self.old self.new) }
        ensures changed { OnOk result (Each (λ c. IsNode self.new.nodes.triples c.value.0) self.new.trail) }
        ensures only_nodes { OnErr result (OnlyNodes self.old self.new) }
        ensures room { MovedRoom self.old.slots images.now self.old.nodes self.new.nodes }
        ensures full { result ≡ Err Stop.Nodes → length self.new.nodes.triples ≡ self.new.nodes.budget }
        ensures fulls { self.new.nodes.fulls ≡ has_refused self.old.nodes.fulls result }
    {
        let alloc = *self.slots.allocator();
        let Ok(()) = watch(
            alloc,
            &self.ops,
            self.constants,
            &self.slots,
            &self.trail,
            &mut self.uses,
            self.lent,
        ) else {
            return Err(Stop::Memory);
        };
        self.lent = false;
        let Ok(at) = dependents(alloc, &self.uses, images, self.slots.len()) else {
            return Err(Stop::Memory);
        };
        let start = self.trail.mark();
        match rewrite(
            &mut self.ops,
            self.constants,
            &mut self.slots,
            &mut self.trail,
            &mut self.uses,
            images,
            at.as_slice(),
        ) {
            Ok(()) => Ok(()),
            Err(stop) => {
                restore(&mut self.trail, &mut self.slots, start);
                self.uses.cut(self.slots.len(), start);
                Err(stop)
            }
        }
    }
}

// Gives the slots the values that they had at the mark, and takes back the changes past it.
fn restore(trail: &mut Trail<Change>, slots: &mut [Node], to: u64)
    requires mark { to ≤ length trail.old }
    requires within { Each (λ c. c.slot < length slots.old) trail.old }
    ensures trail { trail.new ≡ take to trail.old }
    ensures slots { slots.new ≡ undone (drop to trail.old) slots.old }
{
    'back: while let Some(change) = trail.undo_next(to) {
        slots[change.slot] = change.value;
    }
}

// Whether all numbers are below the bound.
fn are_below(numbers: &[u32], bound: u32) -> bool
    ensures { IsTrue result ↔ EachIndex numbers.now (λ k. slice_index numbers.now k < bound) }
{
    numbers.iter().all(|number| *number < bound)
}

/// What a store's values are worth. Giving each free level the bit of its variable gives each pair of the range back:
/// Boole's solution in its reproductive form (Löwenheim 1908). So each solution in the algebra, over any longer list of
/// constants too, is an instance of the values.
pub fn values_are_most_general()
    ensures reproductive { (s : Seen) → IsStore s → IsReproductive (view_of s) }
    ensures most_general { (s : Seen) → IsStore s → IsMostGeneral (view_of s) }
{}

/// What the range of a store is worth: it is exactly the pairs that satisfy the equations so far. So a list of equations
/// whose last was solved is solvable at every assignment, and one whose last had no solution is refuted.
pub fn range_is_of_the_equations()
    ensures grows { RangeGrows }
    ensures solvable { SolvedIsSolvable }
    ensures refuted { NoneIsRefuted }
{}

/// The values of the slots depend on the levels of the constants and the free levels alone. So a bound over the levels on
/// which the slots depend holds with as many as there are constants and variables.
pub fn values_depend_on_live_levels()
    ensures { (s : Seen) → IsStore s → AreLevels s.nodes.triples s.constants s.slots (live_levels s) }
{}

/// A store to which nodes alone were added is one, with the same range and the same bits of its slots; each node that could
/// be handed to it still can, and so can each new node whose bit is a function of the bits of such nodes, however many;
/// and each moment is kept: what who borrows the operations owes, and gets. The value of a node that may be handed to a
/// store is the same at all bits of the levels that give one pair of the range.
pub fn loans_are_safe()
    ensures store { (s : Seen) (t : Nodes) → IsStore s → Grows s.nodes t → IsStore (record s { nodes = t }) }
    ensures range { (s : Seen) (t : Nodes) → IsStore s → Grows s.nodes t → HasSameRange (view_of s) (view_of (with_nodes t s)) }
    ensures bits { (s : Seen) (t : Nodes) → IsStore s → Grows s.nodes t → HasSameBits s (with_nodes t s) }
    ensures arguments { (s : Seen) (t : Nodes) → IsStore s → Grows s.nodes t → KeepsArguments s (with_nodes t s) }
    ensures functions { (s : Seen) (t : Nodes) → IsStore s → Grows s.nodes t → MayBeDecided s t }
    ensures choices { (s : Seen) (t : Nodes) → IsStore s → Grows s.nodes t → MayBeChosen s t }
    ensures values { (s : Seen) (n : ℕ) → IsStore s → IsArgument s n → HasOneValue s n }
    ensures moments { (s : Seen) (t : Nodes) → Grows s.nodes t → KeepsMoments s (record s { nodes = t }) }
{}
