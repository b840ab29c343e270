//! The branch of the derivation that runs: its goals, those among them that wait, its equations as terms over Boolean
//! variables, and the way back to any earlier moment.
#![tactic(auto)]

ghost use Rattle.std.specs.Prelude.{◌≡◌, ℕ, ◌+◌, ◌<◌, ◌≤◌, ◌^◌, List, [], ◌∷◌, length, map, Some, None, Ok, Err, IfOk, IfSome, IfNone, OnOk, true, false, slice_get};
ghost use Rattle.cb_model.specs.declared.Tree.{Tree};
ghost use Rattle.cb_model.specs.declared.Goal.{Goal};
ghost use Rattle.cb_model.specs.declared.Goal.TheVariants as goal;
ghost use Rattle.cb_model.specs.declared.Clause.{Clause};
ghost use Rattle.cb_model.specs.Program.{bools, first_clause, next_clause};
ghost use Rattle.cb_model.specs.Equations.{Refuted, Pair};
ghost use Rattle.cb_model.specs.Derivation.{Branch, extended, first_branch, is_demon, Ready, resolved};
ghost use Rattle.cb_branch.specs.Running.{AtMoment, GoesOn, HasRoom, IsBranch, IsCall, IsAt, IsFirst, IsPrinted, IsResolvable, Keeps, Place, Seen, Starts, WantsNodes, behind, moment_of, OfClause, program_of, query_of, unbegun, with_fulls, fulls_of, work_of};
ghost use Rattle.cb_model.specs.Output.{printed_from};
ghost use Rattle.cb_branch.specs.Scope.{IsRunnable};
ghost use Rattle.cb_branch.specs.Accepted.{AcceptedCanRun};
ghost use Rattle.cb_branch.specs.Laws.{BranchHasItsValues, LoanKeepsTheBranch};

mod additions;
mod delays;
mod terms;
mod waking;

use cb_dd::Stop;
use cb_goals::{Goals, Pending};
use cb_heap::Ref;
use cb_model::{Goal, Sort};
use cb_ready::Parked;
use cb_sorts::{Program, Query};
use cb_unify::{Frame, State, StateMark};
use cb_wake::{Waiting, WakeMark};
use std::alloc::{AllocError, Global};
use std::marker::Model;

/// What the first goal of a branch is.
#[derive(Clone, Copy, PartialEq, Eq, Debug, Drop)]
pub enum First {
    /// There is none: the branch is an answer.
    Nothing,
    True,
    Fail,
    /// An equation.
    Equal,
    /// A call of a predicate, by its number.
    Call(u32),
}

/// A call whose arguments are in cells, behind the cell of the call.
#[derive(Clone, Copy, PartialEq, Eq, Debug, Drop)]
pub struct Call(pub usize);

/// A running branch of a query over a program.
#[derive(Drop)]
pub struct Running<'p, 's, 'q> {
    program: &'p Program<'s>,
    query: &'p Query<'q>,
    /// The terms. Who borrows them leaves them as they were, but for the count of refusals for nodes, as an `undo` to the
    /// moment of the loan does: then the branch is the same (`loan_keeps_the_branch`).
    pub state: State,
    // The variables of the query, and of each clause that was renamed.
    frames: Vec<Frame>,
    goals: Goals,
    // The list of goals that it goes on with.
    top: usize,
    steps: u32,
    // The calls that were parked, by number, and which of them still wait.
    waits: Waiting,
    parked: Vec<Parked>,
}

impl<'p, 's, 'q> Model for Running<'p, 's, 'q> {
    ghost use Rattle.cb_branch.specs.Running.{Seen};
    ghost use Rattle.std.specs.Coded.{codes};
    ghost use Rattle.cb_model.specs.contracts.Clause as clause;
    ghost use Rattle.cb_model.specs.contracts.Goal as goal;

    ghost Value = { Seen };

    ghost coded = { Prim.hlevel (codes, clause.the_row.coded, goal.the_row.coded) };

    ghost view = { λ r. record { program = r.program.now; query = r.query.now; state = r.state; frames = r.frames.items; links = r.goals; top = r.top; steps = r.steps; waits = r.waits; parked = r.parked.items } };
}

/// A moment of a branch, to which `undo` goes back.
#[derive(Clone, Copy)]
pub struct Mark {
    state: StateMark,
    frames: usize,
    links: usize,
    top: usize,
    steps: u32,
    waits: WakeMark,
    parked: usize,
}

impl Model for Mark {
    ghost use Rattle.cb_branch.specs.Running.{Moment};

    ghost Value = { Moment };

    ghost view = { λ m. record { state = m.state; frames = m.frames; links = m.links; top = m.top; steps = m.steps; waits = m.waits; parked = m.parked } };

    ghost inverse = { λ m. record { state = m.state; frames = m.frames; links = m.links; top = m.top; steps = m.steps; waits = m.waits; parked = m.parked } };
}

impl<'p, 's, 'q> Running<'p, 's, 'q> {
    /// A branch of the query that has not begun: it has neither variables nor goals. It may hold so many nodes.
    pub fn new(
        alloc: Global,
        program: &'p Program<'s>,
        query: &'p Query<'q>,
        nodes: usize,
    ) -> Result<Running<'p, 's, 'q>, AllocError>
        ensures { IfOk result (λ r. r ≡ unbegun program.now query.now nodes) }
    {
        let state = State::new(alloc, program.constants(), nodes)?;
        Ok(Running {
            program,
            query,
            state,
            frames: Vec::new(alloc),
            goals: Goals::new(alloc),
            top: 0,
            steps: 0,
            waits: Waiting::new(alloc),
            parked: Vec::new(alloc),
        })
    }

    /// The moment, to which a later `undo` can return. It takes no memory.
    pub fn mark(&self) -> Mark
        requires { (b : Branch) × IsBranch self.now b }
        ensures { result ≡ moment_of self.now }
    {
        Mark {
            state: self.state.mark(),
            frames: self.frames.len(),
            links: self.goals.mark(),
            top: self.top,
            steps: self.steps,
            waits: self.waits.mark(),
            parked: self.parked.len(),
        }
    }

    /// Goes back to a moment at which the branch was this one. It takes no memory.
    pub fn undo(&mut self, to: Mark)
        requires { (s : Seen) × (b : Branch) × IsBranch s b × (to ≡ moment_of s) × Keeps s self.old }
        ensures back { AtMoment to self.old (λ s. self.new ≡ with_fulls (fulls_of self.old) s) }
    {
        self.state.undo(to.state);
        self.frames.truncate(to.frames);
        self.goals.undo(to.links);
        self.top = to.top;
        self.steps = to.steps;
        self.waits.undo(to.waits);
        self.parked.truncate(to.parked);
    }

    /// How many equation steps the branch has taken, at most 1,000,000.
    pub fn steps(&self) -> usize
        ensures count { (b : Branch) → IsBranch self.now b → result ≡ b.steps }
        ensures few { result < 2 ^ 32 }
    {
        self.steps as usize
    }

    /// How many constants and Boolean variables there are.
    pub fn variables(&self) -> usize
        ensures count { (b : Branch) → IsBranch self.now b → result ≡ (program_of self.now).constants + bools b.sorts }
        ensures few { result < 2 ^ 32 }
    {
        self.state.store_ref().drawn() as usize
    }

    /// The cell of the variable that is printed in this place, counted from 0. `None` past the last.
    pub fn variable(&self, place: u32) -> Option<Ref>
        requires { (b : Branch) × IsBranch self.now b }
        ensures some { IfSome result (λ r. IsPrinted self.now place r.0) }
        ensures none { IfNone result (slice_get (printed_from 0 self.now.query.variables) place ≡ None) }
    {
        let (number, _) = self.query.printed(place)?;
        Some(self.frames[0].get(number))
    }

    /// The first clause of a predicate; `None` where it has none.
    pub fn first_clause(&self, pred: u32) -> Option<u32>
        requires { (args : List Tree) × Starts self.now (goal.Call pred args) }
        ensures { result ≡ first_clause (program_of self.now) pred }
    {
        self.program.first(pred)
    }

    /// The next clause of the same predicate; `None` where there is none.
    pub fn next_clause(&self, clause: u32) -> Option<u32>
        requires { clause < length (program_of self.now).clauses }
        ensures { OfClause self.now clause (λ c. result ≡ next_clause (program_of self.now) c.pred clause) }
    {
        self.program.after(clause)
    }
}

/// A branch whose state was lent, and left as it was but for the count of refusals, is the branch that it was.
pub fn loan_keeps_the_branch()
    ensures { LoanKeepsTheBranch }
{}

/// The values that the terms of a branch can have together are the solutions of its equations.
pub fn branch_has_its_values()
    ensures { BranchHasItsValues }
{}

/// The program of an accepted file and an accepted query over it can be run, where no goal is a circuit's or a demon's.
pub fn accepted_can_run()
    ensures { AcceptedCanRun }
{}
