//! The goals of a branch, and what taking one adds.

ghost use Rattle.std.specs.Prelude.{◌≡◌, ℕ, ◌+◌, ◌<◌, ◌≤◌, ◌^◌, List, [], ◌∷◌, length, map, take, Some, Ok, Err, IfOk, OnOk, true, false, slice_get};
ghost use Rattle.cb_model.specs.declared.Tree.{Tree};
ghost use Rattle.cb_model.specs.declared.Goal.{Goal};
ghost use Rattle.cb_model.specs.declared.Goal.TheVariants as goal;
ghost use Rattle.cb_model.specs.declared.Clause.{Clause};
ghost use Rattle.cb_model.specs.declared.Sort.{Sort};
ghost use Rattle.cb_model.specs.Program.{bools};
ghost use Rattle.cb_model.specs.Equations.{Refuted, Pair};
ghost use Rattle.cb_model.specs.Derivation.{Branch, extended, first_branch, resolved};
ghost use Rattle.cb_goals.specs.Chain.{goals_at};
ghost use Rattle.cb_branch.specs.Running.{GoesOn, HasRoom, IsAt, IsBranch, IsCall, IsFirst, IsResolvable, Keeps, OfClause, OnCall, OnClause, OnEquation, IsUnsolvable, OnGoal, OnResolution, Place, Starts, WantsNodes, asked_goals, behind, program_of, query_of, unbegun, work_of};
ghost use Rattle.cb_branch.specs.Scope.{IsRunnable};

use crate::terms::{compound, equated, renamed};
use crate::{Call, First, Running};
use cb_dd::Stop;
use cb_goals::{Goals, Pending};
use cb_heap::Ref;
use cb_items::variables;
use cb_model::{Goal, Sort};
use cb_sorts::Program;
use std::alloc::AllocError;

// A goal as it stands in the text, and the number of the frame of its variables.
#[derive(Clone, Copy, Drop)]
pub(crate) struct Written<'p> {
    pub(crate) goal: &'p Goal,
    pub(crate) frame: usize,
}

impl<'p, 's, 'q> Running<'p, 's, 'q> {
    /// Makes the variables of the query, and puts its goals in place. After a refusal the branch has not begun.
    pub fn begin(&mut self) -> Result<(), Stop>
        requires unbegun { (nodes : ℕ) × (self.old ≡ unbegun self.old.program self.old.query nodes) }
        requires runnable { IsRunnable self.old.program self.old.query }
        requires room { (program_of self.old).constants + bools (query_of self.old).sorts ≤ 4096 }
        ensures begun { OnOk result (IsBranch self.new (first_branch (query_of self.old))) }
        ensures keeps { Keeps self.old self.new }
        ensures nodes { result ≡ Err Stop.Nodes → WantsNodes self.old self.new (first_branch (query_of self.old)) }
    {
        let query = self.query;
        let frame = variables(&mut self.state, query.sorts())?;
        let Ok(()) = self.frames.push(frame) else {
            return Err(Stop::Memory);
        };
        match asked(&mut self.goals, query.goals().len() as u32) {
            Ok(list) => {
                self.top = list;
                Ok(())
            }
            Err(_) => Err(Stop::Memory),
        }
    }

    /// What the first goal is.
    pub fn first(&self) -> First
        requires { (b : Branch) × IsBranch self.now b }
        ensures { (b : Branch) → IsBranch self.now b → IsFirst result b.goals }
    {
        let Some((pending, _)) = self.goals.first(self.top) else {
            return First::Nothing;
        };
        if let Pending::Called { pred, .. } = pending {
            return First::Call(pred);
        }
        let written = self.written(pending);
        match written.goal {
            Goal::True => First::True,
            Goal::Fail => First::Fail,
            Goal::Equal(_, _) => First::Equal,
            Goal::Call(pred, _) => First::Call(*pred),
            Goal::Circuit(_, _, _) => unreachable!(),
        }
    }

    /// Takes the first goal away.
    pub fn skip(&mut self)
        requires { (g : Goal) × Starts self.old g }
        ensures branch { OnGoal self.old (IsBranch self.new) }
        ensures work { work_of self.new < work_of self.old }
        ensures keeps { Keeps self.old self.new }
    {
        let Some((_, rest)) = self.goals.first(self.top) else {
            unreachable!()
        };
        self.top = rest;
    }

    /// Takes the first goal, an equation, away and adds it; the waiting goals that are then ready go in front. `Ok(false)`
    /// comes where it has no solution together with those before; then, and after a refusal, the branch is of use only to
    /// go back.
    pub fn equate(&mut self) -> Result<bool, Stop>
        requires first { (l r : Tree) × Starts self.old (goal.Equal l r) }
        requires room { HasRoom self.old 0 }
        ensures yes { result ≡ Ok true → OnEquation self.old (GoesOn (program_of self.old) self.new) }
        ensures no { result ≡ Ok false → OnEquation self.old (IsUnsolvable (program_of self.old)) }
        ensures work { result ≡ Ok true → work_of self.new < work_of self.old }
        ensures keeps { Keeps self.old self.new }
        ensures nodes { result ≡ Err Stop.Nodes → OnEquation self.old (WantsNodes self.old self.new) }
    {
        let Some((pending, rest)) = self.goals.first(self.top) else {
            unreachable!()
        };
        let written = self.written(pending);
        let Goal::Equal(left, right) = written.goal else {
            unreachable!()
        };
        let frame = &self.frames[written.frame];
        match equated(&mut self.state, left, right, frame) {
            Ok(true) => {
                self.top = rest;
                self.steps += 1;
                match self.wake() {
                    Ok(()) => Ok(true),
                    Err(stop) => Err(stop),
                }
            }
            Ok(false) => Ok(false),
            Err(stop) => Err(stop),
        }
    }

    /// Takes the first goal, a call, away and puts its arguments into cells, where they aren't there yet.
    pub fn call(&mut self) -> Result<Call, Stop>
        requires first { (pred : ℕ) × (args : List Tree) × Starts self.old (goal.Call pred args) }
        ensures branch { IfOk result (λ c. OnCall self.old (λ b k xs. IsBranch self.new b × IsCall self.new c.0 k xs)) }
        ensures keeps { Keeps self.old self.new }
        ensures nodes { result ≡ Err Stop.Nodes → (b : Branch) → IsBranch self.old b → WantsNodes self.old self.new b }
    {
        let Some((pending, rest)) = self.goals.first(self.top) else {
            unreachable!()
        };
        if let Pending::Called { call, .. } = pending {
            self.top = rest;
            return Ok(Call(call.0));
        }
        let written = self.written(pending);
        let Goal::Call(pred, args) = written.goal else {
            unreachable!()
        };
        let frame = &self.frames[written.frame];
        match compound(&mut self.state, *pred, args.as_slice(), frame) {
            Ok(cell) => {
                self.top = rest;
                Ok(Call(cell.0))
            }
            Err(stop) => Err(stop),
        }
    }

    /// Renames a clause apart, adds that its head is the call, and puts its body in front of the goals, and in front of
    /// those the waiting goals that are then ready. `Ok(false)` comes where head and call have no solution together with
    /// the equations before; then, and after a refusal, the branch is of use only to go back.
    pub fn resolve(&mut self, clause: u32, call: Call) -> Result<bool, Stop>
        requires { IsResolvable self.old clause call.0 }
        ensures yes { result ≡ Ok true → OnResolution self.old clause call.0 (GoesOn (program_of self.old) self.new) }
        ensures no { result ≡ Ok false → OnResolution self.old clause call.0 (IsUnsolvable (program_of self.old)) }
        ensures keeps { Keeps self.old self.new }
        ensures nodes { result ≡ Err Stop.Nodes → OnClause self.old clause call.0 (WantsNodes self.old self.new) }
    {
        let program: &'p Program<'s> = self.program;
        let view = program.clause(clause);
        let frame = match renamed(
            &mut self.state,
            view.sorts,
            view.pred,
            view.head,
            Ref(call.0),
        ) {
            Ok(Some(frame)) => frame,
            Ok(None) => return Ok(false),
            Err(stop) => return Err(stop),
        };
        let number = self.frames.len();
        let Ok(()) = self.frames.push(frame) else {
            return Err(Stop::Memory);
        };
        match self
            .goals
            .push_body(clause, number, view.body.len() as u32, self.top)
        {
            Ok(list) => {
                self.top = list;
                self.steps += 1;
                match self.wake() {
                    Ok(()) => Ok(true),
                    Err(stop) => Err(stop),
                }
            }
            Err(_) => Err(Stop::Memory),
        }
    }

    /// How many constants, and Boolean variables of the query, there are.
    pub fn query_variables(&self) -> usize
        ensures count { result ≡ (program_of self.now).constants + bools (query_of self.now).sorts }
    {
        self.program.constants() as usize + booleans(self.query.sorts())
    }

    /// How many Boolean variables a clause has.
    pub fn clause_variables(&self, clause: u32) -> usize
        requires { clause < length (program_of self.now).clauses }
        ensures count { OfClause self.now clause (λ c. result ≡ bools c.sorts) }
        ensures few { result < 2 ^ 63 }
    {
        booleans(self.program.clause(clause).sorts)
    }

    // A goal as it stands in the text.
    pub(crate) fn written(&self, pending: Pending) -> Written<'p>
        requires { (w : Place) × IsAt self.now pending w }
        ensures { (w : Place) → IsAt self.now pending w → (result.goal.now ≡ w.goal) × (result.frame ≡ w.frame) }
    {
        match pending {
            Pending::Asked { place } => {
                let goals = self.query.goals();
                Written {
                    goal: &goals[place as usize],
                    frame: 0,
                }
            }
            Pending::Body {
                clause,
                place,
                frame,
            } => {
                let program: &'p Program<'s> = self.program;
                let body = program.clause(clause).body;
                Written {
                    goal: &body[place as usize],
                    frame,
                }
            }
            Pending::Called { .. } => unreachable!(),
        }
    }
}

// The list of a query's goals, so many.
fn asked(goals: &mut Goals, count: u32) -> Result<usize, AllocError>
    requires none { goals.old ≡ [] }
    ensures asked { IfOk result (λ r. (r ≤ length goals.new) × (goals_at goals.new r ≡ asked_goals 0 count)) }
{
    let mut list = 0;
    for place in (0..count).rev() {
        list = goals.push(Pending::Asked { place }, list)?;
    }
    Ok(list)
}

// How many of the sorts are Boolean.
fn booleans(sorts: &[Sort]) -> usize
    ensures count { result ≡ bools sorts.now }
    ensures few { result < 2 ^ 63 }
{
    let mut count = 0;
    for sort in sorts {
        if *sort == Sort::Bool {
            count += 1;
        }
    }
    count
}
