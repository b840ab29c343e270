//! Goals that wait: whether the first goal may run, and how it is put aside.

ghost use Rattle.std.specs.Prelude.{◌≡◌, ◌↔◌, ℕ, ◌<◌, ◌≤◌, List, length, Ok, Err, IfOk, IfSome, IfNone, IsTrue, OnOk, true, false};
ghost use Rattle.cb_model.specs.declared.Tree.{Tree};
ghost use Rattle.cb_model.specs.declared.Goal.TheVariants as goal;
ghost use Rattle.cb_model.specs.Derivation.{Branch, Ready, waits};
ghost use Rattle.cb_branch.specs.Running.{IsBranch, IsWaiting, IsCelled, Keeps, OnCall, OnCells, OnFirst, Starts, StartsInCells, WantsNodes, calls_of, program_of, work_of};

use crate::{First, Running};
use cb_dd::Stop;
use cb_goals::Pending;
use cb_heap::Ref;
use cb_model::Goal;
use cb_ready::{Parked, is_delayed, is_ready};
use std::alloc::AllocError;

impl<'p, 's, 'q> Running<'p, 's, 'q> {
    /// Whether the first goal, a call, may run now. The arguments of a delayed call are put into cells for this, where they
    /// stay.
    pub fn ready(&mut self) -> Result<bool, Stop>
        requires first { (pred : ℕ) × (args : List Tree) × Starts self.old (goal.Call pred args) }
        ensures yes { result ≡ Ok true → OnFirst self.old (λ b g. Ready (program_of self.old) b.items g) }
        ensures no { result ≡ Ok false → OnFirst self.old (λ b g. Ready (program_of self.old) b.items g → ⊥) }
        ensures branch { OnOk result ((b : Branch) → IsBranch self.old b → IsBranch self.new b) }
        ensures work { OnOk result (work_of self.new ≤ work_of self.old) }
        ensures keeps { Keeps self.old self.new }
        ensures nodes { result ≡ Err Stop.Nodes → (b : Branch) → IsBranch self.old b → WantsNodes self.old self.new b }
    {
        if self.runs_at_once() {
            return Ok(true);
        }
        let (pred, call) = self.in_cells()?;
        match self.is_call_ready(pred, call) {
            Ok(ready) => Ok(ready),
            Err(_) => Err(Stop::Memory),
        }
    }

    /// Lets the first goal, a call, wait with the next number.
    pub fn park(&mut self) -> Result<(), Stop>
        requires first { (pred : ℕ) × (args : List Tree) × Starts self.old (goal.Call pred args) }
        ensures parked { OnOk result (OnCall self.old (λ b pred args. IsBranch self.new (waits b (goal.Call pred args)))) }
        ensures work { OnOk result (work_of self.new < work_of self.old) }
        ensures keeps { Keeps self.old self.new }
        ensures nodes { result ≡ Err Stop.Nodes → (b : Branch) → IsBranch self.old b → WantsNodes self.old self.new b }
    {
        let (pred, call) = self.in_cells()?;
        match self.put_aside(pred, call) {
            Ok(()) => Ok(()),
            Err(_) => Err(Stop::Memory),
        }
    }

    /// The k-th waiting goal by number, from 0: its predicate, and the cells of its arguments. `None` past the last.
    pub fn waiting(&self, k: usize) -> Option<(u32, &[Ref])>
        requires { (b : Branch) × IsBranch self.now b }
        ensures some { IfSome result (λ r. IsWaiting self.now k r.0 r.1.now) }
        ensures none { IfNone result (length (calls_of self.now) ≤ k) }
    {
        let number = self.waits.waiting(k)?;
        let call = &self.parked[number];
        Some((call.pred, call.args.as_slice()))
    }

    // Whether the first goal, a call, is of a name without a delay: as far as its place in the text tells.
    fn runs_at_once(&self) -> bool
        requires first { (pred : ℕ) × (args : List Tree) × Starts self.now (goal.Call pred args) }
        ensures { result ≡ true → OnFirst self.now (λ b g. Ready (program_of self.now) b.items g) }
    {
        let Some((pending, _)) = self.goals.first(self.top) else {
            unreachable!()
        };
        if let Pending::Called { .. } = pending {
            return false;
        }
        let written = self.written(pending);
        let Goal::Call(pred, args) = written.goal else {
            unreachable!()
        };
        !is_delayed(self.program, *pred, args.len())
    }

    // Puts the arguments of the first goal, a call, into cells, and leaves it in front: its predicate, and its cell.
    fn in_cells(&mut self) -> Result<(u32, Ref), Stop>
        requires first { (pred : ℕ) × (args : List Tree) × Starts self.old (goal.Call pred args) }
        ensures called { IfOk result (λ r. IsCelled self.old self.new r.0 r.1.0) }
        ensures keeps { Keeps self.old self.new }
        ensures nodes { result ≡ Err Stop.Nodes → (b : Branch) → IsBranch self.old b → WantsNodes self.old self.new b }
    {
        let First::Call(pred) = self.first() else {
            unreachable!()
        };
        let call = self.call()?;
        let goal = Pending::Called {
            pred,
            call: Ref(call.0),
        };
        match self.goals.push(goal, self.top) {
            Ok(list) => {
                self.top = list;
                Ok((pred, Ref(call.0)))
            }
            Err(_) => Err(Stop::Memory),
        }
    }

    // Whether the first goal, a call in cells, is ready.
    fn is_call_ready(&self, pred: u32, call: Ref) -> Result<bool, AllocError>
        requires { StartsInCells self.now pred call.0 }
        ensures { IfOk result (λ x. OnCells self.now pred call.0 (λ b g. IsTrue x ↔ Ready (program_of self.now) b.items g)) }
    {
        let parked = Parked::new(*self.parked.allocator(), &self.state, pred, call)?;
        let ready = is_ready(&self.state, self.program, pred, parked.args.as_slice());
        drop(parked);
        ready
    }

    // Takes the first goal, a call in cells, away, and lets it wait with the next number.
    fn put_aside(&mut self, pred: u32, call: Ref) -> Result<(), AllocError>
        requires { StartsInCells self.old pred call.0 }
        ensures parked { OnOk result (OnCells self.old pred call.0 (λ b g. IsBranch self.new (waits b g))) }
        ensures keeps { Keeps self.old self.new }
    {
        let Some((_, rest)) = self.goals.first(self.top) else {
            unreachable!()
        };
        let parked = Parked::new(*self.parked.allocator(), &self.state, pred, call)?;
        let Ok(()) = self.parked.push(parked) else {
            return Err(AllocError);
        };
        let Ok(_) = self.waits.park(&[]) else {
            return Err(AllocError);
        };
        self.top = rest;
        Ok(())
    }
}
