//! Waking: after an equation the waiting goals that are now ready go in front of the others.

ghost use Rattle.std.specs.Prelude.{◌≡◌, ℕ, ◌<◌, ◌≤◌, length, Err, IfOk, OnOk};
ghost use Rattle.cb_model.specs.Bits.{Each};
ghost use Rattle.cb_model.specs.Derivation.{Branch};
ghost use Rattle.cb_goals.specs.Chain.{KeepsLists};
ghost use Rattle.cb_branch.specs.Running.{IsBranch, IsPut, Keeps, OnBranch, Wakes, program_of};

use crate::Running;
use cb_dd::Stop;
use cb_goals::{Goals, Pending};
use cb_ready::{Parked, take_woken};
use std::alloc::AllocError;

impl<'p, 's, 'q> Running<'p, 's, 'q> {
    /// Puts the waiting goals that are now ready in front of the others, in order of number. Where no goal was parked
    /// nothing is asked. After a refusal the branch is of use only to go back.
    pub(crate) fn wake(&mut self) -> Result<(), Stop>
        requires { (b : Branch) × IsBranch self.old b }
        ensures wakes { OnOk result (OnBranch self.old (Wakes (program_of self.old) self.new)) }
        ensures keeps { Keeps self.old self.new }
        ensures memory { result ≡ Err Stop.Nodes → ⊥ }
    {
        if self.parked.is_empty() {
            return Ok(());
        }
        let woken = match take_woken(
            *self.parked.allocator(),
            &self.state,
            self.program,
            self.query,
            self.parked.as_slice(),
            &mut self.waits,
        ) {
            Ok(woken) => woken,
            Err(stop) => return Err(stop),
        };
        let list = put_in_front(
            &mut self.goals,
            self.parked.as_slice(),
            woken.as_slice(),
            self.top,
        );
        drop(woken);
        match list {
            Ok(list) => {
                self.top = list;
                Ok(())
            }
            Err(_) => Err(Stop::Memory),
        }
    }
}

// The list with the parked calls of these numbers in front, in this order. After want of memory some may stand in lists of
// their own.
fn put_in_front(
    goals: &mut Goals,
    parked: &[Parked],
    numbers: &[usize],
    rest: usize,
) -> Result<usize, AllocError>
    requires rest { rest ≤ length goals.old }
    requires numbers { Each (λ k. k < length parked.now) numbers.now }
    ensures pushed { IfOk result (IsPut parked.now numbers.now goals.old rest goals.new) }
    ensures keeps { KeepsLists goals.old goals.new }
{
    let mut list = rest;
    for place in (0..numbers.len()).rev() {
        let call = &parked[numbers[place]];
        let goal = Pending::Called {
            pred: call.pred,
            call: call.call,
        };
        list = goals.push(goal, list)?;
    }
    Ok(list)
}
