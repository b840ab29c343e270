//! Which of the calls that were parked are ready.

ghost use Rattle.std.specs.Prelude.{◌≡◌, ◌↔◌, ℕ, ◌+◌, ◌-◌, ◌^◌, ◌≤◌, length, min, Ok, Err, IfOk, OnOk, IsTrue};
ghost use Rattle.cb_wake.specs.Moments.{KeepsMoments};
ghost use Rattle.cb_ready.specs.Asking.{IsAskable, TakesReady, asking};

use crate::Parked;
use crate::delayed::all_hold;
use cb_dd::Stop;
use cb_sorts::{Program, Query};
use cb_unify::State;
use cb_wake::{Tester, Waiting, take_all};
use std::alloc::Global;
use std::marker::Model;

/// Asks of parked calls whether they are ready, over a state that stays.
#[derive(Drop)]
pub struct Asks<'a, 'p, 's, 'q> {
    state: &'a State,
    program: &'p Program<'s>,
    query: &'p Query<'q>,
    parked: &'a [Parked],
    // How many calls were asked about, or the greatest number there is.
    tests: u64,
}

impl<'a, 'p, 's, 'q> Model for Asks<'a, 'p, 's, 'q> {
    ghost use Rattle.std.specs.Coded.{codes};
    ghost use Rattle.cb_model.specs.contracts.Clause as clause;
    ghost use Rattle.cb_model.specs.contracts.Goal as goal;
    ghost use Rattle.cb_ready.specs.Asking.{Asking, IsAskable};

    ghost Value = { Asking };

    ghost coded = { Prim.hlevel (codes, clause.the_row.coded, goal.the_row.coded) };

    ghost view = { λ a. record { state = a.state.now; program = a.program.now; query = a.query.now; parked = a.parked.now; tests = a.tests } };

    ghost invariant = { λ a. IsAskable a.state.now a.program.now a.query.now a.parked.now };
}

impl<'a, 'p, 's, 'q> Asks<'a, 'p, 's, 'q> {
    /// Asks of these calls, the first of which has number 0.
    pub fn new(
        state: &'a State,
        program: &'p Program<'s>,
        query: &'p Query<'q>,
        parked: &'a [Parked],
    ) -> Asks<'a, 'p, 's, 'q>
        requires { IsAskable state.now program.now query.now parked.now }
        ensures { result ≡ asking state.now program.now query.now parked.now }
    {
        Asks {
            state,
            program,
            query,
            parked,
            tests: 0,
        }
    }
}

impl<'a, 'p, 's, 'q> Tester for Asks<'a, 'p, 's, 'q> {
    ghost use Rattle.cb_ready.specs.Asking.{IsReadyAt, IsSameAsking, same-asking, same-then, ready-back, ready-on};

    ghost is_ready = { IsReadyAt };

    ghost keeps = { IsSameAsking };

    ghost tests = { λ a. a.tests };

    ghost stops = { λ a. 0 };

    ghost may_stop = { λ a. ⊥ };

    ghost keeps_self = { same-asking };

    ghost keeps_then = { same-then };

    ghost same_ready = { ready-back };

    ghost ready_same = { ready-on };

    ghost same_stop = { λ s t k h. h };

    fn ready(&mut self, goal: usize) -> Result<bool, Stop> {
        self.tests = self.tests.saturating_add(1);
        if goal >= self.parked.len() {
            return Ok(false);
        }
        let call = &self.parked[goal];
        match all_hold(self.state, self.program, call.pred, call.args.as_slice()) {
            Ok(ready) => Ok(ready),
            Err(_) => Err(Stop::Memory),
        }
    }
}

/// Takes the waiting calls that are ready, in order of number. It is refused only for want of memory; then some may be
/// taken, and an `undo` puts them back.
pub fn take_woken(
    alloc: Global,
    state: &State,
    program: &Program<'_>,
    query: &Query<'_>,
    parked: &[Parked],
    waits: &mut Waiting,
) -> Result<Vec<usize>, Stop>
    requires { IsAskable state.now program.now query.now parked.now }
    ensures parted { IfOk result (λ ks. TakesReady state.now program.now query.now parked.now waits.old ks.items waits.new) }
    ensures parked { length waits.new.still ≡ length waits.old.still }
    ensures moments { KeepsMoments waits.old waits.new }
    ensures memory { result ≡ Err Stop.Nodes → ⊥ }
{
    let mut woken = Vec::new(alloc);
    let mut asks = Asks::new(state, program, query, parked);
    take_all(waits, &mut asks, &mut woken)?;
    Ok(woken)
}
