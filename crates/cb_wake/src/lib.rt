//! Goals that wait: which goals were parked and which of them still wait, by number, with the way back to an earlier
//! moment. The goals themselves, and what makes one ready, are the caller's (coroutines by delayed goals: Carlsson 1987).
#![tactic(auto)]

ghost use Rattle.std.specs.Prelude.{◌≡◌, ◌↔◌, ℕ, ◌+◌, ◌-◌, ◌^◌, ◌<◌, ◌≤◌, true, Some, min, [], ◌∷◌, ◌++◌, length, take, drop, Ok, Err, IfOk, IfSome, OnOk, OnErr, IsTrue, slice_get};
ghost use Rattle.cb_model.specs.Bits.{Parts};
ghost use Rattle.cb_model.specs.Outside.{Rose};
ghost use Rattle.cb_wake.specs.Waits.{AsksOnce, IsLeast, IsScanned, IsTaken, Waits, no_goals, waiting};
ghost use Rattle.cb_wake.specs.Moments.{IsMoment, KeepsMoments, moment_of, put_back, reverted};

use cb_dd::Stop;
use cb_trail::Trail;
use std::alloc::{AllocError, Global};
use std::marker::Model;

/// What a goal may watch: a slot of the Boolean variables, or a cell of the terms, by its number.
#[derive(Clone, Copy, PartialEq, Eq, Debug)]
pub enum Watch {
    Slot(usize),
    Cell(usize),
}

/// Tells of each waiting goal whether it is ready.
pub trait Tester {
    // whether a goal is ready
    ghost is_ready: { Self → ℕ → Type 0 };

    // the kept meaning is the same
    ghost keeps: { Self → Self → Type 0 };

    // how many tests were made
    ghost tests: { Self → ℕ };

    // how many node stops came
    ghost stops: { Self → ℕ };

    // whether a node stop may come
    ghost may_stop: { Self → Type 0 };

    /// Whether the goal of this number is ready. Asking changes that for no goal. It is refused where a test wants more
    /// nodes or more memory than there is.
    fn ready(&mut self, goal: usize) -> Result<bool, Stop>
        ensures answer { IfOk result (λ b. IsTrue b ↔ is_ready self.old goal) }
        ensures kept { keeps self.old self.new }
        ensures counted { tests self.new ≡ min (tests self.old + 1) (2 ^ 64 - 1) }
        ensures stops_stay { stops self.old ≤ stops self.new }
        ensures nodes { result ≡ Err Stop.Nodes → Rose (stops self.old) (stops self.new) × may_stop self.old };

    ghost keeps_self: { (s : Self) → keeps s s };

    ghost keeps_then: { (s t u : Self) → keeps s t → keeps t u → keeps s u };

    ghost same_ready: { (s t : Self) (k : ℕ) → keeps s t → is_ready t k → is_ready s k };

    ghost ready_same: { (s t : Self) (k : ℕ) → keeps s t → is_ready s k → is_ready t k };

    ghost same_stop: { (s t : Self) → keeps s t → may_stop t → may_stop s };
}

/// Parked goals by number, each with the fact whether it still waits.
#[derive(Drop)]
pub struct Waiting {
    still: Vec<bool>,
    taken: Trail<usize>,
}

impl Model for Waiting {
    ghost use Rattle.cb_wake.specs.Waits.{Waits};

    ghost Value = { Waits };

    ghost view = { λ w. record { still = w.still.items; taken = w.taken } };
}

/// A moment of waiting goals, to which `undo` goes back.
#[derive(Clone, Copy)]
pub struct WakeMark {
    parked: usize,
    taken: u64,
}

impl Model for WakeMark {
    ghost use Rattle.cb_wake.specs.Moments.{Moment};

    ghost Value = { Moment };

    ghost view = { λ m. record { parked = m.parked; taken = m.taken } };

    ghost inverse = { λ m. record { parked = m.parked; taken = m.taken } };
}

impl Waiting {
    /// No goal waits. It takes no memory.
    pub fn new(alloc: Global) -> Waiting
        ensures { result ≡ no_goals }
    {
        Waiting {
            still: Vec::new(alloc),
            taken: Trail::new(alloc),
        }
    }

    /// Parks a goal and gives it the next number, from 0. Each scan asks about all waiting goals, whatever they watch.
    pub fn park(&mut self, _watch: &[Watch]) -> Result<usize, AllocError>
        ensures number { IfOk result (λ n. n ≡ length self.old.still) }
        ensures parked { OnOk result (self.new ≡ record self.old { still = self.old.still ++ true ∷ [] }) }
        ensures moments { KeepsMoments self.old self.new }
        ensures refused { OnErr result (self.new ≡ self.old) }
    {
        let number = self.still.len();
        self.still.push(true)?;
        Ok(number)
    }

    /// Adds items to those that a waiting goal watches. A scan asks about every waiting goal, so nothing is kept of them.
    pub fn watch(&mut self, goal: usize, _more: &[Watch]) -> Result<(), AllocError>
        requires { slice_get self.old.still goal ≡ Some true }
        ensures same { self.new ≡ self.old }
        ensures ok { result ≡ Ok tt }
    {
        Ok(())
    }

    /// Notes that items were touched. A scan asks about every waiting goal, so nothing is kept of them.
    pub fn touched(&mut self, _items: &[Watch]) -> Result<(), AllocError>
        ensures same { self.new ≡ self.old }
        ensures ok { result ≡ Ok tt }
    {
        Ok(())
    }

    /// Takes the ready goal with the least number; `None` where no waiting goal is ready. After a refusal all is as before.
    pub fn take_ready<T: Tester>(&mut self, tester: &mut T) -> Result<Option<usize>, Stop>
        ensures taken { IfOk result (λ r. IsTaken (T.is_ready tester.old) self.old self.new r) }
        ensures moments { KeepsMoments self.old self.new }
        ensures refused { OnErr result (self.new ≡ self.old) }
        ensures kept { T.keeps tester.old tester.new }
        ensures tests { T.tests tester.new ≤ T.tests tester.old + length (waiting self.old) }
        ensures stops_stay { T.stops tester.old ≤ T.stops tester.new }
        ensures nodes { result ≡ Err Stop.Nodes → Rose (T.stops tester.old) (T.stops tester.new) × T.may_stop tester.old }
    {
        self.take_next(0, tester)
    }

    // The same, where no goal below this number is ready: none of these is asked about.
    fn take_next<T: Tester>(&mut self, from: usize, tester: &mut T) -> Result<Option<usize>, Stop>
        requires scanned { IsScanned (T.is_ready tester.old) self.old.still from }
        ensures taken { IfOk result (λ r. IsTaken (T.is_ready tester.old) self.old self.new r) }
        ensures small { IfOk result (λ r. IfSome r (λ k. k < 2 ^ 63)) }
        ensures moments { KeepsMoments self.old self.new }
        ensures refused { OnErr result (self.new ≡ self.old) }
        ensures kept { T.keeps tester.old tester.new }
        ensures tests { AsksOnce (T.tests tester.old) (T.tests tester.new) from self.old.still result }
        ensures stops_stay { T.stops tester.old ≤ T.stops tester.new }
        ensures nodes { result ≡ Err Stop.Nodes → Rose (T.stops tester.old) (T.stops tester.new) × T.may_stop tester.old }
    {
        let found = least_ready(self.still.as_slice(), from, tester)?;
        if let Some(k) = found {
            if self.taken.push(k).is_err() {
                return Err(Stop::Memory);
            }
            self.still[k] = false;
        }
        Ok(found)
    }

    /// The k-th waiting goal by number, from 0; `None` past the last. It takes no memory.
    pub fn waiting(&self, k: usize) -> Option<usize>
        ensures { result ≡ slice_get (waiting self.now) k }
    {
        let mut left = k;
        for (number, waits) in self.still.iter().enumerate() {
            if *waits {
                if left == 0 {
                    return Some(number);
                }
                left -= 1;
            }
        }
        None
    }

    /// The moment, to which a later `undo` can return. It takes no memory.
    pub fn mark(&self) -> WakeMark
        ensures moment { result ≡ moment_of self.now }
        ensures is_moment { IsMoment result self.now }
    {
        WakeMark {
            parked: self.still.len(),
            taken: self.taken.mark(),
        }
    }

    /// Goes back to a moment: the goals parked since then are gone, and those taken since then wait again. It takes no
    /// memory.
    pub fn undo(&mut self, to: WakeMark)
        requires { IsMoment to self.old }
        ensures reverted { self.new ≡ reverted to self.old }
        ensures back { (w : Waits) → to ≡ moment_of w → KeepsMoments w self.old → self.new ≡ w }
    {
        take_back(self.still.as_mut_slice(), &mut self.taken, to.taken);
        self.still.truncate(to.parked);
    }
}

// The ready goal with the least number, where none below this one is ready.
fn least_ready<T: Tester>(
    still: &[bool],
    from: usize,
    tester: &mut T,
) -> Result<Option<usize>, Stop>
    requires scanned { IsScanned (T.is_ready tester.old) still.now from }
    ensures some { IfOk result (λ r. IsLeast (T.is_ready tester.old) still.now r) }
    ensures kept { T.keeps tester.old tester.new }
    ensures tests { AsksOnce (T.tests tester.old) (T.tests tester.new) from still.now result }
    ensures stops_stay { T.stops tester.old ≤ T.stops tester.new }
    ensures nodes { result ≡ Err Stop.Nodes → Rose (T.stops tester.old) (T.stops tester.new) × T.may_stop tester.old }
{
    for k in from..still.len() {
        let waits = still[k];
        if waits {
            match tester.ready(k) {
                Ok(true) => return Ok(Some(k)),
                Ok(false) => {}
                Err(stop) => return Err(stop),
            }
        }
    }
    Ok(None)
}

// Lets the goals that were taken past the mark wait again.
fn take_back(still: &mut [bool], taken: &mut Trail<usize>, to: u64)
    requires { to ≤ length taken.old }
    ensures taken { taken.new ≡ take to taken.old }
    ensures still { still.new ≡ put_back (drop to taken.old) still.old }
{
    'back: while let Some(k) = taken.undo_next(to) {
        if k < still.len() {
            still[k] = true;
        }
    }
}

/// Takes all ready goals, in order of number, into an empty list, in one pass over those that wait. After a refusal some
/// may be taken; an `undo` puts them back.
pub fn take_all<T: Tester>(
    waits: &mut Waiting,
    tester: &mut T,
    woken: &mut Vec<usize>,
) -> Result<(), Stop>
    requires empty { woken.old.items ≡ [] }
    ensures parted { OnOk result (Parts (T.is_ready tester.old) (waiting waits.old) woken.new.items (waiting waits.new)) }
    ensures parked { length waits.new.still ≡ length waits.old.still }
    ensures moments { KeepsMoments waits.old waits.new }
    ensures kept { T.keeps tester.old tester.new }
    ensures tests { T.tests tester.new ≤ T.tests tester.old + length (waiting waits.old) }
    ensures stops_stay { T.stops tester.old ≤ T.stops tester.new }
    ensures nodes { result ≡ Err Stop.Nodes → Rose (T.stops tester.old) (T.stops tester.new) × T.may_stop tester.old }
{
    let mut from = 0;
    loop {
        match waits.take_next(from, tester) {
            Ok(Some(k)) => {
                if woken.push(k).is_err() {
                    return Err(Stop::Memory);
                }
                from = k + 1;
            }
            Ok(None) => return Ok(()),
            Err(stop) => return Err(stop),
        }
    }
}
