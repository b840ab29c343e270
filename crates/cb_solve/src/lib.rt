//! The derivation: a stack of choices over one running branch, from answer to answer.
#![tactic(auto)]

ghost use Rattle.std.specs.Prelude.{◌≡◌, ◌≢◌, ℕ, ◌+◌, ◌<◌, ◌≤◌, ◌^◌, true, false, Ok, Err, IfOk, IfNone, IfSome, IsErr, OnErr, OnOk, Some, None, length, slice_get};
ghost use Rattle.std.specs.Option.{option_map};
ghost use Rattle.cb_model.specs.Outside.{Rose};
ghost use Rattle.cb_model.specs.Output.{printed_from};
ghost use Rattle.cb_model.specs.Program.{bools};
ghost use Rattle.cb_model.specs.Derivation.{Branch};
ghost use Rattle.cb_model.specs.Derivation as derivation;
ghost use Rattle.cb_branch.specs.Running.{HasRoom, IsBranch, IsPrinted, IsWaiting, calls_of, fulls_of, program_of, query_of, work_of};
ghost use Rattle.cb_branch.specs.Scope.{IsRunnable};
ghost use Rattle.cb_solve.specs.Run.{AnswerFollows, Begins, EndFollows, ForStop, IsBegun, IsHeard, IsRun, IsUnbegun, NodesStop, StopFollows, WasOver, last_of};
ghost use Rattle.std.specs.Borrow.{sem};
ghost use Rattle.cb_solve.specs.Lending.{LendsState, LoanKeepsTheRun};
ghost use Rattle.cb_solve.specs.Machine.{AtStep, Attempts, Chooses, Has, HasRoomFor, IsEvent, IsFew, IsHeardOf, IsNext, IsRan, IsSame, IsStep, IsTurn, IsTurned, LeavesNext, MayLeave, OnlyChoices, Passes, Resolves, Runs, Stands, TriesAt, Waits};

use cb_branch::{Call, First, Mark, Running};
use cb_dd::Stop;
use cb_heap::Ref;
use cb_sorts::{Program, Query};
use cb_unify::State;
use std::alloc::{AllocError, Global};
use std::marker::Model;

/// A budget that a query may reach.
#[derive(Clone, Copy, PartialEq, Eq, Debug, Drop)]
pub enum Budget {
    Resolutions,
    Variables,
    Equations,
    Nodes,
}

/// What a query comes to next.
#[derive(Clone, Copy, PartialEq, Eq, Debug, Drop)]
pub enum Event {
    /// An answer: the state is that of its branch until the next call.
    Answer,
    End,
    Stopped(Budget),
}

/// A choice: the moment to go back to, the call, and the clause to try there.
#[derive(Clone, Copy)]
pub(crate) struct Choice {
    pub(crate) mark: Mark,
    pub(crate) call: Call,
    pub(crate) clause: u32,
}

/// The stack of the derivation: choices, and on them the branch that runs, if one does.
#[derive(Drop)]
pub(crate) struct Machine<'p, 's, 'q> {
    pub(crate) branch: Running<'p, 's, 'q>,
    pub(crate) choices: Vec<Choice>,
    pub(crate) budget: u32,
    pub(crate) used: u32,
    pub(crate) answers: u64,
    pub(crate) running: bool,
}

/// What a step came to.
#[derive(Clone, Copy, PartialEq, Eq, Debug, Drop)]
pub(crate) enum Stepped {
    /// The branch runs on.
    Goes,
    /// The branch is left, and the newest choice is next.
    Left,
    /// The branch was an answer.
    Answer,
    Stopped(Budget),
    End,
}

/// The budget that an addition would pass, which takes so many resolutions and so many variables more.
fn passed(m: &Machine<'_, '_, '_>, resolutions: u32, more: usize) -> Option<Budget>
    requires few { resolutions < 2 }
    requires small { more < 2 ^ 63 }
    ensures room { IfNone result (m.now.used + resolutions ≤ m.now.budget) }
    ensures fits { IfNone result (HasRoomFor m.now.branch more) }
    ensures passed { Passes m.now resolutions more result }
{
    let used = u64::from(m.used) + u64::from(resolutions);
    if u64::from(m.budget) < used {
        return Some(Budget::Resolutions);
    }
    if 4096 < m.branch.variables() + more {
        return Some(Budget::Variables);
    }
    if 1000000 < m.branch.steps() + 1 {
        return Some(Budget::Equations);
    }
    None
}

/// Adds the first goal, an equation.
fn equation(m: &mut Machine<'_, '_, '_>) -> Result<Stepped, Stop>
    requires { Has m.old First.Equal }
    ensures at { IfOk result (λ r. AtStep (program_of m.old.branch) (query_of m.old.branch) m.new r) }
    ensures step { IfOk result (λ r. IsStep m.old m.new r) }
    ensures few { result ≡ Err Stop.Nodes → IsFew m.old m.new }
{
    if let Some(budget) = passed(m, 0, 0) {
        return Ok(Stepped::Stopped(budget));
    }
    match m.branch.equate() {
        Ok(true) => Ok(Stepped::Goes),
        Ok(false) => {
            m.running = false;
            Ok(Stepped::Left)
        }
        Err(stop) => Err(stop),
    }
}

/// Puts a choice on the others.
fn choose(m: &mut Machine<'_, '_, '_>, call: Call, clause: u32) -> Result<(), Stop>
    requires { Chooses (program_of m.old.branch) (query_of m.old.branch) m.old call.0 clause }
    ensures at { OnOk result (TriesAt (program_of m.old.branch) (query_of m.old.branch) m.new) }
    ensures memory { result ≢ Err Stop.Nodes }
    ensures same { OnOk result (OnlyChoices m.old m.new) }
{
    let mark = m.branch.mark();
    let choice = Choice { mark, call, clause };
    match m.choices.push(choice) {
        Ok(()) => Ok(()),
        Err(_) => Err(Stop::Memory),
    }
}

/// Lets the first goal, a call that isn't ready, wait.
fn park(m: &mut Machine<'_, '_, '_>) -> Result<Stepped, Stop>
    requires { Waits m.old }
    ensures at { IfOk result (λ r. AtStep (program_of m.old.branch) (query_of m.old.branch) m.new r) }
    ensures step { IfOk result (λ r. IsStep m.old m.new r) }
    ensures few { result ≡ Err Stop.Nodes → IsFew m.old m.new }
{
    match m.branch.park() {
        Ok(()) => Ok(Stepped::Goes),
        Err(stop) => Err(stop),
    }
}

/// Makes the first goal, a call that is ready, a choice of the predicate's clauses.
fn attempt(m: &mut Machine<'_, '_, '_>, pred: u32) -> Result<Stepped, Stop>
    requires { Attempts m.old pred }
    ensures at { IfOk result (λ r. AtStep (program_of m.old.branch) (query_of m.old.branch) m.new r) }
    ensures step { IfOk result (λ r. IsStep m.old m.new r) }
    ensures few { result ≡ Err Stop.Nodes → IsFew m.old m.new }
{
    let Some(clause) = m.branch.first_clause(pred) else {
        m.running = false;
        return Ok(Stepped::Left);
    };
    m.running = false;
    match m.branch.call() {
        Ok(call) => match choose(m, call, clause) {
            Ok(()) => Ok(Stepped::Left),
            Err(stop) => Err(stop),
        },
        Err(stop) => Err(stop),
    }
}

/// Takes the first goal, a call: one that isn't ready waits, and another is a choice.
fn called(m: &mut Machine<'_, '_, '_>, pred: u32) -> Result<Stepped, Stop>
    requires { Has m.old (First.Call pred) }
    ensures at { IfOk result (λ r. AtStep (program_of m.old.branch) (query_of m.old.branch) m.new r) }
    ensures step { IfOk result (λ r. IsStep m.old m.new r) }
    ensures few { result ≡ Err Stop.Nodes → IsFew m.old m.new }
{
    match m.branch.ready() {
        Ok(true) => attempt(m, pred),
        Ok(false) => park(m),
        Err(stop) => Err(stop),
    }
}

/// One step of the branch that runs.
fn step(m: &mut Machine<'_, '_, '_>) -> Result<Stepped, Stop>
    requires { Runs m.old }
    ensures at { IfOk result (λ r. AtStep (program_of m.old.branch) (query_of m.old.branch) m.new r) }
    ensures step { IfOk result (λ r. IsStep m.old m.new r) }
    ensures few { result ≡ Err Stop.Nodes → IsFew m.old m.new }
{
    match m.branch.first() {
        First::Nothing => {
            m.running = false;
            m.answers += 1;
            Ok(Stepped::Answer)
        }
        First::True => {
            m.branch.skip();
            Ok(Stepped::Goes)
        }
        First::Fail => {
            m.running = false;
            Ok(Stepped::Left)
        }
        First::Equal => equation(m),
        First::Call(pred) => called(m, pred),
    }
}

/// Whether the branch runs on.
fn goes(stepped: Stepped) -> bool
    ensures yes { result ≡ true → stepped ≡ Stepped.Goes }
    ensures no { result ≡ false → stepped ≢ Stepped.Goes }
{
    match stepped {
        Stepped::Goes => true,
        _ => false,
    }
}

/// Steps of the branch that runs, until it is left, is an answer, commits or stops.
fn run(m: &mut Machine<'_, '_, '_>) -> Result<Stepped, Stop>
    requires { Runs m.old }
    ensures at { IfOk result (λ r. AtStep (program_of m.old.branch) (query_of m.old.branch) m.new r) }
    ensures step { IfOk result (λ r. IsRan m.old m.new r) }
    ensures few { result ≡ Err Stop.Nodes → IsFew m.old m.new }
{
    loop {
        match step(m) {
            Ok(stepped) => {
                if !goes(stepped) {
                    return Ok(stepped);
                }
            }
            Err(stop) => return Err(stop),
        }
    }
}

/// Renames the clause and adds that its head is the call: what a try and a commit have in common.
fn resolve(m: &mut Machine<'_, '_, '_>, clause: u32, call: Call) -> Result<Stepped, Stop>
    requires { Resolves (program_of m.old.branch) (query_of m.old.branch) m.old call.0 clause }
    ensures at { IfOk result (λ r. AtStep (program_of m.old.branch) (query_of m.old.branch) m.new r) }
    ensures few { result ≡ Err Stop.Nodes → IsFew m.old m.new }
    ensures same { IfOk result (λ r. IsSame m.old m.new × IsNext r) }
{
    match m.branch.resolve(clause, call) {
        Ok(true) => {
            m.running = true;
            Ok(Stepped::Goes)
        }
        Ok(false) => {
            m.running = false;
            Ok(Stepped::Left)
        }
        Err(stop) => Err(stop),
    }
}

/// Leaves a choice of the next clause of the predicate, if there is one.
fn leave_next(m: &mut Machine<'_, '_, '_>, call: Call, clause: u32) -> Result<(), Stop>
    requires { MayLeave m.old clause }
    ensures stacked { OnOk result (LeavesNext m.old m.new call.0 clause) }
    ensures same { OnOk result (OnlyChoices m.old m.new) }
    ensures memory { result ≢ Err Stop.Nodes }
{
    let Some(next) = m.branch.next_clause(clause) else {
        return Ok(());
    };
    let mark = m.branch.mark();
    let choice = Choice {
        mark,
        call,
        clause: next,
    };
    match m.choices.push(choice) {
        Ok(()) => Ok(()),
        Err(_) => Err(Stop::Memory),
    }
}

/// Goes back to the newest choice and tries its clause.
fn retry(m: &mut Machine<'_, '_, '_>) -> Result<Stepped, Stop>
    requires { TriesAt (program_of m.old.branch) (query_of m.old.branch) m.old }
    ensures at { IfOk result (λ r. AtStep (program_of m.old.branch) (query_of m.old.branch) m.new r) }
    ensures few { result ≡ Err Stop.Nodes → IsFew m.old m.new }
    ensures turn { IfOk result (λ r. IsTurn m.old m.new r) }
{
    let Some(choice) = m.choices.pop() else {
        return Ok(Stepped::End);
    };
    m.branch.undo(choice.mark);
    let more = m.branch.clause_variables(choice.clause);
    if let Some(budget) = passed(m, 1, more) {
        return Ok(Stepped::Stopped(budget));
    }
    m.used += 1;
    match leave_next(m, choice.call, choice.clause) {
        Ok(()) => resolve(m, choice.clause, choice.call),
        Err(stop) => Err(stop),
    }
}

/// The steps up to and with the next resolution, or to what the caller hears of.
fn turn(m: &mut Machine<'_, '_, '_>) -> Result<Stepped, Stop>
    requires { Stands (program_of m.old.branch) (query_of m.old.branch) m.old }
    ensures at { IfOk result (λ r. AtStep (program_of m.old.branch) (query_of m.old.branch) m.new r) }
    ensures few { result ≡ Err Stop.Nodes → IsFew m.old m.new }
    ensures turned { IfOk result (λ r. IsTurned m.old m.new r) }
{
    if !m.running {
        return retry(m);
    }
    match run(m) {
        Ok(Stepped::Goes) => Ok(Stepped::Goes),
        Ok(Stepped::Left) => retry(m),
        Ok(Stepped::Answer) => Ok(Stepped::Answer),
        Ok(Stepped::Stopped(budget)) => Ok(Stepped::Stopped(budget)),
        Ok(Stepped::End) => Ok(Stepped::End),
        Err(stop) => Err(stop),
    }
}

/// Whether the derivation goes on.
fn goes_on(stepped: Stepped) -> bool
    ensures yes { result ≡ true → IsNext stepped }
    ensures no { result ≡ false → IsHeardOf stepped }
{
    match stepped {
        Stepped::Goes => true,
        Stepped::Left => true,
        Stepped::Answer => false,
        Stepped::Stopped(_) => false,
        Stepped::End => false,
    }
}

/// The steps up to the next answer, the end or a stop.
fn advance(m: &mut Machine<'_, '_, '_>) -> Result<Stepped, Stop>
    requires { Stands (program_of m.old.branch) (query_of m.old.branch) m.old }
    ensures at { IfOk result (λ r. AtStep (program_of m.old.branch) (query_of m.old.branch) m.new r) }
    ensures event { IfOk result IsEvent }
    ensures few { result ≡ Err Stop.Nodes → IsFew m.old m.new }
    ensures same { IfOk result (λ r. IsTurned m.old m.new r) }
{
    loop {
        match turn(m) {
            Ok(stepped) => {
                if !goes_on(stepped) {
                    return Ok(stepped);
                }
            }
            Err(stop) => return Err(stop),
        }
    }
}

/// The event of a step that the caller hears of.
fn event_of(stepped: Stepped) -> Event
    requires { IsEvent stepped }
    ensures { IsHeard stepped result }
{
    match stepped {
        Stepped::Answer => Event::Answer,
        Stepped::Stopped(budget) => Event::Stopped(budget),
        _ => Event::End,
    }
}

/// Whether an event is the last.
fn over_of(event: Event) -> Option<Event>
    ensures { result ≡ last_of event }
{
    match event {
        Event::Answer => None,
        _ => Some(event),
    }
}

/// The run of a query, from answer to answer.
#[derive(Drop)]
pub struct Engine<'p, 's, 'q> {
    machine: Machine<'p, 's, 'q>,
    over: Option<Event>,
    starved: bool,
}

impl<'p, 's, 'q> Model for Engine<'p, 's, 'q> {
    ghost use Rattle.cb_solve.specs.Run.{Run, run_of};
    ghost use Rattle.std.specs.Coded.{codes};
    ghost use Rattle.cb_model.specs.contracts.Clause as clause;
    ghost use Rattle.cb_model.specs.contracts.Goal as goal;

    ghost Value = { Run };

    ghost coded = { Prim.hlevel (codes, clause.the_row.coded, goal.the_row.coded) };

    ghost view = { λ e. run_of e.machine e.over e.starved };
}

// Makes the first branch. The stop, where the query's own variables are too many, or the nodes for them too few.
fn begin(m: &mut Machine<'_, '_, '_>) -> Result<Option<Event>, AllocError>
    requires { IsUnbegun m.old }
    ensures { IfOk result (IsBegun m.old m.new) }
{
    if 4096 < m.branch.query_variables() {
        return Ok(Some(Event::Stopped(Budget::Variables)));
    }
    match m.branch.begin() {
        Ok(()) => Ok(None),
        Err(Stop::Nodes) => Ok(Some(Event::Stopped(Budget::Nodes))),
        Err(Stop::Memory) => Err(AllocError),
    }
}

impl<'p, 's, 'q> Engine<'p, 's, 'q> {
    /// The run of a query over a program, with at most so many resolutions and nodes. It makes the variables of the
    /// query, so it may be over with a stop at once.
    pub fn new(
        alloc: Global,
        program: &'p Program<'s>,
        query: &'p Query<'q>,
        resolutions: u32,
        nodes: usize,
    ) -> Result<Engine<'p, 's, 'q>, AllocError>
        requires { IsRunnable program.now query.now }
        ensures { IfOk result (Begins program.now query.now resolutions nodes) }
    {
        let branch = Running::new(alloc, program, query, nodes)?;
        let mut machine = Machine {
            branch,
            choices: Vec::new(alloc),
            budget: resolutions,
            used: 0,
            answers: 0,
            running: true,
        };
        match begin(&mut machine) {
            Ok(over) => Ok(Engine {
                machine,
                over,
                starved: false,
            }),
            Err(error) => {
                drop(machine);
                Err(error)
            }
        }
    }

    /// The event that follows the answers so far. After an end or a stop it is the same again, and after want of memory
    /// that again.
    pub fn next(&mut self) -> Result<Event, AllocError>
        requires { IsRun self.old }
        ensures answer { result ≡ Ok Event.Answer → self.old.over ≡ None → AnswerFollows self.old self.new }
        ensures end { result ≡ Ok Event.End → self.old.over ≡ None → EndFollows self.old }
        ensures stopped { ForStop result (λ w. self.old.over ≡ None → StopFollows self.old w) }
        ensures nodes { result ≡ Ok (Event.Stopped Budget.Nodes) → self.old.over ≡ None → NodesStop self.old self.new }
        ensures again { WasOver self.old (λ x. (result ≡ Ok x) × (self.new ≡ self.old)) }
        ensures starved { self.old.starved ≡ true → IsErr result × (self.new ≡ self.old) }
        ensures over { IfOk result (λ x. self.old.over ≡ None → self.new.over ≡ last_of x) }
        ensures refused { OnErr result (self.new.starved ≡ true) }
        ensures run { IsRun self.new }
    {
        if self.starved {
            return Err(AllocError);
        }
        if let Some(event) = self.over {
            return Ok(event);
        }
        match advance(&mut self.machine) {
            Ok(stepped) => {
                let event = event_of(stepped);
                self.over = over_of(event);
                Ok(event)
            }
            Err(Stop::Nodes) => {
                self.over = Some(Event::Stopped(Budget::Nodes));
                Ok(Event::Stopped(Budget::Nodes))
            }
            Err(Stop::Memory) => {
                self.starved = true;
                Err(AllocError)
            }
        }
    }

    /// After an answer, the cell of the variable that is printed in this place, counted from 0. `None` past the last.
    pub fn variable(&self, place: u32) -> Option<Ref>
        requires { (b : Branch) × IsBranch self.now.state b }
        ensures some { IfSome result (λ r. IsPrinted self.now.state place r.0) }
        ensures none { IfNone result (slice_get (printed_from 0 self.now.state.query.variables) place ≡ None) }
    {
        self.machine.branch.variable(place)
    }

    /// After an answer, the goal that waits in this place, counted from 0, in the order in which they began to wait: its
    /// predicate, and the cells of its arguments. `None` past the last.
    pub fn waiting(&self, k: usize) -> Option<(u32, &[Ref])>
        requires { (b : Branch) × IsBranch self.now.state b }
        ensures some { IfSome result (λ r. IsWaiting self.now.state k r.0 r.1.now) }
        ensures none { IfNone result (length (calls_of self.now.state) ≤ k) }
    {
        self.machine.branch.waiting(k)
    }

    /// The terms: after an answer, those of its branch. Who borrows them leaves them as they were, but for a count of
    /// refusals for nodes that has not fallen, as an `undo` to the moment of the loan does: then the run goes on
    /// (`loan_keeps_the_run`).
    pub fn state(&mut self) -> &mut State
        ensures* writes_back { sem 𝓛 (LendsState self.entry result) }
        ensures value { result.now ≡ self.old.state.state }
    {
        &mut self.machine.branch.state
    }
}

/// A run whose terms were lent, and left as they were but for the count of refusals, is a run.
pub fn loan_keeps_the_run()
    ensures { LoanKeepsTheRun }
{}
