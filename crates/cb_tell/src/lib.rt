//! What a query prints while it runs.
#![tactic(auto)]

ghost use Rattle.std.specs.Prelude.{◌≡◌, length};
ghost use Rattle.cb_model.specs.Faults.{Counted};
ghost use Rattle.cb_branch.specs.Scope.{IsRunnable};
ghost use Rattle.cb_tell.specs.Told.{OutputFailed, TellsOrBreaks};
ghost use Rattle.cb_tell.specs.Telling.{HasBegun, IsUnderWay, NextTells, TellsFromBegun};

mod answers;
mod lines;
mod names;

use answers::tell_answer;
use cb_dd::Stop;
use cb_host::Sink;
use cb_model::{Outcome, Side};
use cb_show::ShowError;
use cb_solve::{Engine, Event, loan_keeps_the_run};
use cb_sorts::{Program, Query};
use lines::{ended_line, finish, stop_line};
use std::alloc::Global;

/// What a turn of a query came to.
#[derive(Clone, Copy, PartialEq, Eq, Debug, Drop)]
pub(crate) enum Turn {
    /// The line of the next answer was written.
    Answered,
    /// The last line was written; whether it is a stop line.
    Ended(bool),
}

/// Runs a query over a program, with at most so many resolutions and nodes, and writes each line as soon as it is found: a
/// line for each answer, which tells the printed variables and the goals that wait; and behind all of them `end`, or `no`
/// where there is none, or a stop line that names the budget. What comes back is whether the last line is a stop line; or
/// the outcome, where memory was wanting or the output failed.
pub fn tell<O: Sink>(
    alloc: Global,
    program: &Program<'_>,
    query: &Query<'_>,
    resolutions: u32,
    nodes: usize,
    out: &mut O,
) -> Result<bool, Outcome>
    requires runnable { IsRunnable program.now query.now }
    requires behind { query.now.before ≡ length program.now.names }
    ensures told { TellsOrBreaks program.now query.now resolutions nodes (O.written out.old) (O.written out.new) result }
    ensures faults { Counted (OutputFailed result) (O.faults out.old) (O.faults out.new) }
{
    let Ok(mut engine) = Engine::new(alloc, program, query, resolutions, nodes) else {
        return Err(Outcome::Memory);
    };
    let told = tell_all(alloc, &mut engine, program, query, out);
    drop(engine);
    told
}

// Tells a run from its beginning to its end; whether the last line is a stop line.
fn tell_all<O: Sink>(
    alloc: Global,
    engine: &mut Engine<'_, '_, '_>,
    program: &Program<'_>,
    query: &Query<'_>,
    out: &mut O,
) -> Result<bool, Outcome>
    requires begins { HasBegun program.now query.now engine.old }
    requires behind { query.now.before ≡ length program.now.names }
    ensures told { TellsFromBegun program.now query.now engine.old (O.written out.old) (O.written out.new) result }
    ensures faults { Counted (OutputFailed result) (O.faults out.old) (O.faults out.new) }
{
    let mut none = true;
    loop {
        match tell_next(alloc, engine, program, query, none, out) {
            Ok(Turn::Answered) => none = false,
            Ok(Turn::Ended(stop)) => return Ok(stop),
            Err(outcome) => return Err(outcome),
        }
    }
}

// Tells the next answer, or how the run ends: with no answer so far, or with some.
fn tell_next<O: Sink>(
    alloc: Global,
    engine: &mut Engine<'_, '_, '_>,
    program: &Program<'_>,
    query: &Query<'_>,
    none: bool,
    out: &mut O,
) -> Result<Turn, Outcome>
    requires { IsUnderWay program.now query.now (O.written out.old) engine.old none }
    ensures told { NextTells program.now query.now none (O.written out.old) (O.written out.new)
        engine.old engine.new result }
    ensures faults { Counted (OutputFailed result) (O.faults out.old) (O.faults out.new) }
{
    loan_keeps_the_run();
    match engine.next() {
        Ok(Event::Answer) => match tell_answer(alloc, engine, program, query, out) {
            Ok(()) => Ok(Turn::Answered),
            Err(ShowError::Failed(_)) => Err(Outcome::Fault(Side::Output)),
            Err(ShowError::Stop(Stop::Nodes)) => finish(out, b"stopped: nodes\n", true),
            Err(ShowError::Stop(Stop::Memory)) => Err(Outcome::Memory),
        },
        Ok(Event::End) => finish(out, ended_line(none), false),
        Ok(Event::Stopped(budget)) => finish(out, stop_line(budget), true),
        Err(_) => Err(Outcome::Memory),
    }
}
