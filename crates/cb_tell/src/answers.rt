//! The line of an answer.

ghost use Rattle.std.specs.Prelude.{◌≡◌, [], IfOk, IfSome, IfNone, None, map, slice_get};
ghost use Rattle.cb_model.specs.Derivation.{Branch};
ghost use Rattle.cb_model.specs.Faults.{Counted};
ghost use Rattle.cb_model.specs.Output.{printed_from};
ghost use Rattle.cb_answer.specs.Items.{AreItems};
ghost use Rattle.cb_branch.specs.Running.{IsBranch, calls_of};
ghost use Rattle.cb_tell.specs.Items.{AddsCalls, AreVariables, IsItemAt, call_of};
ghost use Rattle.cb_tell.specs.Telling.{AnswerTells, IsAnswered, IsLent, WriteFailed};

use crate::names::AskedNames;
use cb_answer::{Item, answer};
use cb_branch::branch_has_its_values;
use cb_dd::Stop;
use cb_heap::Ref;
use cb_host::Sink;
use cb_show::{Names, ShowError};
use cb_solve::Engine;
use cb_sorts::{Program, Query};
use std::alloc::{AllocError, Global};

/// A goal that waits: its predicate, and the cells of its arguments.
#[derive(Drop)]
struct WaitingCall {
    pred: u32,
    args: Vec<Ref>,
}

// The goals that wait, in order.
fn waiting_calls(alloc: Global, engine: &Engine<'_, '_, '_>) -> Result<Vec<WaitingCall>, AllocError>
    requires branch { (b : Branch) × IsBranch engine.now.state b }
    ensures { IfOk result (λ all. map call_of all.items ≡ calls_of engine.now.state) }
{
    let mut all = Vec::new(alloc);
    while let Some((pred, cells)) = engine.waiting(all.len()) {
        let mut args = Vec::new(alloc);
        args.extend_from_slice(cells)?;
        all.push(WaitingCall { pred, args })?;
    }
    Ok(all)
}

// The printed variable in a place, counted from 0, with the cell of its value; `None` past the last.
fn item<'q>(engine: &Engine<'_, '_, '_>, query: &Query<'q>, place: u32) -> Option<Item<'q>>
    requires branch { (b : Branch) × IsBranch engine.now.state b }
    requires asked { engine.now.state.query ≡ query.now }
    ensures some { IfSome result (IsItemAt engine.now.state.state.made query.now.variables place) }
    ensures none { IfNone result (slice_get (printed_from 0 query.now.variables) place ≡ None) }
{
    let (_, name) = query.printed(place)?;
    let cell = engine.variable(place)?;
    Some(Item::Var(name, cell))
}

// The printed variables in order, each with the cell of its value.
fn variables<'q>(
    alloc: Global,
    engine: &Engine<'_, '_, '_>,
    query: &Query<'q>,
) -> Result<Vec<Item<'q>>, AllocError>
    requires branch { (b : Branch) × IsBranch engine.now.state b }
    requires asked { engine.now.state.query ≡ query.now }
    ensures { IfOk result (λ all. AreVariables engine.now.state.state.made
        (printed_from 0 query.now.variables) all.items) }
{
    let mut all = Vec::new(alloc);
    let mut place = 0u32;
    while let Some(item) = item(engine, query, place) {
        all.push(item)?;
        if place == u32::MAX {
            return Err(AllocError);
        }
        place += 1;
    }
    Ok(all)
}

// The items with the goals that wait behind them, each by the name of its predicate.
fn with_calls<'a>(
    names: &'a AskedNames<'_, '_, '_>,
    calls: &'a [WaitingCall],
    variables: Vec<Item<'a>>,
) -> Result<Vec<Item<'a>>, AllocError>
    ensures { IfOk result (λ all. AddsCalls names.now.names calls.now variables.entry.items all.items) }
{
    let mut all = variables;
    for call in calls {
        let name = names.name(call.pred);
        let args = call.args.as_slice();
        all.push(Item::Waiting(name, args))?;
    }
    Ok(all)
}

// What the line of the answer tells: the printed variables in order, and behind them the goals that wait.
fn items<'a>(
    alloc: Global,
    engine: &Engine<'_, '_, '_>,
    query: &Query<'a>,
    names: &'a AskedNames<'_, '_, '_>,
    calls: &'a [WaitingCall],
) -> Result<Vec<Item<'a>>, AllocError>
    requires branch { (b : Branch) × IsBranch engine.now.state b }
    requires asked { engine.now.state.query ≡ query.now }
    ensures { IfOk result (λ all. AreItems engine.now.state.state.made names.now.names
        (printed_from 0 query.now.variables) (map call_of calls.now) all.items) }
{
    let all = variables(alloc, engine, query)?;
    with_calls(names, calls, all)
}

/// Writes the line of the answer that the run has come to. After want of memory or of nodes nothing is written.
pub(crate) fn tell_answer<O: Sink>(
    alloc: Global,
    engine: &mut Engine<'_, '_, '_>,
    program: &Program<'_>,
    query: &Query<'_>,
    out: &mut O,
) -> Result<(), ShowError>
    requires answered { IsAnswered program.now query.now engine.old }
    ensures told { AnswerTells program.now query.now engine.old.state (O.written out.old) (O.written out.new) result }
    ensures lent { IsLent engine.old engine.new }
    ensures faults { Counted (WriteFailed result) (O.faults out.old) (O.faults out.new) }
{
    let Ok(calls) = waiting_calls(alloc, engine) else {
        return Err(ShowError::Stop(Stop::Memory));
    };
    let names = AskedNames { program, query };
    let Ok(items) = items(alloc, engine, query, &names, calls.as_slice()) else {
        return Err(ShowError::Stop(Stop::Memory));
    };
    branch_has_its_values();
    answer(alloc, out, engine.state(), &items, &names)
}
