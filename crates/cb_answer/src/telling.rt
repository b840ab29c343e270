//! The line of an answer over the state that a derivation leaves.

ghost use Rattle.std.specs.Prelude.{◌≡◌, ◌≢◌, ◌≤◌, ◌∷◌, [], codes, Err, IfOk, OnOk};
ghost use Rattle.cb_model.specs.Outside.{Rose};
ghost use Rattle.cb_model.specs.Text.{lines_text};
ghost use Rattle.cb_unify.specs.Moments.{KeepsMoments};
ghost use Rattle.cb_unify.specs.State.{IsAsBefore, IsState};
ghost use Rattle.cb_answer.specs.Answered.{IsLineFor};
ghost use Rattle.cb_answer.specs.Items.{item_root, roots_of};
ghost use Rattle.cb_answer.specs.Writing.{IsShownFor, IsTellable, IsText, IsToldFor, WantsNodes, WroteFront, WroteLine, slots_of};

use crate::{Item, Told, line};
use cb_dd::Stop;
use cb_elim::Slot;
use cb_host::{Failed, Sink, write_all};
use cb_project::general;
use cb_shape::{Printed, Root, shape};
use cb_show::{Names, ShowError};
use cb_unify::State;
use std::alloc::{AllocError, Global};

/// Writes the line of an answer: each printed variable with its value, and behind them the goals that wait, the leaves in
/// their parametric form over the state's constants (Boole 1854); or `(wide)` past the limits of a line. All nodes and all memory are taken before the first byte is
/// written, and in every case the state is as before, but for its count of refusals for nodes.
///
/// After `Stop` nothing was written; `Stop(Nodes)` comes where the budget is too small for the parametric form. After
/// `Failed` a front of the line was written.
pub fn answer<S: Sink, N: Names>(
    alloc: Global,
    out: &mut S,
    state: &mut State,
    items: &[Item<'_>],
    names: &N,
) -> Result<(), ShowError>
    requires tellable { IsTellable state.old items.now }
    ensures written { OnOk result (WroteLine (IsLineFor (N.names names.now) (N.constants names.now) state.old items.now)
        (S.written out.old) (S.written out.new)) }
    ensures front { (e : Failed) → result ≡ Err (ShowError.Failed e) →
        WroteFront (IsLineFor (N.names names.now) (N.constants names.now) state.old items.now) (S.written out.old) (S.written out.new) }
    ensures nothing { (x : Stop) → result ≡ Err (ShowError.Stop x) → out.new ≡ out.old }
    ensures as_before { IsAsBefore state.old state.new }
    ensures nodes { result ≡ Err (ShowError.Stop Stop.Nodes) → WantsNodes state.old state.new items.now }
    ensures count { S.faults out.old ≤ S.faults out.new }
    ensures kept { OnOk result (S.faults out.new ≡ S.faults out.old) }
    ensures failed { (e : Failed) → result ≡ Err (ShowError.Failed e) → Rose (S.faults out.old) (S.faults out.new) }
{
    match text(alloc, state, items, names) {
        Ok(text) => match write_all(out, &text) {
            Ok(()) => Ok(()),
            Err(failed) => Err(ShowError::Failed(failed)),
        },
        Err(stop) => Err(ShowError::Stop(stop)),
    }
}

// The text of the line with its end. The state is as before, but for its count of refusals for nodes.
fn text<N: Names>(
    alloc: Global,
    state: &mut State,
    items: &[Item<'_>],
    names: &N,
) -> Result<Vec<u8>, Stop>
    requires tellable { IsTellable state.old items.now }
    ensures text { IfOk result (λ t. IsText (IsLineFor (N.names names.now) (N.constants names.now) state.old items.now) t.items) }
    ensures as_before { IsAsBefore state.old state.new }
    ensures nodes { result ≡ Err Stop.Nodes → WantsNodes state.old state.new items.now }
{
    let Ok(roots) = roots(alloc, items) else {
        return Err(Stop::Memory);
    };
    let Ok(found) = shape(alloc, state.heap(), &roots) else {
        return Err(Stop::Memory);
    };
    let Some(printed) = found else {
        return wide(alloc);
    };
    let before = state.mark();
    let told = told(alloc, state, items, names, &printed);
    state.undo(before);
    told
}

// The line of an answer past the limits, with its end.
fn wide(alloc: Global) -> Result<Vec<u8>, Stop>
    ensures text { IfOk result (λ t. t.items ≡ lines_text (codes "(wide)" ∷ [])) }
    ensures memory { result ≢ Err Stop.Nodes }
{
    match Vec::from_slice(alloc, b"(wide)\n") {
        Ok(text) => Ok(text),
        Err(_) => Err(Stop::Memory),
    }
}

// What is shown of an item beside its name.
fn root_of<'a>(item: Item<'a>) -> Root<'a>
    ensures { result ≡ item_root item.entry }
{
    match item {
        Item::Var(_, cell) => Root::Term(cell),
        Item::Waiting(_, args) => Root::Goal(args),
    }
}

// What is shown of the items.
fn roots<'a>(alloc: Global, items: &[Item<'a>]) -> Result<Vec<Root<'a>>, AllocError>
    ensures { IfOk result (λ r. r.items ≡ roots_of items.now) }
{
    items.iter().map(|item| root_of(*item)).collect(alloc)
}

// These slots by their numbers.
fn slots(alloc: Global, numbers: &[usize]) -> Result<Vec<Slot>, AllocError>
    ensures { IfOk result (λ s. s.items ≡ slots_of numbers.now) }
{
    numbers.iter().map(|number| Slot(*number)).collect(alloc)
}

// The line of an answer within the limits, with its end. Levels of the state are drawn and nodes may be left.
fn told<N: Names>(
    alloc: Global,
    state: &mut State,
    items: &[Item<'_>],
    names: &N,
    printed: &Printed,
) -> Result<Vec<u8>, Stop>
    requires tellable { IsTellable state.old items.now }
    requires shown { IsShownFor state.old items.now printed.now }
    ensures text { IfOk result (λ t. IsToldFor (N.names names.now) (N.constants names.now) state.old items.now t.items) }
    ensures state { IsState state.new }
    ensures moments { KeepsMoments state.old state.new }
    ensures fulls { state.old.store.nodes.fulls ≤ state.new.store.nodes.fulls }
    ensures nodes { result ≡ Err Stop.Nodes → WantsNodes state.old state.new items.now }
{
    let Ok(slots) = slots(alloc, &printed.slots) else {
        return Err(Stop::Memory);
    };
    let form = general(alloc, state.store(), &slots)?;
    let store = state.store_ref();
    let told = Told {
        items,
        names,
        ops: store.read(),
        form: &form,
        constants: store.constants(),
    };
    match line(alloc, &told, printed) {
        Ok(text) => Ok(text),
        Err(_) => Err(Stop::Memory),
    }
}
