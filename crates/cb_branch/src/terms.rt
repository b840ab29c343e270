//! The goals of a branch as terms.

ghost use Rattle.std.specs.Prelude.{◌≡◌, ◌≢◌, ℕ, ◌+◌, ◌<◌, ◌≤◌, ◌^◌, List, [], ◌∷◌, length, map, Some, None, Ok, Err, IfOk, OnOk, OnErr, IfSome, IfNone, true, false, slice_get, get_or, ◌-◌};
ghost use Rattle.cb_model.specs.declared.Sort.{Sort};
ghost use Rattle.cb_model.specs.declared.Sort.TheVariants as sort;
ghost use Rattle.cb_model.specs.declared.Tree.{Tree};
ghost use Rattle.cb_model.specs.declared.Tree.TheVariants as tree;
ghost use Rattle.cb_model.specs.Program.{bools};
ghost use Rattle.cb_model.specs.Values.{Sorts};
ghost use Rattle.cb_unify.specs.State.{HasNone, IsState};
ghost use Rattle.cb_unify.specs.Moments.{KeepsMoments};
ghost use Rattle.cb_items.specs.Items.{AddsFrame, Refuses, wants_nodes};
ghost use Rattle.cb_items.specs.Standing.{IsFrame};
ghost use Rattle.cb_branch.specs.Terms.{AddsHead, CanBuild, CanBuildTerm, CanEquate, Equates, ForEquation, ForHead, Heads, IfFrame, IfNoFrame, IsHead, IsMade, IsMadeTerm, NeverHeads, NoItem};

use cb_dd::Stop;
use cb_heap::Ref;
use cb_items::{equal, variables};
use cb_model::{Sort, Tree};
use cb_unify::{Frame, State};

/// The cell of a tree over the variables of a frame.
pub(crate) fn built(state: &mut State, tree: &Tree, frame: &Frame) -> Result<Ref, Stop>
    requires state { IsState state.old }
    requires buildable { CanBuild state.old frame.now tree.now }
    ensures makes { IfOk result (λ r. IsMade state.old state.new frame.now tree.now r.0) }
    ensures refusals { Refuses state.old state.new (wants_nodes result) }
    ensures moments { KeepsMoments state.old state.new }
    ensures state { IsState state.new }
{
    let cell = state.build(tree, frame);
    // The count says of its store that none without a bound refuses a node.
    let _nodes = state.store_ref().read().count();
    cell
}

/// The cell of a name with arguments over the variables of a frame; the cells behind it are its arguments.
pub(crate) fn compound(
    state: &mut State,
    name: u32,
    args: &[Tree],
    frame: &Frame,
) -> Result<Ref, Stop>
    requires state { IsState state.old }
    requires buildable { CanBuildTerm state.old frame.now (tree.Node name args.now) }
    ensures makes { IfOk result (λ r. IsMadeTerm state.old state.new frame.now (tree.Node name args.now) r.0) }
    ensures refusals { Refuses state.old state.new (wants_nodes result) }
    ensures moments { KeepsMoments state.old state.new }
    ensures state { IsState state.new }
{
    let cell = state.compound(name, args, frame);
    // As above.
    let _nodes = state.store_ref().read().count();
    cell
}

/// Adds an equation of two trees over the variables of a frame, and says whether it can be solved with those before.
pub(crate) fn equated(
    state: &mut State,
    left: &Tree,
    right: &Tree,
    frame: &Frame,
) -> Result<bool, Stop>
    requires state { IsState state.old }
    requires buildable { CanEquate state.old frame.now left.now right.now }
    ensures yes { result ≡ Ok true → ForEquation state.old frame.now left.now right.now (Equates state.old state.new) }
    ensures no { result ≡ Ok false → ForEquation state.old frame.now left.now right.now (λ w x. NoItem w state.old x) }
    ensures refusals { Refuses state.old state.new (wants_nodes result) }
    ensures moments { KeepsMoments state.old state.new }
    ensures state { IsState state.new }
{
    let first = built(state, left, frame)?;
    let second = built(state, right, frame)?;
    equal(state, first, second)
}

/// Makes the variables of a clause, of these sorts, and adds that its head, a name with these arguments, is the call;
/// the variables' frame, where that can be solved with what was there.
pub(crate) fn renamed(
    state: &mut State,
    sorts: &[Sort],
    name: u32,
    head: &[Tree],
    call: Ref,
) -> Result<Option<Frame>, Stop>
    requires state { IsState state.old }
    requires room { state.old.store.drawn + bools sorts.now < 2 ^ 32 }
    requires call { call.0 < length state.old.heap.sorts }
    requires head { (t : Sorts) × IsHead state.old t sorts.now name head.now }
    ensures yes { IfFrame result (AddsHead state.old state.new sorts.now name head.now call.0) }
    ensures no { IfNoFrame result (ForHead state.old sorts.now name head.now call.0 (λ w x. NoItem w state.old x)) }
    ensures refusals { Refuses state.old state.new (wants_nodes result) }
    ensures moments { KeepsMoments state.old state.new }
    ensures state { IsState state.new }
{
    let frame = variables(state, sorts)?;
    match headed(state, name, head, &frame, call) {
        Ok(true) => Ok(Some(frame)),
        Ok(false) => {
            drop(frame);
            Ok(None)
        }
        Err(stop) => {
            drop(frame);
            Err(stop)
        }
    }
}

// Adds that a name with arguments over the variables of a frame is the call.
fn headed(
    state: &mut State,
    name: u32,
    head: &[Tree],
    frame: &Frame,
    call: Ref,
) -> Result<bool, Stop>
    requires state { IsState state.old }
    requires call { call.0 < length state.old.heap.sorts }
    requires buildable { CanBuildTerm state.old frame.now (tree.Node name head.now) }
    ensures yes { result ≡ Ok true → Heads state.old state.new frame.now (tree.Node name head.now) call.0 }
    ensures no { result ≡ Ok false → NeverHeads state.old frame.now (tree.Node name head.now) call.0 }
    ensures refusals { Refuses state.old state.new (wants_nodes result) }
    ensures moments { KeepsMoments state.old state.new }
    ensures state { IsState state.new }
{
    let cell = compound(state, name, head, frame)?;
    equal(state, cell, call)
}
