//! The equations of a branch of the derivation as terms: new variables, and equations between cells, so that the values of
//! a state stay the solutions of the branch's items.
#![tactic(auto)]

ghost use Rattle.std.specs.Prelude.{◌≡◌, ◌≢◌, ℕ, ◌+◌, ◌-◌, ◌<◌, ◌≤◌, ◌^◌, List, [], ◌∷◌, ◌++◌, length, Ok, Err, IfOk, OnErr, OnOk, true, false};
ghost use Rattle.cb_model.specs.Program.{bools};
ghost use Rattle.cb_unify.specs.State.{IsAsBefore, IsState};
ghost use Rattle.cb_unify.specs.Moments.{KeepsMoments};
ghost use Rattle.cb_items.specs.Items.{AddsFrame, AddsPair, RefutesPair, Refuses, wants_nodes};
ghost use Rattle.cb_items.specs.Laws.{BuiltStands, FrameLater, FullsSayNothing, RenamedIsShifted, StandsLater, ValuesStay};
ghost use Rattle.cb_items.specs.Instances.{SolutionsAreInstances};

use cb_dd::Stop;
use cb_heap::Ref;
use cb_model::Sort;
use cb_unify::{Frame, State};

/// Makes the variables of a clause, of these sorts, behind those of the branch. After a refusal the state is as before,
/// but for its count of refusals for nodes.
pub fn variables(state: &mut State, sorts: &[Sort]) -> Result<Frame, Stop>
    requires state { IsState state.old }
    requires room { state.old.store.drawn + bools sorts.now < 2 ^ 32 }
    ensures adds { IfOk result (λ f. AddsFrame state.old state.new sorts.now f) }
    ensures as_before { OnErr result (IsAsBefore state.old state.new) }
    ensures refusals { Refuses state.old state.new (wants_nodes result) }
    ensures moments { KeepsMoments state.old state.new }
    ensures state { IsState state.new }
{
    let frame = state.fresh(sorts);
    // The count says of its store that none without a bound refuses a node.
    let _nodes = state.store_ref().read().count();
    frame
}

/// Adds as an item that two cells are equal. `Ok(false)` comes where that has no solution with the items before, at some
/// assignment of the constants; then, and after a refusal, the state is as before, but for its count of refusals for
/// nodes.
pub fn equal(state: &mut State, left: Ref, right: Ref) -> Result<bool, Stop>
    requires state { IsState state.old }
    requires there { (left.0 < length state.old.heap.sorts) × (right.0 < length state.old.heap.sorts) }
    ensures adds { result ≡ Ok true → AddsPair state.old state.new left.0 right.0 }
    ensures none { result ≡ Ok false → RefutesPair state.old left.0 right.0 }
    ensures as_before { (result ≡ Ok true → ⊥) → IsAsBefore state.old state.new }
    ensures refusals { Refuses state.old state.new (wants_nodes result) }
    ensures moments { KeepsMoments state.old state.new }
    ensures state { IsState state.new }
{
    let solved = state.solve(&[(left, right)]);
    // As above.
    let _nodes = state.store_ref().read().count();
    solved
}

/// What cells stand for stays as the state grows, and so do the variables of frames; a cell that was built of a clause's
/// tree stands for the tree as the derivation renames it.
pub fn cells_stand()
    ensures later { StandsLater }
    ensures frames { FrameLater }
    ensures renamed { RenamedIsShifted }
    ensures built { BuiltStands }
{}

/// Cells that are added, and refusals, change no values.
pub fn values_stay()
    ensures cells { ValuesStay }
    ensures fulls { FullsSayNothing }
{}

/// Every solution in the algebra of a branch's items, over however many constants, is an instance of its slots and cells.
pub fn solutions_are_instances()
    ensures { SolutionsAreInstances }
{}
