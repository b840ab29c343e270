//! Whether a call is ready.

ghost use Rattle.std.specs.Prelude.{◌≡◌, ◌-◌, ◌^◌, ◌<◌, true, false, length, min, IfOk};
ghost use Rattle.cb_model.specs.Bits.{Each};
ghost use Rattle.cb_model.specs.Values.{Sorts};
ghost use Rattle.cb_unify.specs.State.{FitsTable, IsState};
ghost use Rattle.cb_ready.specs.Ready.{HasWord, RunsAtOnce, TellsHeld, TellsReady};

use cb_heap::Ref;
use cb_model::When;
use cb_sorts::Program;
use cb_unify::State;
use std::alloc::AllocError;

/// Whether one of a name's arguments, of which there are `count`, has a word of a delay to wait for. It looks at the name
/// alone, and takes no memory.
pub fn is_delayed(program: &Program<'_>, pred: u32, count: usize) -> bool
    requires name { pred < length program.now.names }
    ensures yes { result ≡ true → HasWord program.now pred count }
    ensures no { result ≡ false → RunsAtOnce program.now pred count }
{
    for place in 0..places(count) {
        match program.when(pred, place) {
            When::Any => {}
            _ => return true,
        }
    }
    false
}

/// Whether a call with these arguments is ready: each word of its delay holds for its argument. A name without a delay is
/// always ready.
pub fn is_ready(
    state: &State,
    program: &Program<'_>,
    pred: u32,
    args: &[Ref],
) -> Result<bool, AllocError>
    requires state { IsState state.now }
    requires name { pred < length program.now.names }
    requires there { Each (λ r. r.0 < length state.now.heap.sorts) args.now }
    ensures { IfOk result (TellsReady state.now program.now pred args.now) }
{
    all_hold(state, program, pred, args)
}

// Whether the words of a name's delay hold of these cells.
pub(crate) fn all_hold(
    state: &State,
    program: &Program<'_>,
    pred: u32,
    args: &[Ref],
) -> Result<bool, AllocError>
    requires state { IsState state.now }
    requires name { pred < length program.now.names }
    requires there { Each (λ r. r.0 < length state.now.heap.sorts) args.now }
    ensures { (t : Sorts) → FitsTable t state.now → IfOk result (TellsHeld t state.now program.now pred args.now) }
{
    for place in 0..places(args.len()) {
        match state.holds(program.when(pred, place), args[place as usize]) {
            Ok(true) => {}
            Ok(false) => return Ok(false),
            Err(failed) => return Err(failed),
        }
    }
    Ok(true)
}

// So many places, as far as a number of 32 bits can tell them.
fn places(count: usize) -> u32
    ensures { result ≡ min count (2 ^ 32 - 1) }
{
    if count < 4294967295 {
        count as u32
    } else {
        4294967295
    }
}
