//! Terms over Boolean variables as one state: a line has how many nodes it may hold, and words that work on a stack of its
//! cells; what they tell is written as a line.

ghost use Rattle.cb_unify.specs.State.{IsState};

use crate::state_desk::Desk;
use cb_trial::text::push;
use cb_unify::State;
use std::alloc::Global;
use std::test::Fail;

/// Writes what the words of a line tell, over two constants.
pub fn tell(alloc: Global, line: &str, out: &mut Vec<u8>) -> Result<(), Fail> {
    let Some((budget, words)) = line.split_once(": ") else {
        return Ok(());
    };
    let mut state = State::new(alloc, 2, budget.parse().unwrap_or(0))?;
    let told = work(alloc, &mut state, words, out);
    drop(state);
    told?;
    push(out, "\n")
}

// Lets the words work on a state, one after another.
fn work(alloc: Global, state: &mut State, words: &str, out: &mut Vec<u8>) -> Result<(), Fail>
    requires state { IsState state.old }
{
    let mut desk = Desk::new(alloc);
    push(out, "=")?;
    for word in words.split(' ') {
        desk.take(alloc, state, word, out)?;
    }
    Ok(())
}
