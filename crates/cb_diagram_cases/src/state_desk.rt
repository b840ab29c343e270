//! What the words of a line work on.

ghost use Rattle.std.specs.Prelude.{◌<◌, length};
ghost use Rattle.cb_unify.specs.Moments.{KeepsMoments};
ghost use Rattle.cb_unify.specs.State.{IsState};

use crate::state_making::{chained, deep, doubled, is_here, known, listed, made, unknown};
use crate::state_seen::{Picture, is_seen, push_form, seen};
use cb_dd::Stop;
use cb_heap::Ref;
use cb_model::Sort;
use cb_trial::text::push;
use cb_unify::State;
use std::alloc::Global;
use std::test::Fail;

/// A stack of cells, and the last number that was read.
#[derive(Drop)]
pub struct Desk {
    number: u32,
    stack: Vec<Ref>,
}

impl Desk {
    /// No cell on the stack.
    pub fn new(alloc: Global) -> Desk {
        Desk {
            number: 0,
            stack: Vec::new(alloc),
        }
    }

    // Takes the cell on top of the stack away, the first one where there is none.
    fn pop(&mut self) -> Ref {
        self.stack.pop().unwrap_or(Ref(0))
    }

    // The cell with so many others above it on the stack, the first one where there is none.
    fn pick(&self) -> Ref {
        let above = self.number as usize;
        if above < self.stack.len() {
            return self.stack[self.stack.len() - 1 - above];
        }
        Ref(0)
    }

    /// Takes one word: a number, one that moves cells, one that tells something, or one that makes a cell.
    pub fn take(
        &mut self,
        alloc: Global,
        state: &mut State,
        word: &str,
        out: &mut Vec<u8>,
    ) -> Result<(), Fail>
        requires state { IsState state.old }
        ensures state { IsState state.new }
    {
        if let Ok(number) = word.parse::<u32>() {
            self.number = number;
            return Ok(());
        }
        match word {
            "drop" => {
                self.pop();
            }
            "pick" => {
                let r = self.pick();
                self.stack.push(r)?;
            }
            "form" => push_form(alloc, state, self.stack.last().copied(), out)?,
            "same" => self.tell_same(alloc, state, out)?,
            "back" => self.tell_back(alloc, state, out)?,
            _ => self.make(alloc, state, word, out)?,
        }
        Ok(())
    }

    // Takes two cells away, makes them equal if that can be, and tells whether it can; where it can't, also whether the
    // state is another than before.
    fn tell_same(&mut self, alloc: Global, state: &mut State, out: &mut Vec<u8>) -> Result<(), Fail>
        requires state { IsState state.old }
        ensures state { IsState state.new }
    {
        let r = self.pop();
        let l = self.pop();
        if !is_here(state, l) || !is_here(state, r) {
            return push(out, " absent");
        }
        let before = seen(alloc, state)?;
        let told = solve(alloc, state, (l, r), &before, out);
        drop(before);
        told
    }

    // The same, but then goes back to before, and tells whether the state is as it was.
    fn tell_back(&mut self, alloc: Global, state: &mut State, out: &mut Vec<u8>) -> Result<(), Fail>
        requires state { IsState state.old }
        ensures state { IsState state.new }
    {
        let r = self.pop();
        let l = self.pop();
        if !is_here(state, l) || !is_here(state, r) {
            return push(out, " absent");
        }
        let before = seen(alloc, state)?;
        let mark = state.mark();
        let told = solve(alloc, state, (l, r), &before, out);
        state.undo(mark);
        let back = is_seen(alloc, state, &before);
        drop(before);
        told?;
        push(out, if back { " back" } else { " changed" })
    }

    // Puts the cell of a word on the stack, or tells that the state is full.
    fn make(
        &mut self,
        alloc: Global,
        state: &mut State,
        word: &str,
        out: &mut Vec<u8>,
    ) -> Result<(), Fail>
        requires state { IsState state.old }
        ensures state { IsState state.new }
    {
        match self.made(alloc, state, word) {
            Ok(r) => {
                self.stack.push(r)?;
                Ok(())
            }
            Err(Stop::Nodes) => push(out, " full"),
            Err(Stop::Memory) => push(out, " memory"),
        }
    }

    // The cell of a word.
    fn made(&mut self, alloc: Global, state: &mut State, word: &str) -> Result<Ref, Stop>
        requires state { IsState state.old }
        ensures state { IsState state.new }
    {
        let number = self.number;
        match word {
            "bool" => unknown(state, Sort::Bool),
            "bus" => unknown(state, Sort::Bus),
            "term" => unknown(state, Sort::Term),
            "one" | "not" => {
                let r = self.pop();
                made(alloc, state, (word, number), (r, r))
            }
            "two" | "bits" | "and" | "xor" | "cons" => {
                let last = self.pop();
                made(alloc, state, (word, number), (self.pop(), last))
            }
            "deep" => deep(alloc, state, self.pop(), number),
            "double" => doubled(alloc, state, self.pop(), number),
            "list" => {
                let tail = self.pop();
                listed(alloc, state, self.pop(), tail, number)
            }
            "chain" => chained(state, number),
            _ => known(alloc, state, word, number),
        }
    }
}

// Makes two cells equal if that can be, and tells whether it can; where it can't, also whether the state is another than
// the picture that was taken before.
fn solve(
    alloc: Global,
    state: &mut State,
    cells: (Ref, Ref),
    before: &Picture,
    out: &mut Vec<u8>,
) -> Result<(), Fail>
    requires state { IsState state.old }
    requires there { (cells.0.0 < length state.old.heap.cells) × (cells.1.0 < length state.old.heap.cells) }
    ensures moments { KeepsMoments state.old state.new }
    ensures state { IsState state.new }
{
    match state.solve(&[cells]) {
        Ok(true) => return push(out, " yes"),
        Ok(false) => push(out, " no")?,
        Err(Stop::Nodes) => push(out, " full")?,
        Err(Stop::Memory) => push(out, " memory")?,
    }
    push(
        out,
        if is_seen(alloc, state, before) {
            ""
        } else {
            " changed"
        },
    )
}
