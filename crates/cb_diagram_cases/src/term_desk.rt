//! What the words of a line work on.

ghost use Rattle.cb_diagram_cases.specs.Sound.{IsSound};

use crate::term_equal::{chained, make_equal};
use crate::term_making::{compound, cons, deep, doubled, is_here, listed, pair, unknown};
use cb_heap::{Cell, Heap, Ref};
use cb_join::Search;
use cb_trial::text::{push, push_number};
use std::alloc::{AllocError, Global};
use std::test::Fail;

/// A stack of cells, one that was kept, and the last number that was read.
#[derive(Drop)]
pub struct Desk {
    number: u32,
    kept: Ref,
    stack: Vec<Ref>,
}

impl Desk {
    /// No cell on the stack.
    pub fn new(alloc: Global) -> Desk {
        Desk {
            number: 0,
            kept: Ref(0),
            stack: Vec::new(alloc),
        }
    }

    // Takes the cell on top of the stack away, the first one where there is none.
    fn pop(&mut self) -> Ref {
        self.stack.pop().unwrap_or(Ref(0))
    }

    /// Takes one word: a number, one that moves cells, one that tells something, or one that makes a cell.
    pub fn take(
        &mut self,
        alloc: Global,
        heap: &mut Heap,
        search: &mut Search,
        word: &str,
        out: &mut Vec<u8>,
    ) -> Result<(), Fail>
        requires sound { IsSound heap.old }
        ensures sound { IsSound heap.new }
    {
        if let Ok(number) = word.parse::<u32>() {
            self.number = number;
            return Ok(());
        }
        match word {
            "keep" => self.kept = self.pop(),
            "kept" => self.stack.push(self.kept)?,
            "cells" => tell_number(alloc, heap.len(), out)?,
            "form" => self.tell_form(alloc, heap, out)?,
            "same" => self.tell_same(alloc, heap, search, out)?,
            "chain" => {
                let last = chained(alloc, heap, search, self.number)?;
                self.stack.push(last)?;
            }
            _ => self.make(heap, word)?,
        }
        Ok(())
    }

    // Takes two cells away, makes them equal if that can be, and tells whether it can and how many pairs of slots that
    // leaves.
    fn tell_same(
        &mut self,
        alloc: Global,
        heap: &mut Heap,
        search: &mut Search,
        out: &mut Vec<u8>,
    ) -> Result<(), Fail>
        requires sound { IsSound heap.old }
        ensures sound { IsSound heap.new }
    {
        let r = self.pop();
        let l = self.pop();
        match make_equal(alloc, heap, search, l, r)? {
            Some(pairs) => {
                push(out, " yes")?;
                tell_number(alloc, pairs, out)
            }
            None => push(out, " no"),
        }
    }

    // Tells what stands at the end of the links from the cell on top of the stack.
    fn tell_form(&self, alloc: Global, heap: &Heap, out: &mut Vec<u8>) -> Result<(), Fail>
        requires sound { IsSound heap.now }
    {
        let r = self.stack.last().copied().unwrap_or(Ref(0));
        if !is_here(heap, r) {
            return push(out, " none");
        }
        match heap.cell(heap.last(r)) {
            Cell::Leaf(slot) => {
                push(out, " bit")?;
                tell_number(alloc, slot, out)
            }
            Cell::BusVar => push(out, " bus"),
            Cell::BusNil => push(out, " nil"),
            Cell::BusCons(_, _) => push(out, " cons"),
            Cell::TermVar => push(out, " var"),
            Cell::Int(value) => {
                push(out, " int ")?;
                push_number(alloc, out, value)
            }
            Cell::Node(name, count) => {
                push(out, " name")?;
                tell_number(alloc, name as usize, out)?;
                tell_number(alloc, count, out)
            }
            Cell::Bound(_) => push(out, " link"),
        }
    }

    // Puts the cell of a word on the stack.
    fn make(&mut self, heap: &mut Heap, word: &str) -> Result<(), Fail>
        requires sound { IsSound heap.old }
        ensures sound { IsSound heap.new }
    {
        let made = self.made(heap, word)?;
        self.stack.push(made)?;
        Ok(())
    }

    // Makes a cell of the cells on the stack.
    fn made(&mut self, heap: &mut Heap, word: &str) -> Result<Ref, AllocError>
        requires sound { IsSound heap.old }
        ensures sound { IsSound heap.new }
    {
        let number = self.number;
        match word {
            "cons" => {
                let tail = self.pop();
                cons(heap, self.pop(), tail)
            }
            "list" => {
                let tail = self.pop();
                listed(heap, self.pop(), tail, number)
            }
            "one" => compound(heap, number, self.pop()),
            "two" => {
                let last = self.pop();
                pair(heap, number, self.pop(), last)
            }
            "deep" => deep(heap, self.pop(), number),
            "double" => doubled(heap, self.pop(), number),
            _ => unknown(heap, word, number),
        }
    }
}

// Appends a number.
fn tell_number(alloc: Global, number: usize, out: &mut Vec<u8>) -> Result<(), Fail> {
    push(out, " ")?;
    push_number(alloc, out, i64::try_from(number).unwrap_or(i64::MAX))
}
