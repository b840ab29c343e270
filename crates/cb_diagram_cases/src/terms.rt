//! Run-time terms and how they are made equal: the words of a line work on a stack of cells, and what they tell is written
//! as a line.

ghost use Rattle.cb_diagram_cases.specs.Sound.{IsSound};

use crate::term_desk::Desk;
use cb_heap::Heap;
use cb_join::Search;
use cb_trial::text::push;
use std::alloc::Global;
use std::test::Fail;

/// Writes what the words of a line tell.
pub fn tell(alloc: Global, words: &str, out: &mut Vec<u8>) -> Result<(), Fail> {
    let mut heap = Heap::new(alloc);
    let told = work(alloc, &mut heap, words, out);
    end(heap);
    told?;
    push(out, "\n")
}

// Lets a heap go.
fn end(heap: Heap) {}

// Lets the words work on a heap, one after another.
fn work(alloc: Global, heap: &mut Heap, words: &str, out: &mut Vec<u8>) -> Result<(), Fail>
    requires sound { IsSound heap.old }
{
    let mut desk = Desk::new(alloc);
    let mut search = Search::new(alloc);
    push(out, "=")?;
    for word in words.split(' ') {
        desk.take(alloc, heap, &mut search, word, out)?;
    }
    Ok(())
}
