//! Cells made equal, or left as they were.

ghost use Rattle.std.specs.Prelude.{◌≡◌, ◌<◌, length, OnSome, IfOk};
ghost use Rattle.cb_heap.specs.Finite.{AllFinite};
ghost use Rattle.cb_heap.specs.Heap.{IsHeap};
ghost use Rattle.cb_heap.specs.Moments.{KeepsMoments};
ghost use Rattle.cb_diagram_cases.specs.Sound.{IsSound};

use crate::term_making::{is_here, unknown};
use cb_heap::{Heap, Ref};
use cb_join::{Owed, Search, is_finite, join};
use std::alloc::{AllocError, Global};

/// Makes two cells equal. The number of pairs of slots that are left, or `None` where the cells differ or a value would
/// stand below itself; then, and after a refusal, the heap is as before.
pub fn make_equal(
    alloc: Global,
    heap: &mut Heap,
    search: &mut Search,
    l: Ref,
    r: Ref,
) -> Result<Option<usize>, AllocError>
    requires sound { IsSound heap.old }
    ensures sound { IsSound heap.new }
{
    if !is_here(heap, l) || !is_here(heap, r) {
        return Ok(None);
    }
    let before = heap.mark();
    match attempt(alloc, heap, search, l, r) {
        Ok(Some(pairs)) => Ok(Some(pairs)),
        Ok(None) => {
            heap.undo(before);
            Ok(None)
        }
        Err(failed) => {
            heap.undo(before);
            Err(failed)
        }
    }
}

// The same; but where no number is given, cells may be left rewritten.
fn attempt(
    alloc: Global,
    heap: &mut Heap,
    search: &mut Search,
    l: Ref,
    r: Ref,
) -> Result<Option<usize>, AllocError>
    requires sound { IsSound heap.old }
    requires there { (l.0 < length heap.old.cells) × (r.0 < length heap.old.cells) }
    ensures finite { IfOk result (λ found. OnSome found (AllFinite heap.new.cells)) }
    ensures moments { KeepsMoments heap.old heap.new }
    ensures heap { IsHeap heap.new }
{
    let since = heap.mark();
    let mut pending = Vec::new(alloc);
    pending.push((l.0, r.0))?;
    let mut owed = Owed {
        pending,
        leaves: Vec::new(alloc),
    };
    if !join(heap, &mut owed)? {
        return Ok(None);
    }
    if !is_finite(heap, search, since, 0)? {
        return Ok(None);
    }
    Ok(Some(owed.leaves.len()))
}

/// The last of so many variables, each made equal to the one before it, and one more.
pub fn chained(
    alloc: Global,
    heap: &mut Heap,
    search: &mut Search,
    count: u32,
) -> Result<Ref, AllocError>
    requires sound { IsSound heap.old }
    ensures sound { IsSound heap.new }
{
    let mut last = unknown(heap, "var", 0)?;
    for _ in 0..count {
        let next = unknown(heap, "var", 0)?;
        make_equal(alloc, heap, search, last, next)?;
        last = next;
    }
    Ok(last)
}
