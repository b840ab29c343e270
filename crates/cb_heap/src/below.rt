//! Which cells stand below a cell.

ghost use Rattle.std.specs.Prelude.{◌≡◌, ◌⊎◌, ◌↔◌, ℕ, ◌<◌, ◌≤◌, ◌+◌, ◌^◌, length, nat_eq, IfOk, OnOk, IsTrue};
ghost use Rattle.std.specs.List.{IsDistinct};
ghost use Rattle.cb_heap.specs.Finite.{Names};
ghost use Rattle.cb_heap.specs.Below.{IsBelow, Meets};
ghost use Rattle.cb_heap.specs.Links.{IsLinked};

use crate::Stored;
use indexmap::IndexSet;
use std::alloc::{AllocError, Global};

/// Whether a cell is this one, or below it: the cells that are met are looked at in turn, each once.
pub(crate) fn is_below(
    alloc: Global,
    cells: &[Stored],
    from: usize,
    to: usize,
) -> Result<bool, AllocError>
    requires linked { IsLinked cells.now }
    requires there { from < length cells.now }
    requires small { length cells.now < 2 ^ 63 }
    ensures { IfOk result (λ b. IsTrue b ↔ IsBelow cells.now from to) }
{
    let mut met = IndexSet::new(alloc);
    met.insert(from)?;
    let mut done = 0;
    'cells: while let Some(at) = met.get_index(done).copied() {
        if at == to {
            return Ok(true);
        }
        meet(cells[at], at, &mut met)?;
        done += 1;
    }
    Ok(false)
}

// Adds the cells that a cell names behind those that were met before.
pub(crate) fn meet(cell: Stored, at: usize, met: &mut IndexSet<usize>) -> Result<(), AllocError>
    requires unique { IsDistinct nat_eq met.old.keys }
    requires small { (j : ℕ) → Names at cell j → j < 2 ^ 64 }
    ensures meets { OnOk result (Meets (Names at cell) met.old.keys met.new.keys) }
{
    match cell {
        Stored::BusCons(head, tail) => {
            met.insert(head.0)?;
            met.insert(tail.0)?;
        }
        Stored::Node(_, count) => meet_behind(at, count, met)?,
        Stored::Bound(to) => {
            met.insert(to.0)?;
        }
        Stored::Same(to) => {
            met.insert(to.0)?;
        }
        _ => {}
    }
    Ok(())
}

// Adds so many cells behind a cell.
fn meet_behind(at: usize, count: usize, met: &mut IndexSet<usize>) -> Result<(), AllocError>
    requires unique { IsDistinct nat_eq met.old.keys }
    requires small { at + count < 2 ^ 64 }
    ensures meets { OnOk result (Meets (λ j. (at < j) × (j ≤ at + count)) met.old.keys met.new.keys) }
{
    for k in 0..count {
        met.insert(at + 1 + k)?;
    }
    Ok(())
}
