//! How new cells are stored.

ghost use Rattle.std.specs.Prelude.{◌≡◌, ℕ, ◌<◌, ◌∷◌, ◌++◌, length, map, take, get_or, OnOk};
ghost use Rattle.cb_model.specs.Bits.{Each};
ghost use Rattle.cb_heap.specs.Heap.{sort_of, stored_as};
ghost use Rattle.cb_model.specs.declared.Sort.TheVariants as sort;
ghost use Rattle.cb_heap.specs.declared.Stored.TheVariants as cell;

use crate::{Cell, Ref, Stored};
use cb_model::Sort;
use std::alloc::AllocError;

/// The sort of a new cell's value.
pub(crate) fn sort(cell: Cell) -> Sort
    ensures { result ≡ sort_of cell }
{
    match cell {
        Cell::Leaf(_) => Sort::Bool,
        Cell::BusVar => Sort::Bus,
        Cell::BusNil => Sort::Bus,
        Cell::BusCons(_, _) => Sort::Bus,
        _ => Sort::Term,
    }
}

/// How a new cell is stored.
pub(crate) fn stored(cell: Cell) -> Stored
    ensures { result ≡ stored_as cell }
{
    match cell {
        Cell::Leaf(slot) => Stored::Leaf(slot),
        Cell::BusVar => Stored::BusVar,
        Cell::BusNil => Stored::BusNil,
        Cell::BusCons(head, tail) => Stored::BusCons(head, tail),
        Cell::TermVar => Stored::TermVar,
        Cell::Int(value) => Stored::Int(value),
        Cell::Node(name, count) => Stored::Node(name, count),
        Cell::Bound(to) => Stored::Bound(to),
    }
}

/// Adds the cell of a compound, and one for each argument. After a refusal some of them may be there.
pub(crate) fn push_node(
    cells: &mut Vec<Stored>,
    sorts: &mut Vec<Sort>,
    name: u32,
    args: &[Ref],
) -> Result<(), AllocError>
    requires there { Each (λ r. r.0 < length sorts.old.items) args.now }
    ensures cells { OnOk result (cells.new.items ≡ cells.old.items ++ cell.Node name (length args.now) ∷ map (λ r. cell.Bound r) args.now) }
    ensures sorts { OnOk result (sorts.new.items ≡ sorts.old.items ++ sort.Term ∷ map (λ r. get_or sorts.old.items r.0 sort.Bool) args.now) }
    ensures kept { take (length cells.old.items) cells.new.items ≡ cells.old.items }
    ensures kept_sorts { take (length sorts.old.items) sorts.new.items ≡ sorts.old.items }
{
    cells.push(Stored::Node(name, args.len()))?;
    push_links(cells, args)?;
    sorts.push(Sort::Term)?;
    push_sorts(sorts, args)?;
    Ok(())
}

// Adds a link to each argument.
fn push_links(cells: &mut Vec<Stored>, args: &[Ref]) -> Result<(), AllocError>
    ensures cells { OnOk result (cells.new.items ≡ cells.old.items ++ map (λ r. cell.Bound r) args.now) }
    ensures kept { take (length cells.old.items) cells.new.items ≡ cells.old.items }
{
    for arg in args {
        cells.push(Stored::Bound(*arg))?;
    }
    Ok(())
}

// Adds the sort of each argument.
fn push_sorts(sorts: &mut Vec<Sort>, args: &[Ref]) -> Result<(), AllocError>
    requires there { Each (λ r. r.0 < length sorts.old.items) args.now }
    ensures sorts { OnOk result (sorts.new.items ≡ sorts.old.items ++ map (λ r. get_or sorts.old.items r.0 sort.Bool) args.now) }
    ensures kept { take (length sorts.old.items) sorts.new.items ≡ sorts.old.items }
{
    for arg in args {
        let sort = sorts[arg.0];
        sorts.push(sort)?;
    }
    Ok(())
}
