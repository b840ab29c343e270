//! New cells, each of cells that are tested to be there; where one isn't, the first that was asked for is given back.

ghost use Rattle.std.specs.Prelude.{◌<◌, ◌↔◌, length, IsTrue};
ghost use Rattle.cb_heap.specs.Heap.{IsAddable};
ghost use Rattle.cb_diagram_cases.specs.Sound.{IsSound};

use cb_heap::{Cell, Heap, Ref};
use std::alloc::AllocError;

/// Whether the cell is there.
pub fn is_here(heap: &Heap, r: Ref) -> bool
    ensures { IsTrue result ↔ r.0 < length heap.now.cells }
{
    r.0 < heap.len()
}

/// A cell of a word: a variable, the empty bus, the bit of a slot, an integer, or a name without arguments.
pub fn unknown(heap: &mut Heap, word: &str, number: u32) -> Result<Ref, AllocError>
    requires sound { IsSound heap.old }
    ensures sound { IsSound heap.new }
{
    match word {
        "bus" => added(heap, Cell::BusVar),
        "nil" => added(heap, Cell::BusNil),
        "slot" => added(heap, Cell::Leaf(number as usize)),
        "int" => added(heap, Cell::Int(number as i64)),
        "name" => named(heap, number),
        _ => added(heap, Cell::TermVar),
    }
}

// One cell more.
fn added(heap: &mut Heap, cell: Cell) -> Result<Ref, AllocError>
    requires sound { IsSound heap.old }
    requires addable { IsAddable (length heap.old.cells) cell }
    ensures sound { IsSound heap.new }
{
    let r = heap.add(cell)?;
    Ok(r)
}

// A name without arguments.
fn named(heap: &mut Heap, name: u32) -> Result<Ref, AllocError>
    requires sound { IsSound heap.old }
    ensures sound { IsSound heap.new }
{
    let r = heap.add_node(name, &[])?;
    Ok(r)
}

/// A bus with this first element.
pub fn cons(heap: &mut Heap, head: Ref, tail: Ref) -> Result<Ref, AllocError>
    requires sound { IsSound heap.old }
    ensures sound { IsSound heap.new }
{
    if !is_here(heap, head) || !is_here(heap, tail) {
        return Ok(head);
    }
    added(heap, Cell::BusCons(head, tail))
}

/// A compound with one argument.
pub fn compound(heap: &mut Heap, name: u32, argument: Ref) -> Result<Ref, AllocError>
    requires sound { IsSound heap.old }
    ensures sound { IsSound heap.new }
{
    if !is_here(heap, argument) {
        return Ok(argument);
    }
    let r = heap.add_node(name, &[argument])?;
    Ok(r)
}

/// A compound with two arguments.
pub fn pair(heap: &mut Heap, name: u32, first: Ref, second: Ref) -> Result<Ref, AllocError>
    requires sound { IsSound heap.old }
    ensures sound { IsSound heap.new }
{
    if !is_here(heap, first) || !is_here(heap, second) {
        return Ok(first);
    }
    let r = heap.add_node(name, &[first, second])?;
    Ok(r)
}

/// The cell under so many compounds of one argument.
pub fn deep(heap: &mut Heap, bottom: Ref, count: u32) -> Result<Ref, AllocError>
    requires sound { IsSound heap.old }
    ensures sound { IsSound heap.new }
{
    let mut top = bottom;
    for _ in 0..count {
        top = compound(heap, 1, top)?;
    }
    Ok(top)
}

/// So many compounds, each of the one before it twice.
pub fn doubled(heap: &mut Heap, bottom: Ref, count: u32) -> Result<Ref, AllocError>
    requires sound { IsSound heap.old }
    ensures sound { IsSound heap.new }
{
    let mut top = bottom;
    for _ in 0..count {
        top = pair(heap, 2, top, top)?;
    }
    Ok(top)
}

/// A bus that begins with so many times the element.
pub fn listed(heap: &mut Heap, head: Ref, tail: Ref, count: u32) -> Result<Ref, AllocError>
    requires sound { IsSound heap.old }
    ensures sound { IsSound heap.new }
{
    let mut bus = tail;
    for _ in 0..count {
        bus = cons(heap, head, bus)?;
    }
    Ok(bus)
}
