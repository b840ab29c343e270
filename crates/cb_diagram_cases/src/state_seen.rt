//! What can be seen of a state.

ghost use Rattle.std.specs.Prelude.{◌<◌, length};
ghost use Rattle.cb_unify.specs.State.{IsState};

use crate::telling::tell_table;
use cb_dd::Node;
use cb_elim::Slot;
use cb_heap::{Cell, Ref};
use cb_model::Sort;
use cb_trial::text::{push, push_number};
use cb_unify::State;
use std::alloc::{AllocError, Global};
use std::test::Fail;

/// The cells with their sorts, the node of each that is a truth value, and how many levels, free levels and nodes there are.
#[derive(PartialEq, Drop)]
pub struct Picture {
    cells: Vec<(Cell, Sort)>,
    values: Vec<Option<Node>>,
    drawn: u32,
    free: usize,
    nodes: usize,
}

/// What can be seen of a state now.
pub fn seen(alloc: Global, state: &State) -> Result<Picture, AllocError>
    requires state { IsState state.now }
{
    let mut cells = Vec::new(alloc);
    let mut values = Vec::new(alloc);
    for at in 0..state.heap().len() {
        let r = Ref(at);
        cells.push((state.heap().cell(r), state.heap().sort(r)))?;
        values.push(bit(state, r))?;
    }
    Ok(Picture {
        cells,
        values,
        drawn: state.store_ref().drawn(),
        free: state.store_ref().free().len(),
        nodes: state.store_ref().read().count(),
    })
}

// The node of a cell that is a truth value.
fn bit(state: &State, r: Ref) -> Option<Node>
    requires state { IsState state.now }
    requires there { r.0 < length state.now.heap.cells }
{
    match state.heap().cell(state.heap().last(r)) {
        Cell::Leaf(slot) => Some(state.store_ref().value(Slot(slot))),
        _ => None,
    }
}

/// Whether the state is as in a picture; false where there is no memory to look.
pub fn is_seen(alloc: Global, state: &State, before: &Picture) -> bool
    requires state { IsState state.now }
{
    match seen(alloc, state) {
        Ok(now) => {
            let same = now == *before;
            drop(now);
            same
        }
        Err(_) => false,
    }
}

/// Tells what stands at the end of the links from a cell.
pub fn push_form(
    alloc: Global,
    state: &State,
    r: Option<Ref>,
    out: &mut Vec<u8>,
) -> Result<(), Fail>
    requires state { IsState state.now }
{
    let Some(r) = r else {
        return push(out, " none");
    };
    if r.0 >= state.heap().len() {
        return push(out, " absent");
    }
    if let Some(node) = bit(state, r) {
        push(out, " bit")?;
        return tell_table(state.store_ref().read(), node, out);
    }
    match state.heap().cell(state.heap().last(r)) {
        Cell::Leaf(_) => push(out, " bit"),
        Cell::BusVar => push(out, " bus"),
        Cell::BusNil => push(out, " nil"),
        Cell::BusCons(_, _) => push(out, " cons"),
        Cell::TermVar => push(out, " term"),
        Cell::Int(value) => {
            push(out, " int ")?;
            push_number(alloc, out, value)
        }
        Cell::Node(name, count) => {
            push(out, " name ")?;
            push_number(alloc, out, i64::from(name))?;
            push(out, "/")?;
            push_number(alloc, out, i64::try_from(count).unwrap_or(-1))
        }
        Cell::Bound(_) => push(out, " link"),
    }
}
