//! Calls that are parked.

ghost use Rattle.std.specs.Prelude.{◌≡◌, suc, ◌+◌, ◌<◌, length, IfOk};
ghost use Rattle.cb_unify.specs.State.{IsState};
ghost use Rattle.cb_ready.specs.Parked.{AreFrom, ParksCall};

use cb_heap::{Heap, Ref, Stored};
use cb_unify::State;
use std::alloc::{AllocError, Global};
use std::marker::Model;

/// A call that was parked.
#[derive(Drop)]
pub struct Parked {
    /// Its predicate.
    pub pred: u32,
    /// Its cell.
    pub call: Ref,
    /// The cells of its arguments, in order.
    pub args: Vec<Ref>,
}

impl Model for Parked {
    ghost use Rattle.cb_ready.specs.Parked.{Parked};

    ghost Value = { Parked };

    ghost view = { λ p. record { pred = p.pred; call = p.call; args = p.args.items } };
}

impl Parked {
    /// The call of a predicate in a cell, with the cells of its arguments.
    pub fn new(alloc: Global, state: &State, pred: u32, call: Ref) -> Result<Parked, AllocError>
        requires state { IsState state.now }
        requires there { call.0 < length state.now.heap.sorts }
        ensures call { IfOk result (λ p. (p.pred ≡ pred) × (p.call ≡ call)) }
        ensures parked { IfOk result (ParksCall state.now pred call.0) }
    {
        let heap = state.heap();
        let last = heap.last(call);
        match heap.stored(last) {
            Stored::Node(_, count) => {
                let args = arguments(alloc, heap, last, count)?;
                Ok(Parked { pred, call, args })
            }
            // Nothing else stands for a call.
            _ => Ok(Parked {
                pred,
                call,
                args: Vec::new(alloc),
            }),
        }
    }
}

// The cells behind that of a compound with so many arguments.
fn arguments(
    alloc: Global,
    heap: &Heap,
    compound: Ref,
    count: usize,
) -> Result<Vec<Ref>, AllocError>
    requires { compound.0 + count < length heap.now.cells }
    ensures cells { IfOk result (λ v. AreFrom (suc compound.0) v.items) }
    ensures number { IfOk result (λ v. length v.items ≡ count) }
{
    let mut args = Vec::with_capacity(alloc, count)?;
    'cells: while args.len() < count {
        args.push(heap.arg(compound, args.len()))?;
    }
    Ok(args)
}
