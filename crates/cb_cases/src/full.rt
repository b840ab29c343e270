//! Stores with room for few nodes.

ghost use Rattle.std.specs.Prelude.{◌≡◌, length};
ghost use Rattle.cb_elim.specs.Store.{IsStore, IsArgument};

use crate::setup::{end, seen, with_variables};
use cb_dd::{Node, Stop};
use cb_elim::{Slot, Store};
use cb_trial::text::push;
use std::alloc::Global;
use std::test::Fail;

// How a list of equations ended.
#[derive(Clone, Copy, PartialEq)]
enum Ending {
    Solved,
    Refused,
    // A stop for nodes, and whether the store was as before it.
    Full(bool),
}

// Adds an equation to a store of forty slots.
fn watched(alloc: Global, store: &mut Store, f: Node, g: Node) -> Result<Ending, Stop>
    requires store { IsStore store.old }
    requires slots { length store.old.slots ≡ 40 }
    requires f { IsArgument store.old f.0 }
    requires g { IsArgument store.old g.0 }
    ensures constants { store.new.constants ≡ store.old.constants }
    ensures slots { length store.new.slots ≡ 40 }
    ensures store { IsStore store.new }
{
    let before = seen(alloc, store, 40)?;
    match store.unify(f, g) {
        Ok(true) => Ok(Ending::Solved),
        Ok(false) => Ok(Ending::Refused),
        Err(Stop::Nodes) => {
            let after = seen(alloc, store, 40)?;
            Ok(Ending::Full(before == after))
        }
        Err(Stop::Memory) => Err(Stop::Memory),
    }
}

// Whether each of the forty slots has this value.
fn are_all(store: &Store, node: Node) -> bool
    requires store { IsStore store.now }
    requires slots { length store.now.slots ≡ 40 }
{
    for x in 0..40 {
        if store.value(Slot(x)) != node {
            return false;
        }
    }
    true
}

// The forty variables of a store are made equal one after another, and then the last of them is made equal to the constant.
fn chain_in(alloc: Global, store: &mut Store) -> Result<Ending, Stop>
    requires store { IsStore store.old }
    requires constants { store.old.constants ≡ 1 }
    requires slots { length store.old.slots ≡ 40 }
{
    for x in 1..40 {
        let f = store.value(Slot(x - 1));
        let g = store.value(Slot(x));
        let ending = watched(alloc, store, f, g)?;
        if ending != Ending::Solved {
            return Ok(ending);
        }
    }
    let a = store.constant(0)?;
    let f = store.value(Slot(39));
    let ending = watched(alloc, store, f, a)?;
    if ending == Ending::Solved && !are_all(store, a) {
        return Ok(Ending::Refused);
    }
    Ok(ending)
}

// The same in a store of its own.
fn chain(alloc: Global, budget: usize) -> Result<Ending, Stop> {
    let mut store = with_variables(alloc, budget, 40)?;
    let ending = chain_in(alloc, &mut store);
    end(store);
    ending
}

/// Writes how the chain ends in a store for so many nodes.
pub(crate) fn tell_chain(alloc: Global, budget: u32, out: &mut Vec<u8>) -> Result<(), Fail> {
    let word = match chain(alloc, budget as usize) {
        Ok(Ending::Solved) => " solved",
        Ok(Ending::Refused) => " refused",
        Ok(Ending::Full(true)) => " full as before",
        Ok(Ending::Full(false)) => " full and changed",
        Err(Stop::Nodes) => " full",
        Err(Stop::Memory) => " memory",
    };
    push(out, word)
}

/// Writes whether every budget below what the chain needs stops it, the equation that stops leaves the store as it was, and
/// the first budget that is enough is at least that of the nodes of the variables and of the constant.
pub(crate) fn tell_budgets(alloc: Global, most: u32, out: &mut Vec<u8>) -> Result<(), Fail> {
    for budget in 0..most {
        match chain(alloc, budget as usize) {
            Err(Stop::Nodes) | Ok(Ending::Full(true)) => {}
            Ok(Ending::Solved) => {
                return push(out, if budget < 41 { " too early" } else { " enough" });
            }
            _ => return push(out, " other"),
        }
    }
    push(out, " never enough")
}
