ghost use Rattle.std.specs.Prelude.{◌≡◌, ◌+◌, ◌≤◌, length, IfOk, OnOk};
ghost use Rattle.cb_elim.specs.Store.{IsStore};

use cb_dd::{Node, Stop};
use cb_elim::{Slot, Store};
use std::alloc::Global;

// Lets a store go.
pub(crate) fn end(_store: Store) {}

// Draws so many variables, each in the slot of its number.
fn draw(store: &mut Store, count: u32) -> Result<(), Stop>
    requires store { IsStore store.old }
    requires constants { store.old.constants ≡ 1 }
    requires drawn { store.old.drawn ≡ 1 }
    requires slots { length store.old.slots ≡ 0 }
    requires few { count ≤ 1000 }
    ensures store { IsStore store.new }
    ensures constants { store.new.constants ≡ 1 }
    ensures drawn { OnOk result (store.new.drawn ≡ 1 + count) }
    ensures slots { OnOk result (length store.new.slots ≡ count) }
{
    for _ in 0..count {
        let _x = store.variable()?;
    }
    Ok(())
}

// A store with one constant and so many variables, each in the slot of its number.
pub(crate) fn with_variables(alloc: Global, budget: usize, count: u32) -> Result<Store, Stop>
    requires { count ≤ 1000 }
    ensures store { IfOk result (λ s. IsStore s) }
    ensures constants { IfOk result (λ s. s.constants ≡ 1) }
    ensures drawn { IfOk result (λ s. s.drawn ≡ 1 + count) }
    ensures slots { IfOk result (λ s. length s.slots ≡ count) }
{
    let Ok(mut store) = Store::new(alloc, 1, budget) else {
        return Err(Stop::Memory);
    };
    match draw(&mut store, count) {
        Ok(()) => Ok(store),
        Err(stop) => {
            end(store);
            Err(stop)
        }
    }
}

// What can be seen of a store.
#[derive(PartialEq, Drop)]
pub(crate) struct Picture {
    drawn: u32,
    nodes: usize,
    values: Vec<Node>,
}

// The same of a store with so many slots.
pub(crate) fn seen(alloc: Global, store: &Store, slots: usize) -> Result<Picture, Stop>
    requires store { IsStore store.now }
    requires slots { slots ≤ length store.now.slots }
{
    let mut values = Vec::new(alloc);
    for x in 0..slots {
        values.push(store.value(Slot(x))).map_err(|_| Stop::Memory)?;
    }
    Ok(Picture {
        drawn: store.drawn(),
        nodes: store.read().count(),
        values,
    })
}

// How a trial ended, in a word.
pub(crate) fn said(found: Result<bool, Stop>) -> &'static str {
    match found {
        Ok(true) => " yes",
        Ok(false) => " no",
        Err(Stop::Nodes) => " full",
        Err(Stop::Memory) => " memory",
    }
}
