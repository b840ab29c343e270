//! The parametric form of an answer: for each leaf a function of the constants and of the parameters up to its own.
#![tactic(auto)]

ghost use Rattle.std.specs.Prelude.{◌≡◌, ◌≢◌, ◌+◌, ◌-◌, ◌<◌, ◌^◌, length, Ok, Err, IfOk};
ghost use Rattle.cb_elim.specs.Store.{IsStore};
ghost use Rattle.cb_elim.specs.Moments.{KeepsMoments};
ghost use Rattle.cb_project.specs.Leaves.{ParametricRoom};
ghost use Rattle.cb_project.specs.Answer.{AnswerCause, AreSlots, DrawsLevels, IsProjected, slot_nodes};

use cb_dd::{Node, Stop};
use cb_elim::{Slot, Store};
use renaming::{form_nodes, renaming};
use sqlite_items::Items;
use std::alloc::Global;

mod leaves;
mod renaming;

/// The parametric form of an answer.
#[derive(Debug, Drop)]
pub struct Projected {
    /// The level of the first parameter: parameter `_j`, counted from 1, has level `first + j - 1`.
    pub first: u32,
    /// The functions of the leaves in order, over the constants and the parameters.
    pub nodes: Items<Node>,
}

// The nodes of the slots' values.
fn slot_values(alloc: Global, store: &Store, leaves: &[Slot]) -> Result<Vec<Node>, Stop>
    requires store { IsStore store.now }
    requires slots { AreSlots store.now leaves.now }
    ensures values { IfOk result (λ v. v.items ≡ slot_nodes store.now leaves.now) }
    ensures memory { result ≢ Err Stop.Nodes }
{
    let mut values = Vec::new(alloc);
    for leaf in leaves {
        let Ok(_) = values.push(store.value(*leaf)) else {
            return Err(Stop::Memory);
        };
    }
    Ok(values)
}

/// The parametric form of the slots' values: node j, counted from 1, is parameter `_j` where the store's equations
/// allow that after the leaves before it, else the other bit. It draws a level for each leaf.
///
/// Where the leaves are variables in the order of their levels, their values are this form as they stand, with the levels
/// in place of the parameters. Else, leaf by leaf: the solution (Boole 1854) of "the leaf is its node" is put into the
/// leaves that follow. After a stop the levels are drawn and nodes may stay; all goes with an undo of the caller.
pub fn general(alloc: Global, store: &mut Store, leaves: &[Slot]) -> Result<Projected, Stop>
    requires store { IsStore store.old }
    requires slots { AreSlots store.old leaves.now }
    requires levels { store.old.drawn + length leaves.now < 2 ^ 32 }
    ensures projected { IfOk result (λ r. IsProjected store.old store.new leaves.now r.first r.nodes) }
    ensures draws { DrawsLevels store.old store.new (length leaves.now) }
    ensures moments { KeepsMoments store.old store.new }
    ensures store { IsStore store.new }
    ensures room { ParametricRoom (slot_nodes store.old leaves.now) store.old.nodes store.new.nodes }
    ensures cause { result ≡ Err Stop.Nodes → AnswerCause store.old store.new leaves.now }
    ensures unbounded { store.old.nodes.budget ≡ 2 ^ 64 - 1 → result ≢ Err Stop.Nodes }
{
    let first = store.draw(leaves.len() as u32);
    let values = slot_values(alloc, store, leaves)?;
    let constants = store.constants();
    let Ok(names) = renaming(alloc, store, leaves, &values, first) else {
        return Err(Stop::Memory);
    };
    let found = form_nodes(alloc, store.ops(), &values, names, constants, first);
    let _count = store.read().count();
    let nodes = found?;
    Ok(Projected {
        first,
        nodes: Items::from_vec(nodes),
    })
}
