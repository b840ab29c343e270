//! Leaves whose values are a parametric form already: the parameters take the places of their levels, and nothing is
//! eliminated.

ghost use Rattle.std.specs.Prelude.{◌≡◌, ◌⊎◌, ℕ, ◌+◌, ◌<◌, ◌≤◌, ◌^◌, nat_eq, length, Some, None, Ok, Err, IfOk, IfSome, IsTrue, IsSome};
ghost use Rattle.indexmap.specs.IndexMap.{get};
ghost use Rattle.cb_model.specs.Outside.{Rose};
ghost use Rattle.cb_dd.specs.Diagram.{IsNode};
ghost use Rattle.cb_ops.specs.Ops.{Grows, StandsFor};
ghost use Rattle.cb_ops.specs.Support.{IsListed};
ghost use Rattle.cb_elim.specs.Store.{IsStore, stands_in};
ghost use Rattle.cb_project.specs.Answer.{AreSlots, slot_nodes};
ghost use Rattle.cb_project.specs.Leaves.{functions_of, AllBelow, AllNodes, IsFormOf, ParametricRoom};
ghost use Rattle.cb_project.specs.Renaming.{AreAllNamed, AreImages, IsNamedNext, IsRenaming, names_in};

use crate::leaves::{Way, leaf_nodes, put_in};
use cb_dd::{Node, Stop};
use cb_elim::{Free, Slot, Store};
use cb_ops::Ops;
use indexmap::IndexMap;
use std::alloc::{AllocError, Global};

// The level that stands for each variable, by the variable's slot. It goes as far as the levels rise.
fn levels_of(alloc: Global, free: &[Free]) -> Result<IndexMap<usize, u32>, AllocError>
    ensures { IfOk result (λ m. (x l : ℕ) → get nat_eq m x ≡ Some l → stands_in free.now l ≡ Some x) }
{
    let mut levels = IndexMap::new(alloc);
    let mut next = 0;
    for entry in free {
        if u64::from(entry.level) < next {
            break;
        }
        levels.insert(entry.slot, entry.level)?;
        next = u64::from(entry.level) + 1;
    }
    Ok(levels)
}

// Whether each of the levels is a constant's or has a parameter.
fn have_names(levels: &[u32], constants: u32, names: &IndexMap<u32, u32>) -> bool
    ensures { IsTrue result → (l : ℕ) → IsListed levels.now l → (l < constants) ⊎ IsSome (names_in names.now.entries l) }
{
    for level in levels {
        if constants <= *level && !names.contains_key(level) {
            return false;
        }
    }
    true
}

// Gives a leaf's own level its parameter, where the level isn't below `next`. The least level that may follow.
fn give_name(
    names: &mut IndexMap<u32, u32>,
    next: u64,
    own: Option<u32>,
    parameter: u32,
) -> Result<u64, AllocError>
    requires absent { (l : ℕ) → next ≤ l → names_in names.old.entries l ≡ None }
    ensures { IfOk result (λ now. IsNamedNext names.old.entries names.new.entries next now own parameter) }
{
    let Some(level) = own else {
        return Ok(next);
    };
    if u64::from(level) < next {
        return Ok(next);
    }
    names.insert(level, parameter)?;
    Ok(u64::from(level) + 1)
}

/// The levels that get parameters, each with its parameter's level, where the leaves' values are a parametric form as
/// they stand: each leaf depends on the constants, on levels of the leaves before it and on its own alone, and the levels
/// rise. `None` where it isn't seen to be so.
pub fn renaming(
    alloc: Global,
    store: &Store,
    leaves: &[Slot],
    values: &[Node],
    first: u32,
) -> Result<Option<IndexMap<u32, u32>>, AllocError>
    requires store { IsStore store.now }
    requires slots { AreSlots store.now leaves.now }
    requires values { values.now ≡ slot_nodes store.now leaves.now }
    requires levels { first + length leaves.now < 2 ^ 32 }
    ensures { IfOk result (λ found. IfSome found (λ m. AreAllNamed store.now first leaves.now m.entries)) }
{
    let levels = levels_of(alloc, store.free())?;
    let constants = store.constants();
    let mut names = IndexMap::new(alloc);
    let mut next = u64::from(constants);
    for (i, leaf) in leaves.iter().enumerate() {
        let own = levels.get(&leaf.0).copied();
        next = give_name(&mut names, next, own, first + i as u32)?;
        let support = store.read().support(values[i])?;
        if !have_names(support.as_slice(), constants, &names) {
            return Ok(None);
        }
    }
    Ok(Some(names))
}

// The node of a level's bit.
fn bit(ops: &mut Ops, level: u32) -> Result<Node, Stop>
    ensures is_node { IfOk result (λ n. IsNode ops.new.triples n.0) }
    ensures function { IfOk result (λ n. StandsFor ops.new.triples n.0 (λ p. p level)) }
    ensures grows { Grows ops.old ops.new }
    ensures one { length ops.new.triples ≤ length ops.old.triples + 1 }
    ensures full { result ≡ Err Stop.Nodes → length ops.new.triples ≡ ops.new.budget }
    ensures rose { result ≡ Err Stop.Nodes → Rose ops.old.fulls ops.new.fulls }
{
    let n = ops.node(level, Node::ZERO, Node::ONE)?;
    Ok(n)
}

// For each level the node of its parameter.
fn parameters(
    alloc: Global,
    ops: &mut Ops,
    names: &IndexMap<u32, u32>,
) -> Result<Vec<(u32, Node)>, Stop>
    ensures images { IfOk result (λ v. AreImages ops.new.triples names.now.entries v.items) }
    ensures grows { Grows ops.old ops.new }
    ensures room { length ops.new.triples ≤ length ops.old.triples + length names.now.entries }
    ensures full { result ≡ Err Stop.Nodes → length ops.new.triples ≡ ops.new.budget }
    ensures rose { result ≡ Err Stop.Nodes → Rose ops.old.fulls ops.new.fulls }
{
    let mut images = Vec::new(alloc);
    for i in 0..names.len() {
        let Some((level, parameter)) = names.get_index(i) else {
            break;
        };
        let node = bit(ops, *parameter)?;
        let Ok(_) = images.push((*level, node)) else {
            return Err(Stop::Memory);
        };
    }
    Ok(images)
}

/// The nodes with the parameters in place of their levels.
pub fn renamed_nodes(
    alloc: Global,
    ops: &mut Ops,
    values: &[Node],
    names: &IndexMap<u32, u32>,
    constants: u32,
    first: u32,
) -> Result<Vec<Node>, Stop>
    requires nodes { AllNodes ops.old.triples values.now }
    requires names { IsRenaming constants first (functions_of ops.old.triples values.now) names.now.entries }
    ensures form { IfOk result (λ v. IsFormOf ops.old.triples ops.new.triples constants first values.now v.items) }
    ensures grows { Grows ops.old ops.new }
    ensures room { ParametricRoom values.now ops.old ops.new }
    ensures full { result ≡ Err Stop.Nodes → length ops.new.triples ≡ ops.new.budget }
    ensures rose { result ≡ Err Stop.Nodes → Rose ops.old.fulls ops.new.fulls }
{
    let images = parameters(alloc, ops, names)?;
    let nodes = put_in(alloc, ops, values, &images, Way::AtOnce)?;
    Ok(nodes)
}

/// The parametric form of the leaves whose values are these nodes: where they are one as they stand, with the parameters
/// in place of their levels; else leaf by leaf.
pub fn form_nodes(
    alloc: Global,
    ops: &mut Ops,
    values: &[Node],
    found: Option<IndexMap<u32, u32>>,
    constants: u32,
    first: u32,
) -> Result<Vec<Node>, Stop>
    requires nodes { AllNodes ops.old.triples values.now }
    requires constants { constants ≤ first }
    requires levels { first + length values.now ≤ 2 ^ 32 }
    requires below { AllBelow first (functions_of ops.old.triples values.now) }
    requires names { IfSome found (λ m. IsRenaming constants first (functions_of ops.old.triples values.now) m.entries) }
    ensures form { IfOk result (λ v. IsFormOf ops.old.triples ops.new.triples constants first values.now v.items) }
    ensures grows { Grows ops.old ops.new }
    ensures room { ParametricRoom values.now ops.old ops.new }
    ensures full { result ≡ Err Stop.Nodes → length ops.new.triples ≡ ops.new.budget }
    ensures rose { result ≡ Err Stop.Nodes → Rose ops.old.fulls ops.new.fulls }
{
    match found {
        Some(names) => renamed_nodes(alloc, ops, values, &names, constants, first),
        None => leaf_nodes(alloc, ops, values, constants, first),
    }
}
