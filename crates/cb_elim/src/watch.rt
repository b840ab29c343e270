//! Which slots may depend on which free levels, and the rewriting of those that do.

ghost use Rattle.std.specs.Prelude.{◌≡◌, ◌⊎◌, ℕ, false, ◌<◌, length, map, slice_index_or, Err, IfOk, OnOk, OnErr};
ghost use Rattle.std.specs.List.Sorted.{IsStrictlyIncreasing};
ghost use Rattle.cb_model.specs.Bits.{Each};
ghost use Rattle.cb_dd.specs.Diagram.{IsNode};
ghost use Rattle.cb_ops.specs.Ops.{Grows};
ghost use Rattle.cb_ops.specs.Support.{IsListed};
ghost use Rattle.cb_ops.specs.Substitute.{AreNodes};
ghost use Rattle.cb_ops.specs.Composed.{AreLower, ComposedRoom};
ghost use Rattle.cb_solution.specs.Solution.{has_refused};
ghost use Rattle.cb_elim.specs.Store.{AreThere};
ghost use Rattle.cb_elim.specs.Watch.{AreWatched, Covers, HasOthers, HasPutIn, HasUsers, IsWatched, KeepsUses, UsesGained, UsesNew};
ghost use Rattle.cb_elim.specs.Equation.{AreRewritten, IsStepped, MovedRoom};

use crate::Change;
use cb_dd::{Node, Stop};
use cb_ops::Ops;
use cb_trail::{Trail, Use, Uses};
use indexmap::IndexSet;
use std::alloc::{AllocError, Global};

/// Notes that a slot uses the free levels on which its new value depends, where the old one did not.
pub(crate) fn note(
    ops: &Ops,
    constants: u32,
    uses: &mut Uses,
    old: Node,
    new: Node,
    slot: usize,
    since: u64,
) -> Result<(), AllocError>
    requires old { IsNode ops.now.triples old.0 }
    requires new { IsNode ops.now.triples new.0 }
    ensures kept { KeepsUses uses.old uses.new }
    ensures used { OnOk result (UsesNew ops.now.triples constants uses.new old.0 new.0 slot since) }
{
    let before = ops.support(old)?;
    let levels = ops.support(new)?;
    add_uses(
        uses,
        constants,
        before.as_slice(),
        levels.as_slice(),
        slot,
        since,
    )?;
    Ok(())
}

// Adds the uses of the free levels of the second list that the first doesn't have.
fn add_uses(
    uses: &mut Uses,
    constants: u32,
    before: &[u32],
    levels: &[u32],
    slot: usize,
    since: u64,
) -> Result<(), AllocError>
    ensures kept { KeepsUses uses.old uses.new }
    ensures used { OnOk result (UsesGained constants uses.new before.now levels.now slot since) }
{
    for level in levels {
        if is_gained(constants, before, *level) {
            uses.add(Use {
                level: *level,
                slot,
                since,
            })?;
        }
    }
    Ok(())
}

// Whether the level is free, and not found in the rising list.
fn is_gained(constants: u32, before: &[u32], level: u32) -> bool
    ensures { result ≡ false → (level < constants) ⊎ IsListed before.now level }
{
    if level < constants {
        return false;
    }
    match before.binary_search(&level) {
        Ok(k) => before[k] != level,
        Err(_) => true,
    }
}

/// What the slots use, noted anew where the operations were lent since it was noted.
pub(crate) fn watch(
    alloc: Global,
    ops: &Ops,
    constants: u32,
    slots: &[Node],
    trail: &Trail<Change>,
    uses: &mut Uses,
    lent: bool,
) -> Result<(), AllocError>
    requires slots { AreThere ops.now.triples slots.now }
    requires changed { Each (λ c. IsNode ops.now.triples c.value.0) trail.now }
    requires watched { IsWatched lent ops.now.triples constants slots.now trail.now uses.old }
    ensures covers { OnOk result (Covers ops.now.triples constants slots.now trail.now uses.new) }
    ensures refused { OnErr result (uses.new ≡ uses.old) }
{
    if lent {
        *uses = noted(alloc, ops, constants, slots, trail)?;
    }
    Ok(())
}

// What all slots use, now and at the moments to which the changes can be taken back.
fn noted(
    alloc: Global,
    ops: &Ops,
    constants: u32,
    slots: &[Node],
    trail: &Trail<Change>,
) -> Result<Uses, AllocError>
    requires slots { AreThere ops.now.triples slots.now }
    requires changed { Each (λ c. IsNode ops.now.triples c.value.0) trail.now }
    ensures { IfOk result (λ uses. Covers ops.now.triples constants slots.now trail.now uses) }
{
    let mut uses = Uses::new(alloc);
    for (slot, value) in slots.iter().enumerate() {
        note(ops, constants, &mut uses, Node::ZERO, *value, slot, 0)?;
    }
    for k in 0..trail.mark() {
        if let Some(change) = trail.get(k) {
            note(
                ops,
                constants,
                &mut uses,
                Node::ZERO,
                change.value,
                change.slot,
                0,
            )?;
        }
    }
    Ok(uses)
}

/// The slots below a number whose values may depend on the images' levels, rising.
pub(crate) fn dependents(
    alloc: Global,
    uses: &Uses,
    images: &[(u32, Node)],
    below: usize,
) -> Result<IndexSet<usize>, AllocError>
    ensures rise { IfOk result (λ found. IsStrictlyIncreasing found.keys) }
    ensures below { IfOk result (λ found. (x : ℕ) → IsListed found.keys x → x < below) }
    ensures whole { IfOk result (λ found. HasUsers uses.now images.now below found.keys) }
{
    let mut found = IndexSet::new(alloc);
    for (level, _node) in images {
        uses.slots(*level, below, &mut found)?;
    }
    found.sort()?;
    Ok(found)
}

/// Puts the images into the values of these slots, one after another, and adds to the trail each whose value changes.
/// After a stop those that were rewritten before it still are.
pub(crate) fn rewrite(
    ops: &mut Ops,
    constants: u32,
    slots: &mut [Node],
    trail: &mut Trail<Change>,
    uses: &mut Uses,
    images: &[(u32, Node)],
    at: &[usize],
) -> Result<(), Stop>
    requires images { AreNodes ops.old.triples images.now }
    requires rise { IsStrictlyIncreasing (map (λ p. p.0) images.now) }
    requires lower { AreLower ops.old.triples images.now }
    requires at_rise { IsStrictlyIncreasing at.now }
    requires at_below { (x : ℕ) → IsListed at.now x → x < length slots.old }
    requires watched { AreWatched ops.old.triples constants slots.old trail.old uses.old }
    ensures values { OnOk result (HasPutIn ops.old.triples ops.new.triples images.now at.now slots.old slots.new) }
    ensures others { OnOk result (HasOthers ops.old.triples ops.new.triples at.now slots.old slots.new) }
    ensures rewritten { AreRewritten slots.old slots.new trail.old trail.new }
    ensures grows { Grows ops.old ops.new }
    ensures watched { AreWatched ops.new.triples constants slots.new trail.new uses.new }
    ensures room { MovedRoom slots.old images.now ops.old ops.new }
    ensures full { result ≡ Err Stop.Nodes → length ops.new.triples ≡ ops.new.budget }
    ensures fulls { ops.new.fulls ≡ has_refused ops.old.fulls result }
{
    for slot in at {
        rewrite_one(ops, constants, slots, trail, uses, images, *slot)?;
    }
    Ok(())
}

// The same of one slot. After a stop the slots and the trail are as before.
fn rewrite_one(
    ops: &mut Ops,
    constants: u32,
    slots: &mut [Node],
    trail: &mut Trail<Change>,
    uses: &mut Uses,
    images: &[(u32, Node)],
    slot: usize,
) -> Result<(), Stop>
    requires images { AreNodes ops.old.triples images.now }
    requires rise { IsStrictlyIncreasing (map (λ p. p.0) images.now) }
    requires lower { AreLower ops.old.triples images.now }
    requires slot { slot < length slots.old }
    requires watched { AreWatched ops.old.triples constants slots.old trail.old uses.old }
    ensures stepped { OnOk result (IsStepped ops.old ops.new images.now slot slots.old slots.new trail.old trail.new) }
    ensures refused { OnErr result ((slots.new ≡ slots.old) × (trail.new ≡ trail.old)) }
    ensures grows { Grows ops.old ops.new }
    ensures watched { AreWatched ops.new.triples constants slots.new trail.new uses.new }
    ensures room { ComposedRoom (slice_index_or slots.old slot (record { 0 = 0 })).0 images.now ops.old ops.new }
    ensures full { result ≡ Err Stop.Nodes → length ops.new.triples ≡ ops.new.budget }
    ensures fulls { ops.new.fulls ≡ has_refused ops.old.fulls result }
{
    let old = slots[slot];
    let value = ops.compose_all(old, images)?;
    if value.0 == old.0 {
        return Ok(());
    }
    let since = trail.mark().saturating_add(1);
    let Ok(()) = note(ops, constants, uses, old, value, slot, since) else {
        return Err(Stop::Memory);
    };
    let Ok(()) = trail.push(Change { slot, value: old }) else {
        return Err(Stop::Memory);
    };
    slots[slot] = value;
    Ok(())
}
