//! Equations that are taken back.

ghost use Rattle.std.specs.Prelude.{◌≡◌, ◌<◌, length};
ghost use Rattle.cb_elim.specs.Store.{IsStore};
ghost use Rattle.cb_elim.specs.Moments.{IsMoment, KeepsMoments};

use crate::setup::{end, with_variables};
use cb_dd::{Node, Stop};
use cb_elim::{Slot, Store, StoreMark};
use std::alloc::Global;

// Adds the equation of the values of two slots.
fn equate(store: &mut Store, x: usize, y: usize) -> Result<bool, Stop>
    requires store { IsStore store.old }
    requires x { x < length store.old.slots }
    requires y { y < length store.old.slots }
    ensures constants { store.new.constants ≡ store.old.constants }
    ensures slots { length store.new.slots ≡ length store.old.slots }
    ensures moments { KeepsMoments store.old store.new }
    ensures store { IsStore store.new }
{
    let f = store.value(Slot(x));
    let g = store.value(Slot(y));
    store.unify(f, g)
}

// Adds the equation of a slot's value and the constant.
fn equate_constant(store: &mut Store, x: usize) -> Result<bool, Stop>
    requires store { IsStore store.old }
    requires constant { store.old.constants ≡ 1 }
    requires x { x < length store.old.slots }
    ensures constants { store.new.constants ≡ store.old.constants }
    ensures slots { length store.new.slots ≡ length store.old.slots }
    ensures moments { KeepsMoments store.old store.new }
    ensures store { IsStore store.new }
{
    let a = store.constant(0)?;
    let f = store.value(Slot(x));
    store.unify(f, a)
}

// The values of two slots.
fn pair(store: &Store) -> (Node, Node)
    requires store { IsStore store.now }
    requires slots { length store.now.slots ≡ 2 }
{
    (store.value(Slot(0)), store.value(Slot(1)))
}

// Whether these slots, and no more, were rewritten since the moment.
pub(crate) fn are_rewritten(store: &Store, since: StoreMark, slots: &[usize]) -> bool
    requires moment { IsMoment since store.now }
{
    for (k, slot) in slots.iter().enumerate() {
        if store.rewritten(since, k as u64) != Some(Slot(*slot)) {
            return false;
        }
    }
    store.rewritten(since, slots.len() as u64).is_none()
}

// Whether the two slots have these values, and these slots, and no more, were rewritten since the moment.
fn are_seen(store: &Store, since: StoreMark, values: (Node, Node), slots: &[usize]) -> bool
    requires store { IsStore store.now }
    requires slots { length store.now.slots ≡ 2 }
    requires moment { IsMoment since store.now }
{
    let seen = pair(store);
    let listed = are_rewritten(store, since, slots);
    listed && seen == values
}

// Makes a slot's value the constant, whose node is given: both slots have it then, and both were rewritten. Then takes
// it back: both have their values again, and none was rewritten.
pub(crate) fn is_taken_back(store: &mut Store, x: usize, a: Node) -> Result<bool, Stop>
    requires store { IsStore store.old }
    requires constant { store.old.constants ≡ 1 }
    requires slots { length store.old.slots ≡ 2 }
    requires x { x < 2 }
    ensures slots { length store.new.slots ≡ 2 }
    ensures moments { KeepsMoments store.old store.new }
    ensures store { IsStore store.new }
{
    let before = pair(store);
    let start = store.mark();
    let solved = equate_constant(store, x)?;
    let between = are_seen(store, start, (a, a), &[0, 1]);
    store.undo(start);
    let after = are_seen(store, start, before, &[]);
    Ok(solved && between && after)
}

// The second variable is the first one, and then both are the constant, whose node is given.
fn are_undone(store: &mut Store, a: Node) -> Result<bool, Stop>
    requires store { IsStore store.old }
    requires constant { store.old.constants ≡ 1 }
    requires slots { length store.old.slots ≡ 2 }
{
    let (x, y) = pair(store);
    let start = store.mark();
    let solved = equate(store, 0, 1)?;
    let first = are_seen(store, start, (x, x), &[1]);
    let second = is_taken_back(store, 1, a)?;
    let still = are_seen(store, start, (x, x), &[1]);
    store.undo(start);
    let last = are_seen(store, start, (x, y), &[]);
    Ok(solved && first && second && still && last)
}

/// The same in a store of its own.
pub(crate) fn try_undo(alloc: Global) -> Result<bool, Stop> {
    let mut store = with_variables(alloc, 100, 2)?;
    let undone = match store.constant(0) {
        Ok(a) => are_undone(&mut store, a),
        Err(stop) => Err(stop),
    };
    end(store);
    undone
}
