//! Many equations at once.

ghost use Rattle.std.specs.Prelude.{◌≡◌, length};
ghost use Rattle.cb_elim.specs.Store.{IsStore};
ghost use Rattle.cb_elim.specs.Pairs.{AreArguments};

use crate::setup::{end, said, with_variables};
use cb_dd::{Node, Stop};
use cb_elim::{Slot, Store};
use cb_trial::text::push;
use std::alloc::Global;
use std::test::Fail;

// Adds the equations of the pairs, all at once.
fn equate_all(store: &mut Store, pairs: &[(Node, Node)]) -> Result<bool, Stop>
    requires store { IsStore store.old }
    requires pairs { AreArguments store.old pairs.now }
    ensures constants { store.new.constants ≡ store.old.constants }
    ensures slots { length store.new.slots ≡ length store.old.slots }
    ensures store { IsStore store.new }
{
    store.unify_all(pairs)
}

// The first variable is the constant and the second is the first, all at once: both are the constant. A pair of one node
// says nothing. It is answered whether it is so, and with which nodes.
fn are_the_constant(store: &mut Store) -> Result<bool, Stop>
    requires store { IsStore store.old }
    requires constants { store.old.constants ≡ 1 }
    requires slots { length store.old.slots ≡ 2 }
    ensures constants { store.new.constants ≡ 1 }
    ensures slots { length store.new.slots ≡ 2 }
    ensures store { IsStore store.new }
{
    let a = store.constant(0)?;
    let x = store.value(Slot(0));
    let y = store.value(Slot(1));
    let solved = equate_all(store, &[(x, a), (y, x), (y, y)])?;
    let both = store.value(Slot(0)) == a && store.value(Slot(1)) == a;
    Ok(solved && both)
}

// The first variable is 1 and the second is 0. Each could be so by itself; but they are one constant, so both together
// can't. The store is as before.
fn are_refused(store: &mut Store) -> Result<bool, Stop>
    requires store { IsStore store.old }
    requires constants { store.old.constants ≡ 1 }
    requires slots { length store.old.slots ≡ 2 }
{
    let a = store.constant(0)?;
    let x = store.value(Slot(0));
    let y = store.value(Slot(1));
    let before = store.read().count();
    let solved = equate_all(store, &[(y, x), (x, Node::ONE), (y, Node::ZERO)])?;
    let same = store.value(Slot(0)) == x && store.value(Slot(1)) == y;
    Ok(!solved && same && x == a && store.read().count() == before)
}

// Both in a store of its own.
fn try_pairs(alloc: Global) -> Result<(bool, bool), Stop> {
    let mut store = with_variables(alloc, 100, 2)?;
    let tried = try_both(&mut store);
    end(store);
    tried
}

// One after the other.
fn try_both(store: &mut Store) -> Result<(bool, bool), Stop>
    requires store { IsStore store.old }
    requires constants { store.old.constants ≡ 1 }
    requires slots { length store.old.slots ≡ 2 }
{
    let constant = are_the_constant(store)?;
    let refused = are_refused(store)?;
    Ok((constant, refused))
}

/// Writes whether many equations are solved at once, and whether others are refused at once.
pub(crate) fn tell(alloc: Global, out: &mut Vec<u8>) -> Result<(), Fail> {
    match try_pairs(alloc) {
        Ok((constant, refused)) => {
            push(out, said(Ok(constant)))?;
            push(out, said(Ok(refused)))
        }
        Err(stop) => push(out, said(Err(stop))),
    }
}
