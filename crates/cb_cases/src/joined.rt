//! Three equations at once.

ghost use Rattle.std.specs.Prelude.{◌≡◌, length};
ghost use Rattle.cb_elim.specs.Store.{IsStore};
ghost use Rattle.cb_elim.specs.Moments.{KeepsMoments};

use crate::setup::{end, seen, with_variables};
use crate::undone::are_rewritten;
use cb_dd::Stop;
use cb_elim::{Slot, Store};
use cb_trial::text::push;
use std::alloc::Global;
use std::test::Fail;

// How three equations at once ended.
#[derive(Clone, Copy, PartialEq)]
enum Ending {
    // Solved, and whether each variable behind another has its value.
    Solved(bool),
    Refused,
    // A stop for nodes, and whether the store was as before it.
    Full(bool),
}

// Whether each second variable has the value of the one before it.
fn are_joined(store: &Store) -> bool
    requires store { IsStore store.now }
    requires slots { length store.now.slots ≡ 6 }
{
    store.value(Slot(0)) == store.value(Slot(1))
        && store.value(Slot(2)) == store.value(Slot(3))
        && store.value(Slot(4)) == store.value(Slot(5))
}

// Makes six variables equal two by two, all at once.
fn join(alloc: Global, store: &mut Store) -> Result<Ending, Stop>
    requires store { IsStore store.old }
    requires slots { length store.old.slots ≡ 6 }
    ensures slots { length store.new.slots ≡ 6 }
    ensures moments { KeepsMoments store.old store.new }
    ensures store { IsStore store.new }
{
    let before = seen(alloc, store, 6)?;
    let pairs = [
        (store.value(Slot(0)), store.value(Slot(1))),
        (store.value(Slot(2)), store.value(Slot(3))),
        (store.value(Slot(4)), store.value(Slot(5))),
    ];
    match store.unify_all(&pairs) {
        Ok(true) => Ok(Ending::Solved(are_joined(store))),
        Ok(false) => Ok(Ending::Refused),
        Err(Stop::Nodes) => {
            let after = seen(alloc, store, 6)?;
            Ok(Ending::Full(before == after))
        }
        Err(Stop::Memory) => Err(Stop::Memory),
    }
}

// The same in a store of its own.
fn try_join(alloc: Global, budget: usize) -> Result<Ending, Stop> {
    let mut store = with_variables(alloc, budget, 6)?;
    let ending = join(alloc, &mut store);
    end(store);
    ending
}

/// Writes how the equations end in a store for so many nodes. The variables take six nodes. Each equation needs two more at
/// least: its second variable turned, and the node that is 1 where the two differ. So below twelve nodes it stops at the
/// first, the second or the third; whichever it is, the store is as before.
pub(crate) fn tell(alloc: Global, budget: u32, out: &mut Vec<u8>) -> Result<(), Fail> {
    let word = match try_join(alloc, budget as usize) {
        Ok(Ending::Solved(true)) => " solved",
        Ok(Ending::Solved(false)) => " solved otherwise",
        Ok(Ending::Refused) => " refused",
        Ok(Ending::Full(true)) => " full as before",
        Ok(Ending::Full(false)) => " full and changed",
        Err(Stop::Nodes) => " full",
        Err(Stop::Memory) => " memory",
    };
    push(out, word)
}

// Makes them equal, takes it back, and does it again: each time the second of each pair is rewritten, once and in order,
// and in between the store is as before.
fn join_twice(alloc: Global, store: &mut Store) -> Result<bool, Stop>
    requires store { IsStore store.old }
    requires slots { length store.old.slots ≡ 6 }
{
    let before = seen(alloc, store, 6)?;
    let start = store.mark();
    let first = join(alloc, store)?;
    let listed = are_rewritten(store, start, &[1, 3, 5]);
    store.undo(start);
    let between = seen(alloc, store, 6)?;
    let none = are_rewritten(store, start, &[]);
    let second = join(alloc, store)?;
    let again = are_rewritten(store, start, &[1, 3, 5]);
    let solved = first == Ending::Solved(true) && second == Ending::Solved(true);
    Ok(solved && listed && before == between && none && again)
}

/// The same in a store of its own.
pub(crate) fn try_twice(alloc: Global) -> Result<bool, Stop> {
    let mut store = with_variables(alloc, 1000, 6)?;
    let done = join_twice(alloc, &mut store);
    end(store);
    done
}
