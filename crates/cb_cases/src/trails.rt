//! Lists that are taken back.

ghost use Rattle.std.specs.Prelude.{◌≡◌};

use cb_dd::Stop;
use cb_trail::{Trail, Use, Uses};
use indexmap::IndexSet;
use std::alloc::{AllocError, Global};

// Whether of two changes the newest is taken back first, and no more than the two.
fn is_newest_first(trail: &mut Trail<u32>) -> Result<bool, AllocError> {
    let start = trail.mark();
    if trail.push(7).is_err() || trail.push(8).is_err() {
        return Err(AllocError);
    }
    let second = trail.get(1).copied() == Some(8);
    let newest = trail.undo_next(start) == Some(8);
    let first = trail.undo_next(start) == Some(7);
    let none = trail.undo_next(start).is_none();
    Ok(second && newest && first && none)
}

// The same of a list of its own.
fn newest_first(alloc: Global) -> Result<bool, AllocError> {
    let mut trail: Trail<u32> = Trail::new(alloc);
    let first = is_newest_first(&mut trail);
    drop(trail);
    first
}

// The slots below a number that use the level.
fn slots(alloc: Global, uses: &Uses, level: u32, below: usize) -> Result<Vec<usize>, AllocError> {
    let mut found = IndexSet::new(alloc);
    uses.slots(level, below, &mut found)?;
    found.sort()?;
    Vec::from_slice(alloc, found.as_slice())
}

fn are(found: &[usize], wanted: &[usize]) -> bool {
    found == wanted
}

// Whether the slots below a number that use the level are these.
fn are_used(
    alloc: Global,
    uses: &Uses,
    level: u32,
    below: usize,
    wanted: &[usize],
) -> Result<bool, AllocError> {
    let found = slots(alloc, uses, level, below)?;
    let are = found.as_slice() == wanted;
    drop(found);
    Ok(are)
}

// Slots 0 and 2 use level 5, and slot 1 level 6; then slot 1 is rewritten and uses level 5 as well. Going back to before
// that takes its use of level 5 away, and going back to one slot the others.
fn are_taken_back(alloc: Global, uses: &mut Uses) -> Result<bool, AllocError> {
    for (level, slot, since) in [(5, 0, 0), (6, 1, 0), (5, 2, 0), (5, 1, 1)] {
        uses.add(Use { level, slot, since })?;
    }
    let all = are_used(alloc, uses, 5, 3, &[0, 1, 2])?;
    let first = are_used(alloc, uses, 5, 1, &[0])?;
    uses.cut(3, 0);
    let before = are_used(alloc, uses, 5, 3, &[0, 2])?;
    uses.cut(1, 0);
    let one = are_used(alloc, uses, 5, 3, &[0])?;
    let none = are_used(alloc, uses, 6, 3, &[])?;
    Ok(all && first && before && one && none)
}

// The same of uses of their own.
fn taken_back(alloc: Global) -> Result<bool, AllocError> {
    let mut uses = Uses::new(alloc);
    let back = are_taken_back(alloc, &mut uses);
    drop(uses);
    back
}

/// Tries one thing: whether changes or whether uses are taken back.
pub(crate) fn tried(alloc: Global, what: &str) -> Result<bool, Stop> {
    let back = match what {
        "changes" => newest_first(alloc),
        _ => taken_back(alloc),
    };
    back.map_err(|_| Stop::Memory)
}
