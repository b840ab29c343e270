//! Which slots may depend on which level, taken back with the undo list.

ghost use Rattle.std.specs.Prelude.{◌≡◌, ◌⊎◌, ℕ, ◌<◌, ◌≤◌, [], ◌∷◌, ◌++◌, IfSome, IfNone, OnOk, OnErr, length, slice_index, slice_index_or};
ghost use Rattle.cb_trail.specs.Uses.{IsIn, IsLast, IsLinked, IsUsed, StaysUsed};

use indexmap::IndexSet;
use std::alloc::{AllocError, Global};
use std::marker::Model;

/// A slot may depend on a level since the undo list has had so many changes.
#[derive(Clone, Copy, PartialEq, Eq, Debug)]
pub struct Use {
    pub level: u32,
    pub slot: usize,
    pub since: u64,
}

/// The uses of levels by slots, in the order in which they were added.
#[derive(Drop)]
pub struct Uses {
    uses: Vec<Use>,
    // For each use, one more than the number of the last before it of the same level; 0 where there is none.
    before: Vec<usize>,
    // For each level, one more than the number of its last use; 0 where there is none.
    last: Vec<usize>,
}

impl Model for Uses {
    ghost use Rattle.std.specs.Prelude.{List};
    ghost use Rattle.cb_trail.specs.Uses.{IsLinked};
    ghost use Rattle.cb_trail.specs.declared.uses.Use.{Use};

    ghost Value = { List Use };

    ghost view = { λ u. u.uses.items };

    ghost invariant = { λ u. IsLinked u.uses.items u.before.items u.last.items };
}

impl Uses {
    /// No uses yet. It takes no memory.
    pub fn new(alloc: Global) -> Uses
        ensures { result ≡ [] }
    {
        Uses {
            uses: Vec::new(alloc),
            before: Vec::new(alloc),
            last: Vec::new(alloc),
        }
    }

    /// Adds a use. After a refusal the uses are as before.
    pub fn add(&mut self, used: Use) -> Result<(), AllocError>
        ensures added { OnOk result (self.new ≡ self.old ++ used ∷ []) }
        ensures refused { OnErr result (self.new ≡ self.old) }
    {
        add_to(&mut self.uses, &mut self.before, &mut self.last, used)
    }

    /// Takes back uses by slots from this number on, and those since more changes of the undo list, from the end up to the
    /// first that is neither.
    pub fn cut(&mut self, slots: usize, changes: u64)
        ensures { StaysUsed slots changes self.old self.new }
    {
        cut_from(
            &mut self.uses,
            &mut self.before,
            &mut self.last,
            slots,
            changes,
        );
    }

    /// Adds the slots below a number that use the level.
    pub fn slots(
        &self,
        level: u32,
        below: usize,
        into: &mut IndexSet<usize>,
    ) -> Result<(), AllocError>
        ensures kept { (x : ℕ) → IsIn into.old.keys x → IsIn into.new.keys x }
        ensures below { (x : ℕ) → IsIn into.new.keys x → (x < below) ⊎ IsIn into.old.keys x }
        ensures found { OnOk result ((x t : ℕ) → x < below → IsUsed self.now level x t → IsIn into.new.keys x) }
    {
        let mut at = last_of(&self.last, level);
        while 0 < at {
            let used = self.uses[at - 1];
            if used.slot < below {
                into.insert(used.slot)?;
            }
            at = self.before[at - 1];
        }
        Ok(())
    }
}

// One more than the number of the level's last use; 0 where there is none.
fn last_of(last: &[usize], level: u32) -> usize
    ensures { result ≡ slice_index last.now level }
{
    let at = level as usize;
    if last.len() <= at {
        return 0;
    }
    last[at]
}

// Room for the level, which has no use yet where it had none.
fn make_room(last: &mut Vec<usize>, level: u32) -> Result<(), AllocError>
    ensures room { OnOk result (level < length last.new.items) }
    ensures same { (l : ℕ) → slice_index last.new.items l ≡ slice_index last.old.items l }
{
    while last.len() <= level as usize {
        last.push(0)?;
    }
    Ok(())
}

// Adds a use to the lists. After a refusal it is not among them.
fn add_to(
    uses: &mut Vec<Use>,
    before: &mut Vec<usize>,
    last: &mut Vec<usize>,
    used: Use,
) -> Result<(), AllocError>
    requires { IsLinked uses.old.items before.old.items last.old.items }
    ensures added { OnOk result (uses.new.items ≡ uses.old.items ++ used ∷ []) }
    ensures refused { OnErr result (uses.new.items ≡ uses.old.items) }
    ensures linked { IsLinked uses.new.items before.new.items last.new.items }
{
    make_room(last, used.level)?;
    let newest = last[used.level as usize];
    before.push(newest)?;
    if uses.push(used).is_err() {
        before.pop();
        return Err(AllocError);
    }
    last[used.level as usize] = uses.len();
    Ok(())
}

// Takes back the last use, if it is by a slot from this number on, or since more changes.
fn take_past(uses: &mut Vec<Use>, slots: usize, changes: u64) -> Option<Use>
    ensures taken { IfSome result (λ u. (uses.old.items ≡ uses.new.items ++ u ∷ []) × ((slots ≤ u.slot) ⊎ (changes < u.since))) }
    ensures none { IfNone result (uses.new.items ≡ uses.old.items) }
{
    let used = *uses.last()?;
    if used.slot < slots && used.since <= changes {
        return None;
    }
    uses.pop()
}

// Takes back uses, as long as the last is by a slot from this number on, or since more changes.
fn cut_from(
    uses: &mut Vec<Use>,
    before: &mut Vec<usize>,
    last: &mut Vec<usize>,
    slots: usize,
    changes: u64,
)
    requires { IsLinked uses.old.items before.old.items last.old.items }
    ensures stays { StaysUsed slots changes uses.old.items uses.new.items }
    ensures linked { IsLinked uses.new.items before.new.items last.new.items }
{
    'cut: while let Some(used) = take_past(uses, slots, changes) {
        let number = uses.len();
        last[used.level as usize] = before[number];
        before.truncate(number);
    }
}
