//! A query over a program.

ghost use Rattle.std.specs.Prelude.{◌≡◌, ◌+◌, ◌<◌, ℕ, None, length, slice_get};
ghost use Rattle.std.specs.Option.{option_map};
ghost use Rattle.cb_model.specs.Output.{printed_from};
ghost use Rattle.cb_sorts.specs.Asked.{numbered_name};

use cb_marking::Marking;
use cb_model::{Goal, Sort};
use cb_names::Signs;
use sqlite_items::Items;
use std::marker::Model;

/// A query over a program: its goals, its variables with their sorts, and the names that the program lacks, numbered
/// behind those of the program in the order of their appearance.
#[derive(Drop)]
pub struct Query<'q> {
    pub(crate) goals: Items<Goal>,
    pub(crate) marking: Marking<'q>,
    pub(crate) names: Signs<'q>,
    /// How many names the program has.
    pub(crate) before: usize,
    /// The printed variables with their numbers.
    pub(crate) printed: Items<(u32, &'q [u8])>,
}

impl<'q> Model for Query<'q> {
    ghost use Rattle.std.specs.Prelude.{◌≡◌, map};
    ghost use Rattle.cb_model.specs.Output.{printed_from};
    ghost use Rattle.cb_sorts.specs.Asked.{Asked, numbered_name};
    ghost use Rattle.std.specs.Coded.{codes};
    ghost use Rattle.cb_model.specs.contracts.Goal as goal;

    ghost Value = { Asked };

    ghost coded = { Prim.hlevel (codes, goal.the_row.coded) };

    ghost view = { λ q. record { goals = q.goals; variables = q.marking.variables; sorts = q.marking.sorts; before = q.before; names = q.names } };

    ghost invariant = { λ q. map numbered_name q.printed ≡ printed_from 0 q.marking.variables };
}

impl<'q> Query<'q> {
    /// The goals in the order of the text.
    pub fn goals(&self) -> &[Goal]
        ensures { result.now ≡ self.now.goals }
    {
        self.goals.as_slice()
    }

    /// The sort of each variable by number.
    pub fn sorts(&self) -> &[Sort]
        ensures { result.now ≡ self.now.sorts }
    {
        self.marking.sorts()
    }

    /// The variable that is printed in this place, counted from 0: its number and its name. Those whose names begin with
    /// `_` aren't printed. `None` past the last.
    pub fn printed(&self, place: u32) -> Option<(u32, &'q [u8])>
        ensures { option_map numbered_name result ≡ slice_get (printed_from 0 self.now.variables) place }
    {
        self.printed.get(place as usize).copied()
    }

    /// How many variables are printed.
    pub fn printed_count(&self) -> usize
        ensures { result ≡ length (printed_from 0 self.now.variables) }
    {
        self.printed.len()
    }

    /// The name under a number that is the query's own, without its number of arguments. `None` where the number is one
    /// of the program, or past the last of the query.
    pub fn name(&self, number: u32) -> Option<&'q [u8]>
        ensures of_program { number < self.now.before → result ≡ None }
        ensures own { (k : ℕ) → number ≡ self.now.before + k → option_map (λ n. n.now) result ≡ option_map (λ a. a.0) (slice_get self.now.names k) }
    {
        let own = (number as usize).checked_sub(self.before)?;
        if own < self.names.len() {
            let (name, _) = self.names.sign(own);
            Some(name)
        } else {
            None
        }
    }
}
