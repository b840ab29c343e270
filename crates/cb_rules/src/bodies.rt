//! The goals of a rule or query.

ghost use Rattle.std.specs.Prelude.{◌≡◌, true, map, length, IfOk, List, Option};
ghost use Rattle.std.specs.List.{list_all};
ghost use Rattle.cb_model.specs.Text.{Text};
ghost use Rattle.cb_model.specs.Written.{goal_written};
ghost use Rattle.cb_model.specs.Forms.{goal_form};
ghost use Rattle.cb_model.specs.Sorts.{apart_goals};
ghost use Rattle.cb_known.specs.Modules.{AreNumbers};
ghost use Rattle.cb_trees.specs.Places.{goals_at};
ghost use Rattle.cb_trees.specs.Numbered.{numbering_of};

use cb_marking::Marking;
use cb_model::{Goal, RawGoal};
use cb_trees::{Numbers, goal};
use sqlite_items::Items;
use std::alloc::{AllocError, Global};

/// What the goals of a rule or query stand for; `own` counts the variables before them that are written `_`.
pub fn body_goals<'s>(
    alloc: Global,
    numbers: &Numbers<'_, 's>,
    marking: &Marking<'s>,
    goals: &[RawGoal<'s>],
    own: &mut usize,
) -> Result<Items<Goal>, AllocError>
    requires written { list_all goal_written (map goal_form goals.now) ≡ true }
    requires sorts { length marking.now.goals ≡ length goals.now }
    ensures { IfOk result (λ gs. (ms : List (Option Text)) → AreNumbers ms numbers.now.modules.now → gs ≡ goals_at numbers.now.declared.now (numbering_of numbers.now) ms marking.now.goals (apart_goals (map goal_form goals.now) own.old)) }
{
    let mut all = Items::new(alloc);
    for (place, one) in goals.iter().enumerate() {
        let sort = marking.equation(place);
        all.push(goal(alloc, numbers, sort, one, own)?)?;
    }
    Ok(all)
}
