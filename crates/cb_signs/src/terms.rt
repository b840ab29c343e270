//! The names in terms and goals.

ghost use Rattle.std.specs.Prelude.{◌≡◌, [], ◌∷◌, ◌++◌, map, OnOk};
ghost use Rattle.cb_model.specs.Forms.{form_of, forms_of, goal_form};
ghost use Rattle.cb_model.specs.Loading.{signs_of, signs_in, goals_signs};
ghost use Rattle.cb_signs.specs.Wanted.{Adds};

use cb_model::{RawGoal, RawTerm};
use cb_names::Signs;
use std::alloc::AllocError;

/// Adds a name, where neither list has it with this number of arguments.
pub(crate) fn add_name<'s>(
    base: &Signs<'s>,
    more: &mut Signs<'s>,
    name: &'s [u8],
    count: usize,
) -> Result<(), AllocError>
    ensures { OnOk result (Adds base.now more.old more.new ((name.now, count) ∷ [])) }
{
    if base.has(name, count) {
        Ok(())
    } else {
        more.add(name, count)
    }
}

/// Adds the names in a term.
#[cycle(terms)]
pub(crate) fn add_term<'s>(
    base: &Signs<'s>,
    more: &mut Signs<'s>,
    term: &RawTerm<'s>,
) -> Result<(), AllocError>
    ensures { OnOk result (Adds base.now more.old more.new (signs_of (form_of term.now))) }
{
    match term {
        RawTerm::Variable(_) => Ok(()),
        RawTerm::Integer(_) => Ok(()),
        RawTerm::Name(name, args) => {
            add_name(base, more, *name, args.len())?;
            add_terms(base, more, args.as_slice())
        }
        RawTerm::List(items, tail) => {
            add_terms(base, more, items.as_slice())?;
            match tail {
                Some(rest) => add_term(base, more, rest.get()),
                None => Ok(()),
            }
        }
        RawTerm::Not(operand) => add_term(base, more, operand.get()),
        RawTerm::And(operands) => add_terms(base, more, operands.as_slice()),
        RawTerm::Xor(operands) => add_terms(base, more, operands.as_slice()),
        RawTerm::Or(operands) => add_terms(base, more, operands.as_slice()),
    }
}

/// Adds the names in terms, in order.
#[cycle(terms)]
fn add_terms<'s>(
    base: &Signs<'s>,
    more: &mut Signs<'s>,
    terms: &[RawTerm<'s>],
) -> Result<(), AllocError>
    ensures { OnOk result (Adds base.now more.old more.new (signs_in (forms_of (map form_of terms.now)))) }
{
    for term in terms {
        add_term(base, more, term)?;
    }
    Ok(())
}

/// Adds the names in a goal.
fn add_goal<'s>(
    base: &Signs<'s>,
    more: &mut Signs<'s>,
    goal: &RawGoal<'s>,
) -> Result<(), AllocError>
    ensures { OnOk result (Adds base.now more.old more.new (goals_signs (goal_form goal.now ∷ []))) }
{
    match goal {
        RawGoal::Call(term) => add_term(base, more, term),
        RawGoal::Equal(left, right) => {
            add_term(base, more, left)?;
            add_term(base, more, right)
        }
    }
}

/// Adds the names in goals behind those that a list has, each where neither list has it with its number of
/// arguments.
pub fn add_goals<'s>(
    base: &Signs<'s>,
    more: &mut Signs<'s>,
    goals: &[RawGoal<'s>],
) -> Result<(), AllocError>
    ensures { OnOk result (Adds base.now more.old more.new (goals_signs (map goal_form goals.now))) }
{
    for goal in goals {
        add_goal(base, more, goal)?;
    }
    Ok(())
}
