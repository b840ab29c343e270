//! Goals with a name that nothing gives.

ghost use Rattle.std.specs.Prelude.{◌≡◌, ◌||◌, not, [], map, List, Option};
ghost use Rattle.std.specs.List.{list_any};
ghost use Rattle.cb_model.specs.Text.{Text};
ghost use Rattle.cb_model.specs.Forms.{form_of, forms_of, goal_form};
ghost use Rattle.cb_model.specs.Grammar.{Name};
ghost use Rattle.cb_model.specs.Directives.{same_sign, has_sign};
ghost use Rattle.cb_model.specs.Loading.{first_atom as atom_first, names_module, plain_goals, module_sign, spec_sign, is_unknown as unknown, goal_unknown};
ghost use Rattle.cb_known.specs.Modules.{AreNumbers};

use crate::modules::{Modules, first_atom};
use cb_directives::{Declarations, is_circuit, is_fail, is_module, is_spec, is_true, named};
use cb_model::{RawGoal, RawTerm};
use cb_names::Signs;

/// Whether no module has the name that these arguments begin with.
fn lacks_module<'s>(modules: &Modules<'s>, args: &[RawTerm<'s>]) -> bool
    ensures { (ms : List (Option Text)) → AreNumbers ms modules.now → result ≡ not (names_module ms (atom_first (Name [] (forms_of (map form_of args.now))))) }
{
    match first_atom(args) {
        Some(name) => match modules.number(name) {
            Some(_) => false,
            None => true,
        },
        None => true,
    }
}

/// Whether a goal by this name needs no clause.
fn is_plain(name: &[u8], count: usize) -> bool
    ensures { result ≡ has_sign plain_goals (name.now, count) }
{
    is_true(name, count) || is_fail(name, count)
}

/// Whether a name is that of facts of circuits.
fn is_fact_name(name: &[u8], count: usize) -> bool
    ensures { result ≡ (same_sign (name.now, count) module_sign || same_sign (name.now, count) spec_sign) }
{
    is_module(name, count) || is_spec(name, count)
}

/// Whether a name has declared sorts.
fn has_sorts<'s>(declared: &Declarations<'s>, name: &'s [u8], count: usize) -> bool
    ensures { result ≡ has_sign (map (λ e. e.0) declared.now.sorts) (name.now, count) }
{
    match declared.sorts(name, count) {
        Some(_) => true,
        None => false,
    }
}

/// Whether goals may have a name: no clause is needed, or the name has one or has declared sorts.
fn is_given<'s>(
    declared: &Declarations<'s>,
    heads: &Signs<'s>,
    name: &'s [u8],
    count: usize,
) -> bool
    ensures { result ≡ (has_sign plain_goals (name.now, count) || has_sign heads.now (name.now, count) || has_sign (map (λ e. e.0) declared.now.sorts) (name.now, count)) }
{
    is_plain(name, count) || heads.has(name, count) || has_sorts(declared, name, count)
}

/// Whether a call has a name that nothing gives; `heads` are the names that have clauses.
fn is_unknown<'s>(
    declared: &Declarations<'s>,
    heads: &Signs<'s>,
    modules: &Modules<'s>,
    term: &RawTerm<'s>,
) -> bool
    ensures { (ms : List (Option Text)) → AreNumbers ms modules.now → result ≡ unknown declared.now heads.now ms (form_of term.now) }
{
    let Some((name, args)) = named(term) else {
        return true;
    };
    let count = args.len();
    if is_circuit(name, count) {
        lacks_module(modules, args)
    } else if is_fact_name(name, count) {
        true
    } else {
        !is_given(declared, heads, name, count)
    }
}

/// Whether a goal is a call with a name that nothing gives; `heads` are the names that have clauses.
fn is_unknown_goal<'s>(
    declared: &Declarations<'s>,
    heads: &Signs<'s>,
    modules: &Modules<'s>,
    goal: &RawGoal<'s>,
) -> bool
    ensures { (ms : List (Option Text)) → AreNumbers ms modules.now → result ≡ goal_unknown declared.now heads.now ms (goal_form goal.now) }
{
    match goal {
        RawGoal::Call(term) => is_unknown(declared, heads, modules, term),
        RawGoal::Equal(_, _) => false,
    }
}

/// Whether one of the goals has a name that nothing gives: no clause, no declared sorts and no module; `heads` are the
/// names that have clauses.
pub fn has_unknown<'s>(
    declared: &Declarations<'s>,
    heads: &Signs<'s>,
    modules: &Modules<'s>,
    goals: &[RawGoal<'s>],
) -> bool
    ensures { (ms : List (Option Text)) → AreNumbers ms modules.now → result ≡ list_any (goal_unknown declared.now heads.now ms) (map goal_form goals.now) }
{
    for goal in goals {
        if is_unknown_goal(declared, heads, modules, goal) {
            return true;
        }
    }
    false
}
