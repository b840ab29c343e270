//! The names that a file's clauses ask for.

ghost use Rattle.std.specs.Prelude.{◌≡◌, [], ◌∷◌, ◌++◌, true, map, OnOk, IfOk};
ghost use Rattle.std.specs.List.{list_all};
ghost use Rattle.cb_model.specs.Forms.{clause_form, form_of, forms_of};
ghost use Rattle.cb_model.specs.Directives.{has_sign};
ghost use Rattle.cb_model.specs.Loading.{clauses_signs};
ghost use Rattle.cb_signs.specs.Wanted.{Adds, argument_signs, directive_signs, named_signs};

use crate::terms::{add_goals, add_name, add_term};
use cb_directives::named;
use cb_known::is_fact;
use cb_model::{RawClause, RawTerm};
use cb_names::Signs;
use std::alloc::{AllocError, Global};

/// Adds the name of an argument of a directive, if it is one.
fn add_argument<'s>(
    base: &Signs<'s>,
    more: &mut Signs<'s>,
    term: &RawTerm<'s>,
) -> Result<(), AllocError>
    ensures { OnOk result (Adds base.now more.old more.new (argument_signs (forms_of (form_of term.now ∷ [])))) }
{
    match named(term) {
        Some((name, args)) => add_name(base, more, name, args.len()),
        None => Ok(()),
    }
}

/// Adds the names of a directive's arguments.
fn add_arguments<'s>(
    base: &Signs<'s>,
    more: &mut Signs<'s>,
    terms: &[RawTerm<'s>],
) -> Result<(), AllocError>
    ensures { OnOk result (Adds base.now more.old more.new (argument_signs (forms_of (map form_of terms.now)))) }
{
    for term in terms {
        add_argument(base, more, term)?;
    }
    Ok(())
}

/// Adds the names of a clause: those that a directive speaks of, and all names in a rule that is no fact.
fn add_clause<'s>(
    base: &Signs<'s>,
    more: &mut Signs<'s>,
    clause: &RawClause<'s>,
) -> Result<(), AllocError>
    ensures { OnOk result (Adds base.now more.old more.new (named_signs (clause_form clause.now ∷ []))) }
{
    if is_fact(clause) {
        return Ok(());
    }
    match clause {
        RawClause::Directive { args, .. } => add_arguments(base, more, args.as_slice()),
        RawClause::Rule { head, body, .. } => {
            add_term(base, more, head)?;
            add_goals(base, more, body.as_slice())
        }
    }
}

/// Adds the names of clauses, in order.
fn add_clauses<'s>(
    base: &Signs<'s>,
    more: &mut Signs<'s>,
    clauses: &[RawClause<'s>],
) -> Result<(), AllocError>
    ensures { OnOk result (Adds base.now more.old more.new (named_signs (map clause_form clauses.now))) }
{
    for clause in clauses {
        add_clause(base, more, clause)?;
    }
    Ok(())
}

/// The names in a file's rules other than facts, and those that its directives speak of, by number.
pub fn clause_names<'s>(alloc: Global, clauses: &[RawClause<'s>]) -> Result<Signs<'s>, AllocError>
    ensures wanted { IfOk result (λ s. list_all (has_sign s) (clauses_signs (map clause_form clauses.now)) ≡ true) }
    ensures spoken_of { IfOk result (λ s. list_all (has_sign s) (directive_signs (map clause_form clauses.now)) ≡ true) }
{
    let base = Signs::new(alloc);
    let mut more = Signs::new(alloc);
    add_clauses(&base, &mut more, clauses)?;
    Ok(more)
}
