//! Facts of circuits, and heads that no rule may have.

ghost use Rattle.std.specs.Prelude.{◌≡◌, ◌||◌, Some, codes};
ghost use Rattle.cb_model.specs.Forms.{form_of, clause_form};
ghost use Rattle.cb_model.specs.Directives.{same_sign};
ghost use Rattle.cb_model.specs.Sorts.{circuit_sign};
ghost use Rattle.cb_model.specs.Loading.{module_sign, spec_sign, sign_is as has_name, is_fact as stands_for_fact, is_taken as takes};

use cb_directives::{is_circuit, is_fail, is_module, is_spec, is_true, named};
use cb_model::{RawClause, RawTerm};

/// Whether a head is that of a module's fact.
pub(crate) fn heads_module(head: &RawTerm<'_>) -> bool
    ensures { result ≡ has_name module_sign (form_of head.now) }
{
    match named(head) {
        Some((name, args)) => is_module(name, args.len()),
        None => false,
    }
}

/// Whether a head is that of a specification's fact.
fn heads_spec(head: &RawTerm<'_>) -> bool
    ensures { result ≡ has_name spec_sign (form_of head.now) }
{
    match named(head) {
        Some((name, args)) => is_spec(name, args.len()),
        None => false,
    }
}

/// Whether a clause is a fact of circuits: one with the head `module/4` or `spec/3`, with or without a body.
pub fn is_fact(clause: &RawClause<'_>) -> bool
    ensures { result ≡ stands_for_fact (clause_form clause.now) }
{
    match clause {
        RawClause::Directive { .. } => false,
        RawClause::Rule { head, .. } => heads_module(head) || heads_spec(head),
    }
}

/// Whether goals of this name have a meaning that no clause gives.
fn is_own(name: &[u8], count: usize) -> bool
    ensures { result ≡ (same_sign (codes "true", 0) (name.now, count) || same_sign (codes "fail", 0) (name.now, count) || same_sign circuit_sign (name.now, count)) }
{
    is_true(name, count) || is_fail(name, count) || is_circuit(name, count)
}

/// Whether no rule may have this head: its name is `true/0`, `fail/0` or `circuit/3`.
pub fn is_taken(head: &RawTerm<'_>) -> bool
    ensures { result ≡ takes (Some (form_of head.now)) }
{
    match named(head) {
        Some((name, args)) => is_own(name, args.len()),
        None => false,
    }
}
