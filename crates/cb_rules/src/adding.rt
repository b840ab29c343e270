//! The rules of a file, one after another.

ghost use Rattle.std.specs.Prelude.{◌≡◌, ◌&&◌, true, false, map, length, IfOk, MatchResult, List, Option, None, [], ◌∷◌};
ghost use Rattle.std.specs.List.{list_all};
ghost use Rattle.cb_model.specs.Text.{Text};
ghost use Rattle.cb_model.specs.Grammar.{FormClause};
ghost use Rattle.cb_model.specs.Written.{is_name, is_written, goal_written, clause_written};
ghost use Rattle.cb_model.specs.Forms.{form_of, goal_form, clause_form};
ghost use Rattle.cb_model.specs.Loading.{body_of, BodyRefusal, IsClause, RulesRefusal, HaveClauses};
ghost use Rattle.cb_marking.specs.Marking.{IsMarking};
ghost use Rattle.cb_known.specs.Modules.{AreNumbers};
ghost use Rattle.cb_rules.specs.Refused.{RefusesBody, RefusesRules};
ghost use Rattle.cb_rules.specs.Added.{AddsRule, Adds};

use crate::bodies::body_goals;
use cb_directives::{Declarations, LoadError};
use cb_known::{Modules, has_unknown, is_fact, is_taken};
use cb_marking::{Marking, Stop, mark_rule};
use cb_model::{Clause, RawClause, RawGoal, RawTerm};
use cb_names::Signs;
use cb_trees::{Numbers, arguments, head_number};
use sqlite_items::Items;
use std::alloc::{AllocError, Global};

/// What is known of a file before its rules are read.
#[derive(Clone, Copy)]
pub struct Given<'g, 's> {
    /// What the directives declare.
    pub declared: &'g Declarations<'s>,
    /// The names that have clauses.
    pub heads: &'g Signs<'s>,
    /// The modules.
    pub modules: &'g Modules<'s>,
    /// The names by number.
    pub names: &'g Signs<'s>,
}

/// The sorts of a rule that is not refused.
fn checked<'s>(
    alloc: Global,
    given: &Given<'_, 's>,
    line: u32,
    head: &RawTerm<'s>,
    body: &[RawGoal<'s>],
) -> Result<Marking<'s>, LoadError>
    requires head { (is_name (form_of head.now) && is_written (form_of head.now)) ≡ true }
    requires body { list_all goal_written (map goal_form body.now) ≡ true }
    ensures marking { IfOk result (λ m. IsMarking given.now.declared.now (body_of (form_of head.now) (map goal_form body.now)) m) }
    ensures refusal { (ms : List (Option Text)) → AreNumbers ms given.now.modules.now → MatchResult result (λ _. BodyRefusal given.now.declared.now given.now.heads.now ms (body_of (form_of head.now) (map goal_form body.now)) None) (RefusesBody given.now.declared.now given.now.heads.now ms (body_of (form_of head.now) (map goal_form body.now)) line) }
{
    if is_taken(head) {
        return Err(LoadError::Twice(line));
    }
    if has_unknown(given.declared, given.heads, given.modules, body) {
        return Err(LoadError::Unknown(line));
    }
    match mark_rule(alloc, given.declared, head, body) {
        Ok(marking) => Ok(marking),
        Err(Stop::Clash) => Err(LoadError::SortClash(line)),
        Err(Stop::Memory) => Err(LoadError::Memory),
    }
}

/// The clause of a rule with these sorts.
fn clause<'s>(
    alloc: Global,
    given: &Given<'_, 's>,
    marking: &Marking<'s>,
    head: &RawTerm<'s>,
    body: &[RawGoal<'s>],
) -> Result<Clause, AllocError>
    requires head { (is_name (form_of head.now) && is_written (form_of head.now)) ≡ true }
    requires body { list_all goal_written (map goal_form body.now) ≡ true }
    requires marking { IsMarking given.now.declared.now (body_of (form_of head.now) (map goal_form body.now)) marking.now }
    ensures { IfOk result (λ c. (ms : List (Option Text)) → AreNumbers ms given.now.modules.now → IsClause given.now.declared.now given.now.names.now ms (form_of head.now) (map goal_form body.now) c) }
{
    let none = Signs::new(alloc);
    let numbers = Numbers {
        variables: marking.variables(),
        declared: given.declared,
        names: given.names,
        more: &none,
        modules: given.modules,
    };
    numbered(alloc, &numbers, marking, head, body)
}

/// The clause of a rule with these sorts, under these numbers.
fn numbered<'s>(
    alloc: Global,
    numbers: &Numbers<'_, 's>,
    marking: &Marking<'s>,
    head: &RawTerm<'s>,
    body: &[RawGoal<'s>],
) -> Result<Clause, AllocError>
    requires head { (is_name (form_of head.now) && is_written (form_of head.now)) ≡ true }
    requires body { list_all goal_written (map goal_form body.now) ≡ true }
    requires marking { IsMarking numbers.now.declared.now (body_of (form_of head.now) (map goal_form body.now)) marking.now }
    requires variables { numbers.now.variables.now ≡ marking.now.variables }
    requires more { numbers.now.more.now ≡ [] }
    ensures { IfOk result (λ c. (ms : List (Option Text)) → AreNumbers ms numbers.now.modules.now → IsClause numbers.now.declared.now numbers.now.names.now ms (form_of head.now) (map goal_form body.now) c) }
{
    let pred = head_number(numbers, head)?;
    let mut own = 0;
    let arguments = arguments(alloc, numbers, head, &mut own)?;
    let Ok(goals) = body_goals(alloc, numbers, marking, body, &mut own) else {
        drop(arguments);
        return Err(AllocError);
    };
    let Ok(sorts) = Items::from_slice(alloc, marking.sorts()) else {
        drop(arguments);
        drop(goals);
        return Err(AllocError);
    };
    Ok(Clause {
        pred,
        sorts,
        head: arguments,
        body: goals,
    })
}

/// Adds the clause of a rule.
fn add_rule<'s>(
    alloc: Global,
    given: &Given<'_, 's>,
    line: u32,
    head: &RawTerm<'s>,
    body: &[RawGoal<'s>],
    all: &mut Items<Clause>,
) -> Result<(), LoadError>
    requires head { (is_name (form_of head.now) && is_written (form_of head.now)) ≡ true }
    requires body { list_all goal_written (map goal_form body.now) ≡ true }
    ensures { (ms : List (Option Text)) → AreNumbers ms given.now.modules.now → MatchResult result (λ _. AddsRule given.now.declared.now given.now.heads.now given.now.names.now ms (form_of head.now) (map goal_form body.now) all.old all.new) (RefusesBody given.now.declared.now given.now.heads.now ms (body_of (form_of head.now) (map goal_form body.now)) line) }
{
    let marking = checked(alloc, given, line, head, body)?;
    let made = clause(alloc, given, &marking, head, body);
    drop(marking);
    let Ok(clause) = made else {
        return Err(LoadError::Memory);
    };
    let Ok(()) = all.push(clause) else {
        return Err(LoadError::Memory);
    };
    Ok(())
}

/// Adds the clause of a rule, and nothing for a directive or a fact.
fn add<'s>(
    alloc: Global,
    given: &Given<'_, 's>,
    clause: &RawClause<'s>,
    all: &mut Items<Clause>,
) -> Result<(), LoadError>
    requires { clause_written (clause_form clause.now) ≡ true }
    ensures { (ms : List (Option Text)) → AreNumbers ms given.now.modules.now → MatchResult result (λ _. Adds given.now.declared.now given.now.heads.now given.now.names.now ms (clause_form clause.now) all.old all.new) (λ e. (cs : List FormClause) → RefusesRules given.now.declared.now given.now.heads.now ms (clause_form clause.now ∷ cs) e) }
{
    if is_fact(clause) {
        return Ok(());
    }
    match clause {
        RawClause::Directive { .. } => Ok(()),
        RawClause::Rule {
            line,
            head,
            body,
            ..
        } => add_rule(alloc, given, *line, head, body.as_slice(), all),
    }
}

/// The clauses of the rules, in the order of the text.
pub fn rules<'s>(
    alloc: Global,
    given: &Given<'_, 's>,
    clauses: &[RawClause<'s>],
) -> Result<Items<Clause>, LoadError>
    requires { list_all clause_written (map clause_form clauses.now) ≡ true }
    ensures { (ms : List (Option Text)) → AreNumbers ms given.now.modules.now → MatchResult result (λ xs. RulesRefusal given.now.declared.now given.now.heads.now ms (map clause_form clauses.now) None × HaveClauses given.now.declared.now given.now.names.now ms (map clause_form clauses.now) xs) (RefusesRules given.now.declared.now given.now.heads.now ms (map clause_form clauses.now)) }
{
    let mut all = Items::new(alloc);
    for clause in clauses {
        add(alloc, given, clause, &mut all)?;
    }
    Ok(all)
}
