//! The reading of a query over a program.

ghost use Rattle.std.specs.Prelude.{◌≡◌, ◌++◌, [], true, map, length, IfOk, MatchResult, List, Option, None};
ghost use Rattle.std.specs.List.{list_all};
ghost use Rattle.cb_model.specs.Text.{Text};
ghost use Rattle.cb_model.specs.Written.{goal_written};
ghost use Rattle.cb_model.specs.Forms.{goal_form};
ghost use Rattle.cb_model.specs.Loading.{query_body, numbering, goals_signs, AreGoals, BodyRefusal};
ghost use Rattle.cb_marking.specs.Marking.{IsMarking};
ghost use Rattle.cb_known.specs.Modules.{AreNumbers};
ghost use Rattle.cb_rules.specs.Refused.{RefusesBody};
ghost use Rattle.cb_model.specs.Output.{printed_from};
ghost use Rattle.cb_signs.specs.Wanted.{add_signs};
ghost use Rattle.cb_sorts.specs.Asked.{Asks, numbered_name};

use crate::printed::printed;
use crate::query::Query;
use cb_directives::LoadError;
use cb_known::has_unknown;
use cb_marking::{Marking, Stop, mark_query};
use cb_model::{Goal, RawGoal};
use cb_names::Signs;
use cb_rules::{Given, body_goals};
use cb_signs::add_goals;
use cb_trees::Numbers;
use sqlite_items::Items;
use std::alloc::{AllocError, Global};

/// The sorts of a query that is not refused.
fn checked<'s>(
    alloc: Global,
    given: &Given<'_, 's>,
    line: u32,
    body: &[RawGoal<'s>],
) -> Result<Marking<'s>, LoadError>
    requires { list_all goal_written (map goal_form body.now) ≡ true }
    ensures marking { IfOk result (λ m. IsMarking given.now.declared.now (query_body (map goal_form body.now)) m) }
    ensures refusal { (ms : List (Option Text)) → AreNumbers ms given.now.modules.now → MatchResult result (λ _. BodyRefusal given.now.declared.now given.now.heads.now ms (query_body (map goal_form body.now)) None) (RefusesBody given.now.declared.now given.now.heads.now ms (query_body (map goal_form body.now)) line) }
{
    if has_unknown(given.declared, given.heads, given.modules, body) {
        return Err(LoadError::Unknown(line));
    }
    match mark_query(alloc, given.declared, body) {
        Ok(marking) => Ok(marking),
        Err(Stop::Clash) => Err(LoadError::SortClash(line)),
        Err(Stop::Memory) => Err(LoadError::Memory),
    }
}

/// A query's goals, and its variables that are printed; the names that the program lacks are put into an empty list.
fn goals<'s>(
    alloc: Global,
    given: &Given<'_, 's>,
    marking: &Marking<'s>,
    body: &[RawGoal<'s>],
    more: &mut Signs<'s>,
) -> Result<(Items<Goal>, Items<(u32, &'s [u8])>), AllocError>
    requires body { list_all goal_written (map goal_form body.now) ≡ true }
    requires marking { IsMarking given.now.declared.now (query_body (map goal_form body.now)) marking.now }
    requires none { more.old ≡ [] }
    ensures goals { IfOk result (λ r. (ms : List (Option Text)) → AreNumbers ms given.now.modules.now → AreGoals given.now.declared.now (query_body (map goal_form body.now)) (numbering given.now.declared.now (given.now.names.now ++ more.new) (query_body (map goal_form body.now))) ms 0 (query_body (map goal_form body.now)).goals r.0) }
    ensures printed { IfOk result (λ r. map numbered_name r.1 ≡ printed_from 0 marking.now.variables) }
    ensures names { IfOk result (λ r. given.now.names.now ++ more.new ≡ add_signs given.now.names.now (goals_signs (map goal_form body.now))) }
{
    add_goals(given.names, more, body)?;
    let numbers = Numbers {
        variables: marking.variables(),
        declared: given.declared,
        names: given.names,
        more: &*more,
        modules: given.modules,
    };
    let mut own = 0;
    let goals = body_goals(alloc, &numbers, marking, body, &mut own)?;
    match printed(alloc, marking.variables()) {
        Ok(printed) => Ok((goals, printed)),
        Err(error) => {
            drop(goals);
            Err(error)
        }
    }
}

/// A query with these sorts.
fn sorted<'s>(
    alloc: Global,
    given: &Given<'_, 's>,
    marking: Marking<'s>,
    body: &[RawGoal<'s>],
) -> Result<Query<'s>, AllocError>
    requires body { list_all goal_written (map goal_form body.now) ≡ true }
    requires marking { IsMarking given.now.declared.now (query_body (map goal_form body.now)) marking }
    ensures { IfOk result (λ q. (ms : List (Option Text)) → AreNumbers ms given.now.modules.now → BodyRefusal given.now.declared.now given.now.heads.now ms (query_body (map goal_form body.now)) None → Asks given.now.declared.now given.now.heads.now given.now.names.now ms (map goal_form body.now) q) }
{
    let mut more = Signs::new(alloc);
    match goals(alloc, given, &marking, body, &mut more) {
        Ok((goals, printed)) => Ok(Query {
            goals,
            marking,
            names: more,
            before: given.names.len(),
            printed,
        }),
        Err(error) => {
            drop(more);
            drop(marking);
            Err(error)
        }
    }
}

/// A query over what is known of a file, or its refusal.
pub(crate) fn asked<'s>(
    alloc: Global,
    given: &Given<'_, 's>,
    line: u32,
    body: &[RawGoal<'s>],
) -> Result<Query<'s>, LoadError>
    requires { list_all goal_written (map goal_form body.now) ≡ true }
    ensures { (ms : List (Option Text)) → AreNumbers ms given.now.modules.now → MatchResult result (Asks given.now.declared.now given.now.heads.now given.now.names.now ms (map goal_form body.now)) (RefusesBody given.now.declared.now given.now.heads.now ms (query_body (map goal_form body.now)) line) }
{
    let marking = checked(alloc, given, line, body)?;
    match sorted(alloc, given, marking, body) {
        Ok(query) => Ok(query),
        Err(_) => Err(LoadError::Memory),
    }
}
