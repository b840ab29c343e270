//! The sorts of a rule or query.

ghost use Rattle.std.specs.Prelude.{◌≡◌, ◌&&◌, ◌<◌, ◌≤◌, ℕ, true, map, length, get_or, Contains, MatchBool, MatchResult};
ghost use Rattle.std.specs.List.{list_all};
ghost use Rattle.cb_model.specs.declared.Sort.TheVariants as sort;
ghost use Rattle.cb_model.specs.Forms.{form_of, goal_form};
ghost use Rattle.cb_model.specs.Written.{is_name, is_written, goal_written};
ghost use Rattle.cb_model.specs.Loading.{body_of, query_body};
ghost use Rattle.cb_marking.specs.Marking.{IsMarking, Refuses};
ghost use Rattle.cb_marking.specs.Kept.{IsKept, sorted_by, Decides, Undecided};

use crate::links::Stop;
use crate::walk::Walk;
use cb_directives::Declarations;
use cb_model::{RawGoal, RawTerm, Sort};
use cb_variables::Variables;
use sqlite_items::Items;
use std::alloc::Global;
use std::marker::Model;

/// The variables of a rule or query with their sorts, and the sorts of its equations.
#[derive(Drop)]
pub struct Marking<'s> {
    variables: Variables<'s>,
    goals: usize,
    sorts: Items<Sort>,
}

impl<'s> Model for Marking<'s> {
    ghost use Rattle.std.specs.Prelude.{◌≤◌, take, drop, length};
    ghost use Rattle.cb_marking.specs.Marking.{Sorted};

    ghost Value = { Sorted };

    ghost view = { λ m. record { variables = m.variables; sorts = drop m.goals m.sorts; goals = take m.goals m.sorts } };

    ghost invariant = { λ m. m.goals ≤ length m.sorts };
}

impl<'s> Marking<'s> {
    /// The variables by number.
    pub fn variables(&self) -> &Variables<'s>
        ensures { result.now ≡ self.now.variables }
    {
        &self.variables
    }

    /// The sort of each variable.
    pub fn sorts(&self) -> &[Sort]
        ensures { result.now ≡ self.now.sorts }
    {
        &self.sorts.as_slice()[self.goals..]
    }

    /// The sort of the equation that is this goal.
    pub fn equation(&self, goal: usize) -> Sort
        requires { goal < length self.now.goals }
        ensures { result ≡ get_or self.now.goals goal sort.Term }
    {
        self.sorts.as_slice()[goal]
    }
}

/// Whether none of these equations is of sort `Bus`.
fn none_is_bus(sorts: &[Sort], equations: &[usize]) -> bool
    requires { (k : ℕ) → Contains equations.now k → k < length sorts.now }
    ensures { MatchBool result ((k : ℕ) → Contains equations.now k → get_or sorts.now k sort.Term ≡ sort.Bus → ⊥) ((k : ℕ) × Contains equations.now k × (get_or sorts.now k sort.Term ≡ sort.Bus)) }
{
    for equation in equations {
        if is_bus(sorts[*equation]) {
            return false;
        }
    }
    true
}

/// Whether a sort is `Bus`.
fn is_bus(given: Sort) -> bool
    ensures { MatchBool result (given ≡ sort.Bus) (given ≡ sort.Bus → ⊥) }
{
    match given {
        Sort::Bus => true,
        _ => false,
    }
}

impl<'s> Walk<'s> {
    /// The sorts of the goals and behind them of the variables.
    fn sorts(&self, alloc: Global) -> Result<Items<Sort>, Stop>
        requires { IsKept self.now }
        ensures { MatchResult result (λ ss. (self.now.goals ≤ length ss) × Decides self.now (sorted_by self.now ss)) (Undecided self.now) }
    {
        let Some(things) = self.goals.checked_add(self.variables.len()) else {
            return Err(Stop::Memory);
        };
        let sorts = self.links.sorts(alloc, things)?;
        if none_is_bus(sorts.as_slice(), self.bits.as_slice()) {
            Ok(sorts)
        } else {
            drop(sorts);
            Err(Stop::Clash)
        }
    }

    /// The sorts of what was met.
    fn marking(self, alloc: Global) -> Result<Marking<'s>, Stop>
        requires { IsKept self }
        ensures { MatchResult result (Decides self.entry) (Undecided self.entry) }
    {
        match self.sorts(alloc) {
            Ok(sorts) => {
                let Walk {
                    goals,
                    variables,
                    own: _,
                    links,
                    bits,
                } = self;
                drop(links);
                drop(bits);
                Ok(Marking {
                    variables,
                    goals,
                    sorts,
                })
            }
            Err(stop) => {
                drop(self);
                Err(stop)
            }
        }
    }
}

/// The sorts of a rule. `Clash` means that one thing has two sorts, or that a term stands at a place of another sort.
pub fn mark_rule<'s>(
    alloc: Global,
    declared: &Declarations<'s>,
    head: &RawTerm<'s>,
    body: &[RawGoal<'s>],
) -> Result<Marking<'s>, Stop>
    requires head { (is_name (form_of head.now) && is_written (form_of head.now)) ≡ true }
    requires body { list_all goal_written (map goal_form body.now) ≡ true }
    ensures { MatchResult result (IsMarking declared.now (body_of (form_of head.now) (map goal_form body.now))) (Refuses declared.now (body_of (form_of head.now) (map goal_form body.now))) }
{
    declared.counted();
    let mut walk = Walk::new(alloc, body.len());
    match walk.call(declared, head) {
        Ok(()) => {}
        Err(stop) => {
            drop(walk);
            return Err(stop);
        }
    }
    match walk.goals(declared, body) {
        Ok(()) => walk.marking(alloc),
        Err(stop) => {
            drop(walk);
            Err(stop)
        }
    }
}

/// The sorts of a query. `Clash` means that one thing has two sorts, or that a term stands at a place of another sort.
pub fn mark_query<'s>(
    alloc: Global,
    declared: &Declarations<'s>,
    goals: &[RawGoal<'s>],
) -> Result<Marking<'s>, Stop>
    requires { list_all goal_written (map goal_form goals.now) ≡ true }
    ensures { MatchResult result (IsMarking declared.now (query_body (map goal_form goals.now))) (Refuses declared.now (query_body (map goal_form goals.now))) }
{
    declared.counted();
    let mut walk = Walk::new(alloc, goals.len());
    match walk.goals(declared, goals) {
        Ok(()) => walk.marking(alloc),
        Err(stop) => {
            drop(walk);
            Err(stop)
        }
    }
}
