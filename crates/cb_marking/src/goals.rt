//! The walk over heads and goals.

ghost use Rattle.std.specs.Prelude.{◌≡◌, ◌&&◌, ℕ, [], true, map, length, MatchResult};
ghost use Rattle.std.specs.List.{list_all};
ghost use Rattle.cb_model.specs.Forms.{form_of, goal_form};
ghost use Rattle.cb_model.specs.Written.{is_name, is_written, goal_written};
ghost use Rattle.cb_model.specs.Sorts.{form_sort, below, call_places, goal_places, goals_places};
ghost use Rattle.cb_marking.specs.Places.{is_bit};
ghost use Rattle.cb_marking.specs.Walk.{noted, gave_some, side_walked, goal_walked, goals_walked, fresh, Walks, Meets, Stops, Memory};

use crate::links::{Links, Stop};
use crate::terms::{is_bit, sort_by_form};
use crate::walk::Walk;
use cb_directives::{Declarations, is_circuit};
use cb_model::{RawGoal, RawTerm, Sort};
use cb_variables::Variables;
use sqlite_items::Items;
use std::alloc::Global;

impl<'s> Walk<'s> {
    /// Nothing is met, of a rule or query with so many goals.
    pub(crate) fn new(alloc: Global, goals: usize) -> Walk<'s>
        ensures { result ≡ fresh goals }
    {
        Walk {
            goals,
            variables: Variables::new(alloc),
            own: 0,
            links: Links::new(alloc),
            bits: Items::new(alloc),
        }
    }

    /// Meets a head or call.
    pub(crate) fn call(
        &mut self,
        declared: &Declarations<'s>,
        term: &RawTerm<'s>,
    ) -> Result<(), Stop>
        requires { (is_name (form_of term.now) && is_written (form_of term.now)) ≡ true }
        ensures { MatchResult result (λ _. Walks declared.now self.old (call_places declared.now (form_of term.now)) self.new) (Stops declared.now (call_places declared.now (form_of term.now))) }
    {
        match term {
            RawTerm::Name(name, args) => {
                if is_circuit(name, args.len()) {
                    let sorts = [Sort::Term, Sort::Bus, Sort::Bus];
                    self.arguments(declared, Some(sorts.as_slice()), args.as_slice())
                } else {
                    declared.counted();
                    let sorts = declared.sorts(name, args.len());
                    self.arguments(declared, sorts, args.as_slice())
                }
            }
            _ => unreachable!(),
        }
    }

    /// Notes what the form of an equation's side says, which is no variable.
    fn form(
        &mut self,
        declared: &Declarations<'s>,
        goal: usize,
        term: &RawTerm<'s>,
    ) -> Result<(), Stop>
        ensures { MatchResult result (λ _. self.new ≡ noted (is_bit (form_of term.now)) (gave_some self.old goal (form_sort declared.now.constants (form_of term.now))) goal) Memory }
    {
        if let Some(sort) = sort_by_form(declared, term) {
            self.give(goal, sort)?;
        }
        if is_bit(term) {
            self.note(goal)
        } else {
            Ok(())
        }
    }

    /// Meets a side of an equation, which is a goal.
    fn side(
        &mut self,
        declared: &Declarations<'s>,
        goal: usize,
        term: &RawTerm<'s>,
    ) -> Result<(), Stop>
        requires { is_written (form_of term.now) ≡ true }
        ensures { MatchResult result (λ _. Meets declared.now (below declared.now (form_of term.now)) (side_walked declared.now self.old goal (form_of term.now)) self.new) (Stops declared.now (below declared.now (form_of term.now))) }
    {
        match term {
            RawTerm::Variable(name) => {
                let thing = self.see(name)?;
                self.link(goal, thing)
            }
            _ => {
                self.form(declared, goal, term)?;
                self.inside(declared, term)
            }
        }
    }

    /// Meets a goal.
    fn goal(
        &mut self,
        declared: &Declarations<'s>,
        number: usize,
        goal: &RawGoal<'s>,
    ) -> Result<(), Stop>
        requires { goal_written (goal_form goal.now) ≡ true }
        ensures { MatchResult result (λ _. Meets declared.now (goal_places declared.now (goal_form goal.now)) (goal_walked declared.now self.old number (goal_form goal.now)) self.new) (Stops declared.now (goal_places declared.now (goal_form goal.now))) }
    {
        match goal {
            RawGoal::Call(term) => self.call(declared, term),
            RawGoal::Equal(left, right) => {
                self.side(declared, number, left)?;
                self.side(declared, number, right)
            }
        }
    }

    /// Meets goals, in order.
    pub(crate) fn goals(
        &mut self,
        declared: &Declarations<'s>,
        goals: &[RawGoal<'s>],
    ) -> Result<(), Stop>
        requires { list_all goal_written (map goal_form goals.now) ≡ true }
        ensures { MatchResult result (λ _. Meets declared.now (goals_places declared.now (map goal_form goals.now)) (goals_walked declared.now self.old 0 (map goal_form goals.now)) self.new) (Stops declared.now (goals_places declared.now (map goal_form goals.now))) }
    {
        for (number, goal) in goals.iter().enumerate() {
            self.goal(declared, number, goal)?;
        }
        Ok(())
    }
}
