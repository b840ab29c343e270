//! The walk over the terms of a rule or query, which numbers the variables and collects what is known of their sorts.

ghost use Rattle.std.specs.Prelude.{◌≡◌, ◌∷◌, true, length, map, MatchResult};
ghost use Rattle.cb_model.specs.declared.Sort.TheVariants as sort;
ghost use Rattle.cb_model.specs.Text.{is_variable};
ghost use Rattle.cb_model.specs.Grammar.{Variable as AVariable};
ghost use Rattle.cb_model.specs.Forms.{form_of, forms_of};
ghost use Rattle.cb_model.specs.Written.{is_written, are_written};
ghost use Rattle.cb_model.specs.Sorts.{below, operand_places, argument_places};
ghost use Rattle.cb_marking.specs.Places.{sorts_given};
ghost use Rattle.cb_marking.specs.Walk.{name_at, thing_of, saw, gave, linked, noted, at, Walks, Stops, Memory};

use crate::links::{Links, Stop};
use crate::terms::{fits, is_bit, sort_at, sort_by_form};
use cb_directives::Declarations;
use cb_model::{RawGoal, RawTerm, Sort};
use cb_variables::{Variable, Variables};
use sqlite_items::Items;

/// What a walk has met so far. The things whose sorts are asked are the goals, each as the equation that it may be, and
/// behind them the variables.
#[derive(Drop)]
pub(crate) struct Walk<'s> {
    /// The number of goals.
    pub goals: usize,
    pub variables: Variables<'s>,
    /// How many `_` there were.
    pub own: usize,
    pub links: Links,
    /// The equations that have a side 0 or 1.
    pub bits: Items<usize>,
}

impl<'s> Walk<'s> {
    /// Meets a variable, and gives the thing that it is.
    pub(crate) fn see(&mut self, name: &'s [u8]) -> Result<usize, Stop>
        requires { is_variable name.now ≡ true }
        ensures { MatchResult result (λ n. (self.new ≡ saw self.old name.now) × (n ≡ thing_of self.old.goals self.new.variables (name_at self.old.own name.now))) Memory }
    {
        let Ok((variable, own)) = Variable::written(name, self.own) else {
            return Err(Stop::Memory);
        };
        let Ok(number) = self.variables.add(variable) else {
            return Err(Stop::Memory);
        };
        self.own = own;
        match self.goals.checked_add(number) {
            Some(thing) => Ok(thing),
            None => Err(Stop::Memory),
        }
    }

    /// Gives a thing a sort.
    pub(crate) fn give(&mut self, thing: usize, sort: Sort) -> Result<(), Stop>
        ensures { MatchResult result (λ _. self.new ≡ gave self.old thing sort) Memory }
    {
        let Ok(()) = self.links.give(thing, sort) else {
            return Err(Stop::Memory);
        };
        Ok(())
    }

    /// Links two things.
    pub(crate) fn link(&mut self, thing: usize, other: usize) -> Result<(), Stop>
        ensures { MatchResult result (λ _. self.new ≡ linked self.old thing other) Memory }
    {
        let Ok(()) = self.links.link(thing, other) else {
            return Err(Stop::Memory);
        };
        Ok(())
    }

    /// Notes that an equation has a side 0 or 1.
    pub(crate) fn note(&mut self, goal: usize) -> Result<(), Stop>
        ensures { MatchResult result (λ _. self.new ≡ noted true self.old goal) Memory }
    {
        let Ok(()) = self.bits.push(goal) else {
            return Err(Stop::Memory);
        };
        Ok(())
    }

    /// Meets a variable at a place of a sort.
    fn variable(&mut self, sort: Sort, name: &'s [u8]) -> Result<(), Stop>
        requires { is_variable name.now ≡ true }
        ensures { MatchResult result (λ _. self.new ≡ at self.old sort (AVariable name.now)) Memory }
    {
        let thing = self.see(name)?;
        self.give(thing, sort)
    }

    /// Meets a term at a place of a sort, with the places inside it.
    #[cycle(walk)]
    fn place(
        &mut self,
        declared: &Declarations<'s>,
        sort: Sort,
        term: &RawTerm<'s>,
    ) -> Result<(), Stop>
        requires { is_written (form_of term.now) ≡ true }
        ensures { MatchResult result (λ _. Walks declared.now self.old ((sort, form_of term.now) ∷ below declared.now (form_of term.now)) self.new) (Stops declared.now ((sort, form_of term.now) ∷ below declared.now (form_of term.now))) }
    {
        match term {
            RawTerm::Variable(name) => self.variable(sort, name),
            _ => {
                if fits(declared, sort, term) {
                    self.inside(declared, term)
                } else {
                    Err(Stop::Clash)
                }
            }
        }
    }

    /// Meets the places inside a term.
    #[cycle(walk)]
    pub(crate) fn inside(
        &mut self,
        declared: &Declarations<'s>,
        term: &RawTerm<'s>,
    ) -> Result<(), Stop>
        requires { is_written (form_of term.now) ≡ true }
        ensures { MatchResult result (λ _. Walks declared.now self.old (below declared.now (form_of term.now)) self.new) (Stops declared.now (below declared.now (form_of term.now))) }
    {
        match term {
            RawTerm::Variable(_) | RawTerm::Integer(_) => Ok(()),
            RawTerm::Name(name, args) => {
                declared.counted();
                let sorts = declared.sorts(name, args.len());
                self.arguments(declared, sorts, args.as_slice())
            }
            RawTerm::List(elements, tail) => {
                self.operands(declared, elements.as_slice())?;
                match tail {
                    Some(tail) => self.place(declared, Sort::Bus, tail.get()),
                    None => Ok(()),
                }
            }
            RawTerm::Not(operand) => self.place(declared, Sort::Bool, operand.get()),
            RawTerm::And(operands) => self.operands(declared, operands.as_slice()),
            RawTerm::Xor(operands) => self.operands(declared, operands.as_slice()),
            RawTerm::Or(operands) => self.operands(declared, operands.as_slice()),
        }
    }

    /// Meets operands or elements of a list, each at `Bool`.
    #[cycle(walk)]
    fn operands(&mut self, declared: &Declarations<'s>, terms: &[RawTerm<'s>]) -> Result<(), Stop>
        requires { are_written (forms_of (map form_of terms.now)) ≡ true }
        ensures { MatchResult result (λ _. Walks declared.now self.old (operand_places declared.now (forms_of (map form_of terms.now))) self.new) (Stops declared.now (operand_places declared.now (forms_of (map form_of terms.now)))) }
    {
        for term in terms {
            self.place(declared, Sort::Bool, term)?;
        }
        Ok(())
    }

    /// Meets arguments, each at its sort.
    #[cycle(walk)]
    pub(crate) fn arguments(
        &mut self,
        declared: &Declarations<'s>,
        sorts: Option<&[Sort]>,
        terms: &[RawTerm<'s>],
    ) -> Result<(), Stop>
        requires written { are_written (forms_of (map form_of terms.now)) ≡ true }
        requires counted { length (sorts_given sorts (length terms.now)) ≡ length terms.now }
        ensures { MatchResult result (λ _. Walks declared.now self.old (argument_places declared.now (sorts_given sorts.entry (length terms.now)) (forms_of (map form_of terms.now))) self.new) (Stops declared.now (argument_places declared.now (sorts_given sorts.entry (length terms.now)) (forms_of (map form_of terms.now)))) }
    {
        for (i, term) in terms.iter().enumerate() {
            self.place(declared, sort_at(sorts, i), term)?;
        }
        Ok(())
    }
}
