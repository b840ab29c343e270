//! The variables of a rule or query by number, in the order of their first appearance, each `_` a variable of its own.
#![tactic(auto)]

ghost use Rattle.std.specs.Prelude.{◌≡◌, ◌<◌, ℕ, [], Some, true, length, position, bytes_eq, slice_get, slice_index_or, OnOk, OnErr, IfOk, MatchOption};
ghost use Rattle.cb_model.specs.Grammar.{Variable as AVariable};
ghost use Rattle.cb_model.specs.Sorts.{own_name, renamed};
ghost use Rattle.cb_model.specs.Text.{is_variable, shown_name};
ghost use Rattle.cb_model.specs.Loading.{add_name};
ghost use Rattle.cb_variables.specs.Names.{variable_name, is_proper};

use indexmap::IndexSet;
use std::alloc::{AllocError, Global};
use std::marker::Model;

/// A variable as it stands in a rule or query.
#[derive(Clone, Copy, PartialEq, Eq, Hash, Debug, Drop)]
pub enum Variable<'s> {
    /// One with a name, which is the same wherever the name stands.
    Named(&'s [u8]),
    /// A `_` by its number, from 0 in the order of the text.
    Own(usize),
}

impl<'s> Variable<'s> {
    /// The variable that is written with this name behind `own` others that are written `_`, and the number of `_` by
    /// then. It is refused only where there are more `_` than any memory holds.
    pub fn written(name: &'s [u8], own: usize) -> Result<(Variable<'s>, usize), AllocError>
        requires { is_variable name.now ≡ true }
        ensures variable { IfOk result (λ r. renamed own name.now ≡ (AVariable (variable_name r.0), r.1)) }
        ensures proper { IfOk result (λ r. is_proper r.0 ≡ true) }
    {
        if name != b"_".as_slice() {
            return Ok((Variable::Named(name), own));
        }
        match own.checked_add(1) {
            Some(more) => Ok((Variable::Own(own), more)),
            None => Err(AllocError),
        }
    }
}

/// Variables without repeats, each under the number of its place, from 0. Contracts see the list of their names, where
/// each `_` has the name of its own that no text has.
#[derive(Drop)]
pub struct Variables<'s> {
    variables: IndexSet<Variable<'s>>,
}

impl<'s> Model for Variables<'s> {
    ghost use Rattle.std.specs.Prelude.{◌≡◌, List, ℕ, map, true};
    ghost use Rattle.std.specs.List.{list_all};
    ghost use Rattle.std.specs.Coded.{coded_list, coded_ℕ};
    ghost use Rattle.cb_variables.specs.Names.{variable_name, is_proper};

    ghost Value = { List (List ℕ) };

    ghost coded = { coded_list (coded_list coded_ℕ) };

    ghost view = { λ v. map variable_name v.variables.keys };

    ghost invariant = { λ v. list_all is_proper v.variables.keys ≡ true };
}

impl<'s> Variables<'s> {
    /// No variables.
    pub fn new(alloc: Global) -> Variables<'s>
        ensures { result ≡ [] }
    {
        Variables {
            variables: IndexSet::new(alloc),
        }
    }

    /// How many variables there are.
    pub fn len(&self) -> usize
        ensures { result ≡ length self.now }
    {
        self.variables.len()
    }

    /// The number of a variable; `None` where it isn't there.
    pub fn number(&self, variable: Variable<'_>) -> Option<usize>
        requires { is_proper variable ≡ true }
        ensures { result ≡ position (bytes_eq (variable_name variable.entry)) self.now }
    {
        self.variables.get_index_of(&variable)
    }

    /// The name of the variable under a number; `None` where it is a `_`.
    pub fn name(&self, number: usize) -> Option<&'s [u8]>
        requires { number < length self.now }
        ensures { MatchOption result ((k : ℕ) × (slice_get self.now number ≡ Some (own_name k))) (λ name. slice_get self.now number ≡ Some name.now) }
    {
        match self.variables.get_index(number) {
            Some(Variable::Named(name)) => Some(*name),
            Some(Variable::Own(_)) => None,
            None => unreachable!(),
        }
    }

    /// The name of the variable under a number as it stands in the text.
    pub fn shown(&self, number: usize) -> &'s [u8]
        requires { number < length self.now }
        ensures { result.now ≡ shown_name (slice_index_or self.now number []) }
    {
        match self.variables.get_index(number) {
            Some(Variable::Named(name)) => *name,
            Some(Variable::Own(_)) => b"_",
            None => unreachable!(),
        }
    }

    /// Puts a variable at the end, where it isn't there yet, and gives its number.
    pub fn add(&mut self, variable: Variable<'s>) -> Result<usize, AllocError>
        requires { is_proper variable ≡ true }
        ensures added { OnOk result (self.new ≡ add_name self.old (variable_name variable.entry)) }
        ensures number { IfOk result (λ n. position (bytes_eq (variable_name variable.entry)) self.new ≡ Some n) }
        ensures refused { OnErr result (self.new ≡ self.old) }
    {
        let (number, _) = self.variables.insert_full(variable)?;
        Ok(number)
    }
}
