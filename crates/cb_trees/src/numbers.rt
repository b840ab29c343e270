//! The numbers of names.

ghost use Rattle.std.specs.Prelude.{◌≡◌, ◌++◌, [], true, unwrap_or, IfOk, OnOk, List, Option};
ghost use Rattle.cb_model.specs.Text.{Text, is_variable};
ghost use Rattle.cb_model.specs.Sorts.{renamed, number_in, sign_number};
ghost use Rattle.cb_known.specs.Modules.{number_of};
ghost use Rattle.cb_trees.specs.Places.{variable_number};

use cb_directives::Declarations;
use cb_known::Modules;
use cb_names::Signs;
use cb_variables::{Variable, Variables};
use std::alloc::AllocError;

/// What numbers the names of a rule or query. A number past what a `u32` holds is refused as want of memory.
#[derive(Clone, Copy)]
pub struct Numbers<'n, 's> {
    /// The variables of the rule or query.
    pub variables: &'n Variables<'s>,
    /// What the directives of the file declare.
    pub declared: &'n Declarations<'s>,
    /// The names of the program.
    pub names: &'n Signs<'s>,
    /// Further names, numbered behind those of the program.
    pub more: &'n Signs<'s>,
    /// The modules of the file.
    pub modules: &'n Modules<'s>,
}

/// A number as it is kept.
fn kept(number: usize) -> Result<u32, AllocError>
    ensures { IfOk result (λ k. k ≡ number) }
{
    match u32::try_from(number) {
        Ok(number) => Ok(number),
        Err(_) => Err(AllocError),
    }
}

impl<'n, 's> Numbers<'n, 's> {
    /// The number of a variable that is written with this name behind `own` others that are written `_`.
    pub(crate) fn variable(&self, name: &'s [u8], own: &mut usize) -> Result<u32, AllocError>
        requires { is_variable name.now ≡ true }
        ensures number { IfOk result (λ k. k ≡ variable_number self.now.variables.now (renamed own.old name.now).0) }
        ensures own { OnOk result (own.new ≡ (renamed own.old name.now).1) }
    {
        let (variable, next) = Variable::written(name, *own)?;
        *own = next;
        match self.variables.number(variable) {
            Some(number) => kept(number),
            None => Ok(0),
        }
    }

    /// The number of a constant, or 0 where it is none.
    pub(crate) fn constant(&self, name: &'s [u8]) -> Result<u32, AllocError>
        ensures { IfOk result (λ k. k ≡ number_in self.now.declared.now.constants name.now) }
    {
        match self.declared.constant_number(name) {
            Some(number) => kept(number),
            None => Ok(0),
        }
    }

    /// The number of a name with its number of arguments, or 0 where it has none.
    pub(crate) fn sign(&self, name: &'s [u8], count: usize) -> Result<u32, AllocError>
        ensures { IfOk result (λ k. k ≡ sign_number (self.now.names.now ++ self.now.more.now) (name.now, count)) }
    {
        match self.names.number(name, count) {
            Some(number) => kept(number),
            None => match self.more.number(name, count) {
                Some(number) => match self.names.len().checked_add(number) {
                    Some(number) => kept(number),
                    None => Err(AllocError),
                },
                None => Ok(0),
            },
        }
    }

    /// The number of a module, or 0 where no fact has the name.
    pub(crate) fn module(&self, name: &'s [u8]) -> Result<u32, AllocError>
        ensures { IfOk result (λ k. k ≡ unwrap_or (number_of self.now.modules.now name.now) 0) }
    {
        match self.modules.number(name) {
            Some(number) => kept(number),
            None => Ok(0),
        }
    }
}
