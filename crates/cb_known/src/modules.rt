//! The modules of a file, by name.

ghost use Rattle.std.specs.Prelude.{◌≡◌, [], ◌∷◌, map, IfOk, OnOk, None, Some};
ghost use Rattle.std.specs.Option.{option_map};
ghost use Rattle.cb_model.specs.Grammar.{Name};
ghost use Rattle.cb_model.specs.Forms.{form_of, forms_of, clause_form};
ghost use Rattle.cb_model.specs.Loading.{first_atom as atom_first, module_names, module_number};
ghost use Rattle.cb_known.specs.Modules.{number_of, AreNumbers, Names, with_module};

use crate::facts::heads_module;
use cb_directives::{atom, named};
use cb_model::{RawClause, RawTerm};
use cb_names::Table;
use std::alloc::{AllocError, Global};
use std::marker::Model;

/// The modules of a file by name. Each name has the number of the first `module/4` fact with it, counted from 0.
#[derive(Drop)]
pub struct Modules<'s> {
    numbers: Table<'s, usize>,
}

impl<'s> Model for Modules<'s> {
    ghost use Rattle.std.specs.Prelude.{List, ℕ};
    ghost use Rattle.std.specs.Coded.{coded_list, coded×, coded_ℕ};

    ghost Value = { List ((List ℕ × ℕ) × ℕ) };

    ghost coded = { coded_list (coded× (coded× (coded_list coded_ℕ) coded_ℕ) coded_ℕ) };

    ghost view = { λ m. m.numbers };
}

/// The first of some arguments, where it is an atom.
pub fn first_atom<'s>(args: &[RawTerm<'s>]) -> Option<&'s [u8]>
    ensures { option_map (λ x. x.now) result ≡ atom_first (Name [] (forms_of (map form_of args.now))) }
{
    match sqlite_items::at(args, 0) {
        Some(first) => atom(first),
        None => None,
    }
}

/// The name of the module that a clause is a fact of, where it is an atom; `None` where it is no such fact.
fn module_name<'s>(clause: &RawClause<'s>) -> Option<Option<&'s [u8]>>
    ensures { Names result (module_names (clause_form clause.now ∷ [])) }
{
    match clause {
        RawClause::Directive { .. } => None,
        RawClause::Rule { head, .. } => {
            if heads_module(head) {
                match named(head) {
                    Some((_, args)) => Some(first_atom(args)),
                    None => Some(None),
                }
            } else {
                None
            }
        }
    }
}

impl<'s> Modules<'s> {
    /// The modules that a file's facts name.
    pub fn new(alloc: Global, clauses: &[RawClause<'s>]) -> Result<Modules<'s>, AllocError>
        ensures { IfOk result (λ m. AreNumbers (module_names (map clause_form clauses.now)) m) }
    {
        let mut numbers = Table::new(alloc);
        let mut next = 0;
        for clause in clauses {
            if let Some(name) = module_name(clause) {
                add(&mut numbers, name, next)?;
                next += 1;
            }
        }
        Ok(Modules { numbers })
    }

    /// The number of the first module with this name; `None` where there is none.
    pub fn number(&self, name: &'s [u8]) -> Option<usize>
        ensures { result ≡ number_of self.now name.now }
    {
        self.numbers.get(name, 0).copied()
    }
}

/// Adds a module's name under its number, where it has a name and no earlier one has it.
fn add<'s>(
    numbers: &mut Table<'s, usize>,
    name: Option<&'s [u8]>,
    number: usize,
) -> Result<(), AllocError>
    ensures { OnOk result (numbers.new ≡ with_module numbers.old (option_map (λ x. x.now) name.entry) number) }
{
    match name {
        None => Ok(()),
        Some(name) => {
            if numbers.has(name, 0) {
                Ok(())
            } else {
                numbers.insert(name, 0, number)
            }
        }
    }
}
