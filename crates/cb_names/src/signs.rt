//! Names with their numbers of arguments.

ghost use Rattle.std.specs.Prelude.{◌≡◌, ◌<◌, [], Some, false, length, position, slice_get, OnOk, OnErr, AllPairs};
ghost use Rattle.cb_model.specs.Directives.{Sign, same_sign, has_sign};
ghost use Rattle.cb_names.specs.Keys.{add_sign};

use indexmap::IndexSet;
use std::alloc::{AllocError, Global};
use std::marker::Model;

/// Names with their numbers of arguments, without repeats, each under the number of its place, from 0. Contracts see
/// the list of them.
#[derive(Drop)]
pub struct Signs<'s> {
    signs: IndexSet<(&'s [u8], usize)>,
}

impl<'s> Model for Signs<'s> {
    ghost use Rattle.std.specs.Prelude.{List, ℕ, map};
    ghost use Rattle.std.specs.Coded.{coded_list, coded×, coded_ℕ};
    ghost use Rattle.cb_names.specs.Keys.{key_sign};

    ghost Value = { List (List ℕ × ℕ) };

    ghost coded = { coded_list (coded× (coded_list coded_ℕ) coded_ℕ) };

    ghost view = { λ s. map key_sign s.signs.keys };
}

impl<'s> Signs<'s> {
    /// No names.
    pub fn new(alloc: Global) -> Signs<'s>
        ensures { result ≡ [] }
    {
        Signs {
            signs: IndexSet::new(alloc),
        }
    }

    /// How many names there are; no two of them are the same.
    pub fn len(&self) -> usize
        ensures len { result ≡ length self.now }
        ensures distinct { AllPairs (λ a b. same_sign a b ≡ false) self.now }
    {
        self.signs.len()
    }

    /// Whether the name is there with this number of arguments.
    pub fn has(&self, name: &'s [u8], count: usize) -> bool
        ensures { result ≡ has_sign self.now (name.now, count) }
    {
        self.signs.contains(&(name, count))
    }

    /// The number of a name with this number of arguments; `None` where it isn't there.
    pub fn number(&self, name: &'s [u8], count: usize) -> Option<usize>
        ensures { result ≡ position (same_sign (name.now, count)) self.now }
    {
        self.signs.get_index_of(&(name, count))
    }

    /// The name under a number, and its number of arguments.
    pub fn sign(&self, number: usize) -> (&'s [u8], usize)
        requires { number < length self.now }
        ensures { slice_get self.now number ≡ Some (result.0.now, result.1) }
    {
        match self.signs.get_index(number) {
            Some(sign) => *sign,
            None => unreachable!(),
        }
    }

    /// Puts a name at the end, where it isn't there yet with this number of arguments.
    pub fn add(&mut self, name: &'s [u8], count: usize) -> Result<(), AllocError>
        ensures added { OnOk result (self.new ≡ add_sign self.old (name.now, count)) }
        ensures refused { OnErr result (self.new ≡ self.old) }
    {
        self.signs.insert((name, count))?;
        Ok(())
    }
}
