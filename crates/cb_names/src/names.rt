//! Names without repeats, each under the number of its place.

ghost use Rattle.std.specs.Prelude.{◌≡◌, ◌<◌, [], Some, length, position, bytes_eq, slice_get, OnOk, OnErr};
ghost use Rattle.std.specs.List.{list_any};
ghost use Rattle.cb_model.specs.Loading.{add_name};

use indexmap::IndexSet;
use std::alloc::{AllocError, Global};
use std::marker::Model;

/// Names without repeats, each under the number of its place, from 0. Contracts see the list of them.
#[derive(Drop)]
pub struct Names<'s> {
    names: IndexSet<&'s [u8]>,
}

impl<'s> Model for Names<'s> {
    ghost use Rattle.std.specs.Prelude.{List, ℕ, map};
    ghost use Rattle.std.specs.Coded.{coded_list, coded_ℕ};

    ghost Value = { List (List ℕ) };

    ghost coded = { coded_list (coded_list coded_ℕ) };

    ghost view = { λ n. map (λ x. x.now) n.names.keys };
}

impl<'s> Names<'s> {
    /// No names.
    pub fn new(alloc: Global) -> Names<'s>
        ensures { result ≡ [] }
    {
        Names {
            names: IndexSet::new(alloc),
        }
    }

    /// How many names there are.
    pub fn len(&self) -> usize
        ensures { result ≡ length self.now }
    {
        self.names.len()
    }

    /// Whether the name is there.
    pub fn has(&self, name: &[u8]) -> bool
        ensures { result ≡ list_any (bytes_eq name.now) self.now }
    {
        self.names.contains(name)
    }

    /// The number of a name; `None` where it isn't there.
    pub fn number(&self, name: &[u8]) -> Option<usize>
        ensures { result ≡ position (bytes_eq name.now) self.now }
    {
        self.names.get_index_of(name)
    }

    /// The name under a number.
    pub fn name(&self, number: usize) -> &'s [u8]
        requires { number < length self.now }
        ensures { slice_get self.now number ≡ Some result.now }
    {
        match self.names.get_index(number) {
            Some(name) => *name,
            None => unreachable!(),
        }
    }

    /// Puts a name at the end, where it isn't there yet.
    pub fn add(&mut self, name: &'s [u8]) -> Result<(), AllocError>
        ensures added { OnOk result (self.new ≡ add_name self.old name.now) }
        ensures refused { OnErr result (self.new ≡ self.old) }
    {
        self.names.insert(name)?;
        Ok(())
    }
}
