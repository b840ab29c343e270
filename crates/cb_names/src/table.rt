//! What stands for names with their numbers of arguments.

ghost use Rattle.std.specs.Prelude.{◌≡◌, [], ◌∷◌, ◌++◌, false, map, OnOk, OnErr};
ghost use Rattle.std.specs.Option.{option_copied};
ghost use Rattle.cb_model.specs.Directives.{has_sign, looked_up};

use indexmap::IndexMap;
use std::alloc::{AllocError, Global};
use std::marker::Model;

/// A value for each of some names with their numbers of arguments. Contracts see the list of them.
#[derive(Drop)]
pub struct Table<'s, T> {
    entries: IndexMap<(&'s [u8], usize), T>,
}

impl<'s, T> Model for Table<'s, T> {
    ghost use Rattle.std.specs.Prelude.{List, ℕ, map};
    ghost use Rattle.std.specs.Coded.{coded_list, coded×, coded_ℕ};
    ghost use Rattle.cb_names.specs.Keys.{key_sign};

    ghost Value = { List ((List ℕ × ℕ) × T) };

    ghost coded = { coded_list (coded× (coded× (coded_list coded_ℕ) coded_ℕ) T.code) };

    ghost view = { λ t. map (λ e. (key_sign e.0, e.1)) t.entries.entries };
}

impl<'s, T> Table<'s, T> {
    /// No entry.
    pub fn new(alloc: Global) -> Table<'s, T>
        ensures { result ≡ [] }
    {
        Table {
            entries: IndexMap::new(alloc),
        }
    }

    /// Whether the name has a value with this number of arguments.
    pub fn has(&self, name: &'s [u8], count: usize) -> bool
        ensures { result ≡ has_sign (map (λ e. e.0) self.now) (name.now, count) }
    {
        self.entries.contains_key(&(name, count))
    }

    /// The value of a name with this number of arguments.
    pub fn get(&self, name: &'s [u8], count: usize) -> Option<&T>
        ensures { option_copied result ≡ looked_up self.now (name.now, count) }
    {
        self.entries.get(&(name, count))
    }
}

impl<'s, T: Drop> Table<'s, T> {
    /// Gives a value to a name that has none with this number of arguments.
    pub fn insert(&mut self, name: &'s [u8], count: usize, value: T) -> Result<(), AllocError>
        requires { has_sign (map (λ e. e.0) self.old) (name.now, count) ≡ false }
        ensures added { OnOk result (self.new ≡ self.old ++ ((name.now, count), value) ∷ []) }
        ensures refused { OnErr result (self.new ≡ self.old) }
    {
        match self.entries.insert((name, count), value) {
            Ok(_) => Ok(()),
            Err(_) => Err(AllocError),
        }
    }
}
