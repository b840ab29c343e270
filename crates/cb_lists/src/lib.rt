//! Lists of numbers that stand in one, one behind another.
#![tactic(auto)]

ghost use Rattle.std.specs.Prelude.{◌≡◌, ◌<◌, ◌≤◌, ◌-◌, [], ◌∷◌, ◌++◌, length, take, drop, flat_map, slice_index_or, OnOk, OnErr};
ghost use Rattle.cb_lists.specs.Slices.{start_of};

use std::alloc::{AllocError, Global};
use std::marker::Model;

/// Lists of numbers by their places, from 0. Contracts see the list of them.
#[derive(Drop)]
pub struct Lists {
    items: Vec<u32>,
    ends: Vec<usize>,
}

impl Model for Lists {
    ghost use Rattle.std.specs.Prelude.{List, ℕ, length};
    ghost use Rattle.std.specs.Coded.{coded_list, coded_ℕ};
    ghost use Rattle.cb_lists.specs.Slices.{slices, Rises};

    ghost Value = { List (List ℕ) };

    ghost coded = { coded_list (coded_list coded_ℕ) };

    ghost view = { λ l. slices l.items.items 0 l.ends.items };

    ghost invariant = { λ l. Rises 0 l.ends.items (length l.items.items) };
}

/// Where a list begins, by where all lists end.
fn start(ends: &[usize], at: usize) -> usize
    requires { at < length ends.now }
    ensures { result ≡ start_of 0 ends.now at }
{
    if at == 0 { 0 } else { ends[at - 1] }
}

/// The items of a slice from a place to another.
fn part(items: &[u32], start: usize, end: usize) -> &[u32]
    requires rises { start ≤ end }
    requires within { end ≤ length items.now }
    ensures { result.now ≡ take (end - start) (drop start items.now) }
{
    &items[start..end]
}

impl Lists {
    /// No list.
    pub fn new(alloc: Global) -> Lists
        ensures { result ≡ [] }
    {
        Lists {
            items: Vec::new(alloc),
            ends: Vec::new(alloc),
        }
    }

    /// How many lists there are.
    pub fn len(&self) -> usize
        ensures { result ≡ length self.now }
    {
        self.ends.len()
    }

    /// The list at a place.
    pub fn list(&self, at: usize) -> &[u32]
        requires { at < length self.now }
        ensures { result.now ≡ slice_index_or self.now at [] }
    {
        let start = start(self.ends.as_slice(), at);
        let end = self.ends[at];
        part(self.items.as_slice(), start, end)
    }

    /// The numbers of all lists, in order.
    pub fn items(&self) -> &[u32]
        ensures { result.now ≡ flat_map (λ xs. xs) self.now }
    {
        self.items.as_slice()
    }

    /// Puts a list behind the others.
    pub fn push(&mut self, list: &[u32]) -> Result<(), AllocError>
        ensures added { OnOk result (self.new ≡ self.old ++ list.now ∷ []) }
        ensures refused { OnErr result (self.new ≡ self.old) }
    {
        self.ends.push(self.items.len() + list.len())?;
        match self.items.extend_from_slice(list) {
            Ok(()) => Ok(()),
            Err(error) => {
                self.ends.pop();
                Err(error)
            }
        }
    }
}
