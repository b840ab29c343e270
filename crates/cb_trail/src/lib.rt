//! An undo list: what was pushed last is taken back first (the trail of Warren's abstract machine, 1983); and which slots
//! may depend on which level, taken back with it.
#![tactic(auto)]

ghost use Rattle.std.specs.Prelude.{◌≡◌, ◌<◌, ◌≤◌, ◌↔◌, [], ◌∷◌, ◌++◌, length, IsSome, IfSome, IfNone, OnOk, OnErr, IfErr, option_copied, slice_get};

mod uses;

use std::alloc::{AllocError, Global};
use std::marker::Model;
pub use uses::{Use, Uses};

/// The changes that were made, in the order in which they were made.
#[derive(Drop)]
pub struct Trail<T> {
    items: Vec<T>,
}

impl<T> Model for Trail<T> {
    ghost use Rattle.std.specs.Prelude.{List};

    ghost Value = { List T };

    ghost view = { λ t. t.items.items };
}

impl<T> Trail<T> {
    /// No changes yet. It takes no memory.
    pub fn new(alloc: Global) -> Trail<T>
        ensures { result ≡ [] }
    {
        Trail {
            items: Vec::new(alloc),
        }
    }

    /// Adds a change. Where there is no memory for it, it is handed back.
    pub fn push(&mut self, item: T) -> Result<(), (AllocError, T)>
        ensures ok { OnOk result (self.new ≡ self.old ++ item ∷ []) }
        ensures refused { OnErr result (self.new ≡ self.old) }
        ensures handed_back { IfErr result (λ e. e.1 ≡ item) }
    {
        match self.items.push(item) {
            Ok(()) => Ok(()),
            Err(failed) => Err((AllocError, failed.value)),
        }
    }

    /// How many changes there are: what a later `undo_next` goes back to.
    pub fn mark(&self) -> u64
        ensures { result ≡ length self.now }
    {
        self.items.len() as u64
    }

    /// The k-th change, from 0, in the order of making.
    pub fn get(&self, k: u64) -> Option<&T>
        ensures { option_copied result ≡ slice_get self.now k }
    {
        self.items.get(k as usize)
    }

    /// Takes back the newest change that was made past the mark, if there is one.
    pub fn undo_next(&mut self, to: u64) -> Option<T>
        ensures some { IsSome result ↔ (to < length self.old) }
        ensures newest { IfSome result (λ item. self.old ≡ self.new ++ item ∷ []) }
        ensures none { IfNone result (self.new ≡ self.old) }
    {
        if self.items.len() as u64 <= to {
            return None;
        }
        self.items.pop()
    }
}
