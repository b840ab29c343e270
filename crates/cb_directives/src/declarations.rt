//! What the directives of a file declare.

ghost use Rattle.std.specs.Prelude.{◌≡◌, ◌&&◌, not, ◌<◌, ◌≤◌, [], Some, length, map, position, bytes_eq, get_or, slice_get, unwrap_or, MatchResult};
ghost use Rattle.std.specs.List.{list_any};
ghost use Rattle.std.specs.Option.{option_map};
ghost use Rattle.cb_model.specs.declared.When.TheVariants as when;
ghost use Rattle.cb_model.specs.Forms.{form_of};
ghost use Rattle.cb_model.specs.Loading.{words_named};
ghost use Rattle.cb_model.specs.Directives.{Sign, nothing, has_sign, looked_up, accept, constant_argument, sorts_argument, delay_argument, argument, nonvar_at_bool, sorts_of};
ghost use Rattle.cb_directives.specs.Refusals.{IsFault};
ghost use Rattle.cb_directives.specs.Checks.{never_waits, check_other, check_delay, arguments_of, Accepts, Refuses};

use crate::fault::{Fault, LoadError};
use crate::reserved::is_reserved;
use crate::terms::{atom, named};
use crate::words::{has_nonvar, words};
use cb_model::{RawTerm, Sort, When};
use cb_names::{Names, Signs, Table};
use sqlite_items::Items;
use std::alloc::Global;
use std::marker::Model;

/// What the directives of a file declare.
#[derive(Drop)]
pub struct Declarations<'s> {
    constants: Names<'s>,
    sorts: Table<'s, Items<Sort>>,
    demons: Signs<'s>,
    delays: Table<'s, Items<When>>,
}

impl<'s> Model for Declarations<'s> {
    ghost use Rattle.std.specs.Prelude.{◌≤◌, length};
    ghost use Rattle.cb_model.specs.Directives.{Declared};
    ghost use Rattle.cb_directives.specs.Kept.{AreDeclared, AreCounted};

    ghost Value = { Declared };

    ghost view = { λ d. record { constants = d.constants; sorts = d.sorts; demons = d.demons; delays = d.delays } };

    ghost invariant = { λ d. (length d.constants ≤ 4096) × AreDeclared d.demons d.sorts × AreCounted d.sorts };
}

impl<'s> Declarations<'s> {
    /// Nothing is declared.
    pub(crate) fn new(alloc: Global) -> Declarations<'s>
        ensures { result ≡ nothing }
    {
        Declarations {
            constants: Names::new(alloc),
            sorts: Table::new(alloc),
            demons: Signs::new(alloc),
            delays: Table::new(alloc),
        }
    }

    /// How many symbolic constants there are, at most 4,096.
    pub fn constants(&self) -> u32
        ensures count { result ≡ length self.now.constants }
        ensures few { result ≤ 4096 }
    {
        self.constants.len() as u32
    }

    /// The name of a constant, which are numbered from 0 in the order of the text.
    pub fn constant_name(&self, number: u32) -> &'s [u8]
        requires { number < length self.now.constants }
        ensures { slice_get self.now.constants number ≡ Some result.now }
    {
        self.constants.name(number as usize)
    }

    /// Whether a name without arguments is a constant.
    pub fn is_constant(&self, name: &[u8]) -> bool
        ensures { result ≡ list_any (bytes_eq name.now) self.now.constants }
    {
        self.constants.has(name)
    }

    /// The number of a constant; `None` where the name isn't one.
    pub fn constant_number(&self, name: &[u8]) -> Option<usize>
        ensures { result ≡ position (bytes_eq name.now) self.now.constants }
    {
        self.constants.number(name)
    }

    /// The declared sorts of the arguments; `None` where none are declared.
    pub fn sorts(&self, name: &'s [u8], count: usize) -> Option<&[Sort]>
        ensures { option_map (λ s. s.now) result ≡ looked_up self.now.sorts (name.now, count) }
    {
        match self.sorts.get(name, count) {
            Some(sorts) => Some(sorts.as_slice()),
            None => None,
        }
    }

    /// A law: a name has as many sorts as arguments.
    pub fn counted(&self)
        ensures { (a : Sign) → length (sorts_of self.now a) ≡ a.1 }
    {
        let _ = &self.sorts;
    }

    /// Whether the clauses of a predicate are demon rules.
    pub fn demon(&self, name: &'s [u8], count: usize) -> bool
        ensures { result ≡ has_sign self.now.demons (name.now, count) }
    {
        self.demons.has(name, count)
    }

    /// What an argument of a predicate has to be before a goal runs; `Any` where no directive delays the predicate.
    pub fn when(&self, name: &'s [u8], count: usize, place: usize) -> When
        ensures { result ≡ get_or (words_named self.now (name.now, count)) place when.Any }
    {
        match self.delays.get(name, count) {
            Some(words) => match sqlite_items::at(words.as_slice(), place) {
                Some(word) => *word,
                None => When::Any,
            },
            None => When::Any,
        }
    }

    /// Declares a constant.
    fn constant(&mut self, term: &RawTerm<'s>) -> Result<(), Fault>
        ensures { MatchResult result (λ _. constant_argument self.old (form_of term.now) ≡ accept self.new) (λ e. IsFault e (constant_argument self.old (form_of term.now)).0) }
    {
        let Some(name) = atom(term) else {
            return Err(Fault::Directive);
        };
        if is_reserved(name, 0) {
            return Err(Fault::Directive);
        }
        if self.constants.len() > 4095 {
            return Err(Fault::Directive);
        }
        if self.constants.has(name) {
            return Err(Fault::Twice);
        }
        let Ok(()) = self.constants.add(name) else {
            return Err(Fault::Memory);
        };
        Ok(())
    }

    /// Declares the sorts of a name, whose clauses may be demon rules.
    fn sorted(&mut self, alloc: Global, demon: bool, term: &RawTerm<'s>) -> Result<(), Fault>
        ensures { MatchResult result (λ _. sorts_argument demon self.old (form_of term.now) ≡ accept self.new) (λ e. IsFault e (sorts_argument demon self.old (form_of term.now)).0) }
    {
        let Some((name, args)) = named(term) else {
            return Err(Fault::Directive);
        };
        let count = args.len();
        let sorts = words::<Sort>(alloc, args)?;
        if is_reserved(name, count) {
            return Err(Fault::Directive);
        }
        if self.sorts.has(name, count) {
            return Err(Fault::Twice);
        }
        let Ok(()) = self.sorts.insert(name, count, sorts) else {
            return Err(Fault::Memory);
        };
        if !demon {
            return Ok(());
        }
        let Ok(()) = self.demons.add(name, count) else {
            return Err(Fault::Memory);
        };
        Ok(())
    }

    /// Whether `nonvar` stands at a place that is declared Boolean.
    fn nonvar_at_bool(&self, name: &'s [u8], count: usize, words: &[When]) -> bool
        ensures { result ≡ nonvar_at_bool words.now (sorts_of self.now (name.now, count)) }
    {
        match self.sorts.get(name, count) {
            Some(sorts) => has_nonvar(words, sorts.as_slice()),
            None => false,
        }
    }

    /// Whether goals of this name may not wait in this way.
    fn never_waits(&self, name: &'s [u8], count: usize, words: &[When]) -> bool
        ensures { result ≡ never_waits self.now (name.now, count) words.now }
    {
        is_reserved(name, count)
            || count == 0
            || self.nonvar_at_bool(name, count, words)
            || self.demons.has(name, count)
    }

    /// Whether goals of this name wait already.
    fn is_delayed(&self, name: &'s [u8], count: usize) -> bool
        ensures { result ≡ has_sign (map (λ e. e.0) self.now.delays) (name.now, count) }
    {
        self.delays.has(name, count)
    }

    /// Whether a name has neither clauses nor declared sorts; `heads` are the names that have clauses.
    fn is_unknown(&self, heads: &Signs<'s>, name: &'s [u8], count: usize) -> bool
        ensures { result ≡ (not (has_sign heads.now (name.now, count)) && not (has_sign (map (λ e. e.0) self.now.sorts) (name.now, count))) }
    {
        !heads.has(name, count) && !self.sorts.has(name, count)
    }

    /// Declares what a goal waits for; `heads` are the names that have clauses.
    fn delay(&mut self, alloc: Global, heads: &Signs<'s>, term: &RawTerm<'s>) -> Result<(), Fault>
        ensures { MatchResult result (λ _. delay_argument heads.now self.old (form_of term.now) ≡ accept self.new) (λ e. IsFault e (delay_argument heads.now self.old (form_of term.now)).0) }
    {
        let Some((name, args)) = named(term) else {
            return Err(Fault::Directive);
        };
        let count = args.len();
        let words = words::<When>(alloc, args)?;
        if self.never_waits(name, count, words.as_slice()) {
            return Err(Fault::Directive);
        }
        if self.is_delayed(name, count) {
            return Err(Fault::Twice);
        }
        if self.is_unknown(heads, name, count) {
            return Err(Fault::Unknown);
        }
        let Ok(()) = self.delays.insert(name, count, words) else {
            return Err(Fault::Memory);
        };
        Ok(())
    }

    /// An argument of a directive other than `delay`.
    fn argument(&mut self, alloc: Global, word: &[u8], term: &RawTerm<'s>) -> Result<(), Fault>
        ensures { MatchResult result (λ _. argument word.now self.old (form_of term.now) ≡ accept self.new) (λ e. IsFault e (argument word.now self.old (form_of term.now)).0) }
    {
        if word == b"constants".as_slice() {
            self.constant(term)
        } else if word == b"sorts".as_slice() {
            self.sorted(alloc, false, term)
        } else if word == b"demon".as_slice() {
            self.sorted(alloc, true, term)
        } else {
            Err(Fault::Directive)
        }
    }

    /// The arguments of a directive other than `delay`, in order.
    pub(crate) fn declare(
        &mut self,
        alloc: Global,
        line: u32,
        word: &[u8],
        terms: &[RawTerm<'s>],
    ) -> Result<(), LoadError>
        ensures { MatchResult result (λ _. Accepts check_other (arguments_of line word.now terms.now) self.old self.new) (Refuses check_other (arguments_of line word.now terms.now) self.old) }
    {
        for term in terms {
            match self.argument(alloc, word, term) {
                Ok(()) => {}
                Err(fault) => return Err(fault.at(line)),
            }
        }
        Ok(())
    }

    /// The arguments of a directive `delay`, in order.
    pub(crate) fn delay_all(
        &mut self,
        alloc: Global,
        heads: &Signs<'s>,
        line: u32,
        word: &[u8],
        terms: &[RawTerm<'s>],
    ) -> Result<(), LoadError>
        ensures { MatchResult result (λ _. Accepts (check_delay heads.now) (arguments_of line word.now terms.now) self.old self.new) (Refuses (check_delay heads.now) (arguments_of line word.now terms.now) self.old) }
    {
        for term in terms {
            match self.delay(alloc, heads, term) {
                Ok(()) => {}
                Err(fault) => return Err(fault.at(line)),
            }
        }
        Ok(())
    }
}
