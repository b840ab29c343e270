//! A program after its reading.

ghost use Rattle.std.specs.Prelude.{◌≡◌, ◌<◌, ◌≤◌, suc, true, List, Some, drop, length, get_or, slice_get, MatchResult};
ghost use Rattle.std.specs.Option.{option_map};
ghost use Rattle.cb_model.specs.declared.When.TheVariants as when;
ghost use Rattle.cb_model.specs.declared.Clause.{Clause};
ghost use Rattle.cb_model.specs.Grammar.{FormClause};
ghost use Rattle.cb_model.specs.Written.{query_written};
ghost use Rattle.cb_model.specs.Forms.{query_form};
ghost use Rattle.cb_model.specs.Directives.{Sign, has_sign, heads};
ghost use Rattle.cb_model.specs.Loading.{words_named, module_names, query_body};
ghost use Rattle.cb_model.specs.Program.{clause_of, first_from};
ghost use Rattle.cb_rules.specs.Refused.{RefusesBody};
ghost use Rattle.cb_sorts.specs.Source.{Loads};
ghost use Rattle.cb_sorts.specs.Asked.{Asks};

use crate::asking::asked;
use crate::chained::ChainedRules;
use crate::names::FileNames;
use crate::query::Query;
use cb_directives::{Declarations, LoadError};
use cb_model::{ClauseView, RawQuery, When};
use cb_rules::Given;
use std::alloc::Global;
use std::marker::Model;

/// The program of a file: its rules with the sorts of their variables, and what its directives declare. It keeps
/// slices of the text and copies no name.
#[derive(Drop)]
pub struct Program<'s> {
    pub(crate) declared: Declarations<'s>,
    pub(crate) known: FileNames<'s>,
    pub(crate) rules: ChainedRules,
}

impl<'s> Model for Program<'s> {
    ghost use Rattle.std.specs.Prelude.{◌≤◌, length};
    ghost use Rattle.cb_chains.specs.Chained.{AreChained};
    ghost use Rattle.cb_sorts.specs.Source.{Source};
    ghost use Rattle.std.specs.Coded.{codes};
    ghost use Rattle.cb_model.specs.contracts.Clause as clause;

    ghost Value = { Source };

    ghost coded = { Prim.hlevel (codes, clause.the_row.coded) };

    ghost view = { λ p. record { declared = p.declared; heads = p.known.heads; modules = p.known.modules; names = p.known.names; clauses = p.rules.clauses } };

    ghost invariant = { λ p. AreChained p.rules.clauses (length p.known.names) p.rules.chains × (length p.rules.clauses ≤ 4194304) };
}

impl<'s> Program<'s> {
    /// How many clauses there are, at most 4,194,304. They are numbered from 0 in the order of the text.
    pub fn clauses(&self) -> u32
        ensures count { result ≡ length self.now.clauses }
        ensures few { result ≤ 4194304 }
    {
        self.rules.clauses.len() as u32
    }

    /// A clause, lent.
    pub fn clause(&self, clause: u32) -> ClauseView<'_>
        requires { clause < length self.now.clauses }
        ensures { slice_get self.now.clauses clause ≡ Some (clause_of result) }
    {
        let whole = &self.rules.clauses.as_slice()[clause as usize];
        ClauseView {
            pred: whole.pred,
            sorts: whole.sorts.as_slice(),
            head: whole.head.as_slice(),
            body: whole.body.as_slice(),
        }
    }

    /// The first clause of a predicate; `None` where it has none.
    pub fn first(&self, pred: u32) -> Option<u32>
        requires { pred < length self.now.names }
        ensures { result ≡ first_from pred 0 self.now.clauses }
    {
        self.rules.chains.first(pred)
    }

    /// The next clause of the same predicate; `None` where there is none.
    pub fn after(&self, clause: u32) -> Option<u32>
        requires { clause < length self.now.clauses }
        ensures { (c : Clause) → slice_get self.now.clauses clause ≡ Some c → result ≡ first_from c.pred (suc clause) (drop (suc clause) self.now.clauses) }
    {
        self.rules.chains.after(clause)
    }

    /// What an argument of a predicate has to be before a goal runs; `Any` where no directive delays the predicate.
    pub fn when(&self, pred: u32, place: u32) -> When
        requires { pred < length self.now.names }
        ensures { (a : Sign) → slice_get self.now.names pred ≡ Some a → result ≡ get_or (words_named self.now.declared a) place when.Any }
    {
        let (name, count) = self.known.names.sign(pred as usize);
        self.declared.when(name, count, place as usize)
    }

    /// Whether the clauses of a predicate are demon rules.
    pub fn demon(&self, pred: u32) -> bool
        requires { pred < length self.now.names }
        ensures { (a : Sign) → slice_get self.now.names pred ≡ Some a → result ≡ has_sign self.now.declared.demons a }
    {
        let (name, count) = self.known.names.sign(pred as usize);
        self.declared.demon(name, count)
    }

    /// How many symbolic constants there are, at most 4,096.
    pub fn constants(&self) -> u32
        ensures count { result ≡ length self.now.declared.constants }
        ensures few { result ≤ 4096 }
    {
        self.declared.constants()
    }

    /// The name of a symbolic constant, which are numbered from 0 in the order of the text.
    pub fn constant_name(&self, constant: u32) -> &'s [u8]
        requires { constant < length self.now.declared.constants }
        ensures { slice_get self.now.declared.constants constant ≡ Some result.now }
    {
        self.declared.constant_name(constant)
    }

    /// How many names there are, each with its number of arguments. They are numbered from 0, and those of a query behind
    /// them.
    pub fn names(&self) -> usize
        ensures { result ≡ length self.now.names }
    {
        self.known.names.len()
    }

    /// The name under a number, without its number of arguments.
    pub fn name(&self, number: u32) -> &'s [u8]
        requires { number < length self.now.names }
        ensures { option_map (λ a. a.0) (slice_get self.now.names number) ≡ Some result.now }
    {
        let (name, _) = self.known.names.sign(number as usize);
        name
    }

    /// A query over the program, or its refusal with its line. Names that the program lacks get the next numbers in
    /// the order of their appearance.
    pub fn query(&self, alloc: Global, raw: &RawQuery<'s>) -> Result<Query<'s>, LoadError>
        requires { query_written (query_form raw.now) ≡ true }
        ensures { (cs : List FormClause) → Loads cs self.now → MatchResult result (Asks self.now.declared (heads cs) self.now.names (module_names cs) (query_form raw.now).goals) (RefusesBody self.now.declared (heads cs) (module_names cs) (query_body (query_form raw.now).goals) raw.now.line) }
    {
        let given = Given {
            declared: &self.declared,
            heads: &self.known.heads,
            modules: &self.known.modules,
            names: &self.known.names,
        };
        asked(alloc, &given, raw.line, raw.goals.as_slice())
    }
}
