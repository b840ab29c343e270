//! The facts of a file, one after another.

ghost use Rattle.std.specs.Prelude.{◌≡◌, ◌++◌, ◌∷◌, [], ◌||◌, true, false, map, None, OnOk, OnErr, IfOk, IfErr, MatchOption};
ghost use Rattle.std.specs.List.{list_all};
ghost use Rattle.cb_model.specs.Forms.{form_of, clause_form};
ghost use Rattle.cb_model.specs.Written.{is_written, clause_written, AreClauses};
ghost use Rattle.cb_model.specs.Directives.{same_sign};
ghost use Rattle.cb_model.specs.Loading.{sign_is, module_sign, spec_sign, add_name};
ghost use Rattle.cb_model.specs.Facts.{FactsRead, no_circuits, with_module, with_spec};
ghost use Rattle.cb_facts.specs.Ports.{spec_view};
ghost use Rattle.cb_circ.specs.View.{IsWell, module_view};
ghost use Rattle.cb_circ.specs.Parts.{fault_of};
ghost use Rattle.cb_circ.specs.Driving.{IsChecked};
ghost use Rattle.cb_circ.specs.Reading.{error_at, Reads, IsRefused, ClauseReads, ClauseRefused, FactsRefused, IsScoped, is_spec_name};
ghost use Rattle.cb_circ.specs.Refused.{RefusesFacts};

use crate::checks::Fault;
use crate::circuits::{Circuits, Entry, SpecEntry};
use cb_directives::named;
use cb_facts::{RawModule, RawSpec, read_module, read_spec};
use cb_known::is_fact;
use cb_model::{RawClause, RawTerm};
use cb_names::Names;
use cb_netlist::Netlist;
use std::alloc::{AllocError, Global};
use thiserror::Error;

/// Why the facts of a file are refused, with the line of the first token of the first fact that is.
#[derive(Clone, Copy, Debug, Drop, Error)]
pub enum CircError {
    /// A module has the name of a gate or of an earlier module, or a specification the name of an earlier one.
    #[error("declared twice at line {0}")]
    Twice(u32),
    /// A fact has a body or isn't in its form, or an instance has not the numbers of pins of its part.
    #[error("bad pins at line {0}")]
    Pins(u32),
    /// A net of a module is not driven exactly once, by being an input or an output pin.
    #[error("net not driven once at line {0}")]
    Driven(u32),
    /// Some instances of a module each take an output of the one before, round to the first.
    #[error("cycle in a module at line {0}")]
    Cycle(u32),
    /// The part of an instance is neither a gate nor an earlier module.
    #[error("unknown part at line {0}")]
    Part(u32),
    /// A module has more than 1,000,000 flattened gates.
    #[error("module too large at line {0}")]
    Large(u32),
    /// There was no memory left.
    #[error("out of memory")]
    Memory,
}

/// The refusal of a fact at a line.
fn refusal(line: u32, fault: Fault) -> CircError
    ensures { result ≡ error_at line fault }
{
    match fault {
        Fault::Twice => CircError::Twice(line),
        Fault::Pins => CircError::Pins(line),
        Fault::Driven => CircError::Driven(line),
        Fault::Cycle => CircError::Cycle(line),
        Fault::Part => CircError::Part(line),
        Fault::Large => CircError::Large(line),
    }
}

/// Puts a module and its name behind the others.
fn push_entry<'s>(
    modules: &mut Vec<Entry<'s>>,
    names: &mut Names<'s>,
    entry: Entry<'s>,
) -> Result<(), AllocError>
    ensures added { OnOk result (modules.new.items ≡ modules.old.items ++ entry.entry ∷ []) }
    ensures named { OnOk result (names.new ≡ add_name names.old entry.entry.raw.name.now) }
    ensures refused { OnErr result (modules.new.items ≡ modules.old.items) }
    ensures unnamed { OnErr result (names.new ≡ names.old) }
{
    let name = entry.raw.name;
    modules.push(entry)?;
    match names.add(name) {
        Ok(()) => Ok(()),
        Err(error) => {
            modules.pop();
            Err(error)
        }
    }
}

impl<'s> Circuits<'s> {
    /// Puts an accepted module behind the others. More modules or outputs than a `u32` counts are refused as want of
    /// memory.
    fn push_module(&mut self, raw: RawModule<'s>, netlist: Netlist) -> Result<(), AllocError>
        requires well { IsWell raw }
        requires checked { IsChecked self.old.flats (module_view raw) netlist }
        ensures { OnOk result (self.new ≡ with_module self.old (module_view raw.entry)) }
    {
        let (Ok(outputs), Ok(_)) = (
            u32::try_from(raw.outputs.len()),
            u32::try_from(self.modules.len() + 1),
        ) else {
            return Err(AllocError);
        };
        let entry = Entry {
            raw,
            outputs,
            gates: netlist.gates(),
        };
        self.netlists.push(netlist)?;
        match push_entry(&mut self.modules, &mut self.names, entry) {
            Ok(()) => Ok(()),
            Err(error) => {
                self.netlists.pop();
                Err(error)
            }
        }
    }

    /// Puts an accepted specification behind the others. More specifications or inputs than a `u32` counts are refused
    /// as want of memory.
    fn push_spec(&mut self, raw: RawSpec<'s>) -> Result<(), AllocError>
        requires new { is_spec_name self.old (spec_view raw).name ≡ false }
        requires scope { IsScoped (spec_view raw) }
        ensures { OnOk result (self.new ≡ with_spec self.old (spec_view raw.entry)) }
    {
        let (Ok(inputs), Ok(_)) = (
            u32::try_from(raw.inputs.len()),
            u32::try_from(self.specs.len() + 1),
        ) else {
            return Err(AllocError);
        };
        let name = raw.name;
        self.specs.push(SpecEntry { raw, inputs })?;
        match self.spec_names.add(name) {
            Ok(()) => Ok(()),
            Err(error) => {
                self.specs.pop();
                Err(error)
            }
        }
    }

    /// Whether a specification has the name.
    fn has_spec(&self, name: &[u8]) -> bool
        ensures { result ≡ is_spec_name self.now name.now }
    {
        self.spec_names.has(name)
    }

    /// Reads a module fact without a body, and gives what it is refused with, if it is.
    fn module_fact(
        &mut self,
        alloc: Global,
        head: &RawTerm<'s>,
    ) -> Result<Option<Fault>, AllocError>
        requires written { is_written (form_of head.now) ≡ true }
        requires sign { sign_is module_sign (form_of head.now) ≡ true }
        ensures { IfOk result (λ o. MatchOption o (Reads self.old (form_of head.now) false self.new) (λ e. IsRefused self.old (form_of head.now) false (fault_of e))) }
    {
        let Some(raw) = read_module(alloc, head)? else {
            return Ok(Some(Fault::Pins));
        };
        match self.check(alloc, &raw)? {
            Ok(netlist) => {
                self.push_module(raw, netlist)?;
                Ok(None)
            }
            Err(fault) => Ok(Some(fault)),
        }
    }

    /// Reads a specification fact without a body, and gives what it is refused with, if it is.
    fn spec_fact(&mut self, alloc: Global, head: &RawTerm<'s>) -> Result<Option<Fault>, AllocError>
        requires written { is_written (form_of head.now) ≡ true }
        requires sign { sign_is spec_sign (form_of head.now) ≡ true }
        ensures { IfOk result (λ o. MatchOption o (Reads self.old (form_of head.now) false self.new) (λ e. IsRefused self.old (form_of head.now) false (fault_of e))) }
    {
        let Some(raw) = read_spec(alloc, head)? else {
            return Ok(Some(Fault::Pins));
        };
        if self.has_spec(raw.name) {
            return Ok(Some(Fault::Twice));
        }
        self.push_spec(raw)?;
        Ok(None)
    }

    /// Reads a fact, and gives what it is refused with, if it is.
    fn fact(
        &mut self,
        alloc: Global,
        head: &RawTerm<'s>,
        bodied: bool,
    ) -> Result<Option<Fault>, AllocError>
        requires written { is_written (form_of head.now) ≡ true }
        requires fact { (sign_is module_sign (form_of head.now) || sign_is spec_sign (form_of head.now)) ≡ true }
        ensures { IfOk result (λ o. MatchOption o (Reads self.old (form_of head.now) bodied self.new) (λ e. IsRefused self.old (form_of head.now) bodied (fault_of e))) }
    {
        if bodied {
            return Ok(Some(Fault::Pins));
        }
        if is_module(head) {
            self.module_fact(alloc, head)
        } else {
            self.spec_fact(alloc, head)
        }
    }

    /// Reads a clause, and gives the line of a refused fact and what it is refused with.
    fn clause(
        &mut self,
        alloc: Global,
        clause: &RawClause<'s>,
    ) -> Result<Option<(u32, Fault)>, AllocError>
        requires { clause_written (clause_form clause.now) ≡ true }
        ensures { IfOk result (λ o. MatchOption o (ClauseReads self.old (clause_form clause.now) self.new) (λ r. ClauseRefused self.old (clause_form clause.now) r.0 (fault_of r.1))) }
    {
        if !is_fact(clause) {
            return Ok(None);
        }
        match clause {
            RawClause::Directive { .. } => Ok(None),
            RawClause::Rule {
                line,
                head,
                bodied,
                ..
            } => match self.fact(alloc, head, *bodied)? {
                Some(fault) => Ok(Some((*line, fault))),
                None => Ok(None),
            },
        }
    }

    /// Reads clauses in order, up to the first refused fact, and gives its line and what it is refused with.
    fn clauses(
        &mut self,
        alloc: Global,
        clauses: &[RawClause<'s>],
    ) -> Result<Option<(u32, Fault)>, AllocError>
        requires { list_all clause_written (map clause_form clauses.now) ≡ true }
        ensures { IfOk result (λ o. MatchOption o (FactsRead self.old (map clause_form clauses.now) None self.new) (λ r. FactsRefused self.old (map clause_form clauses.now) r.0 (fault_of r.1))) }
    {
        for clause in clauses {
            if let Some(refused) = self.clause(alloc, clause)? {
                return Ok(Some(refused));
            }
        }
        Ok(None)
    }
}

/// Whether a name with its number of arguments is that of module facts.
fn is(name: &[u8], count: usize) -> bool
    ensures { result ≡ same_sign module_sign (name.now, count) }
{
    b"module".as_slice() == name && count == 4
}

/// Whether a head is that of a module fact.
fn is_module(head: &RawTerm<'_>) -> bool
    ensures { result ≡ sign_is module_sign (form_of head.now) }
{
    match named(head) {
        Some((name, args)) => is(name, args.len()),
        None => false,
    }
}

/// The modules and specifications of a file's facts, which are checked in the order of the text; other clauses are
/// passed over.
pub fn read_circuits<'s>(
    alloc: Global,
    clauses: &[RawClause<'s>],
) -> Result<Circuits<'s>, CircError>
    requires { AreClauses 4194304 (map clause_form clauses.now) }
    ensures read { IfOk result (λ c. FactsRead no_circuits (map clause_form clauses.now) None c) }
    ensures refused { IfErr result (RefusesFacts (map clause_form clauses.now)) }
{
    let mut circuits = Circuits::new(alloc);
    match circuits.clauses(alloc, clauses) {
        Ok(None) => Ok(circuits),
        Ok(Some((line, fault))) => Err(refusal(line, fault)),
        Err(AllocError) => Err(CircError::Memory),
    }
}
