//! Modules and specifications by number.

ghost use Rattle.std.specs.Prelude.{◌≡◌, ◌<◌, ◌≤◌, ◌^◌, Bool, true, List, length, map, [], position, bytes_eq, slice_index_or, IfOk};
ghost use Rattle.cb_model.specs.Bits.{all_of, Each};
ghost use Rattle.cb_model.specs.Circuits.{flats, circuit_of, pins_of};
ghost use Rattle.cb_model.specs.Carry.{IsCarrying};
ghost use Rattle.cb_model.specs.Sound.{HasOneValuation};
ghost use Rattle.cb_model.specs.Values.{in_scope};
ghost use Rattle.cb_model.specs.Text.{shown_name};
ghost use Rattle.cb_model.specs.Facts.{no_circuits};
ghost use Rattle.cb_circ.specs.At.{module_at, flat_at, spec_at};
ghost use Rattle.cb_circ.specs.Nets.{HasNets};

use cb_facts::{RawModule, RawSpec};
use cb_model::{Circuit, Expr};
use cb_names::Names;
use cb_netlist::{Netlist, flatten};
use std::alloc::{AllocError, Global};
use std::marker::Model;

/// An accepted module, with its numbers of outputs and of flattened gates.
#[derive(Drop)]
pub(crate) struct Entry<'s> {
    pub raw: RawModule<'s>,
    pub outputs: u32,
    pub gates: u32,
}

/// An accepted specification, with its number of inputs.
#[derive(Drop)]
pub(crate) struct SpecEntry<'s> {
    pub raw: RawSpec<'s>,
    pub inputs: u32,
}

/// The modules and specifications of a file, each under the number of its place among them. Contracts see the modules,
/// their flattened modules and the specifications.
#[derive(Drop)]
pub struct Circuits<'s> {
    pub(crate) modules: Vec<Entry<'s>>,
    pub(crate) netlists: Vec<Netlist>,
    pub(crate) names: Names<'s>,
    pub(crate) specs: Vec<SpecEntry<'s>>,
    pub(crate) spec_names: Names<'s>,
}

impl<'s> Model for Circuits<'s> {
    ghost use Rattle.cb_model.specs.Facts as facts;
    ghost use Rattle.cb_circ.specs.View.{circuits_view};
    ghost use Rattle.cb_circ.specs.Kept.{AreCircuits};
    ghost use Rattle.std.specs.Coded.{codes};
    ghost use Rattle.cb_model.specs.contracts.Expr as expr;

    ghost Value = { facts.Circuits };

    ghost coded = { Prim.hlevel (codes, expr.the_row.coded) };

    ghost view = { λ c. circuits_view c.modules.items c.specs.items };

    ghost invariant = { λ c. AreCircuits c.modules.items c.netlists.items c.names c.specs.items c.spec_names };
}

impl<'s> Circuits<'s> {
    /// No modules and no specifications.
    pub(crate) fn new(alloc: Global) -> Circuits<'s>
        ensures { result ≡ no_circuits }
    {
        Circuits {
            modules: Vec::new(alloc),
            netlists: Vec::new(alloc),
            names: Names::new(alloc),
            specs: Vec::new(alloc),
            spec_names: Names::new(alloc),
        }
    }

    /// How many modules there are.
    pub fn modules(&self) -> u32
        ensures { result ≡ length self.now.modules }
    {
        self.modules.len() as u32
    }

    /// The number of the module with this name; `None` where there is none.
    pub fn find(&self, name: &[u8]) -> Option<u32>
        ensures number { result ≡ position (λ m. bytes_eq m.name name.now) self.now.modules }
        ensures flats { self.now.flats ≡ flats [] self.now.modules }
    {
        match self.names.number(name) {
            Some(number) => Some(number as u32),
            None => None,
        }
    }

    /// How many inputs a module has.
    pub fn inputs(&self, m: u32) -> u32
        requires { m < length self.now.modules }
        ensures { result ≡ length (module_at self.now m).inputs }
    {
        self.modules[m as usize].raw.inputs
    }

    /// How many outputs a module has.
    pub fn outputs(&self, m: u32) -> u32
        requires { m < length self.now.modules }
        ensures { result ≡ length (module_at self.now m).outputs }
    {
        self.modules[m as usize].outputs
    }

    /// The name of an input as it stands in the text; one that is written `_` is `_`.
    pub fn input_name(&self, m: u32, k: u32) -> &'s [u8]
        requires known { m < length self.now.modules }
        requires input { k < length (module_at self.now m).inputs }
        ensures { result.now ≡ shown_name (slice_index_or (module_at self.now m).inputs k []) }
    {
        self.modules[m as usize].raw.nets.shown(k as usize)
    }

    /// How many gates the flattened module has.
    pub fn gates(&self, m: u32) -> u32
        requires { m < length self.now.modules }
        ensures gates { result ≡ length (flat_at self.now m).gates }
        ensures small { result ≤ 1000000 }
    {
        self.modules[m as usize].gates
    }

    /// The circuit of a module when it is flattened: its gates in the order of its instances, each instance of a module
    /// replaced by that module's gates. Its nets are first the inputs, then the output of each gate.
    pub fn flat(&self, alloc: Global, m: u32) -> Result<Circuit, AllocError>
        requires { m < length self.now.modules }
        ensures is { IfOk result (λ c. c ≡ circuit_of (flat_at self.now m)) }
        ensures carries { IsCarrying (flat_at self.now m) }
        ensures one { IfOk result (λ c. (input : List Bool) → length input ≡ c.inputs → HasOneValuation c input) }
        ensures pins { IfOk result (λ c. Each (λ g. pins_of g.kind (length g.ins) ≡ true) c.gates) }
        ensures nets { IfOk result HasNets }
        ensures small { IfOk result (λ c. c.nets < 2 ^ 32) }
    {
        flatten(alloc, self.netlists.as_slice(), m)
    }

    /// The number of the specification with this name; `None` where there is none.
    pub fn spec(&self, name: &[u8]) -> Option<u32>
        ensures { result ≡ position (λ s. bytes_eq s.name name.now) self.now.specs }
    {
        match self.spec_names.number(name) {
            Some(number) => Some(number as u32),
            None => None,
        }
    }

    /// How many inputs a specification has.
    pub fn spec_inputs(&self, p: u32) -> u32
        requires { p < length self.now.specs }
        ensures { result ≡ length (spec_at self.now p).inputs }
    {
        self.specs[p as usize].inputs
    }

    /// The expressions of a specification, one for each output, whose variable n is input n.
    pub fn spec_exprs(&self, p: u32) -> &[Expr]
        requires { p < length self.now.specs }
        ensures exprs { result.now ≡ (spec_at self.now p).exprs }
        ensures scope { all_of (map (in_scope 0 (length (spec_at self.now p).inputs)) result.now) ≡ true }
    {
        self.specs[p as usize].raw.exprs.as_slice()
    }
}
