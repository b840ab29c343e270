//! The checks of a module fact in its form.

ghost use Rattle.std.specs.Prelude.{◌≡◌, ◌<◌, ◌≤◌, ◌++◌, ◌∷◌, [], true, false, not, length, IfOk, IfSome, MatchOption, MatchResult, Some, None, min};
ghost use Rattle.cb_model.specs.Circuits.{flat, flat_named};
ghost use Rattle.cb_model.specs.Facts.{is_part, ModuleRefusal, all_driven_once};
ghost use Rattle.cb_circ.specs.View.{IsWell, module_view};
ghost use Rattle.cb_circ.specs.Parts.{IsNamed, fits_counts, fault_of, AreParts, FaultsSo, gates_of, Refuses};
ghost use Rattle.cb_circ.specs.Driving.{IsChecked};

use crate::circuits::Circuits;
use crate::marks::driven_once;
use crate::owners::instance_order;
use cb_facts::RawModule;
use cb_gates::{gate, pins};
use cb_netlist::{Netlist, Part};
use std::alloc::{AllocError, Global};

/// How many gates a flattened module may have.
const LIMIT: u32 = 1_000_000;

/// Why a fact is refused.
#[derive(Clone, Copy, Debug, Drop)]
pub(crate) enum Fault {
    Twice,
    Pins,
    Driven,
    Cycle,
    Part,
    Large,
}

/// The parts of a module's instances in order, the number of each one's first gate among all, and how many gates they
/// have, or one more than a module may have where they have more.
#[derive(Drop)]
pub(crate) struct Found {
    pub parts: Vec<Part>,
    pub firsts: Vec<u32>,
    pub gates: u32,
}

impl<'s> Circuits<'s> {
    /// The part with a name; `None` where there is none.
    fn part(&self, name: &[u8]) -> Option<Part>
        ensures { MatchOption result (is_part self.now.flats name.now ≡ false) (IsNamed self.now.flats name.now) }
    {
        if let Some(kind) = gate(name) {
            return Some(Part::Gate(kind));
        }
        match self.names.number(name) {
            Some(number) => Some(Part::Module(number as u32)),
            None => None,
        }
    }

    /// Whether a part may have so many input and output pins.
    fn fits(&self, name: &[u8], part: Part, ins: usize, outs: usize) -> bool
        requires { IsNamed self.now.flats name.now part }
        ensures { result ≡ fits_counts self.now.flats name.now ins outs }
    {
        match part {
            Part::Gate(kind) => pins(kind, ins) && outs == 1,
            Part::Module(q) => {
                let entry = &self.modules[q as usize];
                ins == entry.raw.inputs as usize && outs == entry.outputs as usize
            }
        }
    }

    /// How many gates a part has.
    pub(crate) fn part_gates(&self, name: &[u8], part: Part) -> u32
        requires { IsNamed self.now.flats name.now part }
        ensures gates { result ≡ gates_of self.now.flats name.now }
        ensures small { result ≤ 1000000 }
    {
        match part {
            Part::Gate(_) => 1,
            Part::Module(q) => self.modules[q as usize].gates,
        }
    }

    /// The first fault of the instances in order; without one, their parts, and how many gates they have.
    fn instances(
        &self,
        alloc: Global,
        raw: &RawModule<'_>,
    ) -> Result<Result<Found, Fault>, AllocError>
        requires { IsWell raw.now }
        ensures { IfOk result (λ r. MatchResult r (AreParts self.now.flats (module_view raw.now)) (FaultsSo self.now.flats (module_view raw.now))) }
    {
        let mut parts = Vec::new(alloc);
        let mut firsts = Vec::new(alloc);
        let mut gates = 0;
        for at in 0..raw.parts.len() {
            let name = raw.parts[at];
            let Some(part) = self.part(name) else {
                return Ok(Err(Fault::Part));
            };
            if !self.fits(name, part, raw.ins.list(at).len(), raw.outs.list(at).len()) {
                return Ok(Err(Fault::Pins));
            }
            parts.push(part)?;
            firsts.push(gates)?;
            let more: u32 = gates + self.part_gates(name, part);
            gates = more.min(LIMIT + 1);
        }
        Ok(Ok(Found {
            parts,
            firsts,
            gates,
        }))
    }

    /// The netlist of a module whose fact is accepted, or what the fact is refused with.
    pub(crate) fn check(
        &self,
        alloc: Global,
        raw: &RawModule<'_>,
    ) -> Result<Result<Netlist, Fault>, AllocError>
        requires { IsWell raw.now }
        ensures { IfOk result (λ r. MatchResult r (IsChecked self.now.flats (module_view raw.now)) (Refuses self.now.flats (module_view raw.now))) }
    {
        if self.part(raw.name).is_some() {
            return Ok(Err(Fault::Twice));
        }
        let found = match self.instances(alloc, raw)? {
            Ok(found) => found,
            Err(fault) => return Ok(Err(fault)),
        };
        if !driven_once(alloc, raw)? {
            return Ok(Err(Fault::Driven));
        }
        let Some(order) = instance_order(alloc, raw)? else {
            return Ok(Err(Fault::Cycle));
        };
        if found.gates > LIMIT {
            return Ok(Err(Fault::Large));
        }
        Ok(Ok(self.netlist(alloc, raw, &found, order.as_slice())?))
    }
}
