//! The netlist of an accepted module.

ghost use Rattle.std.specs.Prelude.{◌≡◌, ◌≤◌, length, None, IfOk, OnOk};
ghost use Rattle.cb_model.specs.Bits.{Each};
ghost use Rattle.cb_model.specs.Carry.{IsCarrying};
ghost use Rattle.cb_model.specs.Circuits.{flat};
ghost use Rattle.cb_model.specs.Facts.{ModuleRefusal};
ghost use Rattle.cb_model.specs.Order.{IsOrder};
ghost use Rattle.cb_flat.specs.Acyclic.{instance_graph};
ghost use Rattle.cb_netlist.specs.Wiring.{bare_wiring};
ghost use Rattle.cb_circ.specs.View.{IsWell, module_view};
ghost use Rattle.cb_circ.specs.Marks.{AreWithin};
ghost use Rattle.cb_circ.specs.Parts.{AreParts};
ghost use Rattle.cb_circ.specs.Driving.{values_at, with_outputs, ArePlaced, IsTable, AreFilled, IsChecked};

use crate::checks::Found;
use crate::circuits::Circuits;
use crate::drivers::read;
use cb_facts::RawModule;
use cb_netlist::Netlist;
use std::alloc::{AllocError, Global};

/// Puts what drives these nets behind the outputs of a netlist.
fn push_outputs(drivers: &[u32], nets: &[u32], netlist: &mut Netlist) -> Result<(), AllocError>
    requires { AreWithin (length drivers.now) nets.now }
    ensures { OnOk result (netlist.new ≡ with_outputs netlist.old (values_at drivers.now nets.now)) }
{
    for net in nets {
        netlist.push_output(drivers[*net as usize])?;
    }
    Ok(())
}

impl<'s> Circuits<'s> {
    /// Puts the instances that have gates into a netlist.
    fn fill(
        &self,
        alloc: Global,
        raw: &RawModule<'_>,
        found: &Found,
        drivers: &[u32],
        netlist: &mut Netlist,
    ) -> Result<(), AllocError>
        requires well { IsWell raw.now }
        requires placed { ArePlaced self.now.flats (module_view raw.now) found.now }
        requires drivers { IsTable self.now.flats (module_view raw.now) raw.now.nets drivers.now }
        requires bare { netlist.old ≡ bare_wiring (length (module_view raw.now).inputs) (length (flat self.now.flats (module_view raw.now)).gates) }
        ensures { OnOk result (AreFilled self.now.flats (module_view raw.now) netlist.old netlist.new) }
    {
        let mut pins = Vec::new(alloc);
        for at in 0..raw.parts.len() {
            let part = found.parts[at];
            if self.part_gates(raw.parts[at], part) > 0 {
                pins.clear();
                read(drivers, raw.ins.list(at), &mut pins)?;
                netlist.push_instance(part, found.firsts[at], pins.as_slice())?;
            }
        }
        Ok(())
    }

    /// A law, with nothing to run: the modules before carry bits when they are flattened.
    fn carrying(&self)
        ensures { Each IsCarrying self.now.flats }
    {
        let _netlists = &self.netlists;
    }

    /// The netlist of an accepted module, by the parts of its instances and an order of them. A module with more inputs
    /// and gates than a `u32` counts is refused as want of memory.
    pub(crate) fn netlist(
        &self,
        alloc: Global,
        raw: &RawModule<'_>,
        found: &Found,
        order: &[u32],
    ) -> Result<Netlist, AllocError>
        requires well { IsWell raw.now }
        requires accepted { ModuleRefusal self.now.flats (module_view raw.now) None }
        requires parts { AreParts self.now.flats (module_view raw.now) found.now }
        requires few { found.now.gates ≤ 1000000 }
        requires order { IsOrder (instance_graph (module_view raw.now)) order.now }
        ensures { IfOk result (IsChecked self.now.flats (module_view raw.now)) }
    {
        let Some(_) = raw.inputs.checked_add(found.gates) else {
            return Err(AllocError);
        };
        self.carrying();
        let drivers = self.drivers(alloc, raw, found, order)?;
        let mut netlist = Netlist::new(alloc, raw.inputs, found.gates);
        self.fill(alloc, raw, found, drivers.as_slice(), &mut netlist)?;
        push_outputs(drivers.as_slice(), raw.outputs.as_slice(), &mut netlist)?;
        Ok(netlist)
    }
}
