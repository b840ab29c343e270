//! What drives the nets of a module, by numbers: first the module's inputs, then the gates that it has when it is
//! flattened.

ghost use Rattle.std.specs.Prelude.{◌≡◌, ◌<◌, ◌≤◌, ◌+◌, ◌^◌, ◌++◌, ℕ, length, map, get_or, IfOk, OnOk};
ghost use Rattle.cb_model.specs.Order.{IsOrder};
ghost use Rattle.cb_flat.specs.Walk.{placed_net};
ghost use Rattle.cb_flat.specs.Acyclic.{instance_graph};
ghost use Rattle.cb_netlist.specs.Parts.{part_is};
ghost use Rattle.cb_netlist.specs.Netlists.{gates_in, TakesPins};
ghost use Rattle.cb_circ.specs.View.{IsWell, module_view};
ghost use Rattle.cb_circ.specs.Marks.{AreWithin};
ghost use Rattle.cb_circ.specs.Driving.{values_at, set_all, part_flat, placed_outs, ArePlaced, IsTable};

use crate::checks::Found;
use crate::circuits::Circuits;
use cb_facts::RawModule;
use cb_netlist::{Netlist, Part};
use std::alloc::{AllocError, Global};

/// Adds the values under numbers.
pub(crate) fn read(values: &[u32], numbers: &[u32], found: &mut Vec<u32>) -> Result<(), AllocError>
    requires { AreWithin (length values.now) numbers.now }
    ensures { OnOk result (found.new.items ≡ found.old.items ++ values_at values.now numbers.now) }
{
    for number in numbers {
        found.push(values[*number as usize])?;
    }
    Ok(())
}

/// Puts new values under numbers.
fn write(values: &mut [u32], numbers: &[u32], given: &[u32])
    requires within { AreWithin (length values.old) numbers.now }
    requires as_many { length given.now ≡ length numbers.now }
    ensures { values.new ≡ set_all values.old numbers.now given.now }
{
    for at in 0..numbers.len() {
        values[numbers[at] as usize] = given[at];
    }
}

/// The drivers of so many nets, of which the first are inputs, before anything is known of the others.
fn inputs_alone(alloc: Global, nets: usize, inputs: u32) -> Result<Vec<u32>, AllocError>
    requires { inputs ≤ nets }
    ensures long { IfOk result (λ v. length v.items ≡ nets) }
    ensures inputs { IfOk result (λ v. (k : ℕ) → k < inputs → get_or v.items k 0 ≡ k) }
{
    let mut drivers = vec![in alloc; 0; nets]?;
    for input in 0..inputs {
        drivers[input as usize] = input;
    }
    Ok(drivers)
}

/// What drives a net of a part in a module with so many inputs: what drives the instance's pin, where the net is an
/// input of the part, or a gate of the part, whose first gate has a number in the module.
fn placed(part: &Netlist, inputs: u32, first: u32, pins: &[u32], net: u32) -> u32
    requires pins { length pins.now ≡ part.now.inputs }
    requires net { net < part.now.inputs + part.now.gates }
    requires small { inputs + first + part.now.gates < 2 ^ 32 }
    ensures { result ≡ placed_net part.now.inputs inputs first pins.now net }
{
    if net < part.inputs() {
        pins[net as usize]
    } else {
        inputs + first + (net - part.inputs())
    }
}

/// Adds what drives the outputs of an instance of a module.
fn module_outs(
    part: &Netlist,
    inputs: u32,
    first: u32,
    pins: &[u32],
    found: &mut Vec<u32>,
) -> Result<(), AllocError>
    requires pins { length pins.now ≡ part.now.inputs }
    requires outs { AreWithin (part.now.inputs + part.now.gates) part.now.outputs }
    requires small { inputs + first + part.now.gates < 2 ^ 32 }
    ensures { OnOk result (found.new.items ≡ found.old.items ++ map (placed_net part.now.inputs inputs first pins.now) part.now.outputs) }
{
    let nets = part.outputs();
    for net in nets {
        found.push(placed(part, inputs, first, pins, *net))?;
    }
    Ok(())
}

impl<'s> Circuits<'s> {
    /// Adds what drives the outputs of an instance in a module with so many inputs, by its part, the number of its
    /// first gate and what drives its input pins.
    fn outs(
        &self,
        part: Part,
        inputs: u32,
        first: u32,
        pins: &[u32],
        found: &mut Vec<u32>,
    ) -> Result<(), AllocError>
        requires pins { TakesPins self.now.flats (part_is part) (length pins.now) }
        requires small { inputs + first + gates_in self.now.flats (part_is part) < 2 ^ 32 }
        ensures { OnOk result (found.new.items ≡ found.old.items ++ placed_outs (part_flat self.now.flats part (length pins.now)) inputs first pins.now) }
    {
        match part {
            Part::Gate(_) => {
                found.push(inputs + first)?;
                Ok(())
            }
            Part::Module(q) => module_outs(&self.netlists[q as usize], inputs, first, pins, found),
        }
    }

    /// For each net of an accepted module what drives it, by the parts of its instances and an order of them.
    pub(crate) fn drivers(
        &self,
        alloc: Global,
        raw: &RawModule<'_>,
        found: &Found,
        order: &[u32],
    ) -> Result<Vec<u32>, AllocError>
        requires well { IsWell raw.now }
        requires placed { ArePlaced self.now.flats (module_view raw.now) found.now }
        requires order { IsOrder (instance_graph (module_view raw.now)) order.now }
        ensures { IfOk result (λ v. IsTable self.now.flats (module_view raw.now) raw.now.nets v.items) }
    {
        let mut drivers = inputs_alone(alloc, raw.nets.len(), raw.inputs)?;
        let mut pins = Vec::new(alloc);
        let mut outs = Vec::new(alloc);
        for instance in order {
            let at = *instance as usize;
            pins.clear();
            read(drivers.as_slice(), raw.ins.list(at), &mut pins)?;
            outs.clear();
            let part = found.parts[at];
            self.outs(
                part,
                raw.inputs,
                found.firsts[at],
                pins.as_slice(),
                &mut outs,
            )?;
            write(drivers.as_mut_slice(), raw.outs.list(at), outs.as_slice());
        }
        Ok(drivers)
    }
}
