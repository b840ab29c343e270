ghost use Rattle.std.specs.Prelude.{◌≡◌, ◌<◌, [], length, slice_index_or, OnOk, OnErr};
ghost use Rattle.cb_netlist.specs.Wiring.{bare_wiring, with_instance, with_output};
ghost use Rattle.cb_netlist.specs.Parts.{filled_is, part_is};
ghost use Rattle.cb_netlist.specs.Places.{filled_at};

use cb_lists::Lists;
use cb_model::GateKind;
use std::alloc::{AllocError, Global};
use std::marker::Model;

/// What an instance is: a gate, or an earlier module by its number.
#[derive(Clone, Copy, PartialEq, Eq, Debug)]
pub enum Part {
    Gate(GateKind),
    Module(u32),
}

/// An instance by its part and the number of its first gate among those of its module.
#[derive(Clone, Copy)]
struct Instance {
    part: Part,
    first: u32,
}

/// A module by plain numbers: its instances that have gates, in the order of its text, and what drives each of its
/// outputs. A net is the number of what drives it: an input of the module, or, above the inputs, one of the gates
/// that the module has when it is flattened. So an instance without gates, which only passes nets through, has no
/// place here, and the pins that it drives have the number of what drives its own pin.
#[derive(Drop)]
pub struct Netlist {
    inputs: u32,
    gates: u32,
    instances: Vec<Instance>,
    pins: Lists,
    outputs: Vec<u32>,
}

impl Model for Netlist {
    ghost use Rattle.std.specs.Prelude.{◌≡◌, length};
    ghost use Rattle.cb_netlist.specs.Wiring.{Wiring};

    ghost Value = { Wiring };

    ghost use Rattle.cb_netlist.specs.Parts.{filled_of};

    ghost view = { λ n. record { inputs = n.inputs; filled = filled_of n.instances.items n.pins; outputs = n.outputs.items; gates = n.gates } };

    ghost invariant = { λ n. length n.instances.items ≡ length n.pins };
}

impl Netlist {
    /// A module with so many inputs and so many gates when it is flattened, with no instance and no output yet.
    pub fn new(alloc: Global, inputs: u32, gates: u32) -> Netlist
        ensures { result ≡ bare_wiring inputs gates }
    {
        Netlist {
            inputs,
            gates,
            instances: Vec::new(alloc),
            pins: Lists::new(alloc),
            outputs: Vec::new(alloc),
        }
    }

    /// How many inputs the module has.
    pub fn inputs(&self) -> u32
        ensures { result ≡ self.now.inputs }
    {
        self.inputs
    }

    /// How many gates the module has when it is flattened.
    pub fn gates(&self) -> u32
        ensures { result ≡ self.now.gates }
    {
        self.gates
    }

    /// What drives each output, in port order.
    pub fn outputs(&self) -> &[u32]
        ensures { result.now ≡ self.now.outputs }
    {
        self.outputs.as_slice()
    }

    /// How many of the module's instances have gates.
    pub fn len(&self) -> usize
        ensures { result ≡ length self.now.filled }
    {
        self.instances.len()
    }

    /// The part of an instance.
    pub fn part(&self, at: usize) -> Part
        requires { at < length self.now.filled }
        ensures { part_is result ≡ (filled_at self.now at).part }
    {
        self.instances[at].part
    }

    /// The number of an instance's first gate among those of its module.
    pub fn first(&self, at: usize) -> u32
        requires { at < length self.now.filled }
        ensures { result ≡ (filled_at self.now at).first }
    {
        self.instances[at].first
    }

    /// The input pins of an instance: what drives each.
    pub fn pins(&self, at: usize) -> &[u32]
        requires { at < length self.now.filled }
        ensures { result.now ≡ (filled_at self.now at).ins }
    {
        self.pins.list(at)
    }

    /// Puts an instance behind the others: its part, the number of its first gate among those of its module, and
    /// what drives each of its input pins.
    pub fn push_instance(&mut self, part: Part, first: u32, pins: &[u32]) -> Result<(), AllocError>
        ensures added { OnOk result (self.new ≡ with_instance self.old (filled_is part first pins.now)) }
        ensures refused { OnErr result (self.new ≡ self.old) }
    {
        self.instances.push(Instance { part, first })?;
        match self.pins.push(pins) {
            Ok(()) => Ok(()),
            Err(error) => {
                self.instances.pop();
                Err(error)
            }
        }
    }

    /// Puts an output behind the others: the number of what drives it.
    pub fn push_output(&mut self, net: u32) -> Result<(), AllocError>
        ensures added { OnOk result (self.new ≡ with_output self.old net) }
        ensures refused { OnErr result (self.new ≡ self.old) }
    {
        self.outputs.push(net)?;
        Ok(())
    }
}
