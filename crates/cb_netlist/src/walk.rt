ghost use Rattle.std.specs.Prelude.{◌≡◌, ℕ, ◌+◌, ◌-◌, ◌<◌, ◌≤◌, ◌^◌, List, [], ◌∷◌, ◌++◌, map, length, IfOk, OnOk};
ghost use Rattle.cb_model.specs.Bits.{Each, numbers};
ghost use Rattle.cb_model.specs.Circuits.{Flat, circuit_of};
ghost use Rattle.cb_flat.specs.Walk.{Numbered, placed_net};
ghost use Rattle.cb_netlist.specs.Wiring.{Wiring, wiring_at};
ghost use Rattle.cb_netlist.specs.Netlists.{AreNetlists, flat_at};
ghost use Rattle.cb_netlist.specs.Walking.{AreGates, IsStep, IsWalk, all_gates, first_frame, frame_of, frames_of};

use crate::netlist::{Netlist, Part};
use cb_model::{Circuit, Gate, GateKind};
use sqlite_items::Items;
use std::alloc::{AllocError, Global};

/// A module that the walk is in: its number, the number of its first gate in the whole, what drives its inputs
/// there, and how many of its instances are done.
#[derive(Drop)]
struct Frame {
    netlist: u32,
    base: u32,
    nets: Vec<u32>,
    done: usize,
}

/// A walk through a whole with so many inputs and gates: the modules that it is in, the innermost last, and the gates
/// met so far.
#[derive(Drop)]
struct Walk {
    inputs: u32,
    count: u32,
    frames: Vec<Frame>,
    gates: Vec<Gate>,
}

impl Frame {
    /// A net of the frame's module in a whole with so many inputs.
    fn net(&self, whole: u32, inputs: u32, net: u32) -> u32
        requires long { length self.now.nets.items ≡ inputs }
        requires small { inputs ≤ net → whole + self.now.base + (net - inputs) < 2 ^ 32 }
        ensures { result ≡ placed_net inputs whole self.now.base self.now.nets.items net }
    {
        if net < inputs {
            self.nets[net as usize]
        } else {
            whole + self.base + (net - inputs)
        }
    }

    /// What drives these pins of the frame's module in a whole with so many inputs.
    fn pins(
        &self,
        alloc: Global,
        whole: u32,
        netlist: &Netlist,
        pins: &[u32],
    ) -> Result<Vec<u32>, AllocError>
        requires long { length self.now.nets.items ≡ netlist.now.inputs }
        requires small { whole + self.now.base + netlist.now.gates ≤ 2 ^ 32 }
        requires nets { Each (λ x. x < netlist.now.inputs + netlist.now.gates) pins.now }
        ensures { IfOk result (λ v. v.items ≡ map (placed_net netlist.now.inputs whole self.now.base self.now.nets.items) pins.now) }
    {
        let inputs = netlist.inputs();
        let mut nets = Vec::with_capacity(alloc, pins.len())?;
        for pin in pins {
            nets.push(self.net(whole, inputs, *pin))?;
        }
        Ok(nets)
    }
}

/// The numbers below a number, in order.
fn numbers_below(alloc: Global, count: u32) -> Result<Vec<u32>, AllocError>
    ensures { IfOk result (λ v. v.items ≡ numbers count) }
{
    let mut numbers = Vec::with_capacity(alloc, count as usize)?;
    for number in 0..count {
        numbers.push(number)?;
    }
    Ok(numbers)
}

impl Walk {
    /// The walk at the beginning of a module, whose inputs are those of the whole.
    fn start(alloc: Global, netlist: &Netlist, number: u32) -> Result<Walk, AllocError>
        ensures inputs { IfOk result (λ w. w.inputs ≡ netlist.now.inputs) }
        ensures count { IfOk result (λ w. w.count ≡ netlist.now.gates) }
        ensures gates { IfOk result (λ w. w.gates.items ≡ []) }
        ensures frames { IfOk result (λ w. (ns : List Wiring) → wiring_at ns number ≡ netlist.now → frames_of ns w.frames.items ≡ first_frame ns number ∷ []) }
    {
        let inputs = netlist.inputs();
        let count = netlist.gates();
        let nets = numbers_below(alloc, inputs)?;
        let mut frames = Vec::new(alloc);
        frames.push(Frame {
            netlist: number,
            base: 0,
            nets,
            done: 0,
        })?;
        Ok(Walk {
            inputs,
            count,
            frames,
            gates: Vec::with_capacity(alloc, count as usize)?,
        })
    }

    /// Emits a gate.
    fn emit(&mut self, kind: GateKind, pins: Vec<u32>) -> Result<(), AllocError>
        requires { self.old.inputs + length self.old.gates.items < 2 ^ 32 }
        ensures gates { OnOk result (self.new.gates.items ≡ self.old.gates.items ++ record { kind = kind; ins = pins.items; out = self.old.inputs + length self.old.gates.items } ∷ []) }
        ensures frames { self.new.frames.items ≡ self.old.frames.items }
        ensures inputs { self.new.inputs ≡ self.old.inputs }
        ensures count { self.new.count ≡ self.old.count }
    {
        let out = self.inputs + self.gates.len() as u32;
        self.gates.push(Gate {
            kind,
            ins: Items::from_vec(pins),
            out,
        })?;
        Ok(())
    }

    /// Enters a module, whose first gate has this number in the whole and whose inputs are driven by these nets.
    fn enter(&mut self, netlist: u32, base: u32, nets: Vec<u32>) -> Result<(), AllocError>
        ensures gates { self.new.gates.items ≡ self.old.gates.items }
        ensures frames { OnOk result (self.new.frames.items ≡ self.old.frames.items ++ record { netlist = netlist; base = base; nets = nets; done = 0 } ∷ []) }
        ensures inputs { self.new.inputs ≡ self.old.inputs }
        ensures count { self.new.count ≡ self.old.count }
    {
        self.frames.push(Frame {
            netlist,
            base,
            nets,
            done: 0,
        })?;
        Ok(())
    }

    /// Goes on with a frame that was the innermost: its next instance is a gate or is entered, or none is left.
    fn step(
        &mut self,
        alloc: Global,
        netlists: &[Netlist],
        mut frame: Frame,
    ) -> Result<(), AllocError>
        requires { IsWalk netlists.now self.old.inputs self.old.count self.old.gates.items (frames_of netlists.now self.old.frames.items ++ frame_of netlists.now frame ∷ []) }
        ensures step { OnOk result (IsStep netlists.now self.old.inputs self.old.count self.old.gates.items (frames_of netlists.now self.old.frames.items ++ frame_of netlists.now frame ∷ []) self.new.gates.items (frames_of netlists.now self.new.frames.items)) }
        ensures inputs { self.new.inputs ≡ self.old.inputs }
        ensures count { self.new.count ≡ self.old.count }
    {
        let netlist = &netlists[frame.netlist as usize];
        let at = frame.done;
        if at >= netlist.len() {
            return Ok(());
        }
        let pins = frame.pins(alloc, self.inputs, netlist, netlist.pins(at))?;
        let base = frame.base + netlist.first(at);
        frame.done += 1;
        self.frames.push(frame)?;
        match netlist.part(at) {
            Part::Gate(kind) => self.emit(kind, pins),
            Part::Module(number) => self.enter(number, base, pins),
        }
    }

    /// Goes on until no frame is left.
    fn finish(&mut self, alloc: Global, netlists: &[Netlist]) -> Result<(), AllocError>
        requires { IsWalk netlists.now self.old.inputs self.old.count self.old.gates.items (frames_of netlists.now self.old.frames.items) }
        ensures gates { OnOk result ((gates : ℕ → List Numbered) → AreGates netlists.now gates → self.new.gates.items ≡ all_gates netlists.now gates self.old.inputs self.old.gates.items (frames_of netlists.now self.old.frames.items)) }
    {
        while let Some(frame) = self.frames.pop() {
            self.step(alloc, netlists, frame)?;
        }
        Ok(())
    }
}

/// The circuit of a module, by its number among the modules: its gates are those of its instances in order, where an
/// instance of a module has that module's gates. The time is that of the circuit's pins and of the pins of each
/// instance of a module that the walk enters, so at most the pins times the depth of the modules.
pub fn flatten(alloc: Global, netlists: &[Netlist], number: u32) -> Result<Circuit, AllocError>
    requires number { number < length netlists.now }
    requires known { (flats : List Flat) × AreNetlists flats netlists.now }
    requires small { (wiring_at netlists.now number).inputs + (wiring_at netlists.now number).gates < 2 ^ 32 }
    ensures { IfOk result (λ c. (flats : List Flat) → AreNetlists flats netlists.now → c ≡ circuit_of (flat_at flats number)) }
{
    let netlist = &netlists[number as usize];
    let outputs = Items::from_slice(alloc, netlist.outputs())?;
    let mut walk = Walk::start(alloc, netlist, number)?;
    walk.finish(alloc, netlists)?;
    let Walk { gates, .. } = walk;
    Ok(Circuit {
        inputs: netlist.inputs(),
        nets: netlist.inputs() + netlist.gates(),
        outputs,
        gates: Items::from_vec(gates),
    })
}
