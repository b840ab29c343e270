//! The order of levels in a comparison of circuits, found from the circuit.
#![tactic(auto)]

ghost use Rattle.std.specs.Prelude.{◌≡◌, ℕ, ◌+◌, ◌<◌, ◌≤◌, [], ◌++◌, false, length, replicate, slice_set, IfOk, OnOk};
ghost use Rattle.std.specs.List.Sorted.{IsPermutation};
ghost use Rattle.cb_model.specs.Bits.{numbers};
ghost use Rattle.cb_levels.specs.Inverse.{IsInverse};
ghost use Rattle.cb_levels.specs.Meeting.{IsMeeting, to_look, unmarked};

use crate::depths::{deepest, depths};
use cb_model::Circuit;
use std::alloc::{AllocError, Global};

mod depths;

/// What a walk of the fan-in has met: the inputs in the order in which they were met first, a mark for each input that
/// is met, one for each gate that is entered, and the nets that are still to be looked at, the next one last; and how
/// many gates lie one behind another up to the output of each gate.
#[derive(Drop)]
struct Meeting {
    order: Vec<u32>,
    met: Vec<bool>,
    entered: Vec<bool>,
    pending: Vec<u32>,
    depths: Vec<u32>,
}

impl Meeting {
    fn new(alloc: Global, circuit: &Circuit) -> Result<Meeting, AllocError>
        ensures { IfOk result (λ m. IsMeeting circuit.now m.order.items m.met.items m.entered.items) }
    {
        Ok(Meeting {
            order: Vec::with_capacity(alloc, circuit.inputs as usize)?,
            met: vec![in alloc; false; circuit.inputs as usize]?,
            entered: vec![in alloc; false; circuit.gates.len()]?,
            pending: Vec::new(alloc),
            depths: depths(alloc, circuit)?,
        })
    }

    /// Puts nets before those that are pending, the first as the next.
    fn look_at(&mut self, nets: &[u32]) -> Result<(), AllocError>
        ensures order { self.new.order.items ≡ self.old.order.items }
        ensures met { self.new.met.items ≡ self.old.met.items }
        ensures entered { self.new.entered.items ≡ self.old.entered.items }
        ensures pending { OnOk result (length self.new.pending.items ≡ length self.old.pending.items + length nets.now) }
    {
        let start = self.pending.len();
        self.pending.extend_from_slice(nets)?;
        self.pending[start..].reverse();
        Ok(())
    }

    /// The same, but the deepest net last.
    fn look_below(&mut self, inputs: u32, nets: &[u32]) -> Result<(), AllocError>
        ensures order { self.new.order.items ≡ self.old.order.items }
        ensures met { self.new.met.items ≡ self.old.met.items }
        ensures entered { self.new.entered.items ≡ self.old.entered.items }
        ensures pending { OnOk result (length self.new.pending.items ≡ length self.old.pending.items + length nets.now) }
    {
        let start = self.pending.len();
        let (before, rest) = nets.split_at(deepest(&self.depths, inputs, nets));
        self.pending.extend_from_slice(before)?;
        if let Some((deepest, after)) = rest.split_first() {
            self.pending.extend_from_slice(after)?;
            self.pending.push(*deepest)?;
        }
        self.pending[start..].reverse();
        Ok(())
    }

    /// Gives an input the next place, if it has none yet.
    fn meet(&mut self, circuit: &Circuit, input: u32) -> Result<(), AllocError>
        requires input { input < circuit.now.inputs }
        requires meeting { IsMeeting circuit.now self.old.order.items self.old.met.items self.old.entered.items }
        ensures meeting { OnOk result (IsMeeting circuit.now self.new.order.items self.new.met.items self.new.entered.items) }
        ensures entered { self.new.entered.items ≡ self.old.entered.items }
        ensures pending { self.new.pending.items ≡ self.old.pending.items }
    {
        if !self.met[input as usize] {
            self.met[input as usize] = true;
            self.order.push(input)?;
        }
        Ok(())
    }

    /// Looks at what drives a net: an input is met, a gate that wasn't entered yet is entered.
    fn look(&mut self, circuit: &Circuit, net: u32) -> Result<(), AllocError>
        requires { IsMeeting circuit.now self.old.order.items self.old.met.items self.old.entered.items }
        ensures meeting { OnOk result (IsMeeting circuit.now self.new.order.items self.new.met.items self.new.entered.items) }
        ensures less { OnOk result (to_look circuit.now self.new.entered.items self.new.pending.items ≤ to_look circuit.now self.old.entered.items self.old.pending.items) }
    {
        if net < circuit.inputs {
            return self.meet(circuit, net);
        }
        let at = (net - circuit.inputs) as usize;
        let Some(gate) = circuit.gates.get(at) else {
            return Ok(());
        };
        if self.entered[at] {
            return Ok(());
        }
        self.entered[at] = true;
        self.look_below(circuit.inputs, gate.ins.as_slice())
    }

    /// All inputs: those that were met, and behind them the others in port order.
    fn finish(self, circuit: &Circuit) -> Result<Vec<u32>, AllocError>
        requires { IsMeeting circuit.now self.order.items self.met.items self.entered.items }
        ensures { IfOk result (λ v. IsPermutation (numbers circuit.now.inputs) v.items) }
    {
        let Meeting { mut order, met, .. } = self;
        for input in 0..circuit.inputs {
            if !met[input as usize] {
                order.push(input)?;
            }
        }
        Ok(order)
    }
}

/// The inputs of a circuit in the order in which a walk of the fan-in meets them: depth first from the outputs in
/// their order, at each gate into its pins in the order of the text but the deepest last, each net once; inputs that no
/// output depends on come last, in port order. The level of an input in a comparison is its place in this order: so
/// inputs that a gate joins lie close together, whichever way the ports are listed, and diagrams stay small (Fujita,
/// Fujisawa and Kawato 1988; Malik, Wang, Brayton and Sangiovanni-Vincentelli 1988); and the inputs that a chain of gates
/// takes later lie above those before, so that each gate adds to the diagram of the chain without going through it. The
/// time is that of the circuit's pins.
pub fn fan_in_order(alloc: Global, circuit: &Circuit) -> Result<Vec<u32>, AllocError>
    ensures { IfOk result (λ v. IsPermutation (numbers circuit.now.inputs) v.items) }
{
    let mut meeting = Meeting::new(alloc, circuit)?;
    meeting.look_at(circuit.outputs.as_slice())?;
    while let Some(net) = meeting.pending.pop() {
        meeting.look(circuit, net)?;
    }
    meeting.finish(circuit)
}

/// The level of each input, where these are the inputs in the order of their levels.
pub fn levels(alloc: Global, order: &[u32]) -> Result<Vec<u32>, AllocError>
    requires { (count : ℕ) × IsPermutation (numbers count) order.now }
    ensures { IfOk result (λ v. IsInverse order.now v.items) }
{
    let mut levels = vec![in alloc; 0; order.len()]?;
    for (level, input) in order.iter().enumerate() {
        levels[*input as usize] = level as u32;
    }
    Ok(levels)
}
