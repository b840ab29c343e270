ghost use Rattle.std.specs.Prelude.{◌≤◌, length};

use cb_model::{Circuit, Gate};
use std::alloc::{AllocError, Global};

/// How many gates lie one behind another up to a net, where nets below a number are inputs.
fn depth(depths: &[u32], inputs: u32, net: u32) -> u32 {
    if net < inputs {
        return 0;
    }
    match depths.get((net - inputs) as usize) {
        Some(depth) => *depth,
        None => 0,
    }
}

/// Notes the depth of a gate's output by those of its pins.
fn deepen(depths: &mut [u32], inputs: u32, at: usize, gate: &Gate) {
    let mut most = 0;
    for net in gate.ins.as_slice() {
        most = depth(depths, inputs, *net).max(most);
    }
    if let Some(known) = depths.get_mut(at) {
        *known = most.saturating_add(1).max(*known);
    }
}

/// For each gate how many gates lie one behind another up to its output, as far as a pass over the gates in their order
/// and one back tell: where each stands after those whose outputs it takes, or each before them, it is that number.
pub(crate) fn depths(alloc: Global, circuit: &Circuit) -> Result<Vec<u32>, AllocError> {
    let gates = circuit.gates.as_slice();
    let mut depths = vec![in alloc; 0; gates.len()]?;
    for (at, gate) in gates.iter().enumerate() {
        deepen(&mut depths, circuit.inputs, at, gate);
    }
    for (at, gate) in gates.iter().enumerate().rev() {
        deepen(&mut depths, circuit.inputs, at, gate);
    }
    Ok(depths)
}

/// The place of the deepest net, the last of those that are as deep; 0 where there is none.
pub(crate) fn deepest(depths: &[u32], inputs: u32, nets: &[u32]) -> usize
    ensures { result ≤ length nets.now }
{
    let mut place = 0;
    let mut most = 0;
    for (i, net) in nets.iter().enumerate() {
        let depth = depth(depths, inputs, *net);
        if depth >= most {
            place = i;
            most = depth;
        }
    }
    place
}
