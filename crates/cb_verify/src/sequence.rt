ghost use Rattle.std.specs.Prelude.{◌≡◌, ◌≤◌, ◌++◌, IfOk, OnOk};
ghost use Rattle.cb_model.specs.Circuits.{Flat};
ghost use Rattle.cb_model.specs.Room.{circuit_pins};
ghost use Rattle.cb_verify.specs.Order.{IsFlattened, CanEvaluate, pins_in, gate_needs, own_nets};

use cb_lists::Lists;
use cb_model::Circuit;
use cb_order::order;
use std::alloc::{AllocError, Global};

/// Adds the gates that drive nets, where nets below a number are inputs.
fn want(inputs: u32, nets: &[u32], needs: &mut Vec<u32>) -> Result<(), AllocError>
    ensures { OnOk result (needs.new.items ≡ needs.old.items ++ own_nets inputs nets.now) }
{
    for net in nets {
        if *net >= inputs {
            needs.push(*net - inputs)?;
        }
    }
    Ok(())
}

/// For each gate those whose outputs it takes.
fn graph(alloc: Global, circuit: &Circuit) -> Result<Lists, AllocError>
    ensures { IfOk result (λ g. g ≡ gate_needs circuit.now) }
{
    let mut graph = Lists::new(alloc);
    let mut needs = Vec::new(alloc);
    for gate in circuit.gates.as_slice() {
        needs.clear();
        want(circuit.inputs, gate.ins.as_slice(), &mut needs)?;
        graph.push(needs.as_slice())?;
    }
    Ok(graph)
}

/// The gates of a circuit in an order in which each comes after those whose outputs it takes.
pub fn gate_order(alloc: Global, circuit: &Circuit) -> Result<Vec<u32>, AllocError>
    requires flattened { (f : Flat) × IsFlattened f circuit.now }
    ensures order { IfOk result (λ v. CanEvaluate circuit.now v.items) }
    ensures pins { IfOk result (λ v. pins_in circuit.now v.items ≤ circuit_pins circuit.now) }
{
    let graph = graph(alloc, circuit)?;
    match order(alloc, &graph)? {
        Some(order) => Ok(order),
        None => unreachable!(),
    }
}
