//! Diagrams with a node at each level, and operations that go down through all of them.

use cb_dd::{Node, Stop};
use cb_ops::Ops;
use cb_trial::checked::{and, bit, or, restrict, xor};

pub fn build(ops: &mut Ops, size: u32) -> Result<(), Stop> {
    let mut all = Node::ONE;
    let mut some = Node::ZERO;
    for level in (0..size).rev() {
        let here = bit(ops, level)?;
        all = and(ops, here, all)?;
        some = or(ops, here, some)?;
    }
    let mixed = xor(ops, all, some)?;
    let both = and(ops, mixed, some)?;
    restrict(ops, both, size.saturating_sub(1), true)?;
    Ok(())
}
