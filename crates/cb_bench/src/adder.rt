//! An adder whose inputs have their levels in the order of its ports.

use cb_dd::{Node, Stop};
use cb_ops::Ops;
use cb_trial::checked::{and, bit, or, xor};

/// The sums are built from the first bit on; the last carry is given back.
pub fn build(ops: &mut Ops, width: u32) -> Result<Node, Stop> {
    let mut carry = bit(ops, 0)?;
    for i in 0..width {
        let level = i.saturating_mul(2).saturating_add(1);
        let first = bit(ops, level)?;
        let second = bit(ops, level.saturating_add(1))?;
        carry = full_adder(ops, first, second, carry)?.1;
    }
    Ok(carry)
}

/// The sum and the carry of three bits.
pub fn full_adder(
    ops: &mut Ops,
    first: Node,
    second: Node,
    carry: Node,
) -> Result<(Node, Node), Stop> {
    let half = xor(ops, first, second)?;
    let sum = xor(ops, half, carry)?;
    let both = and(ops, first, second)?;
    let passed = and(ops, half, carry)?;
    let next = or(ops, both, passed)?;
    Ok((sum, next))
}
