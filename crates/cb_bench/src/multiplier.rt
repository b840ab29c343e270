//! The outputs of a multiplier whose inputs have their levels in turn.

use crate::adder::full_adder;
use cb_dd::{Node, Stop};
use cb_ops::Ops;
use cb_trial::checked::{and, bit};
use std::alloc::Global;

pub fn build(alloc: Global, ops: &mut Ops, width: u32) -> Result<(), Stop> {
    let mut sums = Vec::new(alloc);
    for _ in 0..width.saturating_mul(2) {
        if sums.push(Node::ZERO).is_err() {
            return Err(Stop::Memory);
        }
    }
    for row in 0..width {
        add_row(ops, width, row, &mut sums)?;
    }
    Ok(())
}

// Adds the second number, shifted, where the first has the bit of the row.
fn add_row(ops: &mut Ops, width: u32, row: u32, sums: &mut Vec<Node>) -> Result<(), Stop> {
    let chosen = bit(ops, row.saturating_mul(2))?;
    let mut carry = Node::ZERO;
    for column in 0..width {
        let other = bit(ops, column.saturating_mul(2).saturating_add(1))?;
        let product = and(ops, chosen, other)?;
        carry = add_at(ops, row.saturating_add(column), product, carry, sums)?;
    }
    put(sums, row.saturating_add(width), carry);
    Ok(())
}

fn add_at(
    ops: &mut Ops,
    place: u32,
    product: Node,
    carry: Node,
    sums: &mut Vec<Node>,
) -> Result<Node, Stop> {
    let before = sums.get(place as usize).copied().unwrap_or(Node::ZERO);
    let (sum, next) = full_adder(ops, before, product, carry)?;
    put(sums, place, sum);
    Ok(next)
}

fn put(sums: &mut Vec<Node>, place: u32, n: Node) {
    let place = place as usize;
    if place < sums.len() {
        sums[place] = n;
    }
}
