//! The words that make nodes.

use crate::desk::Desk;
use cb_dd::{Node, Stop};
use cb_ops::Ops;
use cb_trial::checked::{and, bit, exists, for_all, is_here, ite, not, or, replace, restrict, xor};
use indexmap::IndexMap;
use std::alloc::Global;

/// The node that a word makes from a number alone; `None` where it is no such word.
pub fn made(ops: &mut Ops, number: u32, word: &str) -> Option<Result<Node, Stop>> {
    match word {
        "zero" => Some(Ok(Node::ZERO)),
        "one" => Some(Ok(Node::ONE)),
        "bit" => Some(bit(ops, number)),
        "each" => Some(each(ops, number)),
        "odd" => Some(odd(ops, number)),
        _ => None,
    }
}

// The node that is 1 where the bits of so many levels all are.
fn each(ops: &mut Ops, levels: u32) -> Result<Node, Stop> {
    let mut all = Node::ONE;
    for level in (0..levels).rev() {
        let here = bit(ops, level)?;
        all = and(ops, here, all)?;
    }
    Ok(all)
}

// The node that is 1 where an odd number of the bits of so many levels is.
fn odd(ops: &mut Ops, levels: u32) -> Result<Node, Stop> {
    let mut odd = Node::ZERO;
    for level in (0..levels).rev() {
        let here = bit(ops, level)?;
        odd = xor(ops, here, odd)?;
    }
    Ok(odd)
}

/// The node that an operation makes from those on top of the stack, which it takes away.
pub fn connected(ops: &mut Ops, desk: &mut Desk, word: &str) -> Result<Node, Stop> {
    let level = desk.number;
    let last = desk.pop();
    match word {
        "not" => return not(ops, last),
        "on" => return restrict(ops, last, level, true),
        "off" => return restrict(ops, last, level, false),
        "some" => return exists(ops, last, level),
        "all" => return for_all(ops, last, level),
        _ => {}
    }
    let second = desk.pop();
    match word {
        "and" => and(ops, second, last),
        "or" => or(ops, second, last),
        "xor" => xor(ops, second, last),
        "put" => replace(ops, second, level, last),
        _ => ite(ops, desk.pop(), second, last),
    }
}

/// The node and the bit at level 0, with the levels 0 and 1 swapped in both with one memo.
pub fn swapped(alloc: Global, ops: &mut Ops, f: Node) -> Result<(Node, Node), Stop> {
    let x = bit(ops, 0)?;
    let y = bit(ops, 1)?;
    if !is_here(ops, x) || !is_here(ops, y) || !is_here(ops, f) {
        return Err(Stop::Memory);
    }
    let images = [(0, y), (1, x)];
    let mut done = IndexMap::new(alloc);
    let first = ops.substitute_in(f, &images, &mut done)?;
    let second = ops.substitute_in(x, &images, &mut done)?;
    Ok((first, second))
}
