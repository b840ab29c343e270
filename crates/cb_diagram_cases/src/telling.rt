//! The words that tell something of the node on top of the stack, and leave it there.

use crate::desk::Desk;
use cb_dd::Node;
use cb_ops::Ops;
use cb_paths::{Paths, count};
use cb_trial::checked::{is_here, parts, support};
use cb_trial::text::{push, push_number};
use std::alloc::Global;
use std::test::Fail;

/// Tells what a word asks; whether it is such a word.
pub fn tell(
    alloc: Global,
    ops: &Ops,
    desk: &Desk,
    word: &str,
    out: &mut Vec<u8>,
) -> Result<bool, Fail> {
    let node = desk.top();
    match word {
        "nodes" => tell_number(alloc, ops.count(), out)?,
        "parts" => tell_parts(alloc, ops, node, out)?,
        "table" => tell_table(ops, node, out)?,
        "levels" => tell_levels(alloc, ops, node, out)?,
        "reach" => tell_reach(alloc, ops, node, out)?,
        "least" => tell_least(alloc, ops, node, out)?,
        "count" => tell_count(alloc, ops, node, desk.number, out)?,
        "products" => tell_products(alloc, ops, node, out)?,
        "lengths" => tell_lengths(alloc, ops, node, out)?,
        _ => return Ok(false),
    }
    Ok(true)
}

// Appends a number.
fn tell_number(alloc: Global, number: usize, out: &mut Vec<u8>) -> Result<(), Fail> {
    push(out, " ")?;
    push_number(alloc, out, i64::try_from(number).unwrap_or(i64::MAX))
}

// Appends the node's level, and the tables of its sides.
fn tell_parts(alloc: Global, ops: &Ops, node: Node, out: &mut Vec<u8>) -> Result<(), Fail> {
    match parts(ops, node) {
        Some((level, low, high)) => {
            tell_number(alloc, level as usize, out)?;
            tell_table(ops, low, out)?;
            tell_table(ops, high, out)
        }
        None => push(out, " none"),
    }
}

/// Appends the node's values under the eight assignments of the levels 0, 1 and 2, of which the first is all 0 and level 2
/// changes fastest.
pub fn tell_table(ops: &Ops, node: Node, out: &mut Vec<u8>) -> Result<(), Fail> {
    push(out, " ")?;
    for row in 0..8u32 {
        let one = value(ops, node, [row / 4 == 1, row / 2 % 2 == 1, row % 2 == 1]);
        push(out, if one { "1" } else { "0" })?;
    }
    Ok(())
}

// The node's value under these bits of the levels 0, 1 and 2.
fn value(ops: &Ops, node: Node, bits: [bool; 3]) -> bool {
    let mut here = node;
    for _ in 0..3 {
        if let Some((level, low, high)) = parts(ops, here) {
            here = if bits[(level % 3) as usize] {
                high
            } else {
                low
            };
        }
    }
    here == Node::ONE
}

// Appends the levels of the node.
fn tell_levels(alloc: Global, ops: &Ops, node: Node, out: &mut Vec<u8>) -> Result<(), Fail> {
    let levels = support(ops, node)?;
    for level in levels.as_slice() {
        tell_number(alloc, *level as usize, out)?;
    }
    Ok(())
}

// Appends how many levels the node has, and the last of them.
fn tell_reach(alloc: Global, ops: &Ops, node: Node, out: &mut Vec<u8>) -> Result<(), Fail> {
    let levels = support(ops, node)?;
    tell_number(alloc, levels.len(), out)?;
    let last = levels.last().copied().unwrap_or(0);
    tell_number(alloc, last as usize, out)
}

// Appends the bits of the least assignment of the node's levels under which it is 1.
fn tell_least(alloc: Global, ops: &Ops, node: Node, out: &mut Vec<u8>) -> Result<(), Fail> {
    if !is_here(ops, node) {
        return push(out, " none");
    }
    let levels = ops.support(node)?;
    let mut bits = Vec::from_elem(alloc, false, levels.len())?;
    if !ops.least_true(node, levels.as_slice(), bits.as_mut_slice()) {
        return push(out, " none");
    }
    push(out, " ")?;
    for bit in bits.as_slice() {
        push(out, if *bit { "1" } else { "0" })?;
    }
    Ok(())
}

// Appends how many products the node has, or that they are more than the most.
fn tell_count(
    alloc: Global,
    ops: &Ops,
    node: Node,
    most: u32,
    out: &mut Vec<u8>,
) -> Result<(), Fail> {
    if !is_here(ops, node) {
        return push(out, " none");
    }
    match count(alloc, ops, node, most)? {
        Some(products) => tell_number(alloc, products as usize, out),
        None => push(out, " more"),
    }
}

// Appends what comes when the node's products are asked for four times.
fn tell_products(alloc: Global, ops: &Ops, node: Node, out: &mut Vec<u8>) -> Result<(), Fail> {
    if !is_here(ops, node) {
        return push(out, " none");
    }
    let mut products = Paths::new(alloc, ops, node)?;
    let told = push_products(alloc, &mut products, out);
    drop(products);
    told
}

// The same of products that are lent.
fn push_products(alloc: Global, products: &mut Paths<'_>, out: &mut Vec<u8>) -> Result<(), Fail> {
    for _ in 0..4 {
        push(out, " ")?;
        match products.next() {
            Some(literals) => push_product(alloc, literals, out)?,
            None => push(out, "end")?,
        }
    }
    Ok(())
}

// Appends a product: its levels, each behind `~` where it is 0 there.
fn push_product(alloc: Global, literals: &[(u32, bool)], out: &mut Vec<u8>) -> Result<(), Fail> {
    for (place, (level, bit)) in literals.iter().enumerate() {
        push(out, if place > 0 { "*" } else { "" })?;
        push(out, if *bit { "" } else { "~" })?;
        push_number(alloc, out, i64::from(*level))?;
    }
    Ok(())
}

// Appends how many literals the node's first product has, and whether there is a second.
fn tell_lengths(alloc: Global, ops: &Ops, node: Node, out: &mut Vec<u8>) -> Result<(), Fail> {
    if !is_here(ops, node) {
        return push(out, " none");
    }
    let mut products = Paths::new(alloc, ops, node)?;
    let told = push_lengths(alloc, &mut products, out);
    drop(products);
    told
}

// The same of products that are lent.
fn push_lengths(alloc: Global, products: &mut Paths<'_>, out: &mut Vec<u8>) -> Result<(), Fail> {
    for _ in 0..2 {
        if products.advance() {
            tell_number(alloc, products.product().len(), out)?;
        } else {
            push(out, " end")?;
        }
    }
    Ok(())
}
