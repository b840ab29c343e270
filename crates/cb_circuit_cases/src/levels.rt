//! Orders of levels, and the least inputs of diagrams in them.

ghost use Rattle.std.specs.Prelude.{ℕ, List, IfOk, IfSome};
ghost use Rattle.std.specs.List.Sorted.{IsPermutation};
ghost use Rattle.cb_model.specs.Bits.{numbers};
ghost use Rattle.cb_levels.specs.Inverse.{IsInverse};

use crate::orders::push_numbers;
use crate::told::last_of;
use cb_dd::{Node, Stop};
use cb_least::least_input;
use cb_levels::{fan_in_order, levels};
use cb_ops::Ops;
use cb_trial::checked::{and, bit, end, is_here, not, or};
use std::alloc::Global;
use std::io::Write;
use std::test::Fail;

/// Writes the inputs of the last module of a text in the order of their levels, and the level of each input.
pub(crate) fn tell_levels(alloc: Global, text: &[u8], out: &mut Vec<u8>) -> Result<(), Fail> {
    match order_of(alloc, text, out)? {
        Some(order) => push_levels(alloc, order.as_slice(), out),
        None => Ok(()),
    }
}

// Writes inputs in the order of their levels, and the level of each.
fn push_levels(alloc: Global, order: &[u32], out: &mut Vec<u8>) -> Result<(), Fail>
    requires { (count : ℕ) × IsPermutation (numbers count) order.now }
{
    let levels = levels(alloc, order)?;
    write!(out, "inputs")?;
    push_numbers(order, out)?;
    write!(out, ", levels")?;
    push_numbers(levels.as_slice(), out)?;
    writeln!(out)?;
    Ok(())
}

// The inputs of the last module of a text in the order of their levels; where there is none, it writes why the facts are
// refused.
fn order_of(alloc: Global, text: &[u8], out: &mut Vec<u8>) -> Result<Option<Vec<u32>>, Fail>
    ensures { IfOk result (λ o. IfSome o (λ v. (count : ℕ) × IsPermutation (numbers count) v.items)) }
{
    match last_of(alloc, text, out)? {
        Some((_, circuit)) => {
            let order = fan_in_order(alloc, &circuit);
            drop(circuit);
            Ok(Some(order?))
        }
        None => Ok(None),
    }
}

/// Writes the least input at which the sum of some products is 1, where the levels are those of the last module of a text,
/// or that there is none. A product has `1`, `0` or `-` for each input, and `+` stands between two products.
pub(crate) fn tell_least(
    alloc: Global,
    products: &str,
    text: &[u8],
    out: &mut Vec<u8>,
) -> Result<(), Fail> {
    let Some(order) = order_of(alloc, text, out)? else {
        return Ok(());
    };
    let mut ops = Ops::new(alloc, 1_000_000)?;
    let told = tell_in(alloc, &mut ops, order.as_slice(), products, out);
    end(ops);
    told
}

// The same in a store that is lent.
fn tell_in(
    alloc: Global,
    ops: &mut Ops,
    order: &[u32],
    products: &str,
    out: &mut Vec<u8>,
) -> Result<(), Fail>
    requires { (count : ℕ) × IsPermutation (numbers count) order.now }
{
    let levels = levels(alloc, order)?;
    let node = sum(ops, levels.as_slice(), products)?;
    push_least(alloc, ops, node, order, out)
}

// The node of a sum of products.
fn sum(ops: &mut Ops, levels: &[u32], products: &str) -> Result<Node, Stop> {
    let mut some = Node::ZERO;
    for word in products.split('+') {
        let here = product(ops, levels, word.as_bytes())?;
        some = or(ops, some, here)?;
    }
    Ok(some)
}

// The node of a product.
fn product(ops: &mut Ops, levels: &[u32], word: &[u8]) -> Result<Node, Stop> {
    let mut all = if word.is_empty() {
        Node::ZERO
    } else {
        Node::ONE
    };
    for (level, byte) in levels.iter().zip(word) {
        let here = bit(ops, *level)?;
        all = match *byte {
            b'1' => and(ops, here, all)?,
            b'0' => {
                let other = not(ops, here)?;
                and(ops, other, all)?
            }
            _ => all,
        };
    }
    Ok(all)
}

// Writes the least input at which a node is 1, where the inputs have this order.
fn push_least(
    alloc: Global,
    ops: &Ops,
    node: Node,
    order: &[u32],
    out: &mut Vec<u8>,
) -> Result<(), Fail>
    requires { (levels : List ℕ) × IsInverse order.now levels }
{
    if !is_here(ops, node) {
        return Ok(());
    }
    match least_input(alloc, ops, node, order)? {
        Some(bits) => {
            for bit in bits.as_slice() {
                write!(out, "{}", u8::from(*bit))?;
            }
            writeln!(out)?;
        }
        None => writeln!(out, "none")?,
    }
    Ok(())
}
