ghost use Rattle.std.specs.Prelude.{◌≡◌, ◌+◌, ◌*◌, ◌^◌, ◌≤◌, nat_lt, Err, IfOk, IfSome, length};
ghost use Rattle.cb_model.specs.Bits.{weight};
ghost use Rattle.cb_dd.specs.Diagram.{IsNode, function_of};
ghost use Rattle.cb_ops.specs.Ops.{Grows, DependsOn};
ghost use Rattle.cb_verify.specs.Nodes.{AreNodes, DependOn, node_bits, unequal};
ghost use Rattle.cb_verify.specs.Least.{LeastOf, row_of, lesser_of};
ghost use Rattle.cb_verify.specs.Verdict.{IsLeastOver};
ghost use Rattle.cb_levels.specs.Inverse.{IsInverse};

use crate::Verdict;
use crate::differences::first_difference;
use crate::places::Places;
use cb_dd::{Node, Stop};
use cb_ops::Ops;
use sqlite_items::Items;
use std::alloc::{AllocError, Global};

/// Whether a row of bits comes before another one as long: 0 before 1, and the first bit weighs most.
fn is_before(one: &[bool], two: &[bool]) -> bool
    requires { length one.now ≡ length two.now }
    ensures { result ≡ nat_lt (weight one.now) (weight two.now) }
{
    for (i, x) in one.iter().enumerate() {
        let y = two[i];
        if *x != y {
            return y;
        }
    }
    false
}

/// The lesser row, where there are two.
fn lesser(one: Option<Vec<bool>>, two: Option<Vec<bool>>) -> Option<Vec<bool>>
    requires { IfSome one (λ x. IfSome two (λ y. length y.items ≡ length x.items)) }
    ensures { row_of result ≡ lesser_of (row_of one) (row_of two) }
{
    let Some(x) = one else {
        return two;
    };
    let Some(y) = two else {
        return Some(x);
    };
    if is_before(y.as_slice(), x.as_slice()) {
        Some(y)
    } else {
        Some(x)
    }
}

/// The least row at which a node is 1, if there is one.
fn least_row(
    alloc: Global,
    ops: &Ops,
    node: Node,
    places: &Places,
) -> Result<Option<Vec<bool>>, AllocError>
    requires node { IsNode ops.now.triples node.0 }
    requires places { IsInverse places.now.order.items places.now.levels.items }
    requires support { DependsOn ops.now.triples node.0 places.now.levels.items }
    ensures { IfOk result (λ o. LeastOf places.now.levels.items (function_of ops.now.triples node.0) (row_of o)) }
{
    let row = cb_least::least_input(alloc, ops, node, places.order.as_slice())?;
    Ok(row)
}

/// The least row at which the nodes of the two lists differ in some place, if there is one. Each place is looked at
/// alone, so that no node is made for all differences together.
fn least_difference(
    alloc: Global,
    ops: &mut Ops,
    places: &Places,
    got: &[Node],
    wanted: &[Node],
) -> Result<Option<Vec<bool>>, Stop>
    requires places { IsInverse places.now.order.items places.now.levels.items }
    requires got { AreNodes ops.old.triples got.now × DependOn ops.old.triples got.now places.now.levels.items }
    requires wanted { AreNodes ops.old.triples wanted.now × DependOn ops.old.triples wanted.now places.now.levels.items }
    requires as_many { length wanted.now ≡ length got.now }
    ensures least { IfOk result (λ o. LeastOf places.now.levels.items (λ a. unequal (node_bits ops.old.triples got.now a) (node_bits ops.old.triples wanted.now a)) (row_of o)) }
    ensures grows { Grows ops.old ops.new }
    ensures room { length ops.new.triples ≤ length ops.old.triples + length got.now * (2 * 2 ^ length places.now.levels.items) }
    ensures full { result ≡ Err Stop.Nodes → length ops.new.triples ≡ ops.new.budget }
{
    let mut least = None;
    for (i, one) in got.iter().enumerate() {
        let differ = ops.xor(*one, wanted[i])?;
        let Ok(row) = least_row(alloc, ops, differ, places) else {
            return Err(Stop::Memory);
        };
        least = lesser(least, row);
    }
    Ok(least)
}

/// The verdict by the nodes of what is got and of what is wanted, over the levels of the inputs.
pub fn verdict(
    alloc: Global,
    ops: &mut Ops,
    places: &Places,
    got: &[Node],
    wanted: &[Node],
) -> Result<Verdict, Stop>
    requires places { IsInverse places.now.order.items places.now.levels.items }
    requires got { AreNodes ops.old.triples got.now × DependOn ops.old.triples got.now places.now.levels.items }
    requires wanted { AreNodes ops.old.triples wanted.now × DependOn ops.old.triples wanted.now places.now.levels.items }
    requires as_many { length wanted.now ≡ length got.now }
    ensures verdict { IfOk result (IsLeastOver ops.new.triples places.now.levels.items got.now wanted.now) }
    ensures grows { Grows ops.old ops.new }
    ensures room { length ops.new.triples ≤ length ops.old.triples + length got.now * (2 * 2 ^ length places.now.levels.items) }
    ensures full { result ≡ Err Stop.Nodes → length ops.new.triples ≡ ops.new.budget }
{
    let Some(input) = least_difference(alloc, ops, places, got, wanted)? else {
        return Ok(Verdict::Verified);
    };
    let Ok(bits) = places.by_level(alloc, input.as_slice()) else {
        return Err(Stop::Memory);
    };
    let (at, x, y) = first_difference(ops, got, wanted, bits.as_slice());
    let Ok(output) = u32::try_from(at + 1) else {
        return Err(Stop::Memory);
    };
    Ok(Verdict::Differs {
        input: Items::from_vec(input),
        output,
        got: x,
        wanted: y,
    })
}
