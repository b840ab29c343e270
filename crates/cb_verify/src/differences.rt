ghost use Rattle.std.specs.Prelude.{◌≡◌, ◌+◌, ◌*◌, ◌^◌, ◌≤◌, ℕ, Bool, List, IfOk, length, true};
ghost use Rattle.cb_model.specs.Bits.{Bits, bits_of, numbers};
ghost use Rattle.cb_dd.specs.Diagram.{IsNode, function_of};
ghost use Rattle.cb_verify.specs.Nodes.{AreNodes, DependOn, IsFirst, node_bits, unequal};

use cb_dd::Node;
use cb_ops::Ops;

/// The bit of an input, and 0 past its end.
fn bit(input: &[bool], level: u32) -> bool
    ensures { result ≡ bits_of input.now level }
{
    match input.get(level as usize) {
        Some(x) => *x,
        None => false,
    }
}

/// The bit of a node's function at an input.
fn value(ops: &Ops, node: Node, input: &[bool]) -> bool
    requires { IsNode ops.now.triples node.0 }
    ensures { result ≡ function_of ops.now.triples node.0 (bits_of input.now) }
{
    let mut at = node;
    while let Some((level, lo, hi)) = ops.parts(at) {
        at = if bit(input, level) { hi } else { lo };
    }
    at == Node::ONE
}

/// The first place where the nodes of two lists differ at an input, and their bits there.
pub fn first_difference(
    ops: &Ops,
    got: &[Node],
    wanted: &[Node],
    input: &[bool],
) -> (usize, bool, bool)
    requires got { AreNodes ops.now.triples got.now }
    requires wanted { AreNodes ops.now.triples wanted.now }
    requires as_many { length wanted.now ≡ length got.now }
    requires differ { unequal (node_bits ops.now.triples got.now (bits_of input.now)) (node_bits ops.now.triples wanted.now (bits_of input.now)) ≡ true }
    ensures { IsFirst (node_bits ops.now.triples got.now (bits_of input.now)) (node_bits ops.now.triples wanted.now (bits_of input.now)) result.0 result.1 result.2 }
{
    for (i, one) in got.iter().enumerate() {
        let x = value(ops, *one, input);
        let y = value(ops, wanted[i], input);
        if x != y {
            return (i, x, y);
        }
    }
    unreachable!()
}
