ghost use Rattle.std.specs.Prelude.{◌≡◌, ◌+◌, ◌*◌, ◌^◌, ◌<◌, ◌≤◌, ◌≢◌, Bool, List, IfOk, map, length};
ghost use Rattle.cb_model.specs.Bits.{Bits, Each};
ghost use Rattle.cb_dd.specs.Diagram.{IsNode, function_of};
ghost use Rattle.cb_ops.specs.Ops.{Grows};
ghost use Rattle.cb_verify.specs.Nodes.{AreNodes, node_at, node_bits};

use cb_dd::{Node, Stop};
use cb_ops::Ops;
use std::alloc::Global;

/// The nodes whose functions are the bits at these levels.
pub fn literals_at(alloc: Global, ops: &mut Ops, levels: &[u32]) -> Result<Vec<Node>, Stop>
    ensures nodes { IfOk result (λ ns. AreNodes ops.new.triples ns.items) }
    ensures bits { IfOk result (λ ns. (a : Bits) → node_bits ops.new.triples ns.items a ≡ map a levels.now) }
    ensures grows { Grows ops.old ops.new }
    ensures room { length ops.new.triples ≤ length ops.old.triples + length levels.now }
    ensures full { result ≡ Err Stop.Nodes → length ops.new.triples ≡ ops.new.budget }
{
    let mut nodes = Vec::new(alloc);
    for level in levels {
        let node = ops.node(*level, Node::ZERO, Node::ONE)?;
        let Ok(_) = nodes.push(node) else {
            return Err(Stop::Memory);
        };
    }
    Ok(nodes)
}

/// The nodes of these nets.
pub fn nodes_at(alloc: Global, nodes: &[Node], nets: &[u32]) -> Result<Vec<Node>, Stop>
    requires { Each (λ k. k < length nodes.now) nets.now }
    ensures nodes { IfOk result (λ ns. ns.items ≡ map (node_at nodes.now) nets.now) }
    ensures memory { result ≢ Err Stop.Nodes }
{
    let mut found = Vec::new(alloc);
    for net in nets {
        let Ok(_) = found.push(nodes[*net as usize]) else {
            return Err(Stop::Memory);
        };
    }
    Ok(found)
}
