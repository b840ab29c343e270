// What a walk over the nodes of a diagram keeps of those that wait for the answers of their sides.
ghost use Rattle.std.specs.Prelude.{◌≡◌, ◌⊎◌, Some, IfSome};
ghost use Rattle.indexmap.specs.IndexMap.{get};
ghost use Rattle.cb_ops.specs.Done.{node_eq};

use cb_dd::Node;
use indexmap::IndexMap;

// A node that waits for the answer of a side.
#[derive(Clone, Copy)]
pub(crate) struct Visit {
    pub(crate) node: Node,
    pub(crate) level: u32,
    pub(crate) rest: Rest,
}

// What a waiting node still has to do or has done already.
#[derive(Clone, Copy)]
pub(crate) enum Rest {
    // It waits for the side with the bit 0, and this one with the bit 1 comes next.
    High(Node),
    // It waits for the side with the bit 1, and this is the answer of that with the bit 0.
    Low(Node),
}

// What comes next: a node, or the answer of one.
#[derive(Clone, Copy)]
pub(crate) enum Step {
    Down(Node),
    Up(Node),
}

// What was remembered for the node.
pub(crate) fn recall_in(done: &IndexMap<Node, Node>, n: Node) -> Option<Node>
    ensures { IfSome result (λ r. get node_eq done.now n ≡ Some r) }
{
    done.get(&n).copied()
}

// Remembers the answer for the node; where there is no memory for it, nothing more is remembered.
pub(crate) fn remember(done: &mut IndexMap<Node, Node>, n: Node, r: Node)
    ensures { (q v : Node) → get node_eq done.new q ≡ Some v
        → ((q ≡ n) × (v ≡ r)) ⊎ (get node_eq done.old q ≡ Some v) }
{
    let _ = done.insert(n, r);
}
