ghost use Rattle.std.specs.Prelude.{◌≡◌, ℕ, ◌<◌, ◌≤◌, length, get_or, true, false, Some, IfOk};
ghost use Rattle.cb_dd.specs.declared.Node.{Node};
ghost use Rattle.cb_dd.specs.Diagram.{IsNode, parts_of};
ghost use Rattle.cb_least.specs.Beginning.{AreMarks, AreNexts};

use cb_dd::Node;
use cb_ops::Ops;
use std::alloc::{AllocError, Global};

/// Marks the children of a node that is marked.
fn mark_children(ops: &Ops, n: Node, marks: &mut [bool])
    requires node { IsNode ops.now.triples n.0 }
    requires inner { 2 ≤ n.0 }
    requires within { n.0 < length marks.old }
    ensures kept { (k : ℕ) → get_or marks.old k false ≡ true → get_or marks.new k false ≡ true }
    ensures above { (k : ℕ) → n.0 ≤ k → get_or marks.new k false ≡ get_or marks.old k false }
    ensures children { (level : ℕ) (lo hi : Node) → get_or marks.old n.0 false ≡ true → parts_of ops.now.triples n.0 ≡ Some (level, lo, hi) → (get_or marks.new lo.0 false ≡ true) × (get_or marks.new hi.0 false ≡ true) }
{
    let _count = ops.count();
    if !marks[n.0] {
        return;
    }
    let Some((_, lo, hi)) = ops.parts(n) else {
        return;
    };
    marks[lo.0] = true;
    marks[hi.0] = true;
}

/// Marks the nodes of a diagram, by their numbers. Children have lower numbers than their node.
pub fn reached(alloc: Global, ops: &Ops, root: Node) -> Result<Vec<bool>, AllocError>
    requires { IsNode ops.now.triples root.0 }
    ensures { IfOk result (λ v. AreMarks ops.now.triples root.0 1 v.items) }
{
    let _count = ops.count();
    let mut marks = vec![in alloc; false; root.0 + 1]?;
    marks[root.0] = true;
    let mut at = root.0;
    while at >= 2 {
        mark_children(ops, Node(at), &mut marks);
        at -= 1;
    }
    Ok(marks)
}

/// For each node the next one that is marked, by their numbers; one more than the last where there is none.
pub fn nexts(alloc: Global, marks: &[bool]) -> Result<Vec<usize>, AllocError>
    ensures { IfOk result (λ v. AreNexts marks.now v.items) }
{
    let mut nexts = vec![in alloc; 0; marks.len()]?;
    let mut next = marks.len();
    let mut at = marks.len();
    while at > 0 {
        at -= 1;
        nexts[at] = next;
        if marks[at] {
            next = at;
        }
    }
    Ok(nexts)
}
