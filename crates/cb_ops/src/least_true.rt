// The least assignment that makes a node true.
ghost use Rattle.std.specs.Prelude.{◌≡◌, ◌≢◌, ◌≤◌, ◌↔◌, length, IsTrue};
ghost use Rattle.cb_dd.specs.Diagram.{IsNode, level_of};
ghost use Rattle.std.specs.List.Sorted.{IsStrictlyIncreasing};
ghost use Rattle.cb_ops.specs.Ops.{DependsOn, IsLeastTrue, IsLeastSide};

use crate::Ops;
use cb_dd::Node;

impl Ops {
    /// Whether the node is 1 at some assignment; if so, `into` becomes the least that makes it so, its i-th bit for
    /// the level at place i: 0 before 1, and the first level weighs most. Else `into` is kept.
    pub fn least_true(&self, f: Node, levels: &[u32], into: &mut [bool]) -> bool
        requires node { IsNode self.now.triples f.0 }
        requires rise { IsStrictlyIncreasing levels.now }
        requires support { DependsOn self.now.triples f.0 levels.now }
        requires as_many { length into.old ≡ length levels.now }
        ensures some { IsTrue result ↔ (f.0 ≢ 0) }
        ensures none { f.0 ≡ 0 → into.new ≡ into.old }
        ensures least { f.0 ≢ 0 → IsLeastTrue self.now.triples f.0 levels.now into.new }
    {
        let _count = self.count();
        if f.0 == 0 {
            return false;
        }
        let mut n = f;
        for (i, level) in levels.iter().enumerate() {
            let (bit, next) = self.least_side(n, *level);
            into[i] = bit;
            n = next;
        }
        true
    }

    // The bit that the least assignment has at the first level on which the node may depend, and the node at that
    // bit.
    fn least_side(&self, n: Node, level: u32) -> (bool, Node)
        requires node { IsNode self.now.triples n.0 }
        requires some { n.0 ≢ 0 }
        requires above { level ≤ level_of self.now.triples n.0 }
        ensures side { IsLeastSide self.now.triples n.0 level result.0 result.1.0 }
    {
        let _count = self.count();
        match self.dd.parts(n) {
            Some((at, lo, hi)) if at == level => {
                if lo.0 == 0 {
                    return (true, hi);
                }
                (false, lo)
            }
            _ => (false, n),
        }
    }
}
