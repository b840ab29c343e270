// The levels on which a node depends.
ghost use Rattle.std.specs.Prelude.{◌≡◌, ◌<◌, ◌+◌, [], ℕ, length, nat_eq, IfOk, OnOk, Contains};
ghost use Rattle.std.specs.List.Sorted.{IsStrictlyIncreasing};
ghost use Rattle.std.specs.List.{IsDistinct};
ghost use Rattle.cb_dd.specs.Diagram.{IsNode};
ghost use Rattle.cb_ops.specs.Ops.{DependsOn, IsFree};
ghost use Rattle.cb_ops.specs.Support.{Adds, IsListed, IsWithin};

use crate::{Levels, Ops};
use cb_dd::Node;
use indexmap::IndexSet;
use smallvec::SmallVec;
use std::alloc::AllocError;

impl Ops {
    /// The levels on which the node depends, rising.
    pub fn support(&self, f: Node) -> Result<Levels, AllocError>
        requires { IsNode self.now.triples f.0 }
        ensures rise { IfOk result (λ levels. IsStrictlyIncreasing levels.items) }
        ensures enough { IfOk result (λ levels. DependsOn self.now.triples f.0 levels.items) }
        ensures needed { IfOk result (λ levels. (l : ℕ) → Contains levels.items l → IsFree self.now.triples f.0 l → ⊥) }
    {
        let alloc = *self.memo.allocator();
        let mut levels = IndexSet::new(alloc);
        self.gather(f, &mut levels)?;
        levels.sort()?;
        let list = SmallVec::from_slice(alloc, levels.as_slice())?;
        Ok(list)
    }

    // Adds the levels of the nodes that are reached from this one.
    fn gather(&self, f: Node, levels: &mut IndexSet<u32>) -> Result<(), AllocError>
        requires node { IsNode self.now.triples f.0 }
        requires none { levels.old.keys ≡ [] }
        ensures found { OnOk result (IsWithin self.now.triples f.0 levels.new.keys) }
        ensures matter { OnOk result ((l : ℕ) → IsListed levels.new.keys l → IsFree self.now.triples f.0 l → ⊥) }
    {
        let _count = self.count();
        let mut nodes = IndexSet::new(*self.memo.allocator());
        nodes.insert(f.0)?;
        let mut done = 0;
        while let Some(n) = nodes.get_index(done).copied() {
            self.reach(Node(n), &mut nodes, levels)?;
            done += 1;
        }
        Ok(())
    }

    // Adds the level of a node, and its two sides behind the nodes that were reached before.
    fn reach(
        &self,
        n: Node,
        nodes: &mut IndexSet<usize>,
        levels: &mut IndexSet<u32>,
    ) -> Result<(), AllocError>
        requires node { IsNode self.now.triples n.0 }
        requires unique { IsDistinct nat_eq nodes.old.keys }
        ensures added { OnOk result (Adds self.now.triples n.0 nodes.old.keys nodes.new.keys levels.old.keys levels.new.keys) }
    {
        let Some((at, lo, hi)) = self.parts(n) else {
            return Ok(());
        };
        levels.insert(at)?;
        nodes.insert(lo.0)?;
        nodes.insert(hi.0)?;
        Ok(())
    }
}
