//! Many equations at once.

ghost use Rattle.std.specs.Prelude.{◌≡◌, ◌↔◌, IsTrue, true, false, length, Ok, Err};
ghost use Rattle.cb_solution.specs.Solution.{has_refused};
ghost use Rattle.cb_elim.specs.Store.{IsStore, IsAsBefore, OnlyNodes, view_of};
ghost use Rattle.cb_elim.specs.Moments.{KeepsMoments};
ghost use Rattle.cb_elim.specs.Pairs.{AreArguments, AreSame, AreUnified, HaveNone, PairsCause, PairsRoom};

use crate::Store;
use crate::parts::most_general_of;
use cb_dd::{Node, Stop};

impl Store {
    /// Adds the equations of the pairs, all at once, and says whether they can be solved with those before. Then the
    /// slots' values are the most general ones again. After `Ok(false)` and after a stop the store is as before, but for
    /// its count of refusals for nodes.
    ///
    /// One elimination of the equation "no pair differs" (Boole 1854); each level is eliminated from those pairs alone that
    /// depend on it (bucket elimination, Dechter 1999), so that pairs without a common level don't meet.
    pub fn unify_all(&mut self, pairs: &[(Node, Node)]) -> Result<bool, Stop>
        requires store { IsStore self.old }
        requires arguments { AreArguments self.old pairs.now }
        ensures unified { result ≡ Ok true → AreUnified self.old self.new pairs.now }
        ensures none { result ≡ Ok false → HaveNone (view_of self.old) self.old.nodes.triples pairs.now }
        ensures as_before { (result ≡ Ok true → ⊥) → IsAsBefore self.old self.new }
        ensures same { AreSame pairs.now → (result ≡ Ok true) × (self.new ≡ self.old) }
        ensures room { PairsRoom self.old.slots pairs.now self.old.nodes self.new.nodes }
        ensures nodes { result ≡ Err Stop.Nodes → PairsCause self.old self.new pairs.now }
        ensures fulls { self.new.nodes.fulls ≡ has_refused self.old.nodes.fulls result }
        ensures moments { KeepsMoments self.old self.new }
        ensures store { IsStore self.new }
    {
        if are_same(pairs) {
            return Ok(true);
        }
        let before = self.ops.mark();
        match self.solve_all(pairs) {
            Ok(true) => Ok(true),
            Ok(false) => {
                self.ops.cut(before);
                Ok(false)
            }
            Err(stop) => {
                self.ops.cut(before);
                Err(stop)
            }
        }
    }

    // The same; but where it doesn't answer `Ok(true)`, new nodes may be left.
    fn solve_all(&mut self, pairs: &[(Node, Node)]) -> Result<bool, Stop>
        requires store { IsStore self.old }
        requires arguments { AreArguments self.old pairs.now }
        ensures unified { result ≡ Ok true → AreUnified self.old self.new pairs.now }
        ensures none { result ≡ Ok false → HaveNone (view_of self.old) self.old.nodes.triples pairs.now }
        ensures store { result ≡ Ok true → IsStore self.new }
        ensures only_nodes { (result ≡ Ok true → ⊥) → OnlyNodes self.old self.new }
        ensures room { PairsRoom self.old.slots pairs.now self.old.nodes self.new.nodes }
        ensures full { result ≡ Err Stop.Nodes → length self.new.nodes.triples ≡ self.new.nodes.budget }
        ensures fulls { self.new.nodes.fulls ≡ has_refused self.old.nodes.fulls result }
    {
        let alloc = *self.slots.allocator();
        let found = most_general_of(alloc, &mut self.ops, self.constants, pairs)?;
        let Some(images) = found else {
            return Ok(false);
        };
        self.put_in(&images)?;
        Ok(true)
    }
}

// Whether each pair is of one node.
fn are_same(pairs: &[(Node, Node)]) -> bool
    ensures { IsTrue result ↔ AreSame pairs.now }
{
    pairs.iter().all(|pair| pair.0 == pair.1)
}
