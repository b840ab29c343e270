//! The most general solution of many equations, each a part of one elimination.

ghost use Rattle.std.specs.Prelude.{◌≡◌, ◌≤◌, ℕ, length, Err, IfOk, IfSome, IfNone, OnOk};
ghost use Rattle.cb_ops.specs.Ops.{Grows};
ghost use Rattle.cb_ops.specs.Support.{IsListed};
ghost use Rattle.cb_solution.specs.Differ.{ArePairs};
ghost use Rattle.cb_solution.specs.Parts.{AreParts};
ghost use Rattle.cb_solution.specs.Solution.{has_refused};
ghost use Rattle.cb_elim.specs.Pairs.{AreDifferences, AreGathered, ArePairsGeneral, ArePartsLevels, DifferencesRoom, HavePairsNoSolution, PairsSidesRoom};

use cb_dd::{Node, Stop};
use cb_ops::Ops;
use cb_solution::solution_of_parts;
use indexmap::IndexSet;
use std::alloc::{AllocError, Global};

/// The most general solution of the equations of the pairs for the levels that are no constants, as images of levels; `None`
/// where they have no solution together.
pub(crate) fn most_general_of(
    alloc: Global,
    ops: &mut Ops,
    constants: u32,
    pairs: &[(Node, Node)],
) -> Result<Option<Vec<(u32, Node)>>, Stop>
    requires { ArePairs ops.old.triples pairs.now }
    ensures found { IfOk result (λ r. IfSome r (λ images. ArePairsGeneral ops.old.triples ops.new.triples constants pairs.now images.items)) }
    ensures none { IfOk result (λ r. IfNone r (HavePairsNoSolution ops.old.triples constants pairs.now)) }
    ensures grows { Grows ops.old ops.new }
    ensures room { PairsSidesRoom pairs.now ops.old ops.new }
    ensures full { result ≡ Err Stop.Nodes → length ops.new.triples ≡ ops.new.budget }
    ensures fulls { ops.new.fulls ≡ has_refused ops.old.fulls result }
{
    let parts = differences(alloc, ops, pairs)?;
    let Ok(levels) = levels_of(alloc, ops, &parts, constants) else {
        return Err(Stop::Memory);
    };
    let found = solution_of_parts(alloc, ops, &parts, &levels)?;
    Ok(found)
}

// For each pair the node that is 1 where the two differ.
fn differences(alloc: Global, ops: &mut Ops, pairs: &[(Node, Node)]) -> Result<Vec<Node>, Stop>
    requires { ArePairs ops.old.triples pairs.now }
    ensures parts { IfOk result (λ parts. AreDifferences ops.old.triples ops.new.triples pairs.now parts.items) }
    ensures grows { Grows ops.old ops.new }
    ensures room { DifferencesRoom pairs.now ops.old ops.new }
    ensures full { result ≡ Err Stop.Nodes → length ops.new.triples ≡ ops.new.budget }
    ensures fulls { ops.new.fulls ≡ has_refused ops.old.fulls result }
{
    let mut parts = Vec::new(alloc);
    for (f, g) in pairs {
        let part = ops.xor(*f, *g)?;
        parts.push(part).map_err(|_| Stop::Memory)?;
    }
    Ok(parts)
}

// The levels on which some part depends, but for the constants, the greatest first.
fn levels_of(
    alloc: Global,
    ops: &Ops,
    parts: &[Node],
    constants: u32,
) -> Result<IndexSet<u32>, AllocError>
    requires { AreParts ops.now.triples parts.now }
    ensures { IfOk result (λ levels. ArePartsLevels constants ops.now.triples parts.now levels.keys) }
{
    let mut levels = IndexSet::new(alloc);
    for part in parts {
        let support = ops.support(*part)?;
        gather(constants, support.as_slice(), &mut levels)?;
    }
    levels.sort()?;
    levels.reverse();
    Ok(levels)
}

// Adds the levels of the list, but for the constants.
fn gather(constants: u32, support: &[u32], levels: &mut IndexSet<u32>) -> Result<(), AllocError>
    ensures kept { (l : ℕ) → IsListed levels.old.keys l → IsListed levels.new.keys l }
    ensures from { AreGathered constants support.now levels.old.keys levels.new.keys }
    ensures whole { OnOk result ((l : ℕ) → IsListed support.now l → constants ≤ l → IsListed levels.new.keys l) }
{
    for level in support {
        if constants <= *level {
            levels.insert(*level)?;
        }
    }
    Ok(())
}
