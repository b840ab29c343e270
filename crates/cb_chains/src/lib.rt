//! The clauses of each predicate, one after another, in constant time a step.
#![tactic(auto)]

ghost use Rattle.std.specs.Prelude.{◌≡◌, ◌<◌, ℕ, suc, zero, Some, None, OnOk, IfOk, All, drop, length, get_or, slice_get, slice_set, vec_len};
ghost use Rattle.cb_model.specs.declared.Clause.{Clause as AClause};
ghost use Rattle.cb_model.specs.Program.{first_from};

use cb_model::Clause;
use std::alloc::{AllocError, Global};

/// The first clause of each predicate, and for each clause the next one of the same predicate.
#[derive(Drop)]
pub struct Chains {
    firsts: Vec<Option<u32>>,
    nexts: Vec<Option<u32>>,
}

/// Puts a clause before those behind it of its predicate.
fn put(
    firsts: &mut Vec<Option<u32>>,
    nexts: &mut Vec<Option<u32>>,
    pred: usize,
    at: usize,
) -> Result<(), AllocError>
    requires predicate { pred < vec_len firsts.old }
    requires clause { at < vec_len nexts.old }
    ensures firsts { OnOk result (firsts.new.items ≡ slice_set firsts.old.items pred (Some at)) }
    ensures nexts { OnOk result (nexts.new.items ≡ slice_set nexts.old.items at (get_or firsts.old.items pred None)) }
{
    let Ok(number) = u32::try_from(at) else {
        return Err(AllocError);
    };
    nexts[at] = firsts[pred];
    firsts[pred] = Some(number);
    Ok(())
}

impl Chains {
    ghost use Rattle.cb_chains.specs.Chained.{AreChained};

    /// Chains clauses whose predicates are below `preds`. More clauses than a `u32` counts are refused as want of
    /// memory.
    pub fn new(alloc: Global, preds: usize, clauses: &[Clause]) -> Result<Chains, AllocError>
        requires { All (λ c. c.pred < preds) clauses.now }
        ensures { IfOk result (AreChained clauses.now preds) }
    {
        let mut firsts = Vec::from_elem(alloc, None, preds)?;
        let mut nexts = Vec::from_elem(alloc, None, clauses.len())?;
        let mut at = clauses.len();
        while at > 0 {
            at -= 1;
            let pred = clauses[at].pred as usize;
            put(&mut firsts, &mut nexts, pred, at)?;
        }
        Ok(Chains { firsts, nexts })
    }

    /// The first clause of a predicate; `None` where it has none.
    pub fn first(&self, pred: u32) -> Option<u32>
        requires { pred < vec_len self.now.firsts }
        ensures { result ≡ get_or self.now.firsts.items pred None }
    {
        self.firsts[pred as usize]
    }

    /// The next clause of the same predicate; `None` where there is none.
    pub fn after(&self, clause: u32) -> Option<u32>
        requires { clause < vec_len self.now.nexts }
        ensures { result ≡ get_or self.now.nexts.items clause None }
    {
        self.nexts[clause as usize]
    }
}
