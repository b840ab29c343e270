//! The rules of a file, chained by predicate.

ghost use Rattle.std.specs.Prelude.{◌≡◌, ◌≤◌, true, false, None, map, length, AllPairs, IfOk, MatchResult};
ghost use Rattle.std.specs.List.{list_all};
ghost use Rattle.cb_model.specs.Forms.{clause_form};
ghost use Rattle.cb_model.specs.Written.{clause_written};
ghost use Rattle.cb_model.specs.Directives.{Sign, same_sign, has_sign, heads as heads_of};
ghost use Rattle.cb_model.specs.Loading.{module_names, clauses_signs, RulesRefusal, HaveClauses};
ghost use Rattle.cb_known.specs.Modules.{AreNumbers};
ghost use Rattle.cb_chains.specs.Chained.{AreChained};
ghost use Rattle.cb_rules.specs.Refused.{RefusesRules};

use crate::names::FileNames;
use cb_chains::Chains;
use cb_directives::{Declarations, LoadError};
use cb_model::{Clause, RawClause};
use cb_rules::{Given, rules};
use sqlite_items::Items;
use std::alloc::Global;

/// The clauses of a file's rules in the order of the text, each with the next of its predicate.
#[derive(Drop)]
pub(crate) struct ChainedRules {
    pub(crate) clauses: Items<Clause>,
    pub(crate) chains: Chains,
}

/// The rules of a file whose directives declare this, or the first refusal of a rule.
pub(crate) fn chained_rules<'s>(
    alloc: Global,
    declared: &Declarations<'s>,
    known: &FileNames<'s>,
    clauses: &[RawClause<'s>],
) -> Result<ChainedRules, LoadError>
    requires written { list_all clause_written (map clause_form clauses.now) ≡ true }
    requires few { length (map clause_form clauses.now) ≤ 4194304 }
    requires heads { (a : Sign) → has_sign known.now.heads a ≡ has_sign (heads_of (map clause_form clauses.now)) a }
    requires modules { AreNumbers (module_names (map clause_form clauses.now)) known.now.modules }
    requires wanted { list_all (has_sign known.now.names) (clauses_signs (map clause_form clauses.now)) ≡ true }
    ensures rules { MatchResult result (λ r. RulesRefusal declared.now (heads_of (map clause_form clauses.now)) (module_names (map clause_form clauses.now)) (map clause_form clauses.now) None × HaveClauses declared.now known.now.names (module_names (map clause_form clauses.now)) (map clause_form clauses.now) r.clauses) (RefusesRules declared.now (heads_of (map clause_form clauses.now)) (module_names (map clause_form clauses.now)) (map clause_form clauses.now)) }
    ensures distinct { IfOk result (λ _. AllPairs (λ a b. same_sign a b ≡ false) known.now.names) }
    ensures few { IfOk result (λ r. length r.clauses ≤ 4194304) }
    ensures chained { IfOk result (λ r. AreChained r.clauses (length known.now.names) r.chains) }
{
    let given = Given {
        declared,
        heads: &known.heads,
        modules: &known.modules,
        names: &known.names,
    };
    let clauses = rules(alloc, &given, clauses)?;
    let Ok(chains) = Chains::new(alloc, known.names.len(), clauses.as_slice()) else {
        drop(clauses);
        return Err(LoadError::Memory);
    };
    Ok(ChainedRules { clauses, chains })
}
