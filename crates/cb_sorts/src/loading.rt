//! The program of a file.

ghost use Rattle.std.specs.Prelude.{map, MatchResult};
ghost use Rattle.cb_model.specs.Forms.{clause_form};
ghost use Rattle.cb_model.specs.Written.{AreClauses};
ghost use Rattle.cb_sorts.specs.Source.{Loads};
ghost use Rattle.cb_rules.specs.Refused.{Refuses};

use crate::chained::chained_rules;
use crate::names::file_names;
use crate::program::Program;
use cb_directives::{LoadError, declare};
use cb_model::RawClause;
use std::alloc::Global;

/// The program of a file's clauses, or the first refusal of a directive or else of a rule, in the order of the text,
/// with its line. Facts of circuits are left out. It takes time near linear in the file.
pub fn load<'s>(alloc: Global, clauses: &[RawClause<'s>]) -> Result<Program<'s>, LoadError>
    requires { AreClauses 4194304 (map clause_form clauses.now) }
    ensures { MatchResult result (Loads (map clause_form clauses.now)) (Refuses (map clause_form clauses.now)) }
{
    let Ok(known) = file_names(alloc, clauses) else {
        return Err(LoadError::Memory);
    };
    let declared = match declare(alloc, &known.heads, clauses) {
        Ok(declared) => declared,
        Err(error) => {
            drop(known);
            return Err(error);
        }
    };
    match chained_rules(alloc, &declared, &known, clauses) {
        Ok(rules) => Ok(Program {
            declared,
            known,
            rules,
        }),
        Err(error) => {
            drop(declared);
            drop(known);
            Err(error)
        }
    }
}
