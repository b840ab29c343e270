//! The names of a file.

ghost use Rattle.std.specs.Prelude.{◌≡◌, true, map, IfOk};
ghost use Rattle.std.specs.List.{list_all};
ghost use Rattle.cb_model.specs.Forms.{clause_form};
ghost use Rattle.cb_model.specs.Directives.{Sign, has_sign, heads as heads_of};
ghost use Rattle.cb_model.specs.Loading.{module_names, clauses_signs};
ghost use Rattle.cb_known.specs.Modules.{AreNumbers};
ghost use Rattle.cb_signs.specs.Wanted.{directive_signs};

use cb_directives::heads;
use cb_known::Modules;
use cb_model::RawClause;
use cb_names::Signs;
use cb_signs::clause_names;
use std::alloc::{AllocError, Global};

/// The names of a file's clauses.
#[derive(Drop)]
pub(crate) struct FileNames<'s> {
    /// The names that have clauses.
    pub(crate) heads: Signs<'s>,
    /// The modules.
    pub(crate) modules: Modules<'s>,
    /// The names by number.
    pub(crate) names: Signs<'s>,
}

/// The names of a file's clauses.
pub(crate) fn file_names<'s>(
    alloc: Global,
    clauses: &[RawClause<'s>],
) -> Result<FileNames<'s>, AllocError>
    ensures heads { IfOk result (λ f. (a : Sign) → has_sign f.heads a ≡ has_sign (heads_of (map clause_form clauses.now)) a) }
    ensures modules { IfOk result (λ f. AreNumbers (module_names (map clause_form clauses.now)) f.modules) }
    ensures wanted { IfOk result (λ f. list_all (has_sign f.names) (clauses_signs (map clause_form clauses.now)) ≡ true) }
    ensures spoken_of { IfOk result (λ f. list_all (has_sign f.names) (directive_signs (map clause_form clauses.now)) ≡ true) }
{
    let heads = heads(alloc, clauses)?;
    let Ok(modules) = Modules::new(alloc, clauses) else {
        drop(heads);
        return Err(AllocError);
    };
    let Ok(names) = clause_names(alloc, clauses) else {
        drop(heads);
        drop(modules);
        return Err(AllocError);
    };
    Ok(FileNames {
        heads,
        modules,
        names,
    })
}
