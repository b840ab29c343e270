//! The directives of a whole file.

ghost use Rattle.std.specs.Prelude.{◌≡◌, ◌||◌, [], ◌∷◌, None, map, MatchResult, IfOk, OnOk};
ghost use Rattle.cb_model.specs.Forms.{clause_form};
ghost use Rattle.cb_model.specs.Directives.{Sign, nothing, has_sign, heads as heads_of, directives};
ghost use Rattle.cb_directives.specs.Refusals.{Tells};
ghost use Rattle.cb_directives.specs.Checks.{check_other, check_delay, others, delayed, Accepts, Refuses};

use crate::declarations::Declarations;
use crate::fault::LoadError;
use crate::terms::named;
use crate::words::delays;
use cb_model::RawClause;
use cb_names::Signs;
use std::alloc::{AllocError, Global};

/// Adds the name of a clause's head.
fn add_head<'s>(signs: &mut Signs<'s>, clause: &RawClause<'s>) -> Result<(), AllocError>
    ensures { OnOk result ((a : Sign) → has_sign signs.new a ≡ (has_sign signs.old a || has_sign (heads_of (clause_form clause.now ∷ [])) a)) }
{
    match clause {
        RawClause::Directive { .. } => Ok(()),
        RawClause::Rule { head, .. } => match named(head) {
            None => Ok(()),
            Some((name, args)) => signs.add(name, args.len()),
        },
    }
}

/// The names that have clauses.
pub fn heads<'s>(alloc: Global, clauses: &[RawClause<'s>]) -> Result<Signs<'s>, AllocError>
    ensures { IfOk result (λ s. (a : Sign) → has_sign s a ≡ has_sign (heads_of (map clause_form clauses.now)) a) }
{
    let mut signs = Signs::new(alloc);
    for clause in clauses {
        add_head(&mut signs, clause)?;
    }
    Ok(signs)
}

impl<'s> Declarations<'s> {
    /// The arguments of a clause that is a directive other than `delay`.
    fn declare_clause(&mut self, alloc: Global, clause: &RawClause<'s>) -> Result<(), LoadError>
        ensures { MatchResult result (λ _. Accepts check_other (others (clause_form clause.now ∷ [])) self.old self.new) (Refuses check_other (others (clause_form clause.now ∷ [])) self.old) }
    {
        match clause {
            RawClause::Directive { line, word, args } => {
                if delays(*word) {
                    Ok(())
                } else {
                    self.declare(alloc, *line, *word, args.as_slice())
                }
            }
            RawClause::Rule { .. } => Ok(()),
        }
    }

    /// The arguments of a clause that is a directive `delay`.
    fn delay_clause(
        &mut self,
        alloc: Global,
        heads: &Signs<'s>,
        clause: &RawClause<'s>,
    ) -> Result<(), LoadError>
        ensures { MatchResult result (λ _. Accepts (check_delay heads.now) (delayed (clause_form clause.now ∷ [])) self.old self.new) (Refuses (check_delay heads.now) (delayed (clause_form clause.now ∷ [])) self.old) }
    {
        match clause {
            RawClause::Directive { line, word, args } => {
                if delays(*word) {
                    self.delay_all(alloc, heads, *line, *word, args.as_slice())
                } else {
                    Ok(())
                }
            }
            RawClause::Rule { .. } => Ok(()),
        }
    }

    /// The directives other than `delay`, in the order of the text.
    fn declare_others(&mut self, alloc: Global, clauses: &[RawClause<'s>]) -> Result<(), LoadError>
        ensures { MatchResult result (λ _. Accepts check_other (others (map clause_form clauses.now)) self.old self.new) (Refuses check_other (others (map clause_form clauses.now)) self.old) }
    {
        for clause in clauses {
            self.declare_clause(alloc, clause)?;
        }
        Ok(())
    }

    /// The directives `delay`, in the order of the text.
    fn declare_delays(
        &mut self,
        alloc: Global,
        heads: &Signs<'s>,
        clauses: &[RawClause<'s>],
    ) -> Result<(), LoadError>
        ensures { MatchResult result (λ _. Accepts (check_delay heads.now) (delayed (map clause_form clauses.now)) self.old self.new) (Refuses (check_delay heads.now) (delayed (map clause_form clauses.now)) self.old) }
    {
        for clause in clauses {
            self.delay_clause(alloc, heads, clause)?;
        }
        Ok(())
    }

    /// All directives, where nothing is declared yet: first those other than `delay`, and then those.
    fn declare_all(
        &mut self,
        alloc: Global,
        heads: &Signs<'s>,
        clauses: &[RawClause<'s>],
    ) -> Result<(), LoadError>
        requires none { self.old ≡ nothing }
        requires heads { (a : Sign) → has_sign heads.now a ≡ has_sign (heads_of (map clause_form clauses.now)) a }
        ensures { MatchResult result (λ _. directives (map clause_form clauses.now) ≡ record { refusal = None; declared = self.new }) (λ e. Tells e (directives (map clause_form clauses.now)).refusal) }
    {
        self.declare_others(alloc, clauses)?;
        self.declare_delays(alloc, heads, clauses)
    }
}

/// What the directives of a file declare, wherever they stand: first those other than `delay` are checked in the order
/// of the text, and then those; `heads` are the names that have clauses.
pub fn declare<'s>(
    alloc: Global,
    heads: &Signs<'s>,
    clauses: &[RawClause<'s>],
) -> Result<Declarations<'s>, LoadError>
    requires { (a : Sign) → has_sign heads.now a ≡ has_sign (heads_of (map clause_form clauses.now)) a }
    ensures { MatchResult result (λ d. directives (map clause_form clauses.now) ≡ record { refusal = None; declared = d }) (λ e. Tells e (directives (map clause_form clauses.now)).refusal) }
{
    let mut declared = Declarations::new(alloc);
    match declared.declare_all(alloc, heads, clauses) {
        Ok(()) => Ok(declared),
        Err(error) => {
            drop(declared);
            Err(error)
        }
    }
}
