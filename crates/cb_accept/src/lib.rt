//! The road of every command to its file: the file is loaded, read and accepted, or the run ends before its work.
#![tactic(auto)]

ghost use Rattle.std.specs.Prelude.{◌≡◌, ◌≤◌, map, length, Err, IfOk, IfErr, MatchResult};
ghost use Rattle.std.specs.List.{list_any};
ghost use Rattle.cb_model.specs.Forms.{clause_form};
ghost use Rattle.cb_model.specs.Grammar.{Whole, IsReading, ReadsClause};
ghost use Rattle.cb_model.specs.Loading.{is_fact};
ghost use Rattle.cb_model.specs.Faults.{Counted};
ghost use Rattle.cb_model.specs.Written.{AreClauses};
ghost use Rattle.cb_lines.specs.Ends.{EndsBy};
ghost use Rattle.cb_model.specs.Output.{FileRefused};
ghost use Rattle.cb_sorts.specs.Source.{Loads};
ghost use Rattle.cb_accept.specs.Refusals.{ClausesRefused};
ghost use Rattle.cb_accept.specs.File.{forms, IsAccepted, IsLoaded, IsLong};

use cb_circ::{Circuits, read_circuits};
use cb_host::{Files, Load};
use cb_known::is_fact;
use cb_lines::ended::{Ended, Line};
use cb_lines::lines;
use cb_lines::refusals::{Whose, unconnected, unloaded, unread};
use cb_model::RawClause;
use cb_sorts::{Program, load};
use cb_syntax::read_clauses;
use std::alloc::Global;

/// The most bytes of a file.
pub const FILE_LIMIT: u64 = 4194304;

/// A file that is accepted: none of its tokens, clauses, directives, rules and facts of circuits is refused.
#[derive(Drop)]
pub struct Accepted<'s> {
    /// Its bytes.
    pub text: &'s [u8],
    /// Its clauses, which lend their names from the bytes.
    pub clauses: Vec<RawClause<'s>>,
    /// The program of its rules.
    pub program: Program<'s>,
    /// The modules and specifications of its facts.
    pub circuits: Circuits<'s>,
}

impl Accepted<'_> {
    /// Whether a clause is a fact of circuits.
    pub fn has_facts(&self) -> bool
        ensures { result ≡ list_any is_fact (forms self.now) }
    {
        have_fact(self.clauses.as_slice())
    }
}

// Whether a clause is a fact of circuits.
fn have_fact(clauses: &[RawClause<'_>]) -> bool
    ensures { result ≡ list_any (λ c. is_fact (clause_form c)) clauses.now }
{
    clauses.iter().any(|clause| is_fact(clause))
}

/// Lets an accepted file go.
pub fn end(_file: Accepted<'_>) {}

/// Loads the file of a name, of at most 4,194,304 bytes.
pub fn load_file<F: Files>(alloc: Global, name: &str, files: &mut F) -> Result<Vec<u8>, Ended>
    ensures loaded { IfOk result (λ v. IsLoaded (F.list files.old) name.now v.items) }
    ensures refused { IfErr result (EndsBy (IsLong (F.list files.old) name.now) (result ≡ Err Ended.FileFailed)) }
    ensures faults { Counted (result ≡ Err Ended.FileFailed) (F.faults files.old) (F.faults files.new) }
{
    let mut bytes = Vec::new(alloc);
    match files.load(name, &mut bytes, FILE_LIMIT) {
        Load::Done => Ok(bytes),
        Load::Long => Err(Ended::Refused(Line::Fixed(lines::FILE_TOO_LONG), 20)),
        Load::Failed => Err(Ended::FileFailed),
        Load::Memory => Err(Ended::Memory),
    }
}

/// Reads the bytes of a file and accepts it, or gives its first refusal: of its tokens, its grammar, its directives, its
/// rules, its facts of circuits.
pub fn accept(alloc: Global, text: &[u8]) -> Result<Accepted<'_>, Ended>
    requires { length text.now ≤ 4194304 }
    ensures accepted { MatchResult result IsAccepted (EndsBy (FileRefused text.now) ⊥) }
    ensures text { IfOk result (λ a. a.text.now ≡ text.now) }
{
    match read_clauses(alloc, text) {
        Ok(clauses) => of_clauses(alloc, text, clauses),
        Err(error) => Err(unread(alloc, Whose::File, error)),
    }
}

// The accepted file of these clauses, or the first refusal among them.
fn of_clauses<'s>(
    alloc: Global,
    text: &'s [u8],
    clauses: Vec<RawClause<'s>>,
) -> Result<Accepted<'s>, Ended>
    requires short { length text.now ≤ 4194304 }
    requires reading { IsReading ReadsClause text.now (Whole (map clause_form clauses.items)) }
    requires written { AreClauses 4194304 (map clause_form clauses.items) }
    ensures accepted { MatchResult result IsAccepted (EndsBy (ClausesRefused (map clause_form clauses.entry.items)) ⊥) }
    ensures text { IfOk result (λ a. a.text.now ≡ text.now) }
{
    match load(alloc, clauses.as_slice()) {
        Ok(program) => with_circuits(alloc, text, clauses, program),
        Err(error) => {
            let_go(clauses);
            Err(unloaded(alloc, Whose::File, error))
        }
    }
}

// The accepted file of these clauses, whose directives and rules are accepted, or the first refusal among its facts of
// circuits.
fn with_circuits<'s>(
    alloc: Global,
    text: &'s [u8],
    clauses: Vec<RawClause<'s>>,
    program: Program<'s>,
) -> Result<Accepted<'s>, Ended>
    requires short { length text.now ≤ 4194304 }
    requires reading { IsReading ReadsClause text.now (Whole (map clause_form clauses.items)) }
    requires written { AreClauses 4194304 (map clause_form clauses.items) }
    requires loads { Loads (map clause_form clauses.items) program }
    ensures accepted { MatchResult result IsAccepted (EndsBy (ClausesRefused (map clause_form clauses.entry.items)) ⊥) }
    ensures text { IfOk result (λ a. a.text.now ≡ text.now) }
{
    match read_circuits(alloc, clauses.as_slice()) {
        Ok(circuits) => Ok(Accepted {
            text,
            clauses,
            program,
            circuits,
        }),
        Err(error) => {
            let_go(clauses);
            let_program_go(program);
            Err(unconnected(alloc, error))
        }
    }
}

// Lets a program go.
fn let_program_go(_program: Program<'_>) {}

// Lets clauses go.
fn let_go(_clauses: Vec<RawClause<'_>>) {}
