//! The commands that decide their one line before a byte is written: `check`, `verify` and `same` over an accepted file, and
//! `make` over the text that it generates.
#![tactic(auto)]

ghost use Rattle.std.specs.Prelude.{◌≡◌, count_by, IfOk};
ghost use Rattle.cb_model.specs.Forms.{clause_form};
ghost use Rattle.cb_model.specs.Faults.{Counted};
ghost use Rattle.cb_lines.specs.Ends.{Tells};
ghost use Rattle.cb_accept.specs.File.{holds, IsAccepted};
ghost use Rattle.cb_commands.specs.Counts.{is_counted};
ghost use Rattle.cb_commands.specs.Says.{CheckSays};
ghost use Rattle.cb_commands.specs.Answers.{Says};

use crate::answer::Answer;
use cb_accept::Accepted;
use cb_host::Sink;
use cb_known::is_fact;
use cb_lines::ended::Line;
use cb_lines::lines;
use cb_model::{Outcome, RawClause, Side};
use std::alloc::{AllocError, Global};

mod answer;
mod comparing;
mod making;

pub use comparing::{same, verify};
pub use making::make;

/// `check`: prints how many clauses and modules an accepted file has.
pub fn check<O: Sink>(alloc: Global, file: &Accepted<'_>, out: &mut O) -> Outcome
    requires { IsAccepted file.now }
    ensures says { Tells (CheckSays (holds file.now)) (O.written out.old) (O.written out.new) result }
    ensures faults { Counted (result ≡ Outcome.Fault Side.Output) (O.faults out.old) (O.faults out.new) }
{
    match checked(alloc, file) {
        Ok(answer) => answer.write(out),
        Err(_) => Outcome::Memory,
    }
}

// Whether a clause is a rule and no fact of circuits.
fn is_counted(clause: &RawClause<'_>) -> bool
    ensures { result ≡ is_counted (clause_form clause.now) }
{
    match clause {
        RawClause::Directive { .. } => false,
        RawClause::Rule { .. } => !is_fact(clause),
    }
}

// How many rules there are that are no facts of circuits.
fn rule_count(clauses: &[RawClause<'_>]) -> usize
    ensures { result ≡ count_by (λ c. is_counted (clause_form c)) clauses.now }
{
    clauses.iter().filter(|clause| is_counted(clause)).count()
}

// What `check` says.
fn checked(alloc: Global, file: &Accepted<'_>) -> Result<Answer, AllocError>
    requires { IsAccepted file.now }
    ensures { IfOk result (Says (CheckSays (holds file.now))) }
{
    let clauses = rule_count(file.clauses.as_slice());
    let line = lines::checked_line(alloc, clauses, file.circuits.modules() as usize)?;
    Ok(Answer {
        line: Line::Made(line),
        outcome: Outcome::Done,
    })
}
