//! The clauses and queries of a text as they are written.

ghost use Rattle.std.specs.Prelude.{◌≤◌, length};

use crate::tell_unread;
use cb_model::{RawClause, RawGoal, RawQuery, RawTerm};
use cb_syntax::{read_clauses, read_queries};
use cb_trial::text::{push, push_number};
use std::alloc::Global;
use std::test::Fail;

/// Writes the forms of the clauses of a text, or its refusal.
pub fn tell_clauses(alloc: Global, source: &[u8], out: &mut Vec<u8>) -> Result<(), Fail>
    requires { length source.now ≤ 4194304 }
{
    match read_clauses(alloc, source) {
        Ok(clauses) => {
            let told = push_clauses(alloc, out, clauses.as_slice());
            drop(clauses);
            told
        }
        Err(error) => tell_unread(alloc, &error, out),
    }
}

/// Writes the forms of the queries of a text, or its refusal.
pub fn tell_queries(alloc: Global, source: &[u8], out: &mut Vec<u8>) -> Result<(), Fail>
    requires { length source.now ≤ 4194304 }
{
    match read_queries(alloc, source) {
        Ok(queries) => {
            let told = push_queries(alloc, out, queries.as_slice());
            drop(queries);
            told
        }
        Err(error) => tell_unread(alloc, &error, out),
    }
}

// Appends the forms of clauses.
fn push_clauses(alloc: Global, out: &mut Vec<u8>, clauses: &[RawClause<'_>]) -> Result<(), Fail> {
    for clause in clauses {
        push_clause(alloc, out, clause)?;
    }
    push(out, "end\n")
}

// Appends the forms of queries.
fn push_queries(alloc: Global, out: &mut Vec<u8>, queries: &[RawQuery<'_>]) -> Result<(), Fail> {
    for query in queries {
        push_line(alloc, out, query.line)?;
        push_goals(alloc, out, query.goals.as_slice())?;
        push(out, "; ")?;
    }
    push(out, "end\n")
}

// Appends the line of a clause or query.
fn push_line(alloc: Global, out: &mut Vec<u8>, line: u32) -> Result<(), Fail> {
    push_number(alloc, out, i64::from(line))?;
    push(out, ": ")
}

// Appends the form of a clause: a directive's word before its arguments, and `:-` between a head and a body.
fn push_clause(alloc: Global, out: &mut Vec<u8>, clause: &RawClause<'_>) -> Result<(), Fail> {
    match clause {
        RawClause::Directive { line, word, args } => {
            push_line(alloc, out, *line)?;
            push(out, ":- ")?;
            push_name(alloc, out, *word, args.as_slice())?;
        }
        RawClause::Rule {
            line,
            head,
            bodied,
            body,
        } => {
            push_line(alloc, out, *line)?;
            push_form(alloc, out, head)?;
            if *bodied {
                push(out, " :- ")?;
            }
            push_goals(alloc, out, body.as_slice())?;
        }
    }
    push(out, "; ")
}

// Appends the forms of goals, each with a comma behind it.
fn push_goals(alloc: Global, out: &mut Vec<u8>, goals: &[RawGoal<'_>]) -> Result<(), Fail> {
    for goal in goals {
        match goal {
            RawGoal::Call(term) => push_form(alloc, out, term)?,
            RawGoal::Equal(left, right) => {
                push_form(alloc, out, left)?;
                push(out, " = ")?;
                push_form(alloc, out, right)?;
            }
        }
        push(out, ",")?;
    }
    Ok(())
}

// Appends the form of a term: a variable with `?` before it, and each operator and list as a name before its parts.
#[cycle(form)]
fn push_form(alloc: Global, out: &mut Vec<u8>, term: &RawTerm<'_>) -> Result<(), Fail> {
    match term {
        RawTerm::Variable(name) => push_variable(out, *name),
        RawTerm::Integer(value) => push_number(alloc, out, *value),
        RawTerm::Name(name, parts) => push_name(alloc, out, *name, parts.as_slice()),
        RawTerm::List(parts, None) => push_name(alloc, out, b"list", parts.as_slice()),
        RawTerm::List(parts, Some(tail)) => {
            push_name(alloc, out, b"list", parts.as_slice())?;
            push(out, "|")?;
            push_form(alloc, out, tail.get())
        }
        RawTerm::Not(part) => {
            push(out, "not ")?;
            push_form(alloc, out, part.get())
        }
        RawTerm::And(parts) => push_name(alloc, out, b"and", parts.as_slice()),
        RawTerm::Xor(parts) => push_name(alloc, out, b"xor", parts.as_slice()),
        RawTerm::Or(parts) => push_name(alloc, out, b"or", parts.as_slice()),
    }
}

// Appends a variable.
fn push_variable(out: &mut Vec<u8>, name: &[u8]) -> Result<(), Fail> {
    push(out, "?")?;
    out.extend_from_slice(name)?;
    Ok(())
}

// Appends a name and the forms of its parts, each with a space behind it.
#[cycle(form)]
fn push_name(
    alloc: Global,
    out: &mut Vec<u8>,
    name: &[u8],
    parts: &[RawTerm<'_>],
) -> Result<(), Fail> {
    out.extend_from_slice(name)?;
    push(out, "(")?;
    for part in parts {
        push_form(alloc, out, part)?;
        push(out, " ")?;
    }
    push(out, ")")
}
