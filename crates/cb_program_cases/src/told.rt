//! Programs and queries over them.

ghost use Rattle.std.specs.Prelude.{◌≡◌, ◌<◌, ◌≤◌, true, length, map};
ghost use Rattle.cb_model.specs.Forms.{clause_form, query_form};
ghost use Rattle.cb_model.specs.Written.{AreClauses, query_written};

use crate::trees::{Names, push_goals, push_trees};
use crate::{tell_unloaded, tell_unread};
use cb_forms::texts::push_debug;
use cb_model::{ClauseView, RawClause, RawQuery, Sort};
use cb_sorts::{Program, Query, load};
use cb_syntax::{read_clauses, read_queries};
use cb_trial::text::{push, push_number};
use std::alloc::Global;
use std::test::Fail;

/// What is told of the program of a file.
#[derive(Clone, Copy)]
pub enum What<'q> {
    /// How many clauses it has.
    Count,
    /// How many constants it has, and the last.
    Constants,
    /// Its constants and its clauses, a line each.
    Program,
    /// What the first query of a text asks of it.
    Query(&'q [u8]),
}

/// Tells this of the program of a file, or writes its refusal.
pub fn tell(alloc: Global, source: &[u8], what: What<'_>, out: &mut Vec<u8>) -> Result<(), Fail>
    requires { length source.now ≤ 4194304 }
{
    match read_clauses(alloc, source) {
        Ok(clauses) => {
            let told = tell_clauses(alloc, clauses.as_slice(), what, out);
            drop(clauses);
            told
        }
        Err(error) => tell_unread(alloc, &error, out),
    }
}

// The same of its clauses.
fn tell_clauses(
    alloc: Global,
    clauses: &[RawClause<'_>],
    what: What<'_>,
    out: &mut Vec<u8>,
) -> Result<(), Fail>
    requires { AreClauses 4194304 (map clause_form clauses.now) }
{
    match load(alloc, clauses) {
        Ok(loaded) => {
            let told = tell_loaded(alloc, &loaded, what, out);
            drop(loaded);
            told
        }
        Err(error) => tell_unloaded(alloc, &error, out),
    }
}

// The same of the program.
fn tell_loaded(
    alloc: Global,
    loaded: &Program<'_>,
    what: What<'_>,
    out: &mut Vec<u8>,
) -> Result<(), Fail> {
    match what {
        What::Count => {
            push_number(alloc, out, i64::from(loaded.clauses()))?;
            push(out, " clauses\n")
        }
        What::Constants => push_constants(alloc, out, loaded),
        What::Program => push_program(alloc, out, loaded),
        What::Query(text) => tell_asked(alloc, loaded, text, out),
    }
}

// Appends how many constants there are and the last.
fn push_constants(alloc: Global, out: &mut Vec<u8>, loaded: &Program<'_>) -> Result<(), Fail> {
    let count = loaded.constants();
    push_number(alloc, out, i64::from(count))?;
    push(out, " constants")?;
    if count > 0 {
        push(out, ", the last ")?;
        out.extend_from_slice(loaded.constant_name(count - 1))?;
    }
    push(out, "\n")
}

// Appends the constants and the clauses of a program.
fn push_program(alloc: Global, out: &mut Vec<u8>, loaded: &Program<'_>) -> Result<(), Fail> {
    push(out, "constants")?;
    for constant in 0..loaded.constants() {
        push(out, " ")?;
        out.extend_from_slice(loaded.constant_name(constant))?;
    }
    push(out, "\n")?;
    for clause in 0..loaded.clauses() {
        push_clause(alloc, out, loaded, clause)?;
        push(out, "\n")?;
    }
    Ok(())
}

// Appends a clause, the sorts of its variables, what is known of its predicate, and the next clause of that.
fn push_clause(
    alloc: Global,
    out: &mut Vec<u8>,
    loaded: &Program<'_>,
    number: u32,
) -> Result<(), Fail> {
    if number >= loaded.clauses() {
        return Ok(());
    }
    let clause = loaded.clause(number);
    push_rule(alloc, out, loaded, &clause)?;
    push_sorts(alloc, out, clause.sorts)?;
    push_predicate(alloc, out, loaded, &clause)?;
    push_place(alloc, out, (", next ", ", last"), loaded.after(number))
}

// Appends the head and the body of a clause.
fn push_rule(
    alloc: Global,
    out: &mut Vec<u8>,
    loaded: &Program<'_>,
    clause: &ClauseView<'_>,
) -> Result<(), Fail> {
    let names = Names {
        program: loaded,
        query: None,
    };
    names.push(out, clause.pred)?;
    push_trees(alloc, out, &names, clause.head)?;
    push(out, " :- ")?;
    push_goals(alloc, out, &names, clause.body)
}

// Appends a clause's number behind the first word, or the second where there is none.
fn push_place(
    alloc: Global,
    out: &mut Vec<u8>,
    words: (&str, &str),
    clause: Option<u32>,
) -> Result<(), Fail> {
    match clause {
        Some(number) => {
            push(out, words.0)?;
            push_number(alloc, out, i64::from(number))
        }
        None => push(out, words.1),
    }
}

// Appends the sorts of variables.
fn push_sorts(alloc: Global, out: &mut Vec<u8>, sorts: &[Sort]) -> Result<(), Fail> {
    push(out, ";")?;
    for sort in sorts {
        push(out, " ")?;
        push_debug(alloc, out, sort)?;
    }
    Ok(())
}

// Appends whether the clauses of a predicate are demon rules, what its arguments have to be, and its first clause.
fn push_predicate(
    alloc: Global,
    out: &mut Vec<u8>,
    loaded: &Program<'_>,
    clause: &ClauseView<'_>,
) -> Result<(), Fail> {
    push(out, ";")?;
    if clause.pred as usize >= loaded.names() {
        return Ok(());
    }
    push(
        out,
        if loaded.demon(clause.pred) {
            " demon"
        } else {
            ""
        },
    )?;
    push_whens(alloc, out, loaded, (clause.pred, clause.head.len()))?;
    push_place(
        alloc,
        out,
        ("; first ", "; none"),
        loaded.first(clause.pred),
    )
}

// Appends what the arguments of a predicate have to be, of which there are so many.
fn push_whens(
    alloc: Global,
    out: &mut Vec<u8>,
    loaded: &Program<'_>,
    pred: (u32, usize),
) -> Result<(), Fail>
    requires { pred.0 < length loaded.now.names }
{
    for place in 0..pred.1 {
        let when = loaded.when(pred.0, u32::try_from(place).unwrap_or(u32::MAX));
        push(out, " ")?;
        push_debug(alloc, out, &when)?;
    }
    Ok(())
}

// Writes what the first query of a text asks of a program, or its refusal. The text may live shorter than that of the
// file.
fn tell_asked<'s: 'q, 'q>(
    alloc: Global,
    loaded: &Program<'s>,
    text: &'q [u8],
    out: &mut Vec<u8>,
) -> Result<(), Fail> {
    if text.len() > 4_194_304 {
        return Ok(());
    }
    match read_queries(alloc, text) {
        Ok(queries) => {
            let told = match queries.first() {
                Some(raw) => tell_raw(alloc, loaded, raw, out),
                None => push(out, "none\n"),
            };
            drop(queries);
            told
        }
        Err(error) => tell_unread(alloc, &error, out),
    }
}

// Writes what a query asks of a program, or its refusal.
fn tell_raw<'s: 'q, 'q>(
    alloc: Global,
    loaded: &Program<'s>,
    raw: &RawQuery<'q>,
    out: &mut Vec<u8>,
) -> Result<(), Fail>
    requires { query_written (query_form raw.now) ≡ true }
{
    match loaded.query(alloc, raw) {
        Ok(query) => {
            let told = push_query(alloc, out, loaded, &query);
            drop(query);
            told
        }
        Err(error) => tell_unloaded(alloc, &error, out),
    }
}

// Appends a query: its goals, the sorts of its variables, those that are printed with their numbers, and its own names.
fn push_query<'s>(
    alloc: Global,
    out: &mut Vec<u8>,
    loaded: &Program<'s>,
    query: &Query<'s>,
) -> Result<(), Fail> {
    push_asked(alloc, out, loaded, query)?;
    push_sorts(alloc, out, query.sorts())?;
    push_printed(alloc, out, query)?;
    push_own(out, loaded.names(), query)
}

// Appends the goals of a query.
fn push_asked<'s>(
    alloc: Global,
    out: &mut Vec<u8>,
    loaded: &Program<'s>,
    query: &Query<'s>,
) -> Result<(), Fail> {
    let names = Names {
        program: loaded,
        query: Some(query),
    };
    push_goals(alloc, out, &names, query.goals())
}

// Appends the variables of a query that are printed, with their numbers.
fn push_printed(alloc: Global, out: &mut Vec<u8>, query: &Query<'_>) -> Result<(), Fail> {
    push(out, "; prints")?;
    for place in 0..query.printed_count() {
        if let Some((number, name)) = query.printed(u32::try_from(place).unwrap_or(u32::MAX)) {
            push_variable(alloc, out, name, number)?;
        }
    }
    Ok(())
}

// Appends a variable of a query with its number.
fn push_variable(alloc: Global, out: &mut Vec<u8>, name: &[u8], number: u32) -> Result<(), Fail> {
    push(out, " ")?;
    out.extend_from_slice(name)?;
    push_number(alloc, out, i64::from(number))
}

// Appends the names that are the query's own, from the last of the program's so many on.
fn push_own(out: &mut Vec<u8>, names: usize, query: &Query<'_>) -> Result<(), Fail> {
    push(out, "; own")?;
    let last = names.saturating_sub(1).min(100) as u32;
    for number in last..last + 4 {
        push(out, " ")?;
        out.extend_from_slice(query.name(number).unwrap_or(b"-"))?;
    }
    push(out, "\n")
}
