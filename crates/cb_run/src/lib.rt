//! `run`: the queries of the input over an accepted file.
#![tactic(auto)]

ghost use Rattle.std.specs.Prelude.{◌≡◌, ◌≤◌, true, map, length, IfOk, IfErr};
ghost use Rattle.std.specs.List.{list_all, list_any};
ghost use Rattle.cb_model.specs.Bits.{Each};
ghost use Rattle.cb_model.specs.Faults.{Counted};
ghost use Rattle.cb_model.specs.Forms.{clause_form, query_form};
ghost use Rattle.cb_model.specs.Written.{AreQueries, query_written};
ghost use Rattle.cb_model.specs.Output.{run_outcome};
ghost use Rattle.cb_tell.specs.Told.{OutputFailed};
ghost use Rattle.cb_lines.specs.Words.{nodes_view};
ghost use Rattle.cb_accept.specs.File.{forms, holds, IsAccepted};
ghost use Rattle.cb_run.specs.Run.{has_unbuilt, declares_demon as demon};
ghost use Rattle.cb_run.specs.Running.{AllTold, AskAll, AskedRun, CanTell, FileRun, InputWrites, IsOfClauses, OverFile, ProgramRun, QueriesWrite, RefuseAll};

use cb_accept::Accepted;
use cb_branch::accepted_can_run;
use cb_directives::LoadError;
use cb_host::{Load, Sink, Source, read_within};
use cb_lines::ended::finish;
use cb_lines::lines;
use cb_lines::refusals::{Whose, unloaded, unread};
use cb_lines::words::Nodes;
use cb_model::{Outcome, RawClause, RawQuery, Side};
use cb_sorts::{Program, Query, plain_files_never_commit, queries_over_file};
use cb_syntax::read_queries;
use cb_tell::tell;
use std::alloc::Global;

/// The most bytes of the input.
pub const INPUT_LIMIT: u64 = 1048576;

/// Runs the queries of the input over an accepted file, each with so many resolutions and on a store of so many nodes. Each
/// line is written as it is found. A file with facts of circuits or with a directive `demon` is refused with 99.
pub fn run<I: Source, O: Sink>(
    alloc: Global,
    file: &Accepted<'_>,
    resolutions: u32,
    nodes: Nodes,
    input: &mut I,
    out: &mut O,
) -> Outcome
    requires { IsAccepted file.now }
    ensures says { FileRun (holds file.now) resolutions (nodes_view nodes)
        (I.left input.old) (I.left input.new) (O.written out.old) (O.written out.new) result }
    ensures input_faults { Counted (result ≡ Outcome.Fault Side.Input) (I.faults input.old) (I.faults input.new) }
    ensures output_faults { Counted (result ≡ Outcome.Fault Side.Output) (O.faults out.old) (O.faults out.new) }
{
    if has_unbuilt(file) {
        return finish(out, lines::UNBUILT, Outcome::Refused(99));
    }
    over_program(alloc, &file.program, resolutions, nodes, input, out)
}

// Whether a file has facts of circuits, or a directive `demon`.
fn has_unbuilt(file: &Accepted<'_>) -> bool
    ensures { result ≡ has_unbuilt (forms file.now) }
{
    let facts = file.has_facts();
    let demons = have_demons(file.clauses.as_slice());
    facts || demons
}

// Whether a clause is a directive `demon`.
fn have_demons(clauses: &[RawClause<'_>]) -> bool
    ensures { result ≡ list_any (λ c. demon (clause_form c)) clauses.now }
{
    clauses.iter().any(|clause| declares_demon(clause))
}

// Whether it is a directive `demon`.
fn declares_demon(clause: &RawClause<'_>) -> bool
    ensures { result ≡ demon (clause_form clause.now) }
{
    match clause {
        RawClause::Directive { word, .. } => *word == b"demon".as_slice(),
        RawClause::Rule { .. } => false,
    }
}

// Reads the input and runs its queries over the program.
fn over_program<I: Source, O: Sink>(
    alloc: Global,
    program: &Program<'_>,
    resolutions: u32,
    nodes: Nodes,
    input: &mut I,
    out: &mut O,
) -> Outcome
    requires { IsOfClauses program.now }
    ensures says { OverFile program.now (λ l. ProgramRun l resolutions (nodes_view nodes)
        (I.left input.old) (I.left input.new) (O.written out.old) (O.written out.new) result) }
    ensures output_faults { Counted (result ≡ Outcome.Fault Side.Output) (O.faults out.old) (O.faults out.new) }
    ensures input_faults { Counted (result ≡ Outcome.Fault Side.Input) (I.faults input.old) (I.faults input.new) }
{
    let mut bytes = Vec::new(alloc);
    match read_within(input, &mut bytes, INPUT_LIMIT) {
        Load::Done => over_input(alloc, program, bytes.as_slice(), resolutions, nodes, out),
        Load::Long => finish(out, lines::INPUT_TOO_LONG, Outcome::Refused(20)),
        Load::Failed => Outcome::Fault(Side::Input),
        Load::Memory => Outcome::Memory,
    }
}

// Runs the queries of these bytes.
fn over_input<'s: 'i, 'i, O: Sink>(
    alloc: Global,
    program: &Program<'s>,
    bytes: &'i [u8],
    resolutions: u32,
    nodes: Nodes,
    out: &mut O,
) -> Outcome
    requires program { IsOfClauses program.now }
    requires short { length bytes.now ≤ 1048576 }
    ensures says { OverFile program.now (λ l. InputWrites l resolutions (nodes_view nodes) bytes.now
        (O.written out.old) (O.written out.new) result) }
    ensures faults { Counted (result ≡ Outcome.Fault Side.Output) (O.faults out.old) (O.faults out.new) }
{
    match read_queries(alloc, bytes) {
        Ok(queries) => over_queries(alloc, program, queries.as_slice(), resolutions, nodes, out),
        Err(error) => unread(alloc, Whose::Query, error).tell(out),
    }
}

// Runs these queries, once all of them are accepted.
fn over_queries<'s, O: Sink>(
    alloc: Global,
    program: &Program<'s>,
    raw: &[RawQuery<'s>],
    resolutions: u32,
    nodes: Nodes,
    out: &mut O,
) -> Outcome
    requires program { IsOfClauses program.now }
    requires written { AreQueries 1048576 (map query_form raw.now) }
    ensures says { OverFile program.now (λ l. QueriesWrite l resolutions (nodes_view nodes) (map query_form raw.now)
        (O.written out.old) (O.written out.new) result) }
    ensures faults { Counted (result ≡ Outcome.Fault Side.Output) (O.faults out.old) (O.faults out.new) }
{
    queries_over_file();
    plain_files_never_commit();
    accepted_can_run();
    match ask_all(alloc, program, raw) {
        Ok(queries) => over_asked(alloc, program, queries.as_slice(), resolutions, nodes, out),
        Err(error) => unloaded(alloc, Whose::Query, error).tell(out),
    }
}

// What the queries ask, or the first refusal among them.
fn ask_all<'s>(
    alloc: Global,
    program: &Program<'s>,
    raw: &[RawQuery<'s>],
) -> Result<Vec<Query<'s>>, LoadError>
    requires { list_all query_written (map query_form raw.now) ≡ true }
    ensures asked { IfOk result (λ v. AskAll program.now (map query_form raw.now) v.items) }
    ensures refused { IfErr result (RefuseAll program.now (map query_form raw.now)) }
{
    let mut queries = Vec::new(alloc);
    for query in raw {
        let asked = program.query(alloc, query)?;
        let Ok(()) = queries.push(asked) else {
            return Err(LoadError::Memory);
        };
    }
    Ok(queries)
}

// Runs accepted queries.
fn over_asked<O: Sink>(
    alloc: Global,
    program: &Program<'_>,
    queries: &[Query<'_>],
    resolutions: u32,
    nodes: Nodes,
    out: &mut O,
) -> Outcome
    requires { Each (CanTell program.now) queries.now }
    ensures says { AskedRun program.now resolutions (nodes_view nodes) queries.now (O.written out.old) (O.written out.new) result }
    ensures faults { Counted (result ≡ Outcome.Fault Side.Output) (O.faults out.old) (O.faults out.new) }
{
    match tell_all(alloc, program, queries, resolutions, nodes, out) {
        Ok(stopped) => outcome_of(stopped),
        Err(outcome) => outcome,
    }
}

// The outcome of queries that were told, one of them with a stop line or none.
fn outcome_of(stopped: bool) -> Outcome
    ensures { result ≡ run_outcome stopped }
{
    if stopped {
        Outcome::Stopped
    } else {
        Outcome::Done
    }
}

// Tells each query; whether a last line of one is a stop line.
fn tell_all<O: Sink>(
    alloc: Global,
    program: &Program<'_>,
    queries: &[Query<'_>],
    resolutions: u32,
    nodes: Nodes,
    out: &mut O,
) -> Result<bool, Outcome>
    requires { Each (CanTell program.now) queries.now }
    ensures told { AllTold program.now resolutions (nodes_view nodes) queries.now (O.written out.old) (O.written out.new) result }
    ensures faults { Counted (OutputFailed result) (O.faults out.old) (O.faults out.new) }
{
    let budget = nodes.budget();
    let mut stopped = false;
    for query in queries {
        let stop = tell(alloc, program, query, resolutions, budget, out)?;
        stopped |= stop;
    }
    Ok(stopped)
}
