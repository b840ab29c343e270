//! Goals, clauses and queries from tokens.

ghost use Rattle.std.specs.Prelude.{◌≡◌, ◌≢◌, ◌⊎◌, ◌<◌, ◌≤◌, ◌+◌, [], ◌∷◌, ◌++◌, length, map, IfOk, MatchResult, MatchBool};
ghost use Rattle.cb_model.specs.declared.Kind.TheVariants as kind;
ghost use Rattle.cb_model.specs.Forms.{form_of, goal_form, clause_form, query_form};
ghost use Rattle.cb_model.specs.Grammar.{IsAtom, ReadsClause, ReadsQuery};
ghost use Rattle.cb_lex.specs.View.{token_of};
ghost use Rattle.cb_syntax.specs.Answers.{IsText, NoText};
ghost use Rattle.cb_syntax.specs.Steps.{rest, Ahead};
ghost use Rattle.cb_syntax.specs.Pieces.{tail_next, TookRest, NoRest, TookRight, TookEquation, NoEquation, TookGoal, NoGoal, TookGoals, NoGoals, TookTail, NoTail, TookClause, NoClause, TookQuery, NoQuery};
ghost use Rattle.cb_syntax.specs.declared.read.Stop.TheVariants as stop;

use crate::read::{Operator, Stop, call, chain, expect, longer, peek, push, terms};
use cb_lex::Token;
use cb_model::{Kind, RawClause, RawGoal, RawQuery, RawTerm};
use sqlite_items::Items;
use std::alloc::Global;

/// Whether an operator or `=` stands at a place.
fn goes_on(tokens: &[Token<'_>], at: usize) -> bool
    ensures { result ≡ tail_next (rest tokens.now at) }
{
    match peek(tokens, at) {
        Some(token) => match token.kind {
            Kind::Star | Kind::Hash | Kind::Plus | Kind::Equals => true,
            _ => false,
        },
        None => false,
    }
}

/// A chain behind its first operand.
fn chain_behind<'s>(
    alloc: Global,
    first: RawTerm<'s>,
    tokens: &[Token<'s>],
    at: usize,
) -> Result<(RawTerm<'s>, usize), Stop>
    ensures answer { MatchResult result (λ r. TookRest (form_of first.entry) (rest tokens.now at) (rest tokens.now r.1) (form_of r.0)) (λ e. NoRest (rest tokens.now at) e) }
    ensures forward { IfOk result (λ r. at ≤ r.1) }
{
    let (product, after) = longer(alloc, Operator::Star, first, tokens, at, 0)?;
    let (sum, later) = longer(alloc, Operator::Hash, product, tokens, after, 0)?;
    longer(alloc, Operator::Plus, sum, tokens, later, 0)
}

/// `=` and a term behind it.
fn right_side<'s>(
    alloc: Global,
    tokens: &[Token<'s>],
    at: usize,
) -> Result<(RawTerm<'s>, usize), Stop>
    ensures answer { MatchResult result (λ r. TookRight (rest tokens.now at) (rest tokens.now r.1) (form_of r.0)) (λ e. NoEquation (rest tokens.now at) e) }
    ensures forward { IfOk result (λ r. at < r.1) }
{
    let after = expect(Kind::Equals, tokens, at)?;
    chain(alloc, Operator::Plus, tokens, after, 0)
}

/// `=` and a term behind a term.
fn equation<'s>(
    alloc: Global,
    left: RawTerm<'s>,
    tokens: &[Token<'s>],
    at: usize,
) -> Result<(RawGoal<'s>, usize), Stop>
    ensures answer { MatchResult result (λ r. TookEquation (form_of left.entry) (rest tokens.now at) (rest tokens.now r.1) (goal_form r.0)) (λ e. NoEquation (rest tokens.now at) e) }
    ensures forward { IfOk result (λ r. at < r.1) }
{
    match right_side(alloc, tokens, at) {
        Ok((right, behind)) => Ok((RawGoal::Equal(left, right), behind)),
        Err(stop) => {
            drop(left);
            Err(stop)
        }
    }
}

/// A goal: a call, or two terms with `=` between them.
fn goal<'s>(alloc: Global, tokens: &[Token<'s>], at: usize) -> Result<(RawGoal<'s>, usize), Stop>
    ensures answer { MatchResult result (λ r. TookGoal (rest tokens.now at) (rest tokens.now r.1) (goal_form r.0)) (λ e. NoGoal (rest tokens.now at) e) }
    ensures forward { IfOk result (λ r. at < r.1) }
{
    let Some(first) = peek(tokens, at) else {
        return Err(Stop::Ended);
    };
    match first.kind {
        Kind::Atom | Kind::Quoted => call_goal(alloc, first, tokens, at),
        _ => {
            let (left, after) = chain(alloc, Operator::Plus, tokens, at, 0)?;
            equation(alloc, left, tokens, after)
        }
    }
}

/// A goal that begins with an atom.
fn call_goal<'s>(
    alloc: Global,
    first: Token<'s>,
    tokens: &[Token<'s>],
    at: usize,
) -> Result<(RawGoal<'s>, usize), Stop>
    requires ahead { Ahead (length tokens.now) at (rest tokens.now at) (token_of first) (rest tokens.now (at + 1)) }
    requires atom { IsAtom (token_of first) }
    ensures answer { MatchResult result (λ r. TookGoal (rest tokens.now at) (rest tokens.now r.1) (goal_form r.0)) (λ e. NoGoal (rest tokens.now at) e) }
    ensures forward { IfOk result (λ r. at < r.1) }
{
    let (term, after) = call(alloc, first, tokens, at + 1, 0)?;
    if !goes_on(tokens, after) {
        return Ok((RawGoal::Call(term), after));
    }
    let (left, behind) = chain_behind(alloc, term, tokens, after)?;
    equation(alloc, left, tokens, behind)
}

/// Goals with commas between them, up to a dot.
fn goals<'s>(
    alloc: Global,
    tokens: &[Token<'s>],
    at: usize,
) -> Result<(Items<RawGoal<'s>>, usize), Stop>
    ensures answer { MatchResult result (λ r. TookGoals (rest tokens.now at) (rest tokens.now r.1) (map goal_form r.0)) (λ e. NoGoals (rest tokens.now at) e) }
    ensures forward { IfOk result (λ r. at < r.1) }
{
    let mut found = Items::new(alloc);
    match more_goals(alloc, tokens, at, &mut found) {
        Ok(behind) => Ok((found, behind)),
        Err(stop) => {
            drop(found);
            Err(stop)
        }
    }
}

/// Puts goals with commas between them, up to a dot, into an empty list, and gives the place behind the dot.
fn more_goals<'s>(
    alloc: Global,
    tokens: &[Token<'s>],
    at: usize,
    found: &mut Items<RawGoal<'s>>,
) -> Result<usize, Stop>
    requires { found.old ≡ [] }
    ensures answer { MatchResult result (λ r. TookGoals (rest tokens.now at) (rest tokens.now r) (map goal_form found.new)) (λ e. NoGoals (rest tokens.now at) e) }
    ensures forward { IfOk result (λ r. at < r) }
{
    let mut left = at;
    loop {
        let (goal, after) = goal(alloc, tokens, left)?;
        push(found, goal)?;
        let Some(next) = peek(tokens, after) else {
            return Err(Stop::Ended);
        };
        match next.kind {
            Kind::Comma => {
                left = after + 1;
            }
            Kind::Dot => {
                return Ok(after + 1);
            }
            _ => {
                return Err(Stop::Wrong(tokens.len() - after));
            }
        }
    }
}

/// A directive behind its `:-`.
fn directive<'s>(
    alloc: Global,
    first: Token<'s>,
    tokens: &[Token<'s>],
    at: usize,
) -> Result<(RawClause<'s>, usize), Stop>
    requires ahead { Ahead (length tokens.now) at (rest tokens.now at) (token_of first) (rest tokens.now (at + 1)) }
    requires neck { (token_of first).kind ≡ kind.Neck }
    ensures answer { MatchResult result (λ r. TookClause (rest tokens.now at) (rest tokens.now r.1) (clause_form r.0)) (λ e. NoClause (rest tokens.now at) e) }
    ensures forward { IfOk result (λ r. at < r.1) }
{
    let place = at + 1;
    let Some(word) = peek(tokens, place) else {
        return Err(Stop::Ended);
    };
    if !is_atom(word.kind) {
        return Err(Stop::Wrong(tokens.len() - place));
    }
    let (args, after) = terms(alloc, tokens, place + 1, 0)?;
    match expect(Kind::Dot, tokens, after) {
        Ok(behind) => Ok((
            RawClause::Directive {
                line: first.line,
                word: word.name(),
                args,
            },
            behind,
        )),
        Err(stop) => {
            drop(args);
            Err(stop)
        }
    }
}

/// Whether a token of this kind is an atom.
fn is_atom(found: Kind) -> bool
    ensures { MatchBool result ((found ≡ kind.Atom) ⊎ (found ≡ kind.Quoted)) ((found ≢ kind.Atom) × (found ≢ kind.Quoted)) }
{
    match found {
        Kind::Atom | Kind::Quoted => true,
        _ => false,
    }
}

/// A fact or a rule that begins with this atom.
fn rule<'s>(
    alloc: Global,
    first: Token<'s>,
    tokens: &[Token<'s>],
    at: usize,
) -> Result<(RawClause<'s>, usize), Stop>
    requires ahead { Ahead (length tokens.now) at (rest tokens.now at) (token_of first) (rest tokens.now (at + 1)) }
    requires atom { IsAtom (token_of first) }
    ensures answer { MatchResult result (λ r. TookClause (rest tokens.now at) (rest tokens.now r.1) (clause_form r.0)) (λ e. NoClause (rest tokens.now at) e) }
    ensures forward { IfOk result (λ r. at < r.1) }
{
    let (head, after) = call(alloc, first, tokens, at + 1, 0)?;
    match tail(alloc, tokens, after) {
        Ok((bodied, body, behind)) => Ok((
            RawClause::Rule {
                line: first.line,
                head,
                bodied,
                body,
            },
            behind,
        )),
        Err(stop) => {
            drop(head);
            Err(stop)
        }
    }
}

/// What follows a head: a dot, or a body. The first part says which.
fn tail<'s>(
    alloc: Global,
    tokens: &[Token<'s>],
    at: usize,
) -> Result<(bool, Items<RawGoal<'s>>, usize), Stop>
    ensures answer { MatchResult result (λ r. TookTail (rest tokens.now at) (rest tokens.now r.2) r.0 (map goal_form r.1)) (λ e. NoTail (rest tokens.now at) e) }
    ensures forward { IfOk result (λ r. at < r.2) }
{
    let Some(next) = peek(tokens, at) else {
        return Err(Stop::Ended);
    };
    match next.kind {
        Kind::Dot => Ok((false, Items::new(alloc), at + 1)),
        Kind::Neck => {
            let (body, behind) = goals(alloc, tokens, at + 1)?;
            Ok((true, body, behind))
        }
        _ => Err(Stop::Wrong(tokens.len() - at)),
    }
}

/// The clause that this token begins.
fn clause<'s>(
    alloc: Global,
    first: Token<'s>,
    tokens: &[Token<'s>],
    at: usize,
) -> Result<(RawClause<'s>, usize), Stop>
    requires { Ahead (length tokens.now) at (rest tokens.now at) (token_of first) (rest tokens.now (at + 1)) }
    ensures answer { MatchResult result (λ r. TookClause (rest tokens.now at) (rest tokens.now r.1) (clause_form r.0)) (λ e. NoClause (rest tokens.now at) e) }
    ensures forward { IfOk result (λ r. at < r.1) }
{
    match first.kind {
        Kind::Neck => directive(alloc, first, tokens, at),
        Kind::Atom | Kind::Quoted => rule(alloc, first, tokens, at),
        _ => Err(Stop::Wrong(tokens.len() - at)),
    }
}

/// The query that this token begins.
fn query<'s>(
    alloc: Global,
    first: Token<'s>,
    tokens: &[Token<'s>],
    at: usize,
) -> Result<(RawQuery<'s>, usize), Stop>
    requires { Ahead (length tokens.now) at (rest tokens.now at) (token_of first) (rest tokens.now (at + 1)) }
    ensures answer { MatchResult result (λ r. TookQuery (rest tokens.now at) (rest tokens.now r.1) (query_form r.0)) (λ e. NoQuery (rest tokens.now at) e) }
    ensures forward { IfOk result (λ r. at < r.1) }
{
    let (goals, behind) = goals(alloc, tokens, at)?;
    Ok((
        RawQuery {
            line: first.line,
            goals,
        },
        behind,
    ))
}

/// One piece more.
fn append<T: Drop>(items: &mut Vec<T>, item: T) -> Result<(), Stop>
    ensures { MatchResult result (λ x. items.new.items ≡ items.old.items ++ item ∷ []) (λ e. e ≡ stop.Memory) }
{
    match items.push(item) {
        Ok(_) => Ok(()),
        Err(_) => Err(Stop::Memory),
    }
}

/// Puts the clauses that these tokens are into an empty list.
fn more_clauses<'s>(
    alloc: Global,
    tokens: &[Token<'s>],
    found: &mut Vec<RawClause<'s>>,
) -> Result<(), Stop>
    requires { found.old.items ≡ [] }
    ensures { MatchResult result (λ x. IsText ReadsClause (rest tokens.now 0) (map clause_form found.new.items)) (λ e. NoText ReadsClause (rest tokens.now 0) e) }
{
    let mut left = 0;
    while let Some(first) = peek(tokens, left) {
        let (clause, after) = clause(alloc, first, tokens, left)?;
        append(found, clause)?;
        left = after;
    }
    Ok(())
}

/// The clauses that these tokens are.
pub fn clauses<'s>(alloc: Global, tokens: &[Token<'s>]) -> Result<Vec<RawClause<'s>>, Stop>
    ensures { MatchResult result (λ v. IsText ReadsClause (rest tokens.now 0) (map clause_form v.items)) (λ e. NoText ReadsClause (rest tokens.now 0) e) }
{
    let mut found = Vec::new(alloc);
    match more_clauses(alloc, tokens, &mut found) {
        Ok(()) => Ok(found),
        Err(stop) => {
            drop(found);
            Err(stop)
        }
    }
}

/// Puts the queries that these tokens are into an empty list.
fn more_queries<'s>(
    alloc: Global,
    tokens: &[Token<'s>],
    found: &mut Vec<RawQuery<'s>>,
) -> Result<(), Stop>
    requires { found.old.items ≡ [] }
    ensures { MatchResult result (λ x. IsText ReadsQuery (rest tokens.now 0) (map query_form found.new.items)) (λ e. NoText ReadsQuery (rest tokens.now 0) e) }
{
    let mut left = 0;
    while let Some(first) = peek(tokens, left) {
        let (query, after) = query(alloc, first, tokens, left)?;
        append(found, query)?;
        left = after;
    }
    Ok(())
}

/// The queries that these tokens are.
pub fn queries<'s>(alloc: Global, tokens: &[Token<'s>]) -> Result<Vec<RawQuery<'s>>, Stop>
    ensures { MatchResult result (λ v. IsText ReadsQuery (rest tokens.now 0) (map query_form v.items)) (λ e. NoText ReadsQuery (rest tokens.now 0) e) }
{
    let mut found = Vec::new(alloc);
    match more_queries(alloc, tokens, &mut found) {
        Ok(()) => Ok(found),
        Err(stop) => {
            drop(found);
            Err(stop)
        }
    }
}
