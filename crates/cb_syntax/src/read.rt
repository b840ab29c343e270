//! Terms from tokens, by recursive descent (Lewis and Stearns, 1968): each function looks one token ahead.

ghost use Rattle.std.specs.Prelude.{◌≡◌, ◌<◌, ◌≤◌, ◌+◌, ◌↔◌, [], ◌∷◌, ◌++◌, length, map, option_map, IsTrue, IfOk, MatchOption, MatchResult, MatchBool};
ghost use Rattle.cb_model.specs.Forms.{form_of, forms_of, list_form};
ghost use Rattle.cb_model.specs.Grammar.{Forms, IsAtom, op_kind, Plus as plus, chain as chain_of};
ghost use Rattle.cb_model.specs.Tokens.{name_of};
ghost use Rattle.cb_lex.specs.View.{token_of};
ghost use Rattle.cb_syntax.specs.Machine.{Chain as ChainItem, Operands as OperandsItem};
ghost use Rattle.cb_syntax.specs.Steps.{rest, op_of, inner, Stops, TookChain, TookInner, TookOperand, NoOperand, TookCall, NoCall, TookTerms, NoTerms, TookList, NoList, TookListEnd, NoListEnd, TookOperands, TookLonger, NoKind, Ahead, AheadOf, NotAhead, joined_form};
ghost use Rattle.cb_syntax.specs.declared.read.Stop.TheVariants as stop;

use cb_lex::Token;
use cb_model::{Kind, RawTerm};
use sqlite_items::{Boxed, Items, at as item_at};
use std::alloc::Global;

/// The deepest nesting that is read.
pub const LIMIT: u32 = 256;

/// Why no text was read. A number counts the tokens from the bad one on.
#[derive(Clone, Copy)]
pub enum Stop {
    Memory,
    Ended,
    Wrong(usize),
    Deep(usize),
}

/// The operators of chains, the loosest first.
#[derive(Clone, Copy)]
pub enum Operator {
    Plus,
    Hash,
    Star,
}

impl Operator {
    /// The token of the operator.
    fn kind(self) -> Kind
        ensures { result ≡ op_kind (op_of self) }
    {
        match self {
            Operator::Plus => Kind::Plus,
            Operator::Hash => Kind::Hash,
            Operator::Star => Kind::Star,
        }
    }
}

/// The token at a place.
pub fn peek<'s>(tokens: &[Token<'s>], at: usize) -> Option<Token<'s>>
    ensures { MatchOption result (rest tokens.now at ≡ []) (λ t. Ahead (length tokens.now) at (rest tokens.now at) (token_of t) (rest tokens.now (at + 1))) }
{
    match item_at(tokens, at) {
        Some(token) => Some(*token),
        None => None,
    }
}

/// Whether a token of this kind stands at a place.
pub fn stands(kind: Kind, tokens: &[Token<'_>], at: usize) -> bool
    ensures { MatchBool result (AheadOf kind (length tokens.now) at (rest tokens.now at) (rest tokens.now (at + 1))) (NoKind kind (rest tokens.now at)) }
{
    match peek(tokens, at) {
        Some(token) => token.kind == kind,
        None => false,
    }
}

/// The place behind a token of this kind.
pub fn expect(kind: Kind, tokens: &[Token<'_>], at: usize) -> Result<usize, Stop>
    ensures { MatchResult result (λ r. (r ≡ at + 1) × AheadOf kind (length tokens.now) at (rest tokens.now at) (rest tokens.now r)) (NotAhead kind (rest tokens.now at)) }
{
    match peek(tokens, at) {
        Some(token) => {
            if token.kind == kind {
                Ok(at + 1)
            } else {
                Err(Stop::Wrong(tokens.len() - at))
            }
        }
        None => Err(Stop::Ended),
    }
}

/// An operand of the tightest chain: `~` and an operand, or a variable, an integer, a call, a list or a group.
#[cycle(reader)]
pub fn operand<'s>(
    alloc: Global,
    tokens: &[Token<'s>],
    at: usize,
    depth: u32,
) -> Result<(RawTerm<'s>, usize), Stop>
    requires { depth ≤ 256 }
    ensures answer { MatchResult result (λ r. TookOperand depth (rest tokens.now at) (rest tokens.now r.1) (form_of r.0)) (λ e. NoOperand depth (rest tokens.now at) e) }
    ensures forward { IfOk result (λ r. at < r.1) }
{
    let Some(first) = peek(tokens, at) else {
        return Err(Stop::Ended);
    };
    match first.kind {
        Kind::Variable => Ok((RawTerm::Variable(first.text), at + 1)),
        Kind::Integer(value) => Ok((RawTerm::Integer(value), at + 1)),
        Kind::Tilde => {
            if depth == LIMIT {
                return Err(Stop::Deep(tokens.len() - at));
            }
            let (negated, after) = operand(alloc, tokens, at + 1, depth + 1)?;
            Ok((RawTerm::Not(boxed(alloc, negated)?), after))
        }
        Kind::LeftParen => {
            if depth == LIMIT {
                return Err(Stop::Deep(tokens.len() - at));
            }
            let (group, after) = chain(alloc, Operator::Plus, tokens, at + 1, depth + 1)?;
            match expect(Kind::RightParen, tokens, after) {
                Ok(behind) => Ok((group, behind)),
                Err(stop) => {
                    drop(group);
                    Err(stop)
                }
            }
        }
        Kind::LeftBracket => {
            if depth == LIMIT {
                return Err(Stop::Deep(tokens.len() - at));
            }
            list(alloc, tokens, at + 1, depth + 1)
        }
        Kind::Atom | Kind::Quoted => call(alloc, first, tokens, at + 1, depth),
        _ => Err(Stop::Wrong(tokens.len() - at)),
    }
}

/// What follows an atom: its arguments, or nothing.
#[cycle(reader)]
pub fn call<'s>(
    alloc: Global,
    atom: Token<'s>,
    tokens: &[Token<'s>],
    at: usize,
    depth: u32,
) -> Result<(RawTerm<'s>, usize), Stop>
    requires limit { depth ≤ 256 }
    requires atom { IsAtom (token_of atom) }
    ensures answer { MatchResult result (λ r. TookCall depth (token_of atom.entry) (rest tokens.now at) (rest tokens.now r.1) (form_of r.0)) (λ e. NoCall depth (rest tokens.now at) e) }
    ensures forward { IfOk result (λ r. at ≤ r.1) }
{
    if !stands(Kind::LeftParen, tokens, at) {
        return Ok((RawTerm::Name(atom.name(), Items::new(alloc)), at));
    }
    if depth == LIMIT {
        return Err(Stop::Deep(tokens.len() - at));
    }
    let (arguments, after) = terms(alloc, tokens, at + 1, depth + 1)?;
    match expect(Kind::RightParen, tokens, after) {
        Ok(behind) => Ok((RawTerm::Name(atom.name(), arguments), behind)),
        Err(stop) => {
            drop(arguments);
            Err(stop)
        }
    }
}

/// Terms with commas between them.
#[cycle(reader)]
pub fn terms<'s>(
    alloc: Global,
    tokens: &[Token<'s>],
    at: usize,
    depth: u32,
) -> Result<(Items<RawTerm<'s>>, usize), Stop>
    requires { depth ≤ 256 }
    ensures answer { MatchResult result (λ r. TookTerms depth (rest tokens.now at) (rest tokens.now r.1) (forms_of (map form_of r.0))) (λ e. NoTerms depth (rest tokens.now at) e) }
    ensures forward { IfOk result (λ r. at < r.1) }
{
    let mut found = Items::new(alloc);
    match more_terms(alloc, tokens, at, depth, &mut found) {
        Ok(after) => Ok((found, after)),
        Err(stop) => {
            drop(found);
            Err(stop)
        }
    }
}

/// Puts terms with commas between them into an empty list, and gives the place behind them.
#[cycle(reader)]
fn more_terms<'s>(
    alloc: Global,
    tokens: &[Token<'s>],
    at: usize,
    depth: u32,
    found: &mut Items<RawTerm<'s>>,
) -> Result<usize, Stop>
    requires limit { depth ≤ 256 }
    requires empty { found.old ≡ [] }
    ensures answer { MatchResult result (λ r. TookTerms depth (rest tokens.now at) (rest tokens.now r) (forms_of (map form_of found.new))) (λ e. NoTerms depth (rest tokens.now at) e) }
    ensures forward { IfOk result (λ r. at < r) }
{
    let mut left = at;
    loop {
        let (term, after) = chain(alloc, Operator::Plus, tokens, left, depth)?;
        push(found, term)?;
        if !stands(Kind::Comma, tokens, after) {
            return Ok(after);
        }
        left = after + 1;
    }
}

/// The rest of a list behind its bracket.
#[cycle(reader)]
fn list<'s>(
    alloc: Global,
    tokens: &[Token<'s>],
    at: usize,
    depth: u32,
) -> Result<(RawTerm<'s>, usize), Stop>
    requires { depth ≤ 256 }
    ensures answer { MatchResult result (λ r. TookList depth (rest tokens.now at) (rest tokens.now r.1) (form_of r.0)) (λ e. NoList depth (rest tokens.now at) e) }
    ensures forward { IfOk result (λ r. at < r.1) }
{
    if stands(Kind::RightBracket, tokens, at) {
        return Ok((RawTerm::List(Items::new(alloc), None), at + 1));
    }
    let (elements, after) = terms(alloc, tokens, at, depth)?;
    list_end(alloc, elements, tokens, after, depth)
}

/// The end of a list behind its elements: a tail, or none.
#[cycle(reader)]
fn list_end<'s>(
    alloc: Global,
    elements: Items<RawTerm<'s>>,
    tokens: &[Token<'s>],
    at: usize,
    depth: u32,
) -> Result<(RawTerm<'s>, usize), Stop>
    requires { depth ≤ 256 }
    ensures answer { MatchResult result (λ r. TookListEnd depth (forms_of (map form_of elements.entry)) (rest tokens.now at) (rest tokens.now r.1) (form_of r.0)) (λ e. NoListEnd depth (rest tokens.now at) e) }
    ensures forward { IfOk result (λ r. at < r.1) }
{
    match tail(alloc, tokens, at, depth) {
        Ok((tail, behind)) => Ok((RawTerm::List(elements, tail), behind)),
        Err(stop) => {
            drop(elements);
            Err(stop)
        }
    }
}

/// The tail of a list behind its elements, if there is one, and the place behind the list's bracket.
#[cycle(reader)]
fn tail<'s>(
    alloc: Global,
    tokens: &[Token<'s>],
    at: usize,
    depth: u32,
) -> Result<(Option<Boxed<RawTerm<'s>>>, usize), Stop>
    requires { depth ≤ 256 }
    ensures answer { MatchResult result (λ r. (xs : Forms) → TookListEnd depth xs (rest tokens.now at) (rest tokens.now r.1) (list_form xs (option_map form_of r.0))) (λ e. NoListEnd depth (rest tokens.now at) e) }
    ensures forward { IfOk result (λ r. at < r.1) }
{
    let Some(next) = peek(tokens, at) else {
        return Err(Stop::Ended);
    };
    match next.kind {
        Kind::RightBracket => Ok((None, at + 1)),
        Kind::Bar => {
            let (tail, after) = chain(alloc, Operator::Plus, tokens, at + 1, depth)?;
            match expect(Kind::RightBracket, tokens, after) {
                Ok(behind) => Ok((Some(boxed(alloc, tail)?), behind)),
                Err(stop) => {
                    drop(tail);
                    Err(stop)
                }
            }
        }
        _ => Err(Stop::Wrong(tokens.len() - at)),
    }
}

/// Operands with one operator between them, or a single operand.
#[cycle(reader)]
pub fn chain<'s>(
    alloc: Global,
    op: Operator,
    tokens: &[Token<'s>],
    at: usize,
    depth: u32,
) -> Result<(RawTerm<'s>, usize), Stop>
    requires { depth ≤ 256 }
    ensures answer { MatchResult result (λ r. TookChain (op_of op) depth (rest tokens.now at) (rest tokens.now r.1) (form_of r.0)) (λ e. Stops (ChainItem (op_of op)) depth (rest tokens.now at) e) }
    ensures forward { IfOk result (λ r. at < r.1) }
{
    let (first, after) = tighter(alloc, op, tokens, at, depth)?;
    longer(alloc, op, first, tokens, after, depth)
}

/// A chain of this operator behind its first operand.
#[cycle(reader)]
pub fn longer<'s>(
    alloc: Global,
    op: Operator,
    first: RawTerm<'s>,
    tokens: &[Token<'s>],
    at: usize,
    depth: u32,
) -> Result<(RawTerm<'s>, usize), Stop>
    requires { depth ≤ 256 }
    ensures answer { MatchResult result (λ r. TookLonger (op_of op) depth (form_of first.entry) (rest tokens.now at) (rest tokens.now r.1) (form_of r.0)) (λ e. Stops (OperandsItem (op_of op)) depth (rest tokens.now at) e) }
    ensures forward { IfOk result (λ r. at ≤ r.1) }
{
    let (others, behind) = match operands(alloc, op, tokens, at, depth) {
        Ok(found) => found,
        Err(stop) => {
            drop(first);
            return Err(stop);
        }
    };
    let term = chained(alloc, op, first, others)?;
    Ok((term, behind))
}

/// An operand of a chain of this operator.
#[cycle(reader)]
fn tighter<'s>(
    alloc: Global,
    op: Operator,
    tokens: &[Token<'s>],
    at: usize,
    depth: u32,
) -> Result<(RawTerm<'s>, usize), Stop>
    requires { depth ≤ 256 }
    ensures answer { MatchResult result (λ r. TookInner (op_of op) depth (rest tokens.now at) (rest tokens.now r.1) (form_of r.0)) (λ e. Stops (inner (op_of op)) depth (rest tokens.now at) e) }
    ensures forward { IfOk result (λ r. at < r.1) }
{
    match op {
        Operator::Plus => chain(alloc, Operator::Hash, tokens, at, depth),
        Operator::Hash => chain(alloc, Operator::Star, tokens, at, depth),
        Operator::Star => operand(alloc, tokens, at, depth),
    }
}

/// The operands behind the first.
#[cycle(reader)]
fn operands<'s>(
    alloc: Global,
    op: Operator,
    tokens: &[Token<'s>],
    at: usize,
    depth: u32,
) -> Result<(Items<RawTerm<'s>>, usize), Stop>
    requires { depth ≤ 256 }
    ensures answer { MatchResult result (λ r. TookOperands (op_of op) depth (rest tokens.now at) (rest tokens.now r.1) (forms_of (map form_of r.0))) (λ e. Stops (OperandsItem (op_of op)) depth (rest tokens.now at) e) }
    ensures forward { IfOk result (λ r. at ≤ r.1) }
{
    let mut found = Items::new(alloc);
    match more_operands(alloc, op, tokens, at, depth, &mut found) {
        Ok(behind) => Ok((found, behind)),
        Err(stop) => {
            drop(found);
            Err(stop)
        }
    }
}

/// Puts the operands behind the first into an empty list, and gives the place behind them.
#[cycle(reader)]
fn more_operands<'s>(
    alloc: Global,
    op: Operator,
    tokens: &[Token<'s>],
    at: usize,
    depth: u32,
    found: &mut Items<RawTerm<'s>>,
) -> Result<usize, Stop>
    requires limit { depth ≤ 256 }
    requires empty { found.old ≡ [] }
    ensures answer { MatchResult result (λ r. TookOperands (op_of op) depth (rest tokens.now at) (rest tokens.now r) (forms_of (map form_of found.new))) (λ e. Stops (OperandsItem (op_of op)) depth (rest tokens.now at) e) }
    ensures forward { IfOk result (λ r. at ≤ r) }
{
    let mut left = at;
    while stands(op.kind(), tokens, left) {
        let (term, after) = tighter(alloc, op, tokens, left + 1, depth)?;
        push(found, term)?;
        left = after;
    }
    Ok(left)
}

/// A chain of these operands.
fn chained<'s>(
    alloc: Global,
    op: Operator,
    first: RawTerm<'s>,
    others: Items<RawTerm<'s>>,
) -> Result<RawTerm<'s>, Stop>
    ensures { MatchResult result (λ x. form_of x ≡ chain_of (op_of op) (form_of first.entry) (forms_of (map form_of others.entry))) (λ e. e ≡ stop.Memory) }
{
    if others.is_empty() {
        return Ok(first);
    }
    let mut all = Items::new(alloc);
    push(&mut all, first)?;
    match all.append(others) {
        Ok(_) => Ok(joined(op, all)),
        Err(_) => Err(Stop::Memory),
    }
}

/// These operands with an operator between them.
fn joined<'s>(op: Operator, operands: Items<RawTerm<'s>>) -> RawTerm<'s>
    ensures { form_of result ≡ joined_form (op_of op) (forms_of (map form_of operands.entry)) }
{
    match op {
        Operator::Plus => RawTerm::Or(operands),
        Operator::Hash => RawTerm::Xor(operands),
        Operator::Star => RawTerm::And(operands),
    }
}

/// One item more.
pub fn push<T: Drop>(items: &mut Items<T>, item: T) -> Result<(), Stop>
    ensures { MatchResult result (λ x. items.new ≡ items.old ++ item ∷ []) (λ e. e ≡ stop.Memory) }
{
    match items.push(item) {
        Ok(_) => Ok(()),
        Err(_) => Err(Stop::Memory),
    }
}

/// In a box.
fn boxed<T: Drop>(alloc: Global, item: T) -> Result<Boxed<T>, Stop>
    ensures { MatchResult result (λ x. x ≡ item) (λ e. e ≡ stop.Memory) }
{
    match Boxed::new(alloc, item) {
        Ok(b) => Ok(b),
        Err(_) => Err(Stop::Memory),
    }
}
