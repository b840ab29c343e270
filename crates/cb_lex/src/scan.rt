//! The token at the front of a text.

ghost use Rattle.std.specs.Prelude.{◌≡◌, ◌<◌, ◌++◌, None, [], ◌∷◌, length, codes, pos, neg_ℤ, FitsSigned, MatchOption};
ghost use Rattle.std.specs.Int.{w64};
ghost use Rattle.std.specs.Option.{SomeIff};
ghost use Rattle.cb_model.specs.Text.{is_digit};
ghost use Rattle.cb_model.specs.Tokens.{marks, mark_named};
ghost use Rattle.cb_lex.specs.Scans.{HeadPasses, IsSkipped, Scans};

use crate::LexError;
use crate::bytes::{digits, is_capital, is_digit, is_small, quotable_run, word_run};
use cb_model::Kind;

/// The kind and the length of the token at the front of a text, or the fault there. The place is that of the text.
pub fn token_ahead(rest: &[u8], at: u32) -> Result<(Kind, usize), LexError>
    requires some { 0 < length rest.now }
    requires skipped { IsSkipped rest.now }
    ensures { Scans at rest.now result }
{
    let first = rest[0];
    let tail = &rest[1..];
    if is_capital(first) {
        return Ok((Kind::Variable, 1 + word_run(tail)));
    }
    if is_small(first) {
        return Ok((Kind::Atom, 1 + word_run(tail)));
    }
    if is_digit(first) {
        return number(rest, at);
    }
    match first {
        b'\'' => quoted(tail, at),
        b'-' => negative(tail, at),
        b':' => neck(tail, at),
        _ => match mark(first) {
            Some(kind) => Ok((kind, 1)),
            None => Err(LexError::Byte(at)),
        },
    }
}

/// The integer that a digit begins.
fn number(rest: &[u8], at: u32) -> Result<(Kind, usize), LexError>
    requires { HeadPasses is_digit rest.now }
    ensures { Scans at rest.now result }
{
    let (count, magnitude) = digits(rest);
    match positive(magnitude) {
        Some(value) => Ok((Kind::Integer(value), count)),
        None => Err(LexError::Number(at)),
    }
}

/// The integer that `-` begins, before this tail.
fn negative(tail: &[u8], at: u32) -> Result<(Kind, usize), LexError>
    ensures { Scans at (codes "-" ++ tail.now) result }
{
    let (count, magnitude) = digits(tail);
    if count == 0 {
        return Err(LexError::Byte(at));
    }
    match negated(magnitude) {
        Some(value) => Ok((Kind::Integer(value), 1 + count)),
        None => Err(LexError::Number(at)),
    }
}

/// The number as an `i64`.
fn positive(magnitude: Option<u64>) -> Option<i64>
    ensures { MatchOption magnitude (result ≡ None) (λ n. SomeIff result (FitsSigned w64 (pos n)) (pos n)) }
{
    i64::try_from(magnitude?).ok()
}

/// The number with a minus sign as an `i64`.
fn negated(magnitude: Option<u64>) -> Option<i64>
    ensures { MatchOption magnitude (result ≡ None) (λ n. SomeIff result (FitsSigned w64 (neg_ℤ (pos n))) (neg_ℤ (pos n))) }
{
    0i64.checked_sub_unsigned(magnitude?)
}

/// The quoted atom that a quote begins, before this tail.
fn quoted(tail: &[u8], at: u32) -> Result<(Kind, usize), LexError>
    ensures { Scans at (codes "'" ++ tail.now) result }
{
    let count = quotable_run(tail);
    if count < tail.len() && tail[count] == b'\'' {
        Ok((Kind::Quoted, count + 2))
    } else {
        Err(LexError::Quote(at))
    }
}

/// The `:-` that a colon begins, before this tail.
fn neck(tail: &[u8], at: u32) -> Result<(Kind, usize), LexError>
    ensures { Scans at (codes ":" ++ tail.now) result }
{
    if !tail.is_empty() && tail[0] == b'-' {
        Ok((Kind::Neck, 2))
    } else {
        Err(LexError::Byte(at))
    }
}

/// The kind of a token of this one byte alone, where it is neither a letter nor a digit.
fn mark(byte: u8) -> Option<Kind>
    ensures { result ≡ mark_named marks (byte ∷ []) }
{
    match byte {
        b'(' => Some(Kind::LeftParen),
        b')' => Some(Kind::RightParen),
        b'[' => Some(Kind::LeftBracket),
        b']' => Some(Kind::RightBracket),
        b'|' => Some(Kind::Bar),
        b',' => Some(Kind::Comma),
        b'.' => Some(Kind::Dot),
        b'=' => Some(Kind::Equals),
        b'~' => Some(Kind::Tilde),
        b'*' => Some(Kind::Star),
        b'#' => Some(Kind::Hash),
        b'+' => Some(Kind::Plus),
        b'!' => Some(Kind::Bang),
        _ => None,
    }
}
