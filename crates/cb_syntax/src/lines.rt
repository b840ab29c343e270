//! The lines that refusals name.

ghost use Rattle.std.specs.Prelude.{◌≡◌, MatchBool, length};
ghost use Rattle.cb_model.specs.Grammar.{clause_start, line_of};
ghost use Rattle.cb_model.specs.declared.Kind.TheVariants as kind;
ghost use Rattle.cb_lex.specs.View.{tokens_of};
ghost use Rattle.cb_syntax.specs.Lines.{IsPlace, Names};

use crate::read::{Stop, peek};
use crate::texts::ReadError;
use cb_lex::Token;
use cb_model::Kind;

/// The line of a token, or 1 behind the last.
fn line(tokens: &[Token<'_>], at: usize) -> u32
    ensures { result ≡ line_of (tokens_of tokens.now) at }
{
    match peek(tokens, at) {
        Some(token) => token.line,
        None => 1,
    }
}

/// The place of the first token behind the last dot.
fn last_start(tokens: &[Token<'_>]) -> usize
    ensures { result ≡ clause_start 0 (tokens_of tokens.now) 0 (length (tokens_of tokens.now)) }
{
    let mut start = 0;
    let mut at = 0;
    while let Some(token) = peek(tokens, at) {
        at += 1;
        if token.kind == Kind::Dot {
            start = at;
        }
    }
    start
}

/// What made the reading stop, with its line.
pub fn refusal(stop: Stop, tokens: &[Token<'_>]) -> ReadError
    requires { IsPlace (length (tokens_of tokens.now)) stop }
    ensures { Names (tokens_of tokens.now) stop result }
{
    match stop {
        Stop::Memory => ReadError::Memory,
        Stop::Ended => ReadError::Unfinished(line(tokens, last_start(tokens))),
        Stop::Wrong(left) => ReadError::Syntax(line(tokens, tokens.len() - left)),
        Stop::Deep(left) => ReadError::Deep(line(tokens, tokens.len() - left)),
    }
}
