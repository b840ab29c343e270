//! The tokens of a text, each lent as a slice of it.
#![tactic(auto)]

ghost use Rattle.std.specs.Prelude.{◌≡◌, ◌+◌, ◌-◌, ◌<◌, ◌≤◌, ◌^◌, ◌∷◌, [], Ok, Err, Some, None, length, take, drop, List, Option, IfOk, IfErr, IfSome, IfNone};
ghost use Rattle.cb_model.specs.Tokens.{Fault, name_of};
ghost use Rattle.cb_lex.specs.Laws.{OneTokenList};

mod bytes;
mod scan;

use bytes::skip;
pub use cb_model::Kind;
use scan::token_ahead;
use std::marker::Model;
use thiserror::Error;

/// A token: its kind, its text, which is `source[start..stop]`, and the line of its first byte, counted from 1.
#[derive(Clone, Copy)]
pub struct Token<'s> {
    pub kind: Kind,
    pub text: &'s [u8],
    pub start: u32,
    pub stop: u32,
    pub line: u32,
}

impl<'s> Token<'s> {
    ghost use Rattle.cb_lex.specs.View.{token_of};

    /// The name that the token writes: its text, for a quoted atom without the quotes.
    pub fn name(&self) -> &'s [u8]
        ensures { result.now ≡ name_of (token_of self.now) }
    {
        match self.kind {
            Kind::Quoted => match self.text {
                [_, name @ .., _] => name,
                _ => &[],
            },
            _ => self.text,
        }
    }
}

/// Why a text has no further token, with the offset of the byte where the fault begins, counted from 0.
#[derive(Clone, Copy, PartialEq, Eq, Debug, Error)]
pub enum LexError {
    /// No token, layout or comment begins here.
    #[error("unexpected byte")]
    Byte(u32),
    /// The integer that begins here is outside the range of `i64`.
    #[error("number out of range")]
    Number(u32),
    /// The quote that begins here is not closed before a byte outside 32 to 126 or the end of the text.
    #[error("unclosed quote")]
    Quote(u32),
}

/// Reads the tokens of a text, from its beginning to its end or its first fault.
#[derive(Drop)]
pub struct Lexer<'s> {
    source: &'s [u8],
    at: usize,
    line: u32,
    fault: Option<LexError>,
}

impl<'s> Model for Lexer<'s> {
    ghost use Rattle.std.specs.Prelude.{◌+◌, ◌≤◌, length};
    ghost use Rattle.cb_lex.specs.Place.{Place};

    ghost Value = { Place };

    ghost view = { λ a. record { source = a.source.now; at = a.at; line = a.line; fault = a.fault } };

    ghost invariant = { λ a. (a.at ≤ length a.source.now) × (length a.source.now ≤ 4194304) × (a.line ≤ a.at + 1) };
}

impl<'s> Lexer<'s> {
    ghost use Rattle.cb_model.specs.Tokens as spec;
    ghost use Rattle.cb_lex.specs.View.{token_of};
    ghost use Rattle.cb_lex.specs.Place.{Place, Left, IsFirst, IsSpan};
    ghost use Rattle.cb_lex.specs.Faults.{fault_of};

    /// A lexer at the beginning of a text of at most 4,194,304 bytes.
    pub fn new(source: &'s [u8]) -> Lexer<'s>
        requires { length source.now ≤ 4194304 }
        ensures { result ≡ record { source = source.now; at = 0; line = 1; fault = None } }
    {
        Lexer {
            source,
            at: 0,
            line: 1,
            fault: None,
        }
    }

    /// The next token, the fault that stands before one, or `None` at the end. After a fault the same fault again.
    pub fn next(&mut self) -> Option<Result<Token<'s>, LexError>>
        // What is left is a token and what is left behind it.
        ensures token { IfSome result (λ r. IfOk r (λ t. IsFirst self.old (token_of t) self.new)) }
        ensures span { IfSome result (λ r. IfOk r (λ t. IsSpan self.old (token_of t) self.new)) }

        // A fault is the first, and stays.
        ensures fault { IfSome result (λ r. IfErr r (λ e. Left self.old [] (Some (fault_of e)))) }
        ensures kept { IfSome result (λ r. IfErr r (λ e. self.new.fault ≡ Some e)) }
        ensures again { IfSome self.old.fault (λ e. result ≡ Some (Err e)) }

        ensures end { IfNone result (Left self.old [] None) }
        ensures at_end { IfNone result (self.new.at ≡ length self.new.source) }

        ensures source { self.new.source ≡ self.old.source }
        ensures within { self.new.at ≤ length self.new.source }
    {
        if let Some(fault) = self.fault {
            return Some(Err(fault));
        }
        let source = self.source;
        let (start, line) = skip(source, self.at, self.line);
        self.at = start;
        self.line = line;
        if start == source.len() {
            return None;
        }
        match token_ahead(&source[start..], start as u32) {
            Ok((kind, length)) => {
                let stop = start + length;
                self.at = stop;
                Some(Ok(Token {
                    kind,
                    text: &source[start..stop],
                    start: start as u32,
                    stop: stop as u32,
                    line,
                }))
            }
            Err(fault) => {
                self.fault = Some(fault);
                Some(Err(fault))
            }
        }
    }
}

/// A text has one list of tokens, and one fault or none.
pub fn one_token_list()
    ensures { OneTokenList }
{}
