//! Clauses and queries from text.

ghost use Rattle.std.specs.Prelude.{◌≤◌, length, map, IfOk, MatchResult};
ghost use Rattle.cb_model.specs.Forms.{clause_form, query_form};
ghost use Rattle.cb_model.specs.Grammar.{ReadsClause, ReadsQuery, IsReading, Whole};
ghost use Rattle.cb_model.specs.Written.{AreClauses, AreQueries};
ghost use Rattle.cb_syntax.specs.Readings.{IsRefused, IsSame};

use crate::lines::refusal;
use crate::pieces::{clauses, queries};
use crate::token_list::{TokensError, tokens};
use cb_lex::LexError;
use cb_model::{RawClause, RawQuery};
use std::alloc::Global;
use thiserror::Error;

/// Why a text is not read, with the number of a line, counted from 1. The first fault of the text's bytes stands before
/// any other.
#[derive(Clone, Copy, PartialEq, Eq, Debug, Error)]
pub enum ReadError {
    /// The first fault of the bytes.
    #[error(transparent)]
    Lex(LexError),
    /// The line of the first token that nothing in the grammar goes on with.
    #[error("syntax error")]
    Syntax(u32),
    /// The text ends within the last clause or query, which could go on; the line of its first token.
    #[error("unfinished clause")]
    Unfinished(u32),
    /// The line of the first token that stands deeper than 256: `(`, `[` and `~` are open around it.
    #[error("nesting too deep")]
    Deep(u32),
    /// There is no memory for what is read.
    #[error("out of memory")]
    Memory,
}

/// The clauses of a text of at most 4,194,304 bytes, in their order; their names are parts of the text.
pub fn read_clauses<'s>(alloc: Global, source: &'s [u8]) -> Result<Vec<RawClause<'s>>, ReadError>
    requires { length source.now ≤ 4194304 }
    ensures reading { MatchResult result (λ v. IsReading ReadsClause source.now (Whole (map clause_form v.items))) (IsRefused ReadsClause source.now) }
    ensures written { IfOk result (λ v. AreClauses (length source.now) (map clause_form v.items)) }
{
    let found = match tokens(alloc, source) {
        Ok(found) => found,
        Err(fault) => return Err(lexed(fault)),
    };
    match clauses(alloc, &found) {
        Ok(read) => Ok(read),
        Err(stop) => Err(refusal(stop, &found)),
    }
}

/// The queries of a text of at most 4,194,304 bytes, in their order; their names are parts of the text.
pub fn read_queries<'s>(alloc: Global, source: &'s [u8]) -> Result<Vec<RawQuery<'s>>, ReadError>
    requires { length source.now ≤ 4194304 }
    ensures reading { MatchResult result (λ v. IsReading ReadsQuery source.now (Whole (map query_form v.items))) (IsRefused ReadsQuery source.now) }
    ensures written { IfOk result (λ v. AreQueries (length source.now) (map query_form v.items)) }
{
    let found = match tokens(alloc, source) {
        Ok(found) => found,
        Err(fault) => return Err(lexed(fault)),
    };
    match queries(alloc, &found) {
        Ok(read) => Ok(read),
        Err(stop) => Err(refusal(stop, &found)),
    }
}

/// Why there are no tokens.
fn lexed(fault: TokensError) -> ReadError
    ensures { IsSame fault result }
{
    match fault {
        TokensError::Lex(first) => ReadError::Lex(first),
        TokensError::Memory => ReadError::Memory,
    }
}
