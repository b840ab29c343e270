//! All tokens of a text.

ghost use Rattle.std.specs.Prelude.{◌≤◌, None, length, vec_len, All, IfOk, IfErr};
ghost use Rattle.cb_model.specs.Tokens.{Lexes};
ghost use Rattle.cb_lex.specs.View.{token_of, tokens_of};
ghost use Rattle.cb_syntax.specs.TokenList.{HasFault, IsWithin};

use cb_lex::{LexError, Lexer, Token};
use std::alloc::Global;

/// Why a text has no list of tokens.
#[derive(Clone, Copy)]
pub enum TokensError {
    /// The first fault of the text.
    Lex(LexError),
    /// There is no memory for the tokens.
    Memory,
}

/// All tokens of a text of at most 4,194,304 bytes, in their order.
pub fn tokens<'s>(alloc: Global, source: &'s [u8]) -> Result<Vec<Token<'s>>, TokensError>
    requires { length source.now ≤ 4194304 }
    ensures ok { IfOk result (λ v. Lexes 0 1 source.now (tokens_of v.items) None) }
    ensures few { IfOk result (λ v. vec_len v ≤ length source.now) }
    ensures within { IfOk result (λ v. All (λ t. IsWithin source.now (token_of t)) v.items) }
    ensures err { IfErr result (HasFault source.now) }
{
    let mut lexer = Lexer::new(source);
    let mut tokens = Vec::new(alloc);
    while let Some(next) = lexer.next() {
        match next {
            Ok(token) => tokens.push(token).map_err(|_| TokensError::Memory)?,
            Err(fault) => return Err(TokensError::Lex(fault)),
        }
    }
    Ok(tokens)
}
