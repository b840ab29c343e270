//! The tokens of a text.

ghost use Rattle.std.specs.Prelude.{◌≤◌, length};

use cb_forms::texts::push_debug;
use cb_lex::{Kind, LexError, Lexer, Token};
use cb_trial::text::{push, push_number};
use std::alloc::Global;
use std::test::Fail;

/// Writes the tokens of a text, each as its kind, its place and line, its text, and its name where that is another; then
/// what stands behind them, twice.
pub fn tell(alloc: Global, source: &[u8], out: &mut Vec<u8>) -> Result<(), Fail>
    requires { length source.now ≤ 4194304 }
{
    let mut lexer = Lexer::new(source);
    let mut over = false;
    for _ in 0..4_194_306 {
        match lexer.next() {
            Some(Ok(token)) => push_token(alloc, out, token)?,
            other => {
                push_end(alloc, out, other)?;
                if over {
                    return push(out, "\n");
                }
                over = true;
                push(out, " ")?;
            }
        }
    }
    Ok(())
}

// Appends what stands behind the tokens.
fn push_end(
    alloc: Global,
    out: &mut Vec<u8>,
    end: Option<Result<Token<'_>, LexError>>,
) -> Result<(), Fail> {
    match end {
        Some(Err(fault)) => push_debug(alloc, out, &fault),
        _ => push(out, "end"),
    }
}

// Appends a token.
fn push_token(alloc: Global, out: &mut Vec<u8>, token: Token<'_>) -> Result<(), Fail> {
    push_place(alloc, out, token)?;
    out.extend_from_slice(token.text)?;
    if token.kind == Kind::Quoted {
        push(out, " is ")?;
        out.extend_from_slice(token.name())?;
    }
    push(out, "; ")
}

// Appends the kind of a token, its place and its line.
fn push_place(alloc: Global, out: &mut Vec<u8>, token: Token<'_>) -> Result<(), Fail> {
    push_debug(alloc, out, &token.kind)?;
    push(out, " ")?;
    push_number(alloc, out, i64::from(token.start))?;
    push(out, ":")?;
    push_number(alloc, out, i64::from(token.line))?;
    push(out, " ")
}
