//! Texts of expressions.

use cb_model::Expr;
use std::io::Write;
use std::test::Fail;

/// Appends an expression: `zero` or `one`, `c` or `v` with the number of a constant or a variable, or an operator before
/// its operands.
#[cycle(exprs)]
pub fn push_expr(out: &mut Vec<u8>, expr: &Expr) -> Result<(), Fail> {
    match expr {
        Expr::Zero => write!(out, "zero")?,
        Expr::One => write!(out, "one")?,
        Expr::Const(number) => write!(out, "c{number}")?,
        Expr::Var(number) => write!(out, "v{number}")?,
        Expr::Not(operand) => {
            write!(out, "not ")?;
            push_expr(out, operand.get())?;
        }
        Expr::And(operands) => push_exprs(out, "and", operands.as_slice())?,
        Expr::Xor(operands) => push_exprs(out, "xor", operands.as_slice())?,
        Expr::Or(operands) => push_exprs(out, "or", operands.as_slice())?,
    }
    Ok(())
}

/// Appends a word and expressions in parentheses, each with a space behind it.
#[cycle(exprs)]
pub fn push_exprs(out: &mut Vec<u8>, word: &str, exprs: &[Expr]) -> Result<(), Fail> {
    write!(out, "{word}(")?;
    for expr in exprs {
        push_expr(out, expr)?;
        write!(out, " ")?;
    }
    write!(out, ")")?;
    Ok(())
}
