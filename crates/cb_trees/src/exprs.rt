//! Terms at Boolean places and at places for buses.

ghost use Rattle.std.specs.Prelude.{◌≡◌, ◌++◌, true, map, None, IfOk, OnOk};
ghost use Rattle.cb_model.specs.Written.{is_written, are_written};
ghost use Rattle.cb_model.specs.Forms.{form_of, forms_of};
ghost use Rattle.cb_model.specs.Sorts.{apart, apart_all, bit_expr, as_expr, as_exprs, as_bus};
ghost use Rattle.cb_trees.specs.Numbered.{numbering_of};

use crate::numbers::Numbers;
use crate::skipped::{skip, skip_all};
use cb_model::{Expr, RawTerm};
use sqlite_items::{Boxed, Items};
use std::alloc::{AllocError, Global};

/// An integer at a Boolean place.
fn bit(value: i64) -> Expr
    ensures { result ≡ bit_expr value }
{
    if value == 0 { Expr::Zero } else { Expr::One }
}

/// What a term at a Boolean place stands for; `own` counts the variables before it that are written `_`.
#[cycle(exprs)]
pub(crate) fn expr<'s>(
    alloc: Global,
    numbers: &Numbers<'_, 's>,
    term: &RawTerm<'s>,
    own: &mut usize,
) -> Result<Expr, AllocError>
    requires { is_written (form_of term.now) ≡ true }
    ensures expr { IfOk result (λ e. e ≡ as_expr (numbering_of numbers.now) (apart (form_of term.now) own.old).0) }
    ensures own { OnOk result (own.new ≡ (apart (form_of term.now) own.old).1) }
{
    match term {
        RawTerm::Variable(name) => Ok(Expr::Var(numbers.variable(*name, own)?)),
        RawTerm::Integer(value) => Ok(bit(*value)),
        RawTerm::Name(name, args) => {
            skip_all(args.as_slice(), own)?;
            Ok(Expr::Const(numbers.constant(*name)?))
        }
        RawTerm::List(_, _) => {
            skip(term, own)?;
            Ok(Expr::Zero)
        }
        RawTerm::Not(operand) => {
            let operand = expr(alloc, numbers, operand.get(), own)?;
            Ok(Expr::Not(Boxed::new(alloc, operand)?))
        }
        RawTerm::And(operands) => Ok(Expr::And(exprs(alloc, numbers, operands.as_slice(), own)?)),
        RawTerm::Xor(operands) => Ok(Expr::Xor(exprs(alloc, numbers, operands.as_slice(), own)?)),
        RawTerm::Or(operands) => Ok(Expr::Or(exprs(alloc, numbers, operands.as_slice(), own)?)),
    }
}

/// What terms at Boolean places stand for.
#[cycle(exprs)]
fn exprs<'s>(
    alloc: Global,
    numbers: &Numbers<'_, 's>,
    terms: &[RawTerm<'s>],
    own: &mut usize,
) -> Result<Items<Expr>, AllocError>
    requires { are_written (forms_of (map form_of terms.now)) ≡ true }
    ensures exprs { IfOk result (λ es. es ≡ as_exprs (numbering_of numbers.now) (apart_all (forms_of (map form_of terms.now)) own.old).0) }
    ensures own { OnOk result (own.new ≡ (apart_all (forms_of (map form_of terms.now)) own.old).1) }
{
    let mut all = Items::new(alloc);
    for term in terms {
        all.push(expr(alloc, numbers, term, own)?)?;
    }
    Ok(all)
}

/// Adds what the elements of a bus stand for.
fn add_bits<'s>(
    alloc: Global,
    numbers: &Numbers<'_, 's>,
    terms: &[RawTerm<'s>],
    own: &mut usize,
    bits: &mut Items<Expr>,
) -> Result<(), AllocError>
    requires { are_written (forms_of (map form_of terms.now)) ≡ true }
    ensures bits { OnOk result (bits.new ≡ bits.old ++ as_exprs (numbering_of numbers.now) (apart_all (forms_of (map form_of terms.now)) own.old).0) }
    ensures own { OnOk result (own.new ≡ (apart_all (forms_of (map form_of terms.now)) own.old).1) }
{
    for term in terms {
        bits.push(expr(alloc, numbers, term, own)?)?;
    }
    Ok(())
}

/// Adds the elements of a term at a place for a bus, and gives its tail's variable.
pub(crate) fn add_bus<'s>(
    alloc: Global,
    numbers: &Numbers<'_, 's>,
    term: &RawTerm<'s>,
    own: &mut usize,
    bits: &mut Items<Expr>,
) -> Result<Option<u32>, AllocError>
    requires { is_written (form_of term.now) ≡ true }
    ensures bits { OnOk result (bits.new ≡ bits.old ++ (as_bus (numbering_of numbers.now) (apart (form_of term.now) own.old).0).0) }
    ensures tail { IfOk result (λ t. t ≡ (as_bus (numbering_of numbers.now) (apart (form_of term.now) own.old).0).1) }
    ensures own { OnOk result (own.new ≡ (apart (form_of term.now) own.old).1) }
{
    match term {
        RawTerm::Variable(name) => Ok(Some(numbers.variable(*name, own)?)),
        RawTerm::List(items, tail) => {
            add_bits(alloc, numbers, items.as_slice(), own, bits)?;
            match tail {
                Some(rest) => add_bus(alloc, numbers, rest.get(), own, bits),
                None => Ok(None),
            }
        }
        RawTerm::Integer(_) => Ok(None),
        RawTerm::Name(_, _) => no_bus(term, own),
        RawTerm::Not(_) => no_bus(term, own),
        RawTerm::And(_) => no_bus(term, own),
        RawTerm::Xor(_) => no_bus(term, own),
        RawTerm::Or(_) => no_bus(term, own),
    }
}

/// A term that is no bus.
fn no_bus(term: &RawTerm<'_>, own: &mut usize) -> Result<Option<u32>, AllocError>
    requires { is_written (form_of term.now) ≡ true }
    ensures tail { IfOk result (λ t. t ≡ None) }
    ensures own { OnOk result (own.new ≡ (apart (form_of term.now) own.old).1) }
{
    skip(term, own)?;
    Ok(None)
}
