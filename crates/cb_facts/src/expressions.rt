//! Specification facts.

ghost use Rattle.std.specs.Prelude.{◌≡◌, [], true, map, None, IfOk, OnOk, IsSome, MatchOption};
ghost use Rattle.cb_model.specs.Text.{Text, is_variable};
ghost use Rattle.cb_model.specs.Forms.{form_of, forms_of};
ghost use Rattle.cb_model.specs.Written.{is_written, are_written};
ghost use Rattle.cb_model.specs.Sorts.{renamed, apart, apart_all};
ghost use Rattle.cb_model.specs.Facts.{spec_of};
ghost use Rattle.cb_facts.specs.Specs.{IsExpr, AreExprs, bit_of};
ghost use Rattle.cb_facts.specs.Ports.{ports_of, ReadsPorts, ReadsSpec};

use crate::nets::Nets;
use crate::terms::{elements, three};
use cb_directives::{atom, named};
use cb_model::{Expr, RawTerm};
use cb_variables::{Variable, Variables};
use sqlite_items::{Boxed, Items};
use std::alloc::{AllocError, Global};

/// A specification: one expression for each output, whose variable n is input n.
#[derive(Drop)]
pub struct RawSpec<'s> {
    pub name: &'s [u8],
    /// The names of the inputs by number.
    pub inputs: Variables<'s>,
    pub exprs: Items<Expr>,
}

/// An integer as an expression; `None` where it is neither 0 nor 1.
fn bit(value: i64) -> Option<Expr>
    ensures { result ≡ bit_of value }
{
    match value {
        0 => Some(Expr::Zero),
        1 => Some(Expr::One),
        _ => None,
    }
}

/// The input that is written with a name; `None` where there is none.
fn variable<'s>(
    inputs: &Variables<'s>,
    name: &'s [u8],
    own: &mut usize,
) -> Result<Option<Expr>, AllocError>
    requires { is_variable name.now ≡ true }
    ensures expr { IfOk result (IsExpr inputs.now (renamed own.old name.now).0) }
    ensures own { OnOk result (own.new ≡ (renamed own.old name.now).1) }
{
    let (variable, next) = Variable::written(name, *own)?;
    *own = next;
    match inputs.number(variable) {
        Some(number) => match u32::try_from(number) {
            Ok(number) => Ok(Some(Expr::Var(number))),
            Err(_) => Err(AllocError),
        },
        None => Ok(None),
    }
}

/// A term as an expression over the inputs; `None` where it holds anything but these, 0, 1 and the operators. `own`
/// counts the variables before it that are written `_`.
#[cycle(exprs)]
fn expr<'s>(
    alloc: Global,
    inputs: &Variables<'s>,
    term: &RawTerm<'s>,
    own: &mut usize,
) -> Result<Option<Expr>, AllocError>
    requires { is_written (form_of term.now) ≡ true }
    ensures expr { IfOk result (IsExpr inputs.now (apart (form_of term.now) own.old).0) }
    ensures own { IfOk result (λ o. IsSome o → own.new ≡ (apart (form_of term.now) own.old).1) }
{
    match term {
        RawTerm::Variable(name) => variable(inputs, *name, own),
        RawTerm::Integer(value) => Ok(bit(*value)),
        RawTerm::Name(_, _) => Ok(None),
        RawTerm::List(_, _) => Ok(None),
        RawTerm::Not(operand) => match expr(alloc, inputs, operand.get(), own)? {
            Some(operand) => Ok(Some(Expr::Not(Boxed::new(alloc, operand)?))),
            None => Ok(None),
        },
        RawTerm::And(operands) => match exprs(alloc, inputs, operands.as_slice(), own)? {
            Some(operands) => Ok(Some(Expr::And(operands))),
            None => Ok(None),
        },
        RawTerm::Xor(operands) => match exprs(alloc, inputs, operands.as_slice(), own)? {
            Some(operands) => Ok(Some(Expr::Xor(operands))),
            None => Ok(None),
        },
        RawTerm::Or(operands) => match exprs(alloc, inputs, operands.as_slice(), own)? {
            Some(operands) => Ok(Some(Expr::Or(operands))),
            None => Ok(None),
        },
    }
}

/// Terms as expressions over the inputs; `None` where one is none.
#[cycle(exprs)]
fn exprs<'s>(
    alloc: Global,
    inputs: &Variables<'s>,
    terms: &[RawTerm<'s>],
    own: &mut usize,
) -> Result<Option<Items<Expr>>, AllocError>
    requires { are_written (forms_of (map form_of terms.now)) ≡ true }
    ensures exprs { IfOk result (AreExprs inputs.now (apart_all (forms_of (map form_of terms.now)) own.old).0) }
    ensures own { IfOk result (λ o. IsSome o → own.new ≡ (apart_all (forms_of (map form_of terms.now)) own.old).1) }
{
    let mut all = Items::new(alloc);
    for term in terms {
        match expr(alloc, inputs, term, own)? {
            Some(expr) => all.push(expr)?,
            None => return Ok(None),
        }
    }
    Ok(Some(all))
}

/// The expressions of a specification fact; `None` where its inputs and expressions aren't in their form.
fn read_ports<'s>(
    alloc: Global,
    nets: &mut Nets<'s>,
    inputs: &RawTerm<'s>,
    list: &RawTerm<'s>,
) -> Result<Option<Items<Expr>>, AllocError>
    requires first { nets.old.names ≡ [] }
    requires inputs { is_written (form_of inputs.now) ≡ true }
    requires exprs { is_written (form_of list.now) ≡ true }
    ensures { IfOk result (λ o. MatchOption o ((name : Text) → ports_of name (form_of inputs.now) (form_of list.now) nets.old.own ≡ None) (ReadsPorts nets.old nets.new (form_of inputs.now) (form_of list.now))) }
{
    let Some(_) = nets.inputs(alloc, inputs)? else {
        return Ok(None);
    };
    let Some(terms) = elements(list) else {
        return Ok(None);
    };
    let mut own = nets.own;
    match exprs(alloc, &nets.names, terms, &mut own)? {
        Some(exprs) => Ok(Some(exprs)),
        None => Ok(None),
    }
}

/// The specification of a fact's head; `None` where the head isn't in the form of a specification fact: a name with an
/// atom, a list of inputs of which no named one stands twice, and a list of expressions over these inputs, 0, 1 and the
/// operators.
pub fn read_spec<'s>(alloc: Global, head: &RawTerm<'s>) -> Result<Option<RawSpec<'s>>, AllocError>
    requires { is_written (form_of head.now) ≡ true }
    ensures { IfOk result (λ o. MatchOption o (spec_of (apart (form_of head.now) 0).0 ≡ None) (ReadsSpec (form_of head.now))) }
{
    let Some((_, args)) = named(head) else {
        return Ok(None);
    };
    let Some((name, inputs, list)) = three(args) else {
        return Ok(None);
    };
    let Some(name) = atom(name) else {
        return Ok(None);
    };
    let mut nets = Nets::new(alloc);
    match read_ports(alloc, &mut nets, inputs, list)? {
        Some(exprs) => Ok(Some(RawSpec {
            name,
            inputs: nets.names,
            exprs,
        })),
        None => Ok(None),
    }
}
