//! Terms that stand for nothing, of which only the `_` count.

ghost use Rattle.std.specs.Prelude.{◌≡◌, true, map, OnOk};
ghost use Rattle.cb_model.specs.Text.{is_variable};
ghost use Rattle.cb_model.specs.Written.{is_written, are_written};
ghost use Rattle.cb_model.specs.Forms.{form_of, forms_of};
ghost use Rattle.cb_model.specs.Sorts.{renamed, apart, apart_all};

use cb_model::RawTerm;
use cb_variables::Variable;
use std::alloc::AllocError;

/// Counts a variable, if it is written `_`.
fn skip_variable(name: &[u8], own: &mut usize) -> Result<(), AllocError>
    requires { is_variable name.now ≡ true }
    ensures { OnOk result (own.new ≡ (renamed own.old name.now).1) }
{
    let (_, next) = Variable::written(name, *own)?;
    *own = next;
    Ok(())
}

/// Counts the `_` in a term.
#[cycle(skipped)]
pub(crate) fn skip(term: &RawTerm<'_>, own: &mut usize) -> Result<(), AllocError>
    requires { is_written (form_of term.now) ≡ true }
    ensures { OnOk result (own.new ≡ (apart (form_of term.now) own.old).1) }
{
    match term {
        RawTerm::Variable(name) => skip_variable(*name, own),
        RawTerm::Integer(_) => Ok(()),
        RawTerm::Name(_, args) => skip_all(args.as_slice(), own),
        RawTerm::List(items, tail) => {
            skip_all(items.as_slice(), own)?;
            match tail {
                Some(rest) => skip(rest.get(), own),
                None => Ok(()),
            }
        }
        RawTerm::Not(operand) => skip(operand.get(), own),
        RawTerm::And(operands) => skip_all(operands.as_slice(), own),
        RawTerm::Xor(operands) => skip_all(operands.as_slice(), own),
        RawTerm::Or(operands) => skip_all(operands.as_slice(), own),
    }
}

/// Counts the `_` in terms.
#[cycle(skipped)]
pub(crate) fn skip_all(terms: &[RawTerm<'_>], own: &mut usize) -> Result<(), AllocError>
    requires { are_written (forms_of (map form_of terms.now)) ≡ true }
    ensures { OnOk result (own.new ≡ (apart_all (forms_of (map form_of terms.now)) own.old).1) }
{
    for term in terms {
        skip(term, own)?;
    }
    Ok(())
}
