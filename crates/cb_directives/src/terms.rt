//! Written terms that are names.

ghost use Rattle.std.specs.Prelude.{◌≡◌, false, map, length, MatchOption};
ghost use Rattle.cb_model.specs.Grammar.{Name, Last};
ghost use Rattle.cb_model.specs.Forms.{form_of, forms_of};
ghost use Rattle.cb_model.specs.Written.{is_name};
ghost use Rattle.cb_directives.specs.Refusals.{is_atom};

use cb_model::RawTerm;

/// A name with its arguments, if the term is one.
pub fn named<'t, 's>(term: &'t RawTerm<'s>) -> Option<(&'s [u8], &'t [RawTerm<'s>])>
    ensures { MatchOption result (is_name (form_of term.now) ≡ false) (λ r. form_of term.now ≡ Name r.0.now (forms_of (map form_of r.1.now))) }
{
    match term {
        RawTerm::Name(name, args) => Some((*name, args.as_slice())),
        _ => None,
    }
}

/// A name without arguments, if the term is one.
pub fn atom<'s>(term: &RawTerm<'s>) -> Option<&'s [u8]>
    ensures { MatchOption result (is_atom (form_of term.now) ≡ false) (λ x. form_of term.now ≡ Name x.now Last) }
{
    let (name, args) = named(term)?;
    if args.is_empty() { Some(name) } else { None }
}
