//! The parts of written terms.

ghost use Rattle.std.specs.Prelude.{◌≡◌, map};
ghost use Rattle.std.specs.Option.{option_map};
ghost use Rattle.cb_model.specs.Forms.{form_of, forms_of};
ghost use Rattle.cb_facts.specs.Terms.{elements_in, two_in, three_in, four_in};

use cb_model::RawTerm;

/// The elements of a list without a tail, where the term is one.
pub(crate) fn elements<'t, 's>(term: &'t RawTerm<'s>) -> Option<&'t [RawTerm<'s>]>
    ensures { option_map (λ ts. forms_of (map form_of ts.now)) result ≡ elements_in (form_of term.now) }
{
    match term {
        RawTerm::List(elements, None) => Some(elements.as_slice()),
        _ => None,
    }
}

/// The terms, where there are two.
pub(crate) fn two<'t, 's>(terms: &'t [RawTerm<'s>]) -> Option<(&'t RawTerm<'s>, &'t RawTerm<'s>)>
    ensures { option_map (λ p. (form_of p.0.now, form_of p.1.now)) result ≡ two_in (forms_of (map form_of terms.now)) }
{
    match terms {
        [one, two] => Some((one, two)),
        _ => None,
    }
}

/// The terms, where there are three.
pub(crate) fn three<'t, 's>(
    terms: &'t [RawTerm<'s>],
) -> Option<(&'t RawTerm<'s>, &'t RawTerm<'s>, &'t RawTerm<'s>)>
    ensures { option_map (λ p. (form_of p.0.now, form_of p.1.now, form_of p.2.now)) result ≡ three_in (forms_of (map form_of terms.now)) }
{
    match terms {
        [one, two, three] => Some((one, two, three)),
        _ => None,
    }
}

/// Four terms.
type Four<'t, 's> = (
    &'t RawTerm<'s>,
    &'t RawTerm<'s>,
    &'t RawTerm<'s>,
    &'t RawTerm<'s>,
);

/// The terms, where there are four.
pub(crate) fn four<'t, 's>(terms: &'t [RawTerm<'s>]) -> Option<Four<'t, 's>>
    ensures { option_map (λ p. (form_of p.0.now, form_of p.1.now, form_of p.2.now, form_of p.3.now)) result ≡ four_in (forms_of (map form_of terms.now)) }
{
    match terms {
        [one, two, three, four] => Some((one, two, three, four)),
        _ => None,
    }
}
