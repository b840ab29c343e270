//! What a written term is by its form.

ghost use Rattle.std.specs.Prelude.{◌≡◌, ℕ, get_or};
ghost use Rattle.cb_model.specs.declared.Sort.TheVariants as sort;
ghost use Rattle.cb_model.specs.Forms.{form_of};
ghost use Rattle.cb_model.specs.Sorts.{form_sort};
ghost use Rattle.cb_model.specs.Sorted.{same_sort};
ghost use Rattle.cb_marking.specs.Places.{is_truth_value, is_bit, place_fits, sorts_given};

use cb_directives::Declarations;
use cb_model::{RawTerm, Sort};

/// The sort that a term has by its form, if it has one.
pub(crate) fn sort_by_form(declared: &Declarations<'_>, term: &RawTerm<'_>) -> Option<Sort>
    ensures { result ≡ form_sort declared.now.constants (form_of term.now) }
{
    match term {
        RawTerm::Variable(_) => None,
        RawTerm::Integer(value) => {
            if is_truth_value(*value) {
                None
            } else {
                Some(Sort::Term)
            }
        }
        RawTerm::Name(name, args) => {
            if !args.as_slice().is_empty() {
                Some(Sort::Term)
            } else if declared.is_constant(name) {
                Some(Sort::Bool)
            } else {
                Some(Sort::Term)
            }
        }
        RawTerm::List(_, _) => Some(Sort::Bus),
        RawTerm::Not(_) | RawTerm::And(_) | RawTerm::Xor(_) | RawTerm::Or(_) => Some(Sort::Bool),
    }
}

/// Whether an integer is 0 or 1.
fn is_truth_value(value: i64) -> bool
    ensures { result ≡ is_truth_value value }
{
    value == 0 || value == 1
}

/// Whether a term is 0 or 1.
pub(crate) fn is_bit(term: &RawTerm<'_>) -> bool
    ensures { result ≡ is_bit (form_of term.now) }
{
    match term {
        RawTerm::Integer(value) => is_truth_value(*value),
        _ => false,
    }
}

/// Whether two sorts are the same.
pub(crate) fn is_sort(own: Sort, sort: Sort) -> bool
    ensures { result ≡ same_sort own sort }
{
    match (own, sort) {
        (Sort::Bool, Sort::Bool) => true,
        (Sort::Bus, Sort::Bus) => true,
        (Sort::Term, Sort::Term) => true,
        _ => false,
    }
}

/// Whether a term may stand at a place of a sort, as far as its form says.
pub(crate) fn fits(declared: &Declarations<'_>, sort: Sort, term: &RawTerm<'_>) -> bool
    ensures { result ≡ place_fits declared.now (sort, form_of term.now) }
{
    match sort_by_form(declared, term) {
        Some(own) => is_sort(own, sort),
        None => !(is_sort(sort, Sort::Bus) && is_bit(term)),
    }
}

/// The sort of an argument, where these sorts are declared, or none.
pub(crate) fn sort_at(sorts: Option<&[Sort]>, place: usize) -> Sort
    ensures { (n : ℕ) → result ≡ get_or (sorts_given sorts.entry n) place sort.Term }
{
    match sorts {
        Some(sorts) => match sqlite_items::at(sorts, place) {
            Some(sort) => *sort,
            None => Sort::Term,
        },
        None => Sort::Term,
    }
}
