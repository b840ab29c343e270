//! The words of directives.

ghost use Rattle.std.specs.Prelude.{◌≡◌, ℕ, List, [], ◌∷◌, Some, None, map, MatchResult, codes};
ghost use Rattle.cb_model.specs.Forms.{form_of, forms_of};
ghost use Rattle.cb_model.specs.Directives.{worded, atom_word, all_words, is_delay, nonvar_at_bool};
ghost use Rattle.cb_directives.specs.Refusals.{IsNone, is_nonvar_at};

use crate::fault::Fault;
use crate::terms::atom;
use cb_model::{RawTerm, Sort, When};
use sqlite_items::Items;
use std::alloc::Global;

/// What words stand for.
pub(crate) trait Word: Copy {
    /// The words with what they stand for.
    ghost words: { List (List ℕ × Self) };

    /// What a word stands for, if it is one of them.
    fn read(name: &[u8]) -> Option<Self>
        ensures { result ≡ worded words name.now };
}

impl Word for Sort {
    ghost use Rattle.cb_model.specs.Directives.{sort_words};

    ghost words = { sort_words };

    fn read(name: &[u8]) -> Option<Sort> {
        if name == b"bool".as_slice() {
            Some(Sort::Bool)
        } else if name == b"bus".as_slice() {
            Some(Sort::Bus)
        } else if name == b"term".as_slice() {
            Some(Sort::Term)
        } else {
            None
        }
    }
}

impl Word for When {
    ghost use Rattle.cb_model.specs.Directives.{delay_words};

    ghost words = { delay_words };

    fn read(name: &[u8]) -> Option<When> {
        if name == b"known".as_slice() {
            Some(When::Known)
        } else if name == b"const".as_slice() {
            Some(When::Fixed)
        } else if name == b"nonvar".as_slice() {
            Some(When::Nonvar)
        } else if name == b"any".as_slice() {
            Some(When::Any)
        } else {
            None
        }
    }
}

/// What a term stands for, if it is a word.
fn read_word<T: Word>(term: &RawTerm<'_>) -> Option<T>
    ensures { result ≡ atom_word T.words (form_of term.now) }
{
    match atom(term) {
        Some(name) => T::read(name),
        None => None,
    }
}

/// What the words stand for, where all terms are words.
pub(crate) fn words<T: Word + Drop>(alloc: Global, terms: &[RawTerm<'_>]) -> Result<Items<T>, Fault>
    ensures { MatchResult result (λ ws. all_words T.words (forms_of (map form_of terms.now)) ≡ Some ws) (λ e. IsNone e (all_words T.words (forms_of (map form_of terms.now)))) }
{
    let mut words = Items::new(alloc);
    for term in terms {
        let Some(word) = read_word::<T>(term) else {
            return Err(Fault::Directive);
        };
        let Ok(()) = words.push(word) else {
            return Err(Fault::Memory);
        };
    }
    Ok(words)
}

/// Whether the word is `nonvar` and the sort `bool`.
fn is_nonvar(word: When, sort: Option<&Sort>) -> bool
    ensures { result ≡ is_nonvar_at word sort.entry }
{
    match word {
        When::Nonvar => match sort {
            Some(Sort::Bool) => true,
            _ => false,
        },
        _ => false,
    }
}

/// Whether `nonvar` stands at a Boolean place.
pub(crate) fn has_nonvar(words: &[When], sorts: &[Sort]) -> bool
    ensures { result ≡ nonvar_at_bool words.now sorts.now }
{
    for (place, word) in words.iter().enumerate() {
        if is_nonvar(*word, sqlite_items::at(sorts, place)) {
            return true;
        }
    }
    false
}

/// Whether a directive's word is `delay`.
pub(crate) fn delays(word: &[u8]) -> bool
    ensures { result ≡ is_delay word.now }
{
    word == b"delay".as_slice()
}
