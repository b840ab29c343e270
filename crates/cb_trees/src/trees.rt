//! Terms at places of every sort.

ghost use Rattle.std.specs.Prelude.{◌≡◌, ◌<◌, ◌++◌, true, map, length, IfOk, OnOk, slice_get, Some, pos};
ghost use Rattle.cb_model.specs.declared.Sort.TheVariants as sort;
ghost use Rattle.cb_model.specs.declared.Tree.TheVariants as tree;
ghost use Rattle.cb_model.specs.Grammar.{Name};
ghost use Rattle.cb_model.specs.Written.{is_name, is_written, are_written};
ghost use Rattle.cb_model.specs.Forms.{form_of, forms_of};
ghost use Rattle.cb_model.specs.Directives.{sorts_of};
ghost use Rattle.cb_model.specs.Sorts.{apart, apart_all, as_tree, as_trees, as_arguments, sign_number};
ghost use Rattle.cb_model.specs.Loading.{head_sign};
ghost use Rattle.cb_trees.specs.Places.{sorts_given};
ghost use Rattle.cb_trees.specs.Numbered.{numbering_of};

use crate::exprs::{add_bus, expr};
use crate::numbers::Numbers;
use crate::skipped::skip;
use cb_directives::{Declarations, named};
use cb_model::{RawTerm, Sort, Tree};
use sqlite_items::Items;
use std::alloc::{AllocError, Global};

/// The sorts of the argument places of a name.
#[derive(Clone, Copy)]
pub(crate) struct Places<'d> {
    /// The declared sorts; `None` where none are declared.
    declared: Option<&'d [Sort]>,
    /// How many arguments there are.
    count: usize,
}

impl<'d> Places<'d> {
    /// The places of a name with this number of arguments.
    pub(crate) fn of<'s>(declared: &'d Declarations<'s>, name: &'s [u8], count: usize) -> Places<'d>
        ensures sorts { sorts_given result.declared result.count ≡ sorts_of declared.now (name.now, count) }
        ensures counted { length (sorts_given result.declared result.count) ≡ count }
    {
        declared.counted();
        Places {
            declared: declared.sorts(name, count),
            count,
        }
    }

    /// The sort of a place.
    fn sort(&self, place: usize) -> Sort
        requires { place < length (sorts_given self.now.declared self.now.count) }
        ensures { slice_get (sorts_given self.now.declared self.now.count) place ≡ Some result }
    {
        match self.declared {
            Some(sorts) => sorts[place],
            None => Sort::Term,
        }
    }
}

/// What a term at a place of this sort stands for; `own` counts the variables before it that are written `_`.
#[cycle(trees)]
pub(crate) fn tree<'s>(
    alloc: Global,
    numbers: &Numbers<'_, 's>,
    sort: Sort,
    term: &RawTerm<'s>,
    own: &mut usize,
) -> Result<Tree, AllocError>
    requires { is_written (form_of term.now) ≡ true }
    ensures tree { IfOk result (λ t. t ≡ as_tree numbers.now.declared.now (numbering_of numbers.now) sort (apart (form_of term.now) own.old).0) }
    ensures own { OnOk result (own.new ≡ (apart (form_of term.now) own.old).1) }
{
    match sort {
        Sort::Bool => Ok(Tree::Leaf(expr(alloc, numbers, term, own)?)),
        Sort::Bus => bus(alloc, numbers, term, own),
        Sort::Term => match term {
            RawTerm::Variable(name) => Ok(Tree::Var(numbers.variable(*name, own)?)),
            RawTerm::Integer(value) => Ok(Tree::Int(*value)),
            RawTerm::Name(name, args) => compound(alloc, numbers, *name, args.as_slice(), own),
            RawTerm::List(_, _) => no_term(term, own),
            RawTerm::Not(_) => no_term(term, own),
            RawTerm::And(_) => no_term(term, own),
            RawTerm::Xor(_) => no_term(term, own),
            RawTerm::Or(_) => no_term(term, own),
        },
    }
}

/// A term at a place for a bus.
fn bus<'s>(
    alloc: Global,
    numbers: &Numbers<'_, 's>,
    term: &RawTerm<'s>,
    own: &mut usize,
) -> Result<Tree, AllocError>
    requires { is_written (form_of term.now) ≡ true }
    ensures tree { IfOk result (λ t. t ≡ as_tree numbers.now.declared.now (numbering_of numbers.now) sort.Bus (apart (form_of term.now) own.old).0) }
    ensures own { OnOk result (own.new ≡ (apart (form_of term.now) own.old).1) }
{
    let mut bits = Items::new(alloc);
    let tail = add_bus(alloc, numbers, term, own, &mut bits)?;
    Ok(Tree::Bus(bits, tail))
}

/// A term that no term place takes.
fn no_term(term: &RawTerm<'_>, own: &mut usize) -> Result<Tree, AllocError>
    requires { is_written (form_of term.now) ≡ true }
    ensures tree { IfOk result (λ t. t ≡ tree.Int (pos 0)) }
    ensures own { OnOk result (own.new ≡ (apart (form_of term.now) own.old).1) }
{
    skip(term, own)?;
    Ok(Tree::Int(0))
}

/// A name with its arguments.
#[cycle(trees)]
fn compound<'s>(
    alloc: Global,
    numbers: &Numbers<'_, 's>,
    name: &'s [u8],
    args: &[RawTerm<'s>],
    own: &mut usize,
) -> Result<Tree, AllocError>
    requires { are_written (forms_of (map form_of args.now)) ≡ true }
    ensures tree { IfOk result (λ t. t ≡ as_tree numbers.now.declared.now (numbering_of numbers.now) sort.Term (Name name.now (apart_all (forms_of (map form_of args.now)) own.old).0)) }
    ensures own { OnOk result (own.new ≡ (apart_all (forms_of (map form_of args.now)) own.old).1) }
{
    let places = Places::of(numbers.declared, name, args.len());
    let number = numbers.sign(name, args.len())?;
    Ok(Tree::Node(number, trees(alloc, numbers, &places, args, own)?))
}

/// The arguments of a name, each at its place.
#[cycle(trees)]
pub(crate) fn trees<'s>(
    alloc: Global,
    numbers: &Numbers<'_, 's>,
    places: &Places<'_>,
    args: &[RawTerm<'s>],
    own: &mut usize,
) -> Result<Items<Tree>, AllocError>
    requires written { are_written (forms_of (map form_of args.now)) ≡ true }
    requires counted { length (sorts_given places.now.declared places.now.count) ≡ length args.now }
    ensures trees { IfOk result (λ ts. ts ≡ as_trees numbers.now.declared.now (numbering_of numbers.now) (sorts_given places.now.declared places.now.count) (apart_all (forms_of (map form_of args.now)) own.old).0) }
    ensures own { OnOk result (own.new ≡ (apart_all (forms_of (map form_of args.now)) own.old).1) }
{
    let mut all = Items::new(alloc);
    for (place, arg) in args.iter().enumerate() {
        all.push(tree(alloc, numbers, places.sort(place), arg, own)?)?;
    }
    Ok(all)
}

/// The arguments of a head; `own` counts the variables before it that are written `_`.
pub fn arguments<'s>(
    alloc: Global,
    numbers: &Numbers<'_, 's>,
    head: &RawTerm<'s>,
    own: &mut usize,
) -> Result<Items<Tree>, AllocError>
    requires name { is_name (form_of head.now) ≡ true }
    requires written { is_written (form_of head.now) ≡ true }
    ensures trees { IfOk result (λ ts. ts ≡ as_arguments numbers.now.declared.now (numbering_of numbers.now) (apart (form_of head.now) own.old).0) }
    ensures own { OnOk result (own.new ≡ (apart (form_of head.now) own.old).1) }
{
    match named(head) {
        Some((name, args)) => {
            let places = Places::of(numbers.declared, name, args.len());
            trees(alloc, numbers, &places, args, own)
        }
        None => unreachable!(),
    }
}

/// The number of a head's name.
pub fn head_number<'s>(numbers: &Numbers<'_, 's>, head: &RawTerm<'s>) -> Result<u32, AllocError>
    requires { is_name (form_of head.now) ≡ true }
    ensures { IfOk result (λ k. k ≡ sign_number (numbers.now.names.now ++ numbers.now.more.now) (head_sign (form_of head.now))) }
{
    match named(head) {
        Some((name, args)) => numbers.sign(name, args.len()),
        None => unreachable!(),
    }
}
