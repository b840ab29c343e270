//! Goals.

ghost use Rattle.std.specs.Prelude.{◌≡◌, [], true, map, length, unwrap_or, IfOk, OnOk, List, Option};
ghost use Rattle.cb_model.specs.Text.{Text};
ghost use Rattle.cb_model.specs.Grammar.{Name};
ghost use Rattle.cb_model.specs.Written.{is_name, is_written, are_written, goal_written};
ghost use Rattle.cb_model.specs.Forms.{form_of, forms_of, goal_form};
ghost use Rattle.cb_model.specs.Sorts.{apart, apart_all, apart_goal};
ghost use Rattle.cb_model.specs.Loading.{first_atom as atom_first, call_goal, circuit_goal};
ghost use Rattle.cb_known.specs.Modules.{AreNumbers};
ghost use Rattle.cb_trees.specs.Places.{goal_at};
ghost use Rattle.cb_trees.specs.Numbered.{numbering_of};

use crate::numbers::Numbers;
use crate::skipped::skip;
use crate::trees::{Places, tree, trees};
use cb_directives::{is_circuit, is_fail, is_true, named};
use cb_known::first_atom;
use cb_model::{Goal, RawGoal, RawTerm, Sort};
use std::alloc::{AllocError, Global};

/// The name that a goal of a circuit gives first, or an empty one where that is no atom.
fn module_name<'s>(args: &[RawTerm<'s>]) -> &'s [u8]
    ensures { result.now ≡ unwrap_or (atom_first (Name [] (forms_of (map form_of args.now)))) [] }
{
    match first_atom(args) {
        Some(name) => name,
        None => b"",
    }
}

/// A goal of a circuit.
fn circuit<'s>(
    alloc: Global,
    numbers: &Numbers<'_, 's>,
    args: &[RawTerm<'s>],
    own: &mut usize,
) -> Result<Goal, AllocError>
    requires written { are_written (forms_of (map form_of args.now)) ≡ true }
    requires three { length args.now ≡ 3 }
    ensures goal { IfOk result (λ g. (x : Text) (ms : List (Option Text)) → AreNumbers ms numbers.now.modules.now → g ≡ circuit_goal numbers.now.declared.now (numbering_of numbers.now) ms (Name x (apart_all (forms_of (map form_of args.now)) own.old).0)) }
    ensures own { OnOk result (own.new ≡ (apart_all (forms_of (map form_of args.now)) own.old).1) }
{
    let module = numbers.module(module_name(args))?;
    skip(&args[0], own)?;
    let inputs = tree(alloc, numbers, Sort::Bus, &args[1], own)?;
    let outputs = tree(alloc, numbers, Sort::Bus, &args[2], own)?;
    Ok(Goal::Circuit(module, inputs, outputs))
}

/// A call of a name with its arguments.
fn call<'s>(
    alloc: Global,
    numbers: &Numbers<'_, 's>,
    name: &'s [u8],
    args: &[RawTerm<'s>],
    own: &mut usize,
) -> Result<Goal, AllocError>
    requires { are_written (forms_of (map form_of args.now)) ≡ true }
    ensures goal { IfOk result (λ g. (ms : List (Option Text)) → AreNumbers ms numbers.now.modules.now → g ≡ call_goal numbers.now.declared.now (numbering_of numbers.now) ms (Name name.now (apart_all (forms_of (map form_of args.now)) own.old).0)) }
    ensures own { OnOk result (own.new ≡ (apart_all (forms_of (map form_of args.now)) own.old).1) }
{
    if is_true(name, args.len()) {
        return Ok(Goal::True);
    }
    if is_fail(name, args.len()) {
        return Ok(Goal::Fail);
    }
    if is_circuit(name, args.len()) {
        return circuit(alloc, numbers, args, own);
    }
    let places = Places::of(numbers.declared, name, args.len());
    let number = numbers.sign(name, args.len())?;
    Ok(Goal::Call(number, trees(alloc, numbers, &places, args, own)?))
}

/// What a goal stands for, where the sides of an equation have this sort; `own` counts the variables before it that
/// are written `_`.
pub fn goal<'s>(
    alloc: Global,
    numbers: &Numbers<'_, 's>,
    sort: Sort,
    goal: &RawGoal<'s>,
    own: &mut usize,
) -> Result<Goal, AllocError>
    requires { goal_written (goal_form goal.now) ≡ true }
    ensures goal { IfOk result (λ g. (ms : List (Option Text)) → AreNumbers ms numbers.now.modules.now → g ≡ goal_at numbers.now.declared.now (numbering_of numbers.now) ms sort (apart_goal (goal_form goal.now) own.old).0) }
    ensures own { OnOk result (own.new ≡ (apart_goal (goal_form goal.now) own.old).1) }
{
    match goal {
        RawGoal::Call(term) => match named(term) {
            Some((name, args)) => call(alloc, numbers, name, args, own),
            None => unreachable!(),
        },
        RawGoal::Equal(left, right) => {
            let left = tree(alloc, numbers, sort, left, own)?;
            let right = tree(alloc, numbers, sort, right, own)?;
            Ok(Goal::Equal(left, right))
        }
    }
}
