//! Terms and goals of programs and queries.

use cb_model::{Goal, Tree};
use cb_sorts::{Program, Query};
use cb_trial::exprs::{push_expr, push_exprs};
use cb_trial::text::{push, push_number};
use std::alloc::Global;
use std::test::Fail;

/// Where numbers have their names: a program, and perhaps a query over it.
#[derive(Clone, Copy)]
pub struct Names<'a, 's> {
    pub program: &'a Program<'s>,
    pub query: Option<&'a Query<'s>>,
}

impl<'a, 's> Names<'a, 's> {
    // The name under a number, or `?`.
    fn name(&self, number: u32) -> &'s [u8] {
        if (number as usize) < self.program.names() {
            return self.program.name(number);
        }
        match self.query {
            Some(query) => query.name(number).unwrap_or(b"?"),
            None => b"?",
        }
    }

    /// Appends the name under a number, or `?`.
    pub fn push(&self, out: &mut Vec<u8>, number: u32) -> Result<(), Fail> {
        out.extend_from_slice(self.name(number))?;
        Ok(())
    }
}

/// Appends goals, each with a comma behind it.
pub fn push_goals(
    alloc: Global,
    out: &mut Vec<u8>,
    names: &Names<'_, '_>,
    goals: &[Goal],
) -> Result<(), Fail> {
    for goal in goals {
        push_goal(alloc, out, names, goal)?;
        push(out, ",")?;
    }
    Ok(())
}

// Appends a goal.
fn push_goal(
    alloc: Global,
    out: &mut Vec<u8>,
    names: &Names<'_, '_>,
    goal: &Goal,
) -> Result<(), Fail> {
    match goal {
        Goal::True => push(out, "true"),
        Goal::Fail => push(out, "fail"),
        Goal::Equal(left, right) => {
            push_tree(alloc, out, names, left)?;
            push(out, " = ")?;
            push_tree(alloc, out, names, right)
        }
        Goal::Circuit(module, ins, outs) => {
            push(out, "circuit ")?;
            push_number(alloc, out, i64::from(*module))?;
            push_tree(alloc, out, names, ins)?;
            push_tree(alloc, out, names, outs)
        }
        Goal::Call(pred, args) => {
            names.push(out, *pred)?;
            push_trees(alloc, out, names, args.as_slice())
        }
    }
}

/// Appends trees in parentheses, each with a space behind it.
#[cycle(trees)]
pub fn push_trees(
    alloc: Global,
    out: &mut Vec<u8>,
    names: &Names<'_, '_>,
    trees: &[Tree],
) -> Result<(), Fail> {
    push(out, "(")?;
    for tree in trees {
        push_tree(alloc, out, names, tree)?;
        push(out, " ")?;
    }
    push(out, ")")
}

// Appends a tree; a variable of a term is `t` with its number.
#[cycle(trees)]
fn push_tree(
    alloc: Global,
    out: &mut Vec<u8>,
    names: &Names<'_, '_>,
    tree: &Tree,
) -> Result<(), Fail> {
    match tree {
        Tree::Leaf(expr) => push_expr(out, expr),
        Tree::Bus(bits, tail) => {
            push_exprs(out, "bus", bits.as_slice())?;
            match tail {
                Some(tail) => {
                    push(out, "|b")?;
                    push_number(alloc, out, i64::from(*tail))
                }
                None => Ok(()),
            }
        }
        Tree::Var(number) => {
            push(out, "t")?;
            push_number(alloc, out, i64::from(*number))
        }
        Tree::Int(value) => push_number(alloc, out, *value),
        Tree::Node(name, args) => {
            names.push(out, *name)?;
            push_trees(alloc, out, names, args.as_slice())
        }
    }
}
