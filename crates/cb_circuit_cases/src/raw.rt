//! Facts of modules and specifications by numbers.

ghost use Rattle.std.specs.Prelude.{◌≡◌, true, map};
ghost use Rattle.std.specs.List.{list_all};
ghost use Rattle.cb_model.specs.Forms.{clause_form, form_of};
ghost use Rattle.cb_model.specs.Written.{clause_written, is_written};

use crate::orders::push_numbers;
use cb_facts::{RawModule, RawSpec, read_module, read_spec};
use cb_lists::Lists;
use cb_model::{RawClause, RawTerm};
use cb_syntax::read_clauses;
use cb_trial::exprs::push_expr;
use std::alloc::Global;
use std::io::Write;
use std::test::Fail;

/// Writes the module or the specification of each head of a text, or that it is neither.
pub(crate) fn tell_heads(alloc: Global, text: &[u8], out: &mut Vec<u8>) -> Result<(), Fail> {
    if text.len() > 4_194_304 {
        return Ok(());
    }
    let clauses = read_clauses(alloc, text)?;
    let told = tell_clauses(alloc, clauses.as_slice(), out);
    drop(clauses);
    told
}

// The same of clauses.
fn tell_clauses(alloc: Global, clauses: &[RawClause<'_>], out: &mut Vec<u8>) -> Result<(), Fail>
    requires { list_all clause_written (map clause_form clauses.now) ≡ true }
{
    for clause in clauses {
        tell_clause(alloc, clause, out)?;
    }
    Ok(())
}

// The same of one clause.
fn tell_clause(alloc: Global, clause: &RawClause<'_>, out: &mut Vec<u8>) -> Result<(), Fail>
    requires { clause_written (clause_form clause.now) ≡ true }
{
    match clause {
        RawClause::Rule { head, .. } => tell_head(alloc, head, out),
        RawClause::Directive { .. } => Ok(()),
    }
}

// The same of a head.
fn tell_head(alloc: Global, head: &RawTerm<'_>, out: &mut Vec<u8>) -> Result<(), Fail>
    requires { is_written (form_of head.now) ≡ true }
{
    match read_module(alloc, head)? {
        Some(module) => {
            let told = push_module(&module, out);
            drop(module);
            told
        }
        None => tell_spec(alloc, head, out),
    }
}

// The same of a head that is no module's.
fn tell_spec(alloc: Global, head: &RawTerm<'_>, out: &mut Vec<u8>) -> Result<(), Fail>
    requires { is_written (form_of head.now) ≡ true }
{
    match read_spec(alloc, head)? {
        Some(spec) => {
            let told = push_spec(&spec, out);
            drop(spec);
            told
        }
        None => {
            writeln!(out, "neither")?;
            Ok(())
        }
    }
}

// Writes a module: its name, its nets in the order of their numbers, how many of them are inputs, the nets of its outputs
// and its instances.
fn push_module(module: &RawModule<'_>, out: &mut Vec<u8>) -> Result<(), Fail> {
    out.extend_from_slice(module.name)?;
    write!(out, ":")?;
    for net in 0..module.nets.len() {
        write!(out, " ")?;
        out.extend_from_slice(module.nets.shown(net))?;
    }
    let inputs = module.inputs;
    write!(out, ", inputs {inputs}, outputs")?;
    push_numbers(module.outputs.as_slice(), out)?;
    for (at, part) in module.parts.iter().enumerate() {
        write!(out, "; ")?;
        out.extend_from_slice(*part)?;
        push_list(&module.ins, at, out)?;
        write!(out, " >")?;
        push_list(&module.outs, at, out)?;
    }
    writeln!(out)?;
    Ok(())
}

// Writes the numbers of a list, if there is one.
fn push_list(lists: &Lists, at: usize, out: &mut Vec<u8>) -> Result<(), Fail> {
    if at < lists.len() {
        push_numbers(lists.list(at), out)?;
    }
    Ok(())
}

// Writes a specification: its name, its inputs and its expressions.
fn push_spec(spec: &RawSpec<'_>, out: &mut Vec<u8>) -> Result<(), Fail> {
    out.extend_from_slice(spec.name)?;
    write!(out, ":")?;
    for input in 0..spec.inputs.len() {
        write!(out, " ")?;
        out.extend_from_slice(spec.inputs.shown(input))?;
    }
    for expr in spec.exprs.as_slice() {
        write!(out, "; ")?;
        push_expr(out, expr)?;
    }
    writeln!(out)?;
    Ok(())
}
