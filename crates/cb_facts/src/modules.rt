//! Module facts.

ghost use Rattle.std.specs.Prelude.{◌≡◌, [], true, map, None, IfOk, MatchOption};
ghost use Rattle.cb_model.specs.Forms.{form_of};
ghost use Rattle.cb_model.specs.Written.{is_written};
ghost use Rattle.cb_model.specs.Sorts.{apart};
ghost use Rattle.cb_model.specs.Facts.{module_of};
ghost use Rattle.cb_model.specs.Text.{Text};
ghost use Rattle.cb_facts.specs.Modules.{ReadsModule};
ghost use Rattle.cb_facts.specs.Rest.{rest_of, ReadsRest, IsRest};

use crate::instances::{Instances, read_instances};
use crate::nets::Nets;
use crate::terms::{elements, four};
use cb_directives::{atom, named};
use cb_lists::Lists;
use cb_model::RawTerm;
use cb_variables::Variables;
use std::alloc::{AllocError, Global};

/// A module with numbers in place of the names of its nets. The nets are numbered in the order of their first
/// appearance in the fact, each `_` as a net of its own, so the inputs come first.
#[derive(Drop)]
pub struct RawModule<'s> {
    pub name: &'s [u8],
    /// The names of the nets by number.
    pub nets: Variables<'s>,
    /// How many inputs there are.
    pub inputs: u32,
    /// The nets of the outputs.
    pub outputs: Vec<u32>,
    /// The names of the parts of the instances.
    pub parts: Vec<&'s [u8]>,
    /// For each instance the nets at its input pins.
    pub ins: Lists,
    /// For each instance the nets at its output pins.
    pub outs: Lists,
}

/// What stands behind the name of a module fact: how many inputs it has, its outputs and its instances.
#[derive(Drop)]
struct Rest<'s> {
    inputs: u32,
    outputs: Vec<u32>,
    instances: Instances<'s>,
}

/// What stands behind the name of a module fact; `None` where it isn't in its form.
fn read_rest<'s>(
    alloc: Global,
    nets: &mut Nets<'s>,
    inputs: &RawTerm<'s>,
    outputs: &RawTerm<'s>,
    instances: &RawTerm<'s>,
) -> Result<Option<Rest<'s>>, AllocError>
    requires first { nets.old.names ≡ [] }
    requires inputs { is_written (form_of inputs.now) ≡ true }
    requires outputs { is_written (form_of outputs.now) ≡ true }
    requires instances { is_written (form_of instances.now) ≡ true }
    ensures { IfOk result (λ o. MatchOption o ((name : Text) → rest_of name (form_of inputs.now) (form_of outputs.now) (form_of instances.now) nets.old.own ≡ None) (ReadsRest nets.old nets.new (form_of inputs.now) (form_of outputs.now) (form_of instances.now))) }
{
    let Some(inputs) = nets.inputs(alloc, inputs)? else {
        return Ok(None);
    };
    let Some(outputs) = nets.list(alloc, outputs)? else {
        return Ok(None);
    };
    let Some(terms) = elements(instances) else {
        return Ok(None);
    };
    let Some(instances) = read_instances(alloc, nets, terms)? else {
        return Ok(None);
    };
    Ok(Some(Rest {
        inputs,
        outputs,
        instances,
    }))
}

/// A module with numbers in place of names.
fn raw_module<'s>(name: &'s [u8], nets: Variables<'s>, rest: Rest<'s>) -> RawModule<'s>
    ensures name { result.name.now ≡ name.entry.now }
    ensures nets { result.nets ≡ nets.entry }
    ensures rest { IsRest result rest.entry }
{
    let Rest {
        inputs,
        outputs,
        instances,
    } = rest;
    let Instances { parts, ins, outs } = instances;
    RawModule {
        name,
        nets,
        inputs,
        outputs,
        parts,
        ins,
        outs,
    }
}

/// The module of a fact's head; `None` where the head isn't in the form of a module fact: a name with an atom, a list
/// of inputs of which no named one stands twice, a list of outputs, and a list of instances, each a name with two lists
/// of nets.
pub fn read_module<'s>(
    alloc: Global,
    head: &RawTerm<'s>,
) -> Result<Option<RawModule<'s>>, AllocError>
    requires { is_written (form_of head.now) ≡ true }
    ensures { IfOk result (λ o. MatchOption o (module_of (apart (form_of head.now) 0).0 ≡ None) (ReadsModule (form_of head.now))) }
{
    let Some((_, args)) = named(head) else {
        return Ok(None);
    };
    let Some((name, inputs, outputs, instances)) = four(args) else {
        return Ok(None);
    };
    let Some(name) = atom(name) else {
        return Ok(None);
    };
    let mut nets = Nets::new(alloc);
    match read_rest(alloc, &mut nets, inputs, outputs, instances)? {
        Some(rest) => Ok(Some(raw_module(name, nets.names, rest))),
        None => Ok(None),
    }
}
