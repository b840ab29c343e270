//! The instances of a module fact.

ghost use Rattle.std.specs.Prelude.{◌≡◌, ◌∷◌, [], ◌++◌, true, map, None, IfOk, OnOk, MatchOption};
ghost use Rattle.cb_model.specs.Forms.{form_of, forms_of};
ghost use Rattle.cb_model.specs.Written.{is_written, are_written};
ghost use Rattle.cb_model.specs.Sorts.{apart, apart_all};
ghost use Rattle.cb_model.specs.Facts.{instance_of, instances_in};
ghost use Rattle.cb_facts.specs.Reads.{ReadsInstance, ReadsInstances};
ghost use Rattle.cb_facts.specs.Modules.{texts};

use crate::nets::Nets;
use crate::terms::two;
use cb_directives::named;
use cb_lists::Lists;
use cb_model::RawTerm;
use std::alloc::{AllocError, Global};

/// An instance: the name of its part, and the numbers of the nets at its pins.
#[derive(Drop)]
pub(crate) struct Instance<'s> {
    pub part: &'s [u8],
    pub ins: Vec<u32>,
    pub outs: Vec<u32>,
}

/// Instances in order: the names of their parts, and for each the numbers of the nets at its pins.
#[derive(Drop)]
pub(crate) struct Instances<'s> {
    pub parts: Vec<&'s [u8]>,
    pub ins: Lists,
    pub outs: Lists,
}

impl<'s> Instances<'s> {
    /// No instances.
    fn new(alloc: Global) -> Instances<'s>
        ensures parts { result.parts.items ≡ [] }
        ensures ins { result.ins ≡ [] }
        ensures outs { result.outs ≡ [] }
    {
        Instances {
            parts: Vec::new(alloc),
            ins: Lists::new(alloc),
            outs: Lists::new(alloc),
        }
    }

    /// Puts an instance behind the others.
    fn push(&mut self, instance: &Instance<'s>) -> Result<(), AllocError>
        ensures parts { OnOk result (texts self.new.parts.items ≡ texts self.old.parts.items ++ instance.now.part.now ∷ []) }
        ensures ins { OnOk result (self.new.ins ≡ self.old.ins ++ instance.now.ins.items ∷ []) }
        ensures outs { OnOk result (self.new.outs ≡ self.old.outs ++ instance.now.outs.items ∷ []) }
    {
        self.parts.push(instance.part)?;
        self.ins.push(instance.ins.as_slice())?;
        self.outs.push(instance.outs.as_slice())?;
        Ok(())
    }
}

/// An instance; `None` where the term is no name with two lists of nets.
fn read_instance<'s>(
    alloc: Global,
    nets: &mut Nets<'s>,
    term: &RawTerm<'s>,
) -> Result<Option<Instance<'s>>, AllocError>
    requires { is_written (form_of term.now) ≡ true }
    ensures { IfOk result (λ o. MatchOption o (instance_of (apart (form_of term.now) nets.old.own).0 ≡ None) (λ i. ReadsInstance nets.old nets.new (form_of term.now) i.part.now i.ins.items i.outs.items)) }
{
    let Some((part, args)) = named(term) else {
        return Ok(None);
    };
    let Some((ins, outs)) = two(args) else {
        return Ok(None);
    };
    let Some(ins) = nets.list(alloc, ins)? else {
        return Ok(None);
    };
    let Some(outs) = nets.list(alloc, outs)? else {
        return Ok(None);
    };
    Ok(Some(Instance { part, ins, outs }))
}

/// Instances; `None` where a term is no instance.
pub(crate) fn read_instances<'s>(
    alloc: Global,
    nets: &mut Nets<'s>,
    terms: &[RawTerm<'s>],
) -> Result<Option<Instances<'s>>, AllocError>
    requires { are_written (forms_of (map form_of terms.now)) ≡ true }
    ensures { IfOk result (λ o. MatchOption o (instances_in (apart_all (forms_of (map form_of terms.now)) nets.old.own).0 ≡ None) (λ r. ReadsInstances nets.old nets.new (forms_of (map form_of terms.now)) (texts r.parts.items) r.ins r.outs)) }
{
    let mut all = Instances::new(alloc);
    for term in terms {
        let Some(instance) = read_instance(alloc, nets, term)? else {
            return Ok(None);
        };
        all.push(&instance)?;
    }
    Ok(Some(all))
}
