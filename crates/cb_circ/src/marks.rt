//! Whether each net of a fact is driven exactly once.

ghost use Rattle.std.specs.Prelude.{◌≡◌, true, false, length, All, ◌<◌, flat_map, IfOk, MatchBool, Some, None};
ghost use Rattle.cb_model.specs.Facts.{all_driven_once};
ghost use Rattle.cb_circ.specs.View.{IsWell, module_view};
ghost use Rattle.cb_circ.specs.Marks.{marked, are_marked, AreWithin};

use cb_facts::RawModule;
use std::alloc::{AllocError, Global};

/// Marks nets; whether none was marked before.
fn mark(marks: &mut [bool], nets: &[u32]) -> bool
    requires { AreWithin (length marks.old) nets.now }
    ensures { MatchBool result (marked marks.old nets.now ≡ Some marks.new) (marked marks.old nets.now ≡ None) }
{
    for net in nets {
        let net = *net as usize;
        if marks[net] {
            return false;
        }
        marks[net] = true;
    }
    true
}

/// Whether nets are marked.
fn all_marked(marks: &[bool], nets: &[u32]) -> bool
    requires { AreWithin (length marks.now) nets.now }
    ensures { result ≡ are_marked marks.now nets.now }
{
    for net in nets {
        if !marks[*net as usize] {
            return false;
        }
    }
    true
}

/// Whether each net is driven exactly once, by being an input or an output pin.
pub(crate) fn driven_once(alloc: Global, raw: &RawModule<'_>) -> Result<bool, AllocError>
    requires { IsWell raw.now }
    ensures { IfOk result (λ b. b ≡ all_driven_once (module_view raw.now)) }
{
    let mut marks = vec![in alloc; true; raw.inputs as usize]?;
    marks.resize(raw.nets.len(), false)?;
    if !mark(marks.as_mut_slice(), raw.outs.items()) {
        return Ok(false);
    }
    if !all_marked(marks.as_slice(), raw.outputs.as_slice()) {
        return Ok(false);
    }
    Ok(all_marked(marks.as_slice(), raw.ins.items()))
}
