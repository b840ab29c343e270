//! Which instances drive which nets, and their order by that.

ghost use Rattle.std.specs.Prelude.{◌≡◌, ◌<◌, ◌≤◌, ◌^◌, ℕ, true, length, take, [], ◌∷◌, ◌++◌, IfOk, IfSome, OnOk, MatchOption, option_to_list};
ghost use Rattle.cb_model.specs.Facts.{all_driven_once, HasCycle};
ghost use Rattle.cb_model.specs.Order.{IsOrder};
ghost use Rattle.cb_flat.specs.Acyclic.{instance_graph};
ghost use Rattle.cb_circ.specs.View.{IsWell, module_view};
ghost use Rattle.cb_circ.specs.Marks.{AreWithin};
ghost use Rattle.cb_circ.specs.Owners.{owner_or, owned, owned_all, wanted};

use cb_facts::RawModule;
use cb_flat::flat_has_one;
use cb_lists::Lists;
use cb_order::order;
use std::alloc::{AllocError, Global};

/// The owner of a net, or this one where it has none.
fn first(owner: Option<u32>, instance: u32) -> Option<u32>
    ensures { result ≡ owner_or owner instance }
{
    match owner {
        Some(_) => owner,
        None => Some(instance),
    }
}

/// Gives nets to an instance, but for those that have one.
fn own(owners: &mut [Option<u32>], nets: &[u32], instance: u32)
    requires { AreWithin (length owners.old) nets.now }
    ensures { owners.new ≡ owned owners.old nets.now instance }
{
    for net in nets {
        let net = *net as usize;
        owners[net] = first(owners[net], instance);
    }
}

/// For each net the first instance that drives it, if one does.
fn owners(alloc: Global, raw: &RawModule<'_>) -> Result<Vec<Option<u32>>, AllocError>
    requires well { IsWell raw.now }
    requires few { length raw.now.outs ≤ 2 ^ 32 }
    ensures { IfOk result (λ v. v.items ≡ owned_all (length raw.now.nets) raw.now.outs) }
{
    let mut owners = vec![in alloc; None; raw.nets.len()]?;
    for instance in 0..raw.outs.len() {
        own(
            owners.as_mut_slice(),
            raw.outs.list(instance),
            instance as u32,
        );
    }
    Ok(owners)
}

/// Adds the owner of a net, where it has one.
fn push(owner: Option<u32>, needs: &mut Vec<u32>) -> Result<(), AllocError>
    ensures { OnOk result (needs.new.items ≡ needs.old.items ++ option_to_list owner) }
{
    match owner {
        Some(owner) => {
            needs.push(owner)?;
            Ok(())
        }
        None => Ok(()),
    }
}

/// Adds the instances that drive nets.
fn want(owners: &[Option<u32>], nets: &[u32], needs: &mut Vec<u32>) -> Result<(), AllocError>
    requires { AreWithin (length owners.now) nets.now }
    ensures { OnOk result (needs.new.items ≡ needs.old.items ++ wanted owners.now nets.now) }
{
    for net in nets {
        push(owners[*net as usize], needs)?;
    }
    Ok(())
}

/// For each instance those whose outputs it takes.
fn graph(alloc: Global, raw: &RawModule<'_>) -> Result<Lists, AllocError>
    requires well { IsWell raw.now }
    requires few { length raw.now.outs ≤ 2 ^ 32 }
    ensures { IfOk result (λ g. g ≡ instance_graph (module_view raw.now)) }
{
    let owners = owners(alloc, raw)?;
    let mut graph = Lists::new(alloc);
    let mut needs = Vec::new(alloc);
    for instance in 0..raw.ins.len() {
        needs.clear();
        want(owners.as_slice(), raw.ins.list(instance), &mut needs)?;
        graph.push(needs.as_slice())?;
    }
    Ok(graph)
}

/// The instances in an order in which each comes behind those whose outputs it takes; `None` exactly where some of them
/// each take an output of the one before, round to the first. A fact with more instances than a `u32` counts is refused
/// as want of memory.
pub(crate) fn instance_order(
    alloc: Global,
    raw: &RawModule<'_>,
) -> Result<Option<Vec<u32>>, AllocError>
    requires well { IsWell raw.now }
    requires once { all_driven_once (module_view raw.now) ≡ true }
    ensures order { IfOk result (λ o. MatchOption o (HasCycle (module_view raw.now)) (λ v. IsOrder (instance_graph (module_view raw.now)) v.items)) }
    ensures none { IfOk result (λ o. IfSome o (λ v. HasCycle (module_view raw.now) → ⊥)) }
{
    flat_has_one();
    if raw.outs.len() > u32::MAX as usize {
        return Err(AllocError);
    }
    let graph = graph(alloc, raw)?;
    order(alloc, &graph)
}
