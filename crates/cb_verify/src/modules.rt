//! Comparisons of the modules of a file by name, and the nodes of a module's outputs.

ghost use Rattle.std.specs.Prelude.{◌≡◌, ◌≢◌, ◌-◌, ◌<◌, ◌^◌, [], Err, IfOk, length, map, true};
ghost use Rattle.cb_model.specs.Bits.{Bits, all_of};
ghost use Rattle.cb_model.specs.Circuits.{BySpec, Outputs, flats};
ghost use Rattle.cb_model.specs.Values.{in_scope};
ghost use Rattle.cb_model.specs.Output.{IsDetermined, module_named, spec_named};
ghost use Rattle.cb_model.specs.Room.{flat_pins};
ghost use Rattle.cb_ops.specs.Ops.{Grows};
ghost use Rattle.cb_circ.specs.At.{module_at, flat_at};
ghost use Rattle.cb_verify.specs.Modules.{VerifyAnswers, SameAnswers, UnfoldRoom, UnfoldCause, circuit_at, exprs_room, modules_room, spec_fits, module_fits};
ghost use Rattle.cb_verify.specs.Nodes.{AreNodes, node_bits};
ghost use Rattle.cb_verify.specs.Order.{IsFlattened};
ghost use Rattle.cb_verify.specs.Verdict.{IsRight};

use crate::Verdict;
use crate::comparison::{Wanted, compared};
use crate::unfolding::unfold_circuit;
use cb_circ::Circuits;
use cb_dd::{Node, Stop};
use cb_model::{Circuit, Expr};
use cb_ops::Ops;
use std::alloc::Global;
use thiserror::Error;

/// Why modules aren't compared.
#[derive(Clone, Copy, Debug, Drop, Error)]
pub enum VerifyError {
    /// There is no module of the name.
    #[error("no such module")]
    NoModule,
    /// There is no specification of the module's name.
    #[error("no specification")]
    NoSpec,
    /// The two sides have different numbers of inputs or of outputs.
    #[error("ports differ")]
    Shape,
    /// The budget of nodes was reached, or there was no memory.
    #[error("stopped")]
    Stop(Stop),
}

/// Compares the module of a name with the specification of that name, on a store of at most `budget` nodes. What is
/// wanted of output k are the values of expression k.
pub fn verify(
    alloc: Global,
    circuits: &Circuits<'_>,
    name: &[u8],
    budget: usize,
) -> Result<Verdict, VerifyError>
    ensures { VerifyAnswers circuits.now name.now budget (module_named circuits.now name.now) (spec_named circuits.now name.now) result }
{
    let Some(m) = circuits.find(name) else {
        return Err(VerifyError::NoModule);
    };
    let Some(p) = circuits.spec(name) else {
        return Err(VerifyError::NoSpec);
    };
    if !fits_spec(circuits, m, p) {
        return Err(VerifyError::Shape);
    }
    match with_exprs(alloc, circuits, m, circuits.spec_exprs(p), budget) {
        Ok(verdict) => Ok(verdict),
        Err(stop) => Err(VerifyError::Stop(stop)),
    }
}

/// Compares two modules by name, on a store of at most `budget` nodes. What is wanted of an output of the first is the
/// output of the second at the same place, at the same input. `NoSpec` never comes.
pub fn same(
    alloc: Global,
    circuits: &Circuits<'_>,
    one: &[u8],
    two: &[u8],
    budget: usize,
) -> Result<Verdict, VerifyError>
    ensures { SameAnswers circuits.now one.now two.now budget (module_named circuits.now one.now) (module_named circuits.now two.now) result }
{
    let Some(m) = circuits.find(one) else {
        return Err(VerifyError::NoModule);
    };
    let Some(n) = circuits.find(two) else {
        return Err(VerifyError::NoModule);
    };
    if !fits_module(circuits, m, n) {
        return Err(VerifyError::Shape);
    }
    match with_module(alloc, circuits, m, n, budget) {
        Ok(verdict) => Ok(verdict),
        Err(stop) => Err(VerifyError::Stop(stop)),
    }
}

/// Whether a module has as many ports as a specification.
fn fits_spec(circuits: &Circuits<'_>, m: u32, p: u32) -> bool
    requires first { m < length circuits.now.modules }
    requires spec { p < length circuits.now.specs }
    ensures { result ≡ spec_fits circuits.now m p }
{
    circuits.inputs(m) == circuits.spec_inputs(p)
        && circuits.outputs(m) as usize == circuits.spec_exprs(p).len()
}

/// Whether a module has as many ports as another one.
fn fits_module(circuits: &Circuits<'_>, m: u32, n: u32) -> bool
    requires first { m < length circuits.now.modules }
    requires second { n < length circuits.now.modules }
    ensures { result ≡ module_fits circuits.now m n }
{
    circuits.inputs(m) == circuits.inputs(n) && circuits.outputs(m) == circuits.outputs(n)
}

/// The circuit of a module when it is flattened.
fn flattened(alloc: Global, circuits: &Circuits<'_>, m: u32) -> Result<Circuit, Stop>
    requires { m < length circuits.now.modules }
    ensures is { IfOk result (λ c. c ≡ circuit_at circuits.now m) }
    ensures flattened { IfOk result (IsFlattened (flat_at circuits.now m)) }
    ensures determined { IsDetermined (circuit_at circuits.now m) }
    ensures memory { result ≢ Err Stop.Nodes }
{
    match circuits.flat(alloc, m) {
        Ok(circuit) => Ok(circuit),
        Err(_) => Err(Stop::Memory),
    }
}

/// The comparison of a module with expressions over its inputs, one for each output.
fn with_exprs(
    alloc: Global,
    circuits: &Circuits<'_>,
    m: u32,
    exprs: &[Expr],
    budget: usize,
) -> Result<Verdict, Stop>
    requires first { m < length circuits.now.modules }
    requires flats { circuits.now.flats ≡ flats [] circuits.now.modules }
    requires scope { all_of (map (in_scope 0 (length (module_at circuits.now m).inputs)) exprs.now) ≡ true }
    requires as_many { length exprs.now ≡ length (module_at circuits.now m).outputs }
    ensures determined { IsDetermined (circuit_at circuits.now m) }
    ensures verdict { IfOk result (IsRight (circuit_at circuits.now m) (BySpec exprs.now)) }
    ensures nodes { result ≡ Err Stop.Nodes → budget < exprs_room circuits.now m exprs.now }
    ensures unbounded { result ≡ Err Stop.Nodes → budget ≢ 2 ^ 64 - 1 }
{
    let circuit = flattened(alloc, circuits, m)?;
    compared(alloc, &circuit, Wanted::Spec(exprs), budget)
}

/// The comparison of a module with another one, which has as many inputs and outputs.
fn with_module(
    alloc: Global,
    circuits: &Circuits<'_>,
    m: u32,
    n: u32,
    budget: usize,
) -> Result<Verdict, Stop>
    requires first { m < length circuits.now.modules }
    requires second { n < length circuits.now.modules }
    requires flats { circuits.now.flats ≡ flats [] circuits.now.modules }
    requires inputs { length (module_at circuits.now m).inputs ≡ length (module_at circuits.now n).inputs }
    requires outputs { length (module_at circuits.now m).outputs ≡ length (module_at circuits.now n).outputs }
    ensures determined { IsDetermined (circuit_at circuits.now m) × IsDetermined (circuit_at circuits.now n) }
    ensures verdict { IfOk result (IsRight (circuit_at circuits.now m) (Outputs (circuit_at circuits.now n))) }
    ensures nodes { result ≡ Err Stop.Nodes → budget < modules_room circuits.now m n }
    ensures unbounded { result ≡ Err Stop.Nodes → budget ≢ 2 ^ 64 - 1 }
{
    let (one, two) = (flattened(alloc, circuits, m), flattened(alloc, circuits, n));
    let one = one?;
    let two = two?;
    compared(alloc, &one, Wanted::Second(&two), budget)
}

/// The nodes of the outputs of a module over those of its inputs, one for each input: the functions of the outputs of its
/// flattened circuit. At most `8 * (p + 1) * 2 ^ (w + 1)` nodes are made, where its gates have p pins, their outputs
/// among them, and the inputs depend on w levels. `Stop::Nodes` says that the budget of the store was reached; nodes that
/// were made by then stay.
pub fn unfold(
    alloc: Global,
    circuits: &Circuits<'_>,
    module: u32,
    inputs: &[Node],
    ops: &mut Ops,
) -> Result<Vec<Node>, Stop>
    requires number { «module» < length circuits.now.modules }
    requires nodes { AreNodes ops.old.triples inputs.now }
    requires as_many { length inputs.now ≡ (flat_at circuits.now «module»).inputs }
    ensures nodes { IfOk result (λ ns. AreNodes ops.new.triples ns.items) }
    ensures outputs { IfOk result (λ ns. (a : Bits) → Outputs (circuit_at circuits.now «module») (node_bits ops.old.triples inputs.now a) (node_bits ops.new.triples ns.items a)) }
    ensures determined { IsDetermined (circuit_at circuits.now «module») }
    ensures grows { Grows ops.old ops.new }
    ensures room { UnfoldRoom (flat_pins (flat_at circuits.now «module»)) inputs.now ops.old ops.new }
    ensures cause { result ≡ Err Stop.Nodes → UnfoldCause (flat_pins (flat_at circuits.now «module»)) inputs.now ops.old ops.new }
{
    let circuit = flattened(alloc, circuits, module)?;
    unfold_circuit(alloc, ops, &circuit, inputs)
}
