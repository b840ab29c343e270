//! Files of circuits that are made: many modules, and ports that stand bus after bus.

use cb_forms::forms::push_form;
use cb_trial::text::push;
use std::alloc::Global;
use std::test::Fail;

/// So many modules: `t0` turns its input, and each further one, `t1` and so on, is the one before. The last has a
/// specification.
pub fn push_tower(alloc: Global, out: &mut Vec<u8>, count: u32) -> Result<(), Fail> {
    let form =
        "module(t0,[A],[Y],[not([A],[Y])]).\n|>module(t^,[A],[Y],[t@([A],[Y])]).\n|spec(t@,[A],[~A]).\n";
    push_form(alloc, out, form, "", count.saturating_sub(1))
}

/// A comparator of two buses, the least bit first: all of A, then all of B. The output is to be 1 where A is less than B;
/// where `right` is false it is 1 where B is less than A.
pub fn push_comparator(
    alloc: Global,
    out: &mut Vec<u8>,
    width: u32,
    right: bool,
) -> Result<(), Fail> {
    let ports = if right { "A,B" } else { "B,A" };
    let cell =
        "module(cell,[$,L],[M],[not([A],[N]),and([N,B],[P]),xnor([A,B],[E]),and([E,L],[Q]),or([P,Q],[M])]).\n";
    push_form(alloc, out, cell, ports, width)?;
    let module = "module(m,[|>A@,|;B@|],[L@],[zero([],[L0])|>,cell([A@,B@,L@],[L^])|]).\n";
    push_form(alloc, out, module, "", width)?;
    let spec = "spec(m,[|>A@,|;B@|],[|<(~A@*B@+~(A@#B@)*|0|>)|]).\n";
    push_form(alloc, out, spec, "", width)
}

/// An adder of two buses, the least bit first: all of A, all of B, then the carry `C0`; the outputs are the sums, then the
/// last carry. At one bit the carry takes A in place of the product of A and B, at another one B; a bit past the width is
/// none.
pub fn push_adder(
    alloc: Global,
    out: &mut Vec<u8>,
    width: u32,
    with: (u32, u32),
) -> Result<(), Fail> {
    push_parts(alloc, out)?;
    push_module(alloc, out, width, with)?;
    push_form(alloc, out, "spec(m,[|>A@,|>B@,|C0],[", "", width)?;
    push_sums(alloc, out, width)
}

// A half adder and the full adders.
fn push_parts(alloc: Global, out: &mut Vec<u8>) -> Result<(), Fail> {
    push(
        out,
        "module(half,[A,B],[S,C],[xor([A,B],[S]),and([A,B],[C])]).\n",
    )?;
    push_full_adder(alloc, out, "full", "U")?;
    push_full_adder(alloc, out, "with_a", "A")?;
    push_full_adder(alloc, out, "with_b", "B")
}

// A full adder of two half adders, of which one carry is taken from the net.
fn push_full_adder(alloc: Global, out: &mut Vec<u8>, name: &str, net: &str) -> Result<(), Fail> {
    push_form(alloc, out, "module($,[A,B,C],[S,D],", name, 0)?;
    push_form(
        alloc,
        out,
        "[half([A,B],[T,U]),half([T,C],[S,V]),or([$,V],[D])]).\n",
        net,
        0,
    )
}

// The module of an adder, with a full adder a bit.
fn push_module(alloc: Global, out: &mut Vec<u8>, width: u32, with: (u32, u32)) -> Result<(), Fail> {
    let ports = "module(m,[|>A@,|>B@,|C0],[|>S@,|C@],[zero([],[N])";
    push_form(alloc, out, ports, "", width)?;
    for bit in 0..width {
        let full = full_adder_of(bit, with);
        push_form(alloc, out, ",$([A@,B@,C@],[S@,C^])", full, bit)?;
    }
    push(out, "]).\n")
}

// The full adder of a bit.
fn full_adder_of(bit: u32, with: (u32, u32)) -> &'static str {
    if bit == with.0 {
        "with_a"
    } else if bit == with.1 {
        "with_b"
    } else {
        "full"
    }
}

// The sums and the last carry, as expressions.
fn push_sums(alloc: Global, out: &mut Vec<u8>, width: u32) -> Result<(), Fail> {
    let carry = "|<(A@*B@+(A@+B@)*|C0|>)|";
    for bit in 0..width {
        push_form(alloc, out, "A@#B@#", "", bit)?;
        push_form(alloc, out, carry, "", bit)?;
        push(out, ",")?;
    }
    push_form(alloc, out, carry, "", width)?;
    push(out, "]).\n")
}

/// A row of gates through so many inputs, `I0` read first, against 0: with `and` they differ where all inputs are 1, with
/// `or` where one is. The ports stand as they are read, or the other way round.
pub fn push_row(
    alloc: Global,
    out: &mut Vec<u8>,
    gate: &str,
    count: u32,
    turned: bool,
) -> Result<(), Fail> {
    let last = count.saturating_sub(1);
    let ports = if turned { "I@|<,I@|" } else { "I0|>,I^|" };
    push(out, "module(m,[")?;
    push_form(alloc, out, ports, "", last)?;
    push_form(
        alloc,
        out,
        "],[X0],[buf([I@],[X@])|<,$([I@,X^],[X@])|]).\n",
        gate,
        last,
    )?;
    push(out, "spec(m,[")?;
    push_form(alloc, out, ports, "", last)?;
    push(out, "],[0]).\n")
}
