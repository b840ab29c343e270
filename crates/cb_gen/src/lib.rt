//! Generated circuits: the text of an adder of any width, with its specification.
#![tactic(auto)]

ghost use Rattle.std.specs.Prelude.{◌≡◌, ◌≤◌, ◌<◌, ◌++◌, ◌∷◌, [], suc, codes, IfOk, OnOk};
ghost use Rattle.cb_model.specs.Adder.{named, ports_text, outs_text, part_text, carry_text, sum_text, exprs_text, adder_text};
ghost use Rattle.cb_gen.specs.Parts.{pair_text, parts_text};

use itoa::Buffer;
use std::alloc::{AllocError, Global};

/// The text of a file with a half adder, a full adder of two half adders, the module `adder` of `n` full adders in a row,
/// and its specification, in which each carry is written out over the inputs. The adder has the inputs `C0`, `A0`, `B0`,
/// `A1`, `B1` and so on, and the outputs `S0`, `S1` and so on, and the last carry.
pub fn adder_text(alloc: Global, n: u32) -> Result<Vec<u8>, AllocError>
    requires { (1 ≤ n) × (n ≤ 64) }
    ensures { IfOk result (λ v. v.items ≡ adder_text n) }
{
    let mut text = Vec::from_slice(
        alloc,
        b"module(half,[A,B],[S,C],[xor([A,B],[S]),and([A,B],[C])]).\n",
    )?;
    text.extend_from_slice(
        b"module(full,[A,B,C],[S,D],[half([A,B],[T,U]),half([T,C],[S,V]),or([U,V],[D])]).\n",
    )?;
    text.extend_from_slice(b"module(adder,[")?;
    push_ports(&mut text, n)?;
    text.extend_from_slice(b"],[")?;
    push_outs(&mut text, n)?;
    text.extend_from_slice(b"],[")?;
    push_parts(&mut text, n)?;
    text.extend_from_slice(b"]).\nspec(adder,[")?;
    push_ports(&mut text, n)?;
    text.extend_from_slice(b"],[")?;
    push_exprs(alloc, &mut text, n)?;
    text.extend_from_slice(b"]).\n")?;
    Ok(text)
}

// Appends a letter with a number.
fn push_named(text: &mut Vec<u8>, letter: &[u8], number: u32) -> Result<(), AllocError>
    ensures { OnOk result (text.new.items ≡ text.old.items ++ named letter.now number) }
{
    let mut digits = Buffer::new();
    text.extend_from_slice(letter)?;
    text.extend_from_slice(digits.format(number).as_bytes())?;
    Ok(())
}

// Appends the two inputs of a bit, with a sign between them.
fn push_pair(text: &mut Vec<u8>, bit: u32, sign: &[u8]) -> Result<(), AllocError>
    ensures { OnOk result (text.new.items ≡ text.old.items ++ pair_text bit sign.now) }
{
    push_named(text, b"A", bit)?;
    text.extend_from_slice(sign)?;
    push_named(text, b"B", bit)
}

// Appends the inputs: the first carry, and the two of each bit.
fn push_ports(text: &mut Vec<u8>, n: u32) -> Result<(), AllocError>
    ensures { OnOk result (text.new.items ≡ text.old.items ++ ports_text n) }
{
    text.extend_from_slice(b"C0")?;
    for bit in 0..n {
        text.push(b',')?;
        push_pair(text, bit, b",")?;
    }
    Ok(())
}

// Appends the outputs: the sums, and the last carry.
fn push_outs(text: &mut Vec<u8>, n: u32) -> Result<(), AllocError>
    ensures { OnOk result (text.new.items ≡ text.old.items ++ outs_text n) }
{
    for bit in 0..n {
        push_named(text, b"S", bit)?;
        text.push(b',')?;
    }
    push_named(text, b"C", n)
}

// Appends the full adder of a bit.
fn push_part(text: &mut Vec<u8>, bit: u32) -> Result<(), AllocError>
    requires { bit < 64 }
    ensures { OnOk result (text.new.items ≡ text.old.items ++ part_text bit) }
{
    text.extend_from_slice(b"full([")?;
    push_pair(text, bit, b",")?;
    text.push(b',')?;
    push_named(text, b"C", bit)?;
    text.extend_from_slice(b"],[")?;
    push_named(text, b"S", bit)?;
    text.push(b',')?;
    push_named(text, b"C", bit + 1)?;
    text.extend_from_slice(b"])")?;
    Ok(())
}

// Appends the full adders of all bits.
fn push_parts(text: &mut Vec<u8>, n: u32) -> Result<(), AllocError>
    requires { (1 ≤ n) × (n ≤ 64) }
    ensures { OnOk result (text.new.items ≡ text.old.items ++ parts_text n) }
{
    for bit in 0..n - 1 {
        push_part(text, bit)?;
        text.push(b',')?;
    }
    push_part(text, n - 1)
}

// The carry behind a bit, by the carry into it.
fn next_carry(alloc: Global, bit: u32, carry: &[u8]) -> Result<Vec<u8>, AllocError>
    requires { carry.now ≡ carry_text bit }
    ensures { IfOk result (λ v. v.items ≡ carry_text (suc bit)) }
{
    let mut text = Vec::from_slice(alloc, b"(")?;
    push_pair(&mut text, bit, b"*")?;
    text.extend_from_slice(b"+(")?;
    push_pair(&mut text, bit, b"+")?;
    text.extend_from_slice(b")*")?;
    text.extend_from_slice(carry)?;
    text.push(b')')?;
    Ok(text)
}

// Appends the sum of a bit, by the carry into it.
fn push_sum(text: &mut Vec<u8>, bit: u32, carry: &[u8]) -> Result<(), AllocError>
    requires { carry.now ≡ carry_text bit }
    ensures { OnOk result (text.new.items ≡ text.old.items ++ sum_text bit) }
{
    push_pair(text, bit, b"#")?;
    text.push(b'#')?;
    text.extend_from_slice(carry)?;
    Ok(())
}

// Appends the expressions of the outputs: the sums, and the last carry.
fn push_exprs(alloc: Global, text: &mut Vec<u8>, n: u32) -> Result<(), AllocError>
    ensures { OnOk result (text.new.items ≡ text.old.items ++ exprs_text n) }
{
    let mut carry = Vec::from_slice(alloc, b"C0")?;
    for bit in 0..n {
        push_sum(text, bit, carry.as_slice())?;
        text.push(b',')?;
        carry = next_carry(alloc, bit, carry.as_slice())?;
    }
    text.extend_from_slice(carry.as_slice())?;
    Ok(())
}
