//! The kinds of gates.

ghost use Rattle.std.specs.Prelude.{◌≤◌};

use cb_gates::{gate, pins, value};
use cb_model::GateKind;
use std::io::Write;
use std::test::Fail;

/// Writes the kind of gate with a name and which numbers of inputs from 0 to 9 it may have, or that no gate has the name.
pub(crate) fn tell_kind(name: &str, out: &mut Vec<u8>) -> Result<(), Fail> {
    let Some(kind) = gate(name.as_bytes()) else {
        writeln!(out, "no gate")?;
        return Ok(());
    };
    write!(out, "{kind:?}")?;
    for ins in 0..10 {
        if pins(kind, ins) {
            write!(out, " {ins}")?;
        }
    }
    writeln!(out)?;
    Ok(())
}

/// Writes the values of the gate with a name over so many inputs, one for each row of their bits: the first row is all 0,
/// and the last input changes fastest.
pub(crate) fn tell_values(name: &str, ins: usize, out: &mut Vec<u8>) -> Result<(), Fail> {
    let Some(kind) = gate(name.as_bytes()) else {
        writeln!(out, "no gate")?;
        return Ok(());
    };
    if ins > 8 {
        writeln!(out, "too many")?;
        return Ok(());
    }
    for row in 0..1u32 << ins {
        push_value(kind, row, ins, out)?;
    }
    writeln!(out)?;
    Ok(())
}

// Writes the value of a gate at a row.
fn push_value(kind: GateKind, row: u32, ins: usize, out: &mut Vec<u8>) -> Result<(), Fail>
    requires { ins ≤ 8 }
{
    let mut bits = [false; 8];
    for k in 0..ins {
        bits[k] = row >> (ins - 1 - k) & 1 == 1;
    }
    let bits = &bits[..ins];
    if !pins(kind, bits.len()) {
        write!(out, "-")?;
        return Ok(());
    }
    write!(out, "{}", u8::from(value(kind, bits)))?;
    Ok(())
}
