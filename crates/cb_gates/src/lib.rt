//! The kinds of gates: their names, the numbers of inputs that they may have, and their values.
#![tactic(auto)]

ghost use Rattle.std.specs.Prelude.{◌≡◌, true, length};
ghost use Rattle.cb_model.specs.Bits.{all_of, some_of, odd_of};
ghost use Rattle.cb_model.specs.Circuits.{gate_names, kind_named, pins_of, gate_value};

use cb_model::GateKind;

/// The kind of gate with this name; `None` where no gate has it.
pub fn gate(name: &[u8]) -> Option<GateKind>
    ensures { result ≡ kind_named gate_names name.now }
{
    match name {
        b"zero" => Some(GateKind::Zero),
        b"one" => Some(GateKind::One),
        b"buf" => Some(GateKind::Buf),
        b"not" => Some(GateKind::Not),
        b"and" => Some(GateKind::And),
        b"or" => Some(GateKind::Or),
        b"xor" => Some(GateKind::Xor),
        b"nand" => Some(GateKind::Nand),
        b"nor" => Some(GateKind::Nor),
        b"xnor" => Some(GateKind::Xnor),
        b"mux" => Some(GateKind::Mux),
        _ => None,
    }
}

/// Whether a gate of this kind may have so many inputs. Each gate has one output.
pub fn pins(kind: GateKind, ins: usize) -> bool
    ensures { result ≡ pins_of kind ins }
{
    match kind {
        GateKind::Zero => ins == 0,
        GateKind::One => ins == 0,
        GateKind::Buf => ins == 1,
        GateKind::Not => ins == 1,
        GateKind::Mux => ins == 3,
        _ => 2 <= ins && ins <= 8,
    }
}

/// Whether all bits are 1.
fn are_all(bits: &[bool]) -> bool
    ensures { result ≡ all_of bits.now }
{
    bits.iter().all(|bit| *bit)
}

/// Whether one bit at least is 1.
fn is_some(bits: &[bool]) -> bool
    ensures { result ≡ some_of bits.now }
{
    bits.iter().any(|bit| *bit)
}

/// Whether an odd number of bits is 1.
fn is_odd(bits: &[bool]) -> bool
    ensures { result ≡ odd_of bits.now }
{
    let mut odd = false;
    for bit in bits {
        odd ^= *bit;
    }
    odd
}

/// The value of a gate at the bits of its inputs.
pub fn value(kind: GateKind, bits: &[bool]) -> bool
    requires { pins_of kind (length bits.now) ≡ true }
    ensures { result ≡ gate_value kind bits.now }
{
    match kind {
        GateKind::Zero => false,
        GateKind::One => true,
        GateKind::Buf => bits[0],
        GateKind::Not => !bits[0],
        GateKind::And => are_all(bits),
        GateKind::Or => is_some(bits),
        GateKind::Xor => is_odd(bits),
        GateKind::Nand => !are_all(bits),
        GateKind::Nor => !is_some(bits),
        GateKind::Xnor => !is_odd(bits),
        GateKind::Mux => if bits[0] { bits[2] } else { bits[1] },
    }
}
