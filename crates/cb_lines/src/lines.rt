//! The texts of printed lines. Each is made whole, with all its memory, before a byte of it is written.

ghost use Rattle.std.specs.Prelude.{◌≡◌, ◌≤◌, ◌-◌, [], ◌∷◌, ◌++◌, map, length, codes, decimal, IfOk, OnOk};
ghost use Rattle.cb_model.specs.Text.{shown_name, lines_text};
ghost use Rattle.cb_model.specs.Verdicts.{bit_text, port_texts, at_text, differs_text};
ghost use Rattle.cb_lines.specs.Lines.{adder_size_text, spaced, output_text, word_text, names_text};

use cb_show::push_name;
use itoa::Buffer;
use std::alloc::{AllocError, Global};

/// The words are of no form.
pub const USAGE: &[u8] = b"error: usage\n";

/// The file is longer than its limit.
pub const FILE_TOO_LONG: &[u8] = b"error: file too long\n";

/// The input is longer than its limit.
pub const INPUT_TOO_LONG: &[u8] = b"error: input too long\n";

/// What was asked for isn't built yet.
pub const UNBUILT: &[u8] = b"error: not built yet\n";

/// The budget of nodes was reached.
pub const STOPPED_NODES: &[u8] = b"stopped: nodes\n";

/// There is no module of a name.
pub const NO_MODULE: &[u8] = b"error: no such module\n";

/// There is no specification of a module's name.
pub const NO_SPEC: &[u8] = b"error: no specification\n";

/// Two sides of a comparison have different numbers of ports.
pub const PORTS_DIFFER: &[u8] = b"error: ports differ\n";

/// What is compared.
#[derive(Clone, Copy)]
pub enum Pair<'a> {
    /// The module of a name with its specification.
    Specified(&'a [u8]),
    /// The module of the first name with that of the second.
    Modules(&'a [u8], &'a [u8]),
}

// The word of a pair whose sides agree.
fn word(pair: Pair<'_>) -> &'static [u8]
    ensures { result.now ≡ word_text pair.entry }
{
    match pair {
        Pair::Specified(_) => b"verified ",
        Pair::Modules(..) => b"same ",
    }
}

// The names of a pair.
fn push_names(line: &mut Vec<u8>, pair: Pair<'_>) -> Result<(), AllocError>
    ensures { OnOk result (line.new.items ≡ line.old.items ++ names_text pair.entry) }
{
    match pair {
        Pair::Specified(name) => push_name(line, name),
        Pair::Modules(one, two) => {
            push_name(line, one)?;
            line.push(b' ')?;
            push_name(line, two)
        }
    }
}

/// The line of two sides that agree.
pub fn agrees_line(alloc: Global, pair: Pair<'_>) -> Result<Vec<u8>, AllocError>
    ensures { IfOk result (λ v. v.items ≡ lines_text ((word_text pair.entry ++ names_text pair.entry) ∷ [])) }
{
    let mut line = Vec::from_slice(alloc, word(pair))?;
    push_names(&mut line, pair)?;
    line.push(b'\n')?;
    Ok(line)
}

/// The line of a file that is accepted: how many clauses it has that are no facts of circuits, and how many modules.
pub fn checked_line(alloc: Global, clauses: usize, modules: usize) -> Result<Vec<u8>, AllocError>
    ensures { IfOk result (λ v. v.items ≡ lines_text ((codes "checked: " ++ decimal clauses ++ codes " clauses, " ++ decimal modules ++ codes " modules") ∷ [])) }
{
    let mut number = Buffer::new();
    let mut line = Vec::from_slice(alloc, b"checked: ")?;
    line.extend_from_slice(number.format(clauses).as_bytes())?;
    line.extend_from_slice(b" clauses, ")?;
    line.extend_from_slice(number.format(modules).as_bytes())?;
    line.extend_from_slice(b" modules\n")?;
    Ok(line)
}

/// The line of a generated adder that is right: how many inputs, outputs and gates it has.
pub fn adder_line(
    alloc: Global,
    inputs: u32,
    outputs: u32,
    gates: u32,
) -> Result<Vec<u8>, AllocError>
    ensures { IfOk result (λ v. v.items ≡ lines_text (adder_size_text inputs outputs gates ∷ [])) }
{
    let mut number = Buffer::new();
    let mut line = Vec::from_slice(alloc, b"verified adder: inputs ")?;
    line.extend_from_slice(number.format(inputs).as_bytes())?;
    line.extend_from_slice(b", outputs ")?;
    line.extend_from_slice(number.format(outputs).as_bytes())?;
    line.extend_from_slice(b", gates ")?;
    line.extend_from_slice(number.format(gates).as_bytes())?;
    line.push(b'\n')?;
    Ok(line)
}

/// The line of two sides that differ: the input and the output, counted from 1, at which they do, what the output is
/// there and what was wanted.
pub fn differs_line(
    alloc: Global,
    pair: Pair<'_>,
    ports: &[&[u8]],
    input: &[bool],
    output: u32,
    got: bool,
    wanted: bool,
) -> Result<Vec<u8>, AllocError>
    requires ports { length ports.now ≡ length input.now }
    requires output { 1 ≤ output }
    ensures { IfOk result (λ v. v.items ≡ lines_text (differs_text (names_text pair.entry) (map (λ p. p.now) ports.now) input.now (output - 1) got wanted ∷ [])) }
{
    let mut line = Vec::from_slice(alloc, b"differs ")?;
    push_names(&mut line, pair)?;
    push_inputs(&mut line, ports, input)?;
    push_output(&mut line, output, got, wanted)?;
    Ok(line)
}

// The output and its two values, up to the end of the line.
fn push_output(line: &mut Vec<u8>, output: u32, got: bool, wanted: bool) -> Result<(), AllocError>
    ensures { OnOk result (line.new.items ≡ line.old.items ++ output_text output got wanted) }
{
    let mut number = Buffer::new();
    line.extend_from_slice(b": output ")?;
    line.extend_from_slice(number.format(output).as_bytes())?;
    line.extend_from_slice(b" is ")?;
    line.push(bit_byte(got))?;
    line.extend_from_slice(b", wanted ")?;
    line.push(bit_byte(wanted))?;
    line.push(b'\n')?;
    Ok(())
}

// The inputs by their ports, where there are any.
fn push_inputs(line: &mut Vec<u8>, ports: &[&[u8]], input: &[bool]) -> Result<(), AllocError>
    requires { length ports.now ≡ length input.now }
    ensures { OnOk result (line.new.items ≡ line.old.items ++ at_text (port_texts (map (λ p. p.now) ports.now) input.now)) }
{
    if ports.is_empty() {
        return Ok(());
    }
    line.extend_from_slice(b" at")?;
    for i in 0..input.len() {
        push_port(line, ports[i], input[i])?;
    }
    Ok(())
}

// One port with its bit, behind a space.
fn push_port(line: &mut Vec<u8>, port: &[u8], bit: bool) -> Result<(), AllocError>
    ensures { OnOk result (line.new.items ≡ line.old.items ++ (32 ∷ (shown_name port.now ++ codes "=" ++ bit_text bit))) }
{
    line.push(b' ')?;
    if port.len() >= 2 && port[0] == b'_' && port[1] == 0 {
        line.push(b'_')?;
    } else {
        line.extend_from_slice(port)?;
    }
    line.push(b'=')?;
    line.push(bit_byte(bit))?;
    Ok(())
}

fn bit_byte(bit: bool) -> u8
    ensures { bit_text bit ≡ result ∷ [] }
{
    if bit { b'1' } else { b'0' }
}
