//! Texts with escapes.

ghost use Rattle.std.specs.Prelude.{◌<◌};

use std::alloc::Global;
use std::test::Fail;

/// The bytes of a text in which `\n`, `\t` and `\r` stand for layout and `\x` with two digits for a byte.
pub fn plain(alloc: Global, text: &str) -> Result<Vec<u8>, Fail> {
    let mut bytes = Vec::new(alloc);
    let mut first = true;
    for part in text.split('\\') {
        if first {
            bytes.extend_from_slice(part.as_bytes())?;
            first = false;
        } else {
            push_escaped(&mut bytes, part.as_bytes())?;
        }
    }
    Ok(bytes)
}

// Appends what stands behind a backslash.
fn push_escaped(bytes: &mut Vec<u8>, part: &[u8]) -> Result<(), Fail> {
    match part {
        [b'n', rest @ ..] => push_behind(bytes, 10, rest),
        [b't', rest @ ..] => push_behind(bytes, 9, rest),
        [b'r', rest @ ..] => push_behind(bytes, 13, rest),
        [b'x', high, low, rest @ ..] => push_behind(bytes, digit(*high) * 16 + digit(*low), rest),
        _ => Ok(()),
    }
}

// Appends a byte and the rest.
fn push_behind(bytes: &mut Vec<u8>, byte: u8, rest: &[u8]) -> Result<(), Fail> {
    bytes.push(byte)?;
    bytes.extend_from_slice(rest)?;
    Ok(())
}

// The value of a hexadecimal digit.
fn digit(byte: u8) -> u8
    ensures { result < 16 }
{
    match byte {
        b'0'..=b'9' => byte - b'0',
        b'a'..=b'f' => byte - b'a' + 10,
        _ => 0,
    }
}
