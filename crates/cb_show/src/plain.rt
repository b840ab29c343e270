//! Names and numbers.

ghost use Rattle.std.specs.Prelude.{◌≡◌, ◌≤◌, ◌++◌, OnOk, OnErr};
ghost use Rattle.std.specs.Fmt.{signed_decimal};
ghost use Rattle.std.specs.List.{list_all};
ghost use Rattle.cb_model.specs.Outside.{Rose, Wrote};
ghost use Rattle.cb_model.specs.Text.{is_word, is_plain, name_text};
ghost use Rattle.cb_show.specs.Front.{Front};

use cb_host::{Failed, Sink, write_all};
use itoa::Buffer;
use std::alloc::AllocError;

/// Writes a name: plain where it has the form of a plain atom, else in quotes. After a failure a front of the text was
/// written. It takes no memory.
pub fn plain_name<S: Sink>(out: &mut S, name: &[u8]) -> Result<(), Failed>
    ensures whole { OnOk result (Wrote (S.written out.old) (S.written out.new) (name_text name.now)) }
    ensures front { OnErr result (Front (S.written out.old) (S.written out.new) (name_text name.now)) }
    ensures count { S.faults out.old ≤ S.faults out.new }
    ensures kept { OnOk result (S.faults out.new ≡ S.faults out.old) }
    ensures failed { OnErr result (Rose (S.faults out.old) (S.faults out.new)) }
{
    if is_plain(name) {
        return write_all(out, name);
    }
    write_all(out, b"'")?;
    write_all(out, name)?;
    write_all(out, b"'")
}

/// Writes a number in decimal, behind `-` where it is negative. After a failure a front of the text was written. It takes
/// no memory.
pub fn number<S: Sink>(out: &mut S, n: i64) -> Result<(), Failed>
    ensures whole { OnOk result (Wrote (S.written out.old) (S.written out.new) (signed_decimal n)) }
    ensures front { OnErr result (Front (S.written out.old) (S.written out.new) (signed_decimal n)) }
    ensures count { S.faults out.old ≤ S.faults out.new }
    ensures kept { OnOk result (S.faults out.new ≡ S.faults out.old) }
    ensures failed { OnErr result (Rose (S.faults out.old) (S.faults out.new)) }
{
    let mut buffer = Buffer::new();
    write_all(out, buffer.format(n).as_bytes())
}

/// Appends a name to a line, as `plain_name` writes it.
pub fn push_name(line: &mut Vec<u8>, name: &[u8]) -> Result<(), AllocError>
    ensures { OnOk result (line.new.items ≡ line.old.items ++ name_text name.now) }
{
    if is_plain(name) {
        line.extend_from_slice(name)?;
        return Ok(());
    }
    line.push(b'\'')?;
    line.extend_from_slice(name)?;
    line.push(b'\'')?;
    Ok(())
}

// Whether a name has the form of a plain atom.
fn is_plain(name: &[u8]) -> bool
    ensures { result ≡ is_plain name.now }
{
    match name.split_first() {
        None => false,
        Some((first, rest)) => first.is_ascii_lowercase() && are_words(rest),
    }
}

// Whether all bytes are letters, digits or `_`.
fn are_words(bytes: &[u8]) -> bool
    ensures { result ≡ list_all is_word bytes.now }
{
    bytes.iter().all(|byte| is_word(*byte))
}

fn is_word(byte: u8) -> bool
    ensures { result ≡ is_word byte }
{
    byte.is_ascii_lowercase()
        || (byte.is_ascii_uppercase() || byte == b'_')
        || byte.is_ascii_digit()
}
