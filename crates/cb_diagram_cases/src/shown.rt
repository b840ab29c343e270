//! Texts of names, numbers and values.

ghost use Rattle.std.specs.Prelude.{◌≡◌, [], ◌∷◌, codes, get_or};

use cb_dd::Node;
use cb_host::MemSink;
use cb_ops::Ops;
use cb_show::{Names, number, plain_name, value};
use cb_trial::checked::end;
use std::alloc::Global;
use std::test::Fail;

/// One constant and one name, `a`.
struct OnlyA;

impl Names for OnlyA {
    ghost names = { λ _. codes "a" ∷ [] };

    ghost constants = { λ _. codes "a" ∷ [] };

    fn name(&self, n: u32) -> &[u8] {
        only_first(n)
    }

    fn constant(&self, k: u32) -> &[u8] {
        only_first(k)
    }
}

// The name `a` for number 0.
fn only_first(number: u32) -> &'static [u8]
    ensures { result.now ≡ get_or (codes "a" ∷ []) number [] }
{
    match number {
        0 => b"a",
        _ => b"",
    }
}

// A sink that takes three bytes at a time.
fn sink(alloc: Global) -> Result<MemSink, Fail> {
    Ok(MemSink::new(alloc, 1000, 3, Vec::new(alloc))?)
}

// Appends what a sink was given.
fn push_written(sink: MemSink, out: &mut Vec<u8>) -> Result<(), Fail> {
    let pushed = out.extend_from_slice(sink.written());
    drop(sink);
    pushed?;
    Ok(())
}

/// Appends a name as it is written.
pub fn tell_name(alloc: Global, name: &str, out: &mut Vec<u8>) -> Result<(), Fail> {
    let mut sink = sink(alloc)?;
    let told = plain_name(&mut sink, name.as_bytes());
    push_written(sink, out)?;
    told?;
    Ok(())
}

/// Appends a number as it is written.
pub fn tell_number(alloc: Global, text: &str, out: &mut Vec<u8>) -> Result<(), Fail> {
    let mut sink = sink(alloc)?;
    let told = number(&mut sink, text.parse::<i64>().unwrap_or(0));
    push_written(sink, out)?;
    told?;
    Ok(())
}

/// Appends the value that is 1 where the constant is and else the parameter, whose level is 5.
pub fn tell_value(alloc: Global, out: &mut Vec<u8>) -> Result<(), Fail> {
    let mut ops = Ops::new(alloc, 100)?;
    let told = push_value(alloc, &mut ops, out);
    end(ops);
    told
}

// The same in a store that is lent.
fn push_value(alloc: Global, ops: &mut Ops, out: &mut Vec<u8>) -> Result<(), Fail> {
    let parameter = ops.node(5, Node::ZERO, Node::ONE)?;
    let either = ops.node(0, parameter, Node::ONE)?;
    let mut sink = sink(alloc)?;
    let told = value(alloc, &mut sink, ops, either, 1, 5, &OnlyA);
    push_written(sink, out)?;
    told?;
    Ok(())
}
