//! Texts whose diagrams have many levels.

use cb_forms::forms::push_form;
use std::alloc::Global;
use std::test::Fail;

/// A file with a module over many inputs and its specification, the product of the first two inputs. A chain of one gate
/// goes through all inputs, from the last to the first: net `X` with a number is made of the input of that number and of
/// the net with the next. The gates behind it make the product whatever the chain is, but where `right` is false the last
/// is a sum.
pub fn push_chain(
    alloc: Global,
    out: &mut Vec<u8>,
    gate: &str,
    count: u32,
    right: bool,
) -> Result<(), Fail> {
    let last = count.saturating_sub(1);
    push_form(alloc, out, "module(m, [|;I@|], [Y], [", "", count)?;
    push_form(alloc, out, "or([I@,I@],[X^]),", "", last)?;
    push_form(
        alloc,
        out,
        "|<$([I@,X^],[X@]),|and([X0,I0],[Z]), or([Z,I0],[W]), ",
        gate,
        count,
    )?;
    let end = if right { "and" } else { "or" };
    push_form(
        alloc,
        out,
        "$([W,I1],[Y])]).\nspec(m, [|;I@|], [I0*I1]).\n",
        end,
        count,
    )
}

/// A file with the constants `c0`, `c1` and so on.
pub fn push_constants(alloc: Global, out: &mut Vec<u8>, count: u32) -> Result<(), Fail> {
    push_form(alloc, out, ":- constants |;c@|.\n", "", count)
}

/// A query whose variable is the product of many constants.
pub fn push_product(alloc: Global, out: &mut Vec<u8>, count: u32) -> Result<(), Fail> {
    push_form(alloc, out, "X = c0|>*c^|.\n", "", count.saturating_sub(1))
}
