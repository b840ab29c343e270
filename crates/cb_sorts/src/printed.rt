//! The variables of a query that its answers print.

ghost use Rattle.std.specs.Prelude.{◌≡◌, ◌<◌, ◌++◌, map, take, drop, length, OnOk, IfOk};
ghost use Rattle.cb_model.specs.Output.{starts_low, printed_from};
ghost use Rattle.cb_sorts.specs.Asked.{numbered_name};

use cb_variables::Variables;
use sqlite_items::Items;
use std::alloc::{AllocError, Global};

/// Whether a name begins with `_`.
fn starts_low(name: &[u8]) -> bool
    ensures { result ≡ starts_low name.now }
{
    match name.first() {
        Some(first) => *first == b'_',
        None => false,
    }
}

/// Puts the variable under a number at the end, where it is printed.
fn add_printed<'q>(
    variables: &Variables<'q>,
    number: usize,
    all: &mut Items<(u32, &'q [u8])>,
) -> Result<(), AllocError>
    requires { number < length variables.now }
    ensures { OnOk result (map numbered_name all.new ≡ map numbered_name all.old ++ printed_from number (take 1 (drop number variables.now))) }
{
    let Some(name) = variables.name(number) else {
        return Ok(());
    };
    if starts_low(name) {
        return Ok(());
    }
    match u32::try_from(number) {
        Ok(number) => all.push((number, name)),
        Err(_) => Err(AllocError),
    }
}

/// The variables whose names don't begin with `_`, with their numbers, in the order of their first appearance.
pub(crate) fn printed<'q>(
    alloc: Global,
    variables: &Variables<'q>,
) -> Result<Items<(u32, &'q [u8])>, AllocError>
    ensures { IfOk result (λ all. map numbered_name all ≡ printed_from 0 variables.now) }
{
    let mut all = Items::new(alloc);
    for number in 0..variables.len() {
        add_printed(variables, number, &mut all)?;
    }
    Ok(all)
}
