//! The values of diagrams as sums of products.

ghost use Rattle.std.specs.Prelude.{◌≡◌, ◌≢◌, ℕ, suc, ◌+◌, ◌-◌, ◌<◌, ◌≤◌, ◌⊎◌, ◌∷◌, ◌++◌, nat_lt, length, map, codes, decimal, Err, OnOk, OnErr};
ghost use Rattle.cb_model.specs.Bits.{Each};
ghost use Rattle.cb_model.specs.Outside.{Rose, Wrote};
ghost use Rattle.cb_model.specs.Answers.{literal_text, product_text, products_text};
ghost use Rattle.cb_model.specs.Text.{joined};
ghost use Rattle.cb_dd.specs.Diagram.{IsNode};
ghost use Rattle.cb_ops.specs.Ops.{DependsOn};
ghost use Rattle.cb_show.specs.Front.{Front};
ghost use Rattle.cb_show.specs.Levels.{levels, level_name, node_text};
ghost use Rattle.cb_show.specs.Steps.{IsNamed, AreNamed};

use crate::plain::push_name;
use crate::{Names, ShowError};
use cb_dd::{Node, Stop};
use cb_host::{Failed, Sink, write_all};
use cb_ops::Ops;
use cb_paths::{Paths, count};
use itoa::Buffer;
use std::alloc::{AllocError, Global};

/// The most products of a value that is printed; one of more is `(large)`.
pub const MOST_PRODUCTS: u32 = 65_536;

/// How the levels of a diagram are named: the first are constants, and those from `first` on parameters.
#[derive(Clone, Copy)]
struct Naming<'n, N> {
    constants: u32,
    first: u32,
    names: &'n N,
}

// Appends the name of a level.
fn push_level<N: Names>(
    line: &mut Vec<u8>,
    level: u32,
    naming: &Naming<'_, N>,
) -> Result<(), AllocError>
    requires level { IsNamed naming.now.constants naming.now.first level }
    requires order { naming.now.constants ≤ naming.now.first }
    ensures { OnOk result (line.new.items ≡ line.old.items ++ level_name naming.now.constants naming.now.first (N.constants naming.now.names.now) level) }
{
    if level < naming.constants {
        return push_name(line, naming.names.constant(level));
    }
    let mut buffer = Buffer::new();
    line.push(b'_')?;
    line.extend_from_slice(
        buffer
            .format(u64::from(level - naming.first) + 1)
            .as_bytes(),
    )?;
    Ok(())
}

// Appends a literal.
fn push_literal<N: Names>(
    line: &mut Vec<u8>,
    level: u32,
    bit: bool,
    naming: &Naming<'_, N>,
) -> Result<(), AllocError>
    requires level { IsNamed naming.now.constants naming.now.first level }
    requires order { naming.now.constants ≤ naming.now.first }
    ensures { OnOk result (line.new.items ≡ line.old.items ++ literal_text (level_name naming.now.constants naming.now.first (N.constants naming.now.names.now)) (level, bit)) }
{
    if !bit {
        line.push(b'~')?;
    }
    push_level(line, level, naming)
}

// Appends a product: its literals with `*` between them.
fn push_product<N: Names>(
    line: &mut Vec<u8>,
    product: &[(u32, bool)],
    naming: &Naming<'_, N>,
) -> Result<(), AllocError>
    requires levels { AreNamed naming.now.constants naming.now.first product.now }
    requires order { naming.now.constants ≤ naming.now.first }
    ensures { OnOk result (line.new.items ≡ line.old.items ++ product_text (level_name naming.now.constants naming.now.first (N.constants naming.now.names.now)) product.now) }
{
    let Some((head, rest)) = product.split_first() else {
        return Ok(());
    };
    push_literal(line, head.0, head.1, naming)?;
    for literal in rest {
        line.push(b'*')?;
        push_literal(line, literal.0, literal.1, naming)?;
    }
    Ok(())
}

// Appends the product that was given last and those that are to come, with ` + ` between them.
fn push_products<N: Names>(
    line: &mut Vec<u8>,
    products: &mut Paths<'_>,
    naming: &Naming<'_, N>,
) -> Result<(), AllocError>
    requires levels { Each (AreNamed naming.now.constants naming.now.first) (products.old.product ∷ products.old.to_come) }
    requires order { naming.now.constants ≤ naming.now.first }
    ensures { OnOk result (line.new.items ≡ line.old.items
        ++ joined (codes " + ") (map (product_text (level_name naming.now.constants naming.now.first (N.constants naming.now.names.now))) (products.old.product ∷ products.old.to_come))) }
{
    push_product(line, products.product(), naming)?;
    while products.advance() {
        line.extend_from_slice(b" + ")?;
        push_product(line, products.product(), naming)?;
    }
    Ok(())
}

/// Appends the value of a node: `0`, `1`, its products joined by ` + `, or `(large)`. The levels below `constants` are
/// those constants, and level `first + j - 1` is printed as `_j`. The products are found by taking the constants in
/// declared order and then the parameters by number, at each the 0 side first.
pub fn push_value<N: Names>(
    alloc: Global,
    line: &mut Vec<u8>,
    ops: &Ops,
    f: Node,
    constants: u32,
    first: u32,
    names: &N,
) -> Result<(), AllocError>
    requires node { IsNode ops.now.triples f.0 }
    requires order { constants ≤ first }
    requires scope { (m : ℕ) × DependsOn ops.now.triples f.0 (levels constants first m) }
    ensures text { OnOk result ((m : ℕ) → DependsOn ops.now.triples f.0 (levels constants first m)
        → line.new.items ≡ line.old.items ++ node_text ops.now.triples f.0 constants first (N.constants names.now) m) }
{
    if count(alloc, ops, f, MOST_PRODUCTS)?.is_none() {
        line.extend_from_slice(b"(large)")?;
        return Ok(());
    }
    let mut products = Paths::new(alloc, ops, f)?;
    if !products.advance() {
        line.push(b'0')?;
        return Ok(());
    }
    if products.product().is_empty() {
        line.push(b'1')?;
        return Ok(());
    }
    let naming = Naming {
        constants,
        first,
        names,
    };
    push_products(line, &mut products, &naming)
}

/// Writes the value of a node, as `push_value` appends it. After `Failed` a front of the text was written. All memory is
/// taken before the first byte is written; after `Stop(Memory)` nothing was written, and `Stop(Nodes)` never comes.
pub fn value<S: Sink, N: Names>(
    alloc: Global,
    out: &mut S,
    ops: &Ops,
    f: Node,
    constants: u32,
    first: u32,
    names: &N,
) -> Result<(), ShowError>
    requires node { IsNode ops.now.triples f.0 }
    requires order { constants ≤ first }
    requires scope { (m : ℕ) × DependsOn ops.now.triples f.0 (levels constants first m) }
    ensures text { OnOk result ((m : ℕ) → DependsOn ops.now.triples f.0 (levels constants first m)
        → Wrote (S.written out.old) (S.written out.new) (node_text ops.now.triples f.0 constants first (N.constants names.now) m)) }
    ensures front { (e : Failed) → result ≡ Err (ShowError.Failed e) → (m : ℕ) → DependsOn ops.now.triples f.0 (levels constants first m)
        → Front (S.written out.old) (S.written out.new) (node_text ops.now.triples f.0 constants first (N.constants names.now) m) }
    ensures memory { result ≡ Err (ShowError.Stop Stop.Memory) → out.new ≡ out.old }
    ensures nodes { result ≢ Err (ShowError.Stop Stop.Nodes) }
    ensures count { S.faults out.old ≤ S.faults out.new }
    ensures kept { OnOk result (S.faults out.new ≡ S.faults out.old) }
    ensures failed { (e : Failed) → result ≡ Err (ShowError.Failed e) → Rose (S.faults out.old) (S.faults out.new) }
{
    let mut text = Vec::new(alloc);
    if push_value(alloc, &mut text, ops, f, constants, first, names).is_err() {
        return Err(ShowError::Stop(Stop::Memory));
    }
    match write_all(out, text.as_slice()) {
        Ok(()) => Ok(()),
        Err(failed) => Err(ShowError::Failed(failed)),
    }
}
