//! The operations, with a test that their nodes are there; where one isn't, the answer is `Memory`.

ghost use Rattle.std.specs.Prelude.{◌↔◌, IsTrue};
ghost use Rattle.cb_dd.specs.Diagram.{IsNode};

use cb_dd::{DdMark, Node, Stop};
use cb_ops::{Levels, Ops};

pub fn is_here(ops: &Ops, n: Node) -> bool
    ensures { IsTrue result ↔ IsNode ops.now.triples n.0 }
{
    n.0 < ops.count() + 2
}

/// Lets a store go.
pub fn end(ops: Ops) {}

/// Cuts back to a mark; false where the store has fewer nodes than it had then.
pub fn cut(ops: &mut Ops, to: DdMark) -> bool {
    if ops.count() < to.count() {
        return false;
    }
    ops.cut(to);
    true
}

/// The bit at the level.
pub fn bit(ops: &mut Ops, level: u32) -> Result<Node, Stop> {
    ops.node(level, Node::ZERO, Node::ONE)
}

pub fn parts(ops: &Ops, n: Node) -> Option<(u32, Node, Node)> {
    if !is_here(ops, n) {
        return None;
    }
    ops.parts(n)
}

pub fn ite(ops: &mut Ops, f: Node, g: Node, h: Node) -> Result<Node, Stop> {
    if !is_here(ops, f) || !is_here(ops, g) || !is_here(ops, h) {
        return Err(Stop::Memory);
    }
    ops.ite(f, g, h)
}

pub fn not(ops: &mut Ops, f: Node) -> Result<Node, Stop> {
    if !is_here(ops, f) {
        return Err(Stop::Memory);
    }
    ops.not(f)
}

pub fn and(ops: &mut Ops, f: Node, g: Node) -> Result<Node, Stop> {
    if !is_here(ops, f) || !is_here(ops, g) {
        return Err(Stop::Memory);
    }
    ops.and(f, g)
}

pub fn or(ops: &mut Ops, f: Node, g: Node) -> Result<Node, Stop> {
    if !is_here(ops, f) || !is_here(ops, g) {
        return Err(Stop::Memory);
    }
    ops.or(f, g)
}

pub fn xor(ops: &mut Ops, f: Node, g: Node) -> Result<Node, Stop> {
    if !is_here(ops, f) || !is_here(ops, g) {
        return Err(Stop::Memory);
    }
    ops.xor(f, g)
}

pub fn restrict(ops: &mut Ops, f: Node, level: u32, bit: bool) -> Result<Node, Stop> {
    if !is_here(ops, f) {
        return Err(Stop::Memory);
    }
    ops.restrict(f, level, bit)
}

pub fn exists(ops: &mut Ops, f: Node, level: u32) -> Result<Node, Stop> {
    if !is_here(ops, f) {
        return Err(Stop::Memory);
    }
    ops.exists(f, level)
}

pub fn for_all(ops: &mut Ops, f: Node, level: u32) -> Result<Node, Stop> {
    if !is_here(ops, f) {
        return Err(Stop::Memory);
    }
    ops.for_all(f, level)
}

/// The node with one level replaced.
pub fn replace(ops: &mut Ops, f: Node, level: u32, image: Node) -> Result<Node, Stop> {
    if !is_here(ops, f) || !is_here(ops, image) {
        return Err(Stop::Memory);
    }
    ops.substitute(f, &[(level, image)])
}

pub fn support(ops: &Ops, f: Node) -> Result<Levels, Stop> {
    if !is_here(ops, f) {
        return Err(Stop::Memory);
    }
    ops.support(f).map_err(|_| Stop::Memory)
}
