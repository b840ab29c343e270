//! What the words of a line work on.

use crate::making::{connected, made, swapped};
use crate::telling;
use cb_dd::{DdMark, Node, Stop};
use cb_ops::Ops;
use cb_trial::checked::cut;
use cb_trial::text::push;
use std::alloc::Global;
use std::test::Fail;

/// What the words of a line work on beside the store.
#[derive(Drop)]
pub struct Desk {
    /// The last number that was read.
    pub number: u32,
    // The node that was kept.
    kept: Node,
    // The store's mark.
    mark: DdMark,
    stack: Vec<Node>,
}

impl Desk {
    /// No node on the stack.
    pub fn new(alloc: Global, ops: &Ops) -> Desk {
        Desk {
            number: 0,
            kept: Node::ZERO,
            mark: ops.mark(),
            stack: Vec::new(alloc),
        }
    }

    /// Takes the node on top of the stack away, 0 where there is none.
    pub fn pop(&mut self) -> Node {
        self.stack.pop().unwrap_or(Node::ZERO)
    }

    /// The node on top of the stack, 0 where there is none.
    pub fn top(&self) -> Node {
        self.stack.last().copied().unwrap_or(Node::ZERO)
    }

    /// Takes one word: a number, a word that moves nodes or the store, one that tells something, or one that makes a node.
    pub fn take(
        &mut self,
        alloc: Global,
        ops: &mut Ops,
        word: &str,
        out: &mut Vec<u8>,
    ) -> Result<(), Fail> {
        if let Ok(number) = word.parse::<u32>() {
            self.number = number;
            return Ok(());
        }
        match word {
            "keep" => self.kept = self.pop(),
            "kept" => self.stack.push(self.kept)?,
            "mark" => self.mark = ops.mark(),
            "cut" => self.cut(ops, out)?,
            "same" => self.tell_same(out)?,
            "swap" => self.swap(alloc, ops)?,
            _ => {
                if !telling::tell(alloc, ops, self, word, out)? {
                    self.make(ops, word, out)?;
                }
            }
        }
        Ok(())
    }

    // Cuts the store back to the mark.
    fn cut(&self, ops: &mut Ops, out: &mut Vec<u8>) -> Result<(), Fail> {
        if !cut(ops, self.mark) {
            push(out, " no_mark")?;
        }
        Ok(())
    }

    // Takes two nodes away, and tells whether they are the same.
    fn tell_same(&mut self, out: &mut Vec<u8>) -> Result<(), Fail> {
        let same = self.pop() == self.pop();
        push(out, if same { " same" } else { " other" })
    }

    // Takes a node away, and puts it and the bit at level 0 back with the levels 0 and 1 swapped.
    fn swap(&mut self, alloc: Global, ops: &mut Ops) -> Result<(), Fail> {
        let node = self.pop();
        let (first, second) = swapped(alloc, ops, node)?;
        self.stack.push(first)?;
        self.stack.push(second)?;
        Ok(())
    }

    // Makes a node, or tells that the store is full.
    fn make(&mut self, ops: &mut Ops, word: &str, out: &mut Vec<u8>) -> Result<(), Fail> {
        let node = match made(ops, self.number, word) {
            Some(node) => node,
            None => connected(ops, self, word),
        };
        match node {
            Ok(node) => self.stack.push(node)?,
            Err(Stop::Nodes) => push(out, " full")?,
            Err(Stop::Memory) => push(out, " memory")?,
        }
        Ok(())
    }
}
