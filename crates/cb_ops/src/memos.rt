// The memos of answers, one for each operation.
ghost use Rattle.std.proofs.Common.{rules};
ghost use Rattle.std.specs.Cmp.Rules.{hashing};
ghost use Rattle.std.specs.Hash as fed;
ghost use Rattle.std.specs.Prelude.{◌≡◌, ℕ, ◌+◌, ◌*◌, ◌<◌, ◌^◌, length, IfSome};
ghost use Rattle.cb_model.specs.Bits.{xor};
ghost use Rattle.cb_dd.specs.Diagram.{IsNode};
ghost use Rattle.cb_ops.specs.Ops.{IsIte, IsXor};
ghost use Rattle.cb_ops.specs.Call.{IsSameCall};
ghost use Rattle.cb_ops.specs.Pair.{IsSamePair};

use crate::Ops;
use cb_dd::Node;
use std::hash::{Hash, Hasher};
use std::mem;

/// How many answers a memo holds at most; in a store of more than eight times as many nodes it holds an eighth as many
/// as there are nodes. It begins empty and its room grows by four as it fills; when it is full a new one begins, and the
/// one before it is still looked up until the new one has a sixteenth as many answers. So the answers found last are
/// never lost: without that, an exclusive or of two diagrams of 150,000 levels each comes to no end.
///
/// The number is one of the rooms that a memo grows through; a smaller memo finds less, and a greater one leaves the
/// cache.
const MEMO_ROOM: usize = 36_864;

/// For how many nodes of a large store a memo holds one answer.
const MEMO_SHARE: usize = 8;

/// What part of the answers before it a memo has when those are no longer looked up.
const YOUNG: usize = 16;

/// For how many answers a memo has room at first.
const FIRST_ROOM: usize = 144;

// A call of `ite`, by the numbers of its arguments.
#[derive(Clone, Copy, PartialEq, Eq, Debug)]
pub(crate) struct Call {
    pub(crate) f: u32,
    pub(crate) g: u32,
    pub(crate) h: u32,
}

// All numbers are hashed at once.
impl Hash for Call {
    ghost hash_input = { λ c. fed.u128 (c.f * 18446744073709551616 + (c.g * 4294967296 + c.h)) };

    ghost respects_eq = { Prim.search (hashing, rules) };

    fn hash<H: Hasher>(&self, state: &mut H) {
        let rest = self.g as u128 * 4_294_967_296 + self.h as u128;
        state.write_u128(self.f as u128 * 18_446_744_073_709_551_616 + rest);
    }
}

// A call of `xor`, by the numbers of its arguments.
#[derive(Clone, Copy, PartialEq, Eq, Debug)]
pub(crate) struct Pair {
    pub(crate) f: u32,
    pub(crate) g: u32,
}

impl Hash for Pair {
    ghost hash_input = { λ p. fed.u64 (p.f * 4294967296 + p.g) };

    ghost respects_eq = { Prim.search (hashing, rules) };

    fn hash<H: Hasher>(&self, state: &mut H) {
        state.write_u64(self.f as u64 * 4_294_967_296 + self.g as u64);
    }
}

impl Ops {
    // The answer of a call that was made before.
    pub(crate) fn recall(&self, f: Node, g: Node, h: Node) -> Option<Node>
        ensures node { IfSome result (λ r. IsNode self.now.triples r.0) }
        ensures ite { IfSome result (λ r. IsIte self.now.triples self.now.triples f.0 g.0 h.0 r.0) }
    {
        let call = call_of(f, g, h)?;
        if let Some(r) = self.memo.get(&call) {
            return Some(Node(*r as usize));
        }
        if self.old_memo.len() / YOUNG <= self.memo.len() {
            return None;
        }
        match self.old_memo.get(&call) {
            Some(r) => Some(Node(*r as usize)),
            None => None,
        }
    }

    // Keeps the answer of a call of `ite`, where it fits.
    pub(crate) fn note(&mut self, f: Node, g: Node, h: Node, r: Node)
        requires f { IsNode self.old.triples f.0 }
        requires g { IsNode self.old.triples g.0 }
        requires h { IsNode self.old.triples h.0 }
        requires r { IsNode self.old.triples r.0 }
        requires ite { IsIte self.old.triples self.old.triples f.0 g.0 h.0 r.0 }
        ensures same { self.new ≡ self.old }
    {
        let count = self.make_room();
        let Some(call) = call_of(f, g, h) else {
            return;
        };
        let Ok(answer) = u32::try_from(r.0) else {
            return;
        };
        self.bound = count + 2;
        let _ = self.memo.insert(call, answer);
    }

    // The answer of a call of `xor` that was made before.
    pub(crate) fn recall_pair(&self, f: Node, g: Node) -> Option<Node>
        ensures node { IfSome result (λ r. IsNode self.now.triples r.0) }
        ensures xor { IfSome result (λ r. IsXor self.now.triples self.now.triples f.0 g.0 r.0) }
    {
        let pair = pair_of(f, g)?;
        if let Some(r) = self.pairs.get(&pair) {
            return Some(Node(*r as usize));
        }
        if self.old_pairs.len() / YOUNG <= self.pairs.len() {
            return None;
        }
        match self.old_pairs.get(&pair) {
            Some(r) => Some(Node(*r as usize)),
            None => None,
        }
    }

    // Keeps the answer of a call of `xor`, where it fits.
    pub(crate) fn note_pair(&mut self, f: Node, g: Node, r: Node)
        requires f { IsNode self.old.triples f.0 }
        requires g { IsNode self.old.triples g.0 }
        requires r { IsNode self.old.triples r.0 }
        requires xor { IsXor self.old.triples self.old.triples f.0 g.0 r.0 }
        ensures same { self.new ≡ self.old }
    {
        let count = self.make_room_for_pairs();
        let Some(pair) = pair_of(f, g) else {
            return;
        };
        let Ok(answer) = u32::try_from(r.0) else {
            return;
        };
        self.bound = count + 2;
        let _ = self.pairs.insert(pair, answer);
    }

    // Makes room for an answer of `ite`: where the memo is full, a new one begins. The answer is how many nodes there
    // are.
    fn make_room(&mut self) -> usize
        ensures same { self.new ≡ self.old }
        ensures count { result ≡ length self.new.triples }
        ensures small { result < 2 ^ 63 }
    {
        let count = self.count();
        let len = self.memo.len();
        if MEMO_ROOM.max(count / MEMO_SHARE) <= len {
            self.renew_memo();
        } else if len < MEMO_ROOM && len == self.memo.capacity() {
            self.widen_memo();
        }
        count
    }

    // The same for an answer of `xor`.
    fn make_room_for_pairs(&mut self) -> usize
        ensures same { self.new ≡ self.old }
        ensures count { result ≡ length self.new.triples }
        ensures small { result < 2 ^ 63 }
    {
        let count = self.count();
        let len = self.pairs.len();
        if MEMO_ROOM.max(count / MEMO_SHARE) <= len {
            self.renew_pairs();
        } else if len < MEMO_ROOM && len == self.pairs.capacity() {
            self.widen_pairs();
        }
        count
    }

    // Gives the memo of `ite` four times its room, where there is memory.
    fn widen_memo(&mut self)
        ensures same { self.new ≡ self.old }
    {
        let len = self.memo.len();
        let _ = self.memo.reserve(len.saturating_mul(3).max(FIRST_ROOM));
    }

    // Gives the memo of `xor` four times its room, where there is memory.
    fn widen_pairs(&mut self)
        ensures same { self.new ≡ self.old }
    {
        let len = self.pairs.len();
        let _ = self.pairs.reserve(len.saturating_mul(3).max(FIRST_ROOM));
    }

    // The answers of `ite` become the old ones.
    fn renew_memo(&mut self)
        ensures same { self.new ≡ self.old }
    {
        mem::swap(&mut self.memo, &mut self.old_memo);
        self.memo.clear();
    }

    // The answers of `xor` become the old ones.
    fn renew_pairs(&mut self)
        ensures same { self.new ≡ self.old }
    {
        mem::swap(&mut self.pairs, &mut self.old_pairs);
        self.pairs.clear();
    }
}

// The memo's key for a call, where the numbers fit: one for all calls that ask the same by their standard form.
fn call_of(f: Node, g: Node, h: Node) -> Option<Call>
    ensures { IfSome result (λ c. IsSameCall f.0 g.0 h.0 c.f c.g c.h) }
{
    let (f, g, h) = standard(f, g, h);
    let Ok(f) = u32::try_from(f.0) else {
        return None;
    };
    let Ok(g) = u32::try_from(g.0) else {
        return None;
    };
    let Ok(h) = u32::try_from(h.0) else {
        return None;
    };
    Some(Call { f, g, h })
}

// The memo's key for a call of `xor`, where the numbers fit: the first made node stands first.
fn pair_of(f: Node, g: Node) -> Option<Pair>
    ensures { IfSome result (λ p. IsSamePair f.0 g.0 p.f p.g) }
{
    let Ok(first) = u32::try_from(f.0.min(g.0)) else {
        return None;
    };
    let Ok(second) = u32::try_from(f.0.max(g.0)) else {
        return None;
    };
    Some(Pair {
        f: first,
        g: second,
    })
}

// The standard form of a call (Brace, Rudell and Bryant 1990): a side that is the choice itself becomes a constant,
// and of two nodes that commute the first made stands first.
fn standard(f: Node, g: Node, h: Node) -> (Node, Node, Node)
    ensures { IsSameCall f.0 g.0 h.0 result.0.0 result.1.0 result.2.0 }
{
    let g = then_side(f, g);
    let h = else_side(f, h);
    if h.0 == 0 && g.0 < f.0 {
        return (g, f, h);
    }
    if g.0 == 1 && h.0 < f.0 {
        return (h, g, f);
    }
    (f, g, h)
}

// Where the choice is 1 it is 1 itself.
pub(crate) fn then_side(f: Node, g: Node) -> Node
    ensures { (h : ℕ) → IsSameCall f.0 g.0 h f.0 result.0 h }
{
    if g.0 == f.0 {
        return Node::ONE;
    }
    g
}

// Where the choice is 0 it is 0 itself.
pub(crate) fn else_side(f: Node, h: Node) -> Node
    ensures { (g : ℕ) → IsSameCall f.0 g h.0 f.0 g result.0 }
{
    if h.0 == f.0 {
        return Node::ZERO;
    }
    h
}
