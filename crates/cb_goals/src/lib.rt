//! The goals of a running branch: lists in cells that share their tails, so that a body is put in front of a list without
//! copying either, and going back is cutting cells off.
#![tactic(auto)]

ghost use Rattle.std.specs.Prelude.{◌≡◌, ℕ, ◌+◌, ◌-◌, ◌<◌, ◌≤◌, List, [], ◌∷◌, ◌++◌, length, take, map, Some, None, IfOk, OnErr, IfSome, IfNone, OnOk};
ghost use Rattle.cb_model.specs.Bits.{numbers};
ghost use Rattle.cb_goals.specs.Chain.{KeepsLists, goals_at, body_goals};

use cb_heap::Ref;
use std::alloc::{AllocError, Global};
use std::marker::Model;

/// A goal that is still to be taken, by where it stands.
#[derive(Clone, Copy, PartialEq, Eq, Debug)]
pub enum Pending {
    /// A goal of the query, by its place there, from 0.
    Asked {
        place: u32,
    },
    /// A goal of a clause's body, by its place there, with the variables of a frame, which is named by its number.
    Body {
        clause: u32,
        place: u32,
        frame: usize,
    },
    /// A call of a predicate whose arguments are in cells, behind the cell of the call.
    Called {
        pred: u32,
        call: Ref,
    },
}

/// A goal and the list behind it, by its number; 0 is the empty list.
#[derive(Clone, Copy, Debug)]
pub struct Link {
    pub goal: Pending,
    pub rest: usize,
}

/// Lists of goals, each named by a number: 0 is the empty list, and each other list is a goal in front of one that was
/// made before it.
#[derive(Drop)]
pub struct Goals {
    links: Vec<Link>,
}

impl Model for Goals {
    ghost use Rattle.std.specs.Prelude.{List};
    ghost use Rattle.cb_goals.specs.declared.Link.{Link};

    ghost Value = { List Link };

    ghost use Rattle.cb_goals.specs.Chain.{AreLinks};

    ghost view = { λ g. g.links.items };

    ghost invariant = { λ g. AreLinks g.links.items };
}

impl Goals {
    /// No list but the empty one.
    pub fn new(alloc: Global) -> Goals
        ensures { result ≡ [] }
    {
        Goals {
            links: Vec::new(alloc),
        }
    }

    /// The first goal of a list and what is behind it; `None` for the empty list.
    pub fn first(&self, list: usize) -> Option<(Pending, usize)>
        requires { list ≤ length self.now }
        ensures some { IfSome result (λ r. (goals_at self.now list ≡ r.0 ∷ goals_at self.now r.1) × (r.1 < list)) }
        ensures none { IfNone result (goals_at self.now list ≡ []) }
    {
        if list == 0 {
            return None;
        }
        let link = self.links[list - 1];
        Some((link.goal, link.rest))
    }

    /// The list with a goal in front. After want of memory nothing has changed.
    pub fn push(&mut self, goal: Pending, rest: usize) -> Result<usize, AllocError>
        requires rest { rest ≤ length self.old }
        ensures pushed { IfOk result (λ r. (r ≤ length self.new) × (goals_at self.new r ≡ goal ∷ goals_at self.old rest)) }
        ensures one { OnOk result (length self.new ≡ length self.old + 1) }
        ensures keeps { KeepsLists self.old self.new }
        ensures refused { OnErr result (self.new ≡ self.old) }
    {
        self.links.push(Link { goal, rest })?;
        Ok(self.links.len())
    }

    /// The list with the goals of a clause's body in front, `count` of them, under a frame. After want of memory some
    /// goals of the body may stand in lists of their own.
    pub fn push_body(
        &mut self,
        clause: u32,
        frame: usize,
        count: u32,
        rest: usize,
    ) -> Result<usize, AllocError>
        requires rest { rest ≤ length self.old }
        ensures pushed { IfOk result (λ r. (r ≤ length self.new) × (goals_at self.new r ≡ body_goals clause frame 0 count ++ goals_at self.old rest)) }
        ensures keeps { KeepsLists self.old self.new }
    {
        let mut list = rest;
        for place in (0..count).rev() {
            let goal = Pending::Body {
                clause,
                place,
                frame,
            };
            list = self.push(goal, list)?;
        }
        Ok(list)
    }

    /// How many lists there are beside the empty one: a moment, to which `undo` can go back.
    pub fn mark(&self) -> usize
        ensures { result ≡ length self.now }
    {
        self.links.len()
    }

    /// Goes back to a moment: the lists made since then are gone, and the others stay.
    pub fn undo(&mut self, to: usize)
        requires { to ≤ length self.old }
        ensures cut { self.new ≡ take to self.old }
        ensures kept { (list : ℕ) → list ≤ to → goals_at self.new list ≡ goals_at self.old list }
    {
        self.links.truncate(to);
    }
}
