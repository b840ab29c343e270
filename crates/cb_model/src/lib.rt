//! The plain data of the language and of circuits, and in `specs/` the definitions that contracts of all crates cite.
#![tactic(auto)]

ghost use Rattle.std.specs.Prelude.{◌≡◌};
ghost use Rattle.cb_model.specs.Outcomes.{status_of};

use sqlite_items::{Boxed, Items};

/// The sort of a place or of a variable.
#[derive(Clone, Copy, PartialEq, Eq, Debug)]
pub enum Sort {
    /// Truth values, in the algebra free over the constants.
    Bool,
    /// Finite lists of truth values.
    Bus,
    /// Finite trees of integers and names.
    Term,
}

/// A word of a `delay` directive: what an argument has to be before the goal runs.
#[derive(Clone, Copy, PartialEq, Eq, Debug)]
pub enum When {
    /// Anything.
    Any,
    /// One value for each assignment of the constants.
    Known,
    /// One value for all assignments of the constants; written `const`.
    Fixed,
    /// A term or bus whose outermost form is known.
    Nonvar,
}

/// A Boolean expression. `Const` numbers the declared constants, and `Var` the variables of the clause, or the
/// inputs of the specification, both from 0.
#[derive(Drop)]
pub enum Expr {
    Zero,
    One,
    Const(u32),
    Var(u32),
    Not(Boxed<Expr>),
    And(Items<Expr>),
    Xor(Items<Expr>),
    Or(Items<Expr>),
}

/// A term whose places have their sorts. A bus has elements and perhaps a variable as its tail; a node has the
/// number of a name, which stands for the name together with its number of arguments.
#[derive(Drop)]
pub enum Tree {
    Leaf(Expr),
    Bus(Items<Expr>, Option<u32>),
    Var(u32),
    Int(i64),
    Node(u32, Items<Tree>),
}

/// A goal. `Circuit` has the number of a module fact of the file, its inputs and its outputs; `Call` the number of
/// a predicate.
#[derive(Drop)]
pub enum Goal {
    True,
    Fail,
    Equal(Tree, Tree),
    Circuit(u32, Tree, Tree),
    Call(u32, Items<Tree>),
}

/// A clause: its predicate, the sorts of its variables by number, its head's arguments and its body.
#[derive(Drop)]
pub struct Clause {
    pub pred: u32,
    pub sorts: Items<Sort>,
    pub head: Items<Tree>,
    pub body: Items<Goal>,
}

/// A clause, lent.
#[derive(Clone, Copy)]
pub struct ClauseView<'p> {
    pub pred: u32,
    pub sorts: &'p [Sort],
    pub head: &'p [Tree],
    pub body: &'p [Goal],
}

/// The kinds of gates.
#[derive(Clone, Copy, PartialEq, Eq, Debug)]
pub enum GateKind {
    Zero,
    One,
    Buf,
    Not,
    And,
    Or,
    Xor,
    Nand,
    Nor,
    Xnor,
    /// Its inputs are a selector and two data inputs: the first where the selector is 0, the second where it is 1.
    Mux,
}

/// A gate of a flattened circuit: the nets that it reads, in order, and the net that it drives.
#[derive(Drop)]
pub struct Gate {
    pub kind: GateKind,
    pub ins: Items<u32>,
    pub out: u32,
}

/// A flattened circuit. Its nets are numbered from 0; the first `inputs` of them are its inputs. `outputs` names
/// the net of each output, in port order.
#[derive(Drop)]
pub struct Circuit {
    pub inputs: u32,
    pub nets: u32,
    pub outputs: Items<u32>,
    pub gates: Items<Gate>,
}

/// A term as written, its names lent from the text. A quoted name stands without its quotes.
#[derive(Drop)]
pub enum RawTerm<'s> {
    /// A variable by its name; each `_` is a variable of its own.
    Variable(&'s [u8]),
    Integer(i64),
    /// A name with its arguments; an atom has none.
    Name(&'s [u8], Items<RawTerm<'s>>),
    /// A list by its elements and perhaps its tail; one with a tail has an element at least.
    List(Items<RawTerm<'s>>, Option<Boxed<RawTerm<'s>>>),
    /// `~`
    Not(Boxed<RawTerm<'s>>),
    /// A chain of `*`, two operands at least.
    And(Items<RawTerm<'s>>),
    /// A chain of `#`, two operands at least.
    Xor(Items<RawTerm<'s>>),
    /// A chain of `+`, two operands at least.
    Or(Items<RawTerm<'s>>),
}

/// A goal as written: a name with its arguments, or an equation by its two sides.
#[derive(Drop)]
pub enum RawGoal<'s> {
    Call(RawTerm<'s>),
    Equal(RawTerm<'s>, RawTerm<'s>),
}

/// A clause as written, with the line of its first token, counted from 1.
#[derive(Drop)]
pub enum RawClause<'s> {
    /// `:-` with a word and its arguments, one at least.
    Directive {
        line: u32,
        word: &'s [u8],
        args: Items<RawTerm<'s>>,
    },
    /// A head, which is a name, and a body, which is empty exactly where no `:-` stands.
    Rule {
        line: u32,
        head: RawTerm<'s>,
        bodied: bool,
        body: Items<RawGoal<'s>>,
    },
}

/// A query as written, with the line of its first token, counted from 1, and its goals, one at least.
#[derive(Drop)]
pub struct RawQuery<'s> {
    pub line: u32,
    pub goals: Items<RawGoal<'s>>,
}

/// The kind of a token.
#[derive(Clone, Copy, PartialEq, Eq, Debug)]
pub enum Kind {
    Variable,
    Atom,
    Quoted,
    Integer(i64),
    LeftParen,
    RightParen,
    LeftBracket,
    RightBracket,
    Bar,
    Comma,
    Dot,
    /// `:-`
    Neck,
    Equals,
    /// `~`
    Tilde,
    /// `*`
    Star,
    /// `#`
    Hash,
    /// `+`
    Plus,
    /// `!`
    Bang,
}

/// A part of the outside that a call may find faulty.
#[derive(Clone, Copy, PartialEq, Eq, Debug, Drop)]
pub enum Side {
    File,
    Input,
    Output,
}

/// How a run of the program ended.
#[derive(Clone, Copy, PartialEq, Eq, Debug, Drop)]
pub enum Outcome {
    /// All was done as asked; for a comparison, the two sides agree.
    Done,
    /// The two sides of a comparison differ, and the printed line says where.
    Differs,
    /// The words, the file or the input were refused; the number is that of the refusal, and the printed line
    /// names its cause.
    Refused(u8),
    /// A budget was reached, and the printed line says which.
    Stopped,
    /// A file, the input or the output failed.
    Fault(Side),
    /// There was no memory left.
    Memory,
}

impl Outcome {
    /// The status with which the program ends.
    pub fn status(&self) -> u8
        ensures { result ≡ status_of self.now }
    {
        match self {
            Outcome::Done => 0,
            Outcome::Differs => 1,
            Outcome::Refused(_) => 2,
            Outcome::Stopped => 3,
            Outcome::Fault(_) => 4,
            Outcome::Memory => 5,
        }
    }
}
