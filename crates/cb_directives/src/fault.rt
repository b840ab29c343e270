//! Why a file or a query is refused.

ghost use Rattle.std.specs.Prelude.{◌≡◌};
ghost use Rattle.cb_directives.specs.Refusals.{error_at};

use thiserror::Error;

/// Why a file or a query is refused, with the line of the first token of the directive, rule or query.
#[derive(Clone, Copy, PartialEq, Eq, Debug, Drop, Error)]
pub enum LoadError {
    /// A directive has an unknown word, an argument of the wrong shape, a reserved name, one constant too many,
    /// `nonvar` at a Boolean place, or delays a demon.
    #[error("line {0}: bad directive")]
    Directive(u32),
    /// One thing has two sorts.
    #[error("line {0}: sort clash")]
    SortClash(u32),
    /// A name has neither clauses nor declared sorts.
    #[error("line {0}: unknown name")]
    Unknown(u32),
    /// A name is declared twice, or has clauses that it may not have.
    #[error("line {0}: declared twice")]
    Twice(u32),
    /// There was no memory left.
    #[error("out of memory")]
    Memory,
}

/// Why an argument of a directive is refused.
#[derive(Clone, Copy, Debug, Drop)]
pub(crate) enum Fault {
    Directive,
    Unknown,
    Twice,
    Memory,
}

impl Fault {
    /// The refusal of an argument of a directive on this line.
    pub(crate) fn at(self, line: u32) -> LoadError
        ensures { result ≡ error_at line self }
    {
        match self {
            Fault::Directive => LoadError::Directive(line),
            Fault::Unknown => LoadError::Unknown(line),
            Fault::Twice => LoadError::Twice(line),
            Fault::Memory => LoadError::Memory,
        }
    }
}
