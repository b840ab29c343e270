//! Programs: the rules of a file with the sorts of their variables, and queries over them.
#![tactic(auto)]

ghost use Rattle.cb_sorts.specs.OverFile.{QueriesOverFile};
ghost use Rattle.cb_sorts.specs.Called.{ClausesCallNames, QueriesCallNames};
ghost use Rattle.cb_sorts.specs.Accepted.{AcceptedAreSound};
ghost use Rattle.cb_sorts.specs.Commits.{PlainFilesNeverCommit};

mod asking;
mod chained;
mod loading;
mod names;
mod printed;
mod program;
mod query;

pub use loading::load;
pub use program::Program;
pub use query::Query;

/// What a query asks of the program of an accepted file is a query over that file: its names stand behind those of the
/// file, and the file's clauses stay as they were.
pub fn queries_over_file()
    ensures { QueriesOverFile }
{}

/// Each goal that a query calls has a name of the file, so a number that `first`, `when` and `demon` of its program take:
/// also a declared name that has no clauses.
pub fn queries_call_names()
    ensures { QueriesCallNames }
{}

/// Each goal that a clause of an accepted file calls has a name of the file.
pub fn clauses_call_names()
    ensures { ClausesCallNames }
{}

/// The program of an accepted file and an accepted query over it are sound: their trees have constants and variables that
/// exist and fit the sorts of their places, each goal that is called has a name of the file, and their goals are fewer than
/// 2^32.
pub fn accepted_are_sound()
    ensures { AcceptedAreSound }
{}

/// No goal commits where a file declares no demon rules, and has no module: no goal is a circuit's, and no name that is called
/// is a demon's.
pub fn plain_files_never_commit()
    ensures { PlainFilesNeverCommit }
{}
