//! Laws of the definitions: each is the contract of a function that does nothing.
#![tactic(auto)]

ghost use Rattle.cb_laws.specs.Laws.{SolvableByTables, SolvableDecided, SolvableByTablesBelow, SolutionGivesValues, SolvableInAlgebra, Decided, ReadyDecided, ReadyStays, StepDetermined, RunDetermined, SameBeginning, SamePrints, PrintedAreSolvable, PrintedDenote, FormDenotes, DirectivesCount, ClausesFit, TreesFit, TreesInScope, ChainsHaveOperands, HasShape, ShapeIsOne, LineIsOne, RoomIsOne, RoomOfNone, TokenLines, ReadingIsWritten, ClausesAreOne, QueriesAreOne, FactsAreOne};

/// Boolean equations are solvable exactly where they have a solution in the algebra (Boole).
pub fn solvable_by_tables()
    ensures { SolvableByTables }
{}

/// Boolean equations are solvable or refuted, and trying all rows of bits says which.
pub fn solvable_decided()
    ensures { SolvableDecided }
{}

/// Boolean equations over some constants are solvable exactly where they have a solution in the algebra free over
/// these constants.
pub fn solvable_by_tables_below()
    ensures { SolvableByTablesBelow }
{}

/// Equations of all sorts and circuit items that have a solution in the algebra are solvable.
pub fn solution_gives_values()
    ensures { SolutionGivesValues }
{}

/// Equations of all sorts and circuit items over some constants are solvable exactly where they have a solution in the
/// algebra free over these constants.
pub fn solvable_in_algebra()
    ensures { SolvableInAlgebra }
{}

/// Equations of all sorts and circuit items are solvable or refuted (unification: Robinson, 1965).
pub fn items_decided()
    ensures { Decided }
{}

/// Where the equations are solvable, a goal is ready or not: each delay word holds or not, and a demon's rule matches or not.
pub fn ready_decided()
    ensures { ReadyDecided }
{}

/// A goal that is ready stays ready after more equations.
pub fn ready_stays()
    ensures { ReadyStays }
{}

/// A step of the derivation has one outcome.
pub fn step_determined()
    ensures { StepDetermined }
{}

/// A whole run of a query has one list of branches and one end.
pub fn run_determined()
    ensures { RunDetermined }
{}

/// Of two beginnings of one query's run, the notes of one begin those of the other; so what the longer prints begins
/// with what the shorter prints.
pub fn same_beginning()
    ensures notes { SameBeginning }
    ensures prints { SamePrints }
{}

/// The equations of each branch that a run prints are solvable, so its parametric form denotes exactly its solutions.
pub fn printed_are_solvable()
    ensures solvable { PrintedAreSolvable }
    ensures denote { PrintedDenote }
{}

/// The parametric form of an answer denotes exactly the solutions.
pub fn form_denotes()
    ensures { FormDenotes }
{}

/// A name has as many sorts as arguments, whatever the accepted directives of a file declare. So in the clauses of its
/// rules and in the goals of a query over it, each place has a tree of its sort: each variable has the sort of its
/// place, and each compound the arguments that its name has; constants and variables are those that
/// there are, and each chain has an operand.
pub fn trees_fit()
    ensures counted { DirectivesCount }
    ensures clauses { ClausesFit }
    ensures whole { TreesFit }
    ensures scope { TreesInScope }
    ensures operands { ChainsHaveOperands }
{}

/// A list of tokens is read as one list of clauses at most.
pub fn clauses_are_one()
    ensures { ClausesAreOne }
{}

/// A list of tokens is read as one list of queries at most.
pub fn queries_are_one()
    ensures { QueriesAreOne }
{}

/// Solvable equations have a shape for all terms.
pub fn has_shape()
    ensures { HasShape }
{}

/// The shape of terms under solvable equations is one.
pub fn shape_is_one()
    ensures { ShapeIsOne }
{}

/// The line of a branch whose equations are solvable is one.
pub fn line_is_one()
    ensures { LineIsOne }
{}

/// A number is below the bound of a solvable branch exactly where it is below the formula at the leaves of its shape.
pub fn room_is_one()
    ensures { RoomIsOne }
{}

/// The bound of a branch without a solution is the formula without leaves.
pub fn room_of_none()
    ensures { RoomOfNone }
{}

/// What a text is read as is in the grammar's form, and its clauses, goals and terms are each no more than its bytes.
pub fn reading_is_written()
    ensures { ReadingIsWritten }
{}

/// The line of each token is that of its first byte.
pub fn token_lines()
    ensures { TokenLines }
{}

/// The facts of circuits of a file are read in one way: there is one first refusal or none, and what was read before it
/// is one.
pub fn facts_are_one()
    ensures { FactsAreOne }
{}
