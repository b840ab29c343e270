//! Worked examples of the definitions: each is part of the contract of a function that does nothing.
#![tactic(auto)]

ghost use Rattle.cb_rows.specs.BoundExamples.{BoundExamples};
ghost use Rattle.cb_rows.specs.CircuitExamples.{CircuitExamples};
ghost use Rattle.cb_rows.specs.DetailExamples.{DetailExamples};
ghost use Rattle.cb_rows.specs.FileExamples.{FileExamples};
ghost use Rattle.cb_rows.specs.FormExamples.{FormExamples};
ghost use Rattle.cb_rows.specs.LimitExamples.{LimitExamples};
ghost use Rattle.cb_rows.specs.OutputExamples.{OutputExamples};
ghost use Rattle.cb_rows.specs.OutsideExamples.{OutsideExamples};
ghost use Rattle.cb_rows.specs.QueryExamples.{QueryExamples};
ghost use Rattle.cb_rows.specs.RoomExamples.{RoomExamples};
ghost use Rattle.cb_rows.specs.SolutionExamples.{SolutionExamples};
ghost use Rattle.cb_rows.specs.SortedExamples.{SortedExamples};
ghost use Rattle.cb_rows.specs.StepExamples.{StepExamples};
ghost use Rattle.cb_rows.specs.TableExamples.{TableExamples};
ghost use Rattle.cb_rows.specs.TextExamples.{TextExamples};

/// Worked sizes and bounds, each number with what one more or one less would break.
pub fn bound_examples()
    ensures { BoundExamples }
{}

/// Worked circuits: gates, flattening, comparisons and the generated adder.
pub fn circuit_examples()
    ensures { CircuitExamples }
{}

/// Small facts, each of which fixes one choice of a definition.
pub fn detail_examples()
    ensures { DetailExamples }
{}

/// Worked files: words, directives, sorts, facts and their refusals.
pub fn file_examples()
    ensures { FileExamples }
{}

/// Written terms, clauses and queries with their forms.
pub fn form_examples()
    ensures { FormExamples }
{}

/// Worked limits: the gates of a module, and the lengths of a file and of the input.
pub fn limit_examples()
    ensures { LimitExamples }
{}

/// Whole runs of the program, from its words and the bytes that it reads to its text and its outcome.
pub fn output_examples()
    ensures { OutputExamples }
{}

/// Worked words, outcomes, lines of places, counts of written texts, and what is told of the outside.
pub fn outside_examples()
    ensures { OutsideExamples }
{}

/// Worked queries with the lines that they print.
pub fn query_examples()
    ensures { QueryExamples }
{}

/// Worked numbers of the bounds on nodes, and what they allow.
pub fn room_examples()
    ensures { RoomExamples }
{}

/// Worked solutions: equations and tables, the parametric form, single steps, and circuits with one valuation.
pub fn solution_examples()
    ensures { SolutionExamples }
{}

/// Worked trees with their sorts, orders of things that need one another, and what nets carry.
pub fn sorted_examples()
    ensures { SortedExamples }
{}

/// Worked steps: what each kind of step counts and numbers, and what is known of a value.
pub fn step_examples()
    ensures { StepExamples }
{}

/// Worked tables: gates, the numbers of refusals, and the names that are kept.
pub fn table_examples()
    ensures { TableExamples }
{}

/// Worked texts: tokens, clauses, nestings and faults.
pub fn text_examples()
    ensures { TextExamples }
{}
