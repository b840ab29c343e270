//! Laws of the output, with nothing to run: whatever the words, the file and the input are, there is an output, and what
//! was written where a run broke off begins one.
#![tactic(auto)]

ghost use Rattle.cb_outputs.specs.Exists.{RunExists, LineExists, QueryExists, OutputExists, BeginningExtends};
ghost use Rattle.cb_outputs.specs.Ones.{FileIsOne, InputIsOne, QueryIsOne, OutputIsOne};

/// Each query has a whole run.
pub fn run_exists()
    ensures { RunExists }
{}

/// A branch whose equations are solvable has a line.
pub fn line_exists()
    ensures { LineExists }
{}

/// Each query says something.
pub fn query_exists()
    ensures { QueryExists }
{}

/// Words, file and input have an output.
pub fn output_exists()
    ensures { OutputExists }
{}

/// What was written where a run broke off begins an output.
pub fn beginning_extends()
    ensures { BeginningExtends }
{}

/// A file has one first refusal or one content, and not both.
pub fn file_is_one()
    ensures { FileIsOne }
{}

/// An input has one first refusal or one list of queries, and not both.
pub fn input_is_one()
    ensures { InputIsOne }
{}

/// What a query says is one, unless its nodes were too few.
pub fn query_is_one()
    ensures { QueryIsOne }
{}

/// Words, file and input have one output, unless the nodes were too few.
pub fn output_is_one()
    ensures { OutputIsOne }
{}
