//! The generated adder is right: laws, with nothing to run.
#![tactic(auto)]

ghost use Rattle.cb_adder.specs.Adders.{AddersHold, LoadedAdders, NeverRefused, VerifiedAdders};

/// A law, with nothing to run: the generated text is accepted, and its adder has its inputs, outputs and gates and agrees
/// with its specification, for 1 to 64 bits; so has the adder of whatever the text is loaded as; the text has no refusal;
/// and `verify` says of its adder that it is right, or that the budget of nodes was too small.
pub fn adders_hold()
    ensures hold { AddersHold }
    ensures loaded { LoadedAdders }
    ensures accepted { NeverRefused }
    ensures verified { VerifiedAdders }
{}
