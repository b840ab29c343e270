//! What flattened modules carry: laws, with nothing to run.
#![tactic(auto)]

ghost use Rattle.cb_flat.specs.Carry.{TotalHasOne};
ghost use Rattle.cb_flat.specs.Flatten.{FlattenCarries, FlattenHasOne};
ghost use Rattle.cb_flat.specs.Acyclic.{CarryingIsAcyclic, SameCycles};
ghost use Rattle.cb_flat.specs.Accepted.{AcceptedCarries, FlatHasOne};
ghost use Rattle.cb_flat.specs.Walk.{WalkKeeps};
ghost use Rattle.cb_flat.specs.Drivers.{NumbersAreRight};

/// A law, with nothing to run: a flattened module whose gates carry bits has one consistent valuation at each input.
pub fn flat_one_valuation()
    ensures { TotalHasOne }
{}

/// A law, with nothing to run: a module whose parts carry bits and whose instances come in an order carries bits, and
/// has one consistent valuation at each input.
pub fn flatten_one_valuation()
    ensures carries { FlattenCarries }
    ensures one { FlattenHasOne }
{}

/// A law, with nothing to run: gates that carry bits do not need one another in a round.
pub fn carrying_is_acyclic()
    ensures { CarryingIsAcyclic }
{}

/// A law, with nothing to run: a module that the rules of facts accept carries bits, the flattened circuit of each
/// accepted module has exactly one consistent valuation at each input, and a module whose nets are driven once has a
/// cycle exactly where the graph of its instances has one.
pub fn flat_has_one()
    ensures accepted { AcceptedCarries }
    ensures one { FlatHasOne }
    ensures cycles { SameCycles }
{}

/// A law, with nothing to run: the steps of a walk over frames keep the gates that are emitted and still to come.
pub fn walk_keeps()
    ensures { WalkKeeps }
{}

/// A law, with nothing to run: the gates of a module by numbers are those of the definition.
pub fn numbers_are_right()
    ensures { NumbersAreRight }
{}
