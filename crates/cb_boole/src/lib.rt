//! Boole's elimination (1854) and the parametric form, over functions alone: each law is the contract of a function that
//! does nothing.
#![tactic(auto)]

ghost use Rattle.cb_boole.specs.Laws.{SolutionIsSound, SolutionIsWhole, SolvableWhereRestIsZero, SolutionByCofactors, LeafIsPicked, LeafByLeaf, FormDenotesReached};

/// Where elimination leaves nothing, what the solution gives the levels makes the function 0.
pub fn solution_is_sound()
    ensures { SolutionIsSound }
{}

/// Bits that make the function 0 are given back by the solution, with themselves as parameters.
pub fn solution_is_whole()
    ensures { SolutionIsWhole }
{}

/// Some bits of the levels make the function 0 exactly where elimination leaves nothing.
pub fn solvable_where_rest_is_zero()
    ensures { SolvableWhereRestIsZero }
{}

/// The solution for one level is Boole's, by the two cofactors.
pub fn solution_by_cofactors()
    ensures { SolutionByCofactors }
{}

/// The parametric function of a leaf picks its parameter's bit where the leaf can have it, else the other bit.
pub fn leaf_is_picked()
    ensures { LeafIsPicked }
{}

/// One leaf after another, each solution put into the leaves that follow, gives the parametric form.
pub fn leaf_by_leaf()
    ensures { LeafByLeaf }
{}

/// Over all parameters the parametric form gives exactly the lists of bits that the leaves reach.
pub fn form_denotes_reached()
    ensures { FormDenotesReached }
{}
