// Laws of what a solver keeps: each function does nothing, and its contract speaks of every join. Some call the laws that
// they follow from.
ghost use Rattle.ms_solver.specs.Laws.{AssignedIsServed, LearnedLasts, StoredIsConsequence, StoredIsKnown, ValuesAreAssumed};

use ms_loops::{consequences_stay, inputs_keep_consequences, nogoods_are_consequences};

/// Where an input is assigned, a solver serves the new join as it is.
pub fn assigned_is_served()
    ensures { AssignedIsServed }
{
    inputs_keep_consequences();
}

/// Each nogood that is stored and not asleep is a completion nogood of the join, or learned.
pub fn stored_is_known()
    ensures { StoredIsKnown }
{}

/// Each nogood that is stored and not asleep is in no set that is possible, whatever the inputs are.
pub fn stored_is_consequence()
    ensures { StoredIsConsequence }
{
    nogoods_are_consequences();
}

/// What was learned stays a consequence as modules are joined, and as inputs are assigned and released.
pub fn learned_lasts()
    ensures { LearnedLasts }
{
    consequences_stay();
    inputs_keep_consequences();
}

/// The answer sets under the values of inputs are those that have these values where each input is free.
pub fn values_are_assumed()
    ensures { ValuesAreAssumed }
{}
