// The law of completion and loops: which sets of atoms are possible for a join is what its nogoods say; and what becomes
// of nogoods as a join grows. Each law is the contract of a function that does nothing: it speaks of every join and every
// set.
#![tactic(auto)]

ghost use Rattle.ms_loops.specs.Laws.{AssignmentsArePossible, CompletionAndLoops, CompletionGrows, ConsequencesStay, InputsKeepConsequences, NogoodsAreConsequences, PossibleIsFounded, PossibleIsOverBase};

/// A set that is possible has atoms of the base alone.
pub fn possible_is_over_base()
    ensures { PossibleIsOverBase }
{}

/// Exactly the founded models over the base are possible.
pub fn possible_is_founded()
    ensures { PossibleIsFounded }
{}

/// Exactly those sets over the base are possible that contain no completion nogood, no loop nogood and no aggregate
/// nogood.
pub fn completion_and_loops()
    ensures { CompletionAndLoops }
{}

/// Truths of all things that contain no nogood are those in the set of the true atoms, and that set is possible.
pub fn assignments_are_possible()
    ensures { AssignmentsArePossible }
{}

/// Each nogood of a join is one of its consequences.
pub fn nogoods_are_consequences()
    ensures { NogoodsAreConsequences }
{}

/// A consequence stays one when a module is joined.
pub fn consequences_stay()
    ensures { ConsequencesStay }
{}

/// A consequence stays one when an input is released or assigned.
pub fn inputs_keep_consequences()
    ensures { InputsKeepConsequences }
{}

/// The completion nogoods of a join with a module are those that there were, and those that the module brings.
pub fn completion_grows()
    ensures { CompletionGrows }
{}
