// Laws of what the theory gives: each function does nothing, and its contract speaks of every join. Some call the laws
// that they follow from.
ghost use Rattle.ms_unfound.specs.Laws.{AdmittedIsPossible, AssignKeepsLoops, AtomsDecide, CompletionDeclares, GivenRise, PossibleByGiven, ReleaseKeepsLoops, SameKeepsLoops, SettledIsFounded, TakenWithCompletion};

use ms_loops::{assignments_are_possible, completion_and_loops};

/// Truths of all things that a settled trail has, and that contain no completion nogood, contain no loop nogood.
pub fn settled_is_founded()
    ensures { SettledIsFounded }
{}

/// What is given is in rising order of its variables.
pub fn given_rise()
    ensures { GivenRise }
{}

/// A theory that means what it meant, as after a search, gives the loop nogoods of the same join.
pub fn same_keeps_loops()
    ensures { SameKeepsLoops }
{}

/// Exactly those sets over the base are possible that contain no completion nogood and nothing that is given.
pub fn possible_by_given()
    ensures { PossibleByGiven }
{
    completion_and_loops();
}

/// Truths that contain no such nogood are those of a possible set.
pub fn admitted_is_possible()
    ensures { AdmittedIsPossible }
{
    assignments_are_possible();
}

/// Truths that contain no such nogood are decided by the atoms.
pub fn atoms_decide()
    ensures { AtomsDecide }
{
    assignments_are_possible();
}

/// What is given stays right where an input is assigned.
pub fn assign_keeps_loops()
    ensures { AssignKeepsLoops }
{}

/// What is given stays right where an input is released.
pub fn release_keeps_loops()
    ensures { ReleaseKeepsLoops }
{}

/// A completion that took a module has declared what the theory asks for.
pub fn completion_declares()
    ensures { CompletionDeclares }
{}

/// The theory takes a module that the completion took: what is given are the loop nogoods of the new join.
pub fn taken_with_completion()
    ensures { TakenWithCompletion }
{}
