// Laws of what is possible for a join: whatever its inputs are set to, a set that is possible after a module came was
// possible before for the atoms that were there, a release makes nothing possible, and assigning changes nothing. Each
// law is the contract of a function that does nothing, and speaks of every join.
#![tactic(auto)]

ghost use Rattle.ms_possible.specs.Laws.{AnswersArePossible, AssignedKeepsThePossible, JoinedKeepsThePast, PossibleByValues, ReleasedKeepsThePast};

/// A set is possible exactly where there are values of the inputs under which it is an answer set.
pub fn possible_by_values()
    ensures { PossibleByValues }
{}

/// An answer set under the present values of the inputs is possible.
pub fn answers_are_possible()
    ensures { AnswersArePossible }
{}

/// What is possible for a join with a module was possible before, for the atoms that were there.
pub fn joined_keeps_the_past()
    ensures { JoinedKeepsThePast }
{}

/// What is possible after a release was possible before it.
pub fn released_keeps_the_past()
    ensures { ReleasedKeepsThePast }
{}

/// Assigning changes nothing of what is possible.
pub fn assigned_keeps_the_possible()
    ensures { AssignedKeepsThePossible }
{}
