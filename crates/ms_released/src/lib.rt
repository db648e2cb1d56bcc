// Laws of released atoms: a released atom is false for good. Each is the contract of a function that does nothing:
// it speaks of every state that commands lead to, and of every run from there on.
#![tactic(auto)]

ghost use Rattle.ms_released.specs.Laws.{IsInNoAnswerSet, IsNoNewHead, ReleasedIsFalseForGood, ReleasedIsInNoAnswer, ReleasedIsNeverDefined, ReleasedIsNeverListed, ReleasedIsNoInput, StaysFalse};

/// After a release that is answered `released`, exactly one atom has the term, and it is false for good.
pub fn released_is_false_for_good()
    ensures { ReleasedIsFalseForGood }
{}

/// What is false for good is so in each later state, and keeps its term.
pub fn stays_false_for_good()
    ensures { StaysFalse }
{}

/// What is false for good is in no answer set.
pub fn is_in_no_answer_set()
    ensures { IsInNoAnswerSet }
{}

/// What is false for good is no head of a module that can be joined.
pub fn cannot_be_defined_again()
    ensures { IsNoNewHead }
{}

/// A released atom is in no later answer set, whatever is assumed.
pub fn released_is_in_no_answer()
    ensures { ReleasedIsInNoAnswer }
{}

/// No later reply lists a released atom.
pub fn released_is_never_listed()
    ensures { ReleasedIsNeverListed }
{}

/// A later grounding whose rules have a released atom as a head isn't joined.
pub fn released_is_never_defined()
    ensures { ReleasedIsNeverDefined }
{}

/// A released atom is never an input again.
pub fn released_is_no_input()
    ensures { ReleasedIsNoInput }
{}
