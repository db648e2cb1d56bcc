// Laws of a program that grows: what is possible for a join, whatever its inputs are set to, was possible before for
// the atoms that were there. So what was concluded once needn't be concluded again. Each law is the contract of a
// function that does nothing: it speaks of every run from a state that commands lead to.
#![tactic(auto)]

ghost use Rattle.ms_growth.specs.Laws.{ConsequencesHold, ConsequencesStay, NamesStay, RuledOutIsNeverListed, ThePastStays};

/// What is possible in a later state was possible in each earlier one, for the atoms that were there.
pub fn the_past_stays()
    ensures { ThePastStays }
{}

/// Each atom keeps its term.
pub fn names_stay()
    ensures { NamesStay }
{}

/// What holds of each set that is possible holds of each that is possible in a later state, for the atoms that were
/// there.
pub fn consequences_stay()
    ensures { ConsequencesStay }
{}

/// What holds of each set that is possible holds of each later answer, whatever is assumed.
pub fn consequences_hold()
    ensures { ConsequencesHold }
{}

/// No later reply lists an atom that no possible set has.
pub fn ruled_out_is_never_listed()
    ensures { RuledOutIsNeverListed }
{}
