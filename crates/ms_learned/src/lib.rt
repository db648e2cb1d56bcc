// What is learned stays true while the program grows, is kept, and isn't learned again: laws over every run of the machine.
// Each is the contract of a function that does nothing, but that some call the law that they follow from.
#![tactic(auto)]

ghost use Rattle.ms_learned.specs.Laws.{CompleteIsRefuted, CutIsCounted, DeclaredAreThings, KeptAreConsequences, KeptAreTheLast, KeptIsNotLearnedAgain, KeptLast, LearnedLinesAreNew, LinesContainNoEarlier, LoggedLast, OthersKeepAll, TemporaryFollowsAnswers, TemporaryRestsOnAnswers, ThingsKeepTheirNumbers};

use ms_loops::nogoods_are_consequences;

/// The things that the log has declared are those of the join.
pub fn declared_are_things()
    ensures { DeclaredAreThings }
{
    nogoods_are_consequences();
}

/// A thing keeps its number.
pub fn things_keep_their_numbers()
    ensures { ThingsKeepTheirNumbers }
{}

/// Each kept nogood is a consequence of the join, whatever the inputs are.
pub fn kept_are_consequences()
    ensures { KeptAreConsequences }
{
    nogoods_are_consequences();
}

/// And of each later join.
pub fn kept_last()
    ensures { KeptLast }
{
    nogoods_are_consequences();
}

/// Each nogood that is logged as kept is a consequence of the join of its moment, and of each later one.
pub fn logged_last()
    ensures { LoggedLast }
{
    nogoods_are_consequences();
}

/// No command but a solve changes what is kept.
pub fn others_keep_all()
    ensures { OthersKeepAll }
{}

/// A solve begins with the last nogoods that the log has kept.
pub fn kept_are_the_last()
    ensures { KeptAreTheLast }
{}

/// No solve logs a nogood that contains one that it began with.
pub fn kept_is_not_learned_again()
    ensures { KeptIsNotLearnedAgain }
{}

/// A possible set that contains a temporary nogood is an answer that the log has before it, and the reply lists it.
pub fn temporary_rests_on_answers()
    ensures { TemporaryRestsOnAnswers }
{
    nogoods_are_consequences();
}

/// A temporary nogood comes only after an answer, so a solve without answers keeps all that it learns.
pub fn temporary_follows_answers()
    ensures { TemporaryFollowsAnswers }
{}

/// No line of a solve contains an earlier one, or a completion nogood.
pub fn lines_contain_no_earlier()
    ensures { LinesContainNoEarlier }
{}

/// What is learned brings something that unit closure doesn't give by what stands before it.
pub fn learned_lines_are_new()
    ensures { LearnedLinesAreNew }
{}

/// A cut has exactly its limit and its answers of learned nogoods, and no great limit cuts.
pub fn cut_is_counted()
    ensures { CutIsCounted }
{}

/// After a complete reply what was demanded is refuted by the log, by unit closure alone.
pub fn complete_is_refuted()
    ensures { CompleteIsRefuted }
{}
