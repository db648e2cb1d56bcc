// The lawful log of a solve, as definitions, and laws over it. Each law is the contract of a function that does
// nothing: it speaks of every problem, every log and every total assignment.
#![tactic(auto)]

ghost use Rattle.ms_lawful.specs.Laws.{AnswersAreListedOnce, CompleteListsAll, GreatLimitsCutNothing, KeptIsNotLearnedAgain, KeptLinesHold, KeptListGoesOn, KeptStaysTrue, LearnedLinesAreCounted, LearnedLinesAreNew, LinesAreFew, LinesContainNoEarlier, OwnLineFollows, TemporaryFollowsAnswers, TemporaryRestsOnAnswers, ThingsAreDeclaredOnce};

/// An admitted assignment that contains nothing kept from earlier solves contains no nogood that this one keeps.
pub fn kept_lines_hold()
    ensures { KeptLinesHold }
{}

/// Where what was kept before are consequences, so is what a solve keeps.
pub fn kept_stays_true()
    ensures { KeptStaysTrue }
{}

/// A temporary nogood is contained only in those admitted assignments whose atoms are an earlier answer.
pub fn temporary_rests_on_answers()
    ensures { TemporaryRestsOnAnswers }
{}

/// A temporary nogood comes only after an answer, so a solve without answers keeps all that it learns.
pub fn temporary_follows_answers()
    ensures { TemporaryFollowsAnswers }
{}

/// A complete solve lists each admitted assignment that meets what is demanded.
pub fn complete_lists_all()
    ensures { CompleteListsAll }
{}

/// Each answer is one that may be listed, and no two are equal.
pub fn answers_are_listed_once()
    ensures { AnswersAreListedOnce }
{}

/// Each answer is followed by its own line, which an admitted assignment with its atoms contains.
pub fn own_line_follows()
    ensures { OwnLineFollows }
{}

/// No line contains an earlier one, a completion nogood, or one that was kept from earlier solves.
pub fn lines_contain_no_earlier()
    ensures { LinesContainNoEarlier }
{}

/// No later solve learns again what is kept.
pub fn kept_is_not_learned_again()
    ensures { KeptIsNotLearnedAgain }
{}

/// The lines of a solve are different nogoods, at most three to the power of the number of things.
pub fn lines_are_few()
    ensures { LinesAreFew }
{}

/// No solve is cut whose limit is greater than three to the power of the number of things.
pub fn great_limits_cut_nothing()
    ensures { GreatLimitsCutNothing }
{}

/// A solve that is cut has as many learned lines as its limit and its answers together, and any other no more.
pub fn learned_lines_are_counted()
    ensures { LearnedLinesAreCounted }
{}

/// A learned nogood that isn't an answer's own brings something that unit closure doesn't give.
pub fn learned_lines_are_new()
    ensures { LearnedLinesAreNew }
{}

/// The kept list of a longer log follows from that of the shorter one and the lines since.
pub fn kept_list_goes_on()
    ensures { KeptListGoesOn }
{}

/// A thing is declared once.
pub fn things_are_declared_once()
    ensures { ThingsAreDeclaredOnce }
{}
