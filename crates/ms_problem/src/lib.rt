// The definitions of specs/ that say what a solve of a join is about: the things by their numbers, what is demanded of
// atoms, and which answer sets are asked for.
#![tactic(auto)]
