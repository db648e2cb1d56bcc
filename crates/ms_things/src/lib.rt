// The definitions of specs/ that number the things of a join, and say which nogoods over things its completion has, which
// its loops and aggregates have, and which are its consequences.
#![tactic(auto)]
