// What calls ground and what a solve lists: the words that the machine, its grounder, its solver and its listings share.
#![tactic(auto)]

pub mod shown;
