// Replies, and the definitions of specs/ that say which replies a script gets.
#![tactic(auto)]

pub mod reply;
