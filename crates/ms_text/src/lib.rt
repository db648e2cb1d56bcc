// Tokens, and the definitions of specs/ that say which tokens a text has.
#![tactic(auto)]

pub mod token;
