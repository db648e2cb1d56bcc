// Core rules, and the definitions of specs/ that say which core rules the parts of texts have.
#![tactic(auto)]

pub mod pattern;
pub mod rule;
