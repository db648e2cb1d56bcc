// Statements, terms and values as texts have them, and the definitions of specs/ that say which tokens spell
// them.
#![tactic(auto)]

pub mod part;
pub mod statement;
pub mod term;
pub mod value;
