// The parts of texts, their constants, and the core rules of a call: parameters, constants, pools and intervals
// are replaced, and choices become single choices with their bounds.
#![tactic(auto)]

mod body;
mod call;
mod conds;
mod core_rules;
mod duplicate;
mod meaning;
mod parts;
mod pools;
mod pools_form;
mod ranges;
mod replace;
mod replace_form;
mod rows;

pub use ms_base::memory::OutOfMemory;
pub use ms_core::rule::CoreRules;
pub use ms_grammar::statement::Statements;
pub use ms_grammar::value::Value;
pub use ms_texts::TextFault as PartsFault;
pub use parts::Parts;
