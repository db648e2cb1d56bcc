// The ground module of core rules over a base.
#![tactic(auto)]

mod calls;
mod fault;
mod module;
mod new_atoms;
mod numbers;
mod plain_rules;
mod rule;
mod size;

pub use calls::ground;
pub use fault::GroundFault;
pub use ms_term::{OutOfMemory, TermId, Terms};
pub use size::has_large_head;
