// The copies of core rules, one after the other.
#![tactic(auto)]

mod fault;
pub mod instance;
mod listing;
mod making;

pub use fault::InstanceFault;
pub use instance::{Instance, Instances};
pub use listing::instances;
pub use ms_term::{OutOfMemory, TermId, Terms};
