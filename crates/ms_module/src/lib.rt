// Joins of ground modules: the test whether a module can be joined, the join, and the truth of its inputs.
#![tactic(auto)]

mod bodies;
mod check;
mod copies;
mod join;
mod least;
mod loops;
mod state;

pub use join::Join;
pub use ms_base::atom_id::AtomId;
pub use ms_base::memory::OutOfMemory;
pub use ms_join::join_fault::JoinFault;
