// The loop nogoods of a join as a theory: sets of atoms that have no support from outside.
#![tactic(auto)]

mod laws;
mod marking;
mod members;
mod part;
mod search;
mod taking;
mod unfounded;
mod watch;
mod written;

pub use laws::{
    admitted_is_possible, assign_keeps_loops, atoms_decide, completion_declares, given_rise,
    possible_by_given, release_keeps_loops, same_keeps_loops, settled_is_founded,
    taken_with_completion,
};
pub use ms_base::memory::OutOfMemory;
pub use unfounded::Unfounded;
