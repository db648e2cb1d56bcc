// The solver that lives on while a join of ground modules grows.
#![tactic(auto)]

mod admitted;
mod extending;
mod laws;
mod question;
mod solver;
mod solving;
mod told;

pub use admitted::{admitted_are_asked, asked_are_found, atoms_decide};
pub use laws::{
    assigned_is_served, learned_lasts, stored_is_consequence, stored_is_known, values_are_assumed,
};
pub use ms_search::{OutOfMemory, Run};
pub use solver::{Solver, SolverBy};
