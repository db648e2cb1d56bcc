// Atoms and bodies of a join as numbered things, and the nogoods of its completion over them.
#![tactic(auto)]

mod complete;
mod key;
mod nogoods;
mod notes;
mod numbers;
mod steps;
mod supports;
mod written;

pub use complete::Complete;
pub use ms_base::memory::OutOfMemory;
pub use steps::{assign_completes, release_completes, start_completes};
