// Unit propagation by two watched literals for each nogood.
#![tactic(auto)]

mod choice;
mod lists;
mod state;
mod watches;

pub use ms_lits::{Lit, OutOfMemory};
pub use watches::Watches;
