// The store of nogoods.
#![tactic(auto)]

mod kind;
mod nogoods;
mod propagate;
mod scan;
mod theory;

pub use kind::Kind;
pub use ms_lits::{Lit, OutOfMemory};
pub use nogoods::Nogoods;
pub use propagate::{Plain, Propagate};
pub use scan::Scan;
pub use theory::{Theory, Verdict};
