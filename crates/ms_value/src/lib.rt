// The values of terms of core rules under a choice of integers for their ranges.
#![tactic(auto)]

mod comparing;
mod evaluating;
mod integers;
mod place;
mod walk;

pub use comparing::{holds, integers_hold};
pub use evaluating::{evaluate, evaluate_all};
pub use integers::{ends, integer};
pub use ms_term::{OutOfMemory, TermId, Terms};
pub use walk::Walk;
