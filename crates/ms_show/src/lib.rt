// The shown atoms of answer sets: their sorted listing, and its lines.
#![tactic(auto)]

mod lines;
mod shown;

pub use lines::print;
pub use ms_solving::shown::Shown;
pub use shown::listing;
