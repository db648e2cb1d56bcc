// Literals, the partial assignment of the search by levels, and the notes of the log.
#![tactic(auto)]

mod lit;
mod note;
mod trail;

pub use lit::{Answers, Lit, Lits, Numbers};
pub use ms_base::memory::OutOfMemory;
pub use note::{Ending, Note, Notes};
pub use trail::{Entry, Trail};
