// The atoms of a base, in the order in which they came.
#![tactic(auto)]

mod atom_base;

pub use atom_base::{AtomBase, Mark};
pub use ms_base::atom_id::AtomId;
pub use ms_term::{OutOfMemory, TermId};
