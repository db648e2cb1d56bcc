// The components of a join around given atoms. Two searches, one for what the atoms depend on and one for what depends on
// them, are advanced in turn until either is exhausted. The cost follows the rules that are new and the smaller of
// the two parts of the join, and not the join.
#![tactic(auto)]

mod cone;
mod dependencies;
mod links;
mod search;

pub use cone::Cone;
pub use dependencies::Dependencies;
pub use ms_base::atom_id::AtomId;
pub use ms_base::memory::OutOfMemory;
