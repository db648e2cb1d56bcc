// The words that all crates share: the project's list type, the number of an atom, and the limits.
#![tactic(auto)]

pub mod atom_id;
pub mod limits;
pub mod memory;
pub mod seq;
pub mod truth;
