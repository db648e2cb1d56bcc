// Ground terms by number, their order and text, and arithmetic on integers of 64 bits.
#![tactic(auto)]

mod arithmetic;
mod comparing;
mod node;
mod order;
mod printing;
mod shape;
mod table;
mod term_id;
mod terms;
mod text;
mod wanted;
mod words;

pub use arithmetic::arith;
pub use ms_base::memory::OutOfMemory;
pub use ms_tree::Op;
pub use order::{compare, compare_lists, in_term_order};
pub use term_id::TermId;
pub use terms::{TermMark, Terms};
