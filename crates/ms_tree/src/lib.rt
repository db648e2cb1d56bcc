// Ground terms as trees: their order, text, size and arithmetic. The definitions stand in specs/.
#![tactic(auto)]

mod op;

pub use op::Op;
