// The strongly connected components of a graph, numbered so that no edge leads to a greater number.
#![tactic(auto)]

mod chains;
mod edge;
mod search;
mod stage;

pub use edge::Edge;
pub use ms_base::memory::OutOfMemory;
use ms_base::seq::Seq;
pub use search::components;

/// Edges, of which several may join the same nodes.
pub type Edges = Seq<Edge>;

/// The number of each node's component.
pub type Comps = Seq<u32>;
