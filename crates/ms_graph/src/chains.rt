// The edges from each node that remain to be followed, linked backwards in the order of the list. A link is the
// place after an edge, or 0.
ghost use Rattle.std.specs.Prelude.{◌≡◌, ◌<◌, length, slice_index, IfOk, IfSome, IfNone};
ghost use Rattle.ms_graph.specs.Chains.{AreChains, AllRemain, IsTaken};
ghost use Rattle.ms_graph.specs.Components.{IsGraph};

use crate::edge::Edge;
use ms_base::memory::OutOfMemory;
use std::alloc::Global;

/// For each node the link to the last of its edges that remain, and for each edge the link to the one before it
/// from the same node.
#[derive(Drop)]
pub(crate) struct Chains {
    pub(crate) last: Vec<usize>,
    pub(crate) before: Vec<usize>,
}

impl Chains {
    /// All edges remain.
    pub(crate) fn new(alloc: Global, nodes: u32, edges: &[Edge]) -> Result<Chains, OutOfMemory>
        requires { IsGraph nodes edges.now }
        ensures len { IfOk result (λ chains. length chains.last.items ≡ nodes) }
        ensures chains { IfOk result (λ chains. AreChains edges.now chains.last.items chains.before.items) }
        ensures all { IfOk result (λ chains. AllRemain edges.now chains.last.items) }
    {
        let mut last = vec![in alloc; 0; nodes as usize]?;
        let mut before = Vec::new(alloc);
        for i in 0..edges.len() {
            let start = edges[i].from as usize;
            before.push(last[start])?;
            last[start] = i + 1;
        }
        Ok(Chains { last, before })
    }

    /// Takes the last edge that remains from the node, where there is one, and gives its end.
    pub(crate) fn take(&mut self, edges: &[Edge], node: u32) -> Option<u32>
        requires chains { AreChains edges.now self.old.last.items self.old.before.items }
        requires node { node < length self.old.last.items }
        ensures len { length self.new.last.items ≡ length self.old.last.items }
        ensures chains { AreChains edges.now self.new.last.items self.new.before.items }
        ensures taken { IfSome result (IsTaken edges.now node self.old.last.items self.new.last.items) }
        ensures none { IfNone result (slice_index self.old.last.items node ≡ 0) }
        ensures same { IfNone result (self.new.last.items ≡ self.old.last.items) }
    {
        let link = self.last[node as usize];
        if link == 0 {
            return None;
        }
        self.last[node as usize] = self.before[link - 1];
        Some(edges[link - 1].to)
    }
}
