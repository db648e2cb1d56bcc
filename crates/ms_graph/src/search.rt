// The path-based search for strong components.
//
// The stack has the open nodes: those that were entered and have no number yet, in the order in which they were
// entered. The path leads along edges to the node whose edges are followed now, and all its nodes are open. The
// stack is cut into segments, which start at nodes of the path. Each open node reaches those after it, and
// nodes of one segment reach each other, so each open node reaches the end of the path.
// An edge from there to an open node joins the segments from that node on, since the end of the path now
// reaches it. The last node of the path is left once all its edges were followed, as those of the nodes after
// it were before. If a segment starts there, each edge of the segment leads into it or to a closed node. So it
// is a component, and the other components that it reaches have smaller numbers.
ghost use Rattle.std.specs.Prelude.{ℕ, ◌≡◌, ◌+◌, ◌<◌, ◌≤◌, ◌==◌, [], All, map, length, slice_index, IfOk, OnOk};
ghost use Rattle.ms_graph.specs.Chains.{AreChains};
ghost use Rattle.ms_graph.specs.Components.{IsGraph, IsNumbering};
ghost use Rattle.ms_graph.specs.Stages.{IsClosed, KeepsEntered, numbered, stage_of};
ghost use Rattle.ms_graph.specs.Search.{IsSearch, IsStart, IsStored, current, entered, followed, last_of, left, merged, work};
ghost use Rattle.ms_graph.specs.declared.stage.Stage.TheVariants.{New, Closed};

use crate::chains::Chains;
use crate::edge::Edge;
use crate::stage::Stage;
use crate::{Comps, Edges};
use ms_base::memory::OutOfMemory;
use ms_base::seq::Seq;
use std::alloc::Global;
use std::marker::Model;

/// The state of a search. Contracts see it as the record of its lists.
#[derive(Drop)]
struct Search {
    /// How far the search is with each node.
    stages: Vec<Stage>,
    /// The open nodes.
    stack: Vec<u32>,
    /// The places of the stack in which segments start.
    segments: Vec<u32>,
    /// The places of the stack of the nodes of the path.
    path: Vec<u32>,
    /// How many components are closed.
    count: u32,
}

impl Model for Search {
    ghost use Rattle.ms_graph.specs.State.{State};

    ghost Value = { State };

    ghost view = { λ s. record { stages = s.stages.items; stack = s.stack.items; segments = s.segments.items; path = s.path.items; count = s.count } };
}

impl Search {
    /// All nodes are new.
    fn new(alloc: Global, nodes: u32) -> Result<Search, OutOfMemory>
        ensures { IfOk result (IsStart nodes) }
    {
        Ok(Search {
            stages: vec![in alloc; Stage::New; nodes as usize]?,
            stack: Vec::new(alloc),
            segments: Vec::new(alloc),
            path: Vec::new(alloc),
            count: 0,
        })
    }

    /// The last node of the path.
    fn current(&self) -> Option<u32>
        requires { IsStored self.now }
        ensures { result ≡ current self.now }
    {
        match self.path.last() {
            Some(place) => Some(self.stack[*place as usize]),
            None => None,
        }
    }

    /// Enters a new node, which goes to the end of the path and begins a segment.
    fn enter(&mut self, node: u32) -> Result<(), OutOfMemory>
        requires stored { IsStored self.old }
        requires node { node < length self.old.stages }
        ensures { OnOk result (self.new ≡ entered self.old node) }
    {
        let place = self.stack.len() as u32;
        self.stages[node as usize] = Stage::Open(place);
        self.stack.push(node)?;
        self.segments.push(place)?;
        self.path.push(place)?;
        Ok(())
    }

    /// Joins the segments from the one of this place on.
    fn merge(&mut self, place: u32)
        requires { IsStored self.old }
        ensures { self.new ≡ merged self.old place }
    {
        let count = count_up_to(&self.segments, place);
        self.segments.truncate(count);
    }

    /// Follows an edge from the end of the path to this node.
    fn follow(&mut self, node: u32) -> Result<(), OutOfMemory>
        requires stored { IsStored self.old }
        requires node { node < length self.old.stages }
        ensures { OnOk result (self.new ≡ followed self.old node) }
    {
        match self.stages[node as usize] {
            Stage::New => self.enter(node)?,
            Stage::Open(place) => self.merge(place),
            Stage::Closed(_) => (),
        }
        Ok(())
    }

    /// Takes the last node from the path. Where a segment starts there, it becomes a component.
    fn leave(&mut self)
        requires stored { IsStored self.old }
        requires path { 0 < length self.old.path }
        ensures { self.new ≡ left self.old }
    {
        let Some(place) = self.path.pop() else {
            return;
        };
        if is_last(&self.segments, place) {
            self.segments.pop();
            let start = place as usize;
            let nodes = &self.stack[start..];
            close(&mut self.stages, nodes, self.count);
            self.stack.truncate(start);
            self.count += 1;
        }
    }

    /// Follows the next edge of the path's last node, or leaves the node where none remains.
    fn step(&mut self, edges: &[Edge], chains: &mut Chains, node: u32) -> Result<(), OutOfMemory>
        requires graph { IsGraph (length self.old.stages) edges.now }
        requires chains { AreChains edges.now chains.old.last.items chains.old.before.items }
        requires search { IsSearch edges.now chains.old.last.items self.old }
        requires node { current self.old ≡ Some node }
        ensures chains { AreChains edges.now chains.new.last.items chains.new.before.items }
        ensures search { OnOk result (IsSearch edges.now chains.new.last.items self.new) }
        ensures len { OnOk result (length self.new.stages ≡ length self.old.stages) }
        ensures entered { OnOk result (KeepsEntered self.old.stages self.new.stages) }
        ensures shrinks { OnOk result (work chains.new.last.items self.new < work chains.old.last.items self.old) }
    {
        match chains.take(edges, node) {
            Some(end) => self.follow(end)?,
            None => self.leave(),
        }
        Ok(())
    }

    /// Searches from a node until the path is empty again.
    fn explore(&mut self, edges: &[Edge], chains: &mut Chains, root: u32) -> Result<(), OutOfMemory>
        requires graph { IsGraph (length self.old.stages) edges.now }
        requires chains { AreChains edges.now chains.old.last.items chains.old.before.items }
        requires search { IsSearch edges.now chains.old.last.items self.old }
        requires path { self.old.path ≡ [] }
        requires root { root < length self.old.stages }
        ensures chains { AreChains edges.now chains.new.last.items chains.new.before.items }
        ensures search { OnOk result (IsSearch edges.now chains.new.last.items self.new) }
        ensures path { OnOk result (self.new.path ≡ []) }
        ensures len { OnOk result (length self.new.stages ≡ length self.old.stages) }
        ensures entered { OnOk result (KeepsEntered self.old.stages self.new.stages) }
        ensures root { OnOk result (stage_of self.new.stages root ≡ New → ⊥) }
    {
        self.follow(root)?;
        while let Some(node) = self.current() {
            self.step(edges, chains, node)?;
        }
        Ok(())
    }

    /// The number of each node's component, where all nodes are closed.
    fn numbers(&self, alloc: Global) -> Result<Comps, OutOfMemory>
        requires { All IsClosed self.now.stages }
        ensures { IfOk result (λ numbers. map (λ number. Closed number) numbers ≡ self.now.stages) }
    {
        let mut numbers = Seq::new(alloc);
        for stage in &self.stages {
            numbers.push(stage.number())?;
        }
        Ok(numbers)
    }
}

/// How many of the rising places are not beyond this one.
fn count_up_to(places: &[u32], place: u32) -> usize
    ensures within { result ≤ length places.now }
    ensures last { (k : ℕ) → result ≡ k + 1 → slice_index places.now k ≤ place }
    ensures beyond { (k : ℕ) → result ≤ k → k < length places.now → place < slice_index places.now k }
{
    let mut count = places.len();
    while count > 0 && places[count - 1] > place {
        count -= 1;
    }
    count
}

/// The place is the last of these.
fn is_last(places: &[u32], place: u32) -> bool
    requires { 0 < length places.now }
    ensures { result ≡ (last_of places.now == place) }
{
    places[places.len() - 1] == place
}

/// Closes the nodes with this number.
fn close(stages: &mut [Stage], nodes: &[u32], number: u32)
    requires { All (λ a. a < length stages.old) nodes.now }
    ensures { stages.new ≡ numbered stages.old nodes.now number }
{
    for node in nodes {
        stages[*node as usize] = Stage::Closed(number);
    }
}

/// A number for each node, below the number of nodes. Two nodes have equal numbers exactly where each reaches
/// the other, and no edge leads to a greater number. The ends of edges are below the number of nodes. Each
/// edge is followed once, and each node is entered once and left once, so time and room grow with nodes plus
/// edges. It fails only for want of memory.
pub fn components(alloc: Global, nodes: u32, edges: &Edges) -> Result<Comps, OutOfMemory>
    requires { IsGraph nodes edges.now }
    ensures { IfOk result (IsNumbering nodes edges.now) }
{
    let edges = edges.as_slice();
    let mut chains = Chains::new(alloc, nodes, edges)?;
    let mut search = Search::new(alloc, nodes)?;
    for node in 0..nodes {
        search.explore(edges, &mut chains, node)?;
    }
    search.numbers(alloc)
}
