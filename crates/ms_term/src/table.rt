// The nodes of terms, each once.
ghost use Rattle.std.specs.Prelude.{◌≡◌, ◌<◌, IfOk, OnErr, length, slice_get, Some, is_some, position};
ghost use Rattle.std.specs.List.{list_any};
ghost use Rattle.ms_term.specs.Tables.{IsInserted, IsSameTable, IsSmallWith};
ghost use Rattle.ms_term.specs.Wanted.{matches};

use crate::node::Node;
use crate::term_id::TermId;
use crate::wanted::Wanted;
use indexmap::IndexSet;
use ms_base::limits::MOST_SYMBOLS;
use ms_base::memory::OutOfMemory;
use std::alloc::Global;

/// Nodes, and how many of them stand before the first whose term is large.
#[derive(Drop)]
pub(crate) struct Table {
    pub(crate) nodes: IndexSet<Node>,
    pub(crate) small: usize,
}

impl Table {
    /// No nodes, which take no memory.
    pub(crate) fn new(alloc: Global) -> Self
        ensures nodes { length result.nodes.keys ≡ 0 }
        ensures small { result.small ≡ 0 }
    {
        Table {
            nodes: IndexSet::new(alloc),
            small: 0,
        }
    }

    /// The place of a node, which goes last where it is new.
    pub(crate) fn insert(&mut self, node: Node) -> Result<TermId, OutOfMemory>
        ensures ok { IfOk result (IsInserted self.old self.new node) }
        ensures err { OnErr result (IsSameTable self.old self.new) }
    {
        let size = node.size();
        let (place, _) = self.nodes.insert_full(node)?;
        self.small = small_with(self.small, place, self.nodes.len(), size);
        Ok(TermId(place))
    }

    /// The place of a node, or `None` exactly where it isn't there.
    pub(crate) fn find(&self, wanted: Wanted<'_>) -> Option<TermId>
        ensures place { result ≡ position (matches wanted.entry) self.now.nodes.keys }
        ensures found { is_some result ≡ list_any (matches wanted.entry) self.now.nodes.keys }
    {
        let place = self.nodes.get_index_of(wanted)?;
        Some(TermId(place))
    }

    /// The node of a place.
    pub(crate) fn node(&self, place: TermId) -> &Node
        requires { place < length self.now.nodes.keys }
        ensures { slice_get self.now.nodes.keys place ≡ Some result.now }
    {
        &self.nodes.as_slice()[place.0]
    }
}

// How many terms stand before the first large one among `len`, where so many stood there before the last was put in
// its place.
fn small_with(small: usize, place: usize, len: usize, size: u64) -> usize
    ensures { IsSmallWith small place len size result }
{
    if place == small && size <= MOST_SYMBOLS {
        len
    } else {
        small
    }
}
