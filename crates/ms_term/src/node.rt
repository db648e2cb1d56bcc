// How a table keeps a term.
ghost use Rattle.std.specs.Prelude.{◌≡◌};
ghost use Rattle.ms_term.specs.Tables.{node_size};

use crate::term_id::TermId;
use smallvec::SmallVec;

/// Arguments, of which most functions have few.
pub(crate) type Arguments = SmallVec<TermId, 2>;

/// A term whose bytes and whose arguments are numbers. The size is the number of its symbols, held at the greatest u64.
#[derive(Drop, PartialEq, Eq, Hash)]
pub(crate) enum Node {
    Number(i64),
    Text(usize),
    Function {
        name: usize,
        arguments: Arguments,
        size: u64,
    },
}

impl Node {
    /// The number of symbols, held at the greatest u64.
    pub(crate) fn size(&self) -> u64
        ensures { result ≡ node_size self.now }
    {
        match self {
            Node::Number(_) | Node::Text(_) => 1,
            Node::Function { size, .. } => *size,
        }
    }
}
