// A node that is looked up, with its arguments lent.

ghost use Rattle.ms_term.specs.LookUps.{matches_hash, matches_eq};
ghost use Rattle.ms_term.specs.Wanted.{matches};

use crate::node::Node;
use crate::term_id::TermId;
use indexmap::Equivalent;

/// The same as a node, but for the arguments, which are lent.
#[derive(Clone, Copy, PartialEq, Eq, Hash)]
pub(crate) enum Wanted<'a> {
    Number(i64),
    Text(usize),
    Function {
        name: usize,
        arguments: &'a [TermId],
        size: u64,
    },
}

impl Equivalent<Node> for Wanted<'_> {
    ghost equivalent = { matches };

    ghost respects_hash = { matches_hash };

    ghost respects_eq = { matches_eq };

    fn equivalent(&self, key: &Node) -> bool {
        match (self, key) {
            (Wanted::Number(m), Node::Number(n)) => m == n,
            (Wanted::Text(word), Node::Text(other)) => word == other,
            (
                Wanted::Function {
                    name,
                    arguments,
                    size,
                },
                Node::Function {
                    name: other_name,
                    arguments: others,
                    size: other_size,
                },
            ) => name == other_name && *arguments == others.as_slice() && size == other_size,
            _ => false,
        }
    }
}
